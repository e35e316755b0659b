// The height of parts that are joined, and the brackets open at a step.
#![tactic(auto)]

ghost use Rattle.std.specs.Prelude.{◌≡◌, cond, ◌^◌, ◌≤◌, ◌<◌};
ghost use Rattle.paper.specs.Limits.{bracket_limit};
ghost use Rattle.item.specs.Unpacked.{guarded_number};
ghost use Rattle.heights.specs.Heights.{joined_height, opened};

// The height of a part joined to what was read before it, whose height is 0 where nothing was.
pub fn joined(high: usize, height: usize) -> usize
    requires { (high < 2 ^ 63) × (height < 2 ^ 63) }
    ensures { result ≡ joined_height high height }
{
    if high == 0 {
        height
    } else {
        high.max(height) + 1
    }
}

// How many brackets are open at a step, where so many more may be opened and the step is guarded; 0 where it is not.
#[tactic(auto, unfolding(crate::specs::Heights::opened))]
pub fn own_depth(axis: u32, depth: usize) -> usize
    requires { depth ≤ bracket_limit }
    ensures { result ≡ cond (guarded_number axis) (opened depth) 0 }
{
    if item::guarded(axis) {
        paper::BRACKET_LIMIT - depth
    } else {
        0
    }
}
