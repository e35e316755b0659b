// The first item of a query that names what a list has no name for.
#![tactic(auto)]

ghost use Rattle.std.specs.Prelude.{◌≡◌, ◌≤◌, ◌<◌, IfSome, length};
ghost use Rattle.paper.specs.Limits.{names_limit};
ghost use Rattle.paper.specs.Items.{step_at};
ghost use Rattle.paper.specs.Answers.{unknown_item, unknown_from};
ghost use Rattle.paper.specs.Told.{found};

use item::Item;

// Does the item name what a list of so many names has no name for?
fn unknown(w: u32, count: usize) -> bool
    requires { count ≤ names_limit }
    ensures { result ≡ unknown_item count (step_at w) }
{
    let item = item::unpack(w);
    let Item::Step(step) = item else {
        return false;
    };
    let test = step.test as usize;
    (test < item::ANY_ELEMENT as usize) & (count + item::NAMED as usize <= test)
}

// The index of the first such item, if there is one.
pub fn first_unknown(items: &[u32], count: usize) -> Option<usize>
    requires { count ≤ names_limit }
    ensures told { found result ≡ unknown_from count 0 items.now }
    ensures within { IfSome result (λ at. at < length items.now) }
{
    for (at, &item) in items.iter().enumerate() {
        if unknown(item, count) {
            return Some(at);
        }
    }
    None
}
