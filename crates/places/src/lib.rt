// Where the steps of a path stand in the items of a query, and what stands at a place.
#![tactic(auto)]

ghost use Rattle.std.specs.Prelude.{suc, ◌-◌, ◌%◌, ◌≤◌, ◌<◌, ◌≡◌, Some, length, get_or, drop};
ghost use Rattle.std.specs.Borrow.{Bor};
ghost use Rattle.std.proofs.Math.Option.{some};
ghost use Rattle.paper.specs.Limits.{bracket_limit};
ghost use Rattle.paper.specs.Items.{path_at, take_steps, take_within};
ghost use Rattle.places.specs.declared.Places.{Places};
ghost use Rattle.places.specs.Standing.{Readable, Ends, Known, StepThere, StepSaid, PathThere};

use item::{Item, Step};

// Where so many steps end.
pub fn past_steps(items: &[u32], at: usize, count: usize, depth: usize) -> usize
    requires { (at ≤ length items.now) × (depth ≤ bracket_limit) × (Readable (take_steps (take_within depth) count (drop at items.now))) }
    ensures { Ends items.now at (take_steps (take_within depth) count (drop at items.now)) result }
{
    let Some(walked) = shape::steps(items, at, count, depth) else {
        return at;
    };
    walked.next
}

// Where steps of a path stand: the last one after a multiple of 256 others, the last one after a multiple of 16, and the one looked for.
#[derive(Clone, Copy)]
pub struct Places {
    pub far: usize,
    pub near: usize,
    pub place: usize,
}

// Where the last multiple of 256 steps ends: the place known, where it is not passed, else found anew.
fn far_end(items: &[u32], at: usize, known: Option<&Places>, to: usize, depth: usize) -> usize
    requires at_in_bounds { (at ≤ length items.now) × (depth ≤ bracket_limit) × ((places : Bor Places) → known ≡ Some places → Known items.now at depth (suc to) places.now) }
    requires readable { Readable (take_steps (take_within depth) to (drop at items.now)) }
    ensures { Ends items.now at (take_steps (take_within depth) (to - to % 256) (drop at items.now)) result }
{
    match known {
        Some(places) if to % 256 != 255 => places.far,
        _ => past_steps(items, at, to - to % 256, depth),
    }
}

// Where the last multiple of 16 steps ends: the place known, where it is not passed, else found anew from the last multiple of 256.
fn near_end(
    items: &[u32],
    at: usize,
    far: usize,
    known: Option<&Places>,
    to: usize,
    depth: usize,
) -> usize
    requires at_in_bounds { (at ≤ length items.now) × (depth ≤ bracket_limit) × ((places : Bor Places) → known ≡ Some places → Known items.now at depth (suc to) places.now) }
    requires readable { Readable (take_steps (take_within depth) to (drop at items.now)) }
    requires far { Ends items.now at (take_steps (take_within depth) (to - to % 256) (drop at items.now)) far }
    ensures { Ends items.now at (take_steps (take_within depth) (to - to % 16) (drop at items.now)) result }
{
    match known {
        Some(places) if to % 16 != 15 => places.near,
        _ => past_steps(items, far, to % 256 - to % 16, depth),
    }
}

// Looks for the step after so many others: from where the one after it was looked for last, if it was, else anew.
pub fn look(items: &[u32], at: usize, known: Option<&Places>, to: usize, depth: usize) -> Places
    requires at_in_bounds { (at ≤ length items.now) × (depth ≤ bracket_limit) × ((places : Bor Places) → known ≡ Some places → Known items.now at depth (suc to) places.now) }
    requires readable { Readable (take_steps (take_within depth) to (drop at items.now)) }
    ensures { (Known items.now at depth to result) × (Ends items.now at (take_steps (take_within depth) to (drop at items.now)) result.place) }
{
    let far = far_end(items, at, known, to, depth);
    let near = near_end(items, at, far, known, to, depth);
    let place = past_steps(items, near, to % 16, depth);
    Places { far, near, place }
}

// Looks for the end of so many steps.
pub fn look_first(items: &[u32], at: usize, count: usize, depth: usize) -> Places
    requires at_in_bounds { (at ≤ length items.now) × (depth ≤ bracket_limit) }
    requires readable { Readable (take_steps (take_within depth) count (drop at items.now)) }
    ensures { (Known items.now at depth count result) × (Ends items.now at (take_steps (take_within depth) count (drop at items.now)) result.place) }
{
    look(items, at, None, count, depth)
}

// The step at a place where one stands.
pub fn step_at(items: &[u32], place: usize) -> Step
    requires { (place < length items.now) × (StepThere (get_or items.now place 0)) }
    ensures { StepSaid (get_or items.now place 0) result }
{
    let item = item::unpack(items[place]);
    let Item::Step(step) = item else {
        return Step {
            axis: item::SELF,
            test: item::ANY_NODE,
            count: 0,
        };
    };
    step
}

// The step count of the path at a place where one stands.
pub fn path_at(items: &[u32], place: usize) -> usize
    requires { (place < length items.now) × (PathThere (get_or items.now place 0)) }
    ensures { path_at (get_or items.now place 0) ≡ some result }
{
    let item = item::unpack(items[place]);
    let Item::Path(count) = item else {
        return 0;
    };
    count
}
