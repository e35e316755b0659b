// Guarding the items of a path: one pass over them, in which each step that is named gets V.
// Which steps are named is said by the axes of other items beside them, `says`: where a guarded step stands in them, the step gets V.
#![tactic(auto)]

ghost use Rattle.std.specs.Prelude.{◌≡◌, [], ◌∷◌, map, ◌+◌, ◌≤◌, ◌<◌, length, take, drop};
ghost use Rattle.paper.specs.Limits.{item_limit};
ghost use Rattle.paper.specs.Items.{axis_bound, test_bound, count_limit};
ghost use Rattle.item.specs.Placed.{placed};
ghost use Rattle.owed.specs.Owing.{owing};
ghost use Rattle.guards.specs.Guarded.{guard_item, guard_items, guarded_step, guarded_item, guarded_items, Raisable};

use item::{Item, Step};

// One for a guarded step, nothing for another item.
fn one_guard(w: u32) -> usize
    ensures { result ≡ guard_item w }
{
    let item = item::unpack(w);
    let Item::Step(step) = item else {
        return 0;
    };
    if item::guarded(step.axis) { 1 } else { 0 }
}

// How many of the items are guarded steps.
pub fn count_guards(items: &[u32]) -> usize
    requires { length items.now ≤ item_limit }
    ensures { (result ≡ guard_items items.now) × (result ≤ length items.now) }
{
    let mut guards = 0;
    for &item in items {
        guards += one_guard(item);
    }
    guards
}

// A guarded step: it gets V as its first predicate.
fn guard_step(step: Step, out: &mut [u32], at: usize, from: usize, count: usize) -> usize
    requires { (step.axis < axis_bound) × (step.test < test_bound) × (step.count < count_limit) × (at + 6 + count + count ≤ from) × (from + count ≤ length out.old) }
    ensures { (out.new ≡ placed (guarded_step (take count (drop from out.old)) step) at out.old) × (result ≡ at + 6 + count + count) }
{
    out[at] = item::pack_step(Step {
        axis: step.axis,
        test: step.test,
        count: step.count + 1,
    });
    visible::put_visible(out, at + 1, from, count)
}

// An item that stays as it is.
fn keep_item(w: u32, out: &mut [u32], at: usize) -> usize
    requires { at < length out.old }
    ensures { (out.new ≡ placed (w ∷ []) at out.old) × (result ≡ at + 1) }
{
    out[at] = w;
    at + 1
}

// One item of a guarded path: a step gets V where the item beside it is a guarded step, another item stays as it is.
fn guard_item(w: u32, out: &mut [u32], at: usize, from: usize, count: usize, says: u32) -> usize
    requires { (owing w < count_limit) × (at + length (guarded_item (take count (drop from out.old)) (guard_item says) w) ≤ from) × (from + count ≤ length out.old) }
    ensures { (out.new ≡ placed (guarded_item (take count (drop from out.old)) (guard_item says) w) at out.old)
        × (result ≡ at + length (guarded_item (take count (drop from out.old)) (guard_item says) w)) }
{
    let guards = one_guard(says);
    if guards == 0 {
        return keep_item(w, out, at);
    }
    let said = item::unpack(w);
    let Item::Step(step) = said else {
        return keep_item(w, out, at);
    };
    guard_step(step, out, at, from, count)
}

// The items of a path's steps, guarded.
pub fn guard_steps(
    steps: &[u32],
    out: &mut [u32],
    start: usize,
    from: usize,
    count: usize,
    says: &[u32],
) -> usize
    requires { (Raisable steps.now) × (length says.now ≡ length steps.now)
        × (start + length (guarded_items (take count (drop from out.old)) (map guard_item says.now) steps.now) ≤ from) × (from + count ≤ length out.old) }
    ensures { (out.new ≡ placed (guarded_items (take count (drop from out.old)) (map guard_item says.now) steps.now) start out.old)
        × (result ≡ start + length (guarded_items (take count (drop from out.old)) (map guard_item says.now) steps.now)) }
{
    let mut at = start;
    for place in 0..steps.len() {
        at = guard_item(steps[place], out, at, from, count, says[place]);
    }
    at
}
