// The lean composition's decision on each step of a query, as the axis of a copy: child where the step is guarded, self where it is not.
// One pass in the order of the items: a step finds in the copy what the step before it in its path left there, and leaves the same for the next one.
#![tactic(auto)]

ghost use Rattle.std.specs.Prelude.{◌≡◌, ◌&&◌, ◌||◌, cond, ◌+◌, ◌*◌, ◌≤◌, ◌<◌, ◌^◌, eqb, length, get_or, set, replicate};
ghost use Rattle.paper.specs.Limits.{item_limit};
ghost use Rattle.paper.specs.Items.{decode, axis_bound, test_bound, count_limit};
ghost use Rattle.paper.specs.Tools.{written};
ghost use Rattle.item.specs.Unpacked.{guarded_number};
ghost use Rattle.reverse.specs.Reverses.{IsQuery};
ghost use Rattle.lean_marks.specs.Turns.{down_number, down_item, pass_on, down_at, step_turn, path_told, turn, turns, marked_got};

use item::{Item, Step};

// Does a step along the axis go down?
fn goes_down(axis: u32) -> bool
    ensures { result ≡ down_number axis }
{
    match axis {
        item::SELF => true,
        item::CHILD => true,
        item::PARENT => false,
        item::DESCENDANT_OR_SELF => true,
        item::ANCESTOR_OR_SELF => false,
        item::DESCENDANT => true,
        item::ANCESTOR => false,
        item::FOLLOWING_SIBLING => false,
        item::PRECEDING_SIBLING => false,
        item::FOLLOWING => false,
        item::PRECEDING => false,
        _ => false,
    }
}

// Is the item a step that goes down?
fn down_item(w: u32) -> bool
    ensures { result ≡ down_item w }
{
    let item = item::unpack(w);
    let Item::Step(step) = item else {
        return false;
    };
    goes_down(step.axis)
}

// Does a step that goes down follow, where so many steps do?
fn down_at(items: &[u32], next: usize, left: usize, last: usize) -> bool
    ensures { result ≡ down_at items.now next left last }
{
    if left == 0 {
        return last == 1;
    }
    if next < items.len() {
        return down_item(items[next]);
    }
    false
}

// May the node of a step along the axis be hidden?
fn may_hide(axis: u32, loose: bool) -> bool
    ensures { result ≡ (guarded_number axis || (eqb axis 0 && loose)) }
{
    item::guarded(axis) | ((axis == item::SELF) & loose)
}

// The axis that says a decision.
fn saying(guards: bool) -> u32
    ensures { result ≡ cond guards 1 0 }
{
    if guards { item::CHILD } else { item::SELF }
}

fn twice(loose: bool) -> usize
    ensures { result ≡ cond loose 2 0 }
{
    if loose { 2 } else { 0 }
}

// Leaves a number where something stands, if anything does.
fn tell(marks: &mut [u32], at: usize, said: u32)
    ensures { marks.new ≡ set marks.old at said }
{
    if at < marks.len() {
        marks[at] = said;
    }
}

// Tells the next of so many steps, if there is one.
fn pass_on(marks: &mut [u32], next: usize, left: usize, loose: bool, last: usize)
    requires { (left ≤ 1073741824) × (last ≤ 1) }
    ensures { marks.new ≡ pass_on marks.old next left loose last }
{
    if left == 0 {
        return;
    }
    let said = (left - 1) * 4 + twice(loose) + last;
    tell(marks, next, said as u32);
}

// The turn of a step.
fn mark_step(step: Step, items: &[u32], place: usize, marks: &mut [u32])
    requires { (step.test < test_bound) × (step.count ≤ count_limit) × (place < length items.now) × (length items.now ≤ item_limit) × (place < length marks.old) }
    ensures { marks.new ≡ step_turn items.now place step marks.old }
{
    let told = marks[place] as usize;
    let left = told / 4;
    let loose = told / 2 % 2 == 1;
    let last = told % 2;
    let next = owed::skip(items, place + 1, step.count);
    let down = down_at(items, next, left, last);
    let hidden = may_hide(step.axis, loose);
    let guards = hidden & !down;
    let axis = saying(guards);
    marks[place] = item::pack_step(Step {
        axis,
        test: step.test,
        count: step.count,
    });
    pass_on(marks, next, left, hidden & !guards, last);
}

// The turn of a path: its first step is told, and behind a top-level path the next one.
fn mark_path(w: u32, count: usize, items: &[u32], place: usize, marks: &mut [u32], last: usize)
    requires { (count ≤ count_limit) × (last ≤ 1) × (place < length items.now) × (length items.now ≤ item_limit) × (place < length marks.old) }
    ensures { marks.new ≡ path_told items.now place w count last marks.old }
{
    marks[place] = w;
    pass_on(marks, place + 1, count, false, last);
    if last == 1 {
        let next = owed::skip(items, place + 1, count);
        tell(marks, next, 1);
    }
}

// The turn of an item.
fn mark_item(items: &[u32], place: usize, marks: &mut [u32])
    requires { (place < length items.now) × (length items.now ≤ item_limit) × (place < length marks.old) }
    ensures { marks.new ≡ turn items.now place (get_or items.now place 0) marks.old }
{
    let w = items[place];
    let said = item::unpack(w);
    match said {
        Item::Path(count) => {
            let last = marks[place] as usize % 2;
            mark_path(w, count, items, place, marks, last);
        }
        Item::Step(step) => mark_step(step, items, place, marks),
        _ => marks[place] = w,
    }
}

// The turns of all items, in their order.
fn mark(items: &[u32], marks: &mut [u32])
    requires { (length items.now ≤ item_limit) × (length marks.old ≡ length items.now) }
    ensures { marks.new ≡ turns items.now 0 items.now marks.old }
{
    for place in 0..items.len() {
        mark_item(items, place, marks);
    }
}

// Marks the copy of a query, which is lent as zeros: the first path is told that it is one, and the turns tell the others.
pub fn mark_query(items: &[u32], marks: &mut [u32])
    requires { (IsQuery items.now) × (length items.now ≤ item_limit) × (marks.old ≡ replicate item_limit 0) }
    ensures { marks.new ≡ written (marked_got (decode items.now)) marks.old }
{
    marks[0] = 1;
    mark(items, &mut marks[..items.len()]);
}
