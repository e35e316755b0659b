// Items put into the slots of an output, where there are such slots: one at its slot, and operators before a run.
#![tactic(auto)]

ghost use Rattle.std.specs.Prelude.{◌+◌, ◌≤◌, ◌<◌, ◌≡◌, [], ◌∷◌, length};
ghost use Rattle.paper.specs.Items.{pack_path, axis_bound, test_bound, count_bound};
ghost use Rattle.item.specs.Unpacked.{packed};
ghost use Rattle.slots.specs.Slots.{Wrote, Grouped, deep_items, Moved, slot_bound};

// Puts an item into a slot of the output, if there is one.
pub fn put(out: &mut [u32], slot: usize, item: u32)
    ensures wrote { Wrote out.old out.new slot (item ∷ []) }
    ensures out_unchanged { length out.old < slot + 1 → out.new ≡ out.old }
{
    if slot < out.len() {
        out[slot] = item;
    }
}

// Puts the step that `//` stands for, where it is written; the slot past it.
pub fn put_deep(out: &mut [u32], slot: usize, deep: bool) -> usize
    requires { slot < slot_bound }
    ensures wrote { (Wrote out.old out.new slot (deep_items deep)) × (result ≡ slot + length (deep_items deep)) }
    ensures out_unchanged { length out.old < slot + length (deep_items deep) → out.new ≡ out.old }
{
    if deep {
        put(
            out,
            slot,
            item_of_step(item::DESCENDANT_OR_SELF, item::ANY_NODE, 0),
        );
        return slot + 1;
    }
    slot
}

// The item of a path; 0 for more steps than an item can say.
pub fn item_of_path(count: usize) -> u32
    ensures value { count < count_bound → result ≡ pack_path count }
    ensures value_2 { count_bound ≤ count → result ≡ 0 }
{
    if count < item::COUNT_BOUND {
        item::pack_path(count)
    } else {
        0
    }
}

// The item of a step; 0 for more predicates than an item can say.
pub fn item_of_step(axis: u32, test: u32, count: usize) -> u32
    requires { (axis < axis_bound) × (test < test_bound) }
    ensures value { count < count_bound → result ≡ packed (record { axis = axis; test = test; count = count }) }
    ensures value_2 { count_bound ≤ count → result ≡ 0 }
{
    if count < item::COUNT_BOUND {
        item::pack_step(item::Step { axis, test, count })
    } else {
        0
    }
}

// Moves what stands from `slot` to `end` up by `count`, its end first.
fn move_up(out: &mut [u32], slot: usize, end: usize, count: usize)
    requires { (slot ≤ end) × (end + count ≤ length out.old) × (0 < count) }
    ensures { Moved out.old out.new slot end count }
{
    for i in (slot..end).rev() {
        out[i + count] = out[i];
    }
}

// Puts so many of an operator's items before what stands from `slot` to `end`, where there is room for them.
pub fn group(out: &mut [u32], slot: usize, end: usize, count: usize, item: u32)
    requires { (slot ≤ end) × (end < slot_bound) × (count < slot_bound) }
    ensures grouped { Grouped out.old out.new slot end count item }
    ensures out_unchanged { length out.old < end + count → out.new ≡ out.old }
{
    if count == 0 || out.len() < end + count {
        return;
    }
    move_up(out, slot, end, count);
    item::put_same(out, slot, count, item);
}
