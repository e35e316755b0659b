// The items of a query: the fields of one by shifts and masks, and several written from a place on. Only this crate knows bit positions.
#![tactic(auto)]

ghost use Rattle.std.specs.Prelude.{◌≡◌, ◌+◌, ◌%◌, ◌≤◌, ◌<◌, length, replicate};
ghost use Rattle.paper.specs.Query.{Axis};
ghost use Rattle.paper.specs.Items.{axis_number, axis_bound, test_bound, count_bound, pack_path};
ghost use Rattle.paper.specs.Composition.{turned};
ghost use Rattle.item.specs.Unpacked.{unpacked, packed, guarded_number};
ghost use Rattle.item.specs.Placed.{placed};

// The item of `and`, that of `or` and that of `not`.
pub const AND: u32 = 2;

pub const OR: u32 = 3;

pub const NOT: u32 = 4;

// The numbers of the axes, and how many there are, which is the least number that is no axis.
pub const SELF: u32 = 0;

pub const CHILD: u32 = 1;

pub const PARENT: u32 = 2;

pub const DESCENDANT_OR_SELF: u32 = 3;

pub const ANCESTOR_OR_SELF: u32 = 4;

pub const DESCENDANT: u32 = 5;

pub const ANCESTOR: u32 = 6;

pub const FOLLOWING_SIBLING: u32 = 7;

pub const PRECEDING_SIBLING: u32 = 8;

pub const FOLLOWING: u32 = 9;

pub const PRECEDING: u32 = 10;

pub const AXES: u32 = 11;

// The tests `node()` and `text()`, that of the name 0, and `*`.
pub const ANY_NODE: u32 = 0;

pub const TEXT_NODE: u32 = 1;

pub const NAMED: u32 = 2;

pub const ANY_ELEMENT: u32 = 258;

// Counts in an item are below this.
pub const COUNT_BOUND: usize = 8192;

// What a step item says: the numbers of its axis and its test, and how many predicates follow.
#[derive(Clone, Copy)]
pub struct Step {
    pub axis: u32,
    pub test: u32,
    pub count: usize,
}

// What an item says; a path says how many steps follow.
#[derive(Clone, Copy)]
pub enum Item {
    Path(usize),
    Step(Step),
    And,
    Or,
    Not,
    Bad,
}

// Bits 3 to 15 of a path are its step count; it has no others.
fn path_item(w: u32) -> Item
    requires { w % 8 ≡ 0 }
    ensures { result ≡ unpacked w }
{
    if w < 65536 {
        Item::Path((w >> 3) as usize)
    } else {
        Item::Bad
    }
}

// Bits 3 to 6 of a step are its axis, 7 to 15 its test, 16 to 28 its predicate count; it has no others.
fn step_item(w: u32) -> Item
    requires { w % 8 ≡ 1 }
    ensures { result ≡ unpacked w }
{
    if 536870912 <= w {
        return Item::Bad;
    }
    let axis = w >> 3 & 15;
    if AXES <= axis {
        return Item::Bad;
    }
    let test = w >> 7 & 511;
    if ANY_ELEMENT < test {
        return Item::Bad;
    }
    Item::Step(Step {
        axis,
        test,
        count: (w >> 16) as usize,
    })
}

// What a number says as an item, by its kind in bits 0 to 2.
pub fn unpack(w: u32) -> Item
    ensures { result ≡ unpacked w }
{
    let kind = w & 7;
    match kind {
        0 => path_item(w),
        1 => step_item(w),
        _ => operator(w),
    }
}

// The items of the operators and of `not` have no field.
fn operator(w: u32) -> Item
    requires { 2 ≤ w % 8 }
    ensures { result ≡ unpacked w }
{
    match w {
        AND => Item::And,
        OR => Item::Or,
        NOT => Item::Not,
        _ => Item::Bad,
    }
}

// The item of a path.
pub fn pack_path(count: usize) -> u32
    requires { count < count_bound }
    ensures { result ≡ pack_path count }
{
    (count as u32) << 3
}

// The item of a step.
pub fn pack_step(step: Step) -> u32
    requires { (step.axis < axis_bound) × (step.test < test_bound) × (step.count < count_bound) }
    ensures { result ≡ packed step }
{
    (step.count as u32) << 16 | step.test << 7 | step.axis << 3 | 1
}

// The axis that leads back: the two of each pair turn into each other, and self stays; what is no axis turns into none.
pub fn turn(axis: u32) -> u32
    ensures { (a : Axis) → axis ≡ axis_number a → result ≡ axis_number (turned a) }
{
    match axis {
        SELF => SELF,
        CHILD => PARENT,
        PARENT => CHILD,
        DESCENDANT_OR_SELF => ANCESTOR_OR_SELF,
        ANCESTOR_OR_SELF => DESCENDANT_OR_SELF,
        DESCENDANT => ANCESTOR,
        ANCESTOR => DESCENDANT,
        FOLLOWING_SIBLING => PRECEDING_SIBLING,
        PRECEDING_SIBLING => FOLLOWING_SIBLING,
        FOLLOWING => PRECEDING,
        PRECEDING => FOLLOWING,
        _ => AXES,
    }
}

// Is a step along the axis guarded in a composition? Self and the axes upward lead from a visible node to visible ones alone, and what is no axis leads nowhere.
pub fn guarded(axis: u32) -> bool
    ensures { result ≡ guarded_number axis }
{
    match axis {
        SELF => false,
        CHILD => true,
        PARENT => false,
        DESCENDANT_OR_SELF => true,
        ANCESTOR_OR_SELF => false,
        DESCENDANT => true,
        ANCESTOR => false,
        FOLLOWING_SIBLING => true,
        PRECEDING_SIBLING => true,
        FOLLOWING => true,
        PRECEDING => true,
        _ => false,
    }
}

// Writes the items from `at` on.
pub fn put_items(items: &[u32], out: &mut [u32], at: usize)
    requires { at + length items.now ≤ length out.old }
    ensures { out.new ≡ placed items.now at out.old }
{
    for done in 0..items.len() {
        out[at + done] = items[done];
    }
}

// Writes one item at so many places from `at` on.
pub fn put_same(out: &mut [u32], at: usize, count: usize, w: u32)
    requires { at + count ≤ length out.old }
    ensures { out.new ≡ placed (replicate count w) at out.old }
{
    out[at..at + count].fill(w);
}
