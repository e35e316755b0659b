// Where things end in the items of a query: each item says how many others belong to it, so what is owed is counted item by item.
#![tactic(auto)]

ghost use Rattle.std.specs.Prelude.{◌≡◌, ◌+◌, ◌≤◌, length, drop};
ghost use Rattle.paper.specs.Limits.{item_limit};
ghost use Rattle.paper.specs.Items.{count_limit};
ghost use Rattle.owed.specs.Owing.{owing, eaten};

use item::Item;

// How many steps, predicates or operands belong to an item.
pub fn owes(w: u32) -> usize
    ensures { (result ≡ owing w) × (result ≤ count_limit) }
{
    match item::unpack(w) {
        Item::Path(count) => count,
        Item::Step(step) => step.count,
        Item::And | Item::Or => 2,
        Item::Not => 1,
        Item::Bad => 0,
    }
}

// Where so many steps, predicates or operands end that begin at `at`.
pub fn skip(items: &[u32], at: usize, count: usize) -> usize
    requires { (length items.now ≤ item_limit) × (at ≤ length items.now) × (count ≤ count_limit) }
    ensures { (result ≡ at + eaten (drop at items.now) count) × (result ≤ length items.now) }
{
    let mut owed = count;
    for place in at..items.len() {
        if owed == 0 {
            return place;
        }
        owed = owed - 1 + owes(items[place]);
    }
    items.len()
}
