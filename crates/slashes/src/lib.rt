// Where `//` stands for a step in the text of a query.
#![tactic(auto)]

ghost use Rattle.std.specs.Prelude.{◌≡◌};
ghost use Rattle.slashes.specs.Deep.{passed};

use item::Item;

// How many of so many steps from here on `//` stands for, one or none.
pub fn deep(items: &[u32], at: usize, left: usize, brief: bool) -> usize
    ensures { result ≡ passed brief items.now at left }
{
    let asked = brief & (1 < left) & (at < items.len());
    if !asked {
        return 0;
    }
    let item = item::unpack(items[at]);
    let Item::Step(step) = item else {
        return 0;
    };
    let found = (step.axis == item::DESCENDANT_OR_SELF)
        & (step.test == item::ANY_NODE)
        & (step.count == 0);
    if found { 1 } else { 0 }
}
