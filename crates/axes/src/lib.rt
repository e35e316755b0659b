// A set of nodes moved along any axis, by the pass for that axis.
#![tactic(auto)]

ghost use Rattle.std.specs.Prelude.{◌≡◌, Bool, List, ℕ, length};
ghost use Rattle.paper.specs.Document.{table_of};
ghost use Rattle.paper.specs.Query.{Axis};
ghost use Rattle.paper.specs.Items.{axis_number};
ghost use Rattle.paper.proofs.Trees.{Tree};
ghost use Rattle.sets.specs.Sets.{bits, image};

use sets::fill;
use sideways::{following, following_siblings, preceding, preceding_siblings};
use vertical::{above, ancestors, below, children, descendants, parents};

// Moves the set along an axis: what is in it then are the nodes to which the axis leads. What is no axis leads nowhere.
pub fn along(parent: &[u16], axis: u32, set: &mut [u8])
    requires { (length parent.now ≡ length set.old) × ((kinds : List ℕ) → Tree (table_of parent.now kinds)) }
    ensures { (kinds : List ℕ) (a : Axis) (f : ℕ → Bool) → axis ≡ axis_number a → set.old ≡ bits (length set.old) f → set.new ≡ bits (length set.old) (image (table_of parent.now kinds) a f) }
{
    match axis {
        item::SELF => {}
        item::CHILD => children(parent, set),
        item::PARENT => parents(parent, set),
        item::DESCENDANT_OR_SELF => below(parent, set),
        item::ANCESTOR_OR_SELF => above(parent, set),
        item::DESCENDANT => descendants(parent, set),
        item::ANCESTOR => ancestors(parent, set),
        item::FOLLOWING_SIBLING => following_siblings(parent, set),
        item::PRECEDING_SIBLING => preceding_siblings(parent, set),
        item::FOLLOWING => following(parent, set),
        item::PRECEDING => preceding(parent, set),
        _ => fill(set, 0),
    }
}
