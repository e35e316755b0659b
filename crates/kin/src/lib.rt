// How two nodes of a table stand to each other: above, below, beside or behind, and whether an axis leads from one to the other; the marks of all above and below a node.
#![tactic(auto)]

ghost use Rattle.std.specs.Prelude.{ℕ, ◌<◌, ◌≡◌, Bool, ◌&&◌, ◌||◌, cond, List, length};
ghost use Rattle.paper.specs.Tools.{column};
ghost use Rattle.paper.specs.Query.{Axis};
ghost use Rattle.paper.specs.Document.{marked, over, table_of};
ghost use Rattle.paper.specs.Items.{axis_number};
ghost use Rattle.paper.specs.Selection.{child_of, below, sibling_after, after, leads};
ghost use Rattle.kin.specs.Nearness.{near};

use table::is_over;

// Is j a child of i?
fn is_child(parent: &[u16], i: usize, j: usize) -> bool
    requires { (i < length parent.now) × (j < length parent.now) }
    ensures { (kinds : List ℕ) → result ≡ child_of (table_of parent.now kinds) i j }
{
    (j != 0) & (usize::from(parent[j]) == i)
}

// Is j a descendant of i?
fn is_below(parent: &[u16], i: usize, j: usize) -> bool
    requires { (near parent.now) × (i < length parent.now) × (j < length parent.now) }
    ensures { (kinds : List ℕ) → result ≡ below (table_of parent.now kinds) i j }
{
    is_over(parent, j, i) & (i != j)
}

// Is j a sibling of i that comes after it?
fn is_sibling(parent: &[u16], i: usize, j: usize) -> bool
    requires { (i < length parent.now) × (j < length parent.now) }
    ensures { (kinds : List ℕ) → result ≡ sibling_after (table_of parent.now kinds) i j }
{
    (i < j) & (i != 0) & (usize::from(parent[i]) == usize::from(parent[j]))
}

// Does j come after i, and is it no descendant of i?
fn is_after(parent: &[u16], i: usize, j: usize) -> bool
    requires { (near parent.now) × (i < length parent.now) × (j < length parent.now) }
    ensures { (kinds : List ℕ) → result ≡ after (table_of parent.now kinds) i j }
{
    (i < j) & !is_over(parent, j, i)
}

// Does the axis lead from i to j?
pub fn axis_leads(parent: &[u16], axis: u32, i: usize, j: usize) -> bool
    requires { (near parent.now) × (i < length parent.now) × (j < length parent.now) }
    ensures { (kinds : List ℕ) (a : Axis) → axis ≡ axis_number a → result ≡ leads (table_of parent.now kinds) a i j }
{
    match axis {
        item::SELF => i == j,
        item::CHILD => is_child(parent, i, j),
        item::PARENT => is_child(parent, j, i),
        item::DESCENDANT_OR_SELF => is_over(parent, j, i),
        item::ANCESTOR_OR_SELF => is_over(parent, i, j),
        item::DESCENDANT => is_below(parent, i, j),
        item::ANCESTOR => is_below(parent, j, i),
        item::FOLLOWING_SIBLING => is_sibling(parent, i, j),
        item::PRECEDING_SIBLING => is_sibling(parent, j, i),
        item::FOLLOWING => is_after(parent, i, j),
        item::PRECEDING => is_after(parent, j, i),
        _ => false,
    }
}

// Marks, of the nodes given, those above the node k and those below it, and it.
pub fn spread(parent: &[u16], given: &[u8], k: usize, marks: &mut [u8])
    requires { (near parent.now) × (k < length parent.now) × (length given.now ≡ length parent.now) × (length marks.old ≡ length parent.now) }
    ensures { (kinds : List ℕ) (f : ℕ → Bool) → marks.old ≡ column (length parent.now) (λ i. cond (f i) 1 0) → marks.new ≡ column (length parent.now) (λ i. cond (marked given.now i && (over (table_of parent.now kinds) i k || over (table_of parent.now kinds) k i) || f i) 1 0) }
{
    for i in 0..marks.len() {
        let kept = (given[i] == 1) & (is_over(parent, i, k) | is_over(parent, k, i));
        marks[i] |= u8::from(kept);
    }
}
