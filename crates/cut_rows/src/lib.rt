// All rows of a partner's table against ours, the first of which stands for the root.
#![tactic(auto)]

ghost use Rattle.std.specs.Prelude.{ℕ, ◌<◌, ◌≡◌, List, length};
ghost use Rattle.std.proofs.Math.Option.{none};
ghost use Rattle.paper.specs.Document.{Table, table_fault, table_of};
ghost use Rattle.paper.specs.Cut.{same_root, is_cut};

use cut_row::row_stands;

// Does the first row stand for the root, and has it the parent 0?
fn same_root(cut_parent: &[u16], cut_node: &[u16]) -> bool
    requires { (0 < length cut_node.now) × (length cut_parent.now ≡ length cut_node.now) }
    ensures { (t : Table) (kinds : List ℕ) → result ≡ same_root t (table_of cut_parent.now kinds) cut_node.now }
{
    (cut_node[0] == 0) & (cut_parent[0] == 0)
}

// Is every row as it must be? One pass over the rows, each of which looks at a few places.
pub fn all_stand(
    parent: &[u16],
    kind: &[u16],
    cut_parent: &[u16],
    cut_kind: &[u16],
    cut_node: &[u16],
) -> bool
    requires kind_len { (length kind.now ≡ length parent.now) × (table_fault (table_of parent.now kind.now) ≡ none) }
    requires cut_parent_len { (length cut_parent.now ≡ length cut_node.now) × (length cut_kind.now ≡ length cut_node.now) }
    ensures { result ≡ is_cut (table_of parent.now kind.now) (table_of cut_parent.now cut_kind.now) cut_node.now }
{
    if cut_node.len() == 0 {
        return true;
    }
    if !same_root(cut_parent, cut_node) {
        return false;
    }
    for r in 0..cut_node.len() {
        if !row_stands(parent, kind, cut_parent, cut_kind, cut_node, r) {
            return false;
        }
    }
    true
}
