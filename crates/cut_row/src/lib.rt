// One row of a partner's table against ours: its node, its kind, its place and its leaves.
#![tactic(auto)]

ghost use Rattle.std.specs.Prelude.{ℕ, ◌<◌, ◌≡◌, ◌&&◌, List, length, get_or};
ghost use Rattle.paper.specs.Document.{table_of};
ghost use Rattle.paper.specs.Cut.{parent_stands, rising};
ghost use Rattle.cut_row.specs.Rows.{child_behind, row_stands};

// Is the node right behind i a child of i? In document order that is where its first child stands.
fn child_behind(parent: &[u16], i: usize) -> bool
    requires { i < length parent.now }
    ensures { result ≡ child_behind parent.now i }
{
    let next = i + 1;
    next < parent.len() && usize::from(parent[next]) == i
}

// Is the number of row r, which is n, greater than that of the row before, and does the row's parent stand for the parent of n? The first row is `same_root`'s.
fn in_place(parent: &[u16], cut_parent: &[u16], cut_node: &[u16], r: usize, n: usize) -> bool
    requires r_in_bounds { (r < length cut_node.now) × (length cut_parent.now ≡ length cut_node.now) }
    requires n_value { (n ≡ get_or cut_node.now r 0) × (n < length parent.now) }
    ensures { (kinds kinds_of_cut : List ℕ) → let t = table_of parent.now kinds in let cut = table_of cut_parent.now kinds_of_cut in result ≡ (rising t cut cut_node.now r && parent_stands t cut cut_node.now r) }
{
    if r == 0 {
        return true;
    }
    let above = usize::from(cut_parent[r]);
    if cut_node.len() <= above {
        return false;
    }
    let before = usize::from(cut_node[r - 1]);
    let image = cut_node[above];
    (before < n) & (image == parent[n])
}

// Is the row r as it must be?
pub fn row_stands(
    parent: &[u16],
    kind: &[u16],
    cut_parent: &[u16],
    cut_kind: &[u16],
    cut_node: &[u16],
    r: usize,
) -> bool
    requires kind_len { length kind.now ≡ length parent.now }
    requires cut_parent_len { (length cut_parent.now ≡ length cut_node.now) × (length cut_kind.now ≡ length cut_node.now) }
    requires r_in_bounds { r < length cut_node.now }
    ensures { result ≡ row_stands (table_of parent.now kind.now) (table_of cut_parent.now cut_kind.now) cut_node.now r }
{
    let n = usize::from(cut_node[r]);
    if parent.len() <= n {
        return false;
    }
    let own = cut_kind[r];
    if own != kind[n] {
        return false;
    }
    if !in_place(parent, cut_parent, cut_node, r, n) {
        return false;
    }
    child_behind(cut_parent, r) || !child_behind(parent, n)
}
