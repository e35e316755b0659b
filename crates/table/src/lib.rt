// The node table and its marks: are they good, and how many nodes are marked.
#![tactic(auto)]

ghost use Rattle.std.specs.Prelude.{◌≡◌, true, List, ℕ, ◌+◌, ◌<◌, ◌≤◌, length, get_or};
ghost use Rattle.paper.specs.Limits.{node_limit};
ghost use Rattle.paper.specs.Document.{over, good_node, table_fault, good_mark, marks_fault, table_of};
ghost use Rattle.paper.specs.Extraction.{rank};
ghost use Rattle.paper.specs.Told.{found};
ghost use Rattle.table.specs.Climbs.{Falls};
ghost use Rattle.table.specs.Passing.{fits_kind, good_parent, KindsFit, AllGood, AllMarked, Inside};

// THE TABLE.

// Is `wanted` the node `from` or an ancestor of it? The way up ends where it would pass `wanted`.
pub fn is_over(parent: &[u16], from: usize, wanted: usize) -> bool
    requires { Falls parent.now (from + 1) }
    ensures { (kinds : List ℕ) → result ≡ over (table_of parent.now kinds) from wanted }
{
    let mut at = from;
    while wanted < at {
        at = usize::from(parent[at]);
    }
    at == wanted
}

// Is this the kind of text or of an element?
fn fits(kind: u16) -> bool
    ensures { result ≡ fits_kind kind }
{
    (paper::TEXT_KIND <= kind) & (kind <= paper::KIND_LIMIT)
}

// Is node 0 as it must be?
fn good_root(parent: &[u16], kind: &[u16]) -> bool
    requires { (0 < length parent.now) × (length kind.now ≡ length parent.now) }
    ensures { result ≡ good_node (table_of parent.now kind.now) 0 }
{
    (parent[0] == 0) & (kind[0] == 0)
}

// Is the parent of the node i the node before or above that, and no text?
fn good_parent(parent: &[u16], kind: &[u16], i: usize) -> bool
    requires i_nonzero { (0 < i) × (i < length parent.now) × (length kind.now ≡ length parent.now) }
    requires falls { Falls parent.now i }
    ensures { result ≡ good_parent (table_of parent.now kind.now) i }
{
    let above = usize::from(parent[i]);
    is_over(parent, i - 1, above) && kind[above] != paper::TEXT_KIND
}

// Is the node i as it must be, if those before it are?
fn good_node(parent: &[u16], kind: &[u16], i: usize) -> bool
    requires i_in_bounds { (i < length parent.now) × (length kind.now ≡ length parent.now) }
    requires falls { Falls parent.now i }
    ensures { result ≡ good_node (table_of parent.now kind.now) i }
{
    if i == 0 {
        return good_root(parent, kind);
    }
    fits(kind[i]) && good_parent(parent, kind, i)
}

// Are all kinds but the root's those of text and of elements? No branch, so that many are looked at together.
fn kinds_fit(kind: &[u16]) -> bool
    ensures { result ≡ true → KindsFit kind.now }
{
    let mut fit = true;
    for i in 1..kind.len() {
        fit = fit & fits(kind[i]);
    }
    fit
}

// Is every node as it must be?
fn all_good(parent: &[u16], kind: &[u16]) -> bool
    requires { (0 < length parent.now) × (length kind.now ≡ length parent.now) }
    ensures { result ≡ true → AllGood (table_of parent.now kind.now) }
{
    if !good_root(parent, kind) {
        return false;
    }
    if !kinds_fit(kind) {
        return false;
    }
    for i in 1..parent.len() {
        if !good_parent(parent, kind, i) {
            return false;
        }
    }
    true
}

// The first bad node of a table, if there is one, looked for where not all are good. A way up from a good node is paid for by the depth, so all of them together are linear in the nodes.
pub fn table_fault(parent: &[u16], kind: &[u16]) -> Option<usize>
    requires { length kind.now ≡ length parent.now }
    ensures { found result ≡ table_fault (table_of parent.now kind.now) }
{
    if parent.len() == 0 {
        return Some(0);
    }
    if all_good(parent, kind) {
        return None;
    }
    for i in 0..parent.len() {
        if !good_node(parent, kind, i) {
            return Some(i);
        }
    }
    None
}

// THE MARKS.

// Is the mark of node i 0, or 1 below a marked parent?
fn good_mark(parent: &[u16], marks: &[u8], i: usize) -> bool
    requires { (i < length parent.now) × (length marks.now ≡ length parent.now) × (get_or parent.now i 0 < length parent.now) }
    ensures { (kinds : List ℕ) → result ≡ good_mark (table_of parent.now kinds) marks.now i }
{
    let own = marks[i];
    let above = usize::from(parent[i]);
    (own == 0) | (own == 1) & (marks[above] == 1)
}

// Is every node marked? No branch, so that many are looked at together.
fn all_marked(marks: &[u8]) -> bool
    ensures { result ≡ true → AllMarked marks.now }
{
    let mut all = true;
    for &mark in marks {
        all = all & (mark == 1);
    }
    all
}

// The first node whose mark is bad, if there is one; there is none where all are marked.
pub fn marks_fault(parent: &[u16], marks: &[u8]) -> Option<usize>
    requires { (length marks.now ≡ length parent.now) × (Inside parent.now) }
    ensures { (kinds : List ℕ) → found result ≡ marks_fault (table_of parent.now kinds) marks.now }
{
    if all_marked(marks) {
        return None;
    }
    for i in 0..parent.len() {
        if !good_mark(parent, marks, i) {
            return Some(i);
        }
    }
    None
}

// How many nodes are marked. No branch, so that many are looked at together.
pub fn count(marks: &[u8]) -> usize
    requires { length marks.now ≤ node_limit }
    ensures { result ≡ rank marks.now (length marks.now) }
{
    let mut n: u16 = 0;
    for &mark in marks {
        n += u16::from(mark == 1);
    }
    usize::from(n)
}
