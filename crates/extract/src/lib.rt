// The marked nodes of a table as a table of their own.
#![tactic(auto)]

ghost use Rattle.std.specs.Prelude.{◌+◌, ◌<◌, ◌≤◌, ◌≡◌, true, length, get_or};
ghost use Rattle.paper.specs.Tools.{written};
ghost use Rattle.paper.specs.Document.{over, marked, table_of};
ghost use Rattle.paper.specs.Extraction.{rank, pick_from};
ghost use Rattle.paper.specs.Answers.{extract_answer, extract_parents, extract_kinds};
ghost use Rattle.paper.specs.Told.{told};
ghost use Rattle.extract.specs.Numbering.{shape_of, Ordered, Last, new_parent, Numbered};

use paper::{Answer, Refusal};
use table::{count, marks_fault, table_fault};

// The new number of `wanted`, which is the node `from` or an ancestor of it. The way up is taken in the table and in what is written of the new one; `marks` is there for the contract alone.
fn new_number(
    parent: &[u16],
    marks: &[u8],
    out: &[u16],
    from: usize,
    number: usize,
    wanted: usize,
) -> usize
    requires ordered { Ordered parent.now marks.now }
    requires numbered { Numbered parent.now marks.now out.now (from + 1) }
    requires from_in_bounds { (from < length parent.now) × (marked marks.now from ≡ true) × (number ≡ rank marks.now from) }
    requires wanted_value { over (shape_of parent.now) from wanted ≡ true }
    ensures { result ≡ rank marks.now wanted }
{
    let mut at = from;
    let mut new = number;
    while wanted < at {
        at = usize::from(parent[at]);
        new = usize::from(out[new]);
    }
    new
}

// The new parent of the marked node i, of new number n, after the marked node `last`.
fn new_parent(parent: &[u16], marks: &[u8], out: &[u16], i: usize, last: usize, n: usize) -> u16
    requires ordered { Ordered parent.now marks.now }
    requires numbered { Numbered parent.now marks.now out.now i }
    requires i_in_bounds { (i < length parent.now) × (marked marks.now i ≡ true) }
    requires n_value { (n ≡ rank marks.now i) × (0 < n → Last marks.now i last) }
    ensures { result ≡ new_parent parent.now marks.now i }
{
    if i == 0 {
        return 0;
    }
    let above = usize::from(parent[i]);
    new_number(parent, marks, out, last, n - 1, above) as u16
}

// Writes the new parents of the marked nodes. A way up from a marked node is paid for by its depth.
fn copy_parents(parent: &[u16], marks: &[u8], out: &mut [u16])
    requires ordered { Ordered parent.now marks.now }
    requires marks_len { (length marks.now ≡ length parent.now) × (rank marks.now (length marks.now) ≤ length out.old) }
    ensures { out.new ≡ written (pick_from marks.now (length parent.now) 0 (new_parent parent.now marks.now)) out.old }
{
    let mut last = 0;
    let mut n = 0;
    for i in 0..marks.len() {
        if marks[i] == 1 {
            out[n] = new_parent(parent, marks, out, i, last, n);
            last = i;
            n += 1;
        }
    }
}

// Writes the kinds of the marked nodes.
fn copy_kinds(kind: &[u16], marks: &[u8], out: &mut [u16])
    requires { (length marks.now ≡ length kind.now) × (rank marks.now (length marks.now) ≤ length out.old) }
    ensures { out.new ≡ written (pick_from marks.now (length kind.now) 0 (λ i. get_or kind.now i 0)) out.old }
{
    let mut n = 0;
    for i in 0..marks.len() {
        if marks[i] == 1 {
            out[n] = kind[i];
            n += 1;
        }
    }
}

// What `extract` answers, before anything is written.
fn answer(
    parent: &[u16],
    kind: &[u16],
    marks: &[u8],
    parent_room: usize,
    kind_room: usize,
) -> Answer
    ensures { told result ≡ extract_answer (table_of parent.now kind.now) marks.now parent_room kind_room }
{
    if paper::NODE_LIMIT < parent.len() {
        return Err(Refusal::TooLong);
    }
    if kind.len() != parent.len() {
        return Err(Refusal::TooLong);
    }
    if marks.len() != parent.len() {
        return Err(Refusal::TooLong);
    }
    if parent_room != kind_room {
        return Err(Refusal::TooLong);
    }
    if let Some(i) = table_fault(parent, kind) {
        return Err(Refusal::BadTable(i));
    }
    if let Some(i) = marks_fault(parent, marks) {
        return Err(Refusal::BadMarks(i));
    }
    let needed = count(marks);
    if parent_room < needed {
        return Err(Refusal::Short(needed));
    }
    Ok(needed)
}

// Writes the marked nodes in order as a table of their own and answers their number.
pub fn extract(
    parent: &[u16],
    kind: &[u16],
    marks: &[u8],
    out_parent: &mut [u16],
    out_kind: &mut [u16],
) -> Answer
    ensures result_value { told result ≡ extract_answer (table_of parent.now kind.now) marks.now (length out_parent.old) (length out_kind.old) }
    ensures out_parent_after { out_parent.new ≡ extract_parents (table_of parent.now kind.now) marks.now out_parent.old (length out_kind.old) }
    ensures out_kind_after { out_kind.new ≡ extract_kinds (table_of parent.now kind.now) marks.now (length out_parent.old) out_kind.old }
{
    let number = answer(parent, kind, marks, out_parent.len(), out_kind.len())?;
    copy_parents(parent, marks, out_parent);
    copy_kinds(kind, marks, out_kind);
    Ok(number)
}
