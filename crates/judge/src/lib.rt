// What is lent for a run, examined before anything is written: the lengths, the query, the table and the marks given. Both engines begin so.
#![tactic(auto)]

ghost use Rattle.std.specs.Prelude.{◌≡◌};
ghost use Rattle.paper.specs.Document.{table_of};
ghost use Rattle.paper.specs.Told.{told};
ghost use Rattle.judge.specs.Judging.{judged};

use paper::{Answer, Refusal};

// Decides every refusal of a run but that of short scratch; the value is the height of the query.
pub fn judge(query: &[u32], parent: &[u16], kind: &[u16], given: &[u8], marks_room: usize) -> Answer
    ensures { told result ≡ judged query.now (table_of parent.now kind.now) given.now marks_room }
{
    if paper::ITEM_LIMIT < query.len() {
        return Err(Refusal::TooLong);
    }
    let n = parent.len();
    if paper::NODE_LIMIT < n || kind.len() != n || given.len() != n || marks_room != n {
        return Err(Refusal::TooLong);
    }
    let shape = shape::measure(query).ok_or(Refusal::BadQuery(0))?;
    if let Some(i) = table::table_fault(parent, kind) {
        return Err(Refusal::BadTable(i));
    }
    if let Some(i) = table::marks_fault(parent, given) {
        return Err(Refusal::BadMarks(i));
    }
    Ok(shape.height)
}
