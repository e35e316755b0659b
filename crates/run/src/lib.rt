// Running a query: all that is lent is judged, and then what the query keeps is marked and counted.
#![tactic(auto)]

ghost use Rattle.std.specs.Prelude.{◌≡◌, length};
ghost use Rattle.paper.specs.Answers.{run_answer, run_marks, run_scratch};
ghost use Rattle.paper.specs.Told.{told};
ghost use Rattle.paper.specs.Document.{table_of};

use paper::{Answer, Refusal};

// Runs the query inside the given marks: writes the marks of the nodes kept, and answers their number.
pub fn run(
    query: &[u32],
    parent: &[u16],
    kind: &[u16],
    given: &[u8],
    marks: &mut [u8],
    scratch: &mut [u8],
) -> Answer
    ensures result_value { told result ≡ run_answer query.now (table_of parent.now kind.now) given.now (length marks.old) (length scratch.old) }
    ensures marks_after { marks.new ≡ run_marks query.now (table_of parent.now kind.now) given.now marks.old (length scratch.old) }
    ensures scratch_after { scratch.new ≡ run_scratch query.now (table_of parent.now kind.now) given.now (length marks.old) scratch.old }
{
    let height = judge::judge(query, parent, kind, given, marks.len())?;
    let needed = parent.len() * 2 * (height + 1);
    if scratch.len() < needed {
        return Err(Refusal::Short(needed));
    }
    keep::keep(query, parent, kind, given, marks, &mut scratch[..needed]);
    Ok(table::count(marks))
}
