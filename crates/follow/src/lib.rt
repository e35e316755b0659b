// A second engine, slow and plain: for each node the definition of selection is followed directly, one node and one step at a time, with no sets and no scratch.
#![tactic(auto)]

ghost use Rattle.std.specs.Prelude.{◌≡◌, length};
ghost use Rattle.paper.specs.Document.{table_of};
ghost use Rattle.paper.specs.Items.{decode};
ghost use Rattle.paper.specs.Answers.{run_answer, run_marks};
ghost use Rattle.paper.specs.Told.{told};
ghost use Rattle.follow.specs.Follows.{enough};

use paper::Answer;
use search::mark_kept;

// Runs the query inside the given marks, node by node: writes the marks of the nodes kept, and answers their number.
pub fn follow(query: &[u32], parent: &[u16], kind: &[u16], given: &[u8], marks: &mut [u8]) -> Answer
    ensures result_value { told result ≡ run_answer query.now (table_of parent.now kind.now) given.now (length marks.old) (enough (table_of parent.now kind.now) (decode query.now)) }
    ensures marks_after { marks.new ≡ run_marks query.now (table_of parent.now kind.now) given.now marks.old (enough (table_of parent.now kind.now) (decode query.now)) }
{
    judge::judge(query, parent, kind, given, marks.len())?;
    mark_kept(query, parent, kind, given, marks);
    Ok(table::count(marks))
}
