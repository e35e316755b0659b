// Running a query on a whole document: every mark is given.
#![tactic(auto)]

ghost use Rattle.std.specs.Prelude.{◌≡◌, ◌≤◌, ◌<◌, ◌^◌, length};
ghost use Rattle.paper.specs.Limits.{node_limit};
ghost use Rattle.paper.specs.Document.{table_of};
ghost use Rattle.paper.specs.Answers.{run_answer, run_marks, run_scratch};
ghost use Rattle.paper.specs.Told.{told};
ghost use Rattle.paper.specs.Sheet.{all_marked};

use paper::Answer;

// Runs the query with every mark 1: writes the marks of the nodes kept, and answers their number.
pub fn run_whole(
    query: &[u32],
    parent: &[u16],
    kind: &[u16],
    marks: &mut [u8],
    scratch: &mut [u8],
) -> Answer
    requires { length parent.now ≤ node_limit }
    ensures result_value { told result ≡ run_answer query.now (table_of parent.now kind.now) (all_marked (table_of parent.now kind.now)) (length marks.old) (length scratch.old) }
    ensures marks_after { marks.new ≡ run_marks query.now (table_of parent.now kind.now) (all_marked (table_of parent.now kind.now)) marks.old (length scratch.old) }
    ensures scratch_after { scratch.new ≡ run_scratch query.now (table_of parent.now kind.now) (all_marked (table_of parent.now kind.now)) (length marks.old) scratch.old }
{
    let given = [1u8; paper::NODE_LIMIT];
    run::run(query, parent, kind, &given[..parent.len()], marks, scratch)
}

// The same with so many bytes of scratch of its own.
pub fn run_within<const N: usize>(
    query: &[u32],
    parent: &[u16],
    kind: &[u16],
    marks: &mut [u8],
) -> Answer
    requires few { length parent.now ≤ node_limit }
    requires room { N < 2 ^ 62 }
    ensures result_value { told result ≡ run_answer query.now (table_of parent.now kind.now) (all_marked (table_of parent.now kind.now)) (length marks.old) N }
    ensures marks_after { marks.new ≡ run_marks query.now (table_of parent.now kind.now) (all_marked (table_of parent.now kind.now)) marks.old N }
{
    let mut scratch = [0u8; N];
    run_whole(query, parent, kind, marks, &mut scratch)
}
