// What the printing program prints for any input: the composed query with its size and nesting, or the line of a refusal.
// A report is put into the lent bytes as far as these go, and its length is answered. Whether the composition is lean is passed down to where it is made.
#![tactic(auto)]

ghost use Rattle.paper.specs.Program.{program_prints};
ghost use Rattle.lines.specs.Lines.{report_limit, Reports};
ghost use Rattle.report.specs.Printing.{program_prints_by, lean_prints};

use paper::Refusal;

// The most bytes of an input.
pub const INPUT_LIMIT: usize = 49152;
// No report has more bytes beside the text of a query.
const LINE_ROOM: usize = 64;
// No report has more bytes.
pub const REPORT_LIMIT: usize = paper::TEXT_LIMIT + LINE_ROOM;

// The report on an input: line 1 is the outer query, line 2 the inner, the rest the name list.
fn report_by(input: &[u8], out: &mut [u8], lean: bool) -> usize
    ensures { Reports (program_prints_by lean input.now) report_limit out.old out.new result }
{
    if INPUT_LIMIT < input.len() {
        return lines::put_refusal(out, b"input", Err(Refusal::TooLong));
    }
    let outer_end = lines::line_end(input);
    let outer = &input[..outer_end];
    let inner_start = lines::line_start(input, outer_end);
    let rest = &input[inner_start..];
    let inner_end = lines::line_end(rest);
    let inner = &rest[..inner_end];
    let list_start = lines::line_start(rest, inner_end);
    let list = &rest[list_start..];
    text_report::report_texts(outer, inner, list, out, lean)
}

// The report on an input whose queries are composed.
pub fn report(input: &[u8], out: &mut [u8]) -> usize
    ensures { Reports (program_prints input.now) report_limit out.old out.new result }
{
    report_by(input, out, false)
}

// The report on an input whose queries are composed leanly.
pub fn report_lean(input: &[u8], out: &mut [u8]) -> usize
    ensures { Reports (lean_prints input.now) report_limit out.old out.new result }
{
    report_by(input, out, true)
}
