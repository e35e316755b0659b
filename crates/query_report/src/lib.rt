// The report on two queries: their composition, in the way given, with its size and nesting, or the line of a refusal.
// It is put into the lent bytes as far as these go, and its length is answered.
#![tactic(auto)]

ghost use Rattle.std.specs.Prelude.{◌≡◌, length};
ghost use Rattle.paper.specs.Items.{decode};
ghost use Rattle.paper.specs.Told.{told};
ghost use Rattle.paper.specs.Program.{nesting_got, query_prints};
ghost use Rattle.lines.specs.Lines.{report_limit, Reports};
ghost use Rattle.query_report.specs.Ways.{way_answer, way_out, queries_print_by};

use paper::Answer;

// The nesting of a query.
fn nesting_of(query: &[u32]) -> usize
    ensures { result ≡ nesting_got (decode query.now) }
{
    let Some(shape) = shape::measure(query) else {
        return 0;
    };
    shape.nesting
}

// The report on a composed query of this nesting, which is printed in the long form.
fn report_query(query: &[u32], nesting: usize, list: &[u8], out: &mut [u8]) -> usize
    requires { nesting ≡ nesting_got (decode query.now) }
    ensures { Reports (query_prints query.now list.now) report_limit out.old out.new result }
{
    let mut text = [0u8; paper::TEXT_LIMIT];
    let answer = print::print_long(query, list, &mut text);
    let Ok(count) = answer else {
        return lines::put_refusal(out, b"print", answer);
    };
    lines::put_result(out, &text[..count], query.len(), nesting)
}

// Composes two queries in the way given.
fn compose_way(outer: &[u32], inner: &[u32], out: &mut [u32], lean: bool) -> Answer
    ensures { (told result ≡ way_answer lean outer.now inner.now (length out.old))
        × (out.new ≡ way_out lean outer.now inner.now out.old) }
{
    if lean {
        return compose_lean::compose_lean(outer, inner, out);
    }
    compose::compose(outer, inner, out)
}

// The report on an outer and an inner query.
pub fn report_queries(
    outer: &[u32],
    inner: &[u32],
    list: &[u8],
    out: &mut [u8],
    lean: bool,
) -> usize
    ensures { Reports (queries_print_by lean outer.now inner.now list.now) report_limit out.old out.new result }
{
    let mut room = [0u32; paper::ITEM_LIMIT];
    let answer = compose_way(outer, inner, &mut room, lean);
    let Ok(size) = answer else {
        return lines::put_refusal(out, b"compose", answer);
    };
    let query = &room[..size];
    let nesting = nesting_of(query);
    report_query(query, nesting, list, out)
}
