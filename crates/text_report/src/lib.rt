// The report on the texts of two queries: what `query_report` puts of the queries that are read, or the line of a refusal.
#![tactic(auto)]

ghost use Rattle.lines.specs.Lines.{report_limit, Reports};
ghost use Rattle.text_report.specs.Texts.{texts_print_by};

// The version of XPath that the program reads by.
const VERSION: u32 = 1;

// The report on the texts of an outer and an inner query, read with the names of the list.
pub fn report_texts(outer: &[u8], inner: &[u8], list: &[u8], out: &mut [u8], lean: bool) -> usize
    ensures { Reports (texts_print_by lean outer.now inner.now list.now) report_limit out.old out.new result }
{
    let mut outer_room = [0u32; paper::ITEM_LIMIT];
    let outer_answer = read::read(outer, VERSION, list, &mut outer_room);
    let Ok(outer_size) = outer_answer else {
        return lines::put_refusal(out, b"outer", outer_answer);
    };
    let mut inner_room = [0u32; paper::ITEM_LIMIT];
    let inner_answer = read::read(inner, VERSION, list, &mut inner_room);
    let Ok(inner_size) = inner_answer else {
        return lines::put_refusal(out, b"inner", inner_answer);
    };
    let outer_query = &outer_room[..outer_size];
    let inner_query = &inner_room[..inner_size];
    query_report::report_queries(outer_query, inner_query, list, out, lean)
}
