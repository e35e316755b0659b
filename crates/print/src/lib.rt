// The text of a query, in the long form or in the short one: what is lent is examined and the text counted before a byte is written.
#![tactic(auto)]

ghost use Rattle.std.specs.Prelude.{◌≡◌, length};
ghost use Rattle.paper.specs.Printing.{long_form, short_form};
ghost use Rattle.paper.specs.Answers.{print_answer, print_out};
ghost use Rattle.paper.specs.Told.{told};

use names::Names;
use paper::{Answer, Refusal};

// Prints the query in either form. Everything lent is examined and the text is counted before a byte is written.
fn print_form(query: &[u32], list: &[u8], out: &mut [u8], brief: bool) -> Answer
    ensures result_value { told result ≡ print_answer brief query.now list.now (length out.old) }
    ensures out_after { out.new ≡ print_out brief query.now list.now out.old }
{
    if paper::ITEM_LIMIT < query.len() {
        return Err(Refusal::TooLong);
    }
    if paper::LIST_LIMIT < list.len() {
        return Err(Refusal::TooLong);
    }
    let names = Names::new(list)?;
    shape::measure(query).ok_or(Refusal::BadQuery(0))?;
    if let Some(at) = unknown_names::first_unknown(query, names.count()) {
        return Err(Refusal::UnknownName(at));
    }
    let needed = put_query::paths(query, &names, &mut out[..0], brief);
    if out.len() < needed {
        return Err(Refusal::Short(needed));
    }
    put_query::paths(query, &names, out, brief);
    Ok(needed)
}

// Prints the query in the short form.
pub fn print(query: &[u32], list: &[u8], out: &mut [u8]) -> Answer
    ensures result_value { told result ≡ print_answer short_form query.now list.now (length out.old) }
    ensures out_after { out.new ≡ print_out short_form query.now list.now out.old }
{
    print_form(query, list, out, true)
}

// Prints the query in the long form.
pub fn print_long(query: &[u32], list: &[u8], out: &mut [u8]) -> Answer
    ensures result_value { told result ≡ print_answer long_form query.now list.now (length out.old) }
    ensures out_after { out.new ≡ print_out long_form query.now list.now out.old }
{
    print_form(query, list, out, false)
}
