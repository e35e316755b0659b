// What the showing program prints for any input: the file that a query keeps of an XML text, or the line of a refusal.
// It is put into the lent bytes as far as these go, and its length is answered.
#![tactic(auto)]

ghost use Rattle.std.specs.Prelude.{◌+◌};
ghost use Rattle.paper.specs.Show.{file_room, text_shows, query_shows, show_prints};
ghost use Rattle.lines.specs.Lines.{Reports};

use paper::Refusal;

// The most bytes of an input.
pub const INPUT_LIMIT: usize = 81920;
// The most bytes that are printed: a file and the LF behind it.
pub const SHOW_LIMIT: usize = show_kept::FILE_ROOM + 1;
// The version of XPath that the query is read by.
const VERSION: u32 = 1;

// Shows what the query keeps of a text.
fn show_text(query: &[u32], list: &[u8], text: &[u8], out: &mut [u8]) -> usize
    ensures { Reports (text_shows query.now list.now text.now) (file_room + 1) out.old out.new result }
{
    let mut parent = [0u16; paper::NODE_LIMIT];
    let mut kind = [0u16; paper::NODE_LIMIT];
    let mut begin = [0u16; paper::NODE_LIMIT];
    let mut end = [0u16; paper::NODE_LIMIT];
    let said = read_xml::read_xml(text, list, &mut parent, &mut kind, &mut begin, &mut end);
    let Ok(n) = said else {
        return lines::put_refusal(out, b"text", said);
    };
    show_kept::show_rows(
        query,
        list,
        text,
        &parent[..n],
        &kind[..n],
        &begin[..n],
        &end[..n],
        out,
    )
}

// Shows what a query, by its text, keeps of an XML text.
fn show_query(query: &[u8], list: &[u8], text: &[u8], out: &mut [u8]) -> usize
    ensures { Reports (query_shows query.now list.now text.now) (file_room + 1) out.old out.new result }
{
    let mut room = [0u32; paper::ITEM_LIMIT];
    let said = read::read(query, VERSION, list, &mut room);
    let Ok(size) = said else {
        return lines::put_refusal(out, b"query", said);
    };
    show_text(&room[..size], list, text, out)
}

// Shows what an input asks for: line 1 is the query, then come the names, a blank line, and the XML text.
pub fn show(input: &[u8], out: &mut [u8]) -> usize
    ensures { Reports (show_prints input.now) (file_room + 1) out.old out.new result }
{
    if INPUT_LIMIT < input.len() {
        return lines::put_refusal(out, b"input", Err(Refusal::TooLong));
    }
    let query_end = lines::line_end(input);
    let list_start = lines::line_start(input, query_end);
    let rest = &input[list_start..];
    let list_end = lines::list_end(rest);
    let text_start = lines::line_start(rest, list_end);
    let query = &input[..query_end];
    let list = &rest[..list_end];
    let text = &rest[text_start..];
    show_query(query, list, text, out)
}
