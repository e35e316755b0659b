// What a query keeps of an XML text that was read into columns, as a file: the query is run, and the kept part is written.
// The file is put into the lent bytes as far as these go, and its length is answered.
#![tactic(auto)]

ghost use Rattle.std.specs.Prelude.{◌+◌, ◌≤◌, ◌≡◌, length};
ghost use Rattle.paper.specs.Limits.{node_limit};
ghost use Rattle.paper.specs.Document.{table_of};
ghost use Rattle.paper.specs.Show.{file_room, file_shows, table_shows};
ghost use Rattle.lines.specs.Lines.{Reports};

// The room for a file.
pub const FILE_ROOM: usize = 65536;
// The bytes of scratch that a run is lent.
const SCRATCH_LENT: usize = paper::NODE_LIMIT * 2 * (paper::BRACKET_LIMIT + 2);

// Shows the marked part of a text that was read into these columns.
fn show_file(
    text: &[u8],
    list: &[u8],
    parent: &[u16],
    kind: &[u16],
    begin: &[u16],
    end: &[u16],
    marks: &[u8],
    out: &mut [u8],
) -> usize
    ensures { Reports (file_shows text.now list.now (table_of parent.now kind.now) begin.now end.now marks.now) (file_room + 1) out.old out.new result }
{
    let mut file = [0u8; FILE_ROOM];
    let answer = write_xml::write_xml(text, list, parent, kind, begin, end, marks, &mut file);
    let Ok(count) = answer else {
        return lines::put_refusal(out, b"write", answer);
    };
    let shown = pen::put(out, 0, &file[..count]);
    pen::put(out, shown, b"\n")
}

// Shows what the query keeps of a text that was read into these columns, with room for its marks.
fn show_table(
    query: &[u32],
    list: &[u8],
    text: &[u8],
    parent: &[u16],
    kind: &[u16],
    begin: &[u16],
    end: &[u16],
    marks: &mut [u8],
    out: &mut [u8],
) -> usize
    requires { (length parent.now ≤ node_limit) × (length marks.old ≡ length parent.now) }
    ensures { Reports (table_shows query.now list.now text.now (table_of parent.now kind.now) begin.now end.now) (file_room + 1) out.old out.new result }
{
    let ran = whole::run_within::<SCRATCH_LENT>(query, parent, kind, marks);
    let Ok(kept) = ran else {
        return lines::put_refusal(out, b"run", ran);
    };
    if kept == 0 {
        return 0;
    }
    show_file(text, list, parent, kind, begin, end, marks, out)
}

// Shows what the query keeps of a text that was read into these columns.
pub fn show_rows(
    query: &[u32],
    list: &[u8],
    text: &[u8],
    parent: &[u16],
    kind: &[u16],
    begin: &[u16],
    end: &[u16],
    out: &mut [u8],
) -> usize
    requires { length parent.now ≤ node_limit }
    ensures { Reports (table_shows query.now list.now text.now (table_of parent.now kind.now) begin.now end.now) (file_room + 1) out.old out.new result }
{
    let mut marks = [0u8; paper::NODE_LIMIT];
    show_table(
        query,
        list,
        text,
        parent,
        kind,
        begin,
        end,
        &mut marks[..parent.len()],
        out,
    )
}
