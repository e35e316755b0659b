// XML text into the table, with a list of names that has no fault. The text is gone through once, piece by piece: the places at which the open elements begin are kept, and beside them the lines of the table; where the text is accepted, the lines are copied into the columns.
#![tactic(auto)]

ghost use Rattle.std.specs.Prelude.{◌+◌, ◌≤◌, ◌<◌, ◌≡◌, Ok, length, get_or, set, take};
ghost use Rattle.paper.specs.Tools.{written};
ghost use Rattle.paper.specs.Limits.{text_limit, node_limit};
ghost use Rattle.paper.specs.Told.{told};
ghost use Rattle.prolog.specs.Heading.{Leads};
ghost use Rattle.xml_lines.specs.Kept.{Columns, columns, blank, line_set, xml_answer, exit_columns};
ghost use Rattle.xml_lines.specs.Judges.{Standing, Facing, Comes, Rises, Ends, Judges};

use initials::Initials;
use paper::{Answer, Refusal};
use std::marker::Model;
use xml::{Cursor, Piece};
use xml_lines::{Progress, answer, find_name, first_unnamed, kind_of, narrow};

// How many elements can be open at once: a start tag has three bytes at least.
const OPEN: usize = paper::TEXT_LIMIT / 3;

// How many lines are kept: no text with more nodes is accepted.
const LINES: usize = paper::NODE_LIMIT;

// LINES.

// The lines of the table that are kept, in four columns.
#[derive(Drop)]
struct Lines {
    parents: [u16; LINES],
    kinds: [u16; LINES],
    begins: [u16; LINES],
    ends: [u16; LINES],
}

impl Model for Lines {
    ghost Value = { Columns };

    ghost view = { λ l. columns l.parents l.kinds l.begins l.ends };
}

// Copies the first lines of a column.
fn copy_lines(from: &[u16; LINES], count: usize, to: &mut [u16])
    requires { (count ≤ node_limit) × (count ≤ length from.now) × (count ≤ length to.old) }
    ensures { to.new ≡ written (take count from.now) to.old }
{
    to[..count].copy_from_slice(&from[..count]);
}

impl Lines {
    // Keeps a line of the table, as far as there are any; where its element ends may be told later.
    fn keep(&mut self, n: usize, up: u16, what: u16, first: usize, last: usize)
        requires { (first < 65536) × (last < 65536) }
        ensures { n < node_limit → self.new ≡ line_set n up what first last self.old }
    {
        if n < LINES {
            self.parents[n] = up;
            self.kinds[n] = what;
            self.begins[n] = narrow(first);
            self.ends[n] = narrow(last);
        }
    }

    // Tells where an element ends, and answers its parent.
    fn tell_end(&mut self, inner: u16, last: usize) -> u16
        requires { last < 65536 }
        ensures { inner < node_limit → (self.new ≡ columns self.old.parents self.old.kinds self.old.begins (set self.old.ends inner last)) × (result ≡ get_or self.old.parents inner 0) }
    {
        let n = usize::from(inner);
        if LINES <= n {
            return 0;
        }
        self.ends[n] = narrow(last);
        self.parents[n]
    }

    // Copies the first lines into the lent columns.
    fn copy_out(
        &self,
        count: usize,
        parent: &mut [u16],
        kind: &mut [u16],
        begin: &mut [u16],
        end: &mut [u16],
    )
        requires kept { (count ≤ node_limit) × (count ≤ length self.now.parents) × (count ≤ length self.now.kinds) × (count ≤ length self.now.begins) × (count ≤ length self.now.ends) }
        requires lent { (count ≤ length parent.old) × (count ≤ length kind.old) × (count ≤ length begin.old) × (count ≤ length end.old) }
        ensures parent_after { parent.new ≡ written (take count self.now.parents) parent.old }
        ensures kind_after { kind.new ≡ written (take count self.now.kinds) kind.old }
        ensures begin_after { begin.new ≡ written (take count self.now.begins) begin.old }
        ensures end_after { end.new ≡ written (take count self.now.ends) end.old }
    {
        copy_lines(&self.parents, count, parent);
        copy_lines(&self.kinds, count, kind);
        copy_lines(&self.begins, count, begin);
        copy_lines(&self.ends, count, end);
    }
}

// PIECES.

// Counts a piece and keeps its line.
fn keep_piece(
    text: &[u8],
    names: &Initials,
    open: &mut [u16; OPEN],
    lines: &mut Lines,
    piece: Piece,
    so_far: Progress,
) -> Progress
    requires text_len_bound { length text.now ≤ text_limit }
    requires facing { Facing text.now names.now «open».old lines.old piece so_far }
    ensures comes { Standing text.now names.now «open».new lines.new result }
    ensures rises { so_far.at < result.at }
{
    let at = so_far.at;
    let depth = so_far.depth;
    let inner = so_far.inner;
    let n = so_far.nodes;
    match piece {
        Piece::Start { name_end, next } => {
            let found = find_name(names, text, at, name_end);
            open[depth] = narrow(at);
            lines.keep(n, inner, kind_of(found), at, 0);
            Progress {
                at: next.at,
                depth: depth + 1,
                inner: narrow(n),
                nodes: n + 1,
                unnamed: first_unnamed(found, at, so_far.unnamed),
            }
        }
        Piece::Empty { name_end, next } => {
            let found = find_name(names, text, at, name_end);
            lines.keep(n, inner, kind_of(found), at, next.at);
            Progress {
                at: next.at,
                depth,
                inner,
                nodes: n + 1,
                unnamed: first_unnamed(found, at, so_far.unnamed),
            }
        }
        Piece::End(next) => {
            let up = lines.tell_end(inner, next.at);
            Progress {
                at: next.at,
                depth: depth - 1,
                inner: up,
                nodes: n,
                unnamed: so_far.unnamed,
            }
        }
        Piece::Text(next) => {
            lines.keep(n, inner, paper::TEXT_KIND, at, next.at);
            Progress {
                at: next.at,
                depth,
                inner,
                nodes: n + 1,
                unnamed: so_far.unnamed,
            }
        }
    }
}

// Takes the next piece inside an element.
fn read_piece(
    text: &[u8],
    names: &Initials,
    open: &mut [u16; OPEN],
    lines: &mut Lines,
    so_far: Progress,
) -> Result<Progress, Refusal>
    requires text_len_bound { length text.now ≤ text_limit }
    requires standing { Standing text.now names.now «open».old lines.old so_far × (0 < so_far.depth) }
    ensures comes { Comes text.now names.now «open».new lines.new result }
    ensures rises { Rises so_far.at result }
{
    let inner = usize::from(open[so_far.depth - 1]);
    let cursor = Cursor { at: so_far.at };
    let piece = cursor.take(text, inner)?;
    Ok(keep_piece(text, names, open, lines, piece, so_far))
}

// Takes all pieces up to the end of the one element.
fn read_inside(
    text: &[u8],
    names: &Initials,
    open: &mut [u16; OPEN],
    lines: &mut Lines,
    first: Progress,
) -> Result<Progress, Refusal>
    requires text_len_bound { length text.now ≤ text_limit }
    requires standing { Standing text.now names.now «open».old lines.old first }
    ensures { Ends text.now names.now lines.new result }
{
    let mut so_far = first;
    while 0 < so_far.depth {
        so_far = read_piece(text, names, open, lines, so_far)?;
    }
    Ok(so_far)
}

// Takes the one element, which begins there.
fn read_element(
    text: &[u8],
    names: &Initials,
    lines: &mut Lines,
    at: usize,
) -> Result<Progress, Refusal>
    requires text_len_bound { length text.now ≤ text_limit }
    requires leads { Leads text.now (Ok at) }
    requires nothing_kept { lines.old ≡ blank }
    ensures { Ends text.now names.now lines.new result }
{
    let mut open = [0u16; OPEN];
    lines.keep(0, 0, 0, 0, text.len());
    let cursor = Cursor { at };
    let root = cursor.root(text)?;
    let before = Progress {
        at,
        depth: 0,
        inner: 0,
        nodes: 1,
        unnamed: None,
    };
    let first = keep_piece(text, names, &mut open, lines, root, before);
    read_inside(text, names, &mut open, lines, first)
}

// Judges the text, counts its nodes and keeps its lines; behind the one element the text must end.
fn judge(text: &[u8], names: &Initials, lines: &mut Lines) -> Result<Progress, Refusal>
    requires text_len_bound { length text.now ≤ text_limit }
    requires nothing_kept { lines.old ≡ blank }
    ensures { Judges text.now names.now lines.new result }
{
    let at = prolog::lead(text)?;
    let read = read_element(text, names, lines, at)?;
    xml::finish(text, read.at)?;
    Ok(read)
}

// THE ANSWER.

// Answers and writes where the list is good.
pub fn fill(
    text: &[u8],
    names: &Initials,
    parent: &mut [u16],
    kind: &mut [u16],
    begin: &mut [u16],
    end: &mut [u16],
) -> Answer
    requires text_len_bound { length text.now ≤ text_limit }
    requires kind_len { (length kind.old ≡ length parent.old) × (length begin.old ≡ length parent.old) × (length end.old ≡ length parent.old) }
    ensures result_value { told result ≡ xml_answer text.now names.now (length parent.old) }
    ensures end_after { columns parent.new kind.new begin.new end.new ≡ exit_columns text.now names.now (told result) (columns parent.old kind.old begin.old end.old) }
{
    let mut lines = Lines {
        parents: [0; LINES],
        kinds: [0; LINES],
        begins: [0; LINES],
        ends: [0; LINES],
    };
    let judged = judge(text, names, &mut lines);
    let count = answer(judged, parent.len())?;
    lines.copy_out(count, parent, kind, begin, end);
    Ok(count)
}
