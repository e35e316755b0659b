// An XML text against lent columns: its pieces are compared with their lines one by one, and no second table is made.
#![tactic(auto)]

ghost use Rattle.std.specs.Prelude.{ℕ, ◌≤◌, ◌<◌, ◌≡◌, List, Ok, length, get_or};
ghost use Rattle.std.proofs.Math.Option as maybe;
ghost use Rattle.std.proofs.Math.Option.{some};
ghost use Rattle.paper.specs.Limits.{text_limit, names_limit};
ghost use Rattle.paper.specs.Told.{found};
ghost use Rattle.prolog.specs.Heading.{Leads};
ghost use Rattle.xml_lines.specs.Kept.{Columns, columns};
ghost use Rattle.line_tests.specs.Telling as telling;
ghost use Rattle.line_tests.specs.Telling.{Has, NamedAt};
ghost use Rattle.match_lines.specs.Compared.{Standing, Facing, Comes, Rises, Ends, Judges, Tells};

use initials::Initials;
use line_tests::{begins_line, kind_is, says};
use paper::Refusal;
use std::marker::Model;
use xml::{Cursor, Piece};
use xml_lines::{find_name, narrow};

// How many elements can be open at once: a start tag has three bytes at least.
const OPEN: usize = paper::TEXT_LIMIT / 3;

// How far comparing has come: the place, how many elements are open, the innermost of them by its number, how many nodes there are, and whether all lines so far are those of the columns.
#[derive(Clone, Copy)]
struct Progress {
    at: usize,
    depth: usize,
    inner: u16,
    nodes: usize,
    same: bool,
}

// A text that is compared: how many nodes it has, and whether their lines are those of the columns.
#[derive(Clone, Copy)]
pub struct Match {
    pub nodes: usize,
    pub same: bool,
}

// LINES.

// The lent columns.
#[derive(Drop)]
struct Lent<'a> {
    parents: &'a [u16],
    kinds: &'a [u16],
    begins: &'a [u16],
    ends: &'a [u16],
}

impl<'a> Model for Lent<'a> {
    ghost Value = { Columns };

    ghost view = { λ l. columns l.parents.now l.kinds.now l.begins.now l.ends.now };
}

impl<'a> Lent<'a> {
    // Have the columns a line of these that begins there?
    fn begins(&self, n: usize, up: u16, first: usize) -> bool
        ensures { telling.Tells result (Has self.now.parents n up × Has self.now.begins n first) }
    {
        begins_line(self.parents, self.begins, n, up, first)
    }

    // Have they this kind at the index?
    fn has_kind(&self, n: usize, kind: u16) -> bool
        ensures { telling.Tells result (Has self.now.kinds n kind) }
    {
        says(self.kinds, n, usize::from(kind))
    }

    // Have they the kind of an element of this name, which the list has?
    fn has_name(&self, n: usize, number: Option<usize>) -> bool
        requires { (v : ℕ) → found number ≡ some v → v < names_limit }
        ensures { (look : List ℕ → maybe.Option ℕ) (name : List ℕ) → found number ≡ look name → telling.Tells result (NamedAt look name self.now.kinds n) }
    {
        kind_is(self.kinds, n, number)
    }

    // Does this node end there?
    fn ends_at(&self, n: usize, last: usize) -> bool
        ensures { telling.Tells result (Has self.now.ends n last) }
    {
        says(self.ends, n, last)
    }

    // The parent that the column says, 0 past its end.
    fn parent_of(&self, n: u16) -> u16
        ensures { n < length self.now.parents → result ≡ get_or self.now.parents n 0 }
    {
        let i = usize::from(n);
        if self.parents.len() <= i {
            return 0;
        }
        self.parents[i]
    }
}

// PIECES.

// Compares a piece with its line.
fn match_piece(
    text: &[u8],
    names: &Initials,
    lent: &Lent,
    open: &mut [u16; OPEN],
    piece: Piece,
    so_far: Progress,
) -> Progress
    requires text_len_bound { (length text.now ≤ text_limit) × (length lent.now.ends ≡ length lent.now.parents) }
    requires facing { Facing text.now names.now «open».old lent.now piece so_far }
    ensures comes { Standing text.now names.now «open».new lent.now result }
    ensures rises { so_far.at < result.at }
{
    let at = so_far.at;
    let depth = so_far.depth;
    let inner = so_far.inner;
    let n = so_far.nodes;
    match piece {
        Piece::Start { name_end, next } => {
            let found = find_name(names, text, at, name_end);
            let line = lent.begins(n, inner, at) & lent.has_name(n, found);
            open[depth] = narrow(at);
            Progress {
                at: next.at,
                depth: depth + 1,
                inner: narrow(n),
                nodes: n + 1,
                same: so_far.same & line,
            }
        }
        Piece::Empty { name_end, next } => {
            let found = find_name(names, text, at, name_end);
            let line = lent.begins(n, inner, at) & lent.has_name(n, found);
            let ended = lent.ends_at(n, next.at);
            Progress {
                at: next.at,
                depth,
                inner,
                nodes: n + 1,
                same: so_far.same & (line & ended),
            }
        }
        Piece::End(next) => {
            let ended = lent.ends_at(usize::from(inner), next.at);
            Progress {
                at: next.at,
                depth: depth - 1,
                inner: lent.parent_of(inner),
                nodes: n,
                same: so_far.same & ended,
            }
        }
        Piece::Text(next) => {
            let line = lent.begins(n, inner, at) & lent.has_kind(n, paper::TEXT_KIND);
            let ended = lent.ends_at(n, next.at);
            Progress {
                at: next.at,
                depth,
                inner,
                nodes: n + 1,
                same: so_far.same & (line & ended),
            }
        }
    }
}

// Compares the next piece inside an element.
fn next_piece(
    text: &[u8],
    names: &Initials,
    lent: &Lent,
    open: &mut [u16; OPEN],
    so_far: Progress,
) -> Result<Progress, Refusal>
    requires text_len_bound { (length text.now ≤ text_limit) × (length lent.now.ends ≡ length lent.now.parents) }
    requires standing { Standing text.now names.now «open».old lent.now so_far × (0 < so_far.depth) }
    ensures comes { Comes text.now names.now «open».new lent.now result }
    ensures rises { Rises so_far.at result }
{
    let inner = usize::from(open[so_far.depth - 1]);
    let cursor = Cursor { at: so_far.at };
    let piece = cursor.take(text, inner)?;
    Ok(match_piece(text, names, lent, open, piece, so_far))
}

// Compares all pieces up to the end of the one element.
fn match_inside(
    text: &[u8],
    names: &Initials,
    lent: &Lent,
    open: &mut [u16; OPEN],
    first: Progress,
) -> Result<Progress, Refusal>
    requires text_len_bound { (length text.now ≤ text_limit) × (length lent.now.ends ≡ length lent.now.parents) }
    requires standing { Standing text.now names.now «open».old lent.now first }
    ensures { Ends text.now names.now lent.now result }
{
    let mut so_far = first;
    while 0 < so_far.depth {
        so_far = next_piece(text, names, lent, open, so_far)?;
    }
    Ok(so_far)
}

// Compares the one element, which begins there.
fn match_element(text: &[u8], names: &Initials, lent: &Lent, at: usize) -> Result<Progress, Refusal>
    requires text_len_bound { (length text.now ≤ text_limit) × (length lent.now.ends ≡ length lent.now.parents) }
    requires leads { Leads text.now (Ok at) }
    ensures { Ends text.now names.now lent.now result }
{
    let mut open = [0u16; OPEN];
    let line = lent.begins(0, 0, 0) & lent.has_kind(0, 0);
    let ended = lent.ends_at(0, text.len());
    let cursor = Cursor { at };
    let root = cursor.root(text)?;
    let before = Progress {
        at,
        depth: 0,
        inner: 0,
        nodes: 1,
        same: line & ended,
    };
    let first = match_piece(text, names, lent, &mut open, root, before);
    match_inside(text, names, lent, &mut open, first)
}

// Compares the text; behind the one element it must end.
fn compare(text: &[u8], names: &Initials, lent: &Lent) -> Result<Progress, Refusal>
    requires text_len_bound { (length text.now ≤ text_limit) × (length lent.now.ends ≡ length lent.now.parents) }
    ensures { Judges text.now names.now lent.now result }
{
    let at = prolog::lead(text)?;
    let read = match_element(text, names, lent, at)?;
    xml::finish(text, read.at)?;
    Ok(read)
}

// Compares the text, and says how many nodes it has and whether their lines are those of the columns; nothing where the text is refused.
pub fn outcome(
    text: &[u8],
    names: &Initials,
    parent: &[u16],
    kind: &[u16],
    begin: &[u16],
    end: &[u16],
) -> Option<Match>
    requires text_len_bound { (length text.now ≤ text_limit) × (length end.now ≡ length parent.now) }
    ensures { Tells text.now names.now (columns parent.now kind.now begin.now end.now) result }
{
    let lent = Lent {
        parents: parent,
        kinds: kind,
        begins: begin,
        ends: end,
    };
    let read = compare(text, names, &lent).ok()?;
    Some(Match {
        nodes: read.nodes,
        same: read.same,
    })
}
