// XML text, piece by piece: a cursor by value that takes the next tag or run of characters and hands itself back, or says why there is none.
#![tactic(auto)]

ghost use Rattle.std.specs.Prelude.{ℕ, suc, ◌≤◌, ◌<◌, ◌≡◌, false, length, get_or, drop};
ghost use Rattle.paper.specs.Xml.{xml_start, xml_part, left_out_anywhere};
ghost use Rattle.end_tags.specs.Renaming.{Named};
ghost use Rattle.xml.specs.Pieces.{foreign_in, EmptyEnds, Past, TagEnds, Tags, Takes, Roots, Finishes};

use end_tags::end_tag;
use good_names::{name_part, name_start};
use paper::Refusal;
use token::{run_end, skip};
use xml_bytes::{Reach, byte, markup, refuse};
use xml_runs::run;

// Where the next piece is looked for.
#[derive(Clone, Copy)]
pub struct Cursor {
    pub at: usize,
}

// What stands next inside an element; a start tag says where its name ends.
#[derive(Clone, Copy)]
pub enum Piece {
    Start { name_end: usize, next: Cursor },
    Empty { name_end: usize, next: Cursor },
    End(Cursor),
    Text(Cursor),
}

// May a name of XML 1.0 begin with this byte?
fn xml_start(b: u8) -> bool
    ensures { result ≡ xml_start b }
{
    name_start(b)
        | (b == b':')
        | (195 <= b) & (b <= 203)
        | (205 <= b) & (b <= 237)
        | (239 <= b) & (b <= 243)
}

// May a name of XML 1.0 go on with this byte?
fn xml_part(b: u8) -> bool
    ensures { result ≡ xml_part b }
{
    name_part(b) | xml_start(b) | (b == 194) | (b == 204)
}

// TAGS.

// The `>` of an empty element, past its `/`.
fn empty_end(text: &[u8], name_end: usize, at: usize) -> Result<Piece, Refusal>
    requires { (at ≤ length text.now) × (name_end < at) }
    ensures { EmptyEnds text.now name_end at result }
{
    let next = byte(text, at, b'>')?;
    Ok(Piece::Empty {
        name_end,
        next: Cursor { at: next },
    })
}

// Does a name of XML 1.0 go on or begin here that is left out, by whether white space stands before?
fn foreign(b: u8, behind_space: bool) -> bool
    ensures { result ≡ foreign_in behind_space b }
{
    if behind_space {
        xml_start(b)
    } else {
        xml_part(b)
    }
}

// The end of a start tag, past white space behind its name.
fn tag_end(text: &[u8], name_end: usize, at: usize) -> Result<Piece, Refusal>
    requires { (at ≤ length text.now) × (name_end ≤ at) × (at < length text.now → Past text.now name_end at) }
    ensures { TagEnds text.now name_end at result }
{
    if text.len() <= at {
        return Err(Refusal::NoXml(at));
    }
    let b = text[at];
    if b == b'>' {
        return Ok(Piece::Start {
            name_end,
            next: Cursor { at: at + 1 },
        });
    }
    if b == b'/' {
        return empty_end(text, name_end, at + 1);
    }
    if foreign(b, name_end < at) {
        return Err(Refusal::LeftOut(at));
    }
    Err(refuse(text, at))
}

// A start tag, past the `<`.
fn start_tag(text: &[u8], at: usize) -> Result<Piece, Refusal>
    requires { at ≤ length text.now }
    ensures { Tags text.now at result }
{
    if text.len() <= at {
        return Err(Refusal::NoXml(at));
    }
    let b = text[at];
    if !name_start(b) {
        if xml_start(b) {
            return Err(Refusal::LeftOut(at));
        }
        return Err(refuse(text, at));
    }
    let name_end = run_end(text, at + 1);
    tag_end(text, name_end, skip(text, name_end))
}

// PIECES.

// A run of characters as a piece.
fn text_piece(text: &[u8], at: usize) -> Result<Piece, Refusal>
    requires { (at < length text.now) × (get_or text.now at 0 ≡ 60 → ⊥) }
    ensures { (inner : ℕ) → Takes text.now at inner result }
{
    let next = run(text, at)?;
    Ok(Piece::Text(Cursor { at: next }))
}

// An end tag as a piece.
fn end_piece(text: &[u8], at: usize, inner: usize) -> Result<Piece, Refusal>
    requires { (suc at < length text.now) × (get_or text.now at 0 ≡ 60) × (get_or text.now (suc at) 0 ≡ 47) × Named text.now inner × (left_out_anywhere (drop at text.now) ≡ false) }
    ensures { Takes text.now at inner result }
{
    let next = end_tag(text, at + 2, inner)?;
    Ok(Piece::End(Cursor { at: next }))
}

impl Cursor {
    // The next piece inside the element that begins at `inner`.
    pub fn take(self, text: &[u8], inner: usize) -> Result<Piece, Refusal>
        requires { (self.at ≤ length text.now) × Named text.now inner }
        ensures { Takes text.now self.at inner result }
    {
        let at = self.at;
        if text.len() <= at {
            return Err(Refusal::NoXml(at));
        }
        if text[at] != b'<' {
            return text_piece(text, at);
        }
        if markup(text, at) {
            return Err(Refusal::LeftOut(at));
        }
        let next = at + 1;
        if text.len() <= next {
            return Err(Refusal::NoXml(next));
        }
        if text[next] == b'/' {
            return end_piece(text, at, inner);
        }
        start_tag(text, next)
    }

    // The start tag of the one element, whose `<` stands at the cursor.
    pub fn root(self, text: &[u8]) -> Result<Piece, Refusal>
        requires { (self.at < length text.now) × (get_or text.now self.at 0 ≡ 60) × (left_out_anywhere (drop self.at text.now) ≡ false) }
        ensures { Roots text.now self.at result }
    {
        start_tag(text, self.at + 1)
    }
}

// Past the one element: only white space may stand to the end of the text.
pub fn finish(text: &[u8], at: usize) -> Reach
    requires { at ≤ length text.now }
    ensures { Finishes text.now at result }
{
    let end = skip(text, at);
    if end < text.len() {
        Err(refuse(text, end))
    } else {
        Ok(end)
    }
}
