// What XML text is read into: the number of a start tag's name and the kind of its element, the first name that the list lacks, and the answer where the text was judged.
#![tactic(auto)]

ghost use Rattle.std.specs.Prelude.{ℕ, suc, ◌<◌, ◌≡◌, List, [], ◌∷◌, ◌++◌};
ghost use Rattle.std.proofs.Math.Option.{Option, some};
ghost use Rattle.paper.specs.Limits.{names_limit};
ghost use Rattle.paper.specs.Names.{names_of, number_of};
ghost use Rattle.paper.specs.Xml.{Row, row, named, name_kind, unnamed};
ghost use Rattle.paper.specs.Told.{told, found};
ghost use Rattle.xml.specs.Pieces.{name_at};
ghost use Rattle.xml_lines.specs.Open.{NameEnds};
ghost use Rattle.xml_lines.specs.Kept.{Columns, xml_answer};
ghost use Rattle.xml_lines.specs.Judges.{Judges};

use initials::Initials;
use paper::{Answer, Refusal};

// How far reading has come: the place, how many elements are open, the innermost of them by its number, 0 where none is open, how many nodes there are, and where the first name stands that the list lacks, if it lacks one.
#[derive(Clone, Copy)]
pub struct Progress {
    pub at: usize,
    pub depth: usize,
    pub inner: u16,
    pub nodes: usize,
    pub unnamed: Option<usize>,
}

// A number below 65,536 as an entry of a column.
pub fn narrow(x: usize) -> u16
    requires { x < 65536 }
    ensures { result ≡ x }
{
    x as u16
}

// The number of the name of the start tag that begins there, if the list has it.
pub fn find_name(names: &Initials, text: &[u8], begin: usize, name_end: usize) -> Option<usize>
    requires { NameEnds text.now begin name_end }
    ensures numbered { found result ≡ number_of (names_of names.now) (name_at text.now (suc begin)) }
    ensures few { (v : ℕ) → found result ≡ some v → v < names_limit }
{
    names.find(&text[begin + 1..name_end])
}

// Where the first name stands that the list lacks, with one start tag more, whose name was looked for.
pub fn first_unnamed(number: Option<usize>, begin: usize, before: Option<usize>) -> Option<usize>
    requires { begin < 65536 }
    ensures { (look : List ℕ → Option ℕ) (rows : List Row) (name : List ℕ) (up end : ℕ) → found number ≡ look name → found before ≡ unnamed look rows → found result ≡ unnamed look (rows ++ (row up (named name) begin end ∷ [])) }
{
    if before.is_some() {
        return before;
    }
    match number {
        Some(_) => None,
        None => Some(begin + 1),
    }
}

// The kind of an element by the number of its name.
pub fn kind_of(number: Option<usize>) -> u16
    requires { (v : ℕ) → found number ≡ some v → v < names_limit }
    ensures { result ≡ name_kind (found number) }
{
    match number {
        Some(v) => paper::ELEMENT_KIND + narrow(v),
        None => paper::ELEMENT_KIND,
    }
}

// What is answered where the list is good and the text was judged.
pub fn answer(judged: Result<Progress, Refusal>, room: usize) -> Answer
    ensures { (text list : List ℕ) (cols : Columns) → Judges text list cols judged → told result ≡ xml_answer text list room }
{
    let read = judged?;
    if let Some(place) = read.unnamed {
        return Err(Refusal::UnknownName(place));
    }
    let needed = read.nodes;
    if (room < needed) | (paper::NODE_LIMIT < needed) {
        return Err(Refusal::Short(needed));
    }
    Ok(needed)
}
