// What comes next in a text: words, and how paths, operands and tests begin.
// Each function takes tokens from a cursor on and hands back the cursor past those it was asked for, or says that something else comes.
#![tactic(auto)]

ghost use Rattle.std.specs.Prelude.{◌≤◌, ◌<◌, ◌≡◌, length};
ghost use Rattle.paper.specs.Tools.{same};
ghost use Rattle.paper.specs.Tokens.{letters};
ghost use Rattle.paper.specs.Reading.{next, joins, starts_step};
ghost use Rattle.token.specs.Taking.{mark_of};
ghost use Rattle.marks.specs.Marks.{tokens_at, Looks};
ghost use Rattle.ahead.specs.Looking.{Joins, Leads, Begins, Axes, call_code, Calls};

use axis_words::axis_of;
use marks::{Ahead, There, mark};
use token::{Cursor, Mark, Taken, Token};
use words::same_word;

// The cursor past a `/` or a `//`, and which of them it is.
#[derive(Clone, Copy)]
pub struct Joint {
    pub next: Cursor,
    pub deep: bool,
}

// How an absolute path begins.
#[derive(Clone, Copy)]
pub enum Lead {
    Alone(Cursor),
    Before(Joint),
}

// How an operand begins: the place of its bracket and the cursor past that, or a path.
#[derive(Clone, Copy)]
pub enum Opens {
    Not(There),
    Round(There),
    Path,
}

// An axis that is written, and the cursor past its `::`.
#[derive(Clone, Copy)]
pub struct AxisAhead {
    pub axis: u32,
    pub next: Cursor,
}

// A test that is written as a call, and the cursor past its `(`.
#[derive(Clone, Copy)]
pub struct Call {
    pub test: u32,
    pub next: Cursor,
}

// MARKS AND WORDS.

// Is the next token this word?
pub fn word_ahead(text: &[u8], cursor: Cursor, word: &[u8]) -> Ahead
    requires { (cursor.at ≤ length text.now) × (0 < length word.now) }
    ensures { Looks text.now cursor.at (same word.now (letters (next (tokens_at text.now cursor.at)))) result }
{
    let Taken { place, token, next } = cursor.take(text);
    let Token::Word(len) = token else {
        return Err(place);
    };
    if same_word(text, place, len, word) {
        Ok(There { place, next })
    } else {
        Err(place)
    }
}

// PATHS AND OPERANDS.

// May a step begin with this mark?
fn begins_step(mark: Mark) -> bool
    ensures { result ≡ starts_step (mark_of mark) }
{
    matches!(mark, Mark::Star | Mark::Dot | Mark::Dots)
}

// Does a step begin here?
fn starts_step(text: &[u8], cursor: Cursor) -> bool
    requires { cursor.at ≤ length text.now }
    ensures { result ≡ starts_step (next (tokens_at text.now cursor.at)) }
{
    match cursor.take(text).token {
        Token::Word(_) => true,
        Token::Mark(mark) => begins_step(mark),
        _ => false,
    }
}

// Does `/` or `//` come next? If not, the place of the other token.
pub fn joined(text: &[u8], cursor: Cursor) -> Result<Joint, usize>
    requires { cursor.at ≤ length text.now }
    ensures { Joins text.now cursor.at result }
{
    if let Ok(There { place: _, next }) = mark(text, cursor, Mark::Slash) {
        return Ok(Joint { next, deep: false });
    }
    let There { place: _, next } = mark(text, cursor, Mark::Slashes)?;
    Ok(Joint { next, deep: true })
}

// How an absolute path begins: `/` alone, or `/` or `//` and steps. If none does, the place of the other token.
pub fn path_lead(text: &[u8], cursor: Cursor) -> Result<Lead, usize>
    requires { cursor.at ≤ length text.now }
    ensures { Leads text.now cursor.at result }
{
    let joint = joined(text, cursor)?;
    if joint.deep {
        return Ok(Lead::Before(joint));
    }
    if starts_step(text, joint.next) {
        Ok(Lead::Before(joint))
    } else {
        Ok(Lead::Alone(joint.next))
    }
}

// How an operand begins: `not(`, `(`, or a step.
pub fn opening(text: &[u8], cursor: Cursor) -> Opens
    requires { cursor.at ≤ length text.now }
    ensures { Begins text.now cursor.at result }
{
    if let Ok(round) = mark(text, cursor, Mark::OpenRound) {
        return Opens::Round(round);
    }
    let Ok(word) = word_ahead(text, cursor, b"not") else {
        return Opens::Path;
    };
    match mark(text, word.next, Mark::OpenRound) {
        Ok(round) => Opens::Not(round),
        Err(_) => Opens::Path,
    }
}

// Is the next token one that joins absolute paths: `|`, or in version 2 the word `union`?
pub fn joins_ahead(text: &[u8], cursor: Cursor, newer: bool) -> Ahead
    requires { cursor.at ≤ length text.now }
    ensures { Looks text.now cursor.at (joins newer (tokens_at text.now cursor.at)) result }
{
    let bar = mark(text, cursor, Mark::Bar);
    if let Ok(_) = bar {
        return bar;
    }
    if newer {
        word_ahead(text, cursor, b"union")
    } else {
        bar
    }
}

// AXES AND TESTS.

// The axis that is written before `::`, if one is.
pub fn axis_ahead(text: &[u8], cursor: Cursor) -> Option<AxisAhead>
    requires { cursor.at ≤ length text.now }
    ensures { Axes text.now cursor.at result }
{
    let Taken { place, token, next } = cursor.take(text);
    let Token::Word(len) = token else {
        return None;
    };
    let Ok(colons) = mark(text, next, Mark::Colons) else {
        return None;
    };
    let axis = axis_of(&text[place..place + len])?;
    Some(AxisAhead {
        axis,
        next: colons.next,
    })
}

// The number of the test that a word calls, if it calls one.
fn call_of(word: &[u8]) -> Option<u32>
    ensures { result ≡ call_code word.now }
{
    match word {
        b"node" => Some(item::ANY_NODE),
        b"text" => Some(item::TEXT_NODE),
        _ => None,
    }
}

// The test that a word and the `(` after it call, if they do.
pub fn test_call(text: &[u8], word: &[u8], cursor: Cursor) -> Option<Call>
    requires { cursor.at ≤ length text.now }
    ensures { Calls text.now word.now cursor.at result }
{
    let test = call_of(word)?;
    let Ok(round) = mark(text, cursor, Mark::OpenRound) else {
        return None;
    };
    Some(Call {
        test,
        next: round.next,
    })
}
