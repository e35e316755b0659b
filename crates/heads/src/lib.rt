// The head of a step in a text: its axis and its test.
// `newer` says that the text is read by version 2 of XPath; where there are no `names`, any word is a name.
#![tactic(auto)]

ghost use Rattle.std.specs.Prelude.{◌≤◌, ◌<◌, ◌≡◌, Bool, IfSome, length};
ghost use Rattle.paper.specs.Limits.{names_limit};
ghost use Rattle.paper.specs.Query.{Axis};
ghost use Rattle.paper.specs.Items.{axis_number};
ghost use Rattle.paper.specs.Reading.{read_tested, read_step};
ghost use Rattle.paper.specs.Told.{found};
ghost use Rattle.marks.specs.Marks.{tokens_at};
ghost use Rattle.heads.specs.Heads.{look_of, dotted_head, Heads, tested_head, step_head};

use ahead::{AxisAhead, Call, axis_ahead, test_call};
use marks::mark;
use names::Listed;
use paper::Refusal;
use token::{Cursor, Mark, Taken, Token};

// Axis and test of a step, after which predicates may stand; or `.` and `..` of version 1, after which none may.
#[derive(Clone, Copy)]
pub enum Head {
    Plain { axis: u32, next: Cursor },
    Tested { axis: u32, test: u32, next: Cursor },
}

// The number of a name; any word is a name where none is looked up.
fn number(names: Option<&Listed>, word: &[u8]) -> Option<usize>
    ensures numbered { found result ≡ look_of names.entry word.now }
    ensures few { IfSome result (λ v. v < names_limit) }
{
    match names {
        Some(names) => names.find(word),
        None => Some(0),
    }
}

// The test of a step, after its axis: `*`, `node()`, `text()` or a name.
fn tested(text: &[u8], names: Option<&Listed>, cursor: Cursor, axis: u32) -> Result<Head, Refusal>
    requires { cursor.at ≤ length text.now }
    ensures heads { (newer : Bool) (a : Axis) → axis ≡ axis_number a → Heads newer (look_of names.entry) text.now cursor.at (λ within. read_tested newer (look_of names.entry) within a (tokens_at text.now cursor.at)) result }
    ensures value { result ≡ tested_head (look_of names.entry) axis (tokens_at text.now cursor.at) }
{
    let Taken { place, token, next } = cursor.take(text);
    if token == Token::Mark(Mark::Star) {
        return Ok(Head::Tested {
            axis,
            test: item::ANY_ELEMENT,
            next,
        });
    }
    let Token::Word(len) = token else {
        return Err(Refusal::NoQuery(place));
    };
    let word = &text[place..place + len];
    if let Some(Call { test, next }) = test_call(text, word, next) {
        let round = mark(text, next, Mark::CloseRound).map_err(Refusal::NoQuery)?;
        return Ok(Head::Tested {
            axis,
            test,
            next: round.next,
        });
    }
    let v = number(names, word).ok_or(Refusal::UnknownName(place))?;
    Ok(Head::Tested {
        axis,
        test: v as u32 + item::NAMED,
        next,
    })
}

// The head that `.` or `..` is, by its axis: predicates may stand after it in version 2.
fn dotted(axis: u32, next: Cursor, newer: bool) -> Head
    ensures { result ≡ dotted_head newer axis next }
{
    if newer {
        Head::Tested {
            axis,
            test: item::ANY_NODE,
            next,
        }
    } else {
        Head::Plain { axis, next }
    }
}

// The head of a step: `.`, `..`, or axis and test; no axis means child.
pub fn step_head(
    text: &[u8],
    names: Option<&Listed>,
    cursor: Cursor,
    newer: bool,
) -> Result<Head, Refusal>
    requires { cursor.at ≤ length text.now }
    ensures heads { Heads newer (look_of names.entry) text.now cursor.at (λ within. read_step newer (look_of names.entry) within (tokens_at text.now cursor.at)) result }
    ensures value { result ≡ step_head newer (look_of names.entry) (tokens_at text.now cursor.at) }
{
    if let Ok(dot) = mark(text, cursor, Mark::Dot) {
        return Ok(dotted(item::SELF, dot.next, newer));
    }
    if let Ok(dots) = mark(text, cursor, Mark::Dots) {
        return Ok(dotted(item::PARENT, dots.next, newer));
    }
    match axis_ahead(text, cursor) {
        Some(AxisAhead { axis, next }) => tested(text, names, next, axis),
        None => tested(text, names, cursor, item::CHILD),
    }
}
