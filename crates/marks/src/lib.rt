// The marks of a text: is the next token this one?
#![tactic(auto)]

ghost use Rattle.std.specs.Prelude.{◌≤◌, ◌≡◌, true, length, get_or};
ghost use Rattle.paper.specs.Tokens.{sort};
ghost use Rattle.paper.specs.Reading.{sees};
ghost use Rattle.token.specs.Taking.{mark_of};
ghost use Rattle.marks.specs.Marks.{tokens_at, leads, OtherByte, Looks};

use token::{Cursor, Mark, Taken, Token};

// The place of a token that was looked for, and the cursor past it.
#[derive(Clone, Copy)]
pub struct There {
    pub place: usize,
    pub next: Cursor,
}

// Is the next token the one looked for? If not, the place of the other one.
pub type Ahead = Result<There, usize>;

// The byte that a mark starts with.
fn first_byte(wanted: Mark) -> u8
    ensures { result ≡ get_or leads (sort (mark_of wanted)) 0 }
{
    match wanted {
        Mark::Slash | Mark::Slashes => b'/',
        Mark::Dot | Mark::Dots => b'.',
        Mark::Colons => b':',
        Mark::Bar => b'|',
        Mark::OpenSquare => b'[',
        Mark::CloseSquare => b']',
        Mark::OpenRound => b'(',
        Mark::CloseRound => b')',
        Mark::Star => b'*',
    }
}

// Does another byte than this one stand here, and no white space?
fn other_byte(text: &[u8], at: usize, b: u8) -> bool
    ensures { result ≡ true → OtherByte text.now at b }
{
    if at < text.len() {
        (text[at] != b) & !token::white_space(text[at])
    } else {
        false
    }
}

// Is the next token this mark? Where another byte stands than the mark starts with, it is not, and no token is taken.
pub fn mark(text: &[u8], cursor: Cursor, wanted: Mark) -> Ahead
    requires { cursor.at ≤ length text.now }
    ensures { Looks text.now cursor.at (sees (mark_of wanted) (tokens_at text.now cursor.at)) result }
{
    let at = cursor.at;
    if other_byte(text, at, first_byte(wanted)) {
        return Err(at);
    }
    let Taken { place, token, next } = cursor.take(text);
    if token == Token::Mark(wanted) {
        Ok(There { place, next })
    } else {
        Err(place)
    }
}
