// The lexer: a cursor by value that skips white space, takes the longest token and hands itself back.
#![tactic(auto)]

ghost use Rattle.std.specs.Prelude.{suc, ◌+◌, ◌≤◌, ◌<◌, ◌≡◌, false, length, get_or, drop};
ghost use Rattle.paper.specs.Tools.{begins, run_of};
ghost use Rattle.paper.specs.Names.{name_start, name_part};
ghost use Rattle.paper.specs.Tokens.{white};
ghost use Rattle.token.specs.Taking.{Longest, Takes, mark_width, width_of};

use good_names::{name_part, name_start};

// Where the next token is looked for.
#[derive(Clone, Copy)]
pub struct Cursor {
    pub at: usize,
}

// The marks: the tokens that are no words.
#[derive(Clone, Copy, PartialEq, Eq)]
pub enum Mark {
    Slash,
    Slashes,
    Dot,
    Dots,
    Colons,
    Bar,
    OpenSquare,
    CloseSquare,
    OpenRound,
    CloseRound,
    Star,
}

// The tokens; a word holds its number of bytes. Finish is the end of the text, Stray a byte that starts no token.
#[derive(Clone, Copy, PartialEq, Eq)]
pub enum Token {
    Mark(Mark),
    Word(usize),
    Finish,
    Stray,
}

// A token, where it starts, and the cursor past it.
#[derive(Clone, Copy)]
pub struct Taken {
    pub place: usize,
    pub token: Token,
    pub next: Cursor,
}

// Is this byte white space?
pub fn white_space(b: u8) -> bool
    ensures { result ≡ white b }
{
    (b == b' ') | (b == b'\t') | (b == b'\n') | (b == b'\r')
}

// The first place from `from` on where no white space stands.
pub fn skip(text: &[u8], from: usize) -> usize
    requires { from ≤ length text.now }
    ensures { result ≡ from + run_of white (drop from text.now) }
{
    let blanks = text[from..]
        .iter()
        .position(|&b| !white_space(b))
        .unwrap_or(text.len() - from);
    from + blanks
}

// Where the bytes that go on with a name end, from `from` on.
pub fn run_end(text: &[u8], from: usize) -> usize
    requires { from ≤ length text.now }
    ensures { result ≡ from + run_of name_part (drop from text.now) }
{
    let letters = text[from..]
        .iter()
        .position(|&b| !name_part(b))
        .unwrap_or(text.len() - from);
    from + letters
}

// Does this byte stand right after the place?
fn follows(text: &[u8], place: usize, b: u8) -> bool
    requires { place < length text.now }
    ensures { result ≡ begins b (drop (suc place) text.now) }
{
    let next = place + 1;
    if next < text.len() {
        b == text[next]
    } else {
        false
    }
}

// The longest token that starts here with another byte than a name does.
fn mark_at(text: &[u8], place: usize) -> Token
    requires place_in_bounds { place < length text.now }
    requires place_value { name_start (get_or text.now place 0) ≡ false }
    ensures { Longest text.now place result }
{
    let b = text[place];
    match b {
        b'/' => {
            if follows(text, place, b'/') {
                Token::Mark(Mark::Slashes)
            } else {
                Token::Mark(Mark::Slash)
            }
        }
        b'.' => {
            if follows(text, place, b'.') {
                Token::Mark(Mark::Dots)
            } else {
                Token::Mark(Mark::Dot)
            }
        }
        b':' => {
            if follows(text, place, b':') {
                Token::Mark(Mark::Colons)
            } else {
                Token::Stray
            }
        }
        b'|' => Token::Mark(Mark::Bar),
        b'[' => Token::Mark(Mark::OpenSquare),
        b']' => Token::Mark(Mark::CloseSquare),
        b'(' => Token::Mark(Mark::OpenRound),
        b')' => Token::Mark(Mark::CloseRound),
        b'*' => Token::Mark(Mark::Star),
        _ => Token::Stray,
    }
}

// The longest token that starts here.
fn token_at(text: &[u8], place: usize) -> Token
    requires { place < length text.now }
    ensures { Longest text.now place result }
{
    if name_start(text[place]) {
        return Token::Word(run_end(text, place + 1) - place);
    }
    mark_at(text, place)
}

// How many bytes a mark takes.
fn mark_width(m: Mark) -> usize
    ensures { result ≡ mark_width m }
{
    match m {
        Mark::Slashes | Mark::Dots | Mark::Colons => 2,
        _ => 1,
    }
}

// How many bytes a token takes.
fn width(t: Token) -> usize
    ensures { result ≡ width_of t }
{
    match t {
        Token::Mark(m) => mark_width(m),
        Token::Word(n) => n,
        Token::Finish => 0,
        Token::Stray => 1,
    }
}

impl Cursor {
    // Skips white space and takes the longest token.
    pub fn take(self, text: &[u8]) -> Taken
        requires { self.at ≤ length text.now }
        ensures { Takes text.now self.at result }
    {
        let from = self.at;
        let place = skip(text, from);
        if text.len() <= place {
            return Taken {
                place,
                token: Token::Finish,
                next: Cursor { at: place },
            };
        }
        let token = token_at(text, place);
        let end = place + width(token);
        Taken {
            place,
            token,
            next: Cursor { at: end },
        }
    }
}
