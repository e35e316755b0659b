// Runs of characters in XML text: one character after the other, ordinary bytes a block at a time, up to the `<` that ends the run.
#![tactic(auto)]

ghost use Rattle.std.specs.Prelude.{ℕ, ◌+◌, ◌≤◌, ◌<◌, ◌≡◌, [], ◌∷◌, length, get_or};
ghost use Rattle.paper.specs.Xml.{from, reference, run, partly};
ghost use Rattle.paper.specs.Xml as xml;
ghost use Rattle.xml_bytes.specs.Blocks.{block, AllFit};
ghost use Rattle.xml_bytes.specs.Promised.{Reads, tailing};
ghost use Rattle.xml_runs.specs.Runs.{Crosses, past_ef, past_a, squares_after, is_ordinary, ordinary_from, OrdinaryEnds, SquaresPast, Runs};

use paper::Refusal;
use xml_bytes::{BLOCK, Reach, markup, refuse, say, sooner};

// A character of one byte?
fn plain(b: u8) -> bool
    ensures { result ≡ xml.plain b }
{
    (b' ' <= b) & (b <= 127) | (b == b'\t') | (b == b'\n') | (b == b'\r')
}

// One byte of a range must come.
fn within(text: &[u8], at: usize, low: u8, high: u8) -> Reach
    requires { at ≤ length text.now }
    ensures { Reads text.now at (from low high ∷ []) result }
{
    match text.get(at) {
        Some(&b) if (low <= b) & (b <= high) => Ok(at + 1),
        _ => Err(refuse(text, at)),
    }
}

// So many bytes that go on with a character must come.
fn tails(text: &[u8], at: usize, count: usize) -> Reach
    requires { at ≤ length text.now }
    ensures { Reads text.now at (tailing count) result }
{
    let mut next = at;
    for _ in 0..count {
        next = within(text, next, 128, 191)?;
    }
    Ok(next)
}

// A byte of a range, and then so many that go on with a character.
fn narrow(text: &[u8], at: usize, low: u8, high: u8, count: usize) -> Reach
    requires { at ≤ length text.now }
    ensures { Reads text.now at (from low high ∷ tailing count) result }
{
    let next = within(text, at, low, high)?;
    tails(text, next, count)
}

// Past the byte EF: no FFFE and no FFFF.
fn past_ef(text: &[u8], at: usize) -> Reach
    requires { at ≤ length text.now }
    ensures { Crosses text.now at (λ begin. partly begin past_ef) (λ begin. run begin 0) result }
{
    if text.len() <= at {
        return Err(Refusal::NoXml(at));
    }
    if text[at] == 191 {
        return within(text, at + 1, 128, 189);
    }
    narrow(text, at, 128, 190, 1)
}

// A character of several bytes.
fn wide(text: &[u8], at: usize) -> Reach
    requires { (at < length text.now) × (128 ≤ get_or text.now at 0) }
    ensures { (k : ℕ) → Crosses text.now at (λ begin. run begin k) (λ begin. run begin 0) result }
{
    let b = text[at];
    let next = at + 1;
    match b {
        194..=223 => tails(text, next, 1),
        224 => narrow(text, next, 160, 191, 1),
        225..=236 => tails(text, next, 2),
        237 => narrow(text, next, 128, 159, 1),
        238 => tails(text, next, 2),
        239 => past_ef(text, next),
        240 => narrow(text, next, 144, 191, 2),
        241..=243 => tails(text, next, 3),
        244 => narrow(text, next, 128, 143, 2),
        _ => Err(Refusal::NoXml(at)),
    }
}

// `amp;` or `apos;` past the `a`.
fn past_a(text: &[u8], at: usize) -> Reach
    requires { at ≤ length text.now }
    ensures { Crosses text.now at (λ begin. partly begin past_a) (λ begin. run begin 0) result }
{
    if text.len() <= at {
        return Err(Refusal::NoXml(at));
    }
    let b = text[at];
    let next = at + 1;
    match b {
        b'm' => say(text, next, b"p;"),
        b'p' => say(text, next, b"os;"),
        _ => Err(refuse(text, at)),
    }
}

// A reference past its `&`, which names a character.
fn named_character(text: &[u8], at: usize) -> Reach
    requires { at ≤ length text.now }
    ensures { Crosses text.now at (λ begin. partly begin reference) (λ begin. run begin 0) result }
{
    if text.len() <= at {
        return Err(Refusal::NoXml(at));
    }
    let b = text[at];
    let next = at + 1;
    match b {
        b'l' => say(text, next, b"t;"),
        b'g' => say(text, next, b"t;"),
        b'a' => past_a(text, next),
        b'q' => say(text, next, b"uot;"),
        _ => Err(refuse(text, at)),
    }
}

// One character or reference of a run that ends with so many `]`.
fn character(text: &[u8], at: usize, squares: usize) -> Reach
    requires { (at < length text.now) × (get_or text.now at 0 ≡ 60 → ⊥) }
    ensures { Crosses text.now at (λ begin. run begin squares) (λ begin. run begin (squares_after (get_or text.now at 0) squares)) result }
{
    let b = text[at];
    if b == b'&' {
        if markup(text, at) {
            return Err(Refusal::LeftOut(at));
        }
        return named_character(text, at + 1);
    }
    if 128 <= b {
        return wide(text, at);
    }
    if (b == b'>') & (squares == 2) {
        return Err(Refusal::NoXml(at));
    }
    if plain(b) {
        Ok(at + 1)
    } else {
        Err(Refusal::NoXml(at))
    }
}

// How many `]` end the run after this byte, 2 at most.
fn squares_after(b: u8, squares: usize) -> usize
    ensures { result ≡ squares_after b squares }
{
    if b != b']' {
        return 0;
    }
    if squares == 0 { 1 } else { 2 }
}

// A character of one byte other than `<`, `&`, `>` and `]`?
fn ordinary(b: u8) -> bool
    ensures { result ≡ is_ordinary b }
{
    plain(b) & (b != b'<') & (b != b'&') & (b != b'>') & (b != b']')
}

// How many bytes of a block are ordinary, up to the first that is not. No branch, so that they are looked at together.
fn ordinary_block(text: &[u8], at: usize) -> usize
    requires { at + block ≤ length text.now }
    ensures { (result ≤ block) × AllFit (ordinary_from text.now at) result }
{
    let mut stop = BLOCK;
    for i in 0..BLOCK {
        stop = sooner(stop, i, ordinary(text[at + usize::from(i)]));
    }
    usize::from(stop)
}

// A place up to which all bytes are ordinary.
fn ordinary_end(text: &[u8], from: usize) -> usize
    requires { from < length text.now }
    ensures { OrdinaryEnds text.now from result }
{
    if !ordinary(text[from]) {
        return from;
    }
    let mut at = from;
    while at + usize::from(BLOCK) <= text.len() {
        let count = ordinary_block(text, at);
        at += count;
        if count < usize::from(BLOCK) {
            return at;
        }
    }
    at
}

// How many `]` end the run past ordinary bytes.
fn squares_past(at: usize, past: usize, squares: usize) -> usize
    ensures { SquaresPast at past squares result }
{
    if at < past { 0 } else { squares }
}

// A run of characters, up to the `<` that ends it.
pub fn run(text: &[u8], begin: usize) -> Reach
    requires { (begin < length text.now) × (get_or text.now begin 0 ≡ 60 → ⊥) }
    ensures { Runs text.now begin result }
{
    let mut at = begin;
    let mut squares: usize = 0;
    while at < text.len() {
        let past = ordinary_end(text, at);
        squares = squares_past(at, past, squares);
        if text.len() <= past {
            return Err(Refusal::NoXml(past));
        }
        let b = text[past];
        if b == b'<' {
            return Ok(past);
        }
        at = character(text, past, squares)?;
        squares = squares_after(b, squares);
    }
    Err(Refusal::NoXml(at))
}
