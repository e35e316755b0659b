// What stands before the one element of an XML text: the declaration and white space.
#![tactic(auto)]

ghost use Rattle.std.specs.Prelude.{◌+◌, ◌≤◌, ◌<◌, ◌≡◌, true, false, [], ◌∷◌, length, drop, eqb};
ghost use Rattle.std.proofs.Math.Option.{none, some};
ghost use Rattle.paper.specs.Tools.{ascii, begins, run_of};
ghost use Rattle.paper.specs.Tokens.{white};
ghost use Rattle.paper.specs.Xml.{Pattern, one, many, is_done, quote_of, quoted, digit, any_case, other_encoding, declares, declaration_end, after_encoding, after_version};
ghost use Rattle.paper.specs.Xml as xml;
ghost use Rattle.prolog.specs.Heading.{Heads, valued, Gives, numbered, version_value, utf8, encoding_value, yes_no, standalone_value, Lands, Leads};
ghost use Rattle.xml_bytes.specs.Promised.{calm, all_calm, Reads};

use paper::Refusal;
use token::{run_end, skip, white_space};
use xml_bytes::{Reach, byte, markup, refuse, say};

// This letter must come, small or capital.
fn any_case(text: &[u8], at: usize, small: u8) -> Reach
    requires { (at ≤ length text.now) × (97 ≤ small) × (small ≤ 122) }
    ensures { Reads text.now at (any_case small ∷ []) result }
{
    if text.len() <= at {
        return Err(Refusal::NoXml(at));
    }
    let b = text[at];
    if (b == small) | (b == small - 32) {
        Ok(at + 1)
    } else {
        Err(refuse(text, at))
    }
}

// `=` with white space on both sides.
fn equals(text: &[u8], at: usize) -> Reach
    requires { at ≤ length text.now }
    ensures { (p : Pattern) → is_done p ≡ false → quote_of p ≡ none → Heads text.now at (many white (one (eqb 61) (many white p))) p result }
{
    let next = byte(text, skip(text, at), b'=')?;
    Ok(skip(text, next))
}

// The quote that opens a value.
fn quote(text: &[u8], at: usize) -> Reach
    requires { at ≤ length text.now }
    ensures { Gives text.now at quoted result }
{
    if text.len() <= at {
        return Err(Refusal::NoXml(at));
    }
    let b = text[at];
    if (b == b'"') | (b == b'\'') {
        Ok(at + 1)
    } else {
        Err(refuse(text, at))
    }
}

// A name of the declaration, `=`, and the quote that opens its value.
fn given(text: &[u8], at: usize, name: &[u8]) -> Reach
    requires { (at ≤ length text.now) × (all_calm name.now ≡ true) }
    ensures { Gives text.now at (λ value. xml.say name.now (valued value)) result }
{
    let name_end = say(text, at, name)?;
    let place = equals(text, name_end)?;
    quote(text, place)
}

// Where the digits end.
fn digits_end(text: &[u8], from: usize) -> usize
    requires { from ≤ length text.now }
    ensures { result ≡ from + run_of digit (drop from text.now) }
{
    let digits = text[from..]
        .iter()
        .position(|b| !b.is_ascii_digit())
        .unwrap_or(text.len() - from);
    from + digits
}

// Digits, at least one, and the quote.
fn number(text: &[u8], at: usize, closing: u8) -> Reach
    requires { (at ≤ length text.now) × (calm closing ≡ true) }
    ensures { (p : Pattern) → Heads text.now at (numbered closing p) p result }
{
    let end = digits_end(text, at);
    if end <= at {
        return Err(refuse(text, at));
    }
    byte(text, end, closing)
}

// Does this byte stand here?
fn stands(text: &[u8], at: usize, wanted: u8) -> bool
    ensures { result ≡ begins wanted (drop at text.now) }
{
    at < text.len() && wanted == text[at]
}

// The end of the declaration.
fn declaration_end(text: &[u8], at: usize) -> Reach
    requires { at ≤ length text.now }
    ensures { Heads text.now at declaration_end xml.done result }
{
    say(text, skip(text, at), b"?>")
}

// `yes` or `no`.
fn yes_no(text: &[u8], at: usize) -> Reach
    requires { at ≤ length text.now }
    ensures { (p : Pattern) → Heads text.now at (yes_no p) p result }
{
    if stands(text, at, b'y') {
        say(text, at, b"yes")
    } else {
        say(text, at, b"no")
    }
}

// The declaration from `standalone` on.
fn standalone(text: &[u8], at: usize) -> Reach
    requires { at ≤ length text.now }
    ensures { Heads text.now at (xml.say (ascii "standalone") (valued standalone_value)) xml.done result }
{
    let from = given(text, at, b"standalone")?;
    let end = yes_no(text, from)?;
    let next = byte(text, end, text[from - 1])?;
    declaration_end(text, next)
}

// The declaration past the encoding.
fn after_encoding(text: &[u8], at: usize) -> Reach
    requires { at ≤ length text.now }
    ensures { Heads text.now at after_encoding xml.done result }
{
    let place = skip(text, at);
    if (at < place) & stands(text, place, b's') {
        standalone(text, place)
    } else {
        declaration_end(text, at)
    }
}

// Does the name of another encoding stand here, in closed quotes?
fn other_encoding(text: &[u8], at: usize, closing: u8) -> bool
    requires { at ≤ length text.now }
    ensures { result ≡ other_encoding (some closing) (drop at text.now) }
{
    if text.len() <= at {
        return false;
    }
    if !text[at].is_ascii_alphabetic() {
        return false;
    }
    let end = run_end(text, at);
    if !stands(text, end, closing) {
        return false;
    }
    !text[at..end].eq_ignore_ascii_case(b"utf-8")
}

// `utf-8` in any case of letters, and the quote.
fn utf_8(text: &[u8], at: usize, closing: u8) -> Reach
    requires { (at ≤ length text.now) × (calm closing ≡ true) }
    ensures { Heads text.now at (utf8 closing) after_encoding result }
{
    let past_u = any_case(text, at, b'u')?;
    let past_t = any_case(text, past_u, b't')?;
    let past_f = any_case(text, past_t, b'f')?;
    let end = say(text, past_f, b"-8")?;
    byte(text, end, closing)
}

// The value of the encoding, past its quote, and what follows.
fn encoding_value(text: &[u8], at: usize, closing: u8) -> Reach
    requires { (at ≤ length text.now) × (calm closing ≡ true) }
    ensures { Heads text.now at (encoding_value closing) xml.done result }
{
    if other_encoding(text, at, closing) {
        return Err(Refusal::LeftOut(at));
    }
    let next = utf_8(text, at, closing)?;
    after_encoding(text, next)
}

// The declaration from `encoding` on.
fn encoding(text: &[u8], at: usize) -> Reach
    requires { at ≤ length text.now }
    ensures { Heads text.now at (xml.say (ascii "encoding") (valued encoding_value)) xml.done result }
{
    let from = given(text, at, b"encoding")?;
    encoding_value(text, from, text[from - 1])
}

// The declaration past the version.
fn after_version(text: &[u8], at: usize) -> Reach
    requires { at ≤ length text.now }
    ensures { Heads text.now at after_version xml.done result }
{
    let place = skip(text, at);
    if (at < place) & stands(text, place, b'e') {
        encoding(text, place)
    } else {
        after_encoding(text, at)
    }
}

// The version, past its quote.
fn version_value(text: &[u8], at: usize, closing: u8) -> Reach
    requires { (at ≤ length text.now) × (calm closing ≡ true) }
    ensures { Heads text.now at (version_value closing) xml.done result }
{
    let from = say(text, at, b"1.")?;
    let next = number(text, from, closing)?;
    after_version(text, next)
}

// The declaration from `version` on.
fn version(text: &[u8], at: usize) -> Reach
    requires { at ≤ length text.now }
    ensures { Heads text.now at (xml.say (ascii "version") (valued version_value)) xml.done result }
{
    let from = given(text, at, b"version")?;
    version_value(text, from, text[from - 1])
}

// Does the text begin with a declaration?
fn declared(text: &[u8]) -> bool
    ensures { result ≡ declares text.now }
{
    text.starts_with(b"<?xml") && 5 < text.len() && white_space(text[5])
}

// The place of the element past white space.
fn land(text: &[u8], at: usize) -> Reach
    requires { at ≤ length text.now }
    ensures { Lands text.now at result }
{
    let place = skip(text, at);
    if !stands(text, place, b'<') {
        return Err(refuse(text, place));
    }
    if markup(text, place) {
        Err(Refusal::LeftOut(place))
    } else {
        Ok(place)
    }
}

// The place of the `<` of the one element, past the declaration and white space.
pub fn lead(text: &[u8]) -> Reach
    ensures { Leads text.now result }
{
    if declared(text) {
        let end = version(text, skip(text, 6))?;
        return land(text, end);
    }
    if text.starts_with(&[239, 187, 191]) {
        return Err(Refusal::LeftOut(0));
    }
    land(text, 0)
}
