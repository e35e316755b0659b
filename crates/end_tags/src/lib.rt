// End tags in XML text: the name of the element that is open must come again, then white space and the `>`.
#![tactic(auto)]

ghost use Rattle.std.specs.Prelude.{◌+◌, ◌≤◌, length};
ghost use Rattle.xml_bytes.specs.Blocks.{block, AllFit};
ghost use Rattle.end_tags.specs.Renaming.{repeated_from, Named, Renames, Ends};

use good_names::name_part;
use paper::Refusal;
use token::skip;
use xml_bytes::{BLOCK, Reach, byte, sooner};

// How many bytes of a block go on with a name at `letter` and stand at `place` too, up to the first that does not. No branch, so that they are looked at together.
fn same_block(text: &[u8], place: usize, letter: usize) -> usize
    requires { (place + block ≤ length text.now) × (letter + block ≤ length text.now) }
    ensures { (result ≤ block) × AllFit (repeated_from text.now place letter) result }
{
    let mut stop = BLOCK;
    for i in 0..BLOCK {
        let b = text[letter + usize::from(i)];
        stop = sooner(stop, i, name_part(b) & (b == text[place + usize::from(i)]));
    }
    usize::from(stop)
}

// How many letters of the name at `letter` stand at `place` too, in a block if both places have one and the name has three letters or more.
fn same_letters(text: &[u8], place: usize, letter: usize) -> usize
    requires { (place ≤ length text.now) × (letter ≤ length text.now) }
    ensures { (place + result ≤ length text.now) × AllFit (repeated_from text.now place letter) result }
{
    if text.len() < place + usize::from(BLOCK) {
        return 0;
    }
    if text.len() < letter + usize::from(BLOCK) {
        return 0;
    }
    if !name_part(text[letter + 2]) {
        return 0;
    }
    same_block(text, place, letter)
}

// The name of the element that begins at `inner` must come again.
fn same_name(text: &[u8], at: usize, inner: usize) -> Reach
    requires { (at ≤ length text.now) × Named text.now inner }
    ensures { Renames text.now at inner result }
{
    let passed = same_letters(text, at, inner + 1);
    let mut place = at + passed;
    let mut letter = inner + 1 + passed;
    while name_part(text[letter]) {
        place = byte(text, place, text[letter])?;
        letter += 1;
    }
    Ok(place)
}

// An end tag, past the `</`.
pub fn end_tag(text: &[u8], at: usize, inner: usize) -> Reach
    requires { (at ≤ length text.now) × Named text.now inner }
    ensures { Ends text.now at inner result }
{
    let name_end = same_name(text, at, inner)?;
    let place = skip(text, name_end);
    byte(text, place, b'>')
}
