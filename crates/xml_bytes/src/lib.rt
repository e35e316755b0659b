// Bytes of XML text that must come, one after the other: the place past them, or why no wanted text goes on; and the first place of a block that does not fit.
#![tactic(auto)]

ghost use Rattle.std.specs.Prelude.{◌+◌, ◌≤◌, ◌<◌, ◌≡◌, [], ◌∷◌, length, drop, eqb};
ghost use Rattle.paper.specs.Xml.{left_out_anywhere};
ghost use Rattle.xml_bytes.specs.Blocks.{block, Sooner};
ghost use Rattle.xml_bytes.specs.Promised.{refusal_at, Reads, spelling};

use paper::Refusal;

// What reading a part comes to: the place past it; or where no wanted text goes on, or where a thing that is left out opens.
pub type Reach = Result<usize, Refusal>;

// Is this `<!`, `<?` or `&#`?
fn opens(a: u8, b: u8) -> bool
    ensures { result ≡ left_out_anywhere (a ∷ b ∷ []) }
{
    (a == b'<') & (b == b'!') | (a == b'&') & (b == b'#') | (a == b'<') & (b == b'?')
}

// Does a thing that is left out everywhere open here?
pub fn markup(text: &[u8], at: usize) -> bool
    requires { at ≤ length text.now }
    ensures { result ≡ left_out_anywhere (drop at text.now) }
{
    match &text[at..] {
        [a, b, ..] => opens(*a, *b),
        _ => false,
    }
}

// Why no wanted text goes on.
pub fn refuse(text: &[u8], at: usize) -> Refusal
    requires { at ≤ length text.now }
    ensures { result ≡ refusal_at (left_out_anywhere (drop at text.now)) at }
{
    if markup(text, at) {
        Refusal::LeftOut(at)
    } else {
        Refusal::NoXml(at)
    }
}

// This byte must come.
pub fn byte(text: &[u8], at: usize, wanted: u8) -> Reach
    requires { at ≤ length text.now }
    ensures { Reads text.now at (eqb wanted ∷ []) result }
{
    match text.get(at) {
        Some(&b) if b == wanted => Ok(at + 1),
        _ => Err(refuse(text, at)),
    }
}

// The word must come.
pub fn say(text: &[u8], at: usize, word: &[u8]) -> Reach
    requires { at ≤ length text.now }
    ensures { Reads text.now at (spelling word.now) result }
{
    let mut next = at;
    for &wanted in word {
        next = byte(text, next, wanted)?;
    }
    Ok(next)
}

// So many bytes are looked at together.
pub const BLOCK: u8 = 16;

// The first place of a block that does not fit, with one place more looked at; one that fits counts as past the block, by a sum and no branch.
pub fn sooner(stop: u8, i: u8, fit: bool) -> u8
    requires { i < block }
    ensures { Sooner stop i fit result }
{
    let here = u8::from(fit) * BLOCK + i;
    if here < stop { here } else { stop }
}
