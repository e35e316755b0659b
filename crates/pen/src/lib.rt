// The pieces that a text is put together from: bytes, signs and words.
// A piece is put into the lent bytes from a place on as far as these go, and the place after it is answered: what does not fit is only counted.
#![tactic(auto)]

ghost use Rattle.std.specs.Prelude.{[], ◌∷◌, ◌+◌, ◌^◌, ◌<◌, length};
ghost use Rattle.paper.specs.Tools.{ascii};
ghost use Rattle.pen.specs.Putting.{Puts, between};

// Puts one byte.
pub fn put_byte(out: &mut [u8], pen: usize, b: u8) -> usize
    requires { pen < 2 ^ 40 }
    ensures { Puts (b ∷ []) pen out.old out.new result }
{
    if pen < out.len() {
        out[pen] = b;
    }
    pen + 1
}

// Puts bytes one after the other.
pub fn put(out: &mut [u8], pen: usize, bytes: &[u8]) -> usize
    requires { pen + length bytes.now < 2 ^ 40 }
    ensures { Puts bytes.now pen out.old out.new result }
{
    let mut at = pen;
    for b in bytes {
        at = put_byte(out, at, *b);
    }
    at
}

// Puts a sign if something is left to print after it.
fn put_between(out: &mut [u8], pen: usize, sign: &[u8], left: usize) -> usize
    requires { pen + length sign.now < 2 ^ 40 }
    ensures { Puts (between sign.now left) pen out.old out.new result }
{
    if 0 < left { put(out, pen, sign) } else { pen }
}

// Puts `/` if so many steps are left after it.
pub fn put_slash(out: &mut [u8], pen: usize, left: usize) -> usize
    requires { pen < 2 ^ 39 }
    ensures { Puts (between (ascii "/") left) pen out.old out.new result }
{
    put_between(out, pen, b"/", left)
}

// Puts `|` if so many items are left after it.
pub fn put_bar(out: &mut [u8], pen: usize, left: usize) -> usize
    requires { pen < 2 ^ 39 }
    ensures { Puts (between (ascii "|") left) pen out.old out.new result }
{
    put_between(out, pen, b"|", left)
}

// Puts `(`.
pub fn put_open(out: &mut [u8], pen: usize) -> usize
    requires { pen < 2 ^ 39 }
    ensures { Puts (ascii "(") pen out.old out.new result }
{
    put(out, pen, b"(")
}

// Puts ` or `.
pub fn put_or(out: &mut [u8], pen: usize) -> usize
    requires { pen < 2 ^ 39 }
    ensures { Puts (ascii " or ") pen out.old out.new result }
{
    put(out, pen, b" or ")
}

// Puts ` and `.
pub fn put_and(out: &mut [u8], pen: usize) -> usize
    requires { pen < 2 ^ 39 }
    ensures { Puts (ascii " and ") pen out.old out.new result }
{
    put(out, pen, b" and ")
}

// Puts `not(`.
pub fn put_not(out: &mut [u8], pen: usize) -> usize
    requires { pen < 2 ^ 39 }
    ensures { Puts (ascii "not(") pen out.old out.new result }
{
    put(out, pen, b"not(")
}
