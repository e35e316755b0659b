// The bytes of a text put into the lent bytes from a place on as far as these go, escaped behind the `]` that are counted.
#![tactic(auto)]

ghost use Rattle.std.specs.Prelude.{◌≡◌, [], ◌∷◌, ◌+◌, ◌*◌, ◌^◌, ◌<◌, length};
ghost use Rattle.paper.specs.WriteXml.{squares_by, escaped};
ghost use Rattle.pen.specs.Putting.{Puts};
ghost use Rattle.put_text.specs.Escaping.{PutsText};

// Where the pen stands: the place that it has reached, and how many `]` end what is written, 2 at most.
#[derive(Clone, Copy)]
pub struct Point {
    pub at: usize,
    pub squares: u8,
}

// The count of `]` after a byte more.
fn squares_by(squares: u8, b: u8) -> u8
    ensures { result ≡ squares_by squares b }
{
    if b != b']' {
        return 0;
    }
    if squares == 0 { 1 } else { 2 }
}

// Puts a byte of text: a `>` that would end `]]>` as `&gt;`.
fn put_char(out: &mut [u8], pen: usize, squares: u8, b: u8) -> usize
    requires { pen < 2 ^ 39 }
    ensures { Puts (escaped squares (b ∷ [])) pen out.old out.new result }
{
    if b != b'>' {
        return pen::put_byte(out, pen, b);
    }
    if squares != 2 {
        return pen::put_byte(out, pen, b);
    }
    pen::put(out, pen, b"&gt;")
}

// Puts the bytes of a text behind so many `]`.
pub fn put_text(out: &mut [u8], pen: usize, squares: u8, bytes: &[u8]) -> Point
    requires { pen + 4 * length bytes.now < 2 ^ 39 }
    ensures { PutsText bytes.now squares pen out.old out.new result.at result.squares }
{
    let mut at = pen;
    let mut k = squares;
    for &b in bytes {
        at = put_char(out, at, k, b);
        k = squares_by(k, b);
    }
    Point { at, squares: k }
}
