// The kept part of a text as XML, written with a pen: the lent bytes, and the place that it has reached.
#![tactic(auto)]

ghost use Rattle.std.specs.Prelude.{◌≡◌, ◌^◌, ◌<◌};
ghost use Rattle.paper.specs.WriteXml.{kept_xml};
ghost use Rattle.pen.specs.Putting.{Puts};

use put_kept::put_kept;
use put_tags::Marked;

// A pen: the lent bytes, and the place that it has reached.
#[derive(Drop)]
struct Pen<'a> {
    out: &'a mut [u8],
    at: usize,
}

// A pen at the first of the lent bytes.
fn new<'a>(out: &'a mut [u8]) -> Pen<'a>
    ensures { (result.out ≡ out.entry) × (result.at ≡ 0) }
{
    Pen { out: out, at: 0 }
}

// Puts the kept part of a text with a pen: the pen is taken apart.
fn keep<'k, 'c, 'a>(kept: &'k Marked<'c>, pen: Pen<'a>) -> usize
    requires { pen.at < 2 ^ 32 }
    ensures { Puts (kept_xml kept.now.text kept.now.marks) pen.entry.at pen.entry.out.now pen.exit.0.now result }
{
    let at = pen.at;
    put_kept(kept, &mut *pen.out, at)
}

// Puts the kept part of a text from the first of the lent bytes on, with a pen of them.
pub fn write_kept(kept: &Marked, out: &mut [u8]) -> usize
    ensures { Puts (kept_xml kept.now.text kept.now.marks) 0 out.old out.new result }
{
    let pen = new(out);
    keep(kept, pen)
}
