// The kept part of a text as XML, put into the lent bytes from a place on as far as these go: what does not fit is only counted.
#![tactic(auto)]

ghost use Rattle.std.specs.Prelude.{◌^◌, ◌<◌};
ghost use Rattle.paper.specs.WriteXml.{kept_xml};
ghost use Rattle.pen.specs.Putting.{Puts};

use put_node::{Walk, put_node};
use put_tags::Marked;

// Puts the kept part of a text: each marked node in turn, and in the end the end tags of all that is open.
pub fn put_kept(kept: &Marked, out: &mut [u8], pen: usize) -> usize
    requires { pen < 2 ^ 32 }
    ensures { Puts (kept_xml kept.now.text kept.now.marks) pen out.old out.new result }
{
    let mut at = pen;
    let mut squares = 0;
    let mut top = 0;
    for i in 1..kept.nodes() {
        let mark = kept.mark(i);
        if mark == 1 {
            let walk = Walk { at, squares, top };
            let next = put_node(kept.given(), out, walk, i);
            at = next.at;
            squares = next.squares;
            top = next.top;
        }
    }
    kept.close(out, at, top, 0)
}
