// A node of the kept part put into the lent bytes from a place on as far as these go: the end tags up to its parent, then its own.
#![tactic(auto)]

ghost use Rattle.std.specs.Prelude.{◌≡◌, List, ℕ, ◌^◌, ◌≤◌, ◌<◌, length, get_or};
ghost use Rattle.put_tags.specs.Tags.{Open};
ghost use Rattle.put_node.specs.Placing.{past_tags, PutsPiece, inner_by, PutsNode, Placeable};

use put_tags::{Given, Line, start_at};
use put_text::{Point, put_text};

// How far a walk over the nodes has come: where the pen stands, and the innermost element that is open.
#[derive(Clone, Copy)]
pub struct Walk {
    pub at: usize,
    pub squares: u8,
    pub top: usize,
}

// Puts what a node of this line has of its own: a text its bytes behind so many `]`, an element its start tag.
fn put_piece(text: &[u8], line: Line, out: &mut [u8], pen: usize, squares: u8) -> Point
    requires { (line.begin < length text.now) × (line.begin ≤ line.end) × (line.end ≤ length text.now) × (length text.now < 2 ^ 36) × (pen < 2 ^ 38) }
    ensures { PutsPiece text.now line.kind line.begin line.end squares pen out.old out.new result.at result.squares }
{
    if line.kind != 1 {
        let at = start_at(text, line.begin, out, pen);
        return Point { at: at, squares: 0 };
    }
    put_text(out, pen, squares, &text[line.begin..line.end])
}

// The count of `]` once the elements from one up to another are closed: a tag ends it.
fn past_tags(squares: u8, top: usize, up: usize) -> u8
    ensures { result ≡ past_tags squares top up }
{
    if top == up { squares } else { 0 }
}

// The innermost open element once a node was put: the node itself, or a text's parent.
fn inner_by(kind: u16, up: usize, node: usize) -> usize
    ensures { result ≡ inner_by kind up node }
{
    if kind != 1 { node } else { up }
}

// Puts a node: the end tags up to its parent, then its own.
pub fn put_node(kept: &Given, out: &mut [u8], walk: Walk, node: usize) -> Walk
    requires { Placeable kept.now walk.at walk.top node }
    ensures { (bytes : List ℕ) → Open kept.now.text kept.now.parents kept.now.begins walk.top (get_or kept.now.parents node 0) bytes → PutsNode kept.now bytes walk.at walk.squares walk.top node out.old out.new result.at result.squares result.top }
{
    let line = kept.line(node);
    let closed = kept.close(out, walk.at, walk.top, line.up);
    let squares = past_tags(walk.squares, walk.top, line.up);
    let point = put_piece(kept.text(), line, out, closed, squares);
    Walk {
        at: point.at,
        squares: point.squares,
        top: inner_by(line.kind, line.up, node),
    }
}
