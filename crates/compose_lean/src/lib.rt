// The lean composition of two queries in memory: the composition with fewer guards. Which steps are guarded is marked in a copy of the outer items, and all else is done by `compose_by`.
#![tactic(auto)]

ghost use Rattle.std.specs.Prelude.{◌≡◌, ◌≤◌, length};
ghost use Rattle.paper.specs.Limits.{item_limit};
ghost use Rattle.paper.specs.Items.{decode};
ghost use Rattle.paper.specs.Told.{told};
ghost use Rattle.paper.specs.Lean.{compose_lean_answer, compose_lean_out};
ghost use Rattle.compose.specs.Pieces.{Nested};
ghost use Rattle.compose_lean.specs.Depths.{depth_got};

use paper::{Answer, Refusal};

// The greatest number of brackets open at a guarded step.
fn guards_of(says: &[u32]) -> usize
    ensures { result ≡ depth_got (decode says.now) }
{
    let Some(shape) = shape::measure(says) else {
        return 0;
    };
    shape.guards
}

// Writes the lean composition of two queries whose brackets are counted, and answers the number of its items.
fn compose_marked(
    outer: &[u32],
    inner: &[u32],
    out: &mut [u32],
    outer_nesting: usize,
    inner_nesting: usize,
) -> Answer
    requires { (Nested outer.now outer_nesting) × (length outer.now ≤ item_limit) × (Nested inner.now inner_nesting) × (length inner.now ≤ item_limit) }
    ensures { (told result ≡ compose_lean_answer outer.now inner.now (length out.old))
        × (out.new ≡ compose_lean_out outer.now inner.now out.old) }
{
    let mut copy = [0u32; paper::ITEM_LIMIT];
    lean_marks::mark_query(outer, &mut copy);
    let says = &copy[..outer.len()];
    let guards = guards_of(says);
    compose::compose_by(
        outer,
        inner,
        out,
        outer_nesting,
        guards,
        inner_nesting,
        says,
    )
}

// Writes the lean composition, and answers the number of its items.
pub fn compose_lean(outer: &[u32], inner: &[u32], out: &mut [u32]) -> Answer
    ensures { (told result ≡ compose_lean_answer outer.now inner.now (length out.old))
        × (out.new ≡ compose_lean_out outer.now inner.now out.old) }
{
    if paper::ITEM_LIMIT < outer.len() {
        return Err(Refusal::TooLong);
    }
    if paper::ITEM_LIMIT < inner.len() {
        return Err(Refusal::TooLong);
    }
    let outer_shape = shape::measure(outer).ok_or(Refusal::BadQuery(0))?;
    let inner_shape = shape::measure(inner).ok_or(Refusal::BadQuery(1))?;
    compose_marked(outer, inner, out, outer_shape.nesting, inner_shape.nesting)
}
