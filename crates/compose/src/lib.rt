// Composition of two queries in memory: everything lent is examined and the items are counted before one is written.
// Which steps are guarded is said by the axes of other items beside them, `says`. For `compose` they are the outer items themselves.
#![tactic(auto)]

ghost use Rattle.std.specs.Prelude.{◌≡◌, ◌≤◌, length};
ghost use Rattle.paper.specs.Limits.{item_limit};
ghost use Rattle.paper.specs.Answers.{composing_answer, composing_out, compose_answer, compose_out};
ghost use Rattle.paper.specs.Lean.{composed_by};
ghost use Rattle.paper.specs.Told.{told};
ghost use Rattle.composed.specs.Pieces.{Says};
ghost use Rattle.compose.specs.Pieces.{Nests, Nested};

use paper::{Answer, Refusal};

// Writes the composition of two queries whose brackets are counted, the outer steps guarded where `says` has it, and answers the number of its items.
pub fn compose_by(
    outer: &[u32],
    inner: &[u32],
    out: &mut [u32],
    outer_nesting: usize,
    outer_guards: usize,
    inner_nesting: usize,
    says: &[u32],
) -> Answer
    requires { ((g : Says outer.now says.now) × Nests outer.now says.now outer_nesting outer_guards g) × (length outer.now ≤ item_limit)
        × (Nested inner.now inner_nesting) × (length inner.now ≤ item_limit) }
    ensures { (g : Says outer.now says.now) → Nests outer.now says.now outer_nesting outer_guards g
        → (told result ≡ composing_answer (composed_by g.decides) outer.now inner.now (length out.old))
        × (out.new ≡ composing_out (composed_by g.decides) outer.now inner.now out.old) }
{
    let guard_nesting = outer_guards + 2 + inner_nesting.max(2);
    let nesting = outer_nesting.max(guard_nesting);
    if paper::BRACKET_LIMIT < nesting {
        return Err(Refusal::TooNested(nesting));
    }
    let paths = reverse::count_paths(inner);
    let count = reverse::selected_size(inner, paths);
    let size = composed::composed_size(outer, count, says);
    if out.len() < size {
        return Err(Refusal::Short(size));
    }
    if paper::ITEM_LIMIT < size {
        return Err(Refusal::Short(size));
    }
    composed::put_composed(outer, inner, paths, out, size, count, says);
    Ok(size)
}

// Writes the composition, and answers the number of its items.
pub fn compose(outer: &[u32], inner: &[u32], out: &mut [u32]) -> Answer
    ensures { (told result ≡ compose_answer outer.now inner.now (length out.old))
        × (out.new ≡ compose_out outer.now inner.now out.old) }
{
    if paper::ITEM_LIMIT < outer.len() {
        return Err(Refusal::TooLong);
    }
    if paper::ITEM_LIMIT < inner.len() {
        return Err(Refusal::TooLong);
    }
    let outer_shape = shape::measure(outer).ok_or(Refusal::BadQuery(0))?;
    let inner_shape = shape::measure(inner).ok_or(Refusal::BadQuery(1))?;
    compose_by(
        outer,
        inner,
        out,
        outer_shape.nesting,
        outer_shape.guards,
        inner_shape.nesting,
        outer,
    )
}
