// The absolute paths of a text, read to its end, with their items put into the slots of an output.
// A `place` is a byte of the text, a `slot` an item of the output.
// Recursion opens a bracket each time, so it goes one deeper than the limit on brackets.
// `newer` says that the text is read by version 2 of XPath; where there are no `names`, any word is a name.
#![tactic(auto)]

ghost use Rattle.std.specs.Prelude.{◌+◌, ◌*◌, ◌≤◌, ◌<◌, ◌≡◌, length};
ghost use Rattle.paper.specs.Limits.{bracket_limit};
ghost use Rattle.paper.specs.Query.{Axis, Test};
ghost use Rattle.paper.specs.Items.{axis_number, test_number, encode_expr, axis_bound, test_bound};
ghost use Rattle.paper.specs.Reading.{then, got, pass, read_tail, read_step, read_steps, read_operand, read_expr, read_path, read_within, read_text};
ghost use Rattle.token.specs.Taking.{mark_of};
ghost use Rattle.marks.specs.Marks.{tokens_at};
ghost use Rattle.heads.specs.Heads.{look_of};
ghost use Rattle.read_paths.specs.Parts.{deep_if, step_items, Reads, Ready, path_items, Finishes, Stops, ReadsAll};

use ahead::{Joint, Lead, Opens, joined, opening, path_lead, word_ahead};
use heads::{Head, step_head};
use marks::mark;
use names::Listed;
use paper::Refusal;
use token::{Cursor, Mark, Taken, Token};

// A part of a query that was read: the cursor past it, and the slot past its items.
#[derive(Clone, Copy)]
pub struct Part {
    pub next: Cursor,
    pub end: usize,
}

// PATH, STEP AND EXPRESSION.

// An expression: operands joined by `and` and `or`, each run's operators put before its operands where it ends.
#[cycle(bracketed_expression_operand_predicates_step_steps)]
fn expression(
    text: &[u8],
    names: Option<&Listed>,
    cursor: Cursor,
    depth: usize,
    out: &mut [u32],
    slot: usize,
    newer: bool,
) -> Result<Part, Refusal>
    requires ready { Ready text.now cursor.at depth }
    requires slot_bound { slot ≤ 3 * cursor.at }
    ensures { Reads text.now out.old out.new cursor.at slot (3 * cursor.at) slot (read_expr newer (look_of names.entry) (read_within newer (look_of names.entry) depth) (tokens_at text.now cursor.at)) encode_expr result }
{
    let mut here = cursor;
    let mut filled = slot;
    let mut begun = slot;
    let mut ands: usize = 0;
    let mut ors: usize = 0;
    loop {
        let one = operand(text, names, here, depth, out, filled, newer)?;
        match word_ahead(text, one.next, b"and") {
            Ok(and) => {
                here = and.next;
                filled = one.end;
                ands += 1;
            }
            Err(_) => {
                slots::group(out, begun, one.end, ands, item::AND);
                let closed = one.end + ands;
                let Ok(or) = word_ahead(text, one.next, b"or") else {
                    slots::group(out, slot, closed, ors, item::OR);
                    return Ok(Part {
                        next: one.next,
                        end: closed + ors,
                    });
                };
                here = or.next;
                filled = closed;
                begun = closed;
                ands = 0;
                ors += 1;
            }
        }
    }
}

// An operand of `and`: `not(..)`, round brackets, or a path that starts with a step.
#[cycle(bracketed_expression_operand_predicates_step_steps)]
fn operand(
    text: &[u8],
    names: Option<&Listed>,
    cursor: Cursor,
    depth: usize,
    out: &mut [u32],
    slot: usize,
    newer: bool,
) -> Result<Part, Refusal>
    requires ready { Ready text.now cursor.at depth }
    requires slot_bound { slot ≤ 3 * cursor.at }
    ensures { Reads text.now out.old out.new cursor.at slot (3 * cursor.at) slot (read_operand newer (look_of names.entry) (read_within newer (look_of names.entry) depth) (tokens_at text.now cursor.at)) encode_expr result }
{
    match opening(text, cursor) {
        Opens::Not(round) => {
            let inner = bracketed(
                text,
                names,
                round.next,
                depth,
                out,
                slot + 1,
                round.place,
                Mark::CloseRound,
                newer,
            )?;
            slots::put(out, slot, item::NOT);
            Ok(inner)
        }
        Opens::Round(round) => {
            bracketed(
                text,
                names,
                round.next,
                depth,
                out,
                slot,
                round.place,
                Mark::CloseRound,
                newer,
            )
        }
        Opens::Path => steps(text, names, cursor, depth, out, slot, false, newer),
    }
}

// The expression in a bracket that stands at `bracket`, and what closes it.
#[cycle(bracketed_expression_operand_predicates_step_steps)]
fn bracketed(
    text: &[u8],
    names: Option<&Listed>,
    cursor: Cursor,
    depth: usize,
    out: &mut [u32],
    slot: usize,
    bracket: usize,
    closer: Mark,
    newer: bool,
) -> Result<Part, Refusal>
    requires ready { Ready text.now cursor.at depth }
    requires slot_bound { slot ≤ 3 * cursor.at }
    ensures { Reads text.now out.old out.new cursor.at slot (3 * cursor.at) slot (then (read_within newer (look_of names.entry) depth bracket (tokens_at text.now cursor.at)) (pass (mark_of closer))) encode_expr result }
{
    if depth == 0 {
        return Err(Refusal::TooDeep(bracket));
    }
    let inner = expression(text, names, cursor, depth - 1, out, slot, newer)?;
    let close = mark(text, inner.next, closer).map_err(Refusal::NoQuery)?;
    Ok(Part {
        next: close.next,
        end: inner.end,
    })
}

// A path's item and its steps: one step, and after each `/` or `//` another; `deep` where `//` stands before the first.
#[cycle(bracketed_expression_operand_predicates_step_steps)]
fn steps(
    text: &[u8],
    names: Option<&Listed>,
    cursor: Cursor,
    depth: usize,
    out: &mut [u32],
    slot: usize,
    deep: bool,
    newer: bool,
) -> Result<Part, Refusal>
    requires ready { Ready text.now cursor.at depth }
    requires slot_bound { slot ≤ 3 * cursor.at }
    ensures { Reads text.now out.old out.new cursor.at slot (3 * cursor.at) slot (then (read_steps newer (look_of names.entry) (read_within newer (look_of names.entry) depth) (length (tokens_at text.now cursor.at)) (tokens_at text.now cursor.at)) (λ s. got (deep_if deep s))) path_items result }
{
    let mut here = cursor;
    let mut filled = slot + 1;
    let mut lead = deep;
    let mut taken: usize = 0;
    loop {
        let from = slots::put_deep(out, filled, lead);
        let one = step(text, names, here, depth, out, from, newer)?;
        taken += from - filled + 1;
        filled = one.end;
        let Ok(joint) = joined(text, one.next) else {
            slots::put(out, slot, slots::item_of_path(taken));
            return Ok(one);
        };
        here = joint.next;
        lead = joint.deep;
    }
}

// One step: its head, and predicates where they may stand.
#[cycle(bracketed_expression_operand_predicates_step_steps)]
fn step(
    text: &[u8],
    names: Option<&Listed>,
    cursor: Cursor,
    depth: usize,
    out: &mut [u32],
    slot: usize,
    newer: bool,
) -> Result<Part, Refusal>
    requires ready { Ready text.now cursor.at depth }
    requires slot_bound { slot ≤ 3 * cursor.at + 2 }
    ensures { Reads text.now out.old out.new cursor.at slot (3 * cursor.at + 2) slot (read_step newer (look_of names.entry) (read_within newer (look_of names.entry) depth) (tokens_at text.now cursor.at)) step_items result }
{
    let head = step_head(text, names, cursor, newer)?;
    match head {
        Head::Plain { axis, next } => {
            slots::put(out, slot, slots::item_of_step(axis, item::ANY_NODE, 0));
            Ok(Part {
                next,
                end: slot + 1,
            })
        }
        Head::Tested { axis, test, next } => {
            predicates(text, names, next, depth, out, slot, axis, test, newer)
        }
    }
}

// A step's item and its predicates, each an expression in its bracket.
#[cycle(bracketed_expression_operand_predicates_step_steps)]
fn predicates(
    text: &[u8],
    names: Option<&Listed>,
    cursor: Cursor,
    depth: usize,
    out: &mut [u32],
    slot: usize,
    axis: u32,
    test: u32,
    newer: bool,
) -> Result<Part, Refusal>
    requires ready { Ready text.now cursor.at depth }
    requires slot_bound { (slot < 3 * cursor.at) × (axis < axis_bound) × (test < test_bound) }
    ensures { (a : Axis) (t : Test) → axis ≡ axis_number a → test ≡ test_number t → Reads text.now out.old out.new cursor.at slot (3 * cursor.at) (slot + 1) (read_tail newer (look_of names.entry) (read_within newer (look_of names.entry) depth) a t (tokens_at text.now cursor.at)) step_items result }
{
    let mut here = cursor;
    let mut filled = slot + 1;
    let mut taken: usize = 0;
    loop {
        let Ok(square) = mark(text, here, Mark::OpenSquare) else {
            break;
        };
        let one = bracketed(
            text,
            names,
            square.next,
            depth,
            out,
            filled,
            square.place,
            Mark::CloseSquare,
            newer,
        )?;
        here = one.next;
        filled = one.end;
        taken += 1;
    }
    slots::put(out, slot, slots::item_of_step(axis, test, taken));
    Ok(Part {
        next: here,
        end: filled,
    })
}

// THE QUERY.

// An absolute path.
fn path(
    text: &[u8],
    names: Option<&Listed>,
    cursor: Cursor,
    out: &mut [u32],
    slot: usize,
    newer: bool,
) -> Result<Part, Refusal>
    requires ready { Ready text.now cursor.at bracket_limit }
    requires slot_bound { slot ≤ 3 * cursor.at }
    ensures { Reads text.now out.old out.new cursor.at slot (3 * cursor.at) slot (read_path newer (look_of names.entry) (read_within newer (look_of names.entry) bracket_limit) (tokens_at text.now cursor.at)) path_items result }
{
    let lead = path_lead(text, cursor).map_err(Refusal::NoQuery)?;
    match lead {
        Lead::Alone(next) => {
            slots::put(out, slot, item::pack_path(0));
            Ok(Part {
                next,
                end: slot + 1,
            })
        }
        Lead::Before(Joint { next, deep }) => {
            steps(
                text,
                names,
                next,
                paper::BRACKET_LIMIT,
                out,
                slot,
                deep,
                newer,
            )
        }
    }
}

// The end of the text must come next.
fn finished(text: &[u8], cursor: Cursor, end: usize) -> Result<Part, Refusal>
    requires { cursor.at ≤ length text.now }
    ensures finishes { Finishes text.now cursor.at end result }
    ensures stops { Stops text.now result }
{
    let Taken { place, token, next } = cursor.take(text);
    if token == Token::Finish {
        Ok(Part { next, end })
    } else {
        Err(Refusal::NoQuery(place))
    }
}

// Absolute paths, joined, to the end of the text.
pub fn paths(
    text: &[u8],
    names: Option<&Listed>,
    out: &mut [u32],
    newer: bool,
) -> Result<Part, Refusal>
    requires { Ready text.now 0 bracket_limit }
    ensures reads_all { ReadsAll out.old out.new (read_text newer (look_of names.entry) text.now) result }
    ensures stops { Stops text.now result }
{
    let mut here = Cursor { at: 0 };
    let mut filled: usize = 0;
    loop {
        let one = path(text, names, here, out, filled, newer)?;
        let Ok(bar) = ahead::joins_ahead(text, one.next, newer) else {
            return finished(text, one.next, one.end);
        };
        here = bar.next;
        filled = one.end;
    }
}
