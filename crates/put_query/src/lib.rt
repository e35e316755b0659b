// The text of a query, in the long form or in the short one, put into the lent bytes by the same functions.
// They count its bytes, with no room, and write them, with room enough: what does not fit is only counted.
// Path, step and expression call each other; each round of calls opens a bracket, so there is at most one more than brackets may be open.
#![tactic(auto)]

ghost use Rattle.std.specs.Prelude.{◌≡◌, ◌+◌, ◌*◌, ◌^◌, ◌≤◌, ◌<◌, length, drop};
ghost use Rattle.paper.specs.Tools.{ascii};
ghost use Rattle.paper.specs.Names.{names_of};
ghost use Rattle.paper.specs.Items.{take_preds, take_steps, take_operand, take_expr, take_within, decode};
ghost use Rattle.paper.specs.Printing.{expr_pieces, relative_pieces, preds_pieces};
ghost use Rattle.paper.specs.Answers.{text_got};
ghost use Rattle.shape.specs.Walks.{operators};
ghost use Rattle.pen.specs.Putting.{Puts};
ghost use Rattle.put_query.specs.Writing.{operand_pieces, Named, NamedBy, Some, Prints, Query, item_room, sign_room};

use item::Item;
use names::{Listed, Names};

// What is printed: items, with the list that has their names, in the long form or in the short one.
#[derive(Clone, Copy)]
struct Source<'a> {
    items: &'a [u32],
    names: &'a Listed<'a>,
    brief: bool,
}

// How far printing has come: the next item, and the place of the next byte.
#[derive(Clone, Copy)]
struct Reached {
    item: usize,
    byte: usize,
}

// Puts `)` after what has been printed.
fn closed(out: &mut [u8], reached: Reached) -> Reached
    requires { reached.byte < 2 ^ 39 }
    ensures puts { Puts (ascii ")") reached.byte out.old out.new result.byte }
    ensures item_value { result.item ≡ reached.item }
{
    let byte = pen::put(out, reached.byte, b")");
    Reached { byte, ..reached }
}

// Prints an expression, terms of `or`, each of them operands of `and`; so many brackets may still be opened.
// Its bytes are counted from its first operand on, so that the operators before it pay for a bracket around it.
#[cycle(expression_operand_predicates_steps)]
fn expression(source: &Source, out: &mut [u8], at: usize, pen: usize, depth: usize) -> Reached
    requires names { NamedBy source.now.names.now source.now.items.now }
    requires at_in_bounds { (at ≤ length source.now.items.now) × (pen + item_room * length source.now.items.now ≤ 2 ^ 38 + item_room * (at + operators (drop at source.now.items.now))) }
    requires some { Some (take_expr (take_within depth) (drop at source.now.items.now)) }
    ensures { Prints (names_of source.now.names.now) source.now.items.now (at + operators (drop at source.now.items.now)) pen sign_room (take_expr (take_within depth) (drop at source.now.items.now)) (expr_pieces source.now.brief) out.old out.new result }
{
    let mut ors = shape::run_of(source.items, at, item::OR);
    let mut ands = shape::run_of(source.items, at + ors, item::AND);
    let mut place = at + ors + ands;
    let mut byte = pen;
    loop {
        let one = operand(source, out, place, byte, depth);
        place = one.item;
        if 0 < ands {
            byte = pen::put_and(out, one.byte);
            ands -= 1;
        } else {
            if ors == 0 {
                return one;
            }
            byte = pen::put_or(out, one.byte);
            ors -= 1;
            ands = shape::run_of(source.items, place, item::AND);
            place += ands;
        }
    }
}

// Prints an operand of `and`: a path, or what stands in a bracket of `not`, `and` or `or`.
#[cycle(expression_operand_predicates_steps)]
fn operand(source: &Source, out: &mut [u8], at: usize, pen: usize, depth: usize) -> Reached
    requires names { NamedBy source.now.names.now source.now.items.now }
    requires at_in_bounds { (at ≤ length source.now.items.now) × (pen + item_room * length source.now.items.now ≤ 2 ^ 38 + item_room * at) }
    requires some { Some (take_operand (take_within depth) (drop at source.now.items.now)) }
    ensures { Prints (names_of source.now.names.now) source.now.items.now at pen sign_room (take_operand (take_within depth) (drop at source.now.items.now)) (operand_pieces source.now.brief) out.old out.new result }
{
    let item = item::unpack(source.items[at]);
    if let Item::Path(number) = item {
        return steps(source, out, at + 1, pen, number, depth);
    }
    if let Item::Not = item {
        let opened = pen::put_not(out, pen);
        let denied = expression(source, out, at + 1, opened, depth - 1);
        return closed(out, denied);
    }
    let opened = pen::put_open(out, pen);
    let inner = expression(source, out, at, opened, depth - 1);
    closed(out, inner)
}

// Prints so many steps of a path, with `/` between them, or `//` for a step.
#[cycle(expression_operand_predicates_steps)]
fn steps(
    source: &Source,
    out: &mut [u8],
    at: usize,
    pen: usize,
    number: usize,
    depth: usize,
) -> Reached
    requires names { NamedBy source.now.names.now source.now.items.now }
    requires at_in_bounds { (at ≤ length source.now.items.now) × (pen + item_room * length source.now.items.now ≤ 2 ^ 38 + item_room * at) }
    requires some { Some (take_steps (take_within depth) number (drop at source.now.items.now)) }
    ensures { Prints (names_of source.now.names.now) source.now.items.now at pen 0 (take_steps (take_within depth) number (drop at source.now.items.now)) (relative_pieces source.now.brief) out.old out.new result }
{
    let mut place = at;
    let mut byte = pen;
    let mut owed = number;
    while 0 < owed {
        let item = item::unpack(source.items[place]);
        let Item::Step(step) = item else {
            return Reached { item: place, byte };
        };
        let headed = put_steps::put_listed_head(source.names, out, byte, step, source.brief);
        let more = predicates(source, out, place + 1, headed, step.count, depth);
        place = more.item;
        owed -= 1;
        let parted = pen::put_slash(out, more.byte, owed);
        let skipped = slashes::deep(source.items, place, owed, source.brief);
        byte = pen::put_slash(out, parted, skipped);
        place += skipped;
        owed -= skipped;
    }
    Reached { item: place, byte }
}

// Prints so many predicates, each an expression in its bracket.
#[cycle(expression_operand_predicates_steps)]
fn predicates(
    source: &Source,
    out: &mut [u8],
    at: usize,
    pen: usize,
    number: usize,
    depth: usize,
) -> Reached
    requires names { NamedBy source.now.names.now source.now.items.now }
    requires at_in_bounds { (at ≤ length source.now.items.now) × (pen + item_room * length source.now.items.now + sign_room ≤ 2 ^ 38 + item_room * at) }
    requires some { Some (take_preds (take_within depth) number (drop at source.now.items.now)) }
    ensures { Prints (names_of source.now.names.now) source.now.items.now at pen 0 (take_preds (take_within depth) number (drop at source.now.items.now)) (preds_pieces source.now.brief) out.old out.new result }
{
    let mut place = at;
    let mut byte = pen;
    for _ in 0..number {
        let opened = pen::put_byte(out, byte, b'[');
        let more = expression(source, out, place, opened, depth - 1);
        place = more.item;
        byte = pen::put_byte(out, more.byte, b']');
    }
    Reached { item: place, byte }
}

// Prints a query, and tells how many bytes its text has.
pub fn listed_paths(items: &[u32], names: &Listed, out: &mut [u8], brief: bool) -> usize
    requires names { NamedBy names.now items.now }
    requires query { Query items.now }
    ensures { Puts (text_got brief (names_of names.now) (decode items.now)) 0 out.old out.new result }
{
    let source = Source {
        items,
        names,
        brief,
    };
    let mut place = 0;
    let mut byte = 0;
    while place < items.len() {
        let item = item::unpack(items[place]);
        let Item::Path(number) = item else {
            return byte;
        };
        let opened = pen::put_byte(out, byte, b'/');
        let skipped = slashes::deep(items, place + 1, number, brief);
        let ready = pen::put_slash(out, opened, skipped);
        let more = steps(
            &source,
            out,
            place + 1 + skipped,
            ready,
            number - skipped,
            paper::BRACKET_LIMIT,
        );
        place = more.item;
        byte = pen::put_bar(out, more.byte, items.len() - place);
    }
    byte
}

// Prints a query with the names of a list that has no fault, and tells how many bytes its text has.
pub fn paths(items: &[u32], names: &Names, out: &mut [u8], brief: bool) -> usize
    requires names { Named (names_of names.now) items.now }
    requires query { Query items.now }
    ensures { Puts (text_got brief (names_of names.now) (decode items.now)) 0 out.old out.new result }
{
    listed_paths(items, names.listed(), out, brief)
}
