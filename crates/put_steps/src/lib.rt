// A step without its predicates as its text: axis and test.
#![tactic(auto)]

ghost use Rattle.std.specs.Prelude.{◌≡◌, true, ◌+◌, ◌^◌, ◌≤◌, ◌<◌, length};
ghost use Rattle.std.proofs.Math.Option.{none};
ghost use Rattle.paper.specs.Limits.{name_limit, list_limit};
ghost use Rattle.paper.specs.Query.{Axis, Test};
ghost use Rattle.paper.specs.Names.{names_of, names_fault};
ghost use Rattle.paper.specs.Items.{axis_number, test_number, good_test};
ghost use Rattle.paper.specs.Printing.{test_text, head_pieces, text_of};
ghost use Rattle.pen.specs.Putting.{Puts};
ghost use Rattle.put_steps.specs.Heads.{head_room, sound_room, Known};

use item::Step;
use names::{Listed, Names};

// Puts name v as its line of the list spells it.
pub fn put_listed_name(names: &Listed, out: &mut [u8], pen: usize, v: usize) -> usize
    requires v_lt_count { (v < length (names_of names.now)) × (length names.now ≤ list_limit) × (pen < 2 ^ 39) }
    ensures puts { Puts (test_text (names_of names.now) (Test.named v)) pen out.old out.new result }
    ensures upper_bound { result ≤ pen + list_limit }
    ensures sound_bound { names_fault names.now ≡ none → result ≤ pen + name_limit }
{
    pen::put(out, pen, names.spell(v))
}

// Puts a test: `node()`, `text()`, `*` or a name.
fn put_test(names: &Listed, out: &mut [u8], pen: usize, test: u32) -> usize
    requires known { Known (length (names_of names.now)) test × (length names.now ≤ list_limit) × (pen < 2 ^ 39) }
    ensures puts { (t : Test) → test ≡ test_number t → good_test t ≡ true → Puts (test_text (names_of names.now) t) pen out.old out.new result }
    ensures upper_bound { result ≤ pen + list_limit }
    ensures sound_bound { names_fault names.now ≡ none → result ≤ pen + name_limit }
{
    match test {
        item::ANY_NODE => pen::put(out, pen, b"node()"),
        item::TEXT_NODE => pen::put(out, pen, b"text()"),
        item::ANY_ELEMENT => pen::put(out, pen, b"*"),
        _ => put_listed_name(names, out, pen, (test - item::NAMED) as usize),
    }
}

// Puts a step without the predicates that it has: axis, `::` and test, and in the short form `.` or `..` for self or parent with `node()` and no predicate.
pub fn put_listed_head(names: &Listed, out: &mut [u8], pen: usize, step: Step, brief: bool) -> usize
    requires known { Known (length (names_of names.now)) step.test × (length names.now ≤ list_limit) × (pen < 2 ^ 38) }
    ensures puts { (a : Axis) (t : Test) → step.axis ≡ axis_number a → step.test ≡ test_number t → good_test t ≡ true → Puts (text_of (names_of names.now) (head_pieces brief a t step.count)) pen out.old out.new result }
    ensures upper_bound { result ≤ pen + head_room }
    ensures sound_bound { names_fault names.now ≡ none → result ≤ pen + sound_room }
{
    let dot = brief
        & ((step.axis == item::SELF) & (step.test == item::ANY_NODE) & (step.count == 0));
    if dot {
        return pen::put(out, pen, b".");
    }
    let dots = brief
        & ((step.axis == item::PARENT) & (step.test == item::ANY_NODE) & (step.count == 0));
    if dots {
        return pen::put(out, pen, b"..");
    }
    let ready = put_axes::put_along(out, pen, step.axis, brief);
    put_test(names, out, ready, step.test)
}

// Puts name v of a list that has no fault.
pub fn put_name(names: &Names, out: &mut [u8], pen: usize, v: usize) -> usize
    requires v_lt_count { (v < length (names_of names.now)) × (pen < 2 ^ 39) }
    ensures puts { Puts (test_text (names_of names.now) (Test.named v)) pen out.old out.new result }
    ensures upper_bound { result ≤ pen + name_limit }
{
    put_listed_name(names.listed(), out, pen, v)
}

// Puts a step without the predicates that it has, with the names of a list that has no fault.
pub fn put_head(names: &Names, out: &mut [u8], pen: usize, step: Step, brief: bool) -> usize
    requires known { Known (length (names_of names.now)) step.test × (pen < 2 ^ 38) }
    ensures puts { (a : Axis) (t : Test) → step.axis ≡ axis_number a → step.test ≡ test_number t → good_test t ≡ true → Puts (text_of (names_of names.now) (head_pieces brief a t step.count)) pen out.old out.new result }
    ensures upper_bound { result ≤ pen + sound_room }
{
    put_listed_head(names.listed(), out, pen, step, brief)
}

#[cfg(test)]
mod tests {
    use super::*;

    #[test]
    fn heads_have_axis_and_name(rt: HostRuntime) {
        if let Ok(names) = Names::new(b"item\nprice\n") {
            assert_eq!(rt; names.count(), 2);
            let step = Step {
                axis: item::DESCENDANT,
                test: item::NAMED + 1,
                count: 0,
            };
            let mut out = [0u8; 17];
            let end = put_head(&names, &mut out, 0, step, true);
            assert_eq!(rt; end, 17);
            assert_eq!(rt; out, *b"descendant::price");
        } else {
            assert!(rt; false, "the list has no fault");
        }
    }
}
