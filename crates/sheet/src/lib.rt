// Prints a sheet: for each name of a list its three numbers, then their sums, then how often each refusal number was given.
// What is printed goes into the lent bytes as far as these go, and its length is answered.
#![tactic(auto)]

ghost use Rattle.std.specs.Prelude.{◌≡◌, [], ◌+◌, ◌*◌, ◌^◌, ◌≤◌, ◌<◌, length, get_or};
ghost use Rattle.std.proofs.Math.Option.{none};
ghost use Rattle.paper.specs.Tools.{ascii};
ghost use Rattle.paper.specs.Limits.{list_limit, names_limit};
ghost use Rattle.paper.specs.Names.{names_fault, names_of};
ghost use Rattle.paper.specs.Sheet.{number_limit, sum_below, sheet_line, refused_line, refused_lines, name_lines, tallied};
ghost use Rattle.pen.specs.Putting.{Puts};
ghost use Rattle.lines.specs.Lines.{line_room, Reports};
ghost use Rattle.sheet.specs.Sheets.{counts_text, at, sheet_limit};

use names::Names;

// No line has more bytes beside a name.
const LINE_ROOM: usize = 64;
// One more than the greatest refusal number.
pub const NUMBERS: usize = 19;
// No sheet has more bytes.
pub const SHEET_LIMIT: usize = paper::LIST_LIMIT + (paper::NAMES_LIMIT + NUMBERS + 2) * LINE_ROOM;

// The number of a name.
fn number_at(column: &[u32], v: usize) -> usize
    ensures { (result ≡ at column.now v) × (result < 2 ^ 32) }
{
    column.get(v).map_or(0, |number| *number as usize)
}

// How often a refusal number was given.
fn times_at(refusals: &[u64], number: usize) -> usize
    ensures { result ≡ at refusals.now number }
{
    refusals.get(number).map_or(0, |times| *times as usize)
}

// The sum of the first numbers of a column.
fn sum(column: &[u32], count: usize) -> usize
    requires { count ≤ names_limit }
    ensures { result ≡ sum_below count (at column.now) }
{
    let mut total = 0;
    for v in 0..count {
        total += number_at(column, v);
    }
    total
}

// Puts three numbers, each behind a space, and LF.
fn put_counts(out: &mut [u8], pen: usize, all: usize, kept: usize, hidden: usize) -> usize
    requires { pen < 2 ^ 37 }
    ensures puts { Puts (counts_text all kept hidden) pen out.old out.new result }
    ensures upper_bound { result ≤ pen + line_room }
{
    let apart = pen::put(out, pen, b" ");
    let all_told = lines::put_decimal(out, apart, all);
    let apart_again = pen::put(out, all_told, b" ");
    let kept_told = lines::put_decimal(out, apart_again, kept);
    let last = pen::put(out, kept_told, b" ");
    let hidden_told = lines::put_decimal(out, last, hidden);
    pen::put(out, hidden_told, b"\n")
}

// Puts the line of name v.
fn put_line(
    names: &Names,
    all: &[u32],
    kept: &[u32],
    hidden: &[u32],
    out: &mut [u8],
    pen: usize,
    v: usize,
) -> usize
    requires { (v < length (names_of names.now)) × (pen < 2 ^ 36) }
    ensures puts { Puts (sheet_line (get_or (names_of names.now) v []) (at all.now v) (at kept.now v) (at hidden.now v)) pen out.old out.new result }
    ensures upper_bound { result ≤ pen + length (get_or (names_of names.now) v []) + line_room }
{
    let named = put_steps::put_name(names, out, pen, v);
    let in_all = number_at(all, v);
    let in_kept = number_at(kept, v);
    let in_hidden = number_at(hidden, v);
    put_counts(out, named, in_all, in_kept, in_hidden)
}

// Puts the line of each name.
fn put_names(names: &Names, all: &[u32], kept: &[u32], hidden: &[u32], out: &mut [u8]) -> usize
    requires { length names.now ≤ list_limit }
    ensures puts { Puts (name_lines (at all.now) (at kept.now) (at hidden.now) 0 (names_of names.now)) 0 out.old out.new result }
    ensures upper_bound { result ≤ list_limit + names_limit * line_room }
{
    let mut pen = 0;
    for v in 0..names.count() {
        pen = put_line(names, all, kept, hidden, out, pen, v);
    }
    pen
}

// Puts the line of the sums over so many names.
fn put_sums(
    count: usize,
    all: &[u32],
    kept: &[u32],
    hidden: &[u32],
    out: &mut [u8],
    pen: usize,
) -> usize
    requires { (count ≤ names_limit) × (pen < 2 ^ 36) }
    ensures puts { Puts (sheet_line (ascii "sum") (sum_below count (at all.now)) (sum_below count (at kept.now)) (sum_below count (at hidden.now))) pen out.old out.new result }
    ensures upper_bound { result ≤ pen + 2 * line_room }
{
    let begun = pen::put(out, pen, b"sum");
    let sum_all = sum(all, count);
    let sum_kept = sum(kept, count);
    let sum_hidden = sum(hidden, count);
    put_counts(out, begun, sum_all, sum_kept, sum_hidden)
}

// Puts the line of a refusal number, if it was given.
fn put_refused(out: &mut [u8], pen: usize, number: usize, times: usize) -> usize
    requires { pen < 2 ^ 36 }
    ensures puts { Puts (refused_line number times) pen out.old out.new result }
    ensures upper_bound { result ≤ pen + line_room }
{
    if times == 0 {
        return pen;
    }
    let begun = pen::put(out, pen, b"refused ");
    let numbered = lines::put_decimal(out, begun, number);
    let apart = pen::put(out, numbered, b" ");
    let counted = lines::put_decimal(out, apart, times);
    pen::put(out, counted, b"\n")
}

// Puts the lines of the refusal numbers that were given, rising.
fn put_refusals(refusals: &[u64], out: &mut [u8], pen: usize) -> usize
    requires { pen < 2 ^ 35 }
    ensures puts { Puts (refused_lines (1 + number_limit) (at refusals.now)) pen out.old out.new result }
    ensures upper_bound { result ≤ pen + (1 + number_limit) * line_room }
{
    let mut next = pen;
    for number in 0..NUMBERS {
        next = put_refused(out, next, number, times_at(refusals, number));
    }
    next
}

// Puts the sheet of these columns, for the names of a list without fault.
pub fn put_sheet(
    list: &[u8],
    all: &[u32],
    kept: &[u32],
    hidden: &[u32],
    refusals: &[u64],
    out: &mut [u8],
) -> usize
    requires { (length list.now ≤ list_limit) × (names_fault list.now ≡ none) }
    ensures { Reports (tallied (at all.now) (at kept.now) (at hidden.now) (names_of list.now) (at refusals.now)) sheet_limit out.old out.new result }
{
    let Ok(names) = Names::new(list) else {
        return 0;
    };
    let named = put_names(&names, all, kept, hidden, out);
    let summed = put_sums(names.count(), all, kept, hidden, out, named);
    put_refusals(refusals, out, summed)
}
