// The lines of a report: where a line of an input ends and the next one starts, and the lines of a refusal and of a result.
// What is put goes into the lent bytes as far as these go, and its length is answered.
#![tactic(auto)]

ghost use Rattle.std.specs.Prelude.{◌≡◌, [], ◌∷◌, ◌+◌, ◌^◌, ◌≤◌, ◌<◌, length};
ghost use Rattle.paper.specs.Limits.{text_limit};
ghost use Rattle.paper.specs.Told.{told};
ghost use Rattle.paper.specs.Program.{decimal, refusal_line, result_lines};
ghost use Rattle.pen.specs.Putting.{Puts};
ghost use Rattle.code.specs.Codes.{number_told, place_told};
ghost use Rattle.lines.specs.Lines.{Ends, Starts, Parts, report_limit, Reports, line_room};

use paper::Answer;

// Where the first line of the bytes ends: at its LF, or where the bytes end.
pub fn line_end(bytes: &[u8]) -> usize
    ensures { Ends bytes.now result }
{
    bytes
        .iter()
        .position(|b| *b == b'\n')
        .unwrap_or(bytes.len())
}

// Where the next line starts, after one that ends here.
pub fn line_start(bytes: &[u8], end: usize) -> usize
    requires { end ≤ length bytes.now }
    ensures { Starts bytes.now end result }
{
    if end < bytes.len() { end + 1 } else { end }
}

// Where a name list ends: before the LF of a blank line, or where the bytes end.
pub fn list_end(bytes: &[u8]) -> usize
    ensures { Parts bytes.now result }
{
    let mut starts = true;
    for (at, b) in bytes.iter().enumerate() {
        let ends = *b == b'\n';
        if starts & ends {
            return at;
        }
        starts = ends;
    }
    bytes.len()
}

// Puts a digit.
fn put_digit(out: &mut [u8], pen: usize, digit: usize) -> usize
    requires { (pen < 2 ^ 39) × (digit < 10) }
    ensures { Puts ((48 + digit) ∷ []) pen out.old out.new result }
{
    let glyph = [48 + digit as u8];
    pen::put(out, pen, &glyph)
}

// Puts a number in decimal digits.
pub fn put_decimal(out: &mut [u8], pen: usize, n: usize) -> usize
    requires { pen < 2 ^ 38 }
    ensures puts { Puts (decimal n) pen out.old out.new result }
    ensures upper_bound { result ≤ pen + 20 }
{
    if n < 10 {
        return put_digit(out, pen, n);
    }
    let next = put_decimal(out, pen, n / 10);
    put_digit(out, next, n % 10)
}

// Puts the line of a refusal: which part of the work refuses, the number and the place.
pub fn put_refusal(out: &mut [u8], part: &[u8], answer: Answer) -> usize
    requires { length part.now ≤ 8 }
    ensures { Reports (refusal_line part.now (number_told (told answer)) (place_told (told answer))) line_room out.old out.new result }
{
    let number = code::number_of(answer);
    let place = code::place_of(answer);
    let begun = pen::put(out, 0, b"refused ");
    let named = pen::put(out, begun, part);
    let spaced = pen::put(out, named, b" ");
    let numbered = put_decimal(out, spaced, number);
    let apart = pen::put(out, numbered, b" ");
    let placed = put_decimal(out, apart, place);
    pen::put(out, placed, b"\n")
}

// Puts the text of a query, and the line of its size and nesting.
pub fn put_result(out: &mut [u8], text: &[u8], size: usize, nesting: usize) -> usize
    requires { length text.now ≤ text_limit }
    ensures { Reports (result_lines text.now size nesting) report_limit out.old out.new result }
{
    let ended = pen::put(out, 0, text);
    let begun = pen::put(out, ended, b"\nsize ");
    let sized = put_decimal(out, begun, size);
    let parted = pen::put(out, sized, b" nesting ");
    let nested = put_decimal(out, parted, nesting);
    pen::put(out, nested, b"\n")
}
