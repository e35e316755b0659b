// The lines of a list of names by their kept starts: where a line stands, what it says, and the first that says a word.
#![tactic(auto)]

ghost use Rattle.std.specs.Prelude.{suc, ◌<◌, ◌≤◌, ◌≡◌, length, get_or};
ghost use Rattle.paper.specs.Limits.{names_limit};
ghost use Rattle.paper.specs.Tools.{same, first_below};
ghost use Rattle.paper.specs.Told.{found};
ghost use Rattle.name_lines.specs.Lines.{Rising, part_of, said};

use paper::NAMES_LIMIT;

// How many starts are kept: one a name, and the end of the list.
pub const STARTS: usize = NAMES_LIMIT + 1;

// Where a name stands in the list, and its number of bytes.
#[derive(Clone, Copy)]
pub struct Part {
    pub start: usize,
    pub len: usize,
}

// Where line v stands: it ends right before the LF that the next line follows.
pub fn line_part(starts: &[u16; STARTS], v: usize) -> Part
    requires v_lt_names_limit { v < names_limit }
    requires v_bound { get_or starts.now v 0 < get_or starts.now (suc v) 0 }
    ensures { result ≡ part_of starts.now v }
{
    let start = usize::from(starts[v]);
    let next = usize::from(starts[v + 1]);
    Part {
        start,
        len: next - 1 - start,
    }
}

// What line v says.
pub fn line<'a>(list: &'a [u8], starts: &[u16; STARTS], v: usize) -> &'a [u8]
    requires v_lt_names_limit { v < names_limit }
    requires v_bound { get_or starts.now v 0 < get_or starts.now (suc v) 0 }
    requires within { get_or starts.now (suc v) 0 ≤ length list.now }
    ensures { result.now ≡ said list.now starts.now v }
{
    let part = line_part(starts, v);
    &list[part.start..part.start + part.len]
}

// The first of the lines that says this word: lengths are compared first, then bytes.
pub fn first_same(list: &[u8], starts: &[u16; STARTS], count: usize, word: &[u8]) -> Option<usize>
    requires { Rising list.now starts.now count }
    ensures { found result ≡ first_below count (λ v. same (said list.now starts.now v) word.now) }
{
    let mut first = None;
    'lines: for v in 0..count {
        let said = line(list, starts, v);
        if said.len() != word.len() {
            continue 'lines;
        }
        for i in 0..said.len() {
            if said[i] != word[i] {
                continue 'lines;
            }
        }
        first = Some(v);
        break 'lines;
    }
    first
}
