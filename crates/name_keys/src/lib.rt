// Does a line before say the same? Lines are compared only where one has the same key.
#![tactic(auto)]

ghost use Rattle.std.specs.Prelude.{◌≤◌, ◌<◌, ◌≡◌, eqb, length, get_or};
ghost use Rattle.paper.specs.Tools.{same, some_below, some_of};
ghost use Rattle.paper.specs.Limits.{name_limit, names_limit};
ghost use Rattle.name_lines.specs.Lines.{Rising};
ghost use Rattle.name_keys.specs.Keys.{Keyed, key_of, earlier};

use name_lines::STARTS;

// The key of a line: its length and its first and last byte in one number, the same for equal lines.
pub fn key(line: &[u8]) -> u16
    requires { (0 < length line.now) × (length line.now ≤ name_limit) }
    ensures { result ≡ key_of line.now }
{
    let len = line.len();
    let first = u16::from(line[0]);
    let last = u16::from(line[len - 1]);
    len as u16 * 256 + first + last * 191
}

// Is this one of the first keys? No branch ends the pass early, so that several keys are compared at once.
fn key_kept(keys: &[u16; STARTS], count: usize, key: u16) -> bool
    requires { count ≤ names_limit }
    ensures { result ≡ some_below count (λ v. eqb (get_or keys.now v 0) key) }
{
    let mut found = false;
    for v in 0..count {
        found = (keys[v] == key) | found;
    }
    found
}

// Does one of the lines say this word? They are searched only where one has the word's key.
pub fn repeats(
    list: &[u8],
    starts: &[u16; STARTS],
    keys: &[u16; STARTS],
    count: usize,
    word: &[u8],
) -> bool
    requires rising { Rising list.now starts.now count }
    requires keyed { Keyed list.now starts.now keys.now count }
    requires word_nonzero { (0 < length word.now) × (length word.now ≤ name_limit) }
    ensures { result ≡ some_of (same word.now) (earlier list.now starts.now count) }
{
    if !key_kept(keys, count, key(word)) {
        return false;
    }
    name_lines::first_same(list, starts, count, word).is_some()
}
