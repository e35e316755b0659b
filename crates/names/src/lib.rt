// The lent list of names: is it good, find a word's number, spell a number's name.
#![tactic(auto)]

ghost use Rattle.std.specs.Prelude.{ℕ, ◌≤◌, ◌<◌, ◌≡◌, [], List, IfErr, IfOk, IfSome, length, get_or};
ghost use Rattle.paper.specs.Limits.{list_limit, name_limit, names_limit};
ghost use Rattle.paper.specs.Names.{number_of, names_of, names_fault, bad_line};
ghost use Rattle.paper.specs.Told.{found};
ghost use Rattle.std.proofs.Math.Option.{none};
ghost use Rattle.name_lines.specs.Lines.{starts_count, Rising};
ghost use Rattle.names.specs.Listing.{Ends, Checked, Indexed, Sound, BadAt, line_to};
ghost use Rattle.name_keys.specs.Keys.{Keyed, earlier};

use paper::{NAME_LIMIT, NAMES_LIMIT, Refusal};
use std::marker::Model;

// How many starts are kept: one a name, and the end of the list.
pub const STARTS: usize = name_lines::STARTS;

// How long the first line of these bytes is: up to its LF, or to their end.
fn line_len(bytes: &[u8]) -> usize
    ensures { Ends bytes.now result }
{
    bytes
        .iter()
        .position(|&b| b == b'\n')
        .unwrap_or(bytes.len())
}

// Is the line from `start` to `end` bad, after these?
fn bad_line(
    list: &[u8],
    starts: &[u16; STARTS],
    keys: &[u16; STARTS],
    count: usize,
    start: usize,
    end: usize,
) -> bool
    requires start_le_end { (start ≤ end) × (end ≤ length list.now) }
    requires rising { Rising list.now starts.now count }
    requires keyed { Keyed list.now starts.now keys.now count }
    ensures { result ≡ bad_line (earlier list.now starts.now count) (line_to list.now start end) }
{
    let word = &list[start..end];
    if end == list.len() {
        return true;
    }
    if !good_names::is_name(word) {
        return true;
    }
    if NAME_LIMIT < end - start {
        return true;
    }
    if NAMES_LIMIT <= count {
        return true;
    }
    name_keys::repeats(list, starts, keys, count, word)
}

// Checks the list, and keeps where each line starts; past the last line stands the length of the list. Answers how many lines there are.
pub fn index(list: &[u8], starts: &mut [u16; STARTS]) -> Result<usize, Refusal>
    requires list_len_bound { length list.now ≤ list_limit }
    requires starts_len { length starts.old ≡ starts_count }
    ensures { Checked list.now starts.old starts.new result }
{
    let mut keys = [0u16; STARTS];
    let mut start: usize = 0;
    let mut count: usize = 0;
    starts[0] = 0;
    while start < list.len() {
        let end = start + line_len(&list[start..]);
        if bad_line(list, starts, &keys, count, start, end) {
            return Err(Refusal::BadName(start));
        }
        keys[count] = name_keys::key(&list[start..end]);
        start = end + 1;
        count += 1;
        starts[count] = start as u16;
    }
    Ok(count)
}

// A list of names, and where each of its lines starts; past the last line stands where another would start.
#[derive(Drop)]
pub struct Listed<'a> {
    list: &'a [u8],
    starts: [u16; STARTS],
    count: usize,
}

impl<'a> Model for Listed<'a> {
    ghost Value = { List ℕ };

    ghost view = { λ n. n.list.now };

    ghost invariant = { λ n. Indexed n.list.now n.starts n.count };
}

impl<'a> Listed<'a> {
    // Checks the list, and keeps where each line starts.
    pub fn new(list: &'a [u8]) -> Result<Listed<'a>, Refusal>
        requires { length list.now ≤ list_limit }
        ensures good { IfOk result (λ listed. (listed ≡ list.now) × (names_fault list.now ≡ none)) }
        ensures bad { IfErr result (λ why. BadAt list.now why) }
    {
        let mut starts = [0u16; STARTS];
        let count = index(list, &mut starts)?;
        Ok(Listed {
            list,
            starts,
            count,
        })
    }

    // A list of which it is known where its lines start.
    pub fn by_starts(list: &'a [u8], starts: &[u16; STARTS], count: usize) -> Listed<'a>
        requires { Indexed list.now starts.now count }
        ensures { result ≡ list.now }
    {
        Listed {
            list,
            starts: *starts,
            count,
        }
    }

    // How many names there are.
    pub fn count(&self) -> usize
        ensures counted { result ≡ length (names_of self.now) }
        ensures few { result ≤ names_limit }
    {
        self.count
    }

    // The number of a word among the names.
    pub fn find(&self, word: &[u8]) -> Option<usize>
        ensures numbered { found result ≡ number_of (names_of self.now) word.now }
        ensures few { IfSome result (λ v. v < names_limit) }
    {
        let v = name_lines::first_same(self.list, &self.starts, self.count, word)?;
        Some(v)
    }

    // What name v says.
    pub fn spell(&self, v: usize) -> &[u8]
        requires { v < length (names_of self.now) }
        ensures says { result.now ≡ get_or (names_of self.now) v [] }
        ensures within { length result.now ≤ length self.now }
        ensures long { names_fault self.now ≡ none → (0 < length result.now) × (length result.now ≤ name_limit) }
    {
        name_lines::line(self.list, &self.starts, v)
    }
}

// A list of names that has no fault.
#[derive(Drop)]
pub struct Names<'a> {
    listed: Listed<'a>,
}

impl<'a> Model for Names<'a> {
    ghost Value = { List ℕ };

    ghost view = { λ n. n.listed };

    ghost invariant = { λ n. Sound n.listed };
}

impl<'a> Names<'a> {
    // Checks the list, and keeps where each line starts.
    pub fn new(list: &'a [u8]) -> Result<Names<'a>, Refusal>
        requires { length list.now ≤ list_limit }
        ensures good { IfOk result (λ names. (names ≡ list.now) × (names_fault list.now ≡ none)) }
        ensures bad { IfErr result (λ why. BadAt list.now why) }
    {
        let mut kept = [0u16; STARTS];
        let count = index(list, &mut kept)?;
        Ok(Names {
            listed: Listed {
                list,
                starts: kept,
                count,
            },
        })
    }

    // How many names there are.
    pub fn count(&self) -> usize
        ensures counted { result ≡ length (names_of self.now) }
        ensures few { result ≤ names_limit }
    {
        self.listed.count()
    }

    // The number of a word among the names.
    pub fn find(&self, word: &[u8]) -> Option<usize>
        ensures numbered { found result ≡ number_of (names_of self.now) word.now }
        ensures few { IfSome result (λ v. v < names_limit) }
    {
        self.listed.find(word)
    }

    // What name v says: from one byte to 64.
    pub fn spell(&self, v: usize) -> &[u8]
        requires { v < length (names_of self.now) }
        ensures says { result.now ≡ get_or (names_of self.now) v [] }
        ensures within { length result.now ≤ length self.now }
        ensures long { (0 < length result.now) × (length result.now ≤ name_limit) }
    {
        self.listed.spell(v)
    }

    // The list as one of which only the starts of its lines are known, and what more is known of it.
    pub fn listed(&self) -> &Listed<'a>
        ensures same { result.now ≡ self.now }
        ensures sound { Sound self.now }
    {
        &self.listed
    }

    // The list, handed on.
    pub fn into_listed(self) -> Listed<'a>
        ensures { result ≡ self.entry }
    {
        self.listed
    }
}

#[cfg(test)]
mod tests {
    use super::*;

    #[test]
    fn names_are_found_and_spelled(rt: HostRuntime) {
        if let Ok(names) = Names::new(b"item\nprice\n") {
            assert_eq!(rt; names.count(), 2);
            assert_eq!(rt; names.find(b"price"), Some(1));
            assert_eq!(rt; names.find(b"pric"), None);
            assert_eq!(rt; names.spell(0), b"item".as_slice());
            assert_eq!(rt; names.spell(1), b"price".as_slice());
        } else {
            assert!(rt; false, "the list has no fault");
        }
    }
}
