// The names of a list by their first byte: a word is compared only with the names that begin as it does.
#![tactic(auto)]

ghost use Rattle.std.specs.Prelude.{ℕ, ◌<◌, ◌≡◌, List, IfSome, length, get_or, replicate};
ghost use Rattle.paper.specs.Limits.{names_limit};
ghost use Rattle.paper.specs.Names.{names_of, number_of};
ghost use Rattle.paper.specs.Told.{found};
ghost use Rattle.initials.specs.Chains.{bytes_count, chains_count, Chained};

use names::Listed;
use std::marker::Model;

// How many bytes there are.
const BYTES: usize = 256;

// For each byte the first name that begins with it, and then for each name the next that begins alike: v + 1 for name v, 0 for none.
pub const CHAINS: usize = BYTES + names::STARTS;

// The first byte of a name, and 0 where it has none.
fn first_byte(name: &[u8]) -> usize
    ensures { (result ≡ get_or name.now 0 0) × (result < bytes_count) }
{
    name.first().map_or(0, |&b| usize::from(b))
}

// Links the names that begin alike.
pub fn link(names: &Listed, chains: &mut [u16; CHAINS])
    requires { chains.old ≡ replicate chains_count 0 }
    ensures { Chained (names_of names.now) chains.new }
{
    for v in (0..names.count()).rev() {
        let first = first_byte(names.spell(v));
        chains[BYTES + v] = chains[first];
        chains[first] = v as u16 + 1;
    }
}

// A list of names, with the names that begin alike linked.
#[derive(Drop)]
pub struct Initials<'a> {
    names: Listed<'a>,
    chains: [u16; CHAINS],
}

impl<'a> Model for Initials<'a> {
    ghost Value = { List ℕ };

    ghost view = { λ i. i.names };

    ghost invariant = { λ i. Chained (names_of i.names) i.chains };
}

impl<'a> Initials<'a> {
    // Links the names that begin alike.
    pub fn new(names: Listed<'a>) -> Initials<'a>
        ensures { result ≡ names.entry }
    {
        let mut chains = [0u16; CHAINS];
        link(&names, &mut chains);
        Initials { names, chains }
    }

    // The number of a word among the names; the word has a byte at least.
    pub fn find(&self, word: &[u8]) -> Option<usize>
        requires { 0 < length word.now }
        ensures numbered { found result ≡ number_of (names_of self.now) word.now }
        ensures few { IfSome result (λ v. v < names_limit) }
    {
        let mut at = usize::from(self.chains[usize::from(word[0])]);
        while 0 < at {
            let v = at - 1;
            let name = self.names.spell(v);
            if name == word {
                return Some(v);
            }
            at = usize::from(self.chains[BYTES + v]);
        }
        None
    }
}
