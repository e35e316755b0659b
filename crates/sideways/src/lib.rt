// Sets of nodes moved to siblings and to what follows or precedes: each axis is one pass over the nodes or two, in document order or against it.
#![tactic(auto)]

ghost use Rattle.std.specs.Prelude.{◌≡◌, Bool, cond, List, ℕ, ◌+◌, ◌%◌, ◌<◌, length, get_or};
ghost use Rattle.paper.specs.Tools.{column};
ghost use Rattle.paper.specs.Document.{table_of};
ghost use Rattle.paper.specs.Query.{Axis, ancestor_or_self, following_sibling, preceding_sibling};
ghost use Rattle.paper.proofs.Trees.{Tree};
ghost use Rattle.sets.specs.Sets.{bits, image};

use vertical::above;

// Keeps the first bit of each byte.
fn first_bits(set: &mut [u8])
    ensures { set.new ≡ column (length set.old) (λ k. get_or set.old k 0 % 2) }
{
    for i in 0..set.len() {
        set[i] = set[i] % 2;
    }
}

// Puts into the first bit of each node whether a sibling before it was in the set: the second bit of their parent says it, once the sibling's turn has come.
fn behind_siblings(parent: &[u16], set: &mut [u8])
    requires { (length parent.now ≡ length set.old) × ((kinds : List ℕ) → Tree (table_of parent.now kinds)) }
    ensures { (kinds : List ℕ) (f : ℕ → Bool) → set.old ≡ bits (length set.old) f → column (length set.old) (λ k. get_or set.new k 0 % 2) ≡ bits (length set.old) (image (table_of parent.now kinds) following_sibling f) }
{
    for younger in 1..set.len() {
        let up = parent[younger] as usize;
        let member = set[younger];
        let told = set[up];
        set[younger] = told / 2;
        set[up] = told | (member % 2 * 2);
    }
    set[0] = 0;
}

// Moves the set to the siblings behind its nodes.
pub fn following_siblings(parent: &[u16], set: &mut [u8])
    requires { (length parent.now ≡ length set.old) × ((kinds : List ℕ) → Tree (table_of parent.now kinds)) }
    ensures { (kinds : List ℕ) (f : ℕ → Bool) → set.old ≡ bits (length set.old) f → set.new ≡ bits (length set.old) (image (table_of parent.now kinds) following_sibling f) }
{
    behind_siblings(parent, set);
    first_bits(set);
}

// Moves the set to the siblings before its nodes: from the last node on, the second bit of a parent says whether a child was in the set, and is dropped with the parent's turn.
pub fn preceding_siblings(parent: &[u16], set: &mut [u8])
    requires { (length parent.now ≡ length set.old) × ((kinds : List ℕ) → Tree (table_of parent.now kinds)) }
    ensures { (kinds : List ℕ) (f : ℕ → Bool) → set.old ≡ bits (length set.old) f → set.new ≡ bits (length set.old) (image (table_of parent.now kinds) preceding_sibling f) }
{
    for elder in (1..set.len()).rev() {
        let up = parent[elder] as usize;
        let member = set[elder];
        let told = set[up];
        set[elder] = told / 2;
        set[up] = told | (member % 2 * 2);
    }
    set[0] = 0;
}

// The place, if it is chosen, and else the other.
fn chosen(choice: bool, place: usize, other: usize) -> usize
    ensures { result ≡ cond choice place other }
{
    if choice { place } else { other }
}

// Moves the set to what follows its nodes: a node follows what its parent follows, and beyond that the last node of the set before it, if its parent comes before that.
pub fn following(parent: &[u16], set: &mut [u8])
    requires { (length parent.now ≡ length set.old) × ((kinds : List ℕ) → Tree (table_of parent.now kinds)) }
    ensures { (kinds : List ℕ) (f : ℕ → Bool) → set.old ≡ bits (length set.old) f → set.new ≡ bits (length set.old) (image (table_of parent.now kinds) Axis.following f) }
{
    set[0] = 0;
    let mut last = 0;
    for i in 1..set.len() {
        let up = parent[i] as usize;
        let member = set[i];
        set[i] = ((up < last) as u8) | set[up];
        last = chosen(member == 1, i, last);
    }
}

// Moves a set, given with all above its nodes, to what precedes them: from the last node on, a node precedes one of the set if the way up from that one passes it by, from a node behind it to a parent before it.
fn passed_by(parent: &[u16], set: &mut [u8])
    requires { (length parent.now ≡ length set.old) × ((kinds : List ℕ) → Tree (table_of parent.now kinds)) }
    ensures { (kinds : List ℕ) (f : ℕ → Bool) → set.old ≡ bits (length set.old) (image (table_of parent.now kinds) ancestor_or_self f) → set.new ≡ bits (length set.old) (image (table_of parent.now kinds) Axis.preceding f) }
{
    let mut low = set.len();
    for at in (1..set.len()).rev() {
        let up = parent[at] as usize;
        let member = set[at];
        set[at] = (low < at) as u8;
        low = chosen((member == 1) & (up < low), up, low);
    }
    set[0] = 0;
}

// Moves the set to what precedes its nodes.
pub fn preceding(parent: &[u16], set: &mut [u8])
    requires { (length parent.now ≡ length set.old) × ((kinds : List ℕ) → Tree (table_of parent.now kinds)) }
    ensures { (kinds : List ℕ) (f : ℕ → Bool) → set.old ≡ bits (length set.old) f → set.new ≡ bits (length set.old) (image (table_of parent.now kinds) Axis.preceding f) }
{
    above(parent, set);
    passed_by(parent, set);
}
