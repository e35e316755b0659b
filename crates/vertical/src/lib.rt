// Sets of nodes moved up and down the tree: each axis is one pass over the nodes or two, in document order or against it.
#![tactic(auto)]

ghost use Rattle.std.specs.Prelude.{◌≡◌, Bool, List, ℕ, ◌+◌, ◌<◌, length};
ghost use Rattle.paper.specs.Document.{table_of};
ghost use Rattle.paper.specs.Query.{Axis, child, descendant_or_self, ancestor_or_self, descendant, ancestor};
ghost use Rattle.paper.proofs.Trees.{Tree};
ghost use Rattle.sets.specs.Sets.{bits, image};

// Moves the set to the children of its nodes: from the last node on, each takes what its parent, which comes before it, still has.
pub fn children(parent: &[u16], set: &mut [u8])
    requires { (length parent.now ≡ length set.old) × ((kinds : List ℕ) → Tree (table_of parent.now kinds)) }
    ensures { (kinds : List ℕ) (f : ℕ → Bool) → set.old ≡ bits (length set.old) f → set.new ≡ bits (length set.old) (image (table_of parent.now kinds) child f) }
{
    for taker in (1..set.len()).rev() {
        set[taker] = set[parent[taker] as usize];
    }
    set[0] = 0;
}

// Moves the set to the parents of its nodes: each node hands what it has to its parent, which has handed on its own before.
pub fn parents(parent: &[u16], set: &mut [u8])
    requires { (length parent.now ≡ length set.old) × ((kinds : List ℕ) → Tree (table_of parent.now kinds)) }
    ensures { (kinds : List ℕ) (f : ℕ → Bool) → set.old ≡ bits (length set.old) f → set.new ≡ bits (length set.old) (image (table_of parent.now kinds) Axis.parent f) }
{
    set[0] = 0;
    for i in 1..set.len() {
        let member = set[i];
        let up = parent[i] as usize;
        set[i] = 0;
        set[up] = set[up] | member;
    }
}

// Adds all below the nodes of the set: each node takes what its parent has, which is done before it.
pub fn below(parent: &[u16], set: &mut [u8])
    requires { (length parent.now ≡ length set.old) × ((kinds : List ℕ) → Tree (table_of parent.now kinds)) }
    ensures { (kinds : List ℕ) (f : ℕ → Bool) → set.old ≡ bits (length set.old) f → set.new ≡ bits (length set.old) (image (table_of parent.now kinds) descendant_or_self f) }
{
    for i in 1..set.len() {
        set[i] = set[i] | set[parent[i] as usize];
    }
}

// Adds all above the nodes of the set: from the last node on, each hands what it has to its parent.
pub fn above(parent: &[u16], set: &mut [u8])
    requires { (length parent.now ≡ length set.old) × ((kinds : List ℕ) → Tree (table_of parent.now kinds)) }
    ensures { (kinds : List ℕ) (f : ℕ → Bool) → set.old ≡ bits (length set.old) f → set.new ≡ bits (length set.old) (image (table_of parent.now kinds) ancestor_or_self f) }
{
    for giver in (1..set.len()).rev() {
        let up = parent[giver] as usize;
        set[up] = set[up] | set[giver];
    }
}

// Moves the set to all below its nodes: to the children of its nodes and of all below them.
pub fn descendants(parent: &[u16], set: &mut [u8])
    requires { (length parent.now ≡ length set.old) × ((kinds : List ℕ) → Tree (table_of parent.now kinds)) }
    ensures { (kinds : List ℕ) (f : ℕ → Bool) → set.old ≡ bits (length set.old) f → set.new ≡ bits (length set.old) (image (table_of parent.now kinds) descendant f) }
{
    below(parent, set);
    children(parent, set);
}

// Moves the set to all above its nodes: to the parents of its nodes and of all above them.
pub fn ancestors(parent: &[u16], set: &mut [u8])
    requires { (length parent.now ≡ length set.old) × ((kinds : List ℕ) → Tree (table_of parent.now kinds)) }
    ensures { (kinds : List ℕ) (f : ℕ → Bool) → set.old ≡ bits (length set.old) f → set.new ≡ bits (length set.old) (image (table_of parent.now kinds) ancestor f) }
{
    above(parent, set);
    parents(parent, set);
}
