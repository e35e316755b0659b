// Sets of nodes in lent bytes: each operation is one pass over the nodes, which changes each by itself.
#![tactic(auto)]

ghost use Rattle.std.specs.Prelude.{◌≡◌, Bool, true, not, ◌&&◌, ◌||◌, ◌++◌, ℕ, ◌+◌, ◌≤◌, ◌<◌, length, get_or, take, drop, replicate};
ghost use Rattle.paper.specs.Query.{Test};
ghost use Rattle.paper.specs.Items.{test_number, good_test};
ghost use Rattle.paper.specs.Selection.{meets};
ghost use Rattle.sets.specs.Sets.{bits};

// Changes each byte of the set by itself: that of a node becomes what f makes of it and of the node's number.
fn each<F: Fn(u8, usize) -> u8>(set: &mut [u8], f: F)
    requires callable { (x i : ℕ) → x < 256 → i < length set.old → F.pre f x i }
    ensures len { length set.new ≡ length set.old }
    ensures made { (i : ℕ) → i < length set.old → F.post f (get_or set.old i 0) i (get_or set.new i 0) }
{
    for i in 0..set.len() {
        set[i] = f(set[i], i);
    }
}

// Fills the set with one byte.
pub fn fill(set: &mut [u8], b: u8)
    ensures { set.new ≡ replicate (length set.old) b }
{
    set.fill(b);
}

// Copies a set.
pub fn copy(from: &[u8], set: &mut [u8])
    requires { length from.now ≡ length set.old }
    ensures { set.new ≡ from.now }
{
    for i in 0..set.len() {
        set[i] = from[i];
    }
}

// Keeps of the set what is in the other.
pub fn keep(other: &[u8], set: &mut [u8])
    requires { length other.now ≡ length set.old }
    ensures { (f g : ℕ → Bool) → set.old ≡ bits (length set.old) f → other.now ≡ bits (length set.old) g → set.new ≡ bits (length set.old) (λ i. f i && g i) }
{
    each(set, |x, i| x & other[i]);
}

// Adds the other to the set.
pub fn add(other: &[u8], set: &mut [u8])
    requires { length other.now ≡ length set.old }
    ensures { (f g : ℕ → Bool) → set.old ≡ bits (length set.old) f → other.now ≡ bits (length set.old) g → set.new ≡ bits (length set.old) (λ i. f i || g i) }
{
    each(set, |x, i| x | other[i]);
}

// Turns the set into what is not in it.
pub fn flip(set: &mut [u8])
    ensures { (f : ℕ → Bool) → set.old ≡ bits (length set.old) f → set.new ≡ bits (length set.old) (λ i. not (f i)) }
{
    each(set, |x, _| x ^ 1);
}

// Of two sets of n nodes in a row, keeps of the first what is in the second.
pub fn keep_second(sets: &mut [u8], n: usize)
    requires { n + n ≤ length sets.old }
    ensures by_index { (f g : ℕ → Bool) → take n sets.old ≡ bits n f → take n (drop n sets.old) ≡ bits n g → sets.new ≡ bits n (λ i. f i && g i) ++ drop n sets.old }
    ensures sets_unchanged { drop n sets.new ≡ drop n sets.old }
{
    let (first, rest) = sets.split_at_mut(n);
    keep(&rest[..n], first);
}

// Of two sets of n nodes in a row, adds the second to the first.
pub fn add_second(sets: &mut [u8], n: usize)
    requires { n + n ≤ length sets.old }
    ensures by_index { (f g : ℕ → Bool) → take n sets.old ≡ bits n f → take n (drop n sets.old) ≡ bits n g → sets.new ≡ bits n (λ i. f i || g i) ++ drop n sets.old }
    ensures sets_unchanged { drop n sets.new ≡ drop n sets.old }
{
    let (first, rest) = sets.split_at_mut(n);
    add(&rest[..n], first);
}

// Keeps the nodes that meet the test.
pub fn keep_met(kind: &[u16], test: u32, set: &mut [u8])
    requires { length kind.now ≡ length set.old }
    ensures { (t : Test) (f : ℕ → Bool) → good_test t ≡ true → test ≡ test_number t → set.old ≡ bits (length set.old) f → set.new ≡ bits (length set.old) (λ i. f i && meets t (get_or kind.now i 0)) }
{
    match test {
        item::ANY_NODE => {}
        item::ANY_ELEMENT => each(set, |x, i| x & u8::from(paper::ELEMENT_KIND <= kind[i])),
        _ => each(set, |x, i| x & u8::from(u32::from(kind[i]) == test)),
    }
}
