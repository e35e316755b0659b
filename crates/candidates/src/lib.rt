// The nodes to which a step leads from a node, from the last one on: its axis and its test, for one node at a time.
#![tactic(auto)]

ghost use Rattle.std.specs.Prelude.{ℕ, ◌≤◌, ◌<◌, ◌≡◌, true, false, length};
ghost use Rattle.paper.specs.Query.{Axis, Test};
ghost use Rattle.paper.specs.Document.{table_of};
ghost use Rattle.paper.specs.Items.{axis_number, test_number, good_test};
ghost use Rattle.paper.specs.Selection.{meets, reaches};
ghost use Rattle.candidates.specs.Best.{Ready, Best};

use kin::axis_leads;

// Is the test met by a node of this kind? The test of text and that of a name have the number of the one kind that meets them.
fn test_met(test: u32, kind: u16) -> bool
    ensures { (x : Test) → good_test x ≡ true → test ≡ test_number x → result ≡ meets x kind }
{
    match test {
        item::ANY_NODE => true,
        item::ANY_ELEMENT => paper::ELEMENT_KIND <= kind,
        _ => u32::from(kind) == test,
    }
}

// Does a step along this axis, with this test, lead from i to j?
fn step_reaches(
    parent: &[u16],
    kind: &[u16],
    given: &[u8],
    axis: u32,
    test: u32,
    i: usize,
    j: usize,
) -> bool
    requires ready { Ready parent.now kind.now given.now }
    requires i_in_bounds { (i < length parent.now) × (j < length parent.now) }
    ensures { (a : Axis) (x : Test) → good_test x ≡ true → axis ≡ axis_number a → test ≡ test_number x → result ≡ reaches (table_of parent.now kind.now) given.now a x i j }
{
    let marked = given[j] == 1;
    marked && test_met(test, kind[j]) && axis_leads(parent, axis, i, j)
}

// The node j alone as a candidate below a bound: it, where the step leads there.
fn lone(
    parent: &[u16],
    kind: &[u16],
    given: &[u8],
    axis: u32,
    test: u32,
    i: usize,
    j: usize,
    bound: usize,
) -> Option<usize>
    requires ready { Ready parent.now kind.now given.now }
    requires i_in_bounds { (i < length parent.now) × (j < length parent.now) × (bound ≤ length parent.now) }
    requires k_value { (a : Axis) (x : Test) → axis ≡ axis_number a → (k : ℕ) → (k ≡ j → ⊥) → reaches (table_of parent.now kind.now) given.now a x i k ≡ false }
    ensures { (a : Axis) (x : Test) → good_test x ≡ true → axis ≡ axis_number a → test ≡ test_number x → Best (reaches (table_of parent.now kind.now) given.now a x i) bound result }
{
    if j < bound && step_reaches(parent, kind, given, axis, test, i, j) {
        Some(j)
    } else {
        None
    }
}

// The last node below a bound to which the step leads from i. Self and parent lead to one node, and no other is looked at.
pub fn candidate(
    parent: &[u16],
    kind: &[u16],
    given: &[u8],
    axis: u32,
    test: u32,
    i: usize,
    bound: usize,
) -> Option<usize>
    requires ready { Ready parent.now kind.now given.now }
    requires i_in_bounds { (i < length parent.now) × (bound ≤ length parent.now) }
    ensures { (a : Axis) (x : Test) → good_test x ≡ true → axis ≡ axis_number a → test ≡ test_number x → Best (reaches (table_of parent.now kind.now) given.now a x i) bound result }
{
    if axis == item::SELF {
        return lone(parent, kind, given, axis, test, i, i, bound);
    }
    if axis == item::PARENT {
        return lone(
            parent,
            kind,
            given,
            axis,
            test,
            i,
            usize::from(parent[i]),
            bound,
        );
    }
    for j in (0..bound).rev() {
        if step_reaches(parent, kind, given, axis, test, i, j) {
            return Some(j);
        }
    }
    None
}
