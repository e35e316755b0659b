// Sets of nodes kept to the marked ones: those that meet a test, and with the nodes of a set all above and below them.
#![tactic(auto)]

ghost use Rattle.std.specs.Prelude.{ℕ, ◌≡◌, Bool, true, ◌&&◌, length, get_or};
ghost use Rattle.paper.specs.Query.{Test, descendant_or_self};
ghost use Rattle.paper.specs.Document.{marked, table_of};
ghost use Rattle.paper.specs.Items.{test_number, good_test};
ghost use Rattle.paper.specs.Selection.{meets};
ghost use Rattle.sets.specs.Sets.{bits, image};
ghost use Rattle.spread.specs.Spreading.{Ready, keeps_by};

// Keeps of the set the marked nodes that meet the test.
pub fn restrict(kind: &[u16], given: &[u8], test: u32, set: &mut [u8])
    requires { (length kind.now ≡ length set.old) × (length given.now ≡ length set.old) × (given.now ≡ bits (length set.old) (marked given.now)) }
    ensures { (t : Test) (f : ℕ → Bool) → good_test t ≡ true → test ≡ test_number t → set.old ≡ bits (length set.old) f → set.new ≡ bits (length set.old) (λ i. (f i && marked given.now i) && meets t (get_or kind.now i 0)) }
{
    sets::keep(given, set);
    sets::keep_met(kind, test, set);
}

// Keeps, with the selected nodes, all above them and all below them that are marked; the set has all below them then.
pub fn spread(parent: &[u16], kind: &[u16], given: &[u8], marks: &mut [u8], set: &mut [u8])
    requires ready { Ready parent.now kind.now given.now }
    requires marks_len { (length marks.old ≡ length parent.now) × (length set.old ≡ length parent.now) }
    ensures by_index { (f : ℕ → Bool) → marks.old ≡ bits (length parent.now) f → marks.new ≡ bits (length parent.now) (keeps_by (table_of parent.now kind.now) given.now f) }
    ensures by_index_2 { (f : ℕ → Bool) → marks.old ≡ bits (length parent.now) f → set.new ≡ bits (length parent.now) (image (table_of parent.now kind.now) descendant_or_self f) }
{
    sets::copy(marks, set);
    axes::along(parent, item::DESCENDANT_OR_SELF, set);
    axes::along(parent, item::ANCESTOR_OR_SELF, marks);
    sets::add(set, marks);
    sets::keep(given, marks);
}
