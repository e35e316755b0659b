// The nodes that a query keeps: predicates for all nodes at once, from a path's last step back; top-level paths forward from the root; then all above and below.
#![tactic(auto)]

ghost use Rattle.std.specs.Prelude.{ℕ, Some, ◌+◌, ◌-◌, ◌*◌, ◌/◌, ◌≤◌, ◌<◌, ◌≡◌, true, ◌&&◌, ◌||◌, ◌⊎◌, eqb, length, get_or, take, drop, replicate};
ghost use Rattle.std.proofs.Math.Option.{some};
ghost use Rattle.paper.specs.Limits.{bracket_limit};
ghost use Rattle.paper.specs.Query.{Query};
ghost use Rattle.paper.specs.Document.{marked, table_of};
ghost use Rattle.paper.specs.Items.{decode, take_preds, take_steps, take_operand, take_expr, take_within};
ghost use Rattle.paper.specs.Measures.{height, height_expr, height_steps, height_preds};
ghost use Rattle.paper.specs.Selection.{holds, finds, all_hold, selects, kept};
ghost use Rattle.sets.specs.Sets.{bits};
ghost use Rattle.keep.specs.Recall.{spare, Kept, Inside, Stands, Copied, Remembered};
ghost use Rattle.keep.specs.Evals.{Ready, Fits, Joined, Evaluates, Narrows, Moves, Runs};

use item::Item;
use places::{look, look_first, path_at, step_at};
use spread::{restrict, spread};

// Keeps of the set at `base` what the set behind it has too; where no bytes of it are held yet, the set at `base` is new and stays.
fn narrow(sets: &mut [u8], base: usize, held: usize, n: usize)
    requires { 0 < held → base + (n + n) ≤ length sets.old }
    ensures { Joined n base held ◌&&◌ sets.old sets.new }
{
    if 0 < held {
        sets::keep_second(&mut sets[base..], n);
    }
}

// Adds the second set to the first; where no bytes of it are held yet, the first is new and stays.
fn widen(sets: &mut [u8], held: usize, n: usize)
    requires { 0 < held → n + n ≤ length sets.old }
    ensures { Joined n 0 held ◌||◌ sets.old sets.new }
{
    if 0 < held {
        sets::add_second(sets, n);
    }
}

// SETS KEPT. Those of predicates worked out before stand behind all other sets; an entry says where the items of one stand.

// The most sets that are kept.
const MOST: usize = 32;

// The fewest items that are worth it.
const LEAST: usize = 4;

// An entry is the place of the items, times this, and their number; 0 where no set is kept.
const SPAN: usize = 65536;

// The bytes that working out a query on n nodes leaves.
fn left_over(items: &[u32], bytes: usize, n: usize) -> usize
    requires { Runs items.now n bytes }
    ensures { (q : Query) → decode items.now ≡ some q → n * height q + result ≤ bytes }
{
    let Some(shape) = shape::measure(items) else {
        return 0;
    };
    bytes - n * shape.height
}

// How many sets of n nodes are kept in so many bytes.
fn slots_in(bytes: usize, n: usize) -> usize
    requires { 0 < n }
    ensures { (result ≤ 32) × (n * result ≤ bytes) }
{
    (bytes / n).min(MOST)
}

// Copies a set of n nodes from one place to another.
fn copy_set(sets: &mut [u8], from: usize, to: usize, n: usize)
    requires { (from + n ≤ length sets.old) × (to + n ≤ length sets.old) × ((from + n ≤ to) ⊎ (to + n ≤ from)) }
    ensures { Copied from to n sets.old sets.new }
{
    for i in 0..n {
        sets[to + i] = sets[from + i];
    }
}

// Do so many equal items stand at both places?
fn same(items: &[u32], a: usize, b: usize, count: usize) -> bool
    requires { (a + count ≤ length items.now) × (b + count ≤ length items.now) }
    ensures { result ≡ true → take count (drop a items.now) ≡ take count (drop b items.now) }
{
    for i in 0..count {
        let x = items[a + i];
        let y = items[b + i];
        if x != y {
            return false;
        }
    }
    true
}

// The number of the entry whose items stand at the place too, if there is one.
fn find(items: &[u32], at: usize, known: &[usize]) -> Option<usize>
    requires { (at ≤ length items.now) × (Inside items.now known.now) }
    ensures { (slot : ℕ) → result ≡ Some slot → (slot < length known.now) × Stands items.now at (get_or known.now slot 0) }
{
    for (slot, &span) in known.iter().enumerate() {
        if span == 0 {
            return None;
        }
        let count = span % SPAN;
        if count <= items.len() - at && same(items, span / SPAN, at, count) {
            return Some(slot);
        }
    }
    None
}

// The number of the first entry that is free, if one is.
fn free(known: &[usize]) -> Option<usize>
    ensures { (slot : ℕ) → result ≡ Some slot → slot < length known.now }
{
    known.iter().position(|&span| span == 0)
}

// Keeps the first set, of the items from one place to another, where they are worth it, an entry can say them, and one is free.
fn remember(sets: &mut [u8], known: &mut [usize], n: usize, at: usize, next: usize)
    requires { (n + n * length known.old ≤ length sets.old) × (at ≤ next) }
    ensures { Remembered n at next known.old sets.old known.new sets.new }
{
    if next - at < LEAST || SPAN <= next {
        return;
    }
    let Some(slot) = free(known) else {
        return;
    };
    let to = sets.len() - n * (known.len() - slot);
    copy_set(sets, 0, to, n);
    known[slot] = at * SPAN + (next - at);
}

// An expression: terms of `or`, each of them operands of `and`. Its set comes first in `sets`. Answers where it ends.
#[cycle(expression_operand_path_predicate_predicates)]
fn expression(
    items: &[u32],
    at: usize,
    depth: usize,
    parent: &[u16],
    kind: &[u16],
    given: &[u8],
    sets: &mut [u8],
    known: &mut [usize],
) -> usize
    requires depth_le_bracket_limit { depth ≤ bracket_limit }
    requires ready { Ready parent.now kind.now given.now }
    requires fits { Fits items.now at (length parent.now) (spare (length known.old) (length parent.now) sets.old) (take_expr (take_within depth) (drop at items.now)) height_expr }
    requires kept { Kept (table_of parent.now kind.now) given.now items.now (length parent.now) known.old sets.old }
    ensures evaluates { Evaluates items.now at (length parent.now) (take_expr (take_within depth) (drop at items.now)) (holds (table_of parent.now kind.now) given.now) result sets.new }
    ensures kept_2 { Kept (table_of parent.now kind.now) given.now items.now (length parent.now) known.new sets.new }
{
    let n = parent.len();
    let mut ors = shape::run_of(items, at, item::OR);
    let mut ands = shape::run_of(items, at + ors, item::AND);
    let mut place = at + ors + ands;
    // So far the expression's set has `base` bytes and the term's, behind it, has `held`: none or all of them.
    let mut base = 0;
    let mut held = 0;
    loop {
        place = operand(
            items,
            place,
            depth,
            parent,
            kind,
            given,
            &mut sets[base + held..],
            known,
        );
        narrow(sets, base, held, n);
        held = n;
        if 0 < ands {
            ands -= 1;
        } else {
            widen(sets, base, n);
            if ors == 0 {
                return place;
            }
            ors -= 1;
            ands = shape::run_of(items, place, item::AND);
            place += ands;
            base = n;
            held = 0;
        }
    }
}

// An operand of `and`: a path, or what stands in a bracket of `not`, `and` or `or`.
#[cycle(expression_operand_path_predicate_predicates)]
fn operand(
    items: &[u32],
    at: usize,
    depth: usize,
    parent: &[u16],
    kind: &[u16],
    given: &[u8],
    sets: &mut [u8],
    known: &mut [usize],
) -> usize
    requires depth_le_bracket_limit { depth ≤ bracket_limit }
    requires ready { Ready parent.now kind.now given.now }
    requires fits { Fits items.now at (length parent.now) (spare (length known.old) (length parent.now) sets.old) (take_operand (take_within depth) (drop at items.now)) height_expr }
    requires kept { Kept (table_of parent.now kind.now) given.now items.now (length parent.now) known.old sets.old }
    ensures evaluates { Evaluates items.now at (length parent.now) (take_operand (take_within depth) (drop at items.now)) (holds (table_of parent.now kind.now) given.now) result sets.new }
    ensures kept_2 { Kept (table_of parent.now kind.now) given.now items.now (length parent.now) known.new sets.new }
{
    let n = parent.len();
    let item = item::unpack(items[at]);
    if let Item::Path(count) = item {
        return path(
            items,
            at + 1,
            count,
            depth,
            parent,
            kind,
            given,
            sets,
            known,
        );
    }
    if let Item::Not = item {
        let next = expression(items, at + 1, depth - 1, parent, kind, given, sets, known);
        sets::flip(&mut sets[..n]);
        return next;
    }
    expression(items, at, depth - 1, parent, kind, given, sets, known)
}

// A path in a predicate, from its last step back: the nodes from which its steps find a node.
#[cycle(expression_operand_path_predicate_predicates)]
fn path(
    items: &[u32],
    at: usize,
    count: usize,
    depth: usize,
    parent: &[u16],
    kind: &[u16],
    given: &[u8],
    sets: &mut [u8],
    known: &mut [usize],
) -> usize
    requires depth_le_bracket_limit { depth ≤ bracket_limit }
    requires ready { Ready parent.now kind.now given.now }
    requires fits { Fits items.now at (length parent.now) (spare (length known.old) (length parent.now) sets.old) (take_steps (take_within depth) count (drop at items.now)) (λ s. 1 + height_steps s) }
    requires kept { Kept (table_of parent.now kind.now) given.now items.now (length parent.now) known.old sets.old }
    ensures evaluates { Evaluates items.now at (length parent.now) (take_steps (take_within depth) count (drop at items.now)) (finds (table_of parent.now kind.now) given.now) result sets.new }
    ensures kept_2 { Kept (table_of parent.now kind.now) given.now items.now (length parent.now) known.new sets.new }
{
    let n = parent.len();
    sets::fill(&mut sets[..n], 1);
    let mut places = look_first(items, at, count, depth);
    let end = places.place;
    let mut left = count;
    while 0 < left {
        left -= 1;
        places = look(items, at, Some(&places), left, depth);
        let place = places.place;
        let step = step_at(items, place);
        restrict(kind, given, step.test, &mut sets[..n]);
        predicates(
            items,
            place + 1,
            step.count,
            depth,
            parent,
            kind,
            given,
            sets,
            known,
        );
        axes::along(parent, item::turn(step.axis), &mut sets[..n]);
    }
    end
}

// A predicate: its set is copied where equal items have been worked out before; otherwise it is worked out, and kept.
#[cycle(expression_operand_path_predicate_predicates)]
fn predicate(
    items: &[u32],
    at: usize,
    depth: usize,
    parent: &[u16],
    kind: &[u16],
    given: &[u8],
    sets: &mut [u8],
    known: &mut [usize],
) -> usize
    requires depth_le_bracket_limit { depth ≤ bracket_limit }
    requires ready { Ready parent.now kind.now given.now }
    requires fits { Fits items.now at (length parent.now) (spare (length known.old) (length parent.now) sets.old) (take_expr (take_within depth) (drop at items.now)) height_expr }
    requires kept { Kept (table_of parent.now kind.now) given.now items.now (length parent.now) known.old sets.old }
    ensures evaluates { Evaluates items.now at (length parent.now) (take_expr (take_within depth) (drop at items.now)) (holds (table_of parent.now kind.now) given.now) result sets.new }
    ensures kept_2 { Kept (table_of parent.now kind.now) given.now items.now (length parent.now) known.new sets.new }
{
    let n = parent.len();
    if let Some(slot) = find(items, at, known) {
        let from = sets.len() - n * (known.len() - slot);
        copy_set(sets, from, 0, n);
        return at + known[slot] % SPAN;
    }
    let next = expression(items, at, depth, parent, kind, given, sets, known);
    remember(sets, known, n, at, next);
    next
}

// Keeps of the first set the nodes at which so many predicates hold.
#[cycle(expression_operand_path_predicate_predicates)]
fn predicates(
    items: &[u32],
    at: usize,
    count: usize,
    depth: usize,
    parent: &[u16],
    kind: &[u16],
    given: &[u8],
    sets: &mut [u8],
    known: &mut [usize],
) -> usize
    requires depth_le_bracket_limit { depth ≤ bracket_limit }
    requires ready { Ready parent.now kind.now given.now }
    requires fits { Fits items.now at (length parent.now) (spare (length known.old) (length parent.now) sets.old) (take_preds (take_within depth) count (drop at items.now)) (λ ps. 1 + height_preds ps) }
    requires kept { Kept (table_of parent.now kind.now) given.now items.now (length parent.now) known.old sets.old }
    ensures narrows { Narrows items.now at (length parent.now) (take_preds (take_within depth) count (drop at items.now)) (all_hold (table_of parent.now kind.now) given.now) result sets.old sets.new }
    ensures kept_2 { Kept (table_of parent.now kind.now) given.now items.now (length parent.now) known.new sets.new }
{
    let n = parent.len();
    let mut place = at;
    for _ in 0..count {
        place = predicate(
            items,
            place,
            depth - 1,
            parent,
            kind,
            given,
            &mut sets[n..],
            known,
        );
        sets::keep_second(sets, n);
    }
    place
}

// Moves the first set forward along so many steps of a top-level path. Answers where they end.
fn forward(
    items: &[u32],
    at: usize,
    count: usize,
    parent: &[u16],
    kind: &[u16],
    given: &[u8],
    sets: &mut [u8],
    known: &mut [usize],
) -> usize
    requires ready { Ready parent.now kind.now given.now }
    requires fits { Fits items.now at (length parent.now) (spare (length known.old) (length parent.now) sets.old) (take_steps (take_within bracket_limit) count (drop at items.now)) (λ s. 1 + height_steps s) }
    requires kept { Kept (table_of parent.now kind.now) given.now items.now (length parent.now) known.old sets.old }
    ensures moves { Moves items.now at (table_of parent.now kind.now) given.now (take_steps (take_within bracket_limit) count (drop at items.now)) result sets.old sets.new }
    ensures kept_2 { Kept (table_of parent.now kind.now) given.now items.now (length parent.now) known.new sets.new }
{
    let n = parent.len();
    let mut place = at;
    for _ in 0..count {
        let step = step_at(items, place);
        axes::along(parent, step.axis, &mut sets[..n]);
        restrict(kind, given, step.test, &mut sets[..n]);
        place = predicates(
            items,
            place + 1,
            step.count,
            paper::BRACKET_LIMIT,
            parent,
            kind,
            given,
            sets,
            known,
        );
    }
    place
}

// Makes the set that of the root alone, or empty where the root is unmarked.
fn start(given: &[u8], set: &mut [u8])
    requires { (0 < length set.old) × (length given.now ≡ length set.old) × (given.now ≡ bits (length set.old) (marked given.now)) }
    ensures { set.new ≡ bits (length set.old) (λ i. eqb i 0 && marked given.now 0) }
{
    sets::fill(set, 0);
    set[0] = given[0];
}

// Marks the nodes that the query selects.
fn select(
    items: &[u32],
    parent: &[u16],
    kind: &[u16],
    given: &[u8],
    marks: &mut [u8],
    sets: &mut [u8],
    known: &mut [usize],
)
    requires ready { Ready parent.now kind.now given.now }
    requires marks_len { length marks.old ≡ length parent.now }
    requires runs { Runs items.now (length parent.now) (spare (length known.old) (length parent.now) sets.old) }
    requires kept { Kept (table_of parent.now kind.now) given.now items.now (length parent.now) known.old sets.old }
    ensures { (q : Query) → decode items.now ≡ some q → marks.new ≡ bits (length parent.now) (selects (table_of parent.now kind.now) given.now q) }
{
    let n = parent.len();
    sets::fill(marks, 0);
    let mut place = 0;
    while place < items.len() {
        let count = path_at(items, place);
        start(given, &mut sets[..n]);
        place = forward(items, place + 1, count, parent, kind, given, sets, known);
        sets::add(&sets[..n], marks);
    }
}

// Marks the nodes that the query keeps, and clears the sets.
pub fn keep(
    items: &[u32],
    parent: &[u16],
    kind: &[u16],
    given: &[u8],
    marks: &mut [u8],
    sets: &mut [u8],
)
    requires ready { Ready parent.now kind.now given.now }
    requires marks_len { length marks.old ≡ length parent.now }
    requires runs { Runs items.now (length parent.now) (length sets.old) }
    ensures marks_after { (q : Query) → decode items.now ≡ some q → marks.new ≡ kept (table_of parent.now kind.now) given.now q }
    ensures sets_after { sets.new ≡ replicate (length sets.old) 0 }
{
    let n = parent.len();
    let mut known = [0usize; MOST];
    let left = left_over(items, sets.len(), n);
    let slots = slots_in(left, n);
    select(items, parent, kind, given, marks, sets, &mut known[..slots]);
    spread(parent, kind, given, marks, &mut sets[..n]);
    sets::fill(sets, 0);
}
