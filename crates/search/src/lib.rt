// Which nodes a query selects and keeps, by the definition of selection: one node and one step at a time, with no sets.
#![tactic(auto)]

ghost use Rattle.std.specs.Prelude.{◌+◌, ◌≤◌, ◌<◌, ◌≡◌, true, length, get_or, take, drop};
ghost use Rattle.std.proofs.Math.Option.{some};
ghost use Rattle.paper.specs.Limits.{bracket_limit, item_limit};
ghost use Rattle.paper.specs.Query.{Query};
ghost use Rattle.paper.specs.Document.{table_of};
ghost use Rattle.paper.specs.Items.{Head, step_at, leading, decode, take_preds, take_steps, take_operand, take_expr, take_within};
ghost use Rattle.paper.specs.Selection.{holds, all_hold, selects, kept};
ghost use Rattle.candidates.specs.Best.{Ready};
ghost use Rattle.shape.specs.Ending.{Readable, Ends};
ghost use Rattle.search.specs.Searches.{StepSaid, Fits, Decides, Settles, StepFits, Seeks, last_of, ending, goes};

use candidates::candidate;
use item::{Item, Step};
use kin::spread;
use owed::skip;

// ONE ITEM, AND A RUN OF ONE.

// The step at a place where one stands.
fn step_at(items: &[u32], place: usize) -> Step
    requires { (place < length items.now) × ((h : Head) × (step_at (get_or items.now place 0) ≡ some h)) }
    ensures { StepSaid (get_or items.now place 0) result }
{
    let item = item::unpack(items[place]);
    match item {
        Item::Step(step) => step,
        _ => Step {
            axis: item::SELF,
            test: item::ANY_NODE,
            count: 0,
        },
    }
}

// How many items from a place on are this operator's, one for each part that it joins to the first.
fn joins(items: &[u32], at: usize, operator: u32) -> usize
    requires { at ≤ length items.now }
    ensures { (result ≡ leading operator (drop at items.now)) × (at + result ≤ length items.now) }
{
    items[at..]
        .iter()
        .position(|&item| item != operator)
        .unwrap_or(items.len() - at)
}

// Where k steps led that stand at the nodes of the list: to the last of them, or nowhere from the node.
fn stood(stand: &[u16], k: usize, node: usize) -> usize
    requires { k ≤ length stand.now }
    ensures { result ≡ last_of node (take k stand.now) }
{
    if k == 0 {
        node
    } else {
        usize::from(stand[k - 1])
    }
}

// Is this the node wanted? Where the number wanted is that of the nodes, any is.
fn arrived(node: usize, wanted: usize, n: usize) -> bool
    ensures { result ≡ ending n wanted node }
{
    (wanted == n) | (node == wanted)
}

// THE SEARCH.

// What items say of a node: where they end, and whether it holds.
#[derive(Clone, Copy)]
pub struct Held {
    pub next: usize,
    pub holds: bool,
}

// The node found, and where the step's items end.
#[derive(Clone, Copy)]
pub struct Sought {
    pub node: usize,
    pub next: usize,
}

// An expression: terms of `or`, each of them operands of `and`. Does it hold at the node?
#[cycle(expression_operand_path_predicates_seek)]
fn expression(
    items: &[u32],
    at: usize,
    depth: usize,
    parent: &[u16],
    kind: &[u16],
    given: &[u8],
    node: usize,
    stand: &mut [u16],
) -> Held
    requires depth_le_bracket_limit { depth ≤ bracket_limit }
    requires ready { Ready parent.now kind.now given.now }
    requires node_in_bounds { node < length parent.now }
    requires fits { Fits items.now at (length stand.old) (take_expr (take_within depth) (drop at items.now)) }
    ensures { Decides items.now at (take_expr (take_within depth) (drop at items.now)) (λ e. holds (table_of parent.now kind.now) given.now e node) result }
{
    let mut ors = joins(items, at, item::OR);
    let mut ands = joins(items, at + ors, item::AND);
    let mut place = at + ors + ands;
    let mut any = false;
    let mut all = true;
    loop {
        let one = operand(items, place, depth, parent, kind, given, node, stand);
        place = one.next;
        all = all & one.holds;
        if 0 < ands {
            ands -= 1;
        } else {
            any = any | all;
            if ors == 0 {
                return Held {
                    next: place,
                    holds: any,
                };
            }
            ors -= 1;
            ands = joins(items, place, item::AND);
            place += ands;
            all = true;
        }
    }
}

// An operand of `and`: a path, or what stands in a bracket of `not`, `and` or `or`.
#[cycle(expression_operand_path_predicates_seek)]
fn operand(
    items: &[u32],
    at: usize,
    depth: usize,
    parent: &[u16],
    kind: &[u16],
    given: &[u8],
    node: usize,
    stand: &mut [u16],
) -> Held
    requires depth_le_bracket_limit { depth ≤ bracket_limit }
    requires ready { Ready parent.now kind.now given.now }
    requires node_in_bounds { node < length parent.now }
    requires fits { Fits items.now at (length stand.old) (take_operand (take_within depth) (drop at items.now)) }
    ensures { Decides items.now at (take_operand (take_within depth) (drop at items.now)) (λ e. holds (table_of parent.now kind.now) given.now e node) result }
{
    let item = item::unpack(items[at]);
    if let Item::Path(count) = item {
        let holds = path(
            items,
            at + 1,
            count,
            depth,
            parent,
            kind,
            given,
            node,
            parent.len(),
            stand,
        );
        let next = skip(items, at + 1, count);
        return Held { next, holds };
    }
    if let Item::Not = item {
        let denied = expression(items, at + 1, depth - 1, parent, kind, given, node, stand);
        return Held {
            next: denied.next,
            holds: !denied.holds,
        };
    }
    expression(items, at, depth - 1, parent, kind, given, node, stand)
}

// Do so many steps lead from the node to the one wanted? The first k of them stand at nodes, the next one has candidates left below a bound, and where none is left the step before goes on.
#[cycle(expression_operand_path_predicates_seek)]
fn path(
    items: &[u32],
    at: usize,
    count: usize,
    depth: usize,
    parent: &[u16],
    kind: &[u16],
    given: &[u8],
    node: usize,
    wanted: usize,
    stand: &mut [u16],
) -> bool
    requires depth_le_bracket_limit { depth ≤ bracket_limit }
    requires ready { Ready parent.now kind.now given.now }
    requires node_in_bounds { node < length parent.now }
    requires fits { Fits items.now at (length stand.old) (take_steps (take_within depth) count (drop at items.now)) }
    ensures { Settles (take_steps (take_within depth) count (drop at items.now)) (λ s. goes (table_of parent.now kind.now) given.now (ending (length parent.now) wanted) s node) result }
{
    let n = parent.len();
    let mut k = 0;
    let mut place = at;
    let mut bound = n;
    loop {
        let from = stood(stand, k, node);
        if (k == count) & arrived(from, wanted, n) {
            return true;
        }
        let found = seek(
            items,
            place,
            k < count,
            depth,
            parent,
            kind,
            given,
            from,
            bound,
            &mut stand[k..],
        );
        match found {
            Some(sought) => {
                stand[k] = sought.node as u16;
                k += 1;
                place = sought.next;
                bound = n;
            }
            None => {
                if k == 0 {
                    return false;
                }
                k -= 1;
                place = skip(items, at, k);
                bound = usize::from(stand[k]);
            }
        }
    }
}

// The last node below a bound to which the step leads from a node and at which all its predicates hold; none where there is no step more.
#[cycle(expression_operand_path_predicates_seek)]
fn seek(
    items: &[u32],
    place: usize,
    more: bool,
    depth: usize,
    parent: &[u16],
    kind: &[u16],
    given: &[u8],
    from: usize,
    bound: usize,
    stand: &mut [u16],
) -> Option<Sought>
    requires depth_le_bracket_limit { depth ≤ bracket_limit }
    requires ready { Ready parent.now kind.now given.now }
    requires from_in_bounds { (from < length parent.now) × (bound ≤ length parent.now) }
    requires step_fits { more ≡ true → StepFits items.now place depth (length stand.old) }
    ensures { Seeks items.now place more depth (table_of parent.now kind.now) given.now from bound result }
{
    if !more {
        return None;
    }
    let step = step_at(items, place);
    let mut below = bound;
    loop {
        let node = candidate(parent, kind, given, step.axis, step.test, from, below)?;
        let held = predicates(
            items,
            place + 1,
            step.count,
            depth,
            parent,
            kind,
            given,
            node,
            stand,
        );
        if held.holds {
            return Some(Sought {
                node,
                next: held.next,
            });
        }
        below = node;
    }
}

// Do so many predicates hold at the node? None is looked at after one that does not.
#[cycle(expression_operand_path_predicates_seek)]
fn predicates(
    items: &[u32],
    at: usize,
    count: usize,
    depth: usize,
    parent: &[u16],
    kind: &[u16],
    given: &[u8],
    node: usize,
    stand: &mut [u16],
) -> Held
    requires depth_le_bracket_limit { depth ≤ bracket_limit }
    requires ready { Ready parent.now kind.now given.now }
    requires node_in_bounds { node < length parent.now }
    requires fits { Fits items.now at (length stand.old) (take_preds (take_within depth) count (drop at items.now)) }
    ensures { (Settles (take_preds (take_within depth) count (drop at items.now)) (λ ps. all_hold (table_of parent.now kind.now) given.now ps node) result.holds) × (result.holds ≡ true → Ends items.now at (take_preds (take_within depth) count (drop at items.now)) result.next) }
{
    let mut place = at;
    for _ in 0..count {
        let one = expression(items, place, depth - 1, parent, kind, given, node, stand);
        place = one.next;
        if !one.holds {
            return Held {
                next: place,
                holds: false,
            };
        }
    }
    Held {
        next: place,
        holds: true,
    }
}

// THE QUERY.

// Does the query select the node?
fn selected(
    items: &[u32],
    parent: &[u16],
    kind: &[u16],
    given: &[u8],
    wanted: usize,
    stand: &mut [u16],
) -> bool
    requires ready { Ready parent.now kind.now given.now }
    requires wanted_in_bounds { (wanted < length parent.now) × (length items.now ≤ length stand.old) × (length items.now ≤ item_limit) × (Readable (decode items.now)) }
    ensures { (q : Query) → decode items.now ≡ some q → result ≡ selects (table_of parent.now kind.now) given.now q wanted }
{
    if given[0] != 1 {
        return false;
    }
    let mut place = 0;
    while place < items.len() {
        let count = owed::owes(items[place]);
        if path(
            items,
            place + 1,
            count,
            paper::BRACKET_LIMIT,
            parent,
            kind,
            given,
            0,
            wanted,
            stand,
        ) {
            return true;
        }
        place = skip(items, place + 1, count);
    }
    false
}

// Marks the nodes that the query keeps.
fn keep(
    items: &[u32],
    parent: &[u16],
    kind: &[u16],
    given: &[u8],
    marks: &mut [u8],
    stand: &mut [u16],
)
    requires ready { Ready parent.now kind.now given.now }
    requires marks_len { (length marks.old ≡ length parent.now) × (length items.now ≤ length stand.old) × (length items.now ≤ item_limit) × (Readable (decode items.now)) }
    ensures { (q : Query) → decode items.now ≡ some q → marks.new ≡ kept (table_of parent.now kind.now) given.now q }
{
    marks.fill(0);
    for k in 0..parent.len() {
        if selected(items, parent, kind, given, k, stand) {
            spread(parent, given, k, marks);
        }
    }
}

// Marks the nodes that the query keeps, with places of its own for the nodes at which steps stand.
pub fn mark_kept(items: &[u32], parent: &[u16], kind: &[u16], given: &[u8], marks: &mut [u8])
    requires ready { Ready parent.now kind.now given.now }
    requires marks_len { (length marks.old ≡ length parent.now) × (length items.now ≤ item_limit) × (Readable (decode items.now)) }
    ensures { (q : Query) → decode items.now ≡ some q → marks.new ≡ kept (table_of parent.now kind.now) given.now q }
{
    let mut stand = [0u16; paper::ITEM_LIMIT];
    keep(items, parent, kind, given, marks, &mut stand);
}
