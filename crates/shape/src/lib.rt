// A query in memory: is it one, and then its nesting and height, and how deep its guarded steps stand. Recursion opens a bracket each time, so it is at most one deeper than brackets may be.
#![tactic(auto)]

ghost use Rattle.std.specs.Prelude.{◌≡◌, ◌+◌, ◌≤◌, length, drop};
ghost use Rattle.paper.specs.Limits.{bracket_limit};
ghost use Rattle.paper.specs.Items.{leading, take_preds, take_steps, take_operand, take_expr, take_within, decode};
ghost use Rattle.paper.specs.Measures.{nest_expr, nest_steps, nest_preds, height_expr, height_steps, height_preds};
ghost use Rattle.shape.specs.Walks.{Small, raised_by, Walks, nest_operand, open_in_expr, open_in_operand, open_in_steps, open_in_preds, shape_of};

use item::Item;

// What a walk over items finds: where it ends, with nesting, height and the most brackets open at a guarded step, 0 where there is none.
#[derive(Clone, Copy)]
pub struct Walked {
    pub next: usize,
    pub nesting: usize,
    pub height: usize,
    pub guards: usize,
}

// What a query is like: its nesting, its height and the most brackets open at a guarded step, 0 where there is none.
#[derive(Clone, Copy)]
pub struct Shape {
    pub nesting: usize,
    pub height: usize,
    pub guards: usize,
}

impl Walked {
    // The walk with more nesting and height.
    fn raised(self, nesting: usize, height: usize) -> Walked
        requires { (Small self) × (nesting ≤ 1) × (height ≤ 1) }
        ensures { result ≡ raised_by self nesting height }
    {
        Walked {
            nesting: self.nesting + nesting,
            height: self.height + height,
            ..self
        }
    }
}

// How many of the items from `at` on are this one.
pub fn run_of(items: &[u32], at: usize, item: u32) -> usize
    requires { at ≤ length items.now }
    ensures { (result ≡ leading item (drop at items.now)) × (at + result ≤ length items.now) }
{
    items[at..]
        .iter()
        .position(|&other| other != item)
        .unwrap_or(items.len() - at)
}

// An expression: terms of `or`, each of them operands of `and`.
#[cycle(expression_operand_predicates_steps)]
fn expression(items: &[u32], at: usize, depth: usize) -> Option<Walked>
    requires { (at ≤ length items.now) × (depth ≤ bracket_limit) }
    ensures { Walks items.now at depth (take_expr (take_within depth) (drop at items.now)) nest_expr height_expr (open_in_expr depth) result }
{
    let mut ors = run_of(items, at, item::OR);
    let mut ands = run_of(items, at + ors, item::AND);
    let mut place = at + ors + ands;
    let mut deep = 0usize;
    let mut high = 0usize;
    let mut guarded = 0usize;
    let mut term = 0;
    loop {
        let one = operand(items, place, depth)?;
        place = one.next;
        deep = deep.max(one.nesting);
        guarded = guarded.max(one.guards);
        term = heights::joined(term, one.height);
        if 0 < ands {
            ands -= 1;
        } else {
            high = heights::joined(high, term);
            if ors == 0 {
                return Some(Walked {
                    next: place,
                    nesting: deep,
                    height: high,
                    guards: guarded,
                });
            }
            ors -= 1;
            ands = run_of(items, place, item::AND);
            place += ands;
            term = 0;
        }
    }
}

// An operand of `and`: a path, or what stands in a bracket of `not`, `and` or `or`.
#[cycle(expression_operand_predicates_steps)]
fn operand(items: &[u32], at: usize, depth: usize) -> Option<Walked>
    requires { (at ≤ length items.now) × (depth ≤ bracket_limit) }
    ensures { Walks items.now at depth (take_operand (take_within depth) (drop at items.now)) nest_operand height_expr (open_in_operand depth) result }
{
    if items.len() <= at {
        return None;
    }
    let item = item::unpack(items[at]);
    if let Item::Path(count) = item {
        if count == 0 {
            return None;
        }
        return Some(steps(items, at + 1, count, depth)?.raised(0, 1));
    }
    if depth == 0 {
        return None;
    }
    match item {
        Item::And | Item::Or => Some(expression(items, at, depth - 1)?.raised(1, 0)),
        Item::Not => Some(expression(items, at + 1, depth - 1)?.raised(1, 1)),
        _ => None,
    }
}

// So many steps of a path, each with its predicates.
#[cycle(expression_operand_predicates_steps)]
pub fn steps(items: &[u32], at: usize, count: usize, depth: usize) -> Option<Walked>
    requires { (at ≤ length items.now) × (depth ≤ bracket_limit) }
    ensures { Walks items.now at depth (take_steps (take_within depth) count (drop at items.now)) nest_steps height_steps (open_in_steps depth) result }
{
    let mut place = at;
    let mut deep = 0usize;
    let mut high = 0usize;
    let mut guarded = 0usize;
    for _ in 0..count {
        if items.len() <= place {
            return None;
        }
        let item = item::unpack(items[place]);
        let Item::Step(step) = item else {
            return None;
        };
        guarded = guarded.max(heights::own_depth(step.axis, depth));
        let more = predicates(items, place + 1, step.count, depth)?;
        place = more.next;
        deep = deep.max(more.nesting);
        high = high.max(more.height);
        guarded = guarded.max(more.guards);
    }
    Some(Walked {
        next: place,
        nesting: deep,
        height: high,
        guards: guarded,
    })
}

// So many predicates, each an expression in its bracket.
#[cycle(expression_operand_predicates_steps)]
fn predicates(items: &[u32], at: usize, count: usize, depth: usize) -> Option<Walked>
    requires { (at ≤ length items.now) × (depth ≤ bracket_limit) }
    ensures { Walks items.now at depth (take_preds (take_within depth) count (drop at items.now)) nest_preds height_preds (open_in_preds depth) result }
{
    let mut place = at;
    let mut deep = 0usize;
    let mut high = 0usize;
    let mut guarded = 0usize;
    for _ in 0..count {
        if depth == 0 {
            return None;
        }
        let more = expression(items, place, depth - 1)?;
        place = more.next;
        deep = deep.max(more.nesting + 1);
        high = high.max(more.height);
        guarded = guarded.max(more.guards);
    }
    Some(Walked {
        next: place,
        nesting: deep,
        height: high,
        guards: guarded,
    })
}

// The shape of a query, or that a slice is none.
pub fn measure(items: &[u32]) -> Option<Shape>
    ensures { result ≡ shape_of (decode items.now) }
{
    if items.is_empty() {
        return None;
    }
    let mut place = 0;
    let mut deep = 0usize;
    let mut high = 0usize;
    let mut guarded = 0usize;
    while place < items.len() {
        let item = item::unpack(items[place]);
        let Item::Path(count) = item else {
            return None;
        };
        let more = steps(items, place + 1, count, paper::BRACKET_LIMIT)?;
        place = more.next;
        deep = deep.max(more.nesting);
        high = high.max(more.height + 1);
        guarded = guarded.max(more.guards);
    }
    Some(Shape {
        nesting: deep,
        height: high,
        guards: guarded,
    })
}
