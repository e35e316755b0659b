// S of an inner query: the reverses of its paths joined by `or`, written in memory.
// A path is reversed in one pass over its items, which writes the way back from its end to its start.
#![tactic(auto)]

ghost use Rattle.std.specs.Prelude.{◌≡◌, ◌+◌, ◌*◌, ◌≤◌, ◌<◌, true, length};
ghost use Rattle.paper.specs.Limits.{item_limit};
ghost use Rattle.paper.specs.Query.{Steps, any_node, stop, bare, pred};
ghost use Rattle.paper.specs.Items.{step_count, encode_expr, encode_steps, good_steps, decode, count_limit};
ghost use Rattle.paper.specs.Composition.{at_root, way_back, reversed};
ghost use Rattle.item.specs.Placed.{placed};
ghost use Rattle.reverse.specs.Reverses.{IsQuery, paths_got, StepSaid, reversed_items, each_got, selected_got};

use item::{Item, Step};
pub use owed::{owes, skip};

// How many top-level paths a query has.
pub fn count_paths(items: &[u32]) -> usize
    requires { (IsQuery items.now) × (length items.now ≤ item_limit) }
    ensures { result ≡ paths_got (decode items.now) }
{
    let mut place = 0;
    let mut paths = 0;
    while place < items.len() {
        place = skip(items, place + 1, owes(items[place]));
        paths += 1;
    }
    paths
}

// What a step item says.
fn as_step(w: u32) -> Step
    ensures { StepSaid w result }
{
    let item = item::unpack(w);
    let Item::Step(step) = item else {
        return Step {
            axis: item::SELF,
            test: item::ANY_NODE,
            count: 0,
        };
    };
    step
}

// `not(parent::node())`, three items.
fn put_at_root(out: &mut [u32], at: usize)
    requires { at + 3 ≤ length out.old }
    ensures { out.new ≡ placed (encode_expr at_root) at out.old }
{
    out[at] = item::NOT;
    out[at + 1] = item::pack_path(1);
    out[at + 2] = item::pack_step(Step {
        axis: item::PARENT,
        test: item::ANY_NODE,
        count: 0,
    });
}

// The way back over the steps of a path, written from its end to its start: each step's test and predicates follow the turned axis of the step after it.
fn put_way_back(steps: &[u32], out: &mut [u32], at: usize)
    requires { (length steps.now ≤ item_limit) × (at + length steps.now + 4 ≤ length out.old) }
    ensures { (length out.new ≡ length out.old)
        × ((s : Steps) → steps.now ≡ encode_steps s → good_steps s ≡ true
        → out.new ≡ placed (encode_steps (way_back any_node (pred at_root bare) stop s)) at out.old) }
{
    let mut back = at + 1 + steps.len();
    put_at_root(out, back);
    let mut place = 0;
    let mut test = item::ANY_NODE;
    let mut count = 1;
    while place < steps.len() {
        let step = as_step(steps[place]);
        let next = skip(steps, place + 1, step.count);
        out[back - 1] = item::pack_step(Step {
            axis: item::turn(step.axis),
            test,
            count,
        });
        back -= next - place;
        item::put_items(&steps[place + 1..next], out, back);
        place = next;
        test = step.test;
        count = step.count;
    }
    out[at] = item::pack_step(Step {
        axis: item::SELF,
        test,
        count,
    });
}

// The reverse of a path, from its items and the number of its steps.
fn put_reverse(steps: &[u32], count: usize, out: &mut [u32], at: usize)
    requires { (length steps.now ≤ item_limit) × (count < count_limit) × (at + length steps.now + 5 ≤ length out.old) }
    ensures { (length out.new ≡ length out.old)
        × ((s : Steps) → steps.now ≡ encode_steps s → good_steps s ≡ true → count ≡ step_count s
        → out.new ≡ placed (encode_expr (reversed s)) at out.old) }
{
    out[at] = item::pack_path(count + 1);
    put_way_back(steps, out, at + 1);
}

// The reverses of the inner paths, one after the other.
fn put_reverses(inner: &[u32], out: &mut [u32], start: usize)
    requires { (IsQuery inner.now) × (length inner.now ≤ item_limit) × (start + length (each_got reversed_items (decode inner.now)) ≤ length out.old) }
    ensures { out.new ≡ placed (each_got reversed_items (decode inner.now)) start out.old }
{
    let mut place = 0;
    let mut at = start;
    while place < inner.len() {
        let count = owes(inner[place]);
        let next = skip(inner, place + 1, count);
        put_reverse(&inner[place + 1..next], count, out, at);
        at += next - place + 4;
        place = next;
    }
}

// S: the reverses of the inner paths joined by `or`.
pub fn put_selected(inner: &[u32], paths: usize, out: &mut [u32], at: usize)
    requires { (IsQuery inner.now) × (length inner.now ≤ item_limit) × (paths ≡ paths_got (decode inner.now)) × (at + length (selected_got (decode inner.now)) ≤ length out.old) }
    ensures { out.new ≡ placed (selected_got (decode inner.now)) at out.old }
{
    item::put_same(out, at, paths - 1, item::OR);
    put_reverses(inner, out, at + (paths - 1));
}

// The size of S: 01's w(inner) + 5k - 1.
pub fn selected_size(inner: &[u32], paths: usize) -> usize
    requires { (IsQuery inner.now) × (length inner.now ≤ item_limit) × (paths ≡ paths_got (decode inner.now)) }
    ensures { (result ≡ length (selected_got (decode inner.now))) × (result ≤ 6 * item_limit) }
{
    inner.len() + 5 * paths - 1
}
