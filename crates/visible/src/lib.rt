// The items of V and of the last step that every top-level path gets: S stands once, further on in the output, and is copied from there.
#![tactic(auto)]

ghost use Rattle.std.specs.Prelude.{◌≡◌, ◌+◌, ◌≤◌, ◌<◌, length, take, drop};
ghost use Rattle.paper.specs.Items.{axis_bound};
ghost use Rattle.item.specs.Placed.{placed};
ghost use Rattle.visible.specs.Visible.{some_node_items, visible_items, last_items};

use item::Step;

// Copies items that stand further on in the output.
fn copy(out: &mut [u32], at: usize, from: usize, count: usize)
    requires { (at ≤ from) × (from + count ≤ length out.old) }
    ensures { out.new ≡ placed (take count (drop from out.old)) at out.old }
{
    for done in 0..count {
        out[at + done] = out[from + done];
    }
}

// `axis::node()[S]`, with S copied from further on.
fn put_some_node(axis: u32, out: &mut [u32], at: usize, from: usize, count: usize) -> usize
    requires { (axis < axis_bound) × (at + 2 ≤ from) × (from + count ≤ length out.old) }
    ensures { (out.new ≡ placed (some_node_items axis (take count (drop from out.old))) at out.old) × (result ≡ at + 2 + count) }
{
    out[at] = item::pack_path(1);
    out[at + 1] = item::pack_step(Step {
        axis,
        test: item::ANY_NODE,
        count: 1,
    });
    copy(out, at + 2, from, count);
    at + 2 + count
}

// V, with S copied from further on.
pub fn put_visible(out: &mut [u32], at: usize, from: usize, count: usize) -> usize
    requires { (at + 5 + count + count ≤ from) × (from + count ≤ length out.old) }
    ensures { (out.new ≡ placed (visible_items (take count (drop from out.old))) at out.old) × (result ≡ at + 5 + count + count) }
{
    out[at] = item::OR;
    let second = put_some_node(item::DESCENDANT_OR_SELF, out, at + 1, from, count);
    put_some_node(item::ANCESTOR_OR_SELF, out, second, from, count)
}

// The last step of every top-level path.
pub fn put_last(out: &mut [u32], at: usize, from: usize, count: usize) -> usize
    requires { (at + 3 ≤ from) × (from + count ≤ length out.old) }
    ensures { (out.new ≡ placed (last_items (take count (drop from out.old))) at out.old) × (result ≡ at + 3 + count) }
{
    out[at] = item::pack_step(Step {
        axis: item::DESCENDANT_OR_SELF,
        test: item::ANY_NODE,
        count: 1,
    });
    put_some_node(item::ANCESTOR_OR_SELF, out, at + 1, from, count)
}
