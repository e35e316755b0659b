// The items of a composition and their number. S is written once, at the end of the output, and copied from there; guarding is one pass over the outer items.
#![tactic(auto)]

ghost use Rattle.std.specs.Prelude.{◌≡◌, ◌+◌, ◌*◌, ◌≤◌, length, take, drop};
ghost use Rattle.paper.specs.Limits.{item_limit};
ghost use Rattle.paper.specs.Items.{decode};
ghost use Rattle.paper.specs.Tools.{written};
ghost use Rattle.paper.specs.Answers.{made_got};
ghost use Rattle.paper.specs.Lean.{composed_by};
ghost use Rattle.item.specs.Placed.{placed};
ghost use Rattle.reverse.specs.Reverses.{IsQuery, paths_got, each_got, selected_got};
ghost use Rattle.composed.specs.Pieces.{guarded_path, size_got, Says};

// The outer paths, each guarded and with the last step at its end; S stands at `from`, the end of all this.
fn guard_paths(outer: &[u32], out: &mut [u32], from: usize, count: usize, says: &[u32])
    requires { (Says outer.now says.now) × (length outer.now ≤ item_limit)
        × ((g : Says outer.now says.now) → length (each_got (guarded_path g.decides (take count (drop from out.old))) (decode outer.now)) ≤ from + count)
        × (from + count ≤ length out.old) }
    ensures { (g : Says outer.now says.now)
        → out.new ≡ placed (each_got (guarded_path g.decides (take count (drop from out.old))) (decode outer.now)) 0 out.old }
{
    let mut place = 0;
    let mut at = 0;
    while place < outer.len() {
        let steps = owed::owes(outer[place]);
        let next = owed::skip(outer, place + 1, steps);
        out[at] = item::pack_path(steps + 1);
        let end = guards::guard_steps(
            &outer[place + 1..next],
            out,
            at + 1,
            from,
            count,
            &says[place + 1..next],
        );
        at = visible::put_last(out, end, from, count);
        place = next;
    }
}

// S goes to the end of the output, and the guarded paths before it copy it from there.
pub fn put_composed(
    outer: &[u32],
    inner: &[u32],
    paths: usize,
    out: &mut [u32],
    size: usize,
    count: usize,
    says: &[u32],
)
    requires { (Says outer.now says.now) × (length outer.now ≤ item_limit) × (IsQuery inner.now) × (length inner.now ≤ item_limit) × (paths ≡ paths_got (decode inner.now))
        × (count ≡ length (selected_got (decode inner.now)))
        × ((g : Says outer.now says.now) → size ≡ length (made_got (composed_by g.decides) (decode outer.now) (decode inner.now))) × (size ≤ length out.old) }
    ensures { (g : Says outer.now says.now)
        → out.new ≡ written (made_got (composed_by g.decides) (decode outer.now) (decode inner.now)) out.old }
{
    let from = size - count;
    reverse::put_selected(inner, paths, out, from);
    guard_paths(outer, out, from, count, says);
}

// The size of the composition: w(outer) + t(5 + 2s) + m(3 + s), with t the guarded steps.
pub fn composed_size(outer: &[u32], count: usize, says: &[u32]) -> usize
    requires { (Says outer.now says.now) × (length outer.now ≤ item_limit) × (count ≤ 6 * item_limit) }
    ensures { (g : Says outer.now says.now) → result ≡ size_got g.decides (decode outer.now) count }
{
    let guards = guards::count_guards(says);
    let paths = reverse::count_paths(outer);
    outer.len() + guards * (5 + 2 * count) + paths * (3 + count)
}
