// The union of the views that a role names, and a query composed with it.
// Views and queries are read by `read` and composed by `compose`; of both only the contracts are used.
#![tactic(auto)]

ghost use Rattle.std.specs.Prelude.{◌+◌, ◌*◌, ◌≤◌, ◌≡◌, length};
ghost use Rattle.paper.specs.Limits.{text_limit, item_limit};
ghost use Rattle.paper.specs.Told.{told};
ghost use Rattle.paper.specs.Roles.{union_answer};
ghost use Rattle.view_union.specs.Gathering.{Joins, Gathers, union_out};

use paper::{Answer, Refusal};

// The version of XPath that views and queries are read by.
pub const VERSION: u32 = 1;

// A view's items go behind those of the union, where the lowest bit of the mask names it; they are counted where there is no room for them.
fn join(items: &[u32], mask: u32, union: &mut [u32], size: usize) -> usize
    requires { (length items.now ≤ item_limit) × (size ≤ item_limit * (text_limit + 1)) }
    ensures { Joins items.now mask union.old size union.new result }
{
    if mask % 2 == 0 {
        return size;
    }
    let end = size + items.len();
    if union.len() < end {
        return end;
    }
    item::put_items(items, union, size);
    end
}

// The union of the views that a mask names, one after the other, and the number of its items; every view is read, into the spare room.
fn gather(views: &[u8], list: &[u8], mask: u32, spare: &mut [u32], union: &mut [u32]) -> Answer
    requires { (length views.now ≤ text_limit) × (length spare.old ≡ item_limit) × (length union.old ≡ item_limit) }
    ensures { Gathers views.now list.now mask spare.new union.new result }
{
    let mut at = 0;
    let mut view = 0;
    let mut left = mask;
    let mut size = 0;
    while at < views.len() {
        let rest = &views[at..];
        let end = lines::line_end(rest);
        let Ok(count) = read::read(&rest[..end], VERSION, list, spare) else {
            return Err(Refusal::UnreadView(view));
        };
        size = join(&spare[..count], left, union, size);
        left = left / 2;
        view += 1;
        at += end + 1;
    }
    Ok(size)
}

// The query composed with the union of the views that a mask names.
pub fn compose_union(views: &[u8], list: &[u8], mask: u32, text: &[u8], out: &mut [u32]) -> Answer
    requires { length views.now ≤ text_limit }
    ensures result_value { told result ≡ union_answer views.now list.now mask text.now (length out.old) }
    ensures out_after { out.new ≡ union_out views.now list.now mask text.now out.old }
{
    let mut room = [0u32; paper::ITEM_LIMIT];
    let mut union = [0u32; paper::ITEM_LIMIT];
    let size = gather(views, list, mask, &mut room, &mut union)?;
    let count = read::read(text, VERSION, list, &mut room)?;
    if paper::ITEM_LIMIT < size {
        return Err(Refusal::Short(size));
    }
    compose::compose(&room[..count], &union[..size], out)
}
