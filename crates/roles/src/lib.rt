// The subscriber gateway, a layer above the library: a role's query is composed with the union of the views that the role names.
// The union and the composition are those of `view_union`, of which only the contract is used.
#![tactic(auto)]

ghost use Rattle.std.specs.Prelude.{◌≤◌, ◌≡◌, map, length, get_or};
ghost use Rattle.paper.specs.Limits.{text_limit};
ghost use Rattle.paper.specs.Told.{told};
ghost use Rattle.paper.specs.Roles.{beyond, mask_answer, mask_out, role_answer, role_out};
ghost use Rattle.roles.specs.Judging.{views_counted, list_answer};

use paper::{Answer, Refusal};

// A role: the views that it may see, bit v for view v. Its number is its index among the roles.
#[repr(C)]
#[derive(Clone, Copy)]
pub struct Role {
    pub views: u32,
}

// How many views there are, one a line; one more than there may be where no LF ends the last.
fn count_views(views: &[u8]) -> usize
    requires { length views.now ≤ text_limit }
    ensures { result ≡ views_counted views.now }
{
    let mut at = 0;
    let mut count = 0;
    while at < views.len() {
        let rest = &views[at..];
        let end = lines::line_end(rest);
        if end == rest.len() {
            return paper::VIEW_LIMIT + 1;
        }
        count += 1;
        at += end + 1;
    }
    count
}

// What is left of a mask once its bits for so many views are taken off.
fn left_of(mask: u32, views: usize) -> u32
    ensures { result ≡ beyond mask views }
{
    let mut left = mask;
    for taken in 0..views {
        left = left / 2;
    }
    left
}

// The list is judged by reading `/` with it, so that what reading promises says it.
fn judge_list(list: &[u8]) -> Answer
    ensures { told result ≡ list_answer list.now }
{
    let mut room = [0u32; 1];
    read::read(b"/", view_union::VERSION, list, &mut room)
}

// For a role of this number and mask, among so many roles: all is examined in the order of the paper's lines.
pub fn for_mask(
    views: &[u8],
    list: &[u8],
    roles: usize,
    role: u32,
    mask: u32,
    text: &[u8],
    out: &mut [u32],
) -> Answer
    ensures { (told result ≡ mask_answer views.now list.now roles role mask text.now (length out.old))
        × (out.new ≡ mask_out views.now list.now roles role mask text.now out.old) }
{
    let long = (paper::TEXT_LIMIT < views.len())
        | (paper::LIST_LIMIT < list.len())
        | (paper::TEXT_LIMIT < text.len())
        | (paper::ROLE_LIMIT < roles);
    if long {
        return Err(Refusal::TooLong);
    }
    let count = count_views(views);
    if paper::VIEW_LIMIT < count {
        return Err(Refusal::TooLong);
    }
    judge_list(list)?;
    let number = role as usize;
    if roles <= number {
        return Err(Refusal::NoRole(number));
    }
    if mask == 0 {
        return Err(Refusal::NoView(number));
    }
    if left_of(mask, count) != 0 {
        return Err(Refusal::NoView(number));
    }
    view_union::compose_union(views, list, mask, text, out)
}

// The mask of the role of this index, and 0 where there is no such role.
fn mask_of(roles: &[Role], index: usize) -> u32
    ensures { result ≡ get_or (map (λ x. x.views) roles.now) index 0 }
{
    roles.get(index).map_or(0, |role| role.views)
}

// Writes the composition of a role's query with the union of the views that the role names, and answers the number of its items.
pub fn for_role(
    views: &[u8],
    list: &[u8],
    roles: &[Role],
    role: u32,
    text: &[u8],
    out: &mut [u32],
) -> Answer
    ensures { (told result ≡ role_answer views.now list.now (map (λ x. x.views) roles.now) role text.now (length out.old))
        × (out.new ≡ role_out views.now list.now (map (λ x. x.views) roles.now) role text.now out.old) }
{
    let mask = mask_of(roles, role as usize);
    for_mask(views, list, roles.len(), role, mask, text, out)
}
