// How much scratch a run of a composition needs at most, told before composing, and what of the two queries tells it.
#![tactic(auto)]

ghost use Rattle.std.specs.Prelude.{◌≡◌};
ghost use Rattle.paper.specs.Room.{height_answer, paths_answer, outside, scratch_answer};
ghost use Rattle.paper.specs.Told.{told};

use paper::{Answer, Refusal};

// Is a number 0 or over its limit?
fn outside(limit: usize, n: usize) -> bool
    ensures { result ≡ outside limit n }
{
    (n == 0) | (limit < n)
}

// The height of a query in memory.
pub fn height(query: &[u32]) -> Answer
    ensures { told result ≡ height_answer query.now }
{
    if paper::ITEM_LIMIT < query.len() {
        return Err(Refusal::TooLong);
    }
    let shape = shape::measure(query).ok_or(Refusal::BadQuery(0))?;
    Ok(shape.height)
}

// The number of top-level paths of a query in memory.
pub fn paths(query: &[u32]) -> Answer
    ensures { told result ≡ paths_answer query.now }
{
    if paper::ITEM_LIMIT < query.len() {
        return Err(Refusal::TooLong);
    }
    shape::measure(query).ok_or(Refusal::BadQuery(0))?;
    Ok(reverse::count_paths(query))
}

// The bytes of scratch with which a run of an accepted composition is not refused for want of room, by the nodes of the table and the heights and path counts of the two queries.
pub fn scratch(
    nodes: usize,
    outer_height: usize,
    outer_paths: usize,
    inner_height: usize,
    inner_paths: usize,
) -> Answer
    ensures { told result ≡ scratch_answer nodes outer_height outer_paths inner_height inner_paths }
{
    let wrong = outside(paper::NODE_LIMIT, nodes)
        | outside(paper::ITEM_LIMIT, outer_height)
        | outside(paper::ITEM_LIMIT, outer_paths)
        | outside(paper::ITEM_LIMIT, inner_height)
        | outside(paper::ITEM_LIMIT, inner_paths);
    if wrong {
        return Err(Refusal::TooLong);
    }
    let bound = outer_height + inner_height.max(3) + inner_paths + 1;
    Ok(nodes * 2 * (bound + 1))
}
