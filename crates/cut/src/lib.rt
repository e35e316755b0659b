// A partner's table against ours: is it a sub-document, down to the leaves?
#![tactic(auto)]

ghost use Rattle.std.specs.Prelude.{◌≡◌};
ghost use Rattle.paper.specs.Document.{table_of};
ghost use Rattle.paper.specs.Answers.{is_cut_answer};
ghost use Rattle.paper.specs.Told.{told};

use cut_rows::all_stand;
use paper::{Answer, Refusal};
use table::table_fault;

// Is the partner's table, with the original number of each of its nodes, a cut of ours? It answers 1 for yes and 0 for no.
pub fn is_cut(
    parent: &[u16],
    kind: &[u16],
    cut_parent: &[u16],
    cut_kind: &[u16],
    cut_node: &[u16],
) -> Answer
    ensures { told result ≡ is_cut_answer (table_of parent.now kind.now) (table_of cut_parent.now cut_kind.now) cut_node.now }
{
    if paper::NODE_LIMIT < parent.len() {
        return Err(Refusal::TooLong);
    }
    if kind.len() != parent.len() {
        return Err(Refusal::TooLong);
    }
    if paper::NODE_LIMIT < cut_parent.len() {
        return Err(Refusal::TooLong);
    }
    if cut_kind.len() != cut_parent.len() {
        return Err(Refusal::TooLong);
    }
    if cut_node.len() != cut_parent.len() {
        return Err(Refusal::TooLong);
    }
    if let Some(i) = table_fault(parent, kind) {
        return Err(Refusal::BadTable(i));
    }
    if all_stand(parent, kind, cut_parent, cut_kind, cut_node) {
        return Ok(1);
    }
    Ok(0)
}
