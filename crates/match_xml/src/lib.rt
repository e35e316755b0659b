// Does an XML text read as these columns? All its lines are those of the columns, and they are as many.
#![tactic(auto)]

ghost use Rattle.std.specs.Prelude.{◌≤◌, ◌≡◌, length};
ghost use Rattle.std.proofs.Math.Option.{none};
ghost use Rattle.paper.specs.Limits.{text_limit, list_limit, node_limit};
ghost use Rattle.paper.specs.Names.{names_fault};
ghost use Rattle.paper.specs.Document.{table_of};
ghost use Rattle.paper.specs.Answers.{reads_as};

use initials::Initials;
use match_lines::outcome;

// Does reading the text with this list give exactly these nodes, parents, kinds and places?
pub fn reads_as(
    text: &[u8],
    names: &Initials,
    parent: &[u16],
    kind: &[u16],
    begin: &[u16],
    end: &[u16],
) -> bool
    requires good { names_fault names.now ≡ none }
    requires text_len_bound { (length text.now ≤ text_limit) × (length names.now ≤ list_limit) × (length parent.now ≤ node_limit) }
    requires kind_len { (length kind.now ≡ length parent.now) × (length begin.now ≡ length parent.now) × (length end.now ≡ length parent.now) }
    ensures { result ≡ reads_as text.now names.now (table_of parent.now kind.now) begin.now end.now }
{
    match outcome(text, names, parent, kind, begin, end) {
        Some(read) => read.same & (read.nodes == parent.len()),
        None => false,
    }
}
