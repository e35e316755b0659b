// The kept part of a text back to XML, with a list of names that has no fault: the table, the marks and the text are judged, then the file is written.
#![tactic(auto)]

ghost use Rattle.std.specs.Prelude.{◌≡◌, length};
ghost use Rattle.std.proofs.Math.Option.{none};
ghost use Rattle.paper.specs.Names.{names_fault};
ghost use Rattle.paper.specs.Document.{table_of};
ghost use Rattle.paper.specs.Answers.{write_xml_answer, write_xml_out};
ghost use Rattle.paper.specs.Told.{told};
ghost use Rattle.write_listed.specs.Lengths.{Lengths};

use initials::Initials;
use kept_file::{element_marked, file};
use paper::{Answer, Refusal};
use put_tags::Marked;
use table::{marks_fault, table_fault};

// The lines behind the list of names: the table, the marks, and whether the text is what the columns say.
pub fn judge(
    text: &[u8],
    names: &Initials,
    parent: &[u16],
    kind: &[u16],
    begin: &[u16],
    end: &[u16],
    marks: &[u8],
    out: &mut [u8],
) -> Answer
    requires good { names_fault names.now ≡ none }
    requires lengths { Lengths text.now names.now parent.now kind.now begin.now end.now marks.now }
    ensures result_value { told result ≡ write_xml_answer text.now names.now (table_of parent.now kind.now) begin.now end.now marks.now (length out.old) }
    ensures out_after { out.new ≡ write_xml_out text.now names.now (table_of parent.now kind.now) begin.now end.now marks.now out.old }
{
    if let Some(i) = table_fault(parent, kind) {
        return Err(Refusal::BadTable(i));
    }
    if let Some(i) = marks_fault(parent, marks) {
        return Err(Refusal::BadMarks(i));
    }
    if !element_marked(kind, marks) {
        return Err(Refusal::NoElement);
    }
    if !match_xml::reads_as(text, names, parent, kind, begin, end) {
        return Err(Refusal::OtherText);
    }
    let kept = Marked::new(text, parent, kind, begin, end, marks);
    file(&kept, out)
}
