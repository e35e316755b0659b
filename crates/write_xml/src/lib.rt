// The kept part of a text back to XML: what is lent is judged line by line, then the file is measured, then it is written.
#![tactic(auto)]

ghost use Rattle.std.specs.Prelude.{◌≡◌, length};
ghost use Rattle.paper.specs.Document.{table_of};
ghost use Rattle.paper.specs.Answers.{write_xml_answer, write_xml_out};
ghost use Rattle.paper.specs.Told.{told};

use initials::Initials;
use names::Names;
use paper::{Answer, Refusal};
use write_listed::judge;

// Writes the kept part of a text as XML and answers the number of its bytes, or refuses and writes nothing.
pub fn write_xml(
    text: &[u8],
    list: &[u8],
    parent: &[u16],
    kind: &[u16],
    begin: &[u16],
    end: &[u16],
    marks: &[u8],
    out: &mut [u8],
) -> Answer
    ensures result_value { told result ≡ write_xml_answer text.now list.now (table_of parent.now kind.now) begin.now end.now marks.now (length out.old) }
    ensures out_after { out.new ≡ write_xml_out text.now list.now (table_of parent.now kind.now) begin.now end.now marks.now out.old }
{
    let nodes = parent.len();
    if (paper::TEXT_LIMIT < text.len())
        | (paper::LIST_LIMIT < list.len())
        | (paper::NODE_LIMIT < nodes)
        | (kind.len() != nodes)
        | (begin.len() != nodes)
        | (end.len() != nodes)
        | (marks.len() != nodes)
    {
        return Err(Refusal::TooLong);
    }
    let names = Initials::new(Names::new(list)?.into_listed());
    judge(text, &names, parent, kind, begin, end, marks, out)
}
