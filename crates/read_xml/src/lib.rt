// XML text into the table: what is lent is judged line by line, then the text is read.
#![tactic(auto)]

ghost use Rattle.std.specs.Prelude.{◌≡◌, length};
ghost use Rattle.paper.specs.Answers.{read_xml_answer, read_xml_column, parent_field, kind_field, begin_field, end_field};
ghost use Rattle.paper.specs.Told.{told};

use initials::Initials;
use names::Names;
use paper::{Answer, Refusal};
use read_listed::fill;

// Reads XML text: writes its nodes in document order with their places and answers their number, or refuses and writes nothing.
pub fn read_xml(
    text: &[u8],
    list: &[u8],
    parent: &mut [u16],
    kind: &mut [u16],
    begin: &mut [u16],
    end: &mut [u16],
) -> Answer
    ensures result_value { told result ≡ read_xml_answer text.now list.now (length parent.old) (length kind.old) (length begin.old) (length end.old) }
    ensures parent_after { parent.new ≡ read_xml_column parent_field text.now (told result) parent.old }
    ensures kind_after { kind.new ≡ read_xml_column (kind_field list.now) text.now (told result) kind.old }
    ensures begin_after { begin.new ≡ read_xml_column begin_field text.now (told result) begin.old }
    ensures end_after { end.new ≡ read_xml_column end_field text.now (told result) end.old }
{
    let room = parent.len();
    if (paper::TEXT_LIMIT < text.len())
        | (paper::LIST_LIMIT < list.len())
        | (kind.len() != room)
        | (begin.len() != room)
        | (end.len() != room)
    {
        return Err(Refusal::TooLong);
    }
    let names = Initials::new(Names::new(list)?.into_listed());
    fill(text, &names, parent, kind, begin, end)
}
