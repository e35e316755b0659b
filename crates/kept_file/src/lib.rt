// The file of a kept part: is an element marked, and the bytes, which are counted before one is written.
#![tactic(auto)]

ghost use Rattle.std.specs.Prelude.{◌≡◌, ℕ, List, length};
ghost use Rattle.paper.specs.Document.{table_of};
ghost use Rattle.paper.specs.WriteXml.{kept_xml};
ghost use Rattle.paper.specs.Answers.{element_marked};
ghost use Rattle.paper.specs.Told.{told};
ghost use Rattle.kept_file.specs.Filing.{Filed};

use paper::{Answer, Refusal};
use put_tags::Marked;

// Is an element marked? Every node is looked at, so that the compiler may do several at a time.
pub fn element_marked(kind: &[u16], marks: &[u8]) -> bool
    requires { length marks.now ≡ length kind.now }
    ensures { (parents : List ℕ) → length parents ≡ length kind.now → result ≡ element_marked (table_of parents kind.now) marks.now }
{
    let mut found = false;
    for i in 0..kind.len() {
        found = (marks[i] == 1) & (paper::ELEMENT_KIND <= kind[i]) | found;
    }
    found
}

// Line 10, then the file: the bytes are counted before one is written.
pub fn file(kept: &Marked, out: &mut [u8]) -> Answer
    ensures { Filed (kept_xml kept.now.text kept.now.marks) out.old out.new (told result) }
{
    let needed = put_xml::write_kept(kept, &mut out[..0]);
    if out.len() < needed {
        return Err(Refusal::Short(needed));
    }
    put_xml::write_kept(kept, out);
    Ok(needed)
}
