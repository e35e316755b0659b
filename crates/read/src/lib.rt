// The reader: from text to query. One pass measures the text and keeps its items if they are few; those are then copied, or the same functions write into the output.
// `newer` says that the text is read by version 2 of XPath; where there are no `names`, any word is a name.
#![tactic(auto)]

ghost use Rattle.std.specs.Prelude.{◌≤◌, ◌≡◌, IfOk, length};
ghost use Rattle.paper.specs.Tools.{written};
ghost use Rattle.paper.specs.Names.{names_of, number_of};
ghost use Rattle.paper.specs.Limits.{bracket_limit};
ghost use Rattle.paper.specs.Reading.{read_text};
ghost use Rattle.paper.specs.Answers.{any_name, read_answer, read_out, read_last, line_got, items_got};
ghost use Rattle.paper.specs.Told.{told};
ghost use Rattle.heads.specs.Heads.{look_of};
ghost use Rattle.read_paths.specs.Parts.{Ready};
ghost use Rattle.read.specs.Parts.{Kept, Measures};

use names::{Listed, Names};
use paper::{Answer, Refusal};

// How many items are kept while a text is measured.
const FEW: usize = 64;

// What the text is, measured: nothing is kept of what is written.
fn measure(text: &[u8], names: Option<&Listed>, newer: bool) -> Answer
    requires { Ready text.now 0 bracket_limit }
    ensures { Measures (read_text newer (look_of names.entry) text.now) result }
{
    let mut scratch = [0u32; 1];
    let whole = read_paths::paths(text, names, &mut scratch, newer)?;
    Ok(whole.end)
}

// What `read` answers to a text and a list that are good by themselves: 3 or 4 by place, then 5, then 10. Keeps the items in `few`, if they are few.
// A text that is read with the list's names has no fault of syntax, so only one that is not is judged with any names.
fn answer(text: &[u8], names: &Listed, few: &mut [u32], room: usize, newer: bool) -> Answer
    requires { Ready text.now 0 bracket_limit }
    ensures answered { told result ≡ line_got (read_text newer any_name text.now) (λ q. read_last newer text.now names.now room) }
    ensures kept { IfOk result (λ n. (n ≤ room) × (Kept few.new (read_text newer (number_of (names_of names.now)) text.now) n)) }
{
    let part = match read_paths::paths(text, Some(names), few, newer) {
        Ok(part) => part,
        Err(why) => {
            measure(text, None, newer)?;
            return Err(why);
        }
    };
    if room < part.end {
        return Err(Refusal::Short(part.end));
    }
    if paper::ITEM_LIMIT < part.end {
        return Err(Refusal::Short(part.end));
    }
    Ok(part.end)
}

// Writes the items of a text that can be read: those kept, where all are there, else by reading again.
fn write(text: &[u8], names: &Listed, few: &[u32], end: usize, out: &mut [u32], newer: bool)
    requires ready { Ready text.now 0 bracket_limit }
    requires kept { (end ≤ length out.old) × (Kept few.now (read_text newer (number_of (names_of names.now)) text.now) end) }
    ensures { out.new ≡ written (items_got (read_text newer (number_of (names_of names.now)) text.now)) out.old }
{
    if end <= few.len() {
        item::put_items(&few[..end], out, 0);
    } else {
        let _ = read_paths::paths(text, Some(names), out, newer);
    }
}

// Reads a query by a version of XPath, 1 or 2: writes its items and answers their number, or refuses and writes nothing.
pub fn read(text: &[u8], version: u32, list: &[u8], out: &mut [u32]) -> Answer
    ensures result_value { told result ≡ read_answer text.now version list.now (length out.old) }
    ensures out_after { out.new ≡ read_out text.now version list.now out.old }
{
    if paper::TEXT_LIMIT < text.len() {
        return Err(Refusal::TooLong);
    }
    if paper::LIST_LIMIT < list.len() {
        return Err(Refusal::TooLong);
    }
    let known = (version == 1) | (version == 2);
    if !known {
        return Err(Refusal::TooLong);
    }
    let names = Names::new(list)?;
    let listed = names.listed();
    let mut few = [0u32; FEW];
    let newer = version == 2;
    let end = answer(text, listed, &mut few, out.len(), newer)?;
    write(text, listed, &few, end, out, newer);
    Ok(end)
}
