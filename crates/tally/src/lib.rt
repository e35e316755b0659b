// The tallies of a sheet: for each name how many elements the documents so far had, how many a view kept and how many it hid, and how often each refusal number was given.
// What a column has no room for is not counted, and a sum that no longer fits begins anew at 0.
#![tactic(auto)]

ghost use Rattle.std.specs.Prelude.{◌≡◌, ◌+◌, ◌&&◌, length, if◌then◌else◌, nat_eq, nat_lt};
ghost use Rattle.paper.specs.Document.{element_kind};
ghost use Rattle.paper.specs.Sheet.{document_limit};
ghost use Rattle.tally.specs.Tallies.{Grows, sums, times, NodesTold};

// The most documents that are counted.
const DOCUMENT_LIMIT: usize = 65535;

// Is a document counted, where so many came before it?
pub fn is_counted(before: usize) -> bool
    ensures { result ≡ nat_lt before document_limit }
{
    before < DOCUMENT_LIMIT
}

// Adds one to the number at a place of a column.
fn add_at(column: &mut [u32], v: usize)
    ensures { Grows sums column.old column.new (λ u. (if nat_eq v u then 1 else 0)) }
{
    if v < column.len() {
        column[v] = column[v].wrapping_add(1);
    }
}

// Adds one for an element to the number of its name, if it is to be counted.
fn add_node(column: &mut [u32], kind: u16, counts: bool)
    ensures { Grows sums column.old column.new (λ v. (if nat_eq kind (element_kind + v) && counts then 1 else 0)) }
{
    if paper::ELEMENT_KIND <= kind && counts {
        add_at(column, usize::from(kind - paper::ELEMENT_KIND));
    }
}

// Adds the elements of a table to the three columns: all of them, those that are marked and those that are not.
pub fn add_nodes(kind: &[u16], marks: &[u8], all: &mut [u32], kept: &mut [u32], hidden: &mut [u32])
    requires { length marks.now ≡ length kind.now }
    ensures { NodesTold (length kind.now) kind.now marks.now all.old all.new kept.old kept.new hidden.old hidden.new }
{
    for (i, of) in kind.iter().enumerate() {
        let is_kept = marks[i] == 1;
        add_node(all, *of, true);
        add_node(kept, *of, is_kept);
        add_node(hidden, *of, !is_kept);
    }
}

// Adds one to how often a refusal number was given.
pub fn add_refusal(number: usize, refusals: &mut [u64])
    ensures { Grows times refusals.old refusals.new (λ n. (if nat_eq number n then 1 else 0)) }
{
    if number < refusals.len() {
        refusals[number] = refusals[number].wrapping_add(1);
    }
}
