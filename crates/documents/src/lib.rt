// What a document adds to the tallies of a sheet: its text is read as XML with the names of a list, and the view is run on its table with every mark 1. Its elements are counted, or else the number of its refusal.
#![tactic(auto)]

ghost use Rattle.std.specs.Prelude.{◌≡◌, ◌≤◌, length};
ghost use Rattle.paper.specs.Limits.{node_limit};
ghost use Rattle.paper.specs.Document.{table_of};
ghost use Rattle.paper.specs.Sheet.{table_outcome, text_outcome};
ghost use Rattle.documents.specs.Documents.{Adds};

// The bytes of scratch that a run is lent.
const SCRATCH_ROOM: usize = 65536;

// Adds a document by its table, with room for its marks.
fn add_marked(
    view: &[u32],
    parent: &[u16],
    kind: &[u16],
    marks: &mut [u8],
    all: &mut [u32],
    kept: &mut [u32],
    hidden: &mut [u32],
    refusals: &mut [u64],
)
    requires { (length parent.now ≤ node_limit) × (length kind.now ≡ length parent.now) × (length marks.old ≡ length parent.now) }
    ensures { Adds (table_outcome view.now (table_of parent.now kind.now)) all.old all.new kept.old kept.new hidden.old hidden.new refusals.old refusals.new }
{
    match whole::run_within::<SCRATCH_ROOM>(view, parent, kind, marks) {
        Ok(_) => tally::add_nodes(kind, marks, all, kept, hidden),
        Err(why) => tally::add_refusal(code::number_of(Err(why)), refusals),
    }
}

// Adds a document by its table.
fn add_table(
    view: &[u32],
    parent: &[u16],
    kind: &[u16],
    all: &mut [u32],
    kept: &mut [u32],
    hidden: &mut [u32],
    refusals: &mut [u64],
)
    requires { (length parent.now ≤ node_limit) × (length kind.now ≡ length parent.now) }
    ensures { Adds (table_outcome view.now (table_of parent.now kind.now)) all.old all.new kept.old kept.new hidden.old hidden.new refusals.old refusals.new }
{
    let mut marks = [0u8; paper::NODE_LIMIT];
    add_marked(
        view,
        parent,
        kind,
        &mut marks[..parent.len()],
        all,
        kept,
        hidden,
        refusals,
    );
}

// Adds a document by its text: its elements to the three columns, or one to how often its refusal number was given.
pub fn add_text(
    text: &[u8],
    view: &[u32],
    list: &[u8],
    all: &mut [u32],
    kept: &mut [u32],
    hidden: &mut [u32],
    refusals: &mut [u64],
)
    ensures { Adds (text_outcome view.now list.now text.now) all.old all.new kept.old kept.new hidden.old hidden.new refusals.old refusals.new }
{
    let mut parent = [0u16; paper::NODE_LIMIT];
    let mut kind = [0u16; paper::NODE_LIMIT];
    let mut begin = [0u16; paper::NODE_LIMIT];
    let mut end = [0u16; paper::NODE_LIMIT];
    match read_xml::read_xml(text, list, &mut parent, &mut kind, &mut begin, &mut end) {
        Ok(n) => add_table(view, &parent[..n], &kind[..n], all, kept, hidden, refusals),
        Err(why) => tally::add_refusal(code::number_of(Err(why)), refusals),
    }
}
