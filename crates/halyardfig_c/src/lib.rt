// The C library: each export hands its slices on to the call of its name in `halyardfig`, and promises the same.
#![tactic(auto)]

ghost use Rattle.std.specs.Prelude.{◌≡◌, map, length};
ghost use Rattle.paper.specs.Items.{decode};
ghost use Rattle.paper.specs.Document.{table_of};
ghost use Rattle.paper.specs.Printing.{long_form, short_form};
ghost use Rattle.paper.specs.Answers.{read_answer, read_out, print_answer, print_out, compose_answer, compose_out, run_answer, run_marks, run_scratch, extract_answer, extract_parents, extract_kinds, read_xml_answer, read_xml_column, parent_field, kind_field, begin_field, end_field, is_cut_answer, write_xml_answer, write_xml_out};
ghost use Rattle.paper.specs.Room.{height_answer, paths_answer, scratch_answer};
ghost use Rattle.paper.specs.Lean.{compose_lean_answer, compose_lean_out};
ghost use Rattle.paper.specs.Roles.{role_answer, role_out};
ghost use Rattle.follow.specs.Follows.{enough};
ghost use Rattle.code.specs.Codes.{code_of};

use roles::Role;

// Reads a query by a version of XPath.
#[unsafe(no_mangle)]
pub extern "C" fn halyardfig_read(text: &[u8], version: u32, names: &[u8], out: &mut [u32]) -> u64
    ensures value { result ≡ code_of (read_answer text.now version names.now (length out.old)) }
    ensures out_after { out.new ≡ read_out text.now version names.now out.old }
{
    halyardfig::halyardfig_read(text, version, names, out)
}

// Prints a query in the short form.
#[unsafe(no_mangle)]
pub extern "C" fn halyardfig_print(query: &[u32], names: &[u8], out: &mut [u8]) -> u64
    ensures value { result ≡ code_of (print_answer short_form query.now names.now (length out.old)) }
    ensures out_after { out.new ≡ print_out short_form query.now names.now out.old }
{
    halyardfig::halyardfig_print(query, names, out)
}

// Prints a query in the long form.
#[unsafe(no_mangle)]
pub extern "C" fn halyardfig_print_long(query: &[u32], names: &[u8], out: &mut [u8]) -> u64
    ensures value { result ≡ code_of (print_answer long_form query.now names.now (length out.old)) }
    ensures out_after { out.new ≡ print_out long_form query.now names.now out.old }
{
    halyardfig::halyardfig_print_long(query, names, out)
}

// Composes two queries.
#[unsafe(no_mangle)]
pub extern "C" fn halyardfig_compose(outer: &[u32], inner: &[u32], out: &mut [u32]) -> u64
    ensures value { result ≡ code_of (compose_answer outer.now inner.now (length out.old)) }
    ensures out_after { out.new ≡ compose_out outer.now inner.now out.old }
{
    halyardfig::halyardfig_compose(outer, inner, out)
}

// Composes two queries with fewer guards.
#[unsafe(no_mangle)]
pub extern "C" fn halyardfig_compose_lean(outer: &[u32], inner: &[u32], out: &mut [u32]) -> u64
    ensures value { result ≡ code_of (compose_lean_answer outer.now inner.now (length out.old)) }
    ensures out_after { out.new ≡ compose_lean_out outer.now inner.now out.old }
{
    halyardfig::halyardfig_compose_lean(outer, inner, out)
}

// Runs a query.
#[unsafe(no_mangle)]
pub extern "C" fn halyardfig_run(
    query: &[u32],
    parent: &[u16],
    kind: &[u16],
    given: &[u8],
    marks: &mut [u8],
    scratch: &mut [u8],
) -> u64
    ensures value { result ≡ code_of (run_answer query.now (table_of parent.now kind.now) given.now (length marks.old) (length scratch.old)) }
    ensures marks_after { marks.new ≡ run_marks query.now (table_of parent.now kind.now) given.now marks.old (length scratch.old) }
    ensures scratch_after { scratch.new ≡ run_scratch query.now (table_of parent.now kind.now) given.now (length marks.old) scratch.old }
{
    halyardfig::halyardfig_run(query, parent, kind, given, marks, scratch)
}

// Runs a query node by node.
#[unsafe(no_mangle)]
pub extern "C" fn halyardfig_follow(
    query: &[u32],
    parent: &[u16],
    kind: &[u16],
    given: &[u8],
    marks: &mut [u8],
) -> u64
    ensures value { result ≡ code_of (run_answer query.now (table_of parent.now kind.now) given.now (length marks.old) (enough (table_of parent.now kind.now) (decode query.now))) }
    ensures marks_after { marks.new ≡ run_marks query.now (table_of parent.now kind.now) given.now marks.old (enough (table_of parent.now kind.now) (decode query.now)) }
{
    halyardfig::halyardfig_follow(query, parent, kind, given, marks)
}

// Writes the marked nodes as a table.
#[unsafe(no_mangle)]
pub extern "C" fn halyardfig_extract(
    parent: &[u16],
    kind: &[u16],
    marks: &[u8],
    out_parent: &mut [u16],
    out_kind: &mut [u16],
) -> u64
    ensures value { result ≡ code_of (extract_answer (table_of parent.now kind.now) marks.now (length out_parent.old) (length out_kind.old)) }
    ensures out_parent_after { out_parent.new ≡ extract_parents (table_of parent.now kind.now) marks.now out_parent.old (length out_kind.old) }
    ensures out_kind_after { out_kind.new ≡ extract_kinds (table_of parent.now kind.now) marks.now (length out_parent.old) out_kind.old }
{
    halyardfig::halyardfig_extract(parent, kind, marks, out_parent, out_kind)
}

// Reads XML text into a table.
#[unsafe(no_mangle)]
pub extern "C" fn halyardfig_read_xml(
    text: &[u8],
    names: &[u8],
    parent: &mut [u16],
    kind: &mut [u16],
    begin: &mut [u16],
    end: &mut [u16],
) -> u64
    ensures value { result ≡ code_of (read_xml_answer text.now names.now (length parent.old) (length kind.old) (length begin.old) (length end.old)) }
    ensures parent_after { parent.new ≡ read_xml_column parent_field text.now (read_xml_answer text.now names.now (length parent.old) (length kind.old) (length begin.old) (length end.old)) parent.old }
    ensures kind_after { kind.new ≡ read_xml_column (kind_field names.now) text.now (read_xml_answer text.now names.now (length parent.old) (length kind.old) (length begin.old) (length end.old)) kind.old }
    ensures begin_after { begin.new ≡ read_xml_column begin_field text.now (read_xml_answer text.now names.now (length parent.old) (length kind.old) (length begin.old) (length end.old)) begin.old }
    ensures end_after { end.new ≡ read_xml_column end_field text.now (read_xml_answer text.now names.now (length parent.old) (length kind.old) (length begin.old) (length end.old)) end.old }
{
    halyardfig::halyardfig_read_xml(text, names, parent, kind, begin, end)
}

// Writes the kept part of a text as XML.
#[unsafe(no_mangle)]
pub extern "C" fn halyardfig_write_xml(
    text: &[u8],
    names: &[u8],
    parent: &[u16],
    kind: &[u16],
    begin: &[u16],
    end: &[u16],
    marks: &[u8],
    out: &mut [u8],
) -> u64
    ensures value { result ≡ code_of (write_xml_answer text.now names.now (table_of parent.now kind.now) begin.now end.now marks.now (length out.old)) }
    ensures out_after { out.new ≡ write_xml_out text.now names.now (table_of parent.now kind.now) begin.now end.now marks.now out.old }
{
    halyardfig::halyardfig_write_xml(text, names, parent, kind, begin, end, marks, out)
}

// The height of a query.
#[unsafe(no_mangle)]
pub extern "C" fn halyardfig_height(query: &[u32]) -> u64
    ensures { result ≡ code_of (height_answer query.now) }
{
    halyardfig::halyardfig_height(query)
}

// The number of a query's paths.
#[unsafe(no_mangle)]
pub extern "C" fn halyardfig_paths(query: &[u32]) -> u64
    ensures { result ≡ code_of (paths_answer query.now) }
{
    halyardfig::halyardfig_paths(query)
}

// The scratch to lend for a run of a composition.
#[unsafe(no_mangle)]
pub extern "C" fn halyardfig_scratch(
    nodes: usize,
    outer_height: usize,
    outer_paths: usize,
    inner_height: usize,
    inner_paths: usize,
) -> u64
    ensures { result ≡ code_of (scratch_answer nodes outer_height outer_paths inner_height inner_paths) }
{
    halyardfig::halyardfig_scratch(nodes, outer_height, outer_paths, inner_height, inner_paths)
}

// Says whether a partner's table is a cut of ours.
#[unsafe(no_mangle)]
pub extern "C" fn halyardfig_is_cut(
    parent: &[u16],
    kind: &[u16],
    cut_parent: &[u16],
    cut_kind: &[u16],
    cut_node: &[u16],
) -> u64
    ensures { result ≡ code_of (is_cut_answer (table_of parent.now kind.now) (table_of cut_parent.now cut_kind.now) cut_node.now) }
{
    halyardfig::halyardfig_is_cut(parent, kind, cut_parent, cut_kind, cut_node)
}

// Composes a role's query with the union of its views.
#[unsafe(no_mangle)]
pub extern "C" fn halyardfig_for_role(
    views: &[u8],
    names: &[u8],
    roles: &[Role],
    role: u32,
    text: &[u8],
    out: &mut [u32],
) -> u64
    ensures { (result ≡ code_of (role_answer views.now names.now (map (λ x. x.views) roles.now) role text.now (length out.old)))
        × (out.new ≡ role_out views.now names.now (map (λ x. x.views) roles.now) role text.now out.old) }
{
    halyardfig::halyardfig_for_role(views, names, roles, role, text, out)
}
