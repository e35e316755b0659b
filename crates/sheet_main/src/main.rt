// Prints what a view shows: reads the view, the names and then names of files from standard input, counts the elements of these documents, and prints the sheet.
#![tactic(auto)]

ghost use Rattle.std.specs.Prelude.{◌≡◌, ◌-◌, ◌≤◌, length};
ghost use Rattle.std.proofs.Math.Option.{none};
ghost use Rattle.paper.specs.Limits.{list_limit};
ghost use Rattle.paper.specs.Names.{names_fault};
ghost use Rattle.sheet.specs.Sheets.{head_room, sheet_limit};
ghost use Rattle.sheet_main.specs.Reading.{Fits, Holds, Reached};

use paper::{Answer, Refusal};
use std::fs::File;
use std::io;
use std::io::{IsTerminal, Read};

// A view and a list that can be read fit here with the LF behind each.
const HEAD_ROOM: usize = paper::TEXT_LIMIT + 1 + paper::LIST_LIMIT + 1;
// One byte more than a text may have, so that a longer file is seen to be too long.
const TEXT_ROOM: usize = paper::TEXT_LIMIT + 1;
// One byte more than a path may have, so that a longer one is seen to be too long.
const PATH_ROOM: usize = 4096;
// The version of XPath that the view is read by.
const VERSION: u32 = 1;
// The count on a terminal moves on after so many documents.
const TELLING: usize = 100;

// What is left of the bytes read: from one place to another.
#[derive(Clone, Copy)]
struct Span {
    at: usize,
    end: usize,
}

// A file name that was read: its length, and what is left of the bytes read.
#[derive(Clone, Copy)]
struct Name {
    len: usize,
    left: Span,
}

// The tallies of a sheet: for each name how many elements there were, how many were kept and how many hidden, and how often each refusal number was given.
#[derive(Drop)]
struct Counts {
    all: [u32; paper::NAMES_LIMIT],
    kept: [u32; paper::NAMES_LIMIT],
    hidden: [u32; paper::NAMES_LIMIT],
    refusals: [u64; sheet::NUMBERS],
}

// Reads once, into the room from a place on, and answers how many bytes it was.
fn read_part(file: &mut File, text: &mut [u8], done: usize) -> Option<usize>
    requires { done ≤ length text.old }
    ensures { (length text.new ≡ length text.old) × Fits result (length text.old - done) }
{
    file.read(&mut text[done..]).ok()
}

// Reads a file as far as the room goes, and answers how many bytes it has.
fn read_file(file: &mut File, text: &mut [u8]) -> Option<usize>
    ensures { Holds result text.new }
{
    let mut done = 0;
    while done < text.len() {
        let more = read_part(file, text, done)?;
        if more == 0 {
            break;
        }
        done += more;
    }
    Some(done)
}

// Adds one to how often the number of a refusal was given.
fn add_refusal(answer: Answer, refusals: &mut [u64]) {
    tally::add_refusal(code::number_of(answer), refusals)
}

// Opens the file of a path, if it can be opened; std opens by paths in UTF-8 alone.
fn open_file(rt: &HostRuntime, path: &[u8]) -> Option<File> {
    let text = str::from_utf8(path).ok()?;
    File::open(rt, text).ok()
}

// Adds the document of a file: its outcome, or 18 where it can't be read.
fn add_file(rt: &HostRuntime, path: &[u8], view: &[u32], list: &[u8], counts: &mut Counts) {
    let Some(mut file) = open_file(rt, path) else {
        add_refusal(Err(Refusal::Unreadable), &mut counts.refusals);
        return;
    };
    let mut text = [0u8; TEXT_ROOM];
    match read_file(&mut file, &mut text) {
        Some(n) => documents::add_text(
            &text[..n],
            view,
            list,
            &mut counts.all,
            &mut counts.kept,
            &mut counts.hidden,
            &mut counts.refusals,
        ),
        None => add_refusal(Err(Refusal::Unreadable), &mut counts.refusals),
    }
}

// Tells on standard error how many documents were counted, where that is a terminal.
fn tell(rt: &HostRuntime, count: usize) {
    if rt.stderr().is_terminal() {
        let _ = eprint!(rt; "\r{count} documents");
    }
}

// Ends the line of that count, if one was begun.
fn end_telling(rt: &HostRuntime, count: usize) {
    if TELLING <= count {
        if rt.stderr().is_terminal() {
            let _ = eprint!(rt; "\n");
        }
    }
}

// Adds the document of a line, where so many came before it, and answers how many there are then; one past the limit gets 10 and is not opened.
fn add_document(
    rt: &HostRuntime,
    path: &[u8],
    before: usize,
    view: &[u32],
    list: &[u8],
    counts: &mut Counts,
) -> usize {
    if !tally::is_counted(before) {
        add_refusal(Err(Refusal::Short(0)), &mut counts.refusals);
        return before;
    }
    add_file(rt, path, view, list, counts);
    let count = before + 1;
    if count % TELLING == 0 {
        tell(rt, count);
    }
    count
}

// Puts a byte at the end of a path, as long as there is room.
fn push(path: &mut [u8], len: usize, b: u8) -> usize
    requires { len ≤ length path.old }
    ensures { (length path.new ≡ length path.old) × (result ≤ length path.old) }
{
    if len < path.len() {
        path[len] = b;
        return len + 1;
    }
    len
}

// Reads some of standard input, and answers how much; a read that fails ends the input.
fn read_some(rt: &HostRuntime, chunk: &mut [u8]) -> usize
    ensures { (length chunk.new ≡ length chunk.old) × (result ≤ length chunk.old) }
{
    rt.stdin().read(chunk).unwrap_or(0)
}

// Reads on where nothing is left; nothing is left then at the end of the input alone.
fn fill(rt: &HostRuntime, chunk: &mut [u8], left: Span) -> Span
    requires { (left.at ≤ left.end) × (left.end ≤ length chunk.old) }
    ensures { (length chunk.new ≡ length chunk.old) × (result.at ≤ result.end) × (result.end ≤ length chunk.old) }
{
    if left.at < left.end {
        return left;
    }
    let end = read_some(rt, chunk);
    Span { at: 0, end }
}

// Goes on to the next file name, which an LF or the end of the input ends. A proved loop has to end, so it takes a number of turns that no run uses up.
fn next_name(rt: &HostRuntime, chunk: &mut [u8], path: &mut [u8], from: Span) -> Option<Name>
    requires { (from.at ≤ from.end) × (from.end ≤ length chunk.old) }
    ensures { (length chunk.new ≡ length chunk.old) × (length path.new ≡ length path.old) × Reached result (length chunk.old) (length path.old) }
{
    let mut left = from;
    let mut len = 0;
    for _ in 0..u64::MAX {
        left = fill(rt, chunk, left);
        if left.end <= left.at {
            if len == 0 {
                return None;
            }
            return Some(Name { len, left });
        }
        let b = chunk[left.at];
        left = Span {
            at: left.at + 1,
            end: left.end,
        };
        if b == b'\n' {
            return Some(Name { len, left });
        }
        len = push(path, len, b);
    }
    None
}

// Adds all documents, of whose names the first bytes are given.
fn add_all(rt: &HostRuntime, first: &[u8], view: &[u32], list: &[u8], counts: &mut Counts)
    requires { length first.now ≤ head_room }
{
    let mut chunk = [0u8; HEAD_ROOM];
    let mut path = [0u8; PATH_ROOM];
    let mut left = Span {
        at: 0,
        end: first.len(),
    };
    chunk[..first.len()].copy_from_slice(first);
    let mut before = 0;
    for _ in 0..u64::MAX {
        let Some(name) = next_name(rt, &mut chunk, &mut path, left) else {
            end_telling(rt, before);
            return;
        };
        before = add_document(rt, &path[..name.len], before, view, list, counts);
        left = name.left;
    }
}

// Puts the sheet of a view.
fn sheet_of(rt: &HostRuntime, view: &[u32], list: &[u8], first: &[u8], out: &mut [u8]) -> usize
    requires { (length list.now ≤ list_limit) × (names_fault list.now ≡ none) × (length first.now ≤ head_room) }
    ensures { result ≤ sheet_limit }
{
    let mut counts = Counts {
        all: [0; paper::NAMES_LIMIT],
        kept: [0; paper::NAMES_LIMIT],
        hidden: [0; paper::NAMES_LIMIT],
        refusals: [0; sheet::NUMBERS],
    };
    add_all(rt, first, view, list, &mut counts);
    sheet::put_sheet(
        list,
        &counts.all,
        &counts.kept,
        &counts.hidden,
        &counts.refusals,
        out,
    )
}

// Puts the sheet of a view by its text, or the line of its refusal.
fn sheet_by(rt: &HostRuntime, text: &[u8], list: &[u8], first: &[u8], out: &mut [u8]) -> usize
    requires { length first.now ≤ head_room }
    ensures { result ≤ sheet_limit }
{
    let mut room = [0u32; paper::ITEM_LIMIT];
    let said = read::read(text, VERSION, list, &mut room);
    let Ok(size) = said else {
        return lines::put_refusal(out, b"view", said);
    };
    sheet_of(rt, &room[..size], list, first, out)
}

// Puts what is printed of an input that begins so.
fn answer(rt: &HostRuntime, head: &[u8], out: &mut [u8]) -> usize
    requires { length head.now ≤ head_room }
    ensures { result ≤ sheet_limit }
{
    let view_end = lines::line_end(head);
    let list_start = lines::line_start(head, view_end);
    let rest = &head[list_start..];
    let list_end = lines::list_end(rest);
    let first_start = lines::line_start(rest, list_end);
    sheet_by(
        rt,
        &head[..view_end],
        &rest[..list_end],
        &rest[first_start..],
        out,
    )
}

fn main(rt: HostRuntime) -> io::Result<()> {
    let mut head = [0u8; HEAD_ROOM];
    let count = read_full::read_full(&mut rt.stdin(), &mut head)?;
    let mut out = [0u8; sheet::SHEET_LIMIT];
    let size = answer(&rt, &head[..count], &mut out);
    rt.write_all(&out[..size])
}
