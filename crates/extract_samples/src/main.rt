// Tries `extract` on the document of 01's samples and on bad tables, marks and rooms: for each call the number, the place and both columns.
#![tactic(auto)]

use paper::{Answer, Refusal};
use std::io;

// Writes a column on a line, each number in four digits.
fn put_column(rt: &impl Print, column: &[u16]) -> io::Result<()> {
    for x in column {
        print!(rt; "{x:04} ")?;
    }
    println!(rt; "")
}

// Writes the number of an answer, 0 for a value, and its place.
fn put_answer(rt: &impl Print, answer: Answer) -> io::Result<()> {
    let (number, place) = match answer {
        Ok(n) => (0, n),
        Err(Refusal::TooLong) => (1, 0),
        Err(Refusal::BadTable(place)) => (7, place),
        Err(Refusal::BadMarks(place)) => (8, place),
        Err(Refusal::Short(needed)) => (10, needed),
        Err(_) => (99, 0),
    };
    println!(rt; "{number:04} {place:04} ")
}

// One call, with columns of 9s to write on.
fn tried(
    rt: &impl Print,
    parent: &[u16],
    kind: &[u16],
    marks: &[u8],
    parent_room: usize,
    kind_room: usize,
) -> io::Result<()> {
    let mut new_parent = [9u16; 7];
    let mut new_kind = [9u16; 7];
    if parent_room <= 7 {
        if kind_room <= 7 {
            let said = extract::extract(
                parent,
                kind,
                marks,
                &mut new_parent[..parent_room],
                &mut new_kind[..kind_room],
            );
            put_answer(rt, said)?;
            put_column(rt, &new_parent)?;
            put_column(rt, &new_kind)?;
        }
    }
    Ok(())
}

// The document of the samples: marks, and rooms.
fn document(rt: &impl Print) -> io::Result<()> {
    let parent = [0u16, 0, 1, 2, 3, 1, 5];
    let kind = [0u16, 2, 3, 4, 1, 3, 5];
    tried(rt, &parent, &kind, b"\x01\x01\x01\x01\x01\x01\x01", 7, 7)?;
    tried(rt, &parent, &kind, b"\x01\x01\x01\x01\x01\x00\x00", 5, 5)?;
    tried(rt, &parent, &kind, b"\x01\x01\x00\x00\x00\x01\x01", 7, 7)?;
    tried(rt, &parent, &kind, b"\x00\x00\x00\x00\x00\x00\x00", 0, 0)?;
    tried(rt, &parent, &kind, b"\x01\x01\x00\x00\x00\x00\x01", 7, 7)?;
    tried(rt, &parent, &kind, b"\x01\x01\x02\x00\x00\x00\x00", 7, 7)?;
    tried(rt, &parent, &kind, b"\x01\x01\x01\x01\x01\x00\x00", 4, 4)?;
    tried(rt, &parent, &kind, b"\x01\x01\x01\x01\x01\x00", 7, 7)?;
    tried(rt, &parent, &kind, b"\x01\x01\x01\x01\x01\x00\x00", 7, 6)?;
    tried(
        rt,
        &parent,
        &kind[..6],
        b"\x01\x01\x01\x01\x01\x00\x00",
        7,
        7,
    )
}

// Bad tables: an earlier node that is no ancestor, a child of text, a second root, kind 258, a root of another parent, no node.
fn bad_tables(rt: &impl Print) -> io::Result<()> {
    let all = b"\x01\x01\x01\x01\x01\x01\x01";
    let parent = [0u16, 0, 1, 2, 3, 1, 5];
    let kind = [0u16, 2, 3, 4, 1, 3, 5];
    tried(rt, &[0u16, 0, 1, 2, 3, 1, 3], &kind, all, 7, 7)?;
    tried(rt, &[0u16, 0, 1, 2, 3, 4, 5], &kind, all, 7, 7)?;
    tried(rt, &parent, &[0u16, 2, 3, 0, 1, 3, 5], all, 7, 7)?;
    tried(rt, &parent, &[0u16, 2, 257, 258, 1, 3, 5], all, 7, 7)?;
    tried(rt, &[1u16, 0, 1, 2, 3, 1, 5], &kind, all, 7, 7)?;
    tried(rt, &[0u16, 0, 2, 2, 3, 1, 5], &kind, all, 7, 7)?;
    tried(rt, &parent[..0], &kind[..0], b"", 7, 7)
}

fn main(rt: HostRuntime) -> io::Result<()> {
    document(&rt)?;
    bad_tables(&rt)
}
