// Shows what a query keeps of a file: reads the query, the names and an XML text from standard input, and writes the kept file.
#![tactic(auto)]

use std::io;

// One byte more than an input may have, so that a longer input is seen to be too long.
const ROOM: usize = show::INPUT_LIMIT + 1;

fn main(rt: HostRuntime) -> io::Result<()> {
    let mut input = [0u8; ROOM];
    let count = read_full::read_full(&mut rt.stdin(), &mut input)?;
    let mut out = [0u8; show::SHOW_LIMIT];
    let size = show::show(&input[..count], &mut out);
    rt.write_all(&out[..size])
}
