// Composes two queries leanly: reads them with a name list from standard input, and writes the report on them.
#![tactic(auto)]

use std::io;

// One byte more than an input may have, so that a longer input is seen to be too long.
const ROOM: usize = report::INPUT_LIMIT + 1;

fn main(rt: HostRuntime) -> io::Result<()> {
    let mut input = [0u8; ROOM];
    let count = read_full::read_full(&mut rt.stdin(), &mut input)?;
    let mut out = [0u8; report::REPORT_LIMIT];
    let size = report::report_lean(&input[..count], &mut out);
    rt.write_all(&out[..size])
}
