// Reads a sheet and a log from standard input and prints two lines: the log's run on the sheet, and
// that on the sheet's network. It reads one byte more than the input may have, so that one too many is
// seen.
#![tactic(auto)]

use std::io;
use std::io::{Read, Write};

fn main(rt: HostRuntime) -> io::Result<()> {
    let mut input = Vec::new(rt.alloc());
    rt.stdin().take(65537).read_to_end(&mut input)?;
    let mut out = [0u8; 300];
    let size = lines::lines(&input, &mut out);
    rt.stdout().write_all(&out[..size])
}
