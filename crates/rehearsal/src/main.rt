//! Rehearses a script, from standard input to standard output.
#![tactic(auto)]

use rehearse::rehearse;
use script::LIMIT;
use std::io;
use std::io::{Read, Write};

fn main(rt: HostRuntime) -> io::Result<()> {
    let heap = rt.alloc();
    let mut input = Vec::new(heap);
    // One byte more than a script may have, so that a longer one shows.
    rt.stdin().take(LIMIT as u64 + 1).read_to_end(&mut input)?;
    let text = rehearse(heap, input.as_slice())?;
    rt.stdout().write_all(text.as_bytes())
}
