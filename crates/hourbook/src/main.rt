// Reads an hour from standard input, and prints the lines that are refused and the listing of its statement.
#![tactic(auto)]

use reader::RunError;
use std::io::{BufWriter, Write};

// How many bytes are written at once.
const BLOCK: usize = 65_536;

fn main(rt: HostRuntime) -> anyhow::Result<()> {
    let mut out = BufWriter::with_capacity(rt.alloc(), BLOCK, rt.stdout())?;
    // where this fails, what stands in the buffer is still written as it is let go
    reader::run(rt.alloc(), &mut rt.stdin(), &mut out)?;
    out.flush().map_err(RunError::Output)?;
    Ok(())
}
