// Runs the worked examples, and prints what each gives.
#![tactic(auto)]

mod example;
mod outcome;
mod table;

use outcome::print_outcome;
use std::io::{BufWriter, Write};
use table::examples;

fn run(rt: &HostRuntime) -> anyhow::Result<()> {
    let mut out = BufWriter::new(rt.alloc(), rt.stdout())?;
    for example in examples() {
        print_outcome(&mut out, example)?;
    }
    out.flush()?;
    Ok(())
}

fn main(rt: HostRuntime) -> anyhow::Result<()> {
    run(&rt)
}
