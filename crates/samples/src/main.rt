// Runs the reader on each of the samples that are named, and tells whether it prints what stands beside the sample.
#![tactic(auto)]

use std::{env, fs};

fn main(rt: HostRuntime) -> anyhow::Result<()> {
    for name in env::args(&rt)?.skip(1) {
        let input = fs::read(&rt, format!(in rt.alloc(); "{name}.txt")?)?;
        let expected = fs::read(&rt, format!(in rt.alloc(); "{name}.out")?)?;
        let mut output = Vec::new(rt.alloc());
        reader::run(rt.alloc(), &mut input.as_slice(), &mut output)?;
        let told = if output == expected {
            "as expected"
        } else {
            "NOT as expected"
        };
        println!(rt; "{name}: {told}")?;
    }
    Ok(())
}
