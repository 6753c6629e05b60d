// Shares each pool of the input under both rules, to be compared with an independent calculation.
#![tactic(auto)]

use anyhow::Context;
use sharing::{LargestRemainder, Running, SharingRule};
use std::alloc::Global;
use std::io::{self, BufRead, BufReader, BufWriter, Write};

// A pool, and the weights by which it is shared.
#[derive(Drop)]
struct Case {
    pool: i64,
    weights: Vec<u32>,
}

// A line of the input: a pool and its weights.
fn read(heap: Global, line: &str) -> anyhow::Result<Case> {
    let mut numbers = line.split(' ');
    let pool = numbers.next().context("no pool")?.parse()?;
    let weights = numbers
        .map(|word| -> anyhow::Result<u32> { Ok(word.parse()?) })
        .try_collect(heap)?;
    Ok(Case { pool, weights })
}

// The shares under a rule, or the refusal, after the rule's letter. A letter and its rule meet only here. Each line is one
// call, which a type with `Display` would make longer.
fn print<R: SharingRule>(
    out: &mut impl Write,
    letter: char,
    rule: &R,
    case: &Case,
) -> io::Result<()> {
    write!(out, "{letter}")?;
    match rule.share(case.pool, &case.weights) {
        Ok(shares) => {
            for share in shares.as_slice() {
                write!(out, " {share}")?;
            }
        }
        Err(fault) => write!(out, " refused {}", fault.number())?,
    }
    writeln!(out)
}

// As in the other program of cases: a crate for this loop would be no plainer.
fn run(rt: &HostRuntime) -> anyhow::Result<()> {
    let mut out = BufWriter::new(rt.alloc(), rt.stdout())?;
    for line in BufReader::new(rt.alloc(), rt.stdin())?.lines(rt.alloc()) {
        let case = read(rt.alloc(), line?.as_str())?;
        print(&mut out, 'L', &LargestRemainder, &case)?;
        print(&mut out, 'R', &Running, &case)?;
    }
    out.flush()?;
    Ok(())
}

fn main(rt: HostRuntime) -> anyhow::Result<()> {
    run(&rt)
}
