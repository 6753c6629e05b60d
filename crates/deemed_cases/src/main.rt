// Shares the energy of each tie's hour of the input, to be compared with an independent calculation.
#![tactic(auto)]

use anyhow::{bail, ensure};
use deemed::{
    INTERVALS, Kilowatts, PoolFault, Tag, TelemetrySteps, TieHour, Units, pool, static_units,
    weights,
};
use sharing::{LargestRemainder, Running, SharingRule};
use std::io::{BufRead, BufReader, BufWriter, Write};
use std::{fmt, io};

// One tag of a line, as `kw/telemetry/curtailed`; nothing where a figure is out of range.
fn read(word: &str) -> anyhow::Result<Option<Tag>> {
    let mut figures = word.split('/');
    let (Some(kw), Some(telemetry), Some(curtailed)) = (
        figures.next(),
        figures.next(),
        figures.next(),
    ) else {
        bail!("a tag has three figures");
    };
    let kw = Kilowatts(kw.parse()?);
    let telemetry = TelemetrySteps(telemetry.parse()?);
    Ok(Tag::new(kw, telemetry, curtailed == "1"))
}

// The tags of a line in their intervals; nothing where one is out of range.
fn enter(line: &str) -> anyhow::Result<Option<[Tag; INTERVALS]>> {
    let mut words = line.split(' ');
    let mut tags = [Tag::none(); INTERVALS];
    for (place, word) in tags.iter_mut().zip(words.by_ref()) {
        let Some(tag) = read(word)? else {
            return Ok(None);
        };
        *place = tag;
    }
    let Some(word) = words.next() else {
        return Ok(Some(tags));
    };
    // out of range comes first, also of a thirteenth tag
    ensure!(read(word)?.is_none(), "an hour has twelve tags");
    Ok(None)
}

// A letter, and a figure for each interval.
fn print_row<T: fmt::Display + Copy>(
    out: &mut impl Write,
    letter: char,
    figures: [T; INTERVALS],
) -> io::Result<()> {
    write!(out, "{letter}")?;
    for figure in figures {
        write!(out, " {figure}")?;
    }
    writeln!(out)
}

// The deemed energies under a rule, or the refusal.
fn print_shared<R: SharingRule>(
    out: &mut impl Write,
    letter: char,
    mut hour: TieHour,
    pool: Units,
    rule: &R,
) -> io::Result<()> {
    match hour.share(rule, pool) {
        Ok(()) => print_row(out, letter, hour.units().map(|energy| energy.0)),
        Err(PoolFault(fault)) => writeln!(out, "{letter} refused {}", fault.number()),
    }
}

fn print_tie(out: &mut impl Write, tags: [Tag; INTERVALS]) -> io::Result<()> {
    let weights = weights(tags);
    print_row(out, 'W', weights)?;
    let hour = TieHour::new(weights);
    let pool = pool(tags);
    print_shared(out, 'L', hour, pool, &LargestRemainder)?;
    print_shared(out, 'R', hour, pool, &Running)?;
    print_row(out, 'S', static_units(tags).map(|energy| energy.0))
}

fn run(rt: &HostRuntime) -> anyhow::Result<()> {
    let mut out = BufWriter::new(rt.alloc(), rt.stdout())?;
    for line in BufReader::new(rt.alloc(), rt.stdin())?.lines(rt.alloc()) {
        match enter(line?.as_str())? {
            Some(tags) => print_tie(&mut out, tags)?,
            None => writeln!(out, "out of range")?,
        }
    }
    out.flush()?;
    Ok(())
}

fn main(rt: HostRuntime) -> anyhow::Result<()> {
    run(&rt)
}
