// Prints what stands in the records of a book.
use super::WORDS;
use anyhow::bail;
use deemed::Tag;
use rows::{
    DeemedEnergy, Election, EnergyRecord, GivenAmount, SufficiencyTest, Transfer, UnsignedEnergy,
};
use statement::Book;
use std::io::{self, Write};
use tables::Refusal;

// What a reading call tells.
#[derive(Clone, Copy)]
enum Reading {
    Energy(EnergyRecord),
    Tag(Tag),
    Deemed(DeemedEnergy),
    Election(Election),
    Test(SufficiencyTest),
    Transfer(Transfer),
    Demand(UnsignedEnergy),
    Given(GivenAmount),
}

// Makes a reading call, and gives what came of it.
fn read(book: &Book, words: [&str; WORDS]) -> anyhow::Result<Result<Reading, Refusal>> {
    let records = book.records();
    Ok(match words {
        ["read", "deemed", id, interval, ..] => {
            book.deemed(id.parse()?, interval.parse()?)
                .map(Reading::Deemed)
        }
        ["read", "energy", id, interval, ..] => {
            records
                .energy(id.parse()?, interval.parse()?)
                .map(Reading::Energy)
        }
        ["read", "tag", id, interval, ..] => {
            records
                .tag(id.parse()?, interval.parse()?)
                .map(Reading::Tag)
        }
        ["read", "election", id, ..] => records.election(id.parse()?).map(Reading::Election),
        ["read", "test", id, quarter, ..] => {
            records
                .test(id.parse()?, quarter.parse()?)
                .map(Reading::Test)
        }
        ["read", "transfer", id, interval, ..] => {
            records
                .transfer(id.parse()?, interval.parse()?)
                .map(Reading::Transfer)
        }
        ["read", "demand", id, interval, ..] => {
            records
                .demand(id.parse()?, interval.parse()?)
                .map(Reading::Demand)
        }
        ["read", "given", id, interval, code, ..] => {
            records
                .given(id.parse()?, interval.parse()?, code.parse()?)
                .map(Reading::Given)
        }
        _ => bail!("no such call"),
    })
}

fn print_energy(out: &mut impl Write, energy: EnergyRecord) -> io::Result<()> {
    for price in [energy.lmp, energy.mss, energy.resprice, energy.edprice] {
        write!(out, "{} ", price.steps.0)?;
    }
    for amount in [
        energy.iie,
        energy.oa,
        energy.mssiie,
        energy.res,
        energy.above,
        energy.edqty,
    ] {
        write!(out, "{} ", amount.units.0)?;
    }
    write!(out, "{} ", u8::from(energy.resflag))?;
    out.write_all(energy.ed.map_or(b".", |kind| kind.name()))?;
    writeln!(out)
}

fn print_tag(out: &mut impl Write, tag: Tag) -> io::Result<()> {
    let curtailed = u8::from(tag.is_curtailed());
    writeln!(out, "{} {} {curtailed}", tag.kw().0, tag.telemetry().0)
}

fn print_election(out: &mut impl Write, election: Election) -> io::Result<()> {
    let opted_in = u8::from(election.opted_in);
    let cap = election.cap.steps.0;
    let up = election.up.kilowatts.0;
    let nopay = election.nopay.kilowatts.0;
    writeln!(out, "{opted_in} {cap} {up} {nopay}")
}

fn print_test(out: &mut impl Write, test: SufficiencyTest) -> io::Result<()> {
    let capacity = test.capacity.kilowatts.0;
    let ramp = test.ramp.kilowatts.0;
    let nopay = test.nopay.kilowatts.0;
    writeln!(out, "{capacity} {ramp} {nopay}")
}

fn print_transfer(out: &mut impl Write, transfer: Transfer) -> io::Result<()> {
    let to = transfer.to.units.0;
    let base_to = transfer.base_to.units.0;
    let from = transfer.from.units.0;
    let base_from = transfer.base_from.units.0;
    writeln!(out, "{to} {base_to} {from} {base_from}")
}

// Makes a reading call, and prints the fields that it tells, or the refusal.
pub(super) fn print_reading(
    out: &mut impl Write,
    book: &Book,
    words: [&str; WORDS],
) -> anyhow::Result<()> {
    match read(book, words)? {
        Ok(Reading::Energy(energy)) => print_energy(out, energy)?,
        Ok(Reading::Tag(tag)) => print_tag(out, tag)?,
        Ok(Reading::Deemed(energy)) => writeln!(out, "{}", energy.units.0)?,
        Ok(Reading::Election(election)) => print_election(out, election)?,
        Ok(Reading::Test(test)) => print_test(out, test)?,
        Ok(Reading::Transfer(transfer)) => print_transfer(out, transfer)?,
        Ok(Reading::Demand(demand)) => writeln!(out, "{}", demand.units.0)?,
        Ok(Reading::Given(amount)) => writeln!(out, "{}", amount.cents.0)?,
        Err(refusal) => writeln!(out, "{refusal}")?,
    }
    Ok(())
}
