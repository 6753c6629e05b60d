// Tries records, and works hours out.
use super::WORDS;
use super::posting::energy_post;
use anyhow::bail;
use charges::{ChargeCode, ChargeFault, HourAmounts, IntervalAmounts, work_out};
use deemed::Units;
use records::Records;
use rows::Cents;
use sharing::{LargestRemainder, Running};
use statement::Book;
use std::io::{self, Write};

// Tries the record of a line, whose last word is the deemed energy, and prints the products.
pub(super) fn print_trial(
    out: &mut impl Write,
    book: &mut Book,
    words: [&str; WORDS],
) -> anyhow::Result<()> {
    let [_trial, id, interval, .., deemed] = words;
    let post = energy_post(words)?;
    let deemed = Units(deemed.parse()?);
    match book.trial(id.parse()?, interval.parse()?, post, deemed) {
        Ok(products) => writeln!(out, "products {}", products.0)?,
        Err(refusal) => writeln!(out, "{refusal}")?,
    }
    Ok(())
}

fn print_amount(
    out: &mut impl Write,
    interval: usize,
    account: u16,
    code: ChargeCode,
    cents: Cents,
) -> io::Result<()> {
    if cents.0 == 0 {
        return Ok(());
    }
    writeln!(out, "{interval} {account} {} {}", code.number(), cents.0)
}

// The amounts of an interval that are not 0.
fn print_interval(
    out: &mut impl Write,
    records: &Records,
    interval: usize,
    amounts: &IntervalAmounts,
) -> io::Result<()> {
    for (place, party) in records.parties().iter().enumerate() {
        for code in ChargeCode::ALL {
            if let Some(&cents) = amounts.column(code).get(place) {
                print_amount(out, interval, party.id, code, cents)?;
            }
        }
    }
    print_amount(out, interval, 0, ChargeCode::Cc6476, amounts.balance)
}

// The new deemed energies of the ties, and the amounts.
fn print_hour(out: &mut impl Write, records: &Records, hour: &HourAmounts) -> io::Result<()> {
    writeln!(out, "charged")?;
    for (resource, energies) in records.resources().iter().zip(&hour.deemed) {
        if resource.kind.is_tie() {
            write!(out, "deemed {}", resource.id)?;
            for energy in energies {
                write!(out, " {}", energy.units.0)?;
            }
            writeln!(out)?;
        }
    }
    for (place, amounts) in hour.intervals.iter().enumerate() {
        print_interval(out, records, place + 1, amounts)?;
    }
    Ok(())
}

fn worked_out(records: &Records, rule: &str) -> anyhow::Result<Result<HourAmounts, ChargeFault>> {
    Ok(match rule {
        "L" => work_out(records, &LargestRemainder),
        "R" => work_out(records, &Running),
        _ => bail!("no such rule"),
    })
}

// Works the hour out by the rule of a letter, and prints what came of it.
pub(super) fn print_charges(
    out: &mut impl Write,
    records: &Records,
    rule: &str,
) -> anyhow::Result<()> {
    match worked_out(records, rule)? {
        Ok(hour) => print_hour(out, records, &hour)?,
        Err(fault) => writeln!(out, "{}", fault.refusal())?,
    }
    Ok(())
}
