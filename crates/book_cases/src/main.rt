// Makes the calls of the input on books of hours, to be compared with an independent calculation.
#![tactic(auto)]

mod charging;
mod posting;
mod reading;
mod settling;

use anyhow::Context;
use charging::{print_charges, print_trial};
use posting::post;
use reading::print_reading;
use records::Records;
use rows::{AreaKind, Resource, ResourceKind};
use settling::{print_line_at, print_settled, print_statement};
use statement::Book;
use std::alloc::Global;
use std::array;
use std::io::{self, BufRead, BufReader, BufWriter, Write};
use tables::Refusal;

// The most words that a line has.
const WORDS: usize = 16;

// The word of a kind or a type, as it is given. A line shows the empty word as a dash.
fn word_bytes(word: &str) -> &[u8] {
    if word == "-" { b"" } else { word.as_bytes() }
}

// The words of a line, and empty words behind them; nothing where it has more.
fn words_of(line: &str) -> Option<[&str; WORDS]> {
    let mut words = line.split(' ');
    let first = array::from_fn(|_| words.next().unwrap_or(""));
    words.next().is_none().then_some(first)
}

// Enters a row, or posts a record, and gives what came of it.
fn enter_or_post(book: &mut Book, words: [&str; WORDS]) -> anyhow::Result<Result<(), Refusal>> {
    Ok(match words {
        ["area", id, kind, ..] => book.enter_area(id.parse()?, word_bytes(kind)),
        ["party", id, area, ..] => book.enter_party(id.parse()?, area.parse()?),
        ["resource", id, owner, kind, net, exempt, ..] => book.enter_resource(
            id.parse()?,
            owner.parse()?,
            word_bytes(kind),
            net.parse()?,
            exempt.parse()?,
        ),
        _ => post(book, words)?,
    })
}

fn print_outcome(out: &mut impl Write, outcome: Result<(), Refusal>) -> io::Result<()> {
    match outcome {
        Ok(()) => writeln!(out, "ok"),
        Err(refusal) => writeln!(out, "{refusal}"),
    }
}

fn area_letter(kind: AreaKind) -> char {
    match kind {
        AreaKind::Ciso => 'C',
        AreaKind::Weim => 'W',
    }
}

fn resource_letter(kind: ResourceKind) -> char {
    match kind {
        ResourceKind::Plain => 'P',
        ResourceKind::StaticTie => 'S',
        ResourceKind::DynamicTie => 'D',
    }
}

fn print_resource(out: &mut impl Write, resource: &Resource) -> io::Result<()> {
    let kind = resource_letter(resource.kind);
    let net = u8::from(resource.net);
    let exempt = u8::from(resource.exempt);
    write!(
        out,
        " {}:{}:{kind}:{net}:{exempt}",
        resource.id, resource.owner
    )
}

// A line for each table, with its rows in their order.
fn print_tables(out: &mut impl Write, records: &Records) -> io::Result<()> {
    write!(out, "areas")?;
    for area in records.areas() {
        write!(out, " {}:{}", area.id, area_letter(area.kind))?;
    }
    write!(out, "\nparties")?;
    for party in records.parties() {
        write!(out, " {}:{}", party.id, party.area)?;
    }
    write!(out, "\nresources")?;
    for resource in records.resources() {
        print_resource(out, resource)?;
    }
    writeln!(out)
}

fn print_book(out: &mut impl Write, book: &Book) -> io::Result<()> {
    print_tables(out, book.records())?;
    print_statement(out, book)
}

// Makes the call of a line, and prints what came of it. Where a new book is opened, it prints the one before.
fn take_line(
    out: &mut impl Write,
    heap: Global,
    current: &mut Option<Book>,
    line: &str,
) -> anyhow::Result<()> {
    let words = words_of(line).context("a call has sixteen words at most")?;
    if let ["open", areas, parties, resources, lines, ..] = words {
        if let Some(book) = current {
            print_book(out, book)?;
        }
        *current = Some(Book::open(
            heap,
            areas.parse()?,
            parties.parse()?,
            resources.parse()?,
            lines.parse()?,
        )?);
        return Ok(());
    }
    let book = current.as_mut().context("no book is open")?;
    match words {
        ["read", ..] => print_reading(out, book, words)?,
        ["trial", ..] => print_trial(out, book, words)?,
        ["charge", rule, ..] => print_charges(out, book.records(), rule)?,
        ["settle", rule, times, ..] => print_settled(out, book, rule, times)?,
        ["line", place, ..] => print_line_at(out, book, place)?,
        ["statement", ..] => print_statement(out, book)?,
        _ => print_outcome(out, enter_or_post(book, words)?)?,
    }
    Ok(())
}

fn run(rt: &HostRuntime) -> anyhow::Result<()> {
    let mut out = BufWriter::new(rt.alloc(), rt.stdout())?;
    let mut current = None;
    for line in BufReader::new(rt.alloc(), rt.stdin())?.lines(rt.alloc()) {
        take_line(&mut out, rt.alloc(), &mut current, line?.as_str())?;
    }
    if let Some(book) = &current {
        print_book(&mut out, book)?;
    }
    out.flush()?;
    Ok(())
}

fn main(rt: HostRuntime) -> anyhow::Result<()> {
    run(&rt)
}
