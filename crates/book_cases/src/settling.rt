// Settles books, and prints their lines.
use anyhow::bail;
use sharing::{LargestRemainder, Running};
use statement::{Book, Line, Run};
use std::io::{self, Write};
use tables::Refusal;

fn print_line(out: &mut impl Write, line: Line) -> io::Result<()> {
    let Line {
        run,
        interval,
        account,
        code,
        cents,
    } = line;
    writeln!(
        out,
        "{run} {interval} {account} {} {}",
        code.number(),
        cents.0
    )
}

// How many lines and runs there are, whether the book stands settled, and the lines.
pub(super) fn print_statement(out: &mut impl Write, book: &Book) -> io::Result<()> {
    let settled = u8::from(book.is_settled());
    writeln!(
        out,
        "statement {} {} {settled}",
        book.line_count(),
        book.runs()
    )?;
    for &line in book.lines() {
        print_line(out, line)?;
    }
    Ok(())
}

pub(super) fn print_line_at(out: &mut impl Write, book: &Book, place: &str) -> anyhow::Result<()> {
    match book.line(place.parse()?) {
        Ok(line) => print_line(out, line)?,
        Err(refusal) => writeln!(out, "{refusal}")?,
    }
    Ok(())
}

// Settles by the rule of a letter.
fn settle(book: &mut Book, rule: &str) -> anyhow::Result<Result<Run, Refusal>> {
    Ok(match rule {
        "L" => book.settle(&LargestRemainder),
        "R" => book.settle(&Running),
        _ => bail!("no such rule"),
    })
}

// Settles so many times, or once where no number is given, and prints what came of the last.
pub(super) fn print_settled(
    out: &mut impl Write,
    book: &mut Book,
    rule: &str,
    times: &str,
) -> anyhow::Result<()> {
    let times: u32 = if times.is_empty() { 1 } else { times.parse()? };
    for _ in 1..times {
        let _ = settle(book, rule)?;
    }
    match settle(book, rule)? {
        Ok(Run { number, lines }) => writeln!(out, "run {number} lines {lines}")?,
        Err(refusal) => writeln!(out, "{refusal}")?,
    }
    Ok(())
}
