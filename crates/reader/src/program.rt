// The program: an input to its output.
ghost use Rattle.std.specs.Prelude.{◌<◌, [], OnOk, IfErr, length};
ghost use Rattle.statement.specs.Promises.{Promises};
ghost use Rattle.reader.specs.Feeding.{Led};
ghost use Rattle.reader.specs.Promised.{OneOutput, Printed, PrintedOnFailure, full_book};
ghost use Rattle.reader.specs.Working.{Fed, FinishedWith};

use super::failure::RunError;
use super::input::InputReader;
use super::listing::write_listing;
use records::{MOST_AREAS, MOST_PARTIES, MOST_RESOURCES};
use statement::{Book, MOST_LINES};
use std::alloc::Global;
use std::io::{self, ErrorKind, Read, Write};

// How many bytes are read at once.
const BLOCK: usize = 65_536;

// Reads the next bytes of an input, and prints the lines that are refused.
fn feed<W: Write>(reader: &mut InputReader, bytes: &[u8], out: &mut W) -> io::Result<()>
    ensures { OnOk result (Fed bytes.now reader.old reader.new (W.contents out.old) (W.contents out.new)) }
{
    let mut rest = bytes;
    while let Some((line, after)) = reader.next_refused(rest) {
        writeln!(out, "{line}")?;
        rest = after;
    }
    Ok(())
}

// Ends an input, and prints its last line, if that is refused, and the listing.
fn finish<W: Write>(reader: &mut InputReader, out: &mut W) -> io::Result<()>
    ensures finished { OnOk result (FinishedWith reader.old reader.new (W.contents out.old) (W.contents out.new)) }
    ensures promises { OnOk result (Promises reader.new.lines.book) }
{
    if let Some(line) = reader.end() {
        writeln!(out, "{line}")?;
    }
    write_listing(reader.book().lines(), out)
}

// Reads an input to its end, as many bytes at once as a block has room for, and prints what is printed of it.
fn print_input<R: Read, W: Write>(
    input: &mut R,
    block: &mut [u8],
    reader: &mut InputReader,
    out: &mut W,
) -> Result<(), RunError>
    requires room { 0 < length block.now }
    requires at_start { Led full_book [] reader.old [] }
    ensures printed { OnOk result (Printed (R.remaining input.old) (R.remaining input.new) (W.contents out.old) (W.contents out.new)) }
    ensures failed { IfErr result (λ error. PrintedOnFailure error (R.remaining input.old) (R.remaining input.new) (W.contents out.old) (W.contents out.new)) }
{
    for _ in 0..u64::MAX {
        match input.read(block) {
            Ok(0) => return finish(reader, out).map_err(RunError::Output),
            Ok(count) => feed(reader, &block[..count], out).map_err(RunError::Output)?,
            Err(error) if error.kind() == ErrorKind::Interrupted => {}
            Err(error) => return Err(RunError::Input(error)),
        }
    }
    Err(RunError::Input(io::Error::from(ErrorKind::TimedOut)))
}

/// Reads an input on a book of the full numbers of rows, prints the lines that are refused, and then the listing.
pub fn run<R: Read, W: Write>(alloc: Global, input: &mut R, out: &mut W) -> Result<(), RunError>
    ensures printed { OnOk result (Printed (R.remaining input.old) (R.remaining input.new) (W.contents out.old) (W.contents out.new)) }
    ensures failed { IfErr result (λ error. PrintedOnFailure error (R.remaining input.old) (R.remaining input.new) (W.contents out.old) (W.contents out.new)) }
    ensures one_output { OneOutput }
{
    let mut block = vec![in alloc; 0u8; BLOCK]?;
    let book = Book::open(alloc, MOST_AREAS, MOST_PARTIES, MOST_RESOURCES, MOST_LINES)?;
    let mut reader = InputReader::new(book);
    print_input(input, &mut block, &mut reader, out)
}
