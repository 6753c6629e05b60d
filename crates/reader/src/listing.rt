// The listing of a statement.
ghost use Rattle.std.specs.Prelude.{OnOk};
ghost use Rattle.std.specs.Io.KnownBytes.{Appends};
ghost use Rattle.reader.specs.Printing.{listing_text};

use statement::Line;
use std::fmt;
use std::io::{self, Write};

/// A line of a statement, as it is printed.
#[derive(Clone, Copy, PartialEq, Eq, Debug)]
pub struct ListedLine(pub Line);

impl fmt::Display for ListedLine {
    ghost use Rattle.std.specs.Prelude.{Some};
    ghost use Rattle.reader.specs.Printing.{listed_text};

    ghost output = { λ l. Some (listed_text l.0) };

    fn fmt<W: fmt::Write>(&self, f: &mut fmt::Formatter<W>) -> fmt::Result {
        let Line {
            run,
            interval,
            account,
            code,
            cents,
        } = self.0;
        let code = code.number();
        let cents = cents.0;
        write!(f, "{run} {interval} {account} {code} {cents}")
    }
}

/// Writes a header, and a line for each line of a statement.
pub fn write_listing<W: Write>(lines: &[Line], out: &mut W) -> io::Result<()>
    ensures { OnOk result (Appends (W.contents out.old) (W.contents out.new) (listing_text lines.now)) }
{
    out.write_all(b"run interval account code cents\n")?;
    for &line in lines {
        writeln!(out, "{}", ListedLine(line))?;
    }
    Ok(())
}
