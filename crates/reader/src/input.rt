// Reads an input, in whatever pieces it comes.
ghost use Rattle.std.specs.Prelude.{◌≡◌, ◌++◌, [], take};
ghost use Rattle.reader.specs.Feeding.{Ended, Led, NextRefused, most_kept};
ghost use Rattle.reader.specs.Working.{LineEnded};
ghost use Rattle.reader.specs.Inputs.{LineTaken};

use super::lines::LineReader;
use super::refused::RefusedLine;
use arrayvec::ArrayVec;
use blocks::{LONGEST_LINE, Order};
use statement::Book;
use tables::Refusal;
use words::cut;

// So much is kept of a line that has begun: of a line that is too long, so much that it still is.
const MOST_KEPT: usize = LONGEST_LINE + 1;

#[derive(Drop)]
pub struct InputReader {
    pub(crate) lines: LineReader,
    // of the last line that has ended
    pub(crate) number: u64,
    pub(crate) begun: ArrayVec<u8, MOST_KEPT>,
}

impl InputReader {
    /// At the start of an input.
    #[tactic(auto, using(crate::proofs::Leading::led_at_start))]
    pub fn new(book: Book) -> InputReader
        ensures { Led book [] result [] }
    {
        InputReader {
            lines: LineReader::new(book),
            number: 0,
            begun: ArrayVec::new(),
        }
    }

    /// The book, as the lines that have ended have made it.
    pub fn book(&self) -> &Book
        ensures { result.now ≡ self.now.lines.book }
    {
        self.lines.book()
    }

    // Keeps of a line that has begun what it goes on with.
    fn begin(&mut self, bytes: &[u8])
        ensures lines { self.new.lines ≡ self.old.lines }
        ensures number { self.new.number ≡ self.old.number }
        ensures begun { self.new.begun.items ≡ take most_kept (self.old.begun.items ++ bytes.now) }
    {
        let room = self.begun.remaining_capacity().min(bytes.len());
        let _ = self.begun.try_extend_from_slice(&bytes[..room]);
    }

    // Takes the line that has begun, with these bytes at its end.
    #[tactic(auto, using(crate::proofs::Leading::taken_whole))]
    fn take_begun(&mut self, bytes: &[u8]) -> Result<Option<Order>, Refusal>
        ensures taken { LineTaken (take most_kept (self.old.begun.items ++ bytes.now)) self.old.lines self.new.lines result }
        ensures number { self.new.number ≡ self.old.number }
        ensures begun { self.new.begun.items ≡ [] }
    {
        if self.begun.is_empty() {
            return self.lines.take_line(bytes);
        }
        self.begin(bytes);
        let outcome = self.lines.take_line(self.begun.as_slice());
        self.begun.clear();
        outcome
    }

    // Ends the line that has begun, with these bytes.
    fn end_line(&mut self, bytes: &[u8]) -> Option<RefusedLine>
        ensures { LineEnded bytes.now self.old self.new result }
    {
        let outcome = self.take_begun(bytes);
        self.number = self.number.saturating_add(1);
        let refusal = outcome.err()?;
        Some(RefusedLine {
            number: self.number,
            refusal,
        })
    }

    /// Reads on to the next line that is refused, and gives it with the bytes behind it; where there is none, reads all the bytes.
    pub fn next_refused<'a>(&mut self, bytes: &'a [u8]) -> Option<(RefusedLine, &'a [u8])>
        ensures { NextRefused bytes.now self.old self.new result }
    {
        let mut rest = bytes;
        loop {
            let (line, after) = cut(b'\n', rest);
            let Some(after) = after else {
                self.begin(line);
                return None;
            };
            if let Some(refused) = self.end_line(line) {
                return Some((refused, after));
            }
            rest = after;
        }
    }

    /// Ends an input, and gives its last line, if that is refused. Another input may follow, on the same book.
    #[tactic(auto, using(crate::proofs::Leading::input_ended))]
    pub fn end(&mut self) -> Option<RefusedLine>
        ensures { Ended self.old self.new result }
    {
        let refused = self.end_line(b"");
        self.lines.restart();
        self.number = 0;
        refused
    }
}
