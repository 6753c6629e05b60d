// Takes the lines of an input, one after another, on a book.
ghost use Rattle.std.specs.Prelude.{◌≡◌, OnErr};
ghost use Rattle.reader.specs.Inputs.{LineTaken, starting};

use super::carrying::carry_out;
use blocks::{Mode, Order};
use statement::Book;
use tables::Refusal;

/// A book, and where the lines before have left the input.
#[derive(Drop)]
pub struct LineReader {
    pub(crate) book: Book,
    pub(crate) mode: Mode,
}

impl LineReader {
    /// At the start of an input.
    pub fn new(book: Book) -> LineReader
        ensures { result ≡ starting book }
    {
        LineReader {
            book,
            mode: Mode::Between,
        }
    }

    /// The book, as the lines so far have made it.
    pub fn book(&self) -> &Book
        ensures { result.now ≡ self.now.book }
    {
        &self.book
    }

    // At the start of another input, on the same book.
    pub(crate) fn restart(&mut self)
        ensures { self.new ≡ starting self.old.book }
    {
        self.mode = Mode::Between;
    }

    /// Takes a line, without its line feed: the order that it gives, if any, or why it or its order is refused. Refused, the book is
    /// as it was.
    pub fn take_line(&mut self, line: &[u8]) -> Result<Option<Order>, Refusal>
        ensures taken { LineTaken line.now self.old self.new result }
        ensures kept { OnErr result (self.new.book ≡ self.old.book) }
    {
        let said = self.mode.read(line)?;
        if let Some(order) = said {
            carry_out(&mut self.book, order)?;
        }
        Ok(said)
    }
}
