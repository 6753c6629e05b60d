// A line of an input that is refused, as it is printed.
use std::fmt;
use tables::Refusal;

#[derive(Clone, Copy, PartialEq, Eq, Debug)]
pub struct RefusedLine {
    /// its number in the input, from 1
    pub number: u64,
    pub refusal: Refusal,
}

impl fmt::Display for RefusedLine {
    ghost use Rattle.std.specs.Prelude.{Some};
    ghost use Rattle.reader.specs.Printing.{refused_text};

    ghost output = { λ l. Some (refused_text l) };

    fn fmt<W: fmt::Write>(&self, f: &mut fmt::Formatter<W>) -> fmt::Result {
        let reason = self.refusal.reason.number();
        let part = self.refusal.part.number();
        let number = self.number;
        write!(f, "refused {reason} {part} {number}")
    }
}
