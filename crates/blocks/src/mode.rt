// Where a line stands, and what it says there.
ghost use Rattle.std.specs.Prelude.{◌≡◌};
ghost use Rattle.blocks.specs.Lines.{malformed, read_line};

use super::heading::Heading;
use super::order::Order;
use tables::{Part, Place, Reason, Refusal};

/// Between blocks, in a block that is skipped since its names were refused, or in one with its names.
#[derive(Drop)]
pub enum Mode {
    Between,
    Skipping,
    Within(Heading),
}

fn malformed() -> Refusal
    ensures { result ≡ malformed }
{
    Refusal {
        reason: Reason::Malformed,
        part: Part::Reader,
        place: Place { interval: 0, id: 0 },
    }
}

impl Mode {
    /// Reads a line, without its line feed: what it orders, if anything, or why it is refused.
    pub fn read(&mut self, line: &[u8]) -> Result<Option<Order>, Refusal>
        ensures { (self.new, result) ≡ read_line line.now self.old }
    {
        if line.is_empty() {
            *self = Mode::Between;
            return Ok(None);
        }
        match self {
            Mode::Between => match Heading::of(line) {
                Some(heading) => {
                    *self = Mode::Within(heading);
                    Ok(None)
                }
                None => {
                    *self = Mode::Skipping;
                    Err(malformed())
                }
            },
            Mode::Skipping => Ok(None),
            Mode::Within(heading) => match heading.order(line) {
                Some(order) => Ok(Some(order)),
                None => Err(malformed()),
            },
        }
    }
}
