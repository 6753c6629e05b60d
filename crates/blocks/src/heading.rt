// What heads a block: which it is, and the names of its columns.
ghost use Rattle.std.specs.Prelude.{◌≡◌};
ghost use Rattle.blocks.specs.Headings.{heading_of, longest_line};
ghost use Rattle.blocks.specs.Orders.{order_in};
ghost use Rattle.blocks.specs.Working.{Read};

use super::block::{Block, MOST_NAMES};
use super::order::Order;
use super::values::Values;
use arrayvec::ArrayVec;
use std::marker::Model;
use words::Words;

/// The most bytes of a line that is read.
pub const LONGEST_LINE: usize = 200;

/// Contracts see the block and the names. A column is kept as the place of its name among those of the block.
#[derive(Drop)]
pub struct Heading {
    block: Block,
    columns: ArrayVec<usize, MOST_NAMES>,
}

impl Model for Heading {
    ghost use Rattle.std.specs.Prelude.{ℕ, ◌<◌, List, map, length, All, eqb};
    ghost use Rattle.std.specs.List.{IsDistinct};
    ghost use Rattle.blocks.specs.declared.block.Block.{Block};
    ghost use Rattle.blocks.specs.Names.{block_names, name_at};

    ghost Value = { Block × List (List ℕ) };

    ghost view = { λ h. (h.block, map (name_at h.block) h.columns.items) };

    ghost invariant = { λ h. IsDistinct eqb h.columns.items × All (λ place. place < length (block_names h.block)) h.columns.items };
}

impl Heading {
    /// What a line of names heads.
    pub fn of(line: &[u8]) -> Option<Heading>
        ensures { result ≡ heading_of line.now }
    {
        if line.len() > LONGEST_LINE {
            return None;
        }
        let block = Block::named(Words::of(line).next()?)?;
        let mut columns = ArrayVec::new();
        for name in Words::of(line) {
            let place = block.place(name)?;
            if columns.contains(&place) {
                return None;
            }
            columns.push(place);
        }
        Some(Heading { block, columns })
    }

    fn values<'a>(&self, line: &'a [u8]) -> Option<Values<'a>>
        ensures { Read self.now line.now result }
    {
        let mut values = Values::none();
        let mut words = Words::of(line);
        for &place in &self.columns {
            values.put(self.block, place, words.next()?)?;
        }
        words.next().is_none().then_some(values)
    }

    /// What a line of values orders.
    pub fn order(&self, line: &[u8]) -> Option<Order>
        ensures order { result ≡ order_in self.now line.now }
        ensures limit { LONGEST_LINE ≡ longest_line }
    {
        if line.len() > LONGEST_LINE {
            return None;
        }
        self.values(line)?.order(self.block)
    }
}
