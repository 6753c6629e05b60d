//! The intervals and the quarters of an hour.
ghost use Rattle.std.specs.Prelude.{◌<◌};

use deemed::INTERVALS;
use tables::{Reason, ranged};

/// The quarters of an hour, each of three intervals.
pub const QUARTERS: usize = 4;

/// One of so many equal parts of an hour, by its index from 0. Its number is one more.
#[derive(Clone, Copy, PartialEq, Eq, Debug)]
pub struct Slot<const COUNT: usize> {
    pub index: usize,
    ghost inside: { index < COUNT },
}

/// A settlement interval of five minutes.
pub type Interval = Slot<INTERVALS>;

/// A quarter of an hour.
pub type Quarter = Slot<QUARTERS>;

impl<const COUNT: usize> Slot<COUNT> {
    ghost use Rattle.rows.specs.Slots.{IsNumbered};

    /// The slot with a number from 1 on; `OutsideSpan` for a number that none has.
    pub fn numbered(number: i64) -> Result<Slot<COUNT>, Reason>
        ensures { IsNumbered COUNT number result }
    {
        let most = COUNT.min(i64::MAX as usize) as i64;
        let number = ranged(1, most, number, Reason::OutsideSpan)?;
        Ok(Slot {
            index: number as usize - 1,
        })
    }
}

impl Slot<INTERVALS> {
    ghost use Rattle.std.specs.Prelude.{◌≡◌, ◌+◌};
    ghost use Rattle.rows.specs.Ranges.{quarters};
    ghost use Rattle.rows.specs.Slots.{quarter_of};

    /// The interval's number, from 1 to 12.
    pub fn number(self) -> u8
        ensures { result ≡ self.index + 1 }
    {
        self.index as u8 + 1
    }

    /// The quarter in which the interval lies.
    pub fn quarter(self) -> Quarter
        ensures index { result.index ≡ quarter_of self.index }
        ensures count { QUARTERS ≡ quarters }
    {
        Slot {
            index: self.index / (INTERVALS / QUARTERS),
        }
    }
}
