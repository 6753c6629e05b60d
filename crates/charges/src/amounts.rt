//! The amounts of an hour.
ghost use Rattle.std.specs.Prelude.{◌≡◌};
ghost use Rattle.charges.specs.Amounts.{no_amounts};

use deemed::INTERVALS;
use records::{MOST_PARTIES, MOST_RESOURCES};
use rows::{Cents, DeemedEnergy};

/// What is charged in an interval, in cents: under each charge code (CC) a column, with the parties in the order entered, and 0
/// behind them. Above 0 the party owes, below 0 it is owed.
#[derive(Clone, Copy)]
pub struct IntervalAmounts {
    /// Real-time instructed imbalance energy, with the money that is passed through.
    pub cc_6470: [Cents; MOST_PARTIES],
    /// Unaccounted for energy: money that is given.
    pub cc_6474: [Cents; MOST_PARTIES],
    /// Uninstructed imbalance energy: money that is given.
    pub cc_6475: [Cents; MOST_PARTIES],
    /// Assistance energy transfer surcharge: each party's share of its area's.
    pub cc_6476: [Cents; MOST_PARTIES],
    /// Real-time imbalance energy offset: the shares of the parties in the market operator's own area (CISO).
    pub cc_6477: [Cents; MOST_PARTIES],
    /// The pool that is shared under CC 6477: the other side of CC 6470, 6474 and 6475.
    pub offset: Cents,
    /// The amount of account 0 under CC 6476: the other side of all surcharges.
    pub balance: Cents,
}

/// What is charged in an hour.
#[derive(Clone, Copy)]
pub struct HourAmounts {
    /// The new deemed energies of the resources in the order entered, and 0 behind them.
    pub deemed: [[DeemedEnergy; INTERVALS]; MOST_RESOURCES],
    /// The intervals of the hour, from the first.
    pub intervals: [IntervalAmounts; INTERVALS],
}

impl IntervalAmounts {
    /// Nothing is charged.
    pub fn none() -> IntervalAmounts
        ensures { result ≡ no_amounts }
    {
        IntervalAmounts {
            cc_6470: [Cents(0); MOST_PARTIES],
            cc_6474: [Cents(0); MOST_PARTIES],
            cc_6475: [Cents(0); MOST_PARTIES],
            cc_6476: [Cents(0); MOST_PARTIES],
            cc_6477: [Cents(0); MOST_PARTIES],
            offset: Cents(0),
            balance: Cents(0),
        }
    }
}
