//! A party, with its demand and the money given for it.
ghost use Rattle.std.specs.Prelude.{◌≡◌, Some};
ghost use Rattle.tables.specs.Equality.{IsExact};
ghost use Rattle.rows.specs.Rows.{nothing_given, new_party};
ghost use Rattle.rows.specs.Posted.{given_at};
ghost use Rattle.rows.specs.Records.{OfDemand, OfGiven, get, set};

use super::figures::{GivenAmount, UnsignedEnergy};
use super::given::GivenCode;
use super::slot::Interval;
use deemed::INTERVALS;
use tables::HasId;

/// The money that is given for a party in each interval, under each of three charge codes.
#[derive(Clone, Copy, PartialEq, Eq, Debug)]
pub struct GivenAmounts {
    /// What is passed through to the party under CC 6470.
    pub pass_through: [GivenAmount; INTERVALS],
    pub cc_6474: [GivenAmount; INTERVALS],
    pub cc_6475: [GivenAmount; INTERVALS],
}

/// A party of an area, with its demand and the money given for it.
#[derive(Drop)]
pub struct Party {
    pub id: u16,
    pub area: u16,
    pub demand: [UnsignedEnergy; INTERVALS],
    pub given: GivenAmounts,
}

impl GivenAmounts {
    #[tactic(auto, unfolding(crate::specs::Rows::nothing_given))]
    pub(crate) fn none() -> GivenAmounts
        ensures { result ≡ nothing_given }
    {
        GivenAmounts {
            pass_through: [GivenAmount::zero(); INTERVALS],
            cc_6474: [GivenAmount::zero(); INTERVALS],
            cc_6475: [GivenAmount::zero(); INTERVALS],
        }
    }
}

impl Party {
    /// A party as it is entered, for which nothing is posted yet.
    #[tactic(auto, unfolding(crate::specs::Rows::no_demand))]
    pub fn new(id: u16, area: u16) -> Party
        ensures row { result ≡ new_party id area }
        ensures same_given { IsExact ⟦<GivenAmounts as PartialEq>⟧.eq ⟦<GivenAmounts as Clone>⟧.is_clone }
    {
        Party {
            id,
            area,
            demand: [UnsignedEnergy::zero(); INTERVALS],
            given: GivenAmounts::none(),
        }
    }

    /// Puts another demand in the place of the interval's.
    pub fn set_demand(&mut self, interval: Interval, demand: UnsignedEnergy)
        ensures { self.new ≡ set OfDemand interval.index demand self.old }
    {
        self.demand[interval.index] = demand;
    }

    /// Puts another amount in the place of the one that is given in the interval under the code.
    pub fn set_given(&mut self, interval: Interval, code: GivenCode, amount: GivenAmount)
        ensures { self.new ≡ set (OfGiven code) interval.index amount self.old }
    {
        match code {
            GivenCode::PassThrough => self.given.pass_through[interval.index] = amount,
            GivenCode::Cc6474 => self.given.cc_6474[interval.index] = amount,
            GivenCode::Cc6475 => self.given.cc_6475[interval.index] = amount,
        }
    }

    /// What is given in an interval under a code.
    pub fn given(&self, interval: Interval, code: GivenCode) -> GivenAmount
        ensures at { result ≡ given_at code interval.index self.now }
        ensures slot { get (OfGiven code) interval.index self.now ≡ Some result }
    {
        match code {
            GivenCode::PassThrough => self.given.pass_through[interval.index],
            GivenCode::Cc6474 => self.given.cc_6474[interval.index],
            GivenCode::Cc6475 => self.given.cc_6475[interval.index],
        }
    }
}

impl HasId for Party {
    ghost key = { λ p. p.id };

    fn id(&self) -> u16 {
        self.id
    }
}
