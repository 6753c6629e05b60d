//! A tie's hour: its twelve settlement intervals.
ghost use Rattle.std.specs.Prelude.{◌≡◌, length, refl};
ghost use Rattle.deemed.specs.Ranges.{hour_length};
ghost use Rattle.deemed.specs.Tags.{pool, weights};

use super::fault::PoolFault;
use super::quantities::Units;
use super::tag::Tag;
use sharing::{Recipient, SharingRule, share_out};

/// The settlement intervals of an hour.
pub const INTERVALS: usize = 12;

/// What each interval of a tie's hour weighs.
pub fn weights(tags: [Tag; INTERVALS]) -> [u32; INTERVALS]
    ensures weights { result ≡ weights tags }
    ensures length { INTERVALS ≡ hour_length }
{
    tags.map(|tag| tag.weight())
}

/// The energy that a dynamic tie shares: what the tags of its hour schedule in all, the curtailed ones too.
#[tactic(auto, using(crate::proofs::Limits::next_fits))]
pub fn pool(tags: [Tag; INTERVALS]) -> Units
    ensures { result.0 ≡ pool tags }
{
    let mut sum = Units(0);
    for tag in tags {
        sum += tag.kw().over_an_interval();
    }
    sum
}

// What an interval weighs, and the energy that it has of the pool.
#[derive(Clone, Copy)]
struct Interval {
    weight: u32,
    deemed: Units,
}

/// A dynamic tie's hour: twelve intervals by their weights, among which its energy is shared.
#[derive(Clone, Copy)]
pub struct TieHour {
    intervals: [Interval; INTERVALS],
    ghost long: { length intervals ≡ hour_length },
}

impl Recipient for Interval {
    type Unit = Units;

    ghost weighs = { λ i. i.weight };

    ghost holds = { λ i. i.deemed };

    ghost having = { λ i u. record { weight = i.weight; deemed = u } };

    ghost tells_back = { λ x u. refl };

    ghost steady = { λ x u. refl };

    fn weight(&self) -> u32 {
        self.weight
    }

    fn take(&mut self, share: Units)
        ensures { self.new ≡ record { weight = self.old.weight; deemed = share } }
    {
        self.deemed = share;
    }

    fn share(&self) -> Units {
        self.deemed
    }
}

impl TieHour {
    ghost use Rattle.deemed.specs.Hours.{IsUnshared, units_of, weights_of};
    ghost use Rattle.deemed.specs.Deemed.{IsShared, IsSharedByTags};

    /// An hour whose intervals have these weights, and no energy yet.
    pub fn new(weights: [u32; INTERVALS]) -> TieHour
        ensures { IsUnshared weights result }
    {
        TieHour {
            intervals: weights.map(|weight| Interval {
                weight,
                deemed: Units(0),
            }),
        }
    }

    /// Shares a pool of energy among the intervals by a rule. Pools and weights beyond the limits of sharing are refused by
    /// 3, and a pool other than 0 with no weight by 8; the hour is then as it was. By the weights of twelve tags, and with
    /// what these schedule, it is refused only by 8.
    pub fn share<R: SharingRule>(&mut self, rule: &R, pool: Units) -> Result<(), PoolFault>
        ensures shared { IsShared (R.SharingRule.shares rule.now) pool.0 self.old self.new result }
        ensures of_tags { IsSharedByTags (R.SharingRule.shares rule.now) pool.0 self.old self.new result }
    {
        share_out(rule, pool, &mut self.intervals)?;
        Ok(())
    }

    /// What each interval weighs.
    pub fn weights(&self) -> [u32; INTERVALS]
        ensures { result ≡ weights_of self.now }
    {
        self.intervals.map(|interval| interval.weight)
    }

    /// The energy of each interval.
    pub fn units(&self) -> [Units; INTERVALS]
        ensures { result ≡ units_of self.now }
    {
        self.intervals.map(|interval| interval.deemed)
    }
}
