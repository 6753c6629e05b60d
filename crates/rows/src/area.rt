//! An area, with its election of assistance energy transfers, its sufficiency tests and its transfers.
ghost use Rattle.std.specs.Prelude.{◌≡◌};
ghost use Rattle.tables.specs.Equality.{IsExact};
ghost use Rattle.rows.specs.Rows.{no_election, no_test, no_transfer, new_area};
ghost use Rattle.rows.specs.Posts.{MakesUnposted, election_in_range, election_record, test_in_range, test_record};
ghost use Rattle.rows.specs.Posts.{transfer_in_range, transfer_record};
ghost use Rattle.rows.specs.Records.{OfElection, OfTest, OfTransfer, set};

use super::figures::{BidCap, Power, UnsignedEnergy};
use super::kinds::AreaKind;
use super::posts::{ElectionPost, TestPost, TransferPost};
use super::slot::{Interval, QUARTERS, Quarter};
use deemed::INTERVALS;
use tables::HasId;

/// Whether an area takes part in assistance energy transfers, under the names of `ElectionPost`.
#[derive(Clone, Copy, PartialEq, Eq, Debug)]
pub struct Election {
    pub opted_in: bool,
    pub cap: BidCap,
    pub up: Power,
    pub nopay: Power,
}

/// By how much an area failed the upward sufficiency tests of a quarter, under the names of `TestPost`.
#[derive(Clone, Copy, PartialEq, Eq, Debug)]
pub struct SufficiencyTest {
    pub capacity: Power,
    pub ramp: Power,
    pub nopay: Power,
}

/// The transfers of an area with other areas in an interval, under the names of `TransferPost`.
#[derive(Clone, Copy, PartialEq, Eq, Debug)]
pub struct Transfer {
    pub to: UnsignedEnergy,
    pub base_to: UnsignedEnergy,
    pub from: UnsignedEnergy,
    pub base_from: UnsignedEnergy,
}

/// An area, with its records: an election for the hour, a test for each quarter, a transfer for each interval.
#[derive(Drop)]
pub struct Area {
    pub id: u16,
    pub kind: AreaKind,
    pub election: Election,
    pub tests: [SufficiencyTest; QUARTERS],
    pub transfers: [Transfer; INTERVALS],
}

impl Election {
    // what stands where nothing was posted: opted out
    #[tactic(auto, unfolding(crate::specs::Rows::no_election))]
    pub(crate) fn none() -> Election
        ensures { result ≡ no_election }
    {
        Election {
            opted_in: false,
            cap: BidCap::zero(),
            up: Power::zero(),
            nopay: Power::zero(),
        }
    }
}

impl SufficiencyTest {
    pub(crate) fn none() -> SufficiencyTest
        ensures { result ≡ no_test }
    {
        SufficiencyTest {
            capacity: Power::zero(),
            ramp: Power::zero(),
            nopay: Power::zero(),
        }
    }
}

impl Transfer {
    pub(crate) fn none() -> Transfer
        ensures { result ≡ no_transfer }
    {
        Transfer {
            to: UnsignedEnergy::zero(),
            base_to: UnsignedEnergy::zero(),
            from: UnsignedEnergy::zero(),
            base_from: UnsignedEnergy::zero(),
        }
    }
}

impl Area {
    /// An area as it is entered. Nothing is posted for it yet: its records are those that posts of nothing make.
    #[tactic(auto, unfolding(crate::specs::Rows::no_tests, crate::specs::Rows::no_transfers))]
    pub fn new(id: u16, kind: AreaKind) -> Area
        ensures row { result ≡ new_area id kind }
        ensures election { MakesUnposted ⟦<ElectionPost as Default>⟧.is_default
            election_in_range election_record no_election }
        ensures test { MakesUnposted ⟦<TestPost as Default>⟧.is_default test_in_range test_record no_test }
        ensures transfer { MakesUnposted ⟦<TransferPost as Default>⟧.is_default
            transfer_in_range transfer_record no_transfer }
        ensures same_election { IsExact ⟦<Election as PartialEq>⟧.eq ⟦<Election as Clone>⟧.is_clone }
        ensures same_test { IsExact ⟦<SufficiencyTest as PartialEq>⟧.eq
            ⟦<SufficiencyTest as Clone>⟧.is_clone }
        ensures same_transfer { IsExact ⟦<Transfer as PartialEq>⟧.eq ⟦<Transfer as Clone>⟧.is_clone }
    {
        Area {
            id,
            kind,
            election: Election::none(),
            tests: [SufficiencyTest::none(); QUARTERS],
            transfers: [Transfer::none(); INTERVALS],
        }
    }

    /// Puts another election in the place of the one that stands.
    pub fn set_election(&mut self, election: Election)
        ensures { self.new ≡ set OfElection 0 election self.old }
    {
        self.election = election;
    }

    /// Puts another test in the place of the quarter's.
    pub fn set_test(&mut self, quarter: Quarter, test: SufficiencyTest)
        ensures { self.new ≡ set OfTest quarter.index test self.old }
    {
        self.tests[quarter.index] = test;
    }

    /// Puts another transfer in the place of the interval's.
    pub fn set_transfer(&mut self, interval: Interval, transfer: Transfer)
        ensures { self.new ≡ set OfTransfer interval.index transfer self.old }
    {
        self.transfers[interval.index] = transfer;
    }
}

impl HasId for Area {
    ghost key = { λ a. a.id };

    fn id(&self) -> u16 {
        self.id
    }
}
