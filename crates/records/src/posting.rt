//! The calls that post a record, each refused by the first reason that fits.
ghost use Rattle.std.specs.Prelude.{◌≡◌};
ghost use Rattle.records.specs.Calls.{hour_after};
ghost use Rattle.records.specs.Working.{verdict};
ghost use Rattle.records.specs.declared.call.Call.TheVariants.{PostEnergy, PostTag, PostElection, PostTest, PostTransfer, PostDemand, PostGiven};

use super::placing::{
    put_demand, put_election, put_energy, put_given, put_tag, put_test, put_transfer,
};
use super::records::Records;
use deemed::Units;
use rows::{
    Cents, ElectionPost, EnergyPost, GivenAmount, GivenCode, Interval, Quarter, TagPost, TestPost,
    TransferPost, UnsignedEnergy,
};
use tables::{Reason, id_of};

impl Records {
    pub(super) fn post_energy(
        &mut self,
        id: i64,
        interval: i64,
        post: EnergyPost,
    ) -> Result<(), Reason>
        ensures answer { result ≡ verdict (PostEnergy id interval post) self.old }
        ensures records { self.new ≡ hour_after (PostEnergy id interval post) self.old }
    {
        let id = id_of(id)?;
        let interval = Interval::numbered(interval)?;
        let energy = post.read()?;
        put_energy(&mut self.resources, id, interval, energy)
    }

    pub(super) fn post_tag(&mut self, id: i64, interval: i64, post: TagPost) -> Result<(), Reason>
        ensures answer { result ≡ verdict (PostTag id interval post) self.old }
        ensures records { self.new ≡ hour_after (PostTag id interval post) self.old }
    {
        let id = id_of(id)?;
        let interval = Interval::numbered(interval)?;
        let tag = post.read()?;
        put_tag(&mut self.resources, id, interval, tag)
    }

    pub(super) fn post_election(&mut self, id: i64, post: ElectionPost) -> Result<(), Reason>
        ensures answer { result ≡ verdict (PostElection id post) self.old }
        ensures records { self.new ≡ hour_after (PostElection id post) self.old }
    {
        let id = id_of(id)?;
        let election = post.read()?;
        put_election(&mut self.areas, id, election)
    }

    pub(super) fn post_test(&mut self, id: i64, quarter: i64, post: TestPost) -> Result<(), Reason>
        ensures answer { result ≡ verdict (PostTest id quarter post) self.old }
        ensures records { self.new ≡ hour_after (PostTest id quarter post) self.old }
    {
        let id = id_of(id)?;
        let quarter = Quarter::numbered(quarter)?;
        let test = post.read()?;
        put_test(&mut self.areas, id, quarter, test)
    }

    pub(super) fn post_transfer(
        &mut self,
        id: i64,
        interval: i64,
        post: TransferPost,
    ) -> Result<(), Reason>
        ensures answer { result ≡ verdict (PostTransfer id interval post) self.old }
        ensures records { self.new ≡ hour_after (PostTransfer id interval post) self.old }
    {
        let id = id_of(id)?;
        let interval = Interval::numbered(interval)?;
        let transfer = post.read()?;
        put_transfer(&mut self.areas, id, interval, transfer)
    }

    pub(super) fn post_demand(&mut self, id: i64, interval: i64, units: Units) -> Result<(), Reason>
        ensures answer { result ≡ verdict (PostDemand id interval units) self.old }
        ensures records { self.new ≡ hour_after (PostDemand id interval units) self.old }
    {
        let id = id_of(id)?;
        let interval = Interval::numbered(interval)?;
        let demand = UnsignedEnergy::of(units)?;
        put_demand(&mut self.parties, id, &self.areas, interval, demand)
    }

    pub(super) fn post_given(
        &mut self,
        id: i64,
        interval: i64,
        code: i64,
        cents: Cents,
    ) -> Result<(), Reason>
        ensures answer { result ≡ verdict (PostGiven id interval code cents) self.old }
        ensures records { self.new ≡ hour_after (PostGiven id interval code cents) self.old }
    {
        let id = id_of(id)?;
        let interval = Interval::numbered(interval)?;
        let code = GivenCode::numbered(code).ok_or(Reason::OutsideValues)?;
        let amount = GivenAmount::of(cents)?;
        put_given(&mut self.parties, id, &self.areas, interval, code, amount)
    }
}
