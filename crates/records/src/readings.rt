//! The calls that read what stands in the records. They change nothing.
ghost use Rattle.std.specs.Prelude.{◌≡◌, pos};
ghost use Rattle.records.specs.Calls.{at};
ghost use Rattle.rows.specs.Records.{OfEnergy, OfTag, OfTest, OfTransfer, OfDemand};
ghost use Rattle.records.specs.Readings.{answer_at, slot_read, deemed_read, election_read, given_read};

use super::records::{Records, refused};
use deemed::Tag;
use rows::{
    DeemedEnergy, Election, EnergyRecord, GivenAmount, GivenCode, Interval, Quarter,
    SufficiencyTest, Transfer, UnsignedEnergy,
};
use tables::{Place, Reason, Refusal, id_of};

// What is read, or the refusal with its place.
pub(super) fn answer_at<T>(read: Result<T, Reason>, place: Place) -> Result<T, Refusal>
    ensures { result ≡ answer_at place read }
{
    read.map_err(|reason| refused(reason, place))
}

/// Each reading is refused where its id or its interval is outside its span, and where no row is entered under the id.
impl Records {
    /// The energy record of a resource in an interval.
    pub fn energy(&self, id: i64, interval: i64) -> Result<EnergyRecord, Refusal>
        ensures { result ≡ answer_at (at interval id) (slot_read OfEnergy id interval self.now) }
    {
        let place = Place { interval, id };
        let id = answer_at(id_of(id), place)?;
        let interval: Interval = answer_at(Interval::numbered(interval), place)?;
        let resource = answer_at(self.resources.row(id), place)?;
        Ok(resource.energy[interval.index])
    }

    /// The tag of a resource in an interval.
    pub fn tag(&self, id: i64, interval: i64) -> Result<Tag, Refusal>
        ensures { result ≡ answer_at (at interval id) (slot_read OfTag id interval self.now) }
    {
        let place = Place { interval, id };
        let id = answer_at(id_of(id), place)?;
        let interval: Interval = answer_at(Interval::numbered(interval), place)?;
        let resource = answer_at(self.resources.row(id), place)?;
        Ok(resource.tags[interval.index])
    }

    /// The deemed energy of a resource in an interval, in units. That of a plain resource is 0.
    pub fn deemed(&self, id: i64, interval: i64) -> Result<DeemedEnergy, Refusal>
        ensures { result ≡ answer_at (at interval id) (deemed_read id interval self.now) }
    {
        let place = Place { interval, id };
        let id = answer_at(id_of(id), place)?;
        let interval: Interval = answer_at(Interval::numbered(interval), place)?;
        let resource = answer_at(self.resources.row(id), place)?;
        Ok(resource.deemed[interval.index])
    }

    /// The sufficiency test of an area in a quarter, from 1 to 4.
    pub fn test(&self, id: i64, quarter: i64) -> Result<SufficiencyTest, Refusal>
        ensures { result ≡ answer_at (at quarter id) (slot_read OfTest id quarter self.now) }
    {
        let place = Place {
            interval: quarter,
            id,
        };
        let id = answer_at(id_of(id), place)?;
        let quarter: Quarter = answer_at(Quarter::numbered(quarter), place)?;
        let area = answer_at(self.areas.row(id), place)?;
        Ok(area.tests[quarter.index])
    }

    /// The transfers of an area in an interval.
    pub fn transfer(&self, id: i64, interval: i64) -> Result<Transfer, Refusal>
        ensures { result ≡ answer_at (at interval id) (slot_read OfTransfer id interval self.now) }
    {
        let place = Place { interval, id };
        let id = answer_at(id_of(id), place)?;
        let interval: Interval = answer_at(Interval::numbered(interval), place)?;
        let area = answer_at(self.areas.row(id), place)?;
        Ok(area.transfers[interval.index])
    }

    /// The demand of a party in an interval, in units.
    pub fn demand(&self, id: i64, interval: i64) -> Result<UnsignedEnergy, Refusal>
        ensures { result ≡ answer_at (at interval id) (slot_read OfDemand id interval self.now) }
    {
        let place = Place { interval, id };
        let id = answer_at(id_of(id), place)?;
        let interval: Interval = answer_at(Interval::numbered(interval), place)?;
        let party = answer_at(self.parties.row(id), place)?;
        Ok(party.demand[interval.index])
    }

    /// The election of an area.
    pub fn election(&self, id: i64) -> Result<Election, Refusal>
        ensures { result ≡ answer_at (at (pos 0) id) (election_read id self.now) }
    {
        let place = Place { interval: 0, id };
        let id = answer_at(id_of(id), place)?;
        let area = answer_at(self.areas.row(id), place)?;
        Ok(area.election)
    }

    /// What is given for a party in an interval under charge code 6470, 6474 or 6475, in cents. Another code is refused.
    pub fn given(&self, id: i64, interval: i64, code: i64) -> Result<GivenAmount, Refusal>
        ensures { result ≡ answer_at (at interval id) (given_read id interval code self.now) }
    {
        let place = Place { interval, id };
        let id = answer_at(id_of(id), place)?;
        let interval: Interval = answer_at(Interval::numbered(interval), place)?;
        let code = GivenCode::numbered(code).ok_or(refused(Reason::OutsideValues, place))?;
        let party = answer_at(self.parties.row(id), place)?;
        Ok(party.given(interval, code))
    }
}
