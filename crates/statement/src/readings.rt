// The calls that read a book. They change nothing.
ghost use Rattle.std.specs.Prelude.{◌≡◌, length};
ghost use Rattle.records.specs.Calls.{at};
ghost use Rattle.records.specs.Readings.{answer_at, deemed_read};
ghost use Rattle.records.specs.Trial.{trial_read};
ghost use Rattle.statement.specs.Promises.{Promises};
ghost use Rattle.statement.specs.Readings.{LineRead};

use super::book::Book;
use super::line::Line;
use super::statement::refused;
use deemed::Units;
use formulas::Products;
use records::Records;
use rows::{DeemedEnergy, EnergyPost};
use tables::{Reason, Refusal};

impl Book {
    /// The records, for the calls that read them.
    pub fn records(&self) -> &Records
        ensures { result.now ≡ self.now.records }
    {
        &self.statement.records
    }

    /// The deemed energy of a resource in an interval.
    pub fn deemed(&self, id: i64, interval: i64) -> Result<DeemedEnergy, Refusal>
        ensures energy { result ≡ answer_at (at interval id) (deemed_read id interval self.now.records) }
        ensures promises { Promises self.now }
    {
        self.statement.records.deemed(id, interval)
    }

    /// The lines, in the order billed.
    pub fn lines(&self) -> &[Line]
        ensures lines { result.now ≡ self.now.lines.rows }
        ensures promises { Promises self.now }
    {
        self.statement.lines.rows()
    }

    /// The line at a place, from 1.
    pub fn line(&self, place: i64) -> Result<Line, Refusal>
        ensures line { LineRead place self.now.lines.rows result }
        ensures promises { Promises self.now }
    {
        let lines = self.lines();
        if place < 1 || place as u64 > lines.len() as u64 {
            return Err(refused(Reason::OutsideSpan));
        }
        Ok(lines[place as usize - 1])
    }

    /// How many lines there are.
    pub fn line_count(&self) -> usize
        ensures count { result ≡ length self.now.lines.rows }
        ensures promises { Promises self.now }
    {
        self.lines().len()
    }

    /// Whether the book stands settled.
    pub fn is_settled(&self) -> bool
        ensures settled { result ≡ self.now.settled }
        ensures promises { Promises self.now }
    {
        self.statement.settled
    }

    /// How many runs there have been.
    pub fn runs(&self) -> u16
        ensures runs { result ≡ self.now.runs }
        ensures promises { Promises self.now }
    {
        self.statement.runs
    }

    /// A resource's products, from 12,000,000 to a cent, in an interval with an energy record in place of its own and with a deemed
    /// energy. The record stands there within this call alone. Refused as the post of the record would be, and where the deemed energy
    /// is outside its values; the book is as before in every case.
    pub fn trial(
        &mut self,
        id: i64,
        interval: i64,
        post: EnergyPost,
        deemed: Units,
    ) -> Result<Products, Refusal>
        ensures answer { result ≡ answer_at (at interval id) (trial_read id interval post deemed self.old.records) }
        ensures kept { self.new ≡ self.old }
    {
        self.statement.records.trial(id, interval, post, deemed)
    }
}
