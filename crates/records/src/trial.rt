//! The trial of an energy record. The records are as before when it ends. That the record stood in the hour meanwhile is
//! what no contract can see: it is seen in the code, where a guard puts it there and its drop puts back the saved one.
ghost use Rattle.std.specs.Prelude.{◌≡◌, ◌&&◌, []};
ghost use Rattle.std.specs.Option.{option_map};
ghost use Rattle.tables.specs.Refusals.{IsTested};
ghost use Rattle.tables.specs.declared.refusal.Reason.TheVariants.{OutsideValues};
ghost use Rattle.tables.specs.Tables.{row_under};
ghost use Rattle.rows.specs.Figures.{is_deemed, as_deemed};
ghost use Rattle.rows.specs.Posts.{energy_in_range, energy_record};
ghost use Rattle.records.specs.Hours.{resource_id};
ghost use Rattle.records.specs.Calls.{at};
ghost use Rattle.records.specs.Readings.{found_unless, answer_at};
ghost use Rattle.records.specs.Trial.{products_with, trial_read};

use super::readings::answer_at;
use super::records::Records;
use deemed::Units;
use formulas::{Products, Terms, imbalance_products};
use rows::{DeemedEnergy, EnergyPost, EnergyRecord, Interval, Resource};
use tables::{Place, Reason, Refusal, Table, id_of};

// A record under trial, and the one that stands there again when the trial ends.
struct TrialGuard<'a> {
    slot: &'a mut EnergyRecord,
    saved: EnergyRecord,
}

impl Drop for TrialGuard<'_> {
    fn drop(self)
        ensures { self.exit.0.now ≡ self.entry.saved }
    {
        let TrialGuard { slot, saved } = self;
        *slot = saved;
    }
}

// A resource's products with another energy record in the place of its own.
fn tried(
    resource: &mut Resource,
    interval: Interval,
    energy: EnergyRecord,
    deemed: DeemedEnergy,
) -> Products
    ensures value { result ≡ products_with energy deemed resource.old }
    ensures kept { resource.new ≡ resource.old }
{
    let terms = Terms::of(resource);
    let slot = &mut resource.energy[interval.index];
    let saved = *slot;
    let trial = TrialGuard { slot, saved };
    *trial.slot = energy;
    imbalance_products(terms, trial.slot, deemed)
}

// The same in a table, where the resource is entered; the table is as before.
#[tactic(auto, using(tables::proofs::Changed::replaced_same))]
fn try_energy(
    resources: &mut Table<Resource>,
    id: u16,
    interval: Interval,
    energy: EnergyRecord,
    deemed: DeemedEnergy,
) -> Result<Products, Reason>
    ensures answer { result ≡ found_unless []
        (option_map (products_with energy deemed) (row_under resource_id id resources.old.rows)) }
    ensures kept { resources.new ≡ resources.old }
{
    let resource = resources.row_mut(id)?;
    Ok(tried(resource, interval, energy, deemed))
}

// The record that the post makes, and the deemed energy of so many units.
fn figures(post: EnergyPost, deemed: Units) -> Result<(EnergyRecord, DeemedEnergy), Reason>
    ensures { IsTested (energy_in_range post && is_deemed deemed) (energy_record post, as_deemed deemed) OutsideValues result }
{
    Ok((post.read()?, DeemedEnergy::of(deemed)?))
}

impl Records {
    /// A resource's products with another energy record in the place of its own, and with a deemed energy of so many units.
    /// Refused as the post of the record would be, and where the deemed energy is outside its values. The records stay.
    pub fn trial(
        &mut self,
        id: i64,
        interval: i64,
        post: EnergyPost,
        deemed: Units,
    ) -> Result<Products, Refusal>
        ensures answer { result ≡ answer_at (at interval id) (trial_read id interval post deemed self.old) }
        ensures kept { self.new ≡ self.old }
    {
        let place = Place { interval, id };
        let id = answer_at(id_of(id), place)?;
        let interval: Interval = answer_at(Interval::numbered(interval), place)?;
        let (energy, deemed) = answer_at(figures(post, deemed), place)?;
        answer_at(
            try_energy(&mut self.resources, id, interval, energy, deemed),
            place,
        )
    }
}
