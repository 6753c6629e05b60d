//! The records of an hour.
ghost use Rattle.std.specs.Prelude.{◌≡◌, ◌≤◌, length, IfOk};
ghost use Rattle.std.specs.List.{All};
ghost use Rattle.deemed.specs.Ranges.{hour_length};
ghost use Rattle.rows.specs.Posted.{with_table};
ghost use Rattle.records.specs.Ranges.{most_areas, most_parties, most_resources};
ghost use Rattle.records.specs.Hours.{opened, with_deemed};
ghost use Rattle.records.specs.Calls.{answer_to, hour_after, refusal};
ghost use Rattle.records.specs.Sound.{Sound, Step, Grows, StepsKeepSound};
ghost use Rattle.records.specs.Standing.{Stands};
ghost use Rattle.records.specs.Keys.{Key, read};
ghost use Rattle.records.specs.Kept.{KeepsRecords, LastStands};
ghost use Rattle.records.specs.Working.{verdict};

use super::call::Call;
use super::readings::answer_at;
use deemed::INTERVALS;
use rows::{Area, DeemedEnergy, Party, Resource};
use std::alloc::{AllocError, Global};
use std::marker::Model;
use tables::{Part, Place, Reason, Refusal, Table};

/// The most areas of an hour.
pub const MOST_AREAS: usize = 16;

/// The most parties of an hour.
pub const MOST_PARTIES: usize = 64;

/// The most resources of an hour.
pub const MOST_RESOURCES: usize = 128;

/// The areas, parties and resources of an hour, with what is posted for each. Of every `Records` what `Sound` says is true.
#[derive(Drop)]
pub struct Records {
    pub(super) areas: Table<Area>,
    pub(super) parties: Table<Party>,
    pub(super) resources: Table<Resource>,
}

// A refusal of this part.
pub(super) fn refused(reason: Reason, place: Place) -> Refusal
    ensures { result ≡ refusal reason place }
{
    Refusal {
        reason,
        part: Part::Charges,
        place,
    }
}

// Puts the deemed energies of a table at resources, in the same order.
fn put_deemed(resources: &mut [Resource], table: &[[DeemedEnergy; INTERVALS]])
    requires { length resources.old ≤ length table.now }
    ensures deemed { resources.new ≡ with_table table.now resources.old }
    ensures whole { All (λ r. length r.deemed ≡ hour_length) resources.new }
{
    // by place: through a `zip` with `iter_mut` nothing is known of what was written
    for (i, energies) in table.iter().enumerate().take(resources.len()) {
        resources[i].set_deemed(*energies);
    }
}

// The same in their table, where it has no more rows than the full number.
#[tactic(auto, using(tables::proofs::Changed::rewritten_whole))]
fn keep_rows(resources: &mut Table<Resource>, table: &[[DeemedEnergy; INTERVALS]; MOST_RESOURCES])
    requires { length resources.old.rows ≤ most_resources }
    ensures rows { resources.new ≡ record resources.old { rows = with_table table.now resources.old.rows } }
    ensures whole { All (λ r. length r.deemed ≡ hour_length) resources.new.rows }
{
    put_deemed(resources.rows_mut(), table);
}

impl Model for Records {
    ghost use Rattle.records.specs.View.{Hour};

    ghost Value = { Hour };

    ghost use Rattle.records.specs.Sound.{Sound};

    ghost view = { λ r. record { areas = r.areas; parties = r.parties; resources = r.resources } };

    ghost invariant = { λ r. Sound (record { areas = r.areas; parties = r.parties; resources = r.resources }) };
}

impl Records {
    /// Records with nothing entered. The tables have room for so many rows, and for no more than the full numbers, however
    /// many are asked for: no more memory than that is asked for. No later call allocates.
    pub fn open(
        alloc: Global,
        areas: usize,
        parties: usize,
        resources: usize,
    ) -> Result<Records, AllocError>
        ensures empty { IfOk result (λ records. records ≡ opened areas parties resources) }
        ensures sound { IfOk result Sound }
        ensures lasting { IfOk result (λ _. StepsKeepSound) }
        ensures kept { IfOk result LastStands }
        ensures limits { (MOST_AREAS ≡ most_areas) × (MOST_PARTIES ≡ most_parties) × (MOST_RESOURCES ≡ most_resources) }
    {
        let areas = Table::open(alloc, areas.min(MOST_AREAS))?;
        let parties = Table::open(alloc, parties.min(MOST_PARTIES))?;
        let resources = Table::open(alloc, resources.min(MOST_RESOURCES))?;
        Ok(Records {
            areas,
            parties,
            resources,
        })
    }

    /// The one way in: every call, as a value. A call is refused by the first of its reasons that fits, and changes nothing
    /// then. An accepted post changes what is read under its own key, and nothing else that is read.
    pub fn take(&mut self, call: Call) -> Result<(), Refusal>
        ensures answer { result ≡ answer_to call self.old }
        ensures records { self.new ≡ hour_after call self.old }
        ensures sound { Sound self.new }
        ensures step { IfOk result (λ _. Step self.old self.new) }
        ensures stands { IfOk result (λ _. Stands call self.new) }
        ensures kept { KeepsRecords call self.old self.new }
        ensures grows { Grows self.old self.new }
    {
        // from here on what `Sound` says is known of the records before
        let _ = &self.areas;
        answer_at(self.dispatch(call), call.place())
    }

    // Gives a call to its function.
    fn dispatch(&mut self, call: Call) -> Result<(), Reason>
        ensures answer { result ≡ verdict call self.old }
        ensures records { self.new ≡ hour_after call self.old }
    {
        match call {
            Call::EnterArea { id, kind } => self.enter_area(id, kind),
            Call::EnterParty { id, area } => self.enter_party(id, area),
            Call::EnterResource {
                id,
                owner,
                kind,
                net,
                exempt,
            } => self.enter_resource(id, owner, kind, net, exempt),
            Call::PostEnergy { id, interval, post } => self.post_energy(id, interval, post),
            Call::PostTag { id, interval, post } => self.post_tag(id, interval, post),
            Call::PostElection { id, post } => self.post_election(id, post),
            Call::PostTest { id, quarter, post } => self.post_test(id, quarter, post),
            Call::PostTransfer { id, interval, post } => self.post_transfer(id, interval, post),
            Call::PostDemand {
                id,
                interval,
                units,
            } => self.post_demand(id, interval, units),
            Call::PostGiven {
                id,
                interval,
                code,
                cents,
            } => self.post_given(id, interval, code, cents),
        }
    }

    /// Keeps deemed energies at the ties: one row of the table for each resource, in the order entered. Plain resources have
    /// none, and stay as they are. What is read under every key is as before.
    pub fn keep_deemed(&mut self, table: &[[DeemedEnergy; INTERVALS]; MOST_RESOURCES])
        ensures records { self.new ≡ with_deemed table.now self.old }
        ensures kept { (key : Key) → read key self.new ≡ read key self.old }
        ensures sound { Sound self.new }
        ensures grows { Grows self.old self.new }
    {
        keep_rows(&mut self.resources, table);
    }

    /// The areas, in the order entered.
    pub fn areas(&self) -> &[Area]
        ensures rows { result.now ≡ self.now.areas.rows }
        ensures sound { Sound self.now }
    {
        self.areas.rows()
    }

    /// The parties, in the order entered.
    pub fn parties(&self) -> &[Party]
        ensures rows { result.now ≡ self.now.parties.rows }
        ensures sound { Sound self.now }
    {
        self.parties.rows()
    }

    /// The resources, in the order entered.
    pub fn resources(&self) -> &[Resource]
        ensures rows { result.now ≡ self.now.resources.rows }
        ensures sound { Sound self.now }
    {
        self.resources.rows()
    }
}
