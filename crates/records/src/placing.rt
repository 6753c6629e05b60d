//! Puts records in their places, where the row that they are posted for is entered.
ghost use Rattle.std.specs.Prelude.{◌≡◌, true};
ghost use Rattle.records.specs.Working.{TriedToChange};
ghost use Rattle.tables.specs.declared.refusal.Reason.TheVariants.{Incompatible, OutsideValues};
ghost use Rattle.rows.specs.Kinds.{is_tie};
ghost use Rattle.rows.specs.Records.{OfEnergy, OfTag, OfElection, OfTest, OfTransfer, OfDemand, OfGiven, set};
ghost use Rattle.records.specs.Hours.{area_id, party_id, resource_id, ciso_among, nopay_allowed};

use super::entering::check_ciso;
use deemed::Tag;
use rows::{
    Area, AreaKind, Election, EnergyRecord, GivenAmount, GivenCode, Interval, Party, Power,
    Quarter, Resource, SufficiencyTest, Transfer, UnsignedEnergy,
};
use tables::{Reason, Table};

// A WEIM area has no nopay but 0.
#[tactic(auto, unfolding(crate::specs::Hours::nopay_allowed))]
fn nopay_allowed(nopay: Power, kind: AreaKind) -> bool
    ensures { result ≡ nopay_allowed nopay kind }
{
    nopay.kilowatts.0 == 0 || kind.is_ciso()
}

#[tactic(auto, using(tables::proofs::Changed::changed_put))]
pub(super) fn put_energy(
    resources: &mut Table<Resource>,
    id: u16,
    interval: Interval,
    energy: EnergyRecord,
) -> Result<(), Reason>
    ensures { TriedToChange resource_id id (λ _. true) Incompatible
        (set OfEnergy interval.index energy)
        resources.old resources.new result }
{
    resources.row_mut(id)?.set_energy(interval, energy);
    Ok(())
}

// Only a tie has a tag.
#[tactic(auto, using(tables::proofs::Changed::changed_put, tables::proofs::Changed::replaced_same))]
pub(super) fn put_tag(
    resources: &mut Table<Resource>,
    id: u16,
    interval: Interval,
    tag: Tag,
) -> Result<(), Reason>
    ensures { TriedToChange resource_id id (λ r. is_tie r.kind) Incompatible
        (set OfTag interval.index tag)
        resources.old resources.new result }
{
    let resource = resources.row_mut(id)?;
    if !resource.kind.is_tie() {
        return Err(Reason::Incompatible);
    }
    resource.set_tag(interval, tag);
    Ok(())
}

// An election is allowed only where its nopay is, as a test is.
#[tactic(auto, using(tables::proofs::Changed::changed_put, tables::proofs::Changed::replaced_same))]
pub(super) fn put_election(
    areas: &mut Table<Area>,
    id: u16,
    election: Election,
) -> Result<(), Reason>
    ensures { TriedToChange area_id id (λ a. nopay_allowed election.nopay a.kind) OutsideValues
        (set OfElection 0 election)
        areas.old areas.new result }
{
    let area = areas.row_mut(id)?;
    if !nopay_allowed(election.nopay, area.kind) {
        return Err(Reason::OutsideValues);
    }
    area.set_election(election);
    Ok(())
}

#[tactic(auto, using(tables::proofs::Changed::changed_put, tables::proofs::Changed::replaced_same))]
pub(super) fn put_test(
    areas: &mut Table<Area>,
    id: u16,
    quarter: Quarter,
    test: SufficiencyTest,
) -> Result<(), Reason>
    ensures { TriedToChange area_id id (λ a. nopay_allowed test.nopay a.kind) OutsideValues
        (set OfTest quarter.index test)
        areas.old areas.new result }
{
    let area = areas.row_mut(id)?;
    if !nopay_allowed(test.nopay, area.kind) {
        return Err(Reason::OutsideValues);
    }
    area.set_test(quarter, test);
    Ok(())
}

#[tactic(auto, using(tables::proofs::Changed::changed_put))]
pub(super) fn put_transfer(
    areas: &mut Table<Area>,
    id: u16,
    interval: Interval,
    transfer: Transfer,
) -> Result<(), Reason>
    ensures { TriedToChange area_id id (λ _. true) Incompatible
        (set OfTransfer interval.index transfer)
        areas.old areas.new result }
{
    let area = areas.row_mut(id)?;
    area.set_transfer(interval, transfer);
    Ok(())
}

// Only a party of the CISO area has a demand, or money that is given.
#[tactic(auto, using(tables::proofs::Changed::changed_put, tables::proofs::Changed::replaced_same))]
pub(super) fn put_demand(
    parties: &mut Table<Party>,
    id: u16,
    areas: &Table<Area>,
    interval: Interval,
    demand: UnsignedEnergy,
) -> Result<(), Reason>
    ensures { TriedToChange party_id id (λ p. ciso_among areas.now.rows p.area) Incompatible
        (set OfDemand interval.index demand)
        parties.old parties.new result }
{
    let party = parties.row_mut(id)?;
    check_ciso(areas, party.area)?;
    party.set_demand(interval, demand);
    Ok(())
}

#[tactic(auto, using(tables::proofs::Changed::changed_put, tables::proofs::Changed::replaced_same))]
pub(super) fn put_given(
    parties: &mut Table<Party>,
    id: u16,
    areas: &Table<Area>,
    interval: Interval,
    code: GivenCode,
    amount: GivenAmount,
) -> Result<(), Reason>
    ensures { TriedToChange party_id id (λ p. ciso_among areas.now.rows p.area) Incompatible
        (set (OfGiven code) interval.index amount)
        parties.old parties.new result }
{
    let party = parties.row_mut(id)?;
    check_ciso(areas, party.area)?;
    party.set_given(interval, code, amount);
    Ok(())
}
