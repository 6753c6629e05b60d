//! CC 6476, the surcharge of an area on assistance energy transfers.
ghost use Rattle.std.specs.Prelude.{◌≡◌, ◌≤◌, unsigned_abs};
ghost use Rattle.rows.specs.Ranges.{most_energy};
ghost use Rattle.formulas.specs.Ranges.{most_charge};
ghost use Rattle.formulas.specs.Working.{most_transfer, most_credit, most_priced};
ghost use Rattle.formulas.specs.Surcharge.{failed_capacity, beyond_base, transferred, credit, surcharge_quantity};
ghost use Rattle.formulas.specs.Surcharge.{surcharge_pool, area_pool};

use super::products::Products;
use deemed::{Kilowatts, Units};
use rows::{Area, Cents, Election, Interval, SufficiencyTest, Transfer, UnsignedEnergy};

// F: by how much the area failed its tests, over an interval.
fn failed_capacity(test: &SufficiencyTest) -> Units
    ensures { result.0 ≡ failed_capacity test.now }
{
    let failed = test.capacity.kilowatts.0.max(test.ramp.kilowatts.0);
    Kilowatts(failed).over_an_interval()
}

fn beyond_base(transferred: UnsignedEnergy, base: UnsignedEnergy) -> Units
    ensures value { result.0 ≡ beyond_base transferred base }
    ensures within { unsigned_abs result.0 ≤ most_energy }
{
    transferred.units - base.units
}

// T: what was transferred to the area, less what was transferred from it.
fn transferred(transfer: &Transfer) -> Units
    ensures value { result.0 ≡ transferred transfer.now }
    ensures within { unsigned_abs result.0 ≤ most_transfer }
{
    beyond_base(transfer.to, transfer.base_to) - beyond_base(transfer.from, transfer.base_from)
}

// The credit: what is not charged.
fn credit(election: &Election, test: &SufficiencyTest) -> Units
    ensures value { result.0 ≡ credit election.now test.now }
    ensures within { unsigned_abs result.0 ≤ most_credit }
{
    let up = election.up.kilowatts.over_an_interval();
    let nopay = election.nopay.kilowatts.over_an_interval();
    up - nopay - test.nopay.kilowatts.over_an_interval()
}

fn quantity(election: &Election, test: &SufficiencyTest, transfer: &Transfer) -> Units
    ensures value { result.0 ≡ surcharge_quantity election.now test.now transfer.now }
    ensures within { unsigned_abs result.0 ≤ most_priced }
{
    if !election.opted_in {
        return Units(0);
    }
    let failed = failed_capacity(test);
    let transferred = transferred(transfer);
    if transferred.0 < failed.0 {
        transferred - credit(election, test)
    } else {
        failed
    }
}

/// The pool of an area for an interval, by its election, the test of the interval's quarter and its transfers: a charge above
/// 0, a payment below, and 0 where the area is opted out. The operator's configuration guide of CC 6476 has the formula.
#[tactic(auto, unfolding(crate::specs::Surcharge::surcharge_pool), using(crate::proofs::Within::cents_within))]
pub fn surcharge_pool(election: &Election, test: &SufficiencyTest, transfer: &Transfer) -> Cents
    ensures value { result.0 ≡ surcharge_pool election.now test.now transfer.now }
    ensures within { unsigned_abs result.0 ≤ most_charge }
{
    Products::of(election.cap.steps, quantity(election, test, transfer)).to_cents()
}

/// The pool of an area for an interval.
pub fn area_pool(area: &Area, interval: Interval) -> Cents
    ensures value { result.0 ≡ area_pool interval.index area.now }
    ensures within { unsigned_abs result.0 ≤ most_charge }
{
    surcharge_pool(
        &area.election,
        &area.tests[interval.quarter().index],
        &area.transfers[interval.index],
    )
}
