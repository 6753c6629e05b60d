//! CC 6470, real-time imbalance energy: what a resource is charged. A CC is a charge code of the operator.
ghost use Rattle.std.specs.Prelude.{◌≡◌, ◌≤◌, ◌+ℤ◌, neg_ℤ, unsigned_abs};
ghost use Rattle.formulas.specs.Ranges.{most_products, most_charge};
ghost use Rattle.formulas.specs.Working.{most_adjustment, most_priced, most_product};
ghost use Rattle.formulas.specs.Imbalance.{terms_of, energy_price, operational_adjustment, residual_price};
ghost use Rattle.formulas.specs.Imbalance.{priced_energy, imbalance_products, imbalance_charge};

use super::dispatch::exceptional_dispatch;
use super::products::Products;
use deemed::Units;
use rows::{Cents, DeemedEnergy, EnergyRecord, Interval, Price, Resource, ResourceKind};

/// On what terms a resource is charged under CC 6470.
#[derive(Clone, Copy, PartialEq, Eq, Debug)]
pub struct Terms {
    pub kind: ResourceKind,
    /// Of a metered subsystem that has elected net settlement: its energy has the price mss, and not lmp.
    pub net: bool,
    /// Charged nothing.
    pub exempt: bool,
}

impl Terms {
    /// The terms of a resource.
    pub fn of(resource: &Resource) -> Terms
        ensures { result ≡ terms_of resource.now }
    {
        Terms {
            kind: resource.kind,
            net: resource.net,
            exempt: resource.exempt,
        }
    }
}

fn energy_price(net: bool, energy: &EnergyRecord) -> Price
    ensures { result ≡ energy_price net energy.now }
{
    if net { energy.mss } else { energy.lmp }
}

fn residual_price(net: bool, energy: &EnergyRecord) -> Price
    ensures { result ≡ residual_price net energy.now }
{
    if energy.resflag {
        energy.resprice
    } else {
        energy_price(net, energy)
    }
}

fn operational_adjustment(kind: ResourceKind, energy: &EnergyRecord, deemed: DeemedEnergy) -> Units
    ensures value { result.0 ≡ operational_adjustment kind energy.now deemed.units.0 }
    ensures within { unsigned_abs result.0 ≤ most_adjustment }
{
    if kind.is_tie() {
        deemed.units - energy.oa.units
    } else {
        energy.oa.units
    }
}

// The energy that has the energy price.
fn priced_energy(kind: ResourceKind, energy: &EnergyRecord, deemed: DeemedEnergy) -> Units
    ensures value { result.0 ≡ priced_energy kind energy.now deemed.units.0 }
    ensures within { unsigned_abs result.0 ≤ most_priced }
{
    let adjustment = operational_adjustment(kind, energy, deemed);
    energy.iie.units + adjustment + energy.mssiie.units + energy.above.units
}

// Energy is paid for: minus the total of its parts.
fn payment(priced: Products, residual: Products, dispatched: Products) -> Products
    requires priced { unsigned_abs priced.0 ≤ most_product }
    requires residual { unsigned_abs residual.0 ≤ most_product }
    requires dispatched { unsigned_abs dispatched.0 ≤ most_product }
    ensures value { result.0 ≡ neg_ℤ (priced.0 +ℤ residual.0 +ℤ dispatched.0) }
    ensures within { unsigned_abs result.0 ≤ most_products }
{
    Products(-(priced.0 + residual.0 + dispatched.0))
}

/// What a resource is charged for an interval, in products, by its energy record and its deemed energy; 0 where it is exempt.
/// The operator's configuration guide of CC 6470 has the formula.
#[tactic(auto, unfolding(crate::specs::Imbalance::imbalance_products))]
pub fn imbalance_products(terms: Terms, energy: &EnergyRecord, deemed: DeemedEnergy) -> Products
    ensures value { result.0 ≡ imbalance_products terms energy.now deemed.units.0 }
    ensures within { unsigned_abs result.0 ≤ most_products }
{
    if terms.exempt {
        return Products(0);
    }
    let price = energy_price(terms.net, energy);
    let priced = Products::of(price.steps, priced_energy(terms.kind, energy, deemed));
    let residual = Products::of(residual_price(terms.net, energy).steps, energy.res.units);
    let dispatched = exceptional_dispatch(energy);
    payment(priced, residual, dispatched)
}

/// What a resource is charged for an interval, with a deemed energy that is given: its products, rounded once.
#[tactic(auto, unfolding(crate::specs::Imbalance::imbalance_charge), using(crate::proofs::Within::cents_within))]
pub fn imbalance_charge(resource: &Resource, interval: Interval, deemed: DeemedEnergy) -> Cents
    ensures value { result.0 ≡ imbalance_charge interval.index deemed.units.0 resource.now }
    ensures within { unsigned_abs result.0 ≤ most_charge }
{
    let energy = &resource.energy[interval.index];
    imbalance_products(Terms::of(resource), energy, deemed).to_cents()
}
