//! The price of exceptional dispatches: of energy that the operator orders by hand, outside the market's schedule.
ghost use Rattle.std.specs.Prelude.{◌≡◌, ◌≤◌, unsigned_abs};
ghost use Rattle.formulas.specs.Working.{most_product};
ghost use Rattle.formulas.specs.Dispatch.{dispatch_price, exceptional_dispatch, higher, lower};

use super::products::Products;
use rows::{DispatchClass, EnergyRecord, Price};

fn lower(price: Price, other: Price) -> Price
    ensures { result ≡ lower price other }
{
    if other.steps.0 < price.steps.0 {
        other
    } else {
        price
    }
}

fn higher(price: Price, other: Price) -> Price
    ensures { result ≡ higher price other }
{
    if price.steps.0 < other.steps.0 {
        other
    } else {
        price
    }
}

// The price of an exceptional dispatch of a class.
fn dispatch_price(class: DispatchClass, energy: &EnergyRecord) -> Price
    ensures { result ≡ dispatch_price class energy.now }
{
    if energy.edqty.units.0 < 0 {
        return lower(energy.lmp, energy.edprice);
    }
    match class {
        DispatchClass::First => energy.lmp,
        DispatchClass::Second => higher(energy.lmp, energy.edprice),
    }
}

// The energy of an exceptional dispatch at its price; nothing where there is none.
#[tactic(auto, unfolding(crate::specs::Dispatch::exceptional_dispatch))]
pub(super) fn exceptional_dispatch(energy: &EnergyRecord) -> Products
    ensures value { result.0 ≡ exceptional_dispatch energy.now }
    ensures within { unsigned_abs result.0 ≤ most_product }
{
    match energy.ed {
        None => Products(0),
        Some(kind) => {
            let price = dispatch_price(kind.class(), energy);
            Products::of(price.steps, energy.edqty.units)
        }
    }
}
