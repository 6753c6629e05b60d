//! The ranges of figures, and the figures of quantities inside them.
ghost use Rattle.std.specs.Prelude.{◌≡◌, pos};
ghost use Rattle.tables.specs.Equality.{IsExact};
ghost use Rattle.tables.specs.Refusals.{IsTested};
ghost use Rattle.tables.specs.declared.refusal.Reason.TheVariants.{OutsideValues};
ghost use Rattle.rows.specs.Ranges.{most_price, most_energy, most_given, most_deemed};
ghost use Rattle.rows.specs.Figures.{as_cap, as_deemed, as_energy, as_given, as_power, as_price, as_unsigned};
ghost use Rattle.rows.specs.Figures.{is_cap, is_deemed, is_energy, is_given, is_power, is_price, is_unsigned};
ghost use Rattle.rows.specs.Figures.{no_cents, no_kilowatts, no_steps, no_units};

use super::figures::{
    BidCap, Cents, DeemedEnergy, Energy, GivenAmount, Power, Price, PriceSteps, UnsignedEnergy,
};
use deemed::{Kilowatts, Units};
use tables::{Reason, ranged};

/// The largest price, in steps.
pub const MOST_PRICE: i64 = 500_000_000;

/// The largest energy of an interval, in units, and the largest power, in kilowatts.
pub const MOST_ENERGY: i64 = 10_000_000;

/// The largest amount that is given, in cents.
pub const MOST_GIVEN: i64 = 1_000_000_000;

/// The largest deemed energy of an interval, in units: what twelve tags schedule at most.
pub const MOST_DEEMED: i64 = 120_000_000;

impl Price {
    /// The price of so many steps, where it is inside its range; else `OutsideValues`.
    #[tactic(auto, unfolding(crate::specs::Figures::as_price))]
    pub fn of(steps: PriceSteps) -> Result<Price, Reason>
        ensures tested { IsTested (is_price steps) (as_price steps) OutsideValues result }
        ensures limit { MOST_PRICE ≡ pos most_price }
        ensures same { IsExact ⟦<Price as PartialEq>⟧.eq ⟦<Price as Clone>⟧.is_clone }
    {
        ranged(-MOST_PRICE, MOST_PRICE, steps.0, Reason::OutsideValues)?;
        Ok(Price { steps })
    }

    #[tactic(auto, unfolding(crate::specs::Figures::as_price))]
    pub(crate) fn zero() -> Price
        ensures { result ≡ as_price no_steps }
    {
        Price {
            steps: PriceSteps(0),
        }
    }
}

impl BidCap {
    /// The bid cap of so many steps, where it is inside its range; else `OutsideValues`.
    #[tactic(auto, unfolding(crate::specs::Figures::as_cap))]
    pub fn of(steps: PriceSteps) -> Result<BidCap, Reason>
        ensures tested { IsTested (is_cap steps) (as_cap steps) OutsideValues result }
        ensures same { IsExact ⟦<BidCap as PartialEq>⟧.eq ⟦<BidCap as Clone>⟧.is_clone }
    {
        ranged(0, MOST_PRICE, steps.0, Reason::OutsideValues)?;
        Ok(BidCap { steps })
    }

    #[tactic(auto, unfolding(crate::specs::Figures::as_cap))]
    pub(crate) fn zero() -> BidCap
        ensures { result ≡ as_cap no_steps }
    {
        BidCap {
            steps: PriceSteps(0),
        }
    }
}

impl Energy {
    /// The energy of so many units, where it is inside its range; else `OutsideValues`.
    #[tactic(auto, unfolding(crate::specs::Figures::as_energy))]
    pub fn of(units: Units) -> Result<Energy, Reason>
        ensures tested { IsTested (is_energy units) (as_energy units) OutsideValues result }
        ensures limit { MOST_ENERGY ≡ pos most_energy }
        ensures same { IsExact ⟦<Energy as PartialEq>⟧.eq ⟦<Energy as Clone>⟧.is_clone }
    {
        ranged(-MOST_ENERGY, MOST_ENERGY, units.0, Reason::OutsideValues)?;
        Ok(Energy { units })
    }

    #[tactic(auto, unfolding(crate::specs::Figures::as_energy))]
    pub(crate) fn zero() -> Energy
        ensures { result ≡ as_energy no_units }
    {
        Energy { units: Units(0) }
    }
}

impl UnsignedEnergy {
    /// The energy of so many units, where it is inside its range; else `OutsideValues`.
    #[tactic(auto, unfolding(crate::specs::Figures::as_unsigned))]
    pub fn of(units: Units) -> Result<UnsignedEnergy, Reason>
        ensures tested { IsTested (is_unsigned units) (as_unsigned units) OutsideValues result }
        ensures same { IsExact ⟦<UnsignedEnergy as PartialEq>⟧.eq ⟦<UnsignedEnergy as Clone>⟧.is_clone }
    {
        ranged(0, MOST_ENERGY, units.0, Reason::OutsideValues)?;
        Ok(UnsignedEnergy { units })
    }

    #[tactic(auto, unfolding(crate::specs::Figures::as_unsigned))]
    pub(crate) fn zero() -> UnsignedEnergy
        ensures { result ≡ as_unsigned no_units }
    {
        UnsignedEnergy { units: Units(0) }
    }
}

impl Power {
    /// The power of so many kilowatts, where it is inside its range; else `OutsideValues`.
    #[tactic(auto, unfolding(crate::specs::Figures::as_power))]
    pub fn of(kilowatts: Kilowatts) -> Result<Power, Reason>
        ensures tested { IsTested (is_power kilowatts) (as_power kilowatts) OutsideValues result }
        ensures same { IsExact ⟦<Power as PartialEq>⟧.eq ⟦<Power as Clone>⟧.is_clone }
    {
        ranged(0, MOST_ENERGY, kilowatts.0, Reason::OutsideValues)?;
        Ok(Power { kilowatts })
    }

    #[tactic(auto, unfolding(crate::specs::Figures::as_power))]
    pub(crate) fn zero() -> Power
        ensures { result ≡ as_power no_kilowatts }
    {
        Power {
            kilowatts: Kilowatts(0),
        }
    }
}

impl DeemedEnergy {
    /// The deemed energy of so many units, where it is inside its range; else `OutsideValues`.
    #[tactic(auto, unfolding(crate::specs::Figures::as_deemed))]
    pub fn of(units: Units) -> Result<DeemedEnergy, Reason>
        ensures tested { IsTested (is_deemed units) (as_deemed units) OutsideValues result }
        ensures limit { MOST_DEEMED ≡ pos most_deemed }
        ensures same { IsExact ⟦<DeemedEnergy as PartialEq>⟧.eq ⟦<DeemedEnergy as Clone>⟧.is_clone }
    {
        ranged(-MOST_DEEMED, MOST_DEEMED, units.0, Reason::OutsideValues)?;
        Ok(DeemedEnergy { units })
    }

    /// No deemed energy.
    #[tactic(auto, unfolding(crate::specs::Figures::as_deemed))]
    pub fn zero() -> DeemedEnergy
        ensures { result ≡ as_deemed no_units }
    {
        DeemedEnergy { units: Units(0) }
    }
}

impl GivenAmount {
    /// The amount of so many cents, where it is inside its range; else `OutsideValues`.
    #[tactic(auto, unfolding(crate::specs::Figures::as_given))]
    pub fn of(cents: Cents) -> Result<GivenAmount, Reason>
        ensures tested { IsTested (is_given cents) (as_given cents) OutsideValues result }
        ensures limit { MOST_GIVEN ≡ pos most_given }
        ensures same { IsExact ⟦<GivenAmount as PartialEq>⟧.eq ⟦<GivenAmount as Clone>⟧.is_clone }
    {
        ranged(-MOST_GIVEN, MOST_GIVEN, cents.0, Reason::OutsideValues)?;
        Ok(GivenAmount { cents })
    }

    #[tactic(auto, unfolding(crate::specs::Figures::as_given))]
    pub(crate) fn zero() -> GivenAmount
        ensures { result ≡ as_given no_cents }
    {
        GivenAmount { cents: Cents(0) }
    }
}
