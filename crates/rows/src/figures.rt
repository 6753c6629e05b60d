//! Quantities, and the figures that records hold: each a quantity inside its range.
ghost use Rattle.std.specs.Prelude.{◌≡◌, ◌≤◌, ◌≤ℤ◌, ◌+ℤ◌, ◌-ℤ◌, neg_ℤ, pos, unsigned_abs, refl, FitsSigned};
ghost use Rattle.std.specs.Int.{w64};
ghost use Rattle.rows.specs.Ranges.{most_price, most_energy, most_given, most_deemed};

use deemed::{Kilowatts, Units};
use sharing::Quantity;
use std::ops::{Add, AddAssign, Neg, Sub, SubAssign};

/// Money, in cents.
#[derive(Clone, Copy, PartialEq, Eq, Default, Debug)]
pub struct Cents(pub i64);

/// A price, in steps of $0.00001 per MWh.
#[derive(Clone, Copy, PartialEq, Eq, Default, Debug)]
pub struct PriceSteps(pub i64);

impl Add for Cents {
    type Output = Cents;

    ghost can_add = { λ a b. FitsSigned w64 (a.0 +ℤ b.0) };

    ghost add_gives = { λ a b r. r.0 ≡ a.0 +ℤ b.0 };

    fn add(self, other: Cents) -> Cents {
        Cents(self.0 + other.0)
    }
}

impl AddAssign for Cents {
    ghost can_add_assign = { λ a b. FitsSigned w64 (a.0 +ℤ b.0) };

    ghost add_assign_gives = { λ a b r. r.0 ≡ a.0 +ℤ b.0 };

    fn add_assign(&mut self, other: Cents) {
        self.0 += other.0;
    }
}

impl Sub for Cents {
    type Output = Cents;

    ghost can_sub = { λ a b. FitsSigned w64 (a.0 -ℤ b.0) };

    ghost sub_gives = { λ a b r. r.0 ≡ a.0 -ℤ b.0 };

    fn sub(self, other: Cents) -> Cents {
        Cents(self.0 - other.0)
    }
}

impl SubAssign for Cents {
    ghost can_sub_assign = { λ a b. FitsSigned w64 (a.0 -ℤ b.0) };

    ghost sub_assign_gives = { λ a b r. r.0 ≡ a.0 -ℤ b.0 };

    fn sub_assign(&mut self, other: Cents) {
        self.0 -= other.0;
    }
}

impl Neg for Cents {
    type Output = Cents;

    ghost can_neg = { λ a. FitsSigned w64 (neg_ℤ a.0) };

    ghost neg_gives = { λ a r. r.0 ≡ neg_ℤ a.0 };

    fn neg(self) -> Cents {
        Cents(-self.0)
    }
}

impl Quantity for Cents {
    ghost amount = { λ c. c.0 };

    ghost of = { λ z. record { 0 = z } };

    ghost back = { λ z. refl };

    ghost whole = { λ u. refl };

    fn new(count: i64) -> Cents {
        Cents(count)
    }

    fn count(self) -> i64 {
        self.0
    }
}

/// A price of energy, from -`MOST_PRICE` to `MOST_PRICE`.
#[derive(Clone, Copy, PartialEq, Eq, Debug)]
pub struct Price {
    pub steps: PriceSteps,
    ghost within: { unsigned_abs steps.0 ≤ most_price },
}

/// A bid cap, from 0 to `MOST_PRICE`.
#[derive(Clone, Copy, PartialEq, Eq, Debug)]
pub struct BidCap {
    pub steps: PriceSteps,
    ghost from_0: { pos 0 ≤ℤ steps.0 },
    ghost within: { unsigned_abs steps.0 ≤ most_price },
}

/// Energy of an interval, from -`MOST_ENERGY` to `MOST_ENERGY`.
#[derive(Clone, Copy, PartialEq, Eq, Debug)]
pub struct Energy {
    pub units: Units,
    ghost within: { unsigned_abs units.0 ≤ most_energy },
}

/// Energy of an interval that has no sign, from 0 to `MOST_ENERGY`: a transfer, or demand.
#[derive(Clone, Copy, PartialEq, Eq, Debug)]
pub struct UnsignedEnergy {
    pub units: Units,
    ghost from_0: { pos 0 ≤ℤ units.0 },
    ghost within: { unsigned_abs units.0 ≤ most_energy },
}

/// Power, from 0 to `MOST_ENERGY`: what a test or an election is about. Over an interval it is as many units
/// of energy.
#[derive(Clone, Copy, PartialEq, Eq, Debug)]
pub struct Power {
    pub kilowatts: Kilowatts,
    ghost from_0: { pos 0 ≤ℤ kilowatts.0 },
    ghost within: { unsigned_abs kilowatts.0 ≤ most_energy },
}

/// The deemed energy of a tie's interval, from -`MOST_DEEMED` to `MOST_DEEMED`.
#[derive(Clone, Copy, PartialEq, Eq, Debug)]
pub struct DeemedEnergy {
    pub units: Units,
    ghost within: { unsigned_abs units.0 ≤ most_deemed },
}

/// Money that is given to the book, from -`MOST_GIVEN` to `MOST_GIVEN`.
#[derive(Clone, Copy, PartialEq, Eq, Debug)]
pub struct GivenAmount {
    pub cents: Cents,
    ghost within: { unsigned_abs cents.0 ≤ most_given },
}
