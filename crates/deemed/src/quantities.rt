//! Energy, power and telemetry, each in whole steps of its own.
ghost use Rattle.std.specs.Prelude.{◌≡◌, ◌+ℤ◌, ◌-ℤ◌, neg_ℤ, FitsSigned, refl};
ghost use Rattle.std.specs.Int.{w64};

use sharing::Quantity;
use std::ops::{Add, AddAssign, Neg, Sub, SubAssign};

/// Energy in units of 1/12 kWh.
#[derive(Clone, Copy, PartialEq, Eq, Default, Debug)]
pub struct Units(pub i64);

/// Power in kW.
#[derive(Clone, Copy, PartialEq, Eq, Default, Debug)]
pub struct Kilowatts(pub i64);

/// Telemetry, the energy that a meter told, in steps of 0.00001 MWh.
#[derive(Clone, Copy, PartialEq, Eq, Default, Debug)]
pub struct TelemetrySteps(pub i64);

impl Kilowatts {
    /// The energy of this power over a settlement interval of five minutes: a kilowatt over an interval is a unit.
    pub fn over_an_interval(self) -> Units
        ensures { result.0 ≡ self.0 }
    {
        Units(self.0)
    }
}

impl Add for Units {
    type Output = Units;

    ghost can_add = { λ a b. FitsSigned w64 (a.0 +ℤ b.0) };

    ghost add_gives = { λ a b r. r.0 ≡ a.0 +ℤ b.0 };

    fn add(self, other: Units) -> Units {
        Units(self.0 + other.0)
    }
}

impl AddAssign for Units {
    ghost can_add_assign = { λ a b. FitsSigned w64 (a.0 +ℤ b.0) };

    ghost add_assign_gives = { λ a b r. r.0 ≡ a.0 +ℤ b.0 };

    fn add_assign(&mut self, other: Units) {
        self.0 += other.0;
    }
}

impl Sub for Units {
    type Output = Units;

    ghost can_sub = { λ a b. FitsSigned w64 (a.0 -ℤ b.0) };

    ghost sub_gives = { λ a b r. r.0 ≡ a.0 -ℤ b.0 };

    fn sub(self, other: Units) -> Units {
        Units(self.0 - other.0)
    }
}

impl SubAssign for Units {
    ghost can_sub_assign = { λ a b. FitsSigned w64 (a.0 -ℤ b.0) };

    ghost sub_assign_gives = { λ a b r. r.0 ≡ a.0 -ℤ b.0 };

    fn sub_assign(&mut self, other: Units) {
        self.0 -= other.0;
    }
}

impl Neg for Units {
    type Output = Units;

    ghost can_neg = { λ a. FitsSigned w64 (neg_ℤ a.0) };

    ghost neg_gives = { λ a r. r.0 ≡ neg_ℤ a.0 };

    fn neg(self) -> Units {
        Units(-self.0)
    }
}

impl Quantity for Units {
    ghost amount = { λ u. u.0 };

    ghost of = { λ z. record { 0 = z } };

    ghost back = { λ z. refl };

    ghost whole = { λ u. refl };

    fn new(count: i64) -> Units {
        Units(count)
    }

    fn count(self) -> i64 {
        self.0
    }
}
