//! Energy at a price, and its rounding to cents.
ghost use Rattle.std.specs.Prelude.{◌≡◌, ◌≤◌, ◌*ℤ◌, unsigned_abs};
ghost use Rattle.rows.specs.Ranges.{most_price};
ghost use Rattle.formulas.specs.Working.{most_priced, most_product};
ghost use Rattle.formulas.specs.Rounding.{RoundsTo, cent, to_cents};

use deemed::Units;
use rows::{Cents, PriceSteps};

/// The products of a cent.
pub const CENT: u64 = 12_000_000;

/// Money in products: one is a unit of energy at one price step, 1/12,000,000 of a cent.
#[derive(Clone, Copy, PartialEq, Eq, Debug)]
pub struct Products(pub i64);

impl Products {
    // Energy at a price.
    #[tactic(auto, using(crate::proofs::Bounds::product_within))]
    pub(super) fn of(price: PriceSteps, energy: Units) -> Products
        requires price { unsigned_abs price.0 ≤ most_price }
        requires energy { unsigned_abs energy.0 ≤ most_priced }
        ensures value { result.0 ≡ price.0 *ℤ energy.0 }
        ensures within { unsigned_abs result.0 ≤ most_product }
    {
        Products(price.0 * energy.0)
    }

    /// The nearest cents; half a cent goes away from 0.
    #[tactic(auto, unfolding(crate::specs::Rounding::to_cents))]
    pub fn to_cents(self) -> Cents
        ensures value { result.0 ≡ to_cents self.0 }
        ensures nearest { RoundsTo self.0 result.0 }
        ensures cent { CENT ≡ cent }
    {
        let cents = ((self.0.unsigned_abs() + CENT / 2) / CENT) as i64;
        Cents(if self.0 < 0 { -cents } else { cents })
    }
}
