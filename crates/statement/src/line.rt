// The lines of a statement.
ghost use Rattle.std.specs.Prelude.{◌≡◌, pos};
ghost use Rattle.charges.specs.declared.code.ChargeCode.TheVariants.{Cc6470};

use charges::ChargeCode;
use rows::Cents;

/// What a run bills an account under a code in an interval.
#[derive(Clone, Copy, PartialEq, Eq, Debug)]
pub struct Line {
    pub run: u16,
    /// 1 to 12
    pub interval: u8,
    /// the id of a party, or 0
    pub account: u16,
    pub code: ChargeCode,
    pub cents: Cents,
}

// What an `ArrayVec` is filled with. By hand: `Cents` has no default of its own.
impl Default for Line {
    ghost is_default = { λ l. (l.run ≡ 0) × (l.interval ≡ 0) × (l.account ≡ 0) × (l.code ≡ Cc6470) × (l.cents.0 ≡ pos 0) };

    fn default() -> Line {
        Line {
            run: 0,
            interval: 0,
            account: 0,
            code: ChargeCode::Cc6470,
            cents: Cents(0),
        }
    }
}
