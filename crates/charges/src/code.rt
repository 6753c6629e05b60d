//! The charge codes (CC) under which a party is charged.
ghost use Rattle.std.specs.Prelude.{◌≡◌};
ghost use Rattle.charges.specs.Codes.{all_codes, charge_code_number, column_under};

use super::amounts::IntervalAmounts;
use records::MOST_PARTIES;
use rows::Cents;

/// A charge code (CC), by its number.
#[derive(Clone, Copy, PartialEq, Eq, Debug)]
pub enum ChargeCode {
    /// Real-time instructed imbalance energy.
    Cc6470,
    /// Unaccounted for energy: money that is given.
    Cc6474,
    /// Uninstructed imbalance energy: money that is given.
    Cc6475,
    /// Assistance energy transfer surcharge, shared among an area's parties.
    Cc6476,
    /// Real-time imbalance energy offset, shared among the parties of the market operator's own area (CISO).
    Cc6477,
}

impl ChargeCode {
    /// All codes, their numbers rising.
    pub const ALL: [ChargeCode; 5] = [
        ChargeCode::Cc6470,
        ChargeCode::Cc6474,
        ChargeCode::Cc6475,
        ChargeCode::Cc6476,
        ChargeCode::Cc6477,
    ];

    /// The number of the code.
    pub fn number(self) -> u16
        ensures number { result ≡ charge_code_number self }
        ensures all { Self.ALL ≡ all_codes }
    {
        match self {
            ChargeCode::Cc6470 => 6470,
            ChargeCode::Cc6474 => 6474,
            ChargeCode::Cc6475 => 6475,
            ChargeCode::Cc6476 => 6476,
            ChargeCode::Cc6477 => 6477,
        }
    }
}

impl IntervalAmounts {
    /// The parties' amounts under a code, in the order entered, and 0 behind them.
    pub fn column(&self, code: ChargeCode) -> &[Cents; MOST_PARTIES]
        ensures { result.now ≡ column_under code self.now }
    {
        match code {
            ChargeCode::Cc6470 => &self.cc_6470,
            ChargeCode::Cc6474 => &self.cc_6474,
            ChargeCode::Cc6475 => &self.cc_6475,
            ChargeCode::Cc6476 => &self.cc_6476,
            ChargeCode::Cc6477 => &self.cc_6477,
        }
    }
}
