//! The charge codes (CC) under which money is given for a party.
ghost use Rattle.std.specs.Prelude.{◌≡◌};
ghost use Rattle.rows.specs.Codes.{given_code};

/// A charge code (CC) under which money is given for a party.
#[derive(Clone, Copy, PartialEq, Eq, Debug)]
pub enum GivenCode {
    /// CC 6470: what is passed through to the party.
    PassThrough,
    /// Unaccounted for energy.
    Cc6474,
    /// Uninstructed imbalance energy.
    Cc6475,
}

impl GivenCode {
    /// The code with a number: 6470, 6474 or 6475.
    #[tactic(auto, unfolding(crate::specs::Codes::given_code))]
    pub fn numbered(number: i64) -> Option<GivenCode>
        ensures { result ≡ given_code number }
    {
        match number {
            6470 => Some(GivenCode::PassThrough),
            6474 => Some(GivenCode::Cc6474),
            6475 => Some(GivenCode::Cc6475),
            _ => None,
        }
    }
}
