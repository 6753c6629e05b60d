//! The parties' amounts that are given.
ghost use Rattle.std.specs.Prelude.{◌≡◌, ◌≤◌, length, unsigned_abs};
ghost use Rattle.std.specs.List.{All};
ghost use Rattle.rows.specs.Ranges.{most_given};
ghost use Rattle.records.specs.Ranges.{most_parties};
ghost use Rattle.charges.specs.Amounts.{given_cents, column};

use records::MOST_PARTIES;
use rows::{Cents, GivenCode, Interval, Party};

// The column of a code under which money is given.
pub(crate) fn given_column(
    parties: &[Party],
    interval: Interval,
    code: GivenCode,
) -> [Cents; MOST_PARTIES]
    requires { length parties.now ≤ most_parties }
    ensures value { result ≡ column (given_cents code interval.index) parties.now }
    ensures within { All (λ c. unsigned_abs c.0 ≤ most_given) result }
{
    let mut column = [Cents(0); MOST_PARTIES];
    for (i, party) in parties.iter().enumerate() {
        column[i] = party.given(interval, code).cents;
    }
    column
}
