//! The parties' amounts under CC 6470.
ghost use Rattle.std.specs.Prelude.{◌≡◌, ◌≤◌, length, unsigned_abs};
ghost use Rattle.std.specs.List.{All};
ghost use Rattle.records.specs.Ranges.{most_parties, most_resources};
ghost use Rattle.charges.specs.Ranges.{most_imbalance};
ghost use Rattle.rows.specs.Posted.{with_table};
ghost use Rattle.charges.specs.Amounts.{amount_6470, column};

use deemed::INTERVALS;
use formulas::imbalance_charge;
use records::MOST_PARTIES;
use rows::{Cents, DeemedEnergy, GivenCode, Interval, Party, Resource};

// What a party is charged: its resources' cents, with a table of deemed energies, and what is passed through to it.
fn party_imbalance(
    party: &Party,
    resources: &[Resource],
    table: &[[DeemedEnergy; INTERVALS]],
    interval: Interval,
) -> Cents
    requires few { length resources.now ≤ most_resources }
    requires room { length resources.now ≤ length table.now }
    ensures value { result.0 ≡ amount_6470 (with_table table.now resources.now) interval.index party.now }
    ensures within { unsigned_abs result.0 ≤ most_imbalance }
{
    let mut cents = party.given(interval, GivenCode::PassThrough).cents;
    for (resource, energies) in resources.iter().zip(table) {
        if resource.owner == party.id {
            cents += imbalance_charge(resource, interval, energies[interval.index]);
        }
    }
    cents
}

// The column of CC 6470.
pub(crate) fn imbalance_column(
    parties: &[Party],
    resources: &[Resource],
    table: &[[DeemedEnergy; INTERVALS]],
    interval: Interval,
) -> [Cents; MOST_PARTIES]
    requires parties { length parties.now ≤ most_parties }
    requires few { length resources.now ≤ most_resources }
    requires room { length resources.now ≤ length table.now }
    ensures value { result ≡ column (amount_6470 (with_table table.now resources.now) interval.index) parties.now }
    ensures within { All (λ c. unsigned_abs c.0 ≤ most_imbalance) result }
{
    let mut column = [Cents(0); MOST_PARTIES];
    for (i, party) in parties.iter().enumerate() {
        column[i] = party_imbalance(party, resources, table, interval);
    }
    column
}
