// The pools of CC 6476, and their shares.
ghost use Rattle.std.specs.Prelude.{◌≡◌, ◌≤◌, IfOk, length, unsigned_abs};
ghost use Rattle.formulas.specs.Surcharge.{area_pool};
ghost use Rattle.records.specs.Ranges.{most_areas, most_parties};
ghost use Rattle.charges.specs.Ranges.{most_amount};
ghost use Rattle.charges.specs.Amounts.{balance};
ghost use Rattle.charges.specs.Sharing.{Distinct};
ghost use Rattle.charges.specs.Working.{AreSurchargesShared};

use super::fault::ChargeFault;
use super::shared::share_in_area;
use formulas::area_pool;
use rows::{Area, Cents, Interval, Party};
use sharing::SharingRule;
use tables::Reason;

// The amount of account 0: the other side of all areas' pools.
#[tactic(auto, unfolding(crate::specs::Amounts::balance))]
pub(crate) fn balance(areas: &[Area], interval: Interval) -> Cents
    requires { length areas.now ≤ most_areas }
    ensures value { result.0 ≡ balance areas.now interval.index }
    ensures within { unsigned_abs result.0 ≤ most_amount }
{
    let mut balance = Cents(0);
    for area in areas {
        balance -= area_pool(area, interval);
    }
    balance
}

// Shares each area's surcharge among its parties.
pub(crate) fn share_surcharges<R: SharingRule>(
    rule: &R,
    areas: &[Area],
    parties: &[Party],
    interval: Interval,
    column: &mut [Cents],
) -> Result<(), ChargeFault>
    requires few { length parties.now ≤ most_parties }
    requires room { length parties.now ≤ length column.old }
    requires distinct { Distinct areas.now }
    ensures { AreSurchargesShared (R.SharingRule.shares rule.now) areas.now parties.now interval.index column.old column.new result }
{
    for area in areas {
        let pool = area_pool(area, interval);
        share_in_area(rule, pool, area, interval, parties, column).map_err(|fault| {
            ChargeFault::at(
                Reason::NoSurchargeWeight,
                fault,
                i64::from(interval.number()),
                area.id,
            )
        })?;
    }
    Ok(())
}
