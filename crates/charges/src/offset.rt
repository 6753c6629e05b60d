// The pool of CC 6477, and its shares.
ghost use Rattle.std.specs.Prelude.{◌≡◌, ◌≤◌, ◌+ℤ◌, neg_ℤ, length, unsigned_abs};
ghost use Rattle.std.specs.List.{All};
ghost use Rattle.sharing.specs.Laws.{total};
ghost use Rattle.rows.specs.Ranges.{most_given};
ghost use Rattle.records.specs.Ranges.{most_parties};
ghost use Rattle.charges.specs.Ranges.{most_imbalance, most_amount};
ghost use Rattle.charges.specs.Amounts.{cents, no_column};
ghost use Rattle.charges.specs.Sharing.{Distinct};
ghost use Rattle.charges.specs.Working.{IsOffsetShared};

use super::fault::ChargeFault;
use super::shared::share_in_area;
use records::MOST_PARTIES;
use rows::{Area, Cents, Interval, Party};
use sharing::SharingRule;
use tables::Reason;

// What gives back the amounts of three columns.
pub(crate) fn offset_pool(
    cc_6470: &[Cents; MOST_PARTIES],
    cc_6474: &[Cents; MOST_PARTIES],
    cc_6475: &[Cents; MOST_PARTIES],
) -> Cents
    requires cc_6470 { All (λ c. unsigned_abs c.0 ≤ most_imbalance) cc_6470.now }
    requires cc_6474 { All (λ c. unsigned_abs c.0 ≤ most_given) cc_6474.now }
    requires cc_6475 { All (λ c. unsigned_abs c.0 ≤ most_given) cc_6475.now }
    ensures value { result.0 ≡ neg_ℤ (total (cents cc_6470.now) +ℤ total (cents cc_6474.now) +ℤ total (cents cc_6475.now)) }
    ensures within { unsigned_abs result.0 ≤ most_amount }
{
    let mut charged = Cents(0);
    for i in 0..MOST_PARTIES {
        charged += cc_6470[i] + cc_6474[i] + cc_6475[i];
    }
    -charged
}

// Shares the offset among the parties of the CISO area.
pub(crate) fn share_offset<R: SharingRule>(
    rule: &R,
    pool: Cents,
    areas: &[Area],
    parties: &[Party],
    interval: Interval,
    column: &mut [Cents],
) -> Result<(), ChargeFault>
    requires few { length parties.now ≤ most_parties }
    requires distinct { Distinct areas.now }
    requires within { unsigned_abs pool.0 ≤ most_amount }
    requires empty { column.old ≡ no_column }
    ensures { IsOffsetShared (R.SharingRule.shares rule.now) pool.0 areas.now parties.now interval.index column.old column.new result }
{
    for area in areas {
        if !area.kind.is_ciso() {
            continue;
        }
        share_in_area(rule, pool, area, interval, parties, column).map_err(|fault| {
            ChargeFault::at(
                Reason::NoDemand,
                fault,
                i64::from(interval.number()),
                area.id,
            )
        })?;
    }
    Ok(())
}
