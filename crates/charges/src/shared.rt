// A pool of money shared among the parties of one area.
ghost use Rattle.std.specs.Prelude.{◌≤◌, length, unsigned_abs};
ghost use Rattle.sharing.specs.Limits.{most_pool, most_weights};
ghost use Rattle.charges.specs.Parts.{IsSharedIn};

use super::claims::{claims_of, put_shares};
use deemed::PoolFault;
use rows::{Area, Cents, Interval, Party};
use sharing::{SharingRule, share_out};

// Shares a pool among an area's parties, and puts their shares into a column; refused, the column is as it was.
pub(crate) fn share_in_area<R: SharingRule>(
    rule: &R,
    pool: Cents,
    area: &Area,
    interval: Interval,
    parties: &[Party],
    column: &mut [Cents],
) -> Result<(), PoolFault>
    requires few { length parties.now ≤ most_weights }
    requires room { length parties.now ≤ length column.old }
    requires within { unsigned_abs pool.0 ≤ most_pool }
    ensures { IsSharedIn (R.SharingRule.shares rule.now) interval.index pool.0 area.now parties.now column.old column.new result }
{
    let mut claims = claims_of(area, interval, parties);
    share_out(rule, pool, &mut claims)?;
    put_shares(area.id, parties, &claims, column);
    Ok(())
}
