//! An hour worked out.
ghost use Rattle.charges.specs.Charged.{WorkedOut};

use super::amounts::{HourAmounts, IntervalAmounts};
use super::fault::ChargeFault;
use super::interval::charge_interval;
use super::ties::renew_all;
use deemed::INTERVALS;
use records::{MOST_RESOURCES, Records};
use rows::{DeemedEnergy, Slot};
use sharing::SharingRule;

/// All amounts of an hour by a sharing rule, with new deemed energies for its ties. Refused by the first pool that is not 0
/// and has no weight: of a dynamic tie, in the order entered; then interval by interval the offset, then the surcharge of an
/// area.
pub fn work_out<R: SharingRule>(records: &Records, rule: &R) -> Result<HourAmounts, ChargeFault>
    ensures { WorkedOut (R.SharingRule.shares rule.now) records.now result }
{
    let mut deemed = [[DeemedEnergy::zero(); INTERVALS]; MOST_RESOURCES];
    renew_all(rule, records.resources(), &mut deemed)?;
    let mut intervals = [IntervalAmounts::none(); INTERVALS];
    for index in 0..INTERVALS {
        intervals[index] = charge_interval(
            rule,
            records.areas(),
            records.parties(),
            records.resources(),
            &deemed,
            Slot { index },
        )?;
    }
    Ok(HourAmounts { deemed, intervals })
}
