// The amounts of an interval.
ghost use Rattle.std.specs.Prelude.{◌≤◌, length};
ghost use Rattle.records.specs.Ranges.{most_areas, most_parties, most_resources};
ghost use Rattle.charges.specs.Sharing.{Distinct};
ghost use Rattle.charges.specs.Working.{IsWorkedOutWith};

use super::amounts::IntervalAmounts;
use super::fault::ChargeFault;
use super::given::given_column;
use super::imbalance::imbalance_column;
use super::offset::{offset_pool, share_offset};
use super::surcharges::{balance, share_surcharges};
use deemed::INTERVALS;
use rows::{Area, DeemedEnergy, GivenCode, Interval, Party, Resource};
use sharing::SharingRule;

// Works an interval out, with a table of deemed energies.
pub(crate) fn charge_interval<R: SharingRule>(
    rule: &R,
    areas: &[Area],
    parties: &[Party],
    resources: &[Resource],
    table: &[[DeemedEnergy; INTERVALS]],
    interval: Interval,
) -> Result<IntervalAmounts, ChargeFault>
    requires areas { length areas.now ≤ most_areas }
    requires parties { length parties.now ≤ most_parties }
    requires resources { length resources.now ≤ most_resources }
    requires room { length resources.now ≤ length table.now }
    requires distinct { Distinct areas.now }
    ensures { IsWorkedOutWith (R.SharingRule.shares rule.now) areas.now parties.now resources.now table.now interval.index result }
{
    let mut amounts = IntervalAmounts::none();
    amounts.cc_6470 = imbalance_column(parties, resources, table, interval);
    amounts.cc_6474 = given_column(parties, interval, GivenCode::Cc6474);
    amounts.cc_6475 = given_column(parties, interval, GivenCode::Cc6475);
    amounts.offset = offset_pool(&amounts.cc_6470, &amounts.cc_6474, &amounts.cc_6475);
    share_offset(
        rule,
        amounts.offset,
        areas,
        parties,
        interval,
        &mut amounts.cc_6477,
    )?;
    share_surcharges(rule, areas, parties, interval, &mut amounts.cc_6476)?;
    amounts.balance = balance(areas, interval);
    Ok(amounts)
}
