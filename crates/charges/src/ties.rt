//! The new deemed energies of resources.
ghost use Rattle.std.specs.Prelude.{◌≡◌, ◌≤◌, map, length, unsigned_abs};
ghost use Rattle.std.specs.List.{All};
ghost use Rattle.rows.specs.Ranges.{most_deemed};
ghost use Rattle.rows.specs.Figures.{as_deemed};
ghost use Rattle.charges.specs.Renewing.{Renewed, RenewedAll};

use super::fault::ChargeFault;
use deemed::{INTERVALS, PoolFault, TieHour, Units, pool, static_units, weights};
use rows::{DeemedEnergy, Resource, ResourceKind};
use sharing::SharingRule;
use tables::Reason;

// Energies as figures.
fn figures(units: [Units; INTERVALS]) -> [DeemedEnergy; INTERVALS]
    requires { All (λ u. unsigned_abs u.0 ≤ most_deemed) units }
    ensures { result ≡ map as_deemed units }
{
    let mut energies = [DeemedEnergy::zero(); INTERVALS];
    for i in 0..INTERVALS {
        energies[i] = DeemedEnergy { units: units[i] };
    }
    energies
}

// The new deemed energies of a resource; refused, they are as they were.
fn renew<R: SharingRule>(
    rule: &R,
    resource: &Resource,
    energies: &mut [DeemedEnergy; INTERVALS],
) -> Result<(), PoolFault>
    ensures { Renewed (R.SharingRule.shares rule.now) resource.now energies.old energies.new result }
{
    *energies = match resource.kind {
        ResourceKind::Plain => [DeemedEnergy::zero(); INTERVALS],
        ResourceKind::StaticTie => figures(static_units(resource.tags)),
        ResourceKind::DynamicTie => {
            let mut hour = TieHour::new(weights(resource.tags));
            hour.share(rule, pool(resource.tags))?;
            figures(hour.units())
        }
    };
    Ok(())
}

// Those of all resources, in their order, at the front of a table.
pub(crate) fn renew_all<R: SharingRule>(
    rule: &R,
    resources: &[Resource],
    table: &mut [[DeemedEnergy; INTERVALS]],
) -> Result<(), ChargeFault>
    requires { length resources.now ≤ length table.old }
    ensures { RenewedAll (R.SharingRule.shares rule.now) resources.now table.old table.new result }
{
    for (i, resource) in resources.iter().enumerate() {
        let mut energies = [DeemedEnergy::zero(); INTERVALS];
        renew(rule, resource, &mut energies).map_err(|fault| {
            ChargeFault::at(Reason::NoTieWeight, fault, 0, resource.id)
        })?;
        table[i] = energies;
    }
    Ok(())
}
