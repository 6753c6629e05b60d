//! Why an hour is not worked out.
ghost use Rattle.std.specs.Prelude.{◌≡◌};
ghost use Rattle.sharing.specs.Outcome.{number_of};
ghost use Rattle.tables.specs.Refusals.{reason_number};
ghost use Rattle.charges.specs.Faults.{fault_at, refusal_of, rule_refusal};

use deemed::PoolFault;
use sharing::SharingFault;
use tables::{Part, Place, Reason, Refusal};

/// The fault of the sharing of a pool, whole, with the reason that it is and the place where it arose.
#[derive(Clone, Copy, PartialEq, Eq, Debug)]
pub struct ChargeFault {
    pub fault: PoolFault,
    pub reason: Reason,
    pub place: Place,
}

/// The refusal of a sharing rule that is called alone: number 3 or 8, in part 1, without a place (interval 0, id 0).
pub fn rule_refusal(fault: SharingFault) -> Refusal
    ensures refusal { result ≡ rule_refusal fault }
    ensures number { reason_number result.reason ≡ number_of fault }
{
    let reason = match fault {
        SharingFault::Limit => Reason::OutsideValues,
        SharingFault::NoWeight => Reason::NoTieWeight,
    };
    Refusal {
        reason,
        part: Part::Sharing,
        place: Place { interval: 0, id: 0 },
    }
}

impl ChargeFault {
    // A fault with its reason, the number of its interval or 0, and the id of the tie or area whose pool is not shared.
    pub(crate) fn at(reason: Reason, fault: PoolFault, interval: i64, id: u16) -> ChargeFault
        ensures { result ≡ fault_at reason fault.0 interval id }
    {
        ChargeFault {
            fault,
            reason,
            place: Place {
                interval,
                id: i64::from(id),
            },
        }
    }

    /// The refusal. It arose where the sharing stands, in part 1.
    pub fn refusal(self) -> Refusal
        ensures { result ≡ refusal_of self }
    {
        Refusal {
            reason: self.reason,
            part: Part::Sharing,
            place: self.place,
        }
    }
}
