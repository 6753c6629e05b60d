//! Why a pool is not shared.
ghost use Rattle.std.specs.Prelude.{◌≡◌};

use sharing::SharingFault;

/// The fault of the sharing of a pool, whole: of the energy of a tie's hour, or of money.
#[derive(Clone, Copy, PartialEq, Eq, Debug)]
pub struct PoolFault(pub SharingFault);

// Written out, since no contract says what fault a derived `From` makes.
impl From<SharingFault> for PoolFault {
    ghost from_gives = { λ fault r. r.0 ≡ fault };

    fn from(fault: SharingFault) -> PoolFault {
        PoolFault(fault)
    }
}
