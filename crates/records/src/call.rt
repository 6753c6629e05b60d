//! A call on the records, as a value.
ghost use Rattle.std.specs.Prelude.{◌≡◌};
ghost use Rattle.records.specs.Calls.{place_of};

use deemed::Units;
use rows::{
    AreaKind, Cents, ElectionPost, EnergyPost, ResourceKind, TagPost, TestPost, TransferPost,
};
use tables::Place;

/// What a caller says: numbers as they are given, and words read to what they name. Any value may stand in a call;
/// `Records::take` refuses what is outside its span or its values. Intervals are from 1 to 12, quarters from 1 to 4.
#[derive(Clone, Copy, PartialEq, Eq, Debug)]
pub enum Call {
    /// Enters an area: the CISO area (that of the California ISO, the market operator) or a WEIM area (of the Western Energy
    /// Imbalance Market).
    EnterArea {
        id: i64,
        kind: Option<AreaKind>,
    },
    /// Enters a party of an area.
    EnterParty {
        id: i64,
        area: i64,
    },
    /// Enters a resource of a party of the CISO area. `net` and `exempt` are flags, 0 or 1.
    EnterResource {
        id: i64,
        owner: i64,
        kind: Option<ResourceKind>,
        net: i64,
        exempt: i64,
    },
    /// Posts the prices and energies of a resource in an interval.
    PostEnergy {
        id: i64,
        interval: i64,
        post: EnergyPost,
    },
    /// Posts the tag of a tie in an interval.
    PostTag {
        id: i64,
        interval: i64,
        post: TagPost,
    },
    /// Posts the election of an area.
    PostElection {
        id: i64,
        post: ElectionPost,
    },
    /// Posts the sufficiency test of an area in a quarter.
    PostTest {
        id: i64,
        quarter: i64,
        post: TestPost,
    },
    /// Posts the transfers of an area in an interval.
    PostTransfer {
        id: i64,
        interval: i64,
        post: TransferPost,
    },
    /// Posts the demand of a party of the CISO area in an interval.
    PostDemand {
        id: i64,
        interval: i64,
        units: Units,
    },
    /// Posts the money that is given for a party of the CISO area in an interval, under charge code 6470, 6474 or 6475.
    PostGiven {
        id: i64,
        interval: i64,
        code: i64,
        cents: Cents,
    },
}

impl Call {
    /// What the call is about, as its refusal shows it: its interval or quarter, 0 where it has none, and its id.
    pub fn place(self) -> Place
        ensures { result ≡ place_of self }
    {
        match self {
            Call::EnterArea { id, .. }
            | Call::EnterParty { id, .. }
            | Call::EnterResource { id, .. }
            | Call::PostElection { id, .. } => Place { interval: 0, id },
            Call::PostTest { id, quarter, .. } => Place {
                interval: quarter,
                id,
            },
            Call::PostEnergy { id, interval, .. }
            | Call::PostTag { id, interval, .. }
            | Call::PostTransfer { id, interval, .. }
            | Call::PostDemand { id, interval, .. }
            | Call::PostGiven { id, interval, .. } => Place { interval, id },
        }
    }
}
