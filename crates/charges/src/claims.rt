//! The claims of an area's parties on a pool, and the shares put at the parties' places in a column.
ghost use Rattle.std.specs.Prelude.{◌≡◌, ◌≤◌, map, length, refl};
ghost use Rattle.sharing.specs.Limits.{most_weights};
ghost use Rattle.charges.specs.Columns.{parties_in, weight};
ghost use Rattle.charges.specs.Claims.{claims_in};
ghost use Rattle.charges.specs.Parts.{GivenTo};

use arrayvec::ArrayVec;
use rows::{Area, AreaKind, Cents, Interval, Party};
use sharing::{MOST_WEIGHTS, Recipient};

// What a party weighs, and its share of the pool.
#[derive(Clone, Copy, Default)]
pub(crate) struct Claim {
    pub(crate) weight: u32,
    pub(crate) share: Cents,
}

impl Recipient for Claim {
    type Unit = Cents;

    ghost weighs = { λ c. c.weight };

    ghost holds = { λ c. c.share };

    ghost having = { λ c u. record { weight = c.weight; share = u } };

    ghost tells_back = { λ x u. refl };

    ghost steady = { λ x u. refl };

    fn weight(&self) -> u32 {
        self.weight
    }

    fn take(&mut self, share: Cents)
        ensures { self.new ≡ record { weight = self.old.weight; share = share } }
    {
        self.share = share;
    }

    fn share(&self) -> Cents {
        self.share
    }
}

// What a party weighs in an area of a kind.
#[tactic(auto, unfolding(crate::specs::Columns::weight))]
fn weight_of(kind: AreaKind, interval: Interval, party: &Party) -> u32
    ensures { result ≡ weight kind interval.index party.now }
{
    match kind {
        AreaKind::Ciso => party.demand[interval.index].units.0 as u32,
        AreaKind::Weim => 1,
    }
}

// The claims of an area's parties, in their order.
pub(crate) fn claims_of(
    area: &Area,
    interval: Interval,
    parties: &[Party],
) -> ArrayVec<Claim, MOST_WEIGHTS>
    requires { length parties.now ≤ most_weights }
    ensures { result.items ≡ claims_in interval.index area.now parties.now }
{
    let mut claims = ArrayVec::new();
    for party in parties {
        if party.area == area.id {
            claims.push(Claim {
                weight: weight_of(area.kind, interval, party),
                share: Cents(0),
            });
        }
    }
    claims
}

// Puts the claims' shares at the places of an area's parties.
pub(crate) fn put_shares(area: u16, parties: &[Party], claims: &[Claim], column: &mut [Cents])
    requires room { length parties.now ≤ length column.old }
    requires one_each { length claims.now ≡ length (parties_in area parties.now) }
    ensures { GivenTo area parties.now (map (λ c. c.share.0) claims.now) column.old column.new }
{
    let mut next = 0;
    for (i, party) in parties.iter().enumerate() {
        if party.area == area {
            column[i] = claims[next].share;
            next += 1;
        }
    }
}
