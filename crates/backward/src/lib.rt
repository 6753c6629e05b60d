//! A sharing rule from outside the crate `sharing`: any rule, worked from the last place backwards.
#![tactic(auto)]

ghost use Rattle.std.specs.Prelude.{◌≡◌, ◌≤◌, reverse, length, refl};
ghost use Rattle.sharing.specs.Limits.{most_weights};
ghost use Rattle.sharing.specs.Outcome.{shares_in};
ghost use Rattle.backward.specs.Turning;

use arrayvec::ArrayVec;
use sharing::{MOST_WEIGHTS, Shares, SharingFault, SharingRule};

/// Any rule, worked from the last place backwards: the last weight is shared to first. It refuses what every rule refuses.
#[derive(Clone, Copy)]
pub struct Backward<R>(pub R);

impl<R: SharingRule> SharingRule for Backward<R> {
    ghost shares = { λ rule p ws. reverse (R.SharingRule.shares rule.0 p (reverse ws)) };

    ghost lawful = { λ rule. Turning.turned_lawful (R.SharingRule.shares rule.0) (R.SharingRule.lawful rule.0) };

    fn share(&self, pool: i64, weights: &[u32]) -> Result<Shares, SharingFault> {
        let Ok(mut turned) = ArrayVec::<u32, MOST_WEIGHTS>::try_from(weights) else {
            return Err(SharingFault::Limit);
        };
        turned.reverse();
        let answer = self.0.share(pool, &turned)?;
        Ok(reversed(answer.as_slice()))
    }
}

// The shares, the last place first.
fn reversed(shares: &[i64]) -> Shares
    requires { length shares.now ≤ most_weights }
    ensures { shares_in result ≡ reverse shares.now }
{
    let mut at = [0i64; MOST_WEIGHTS];
    at[..shares.len()].copy_from_slice(shares);
    at[..shares.len()].reverse();
    Shares::new(at, shares.len())
}

#[cfg(test)]
mod tests {
    use super::*;
    use sharing::{LargestRemainder, Quantity, Recipient, share_out};
    use std::test::Fail;

    // the test has a unit and a recipient of its own, as any crate outside has them
    #[derive(Clone, Copy)]
    struct Coins(i64);

    impl Quantity for Coins {
        ghost amount = { λ c. c.0 };

        ghost of = { λ z. record { 0 = z } };

        ghost back = { λ z. refl };

        ghost whole = { λ u. refl };

        fn new(count: i64) -> Coins {
            Coins(count)
        }

        fn count(self) -> i64 {
            self.0
        }
    }

    #[derive(Clone, Copy)]
    struct Claim {
        weight: u32,
        coins: Coins,
    }

    impl Recipient for Claim {
        type Unit = Coins;

        ghost weighs = { λ x. x.weight };

        ghost holds = { λ x. x.coins };

        ghost having = { λ x c. record { weight = x.weight; coins = c } };

        ghost tells_back = { λ x u. refl };

        ghost steady = { λ x u. refl };

        fn weight(&self) -> u32 {
            self.weight
        }

        fn take(&mut self, share: Coins) {
            self.coins = share;
        }

        fn share(&self) -> Coins {
            self.coins
        }
    }

    // 100 over 1, 1, 1 leaves one coin, which goes to the last place and not to the first.
    #[test]
    fn the_last_place_comes_first(rt: HostRuntime) -> Result<(), Fail> {
        let claim = Claim {
            weight: 1,
            coins: Coins(0),
        };
        let mut claims = [claim; 3];
        share_out(&Backward(LargestRemainder), Coins(100), &mut claims)?;
        assert_eq!(rt; claims[0].share().count(), 33);
        assert_eq!(rt; claims[1].share().count(), 33);
        assert_eq!(rt; claims[2].share().count(), 34);
        Ok(())
    }

    #[test]
    fn no_weight_is_refused(rt: HostRuntime) {
        assert!(rt; Backward(LargestRemainder).share(5, &[0, 0]).is_err());
    }
}
