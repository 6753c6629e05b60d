//! Tests of the numbers that a call is given.
ghost use Rattle.std.specs.Prelude.{◌≡◌, ◌≤ℤ◌, IfOk, pos};
ghost use Rattle.tables.specs.Refusals.{IsTested};
ghost use Rattle.tables.specs.Ranges.{last_id, in_range, is_id, as_id, is_flag, flag};
ghost use Rattle.tables.specs.declared.refusal.Reason.TheVariants.{OutsideSpan, OutsideValues};

use super::refusal::Reason;

/// The largest id; the smallest is 1.
pub const LAST_ID: i64 = 65_535;

/// The number, where it is from `low` to `high`, both included; else the reason.
#[tactic(auto, unfolding(crate::specs::Ranges::in_range))]
pub fn ranged(low: i64, high: i64, number: i64, reason: Reason) -> Result<i64, Reason>
    ensures tested { IsTested (in_range low high number) number reason result }
    ensures within { IfOk result (λ z. (low ≤ℤ z) × (z ≤ℤ high)) }
{
    if number < low || high < number {
        return Err(reason);
    }
    Ok(number)
}

/// The number as an id, where it is from 1 to `LAST_ID`; else `OutsideSpan`.
pub fn id_of(number: i64) -> Result<u16, Reason>
    ensures tested { IsTested (is_id number) (as_id number) OutsideSpan result }
    ensures last { LAST_ID ≡ pos last_id }
{
    Ok(ranged(1, LAST_ID, number, Reason::OutsideSpan)? as u16)
}

/// The number, 0 or 1, as a flag; any other is refused as `OutsideValues`.
pub fn flag_of(number: i64) -> Result<bool, Reason>
    ensures { IsTested (is_flag number) (flag number) OutsideValues result }
{
    Ok(ranged(0, 1, number, Reason::OutsideValues)? == 1)
}
