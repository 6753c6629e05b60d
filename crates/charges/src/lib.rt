//! The charges of an hour: what each party is charged in each interval, worked out by a sharing rule.
#![tactic(auto)]

mod amounts;
mod claims;
mod code;
mod fault;
mod given;
mod imbalance;
mod interval;
mod offset;
mod shared;
mod surcharges;
mod ties;
mod work;

pub use amounts::{HourAmounts, IntervalAmounts};
pub use code::ChargeCode;
pub use fault::{ChargeFault, rule_refusal};
pub use work::work_out;
