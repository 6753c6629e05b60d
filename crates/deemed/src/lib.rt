//! The deemed energy of a tie's hour, in whole units for each interval.
#![tactic(auto)]

mod fault;
mod hour;
mod quantities;
mod static_tie;
mod tag;

pub use fault::PoolFault;
pub use hour::{INTERVALS, TieHour, pool, weights};
pub use quantities::{Kilowatts, TelemetrySteps, Units};
pub use static_tie::static_units;
pub use tag::{MOST_KW, MOST_TELEMETRY, Tag};
