//! The formulas of the charges: what a resource and an area are charged for an interval.
#![tactic(auto)]

mod dispatch;
mod imbalance;
mod products;
mod surcharge;

pub use imbalance::{Terms, imbalance_charge, imbalance_products};
pub use products::{CENT, Products};
pub use surcharge::{area_pool, surcharge_pool};
