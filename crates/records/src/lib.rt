//! The records of an hour, and the calls that enter, post and read them.
#![tactic(auto)]

mod call;
mod entering;
mod placing;
mod posting;
mod readings;
mod records;
mod trial;

pub use call::Call;
pub use records::{MOST_AREAS, MOST_PARTIES, MOST_RESOURCES, Records};
