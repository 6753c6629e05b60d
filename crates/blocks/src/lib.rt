// What each line of an input says.
#![tactic(auto)]

mod block;
mod heading;
mod mode;
mod order;
mod rule;
mod values;

pub use block::Block;
pub use heading::{Heading, LONGEST_LINE};
pub use mode::Mode;
pub use order::Order;
pub use rule::Rule;
