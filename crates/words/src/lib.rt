// The words of a line, and the numbers that words write.
#![tactic(auto)]

mod numbers;
mod texts;

pub use numbers::{MOST_DIGITS, number};
pub use texts::{Words, cut, is_word};
