// A whole input: its lines on a book, and what is printed.
#![tactic(auto)]

mod carrying;
mod failure;
mod input;
mod lines;
mod listing;
mod program;
mod refused;

pub use failure::RunError;
pub use input::InputReader;
pub use lines::LineReader;
pub use listing::{ListedLine, write_listing};
pub use program::run;
pub use refused::RefusedLine;
