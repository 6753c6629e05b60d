// The statement of an hour: the book with its lines, the settle, and the law over every history of calls.
#![tactic(auto)]

mod book;
mod calls;
mod changes;
mod line;
mod readings;
mod run;
mod settle;
mod statement;

pub use book::Book;
pub use line::Line;
pub use run::Run;
pub use statement::{MOST_LINES, MOST_RUNS};
