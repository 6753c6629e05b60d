//! Tables of rows that are known by an id, and the refusals of calls on them.
#![tactic(auto)]

mod checks;
mod refusal;
mod table;
mod word;

pub use checks::{LAST_ID, flag_of, id_of, ranged};
pub use refusal::{Part, Place, Reason, Refusal};
pub use table::{HasId, Table};
pub use word::same_word;
