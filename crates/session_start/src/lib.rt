//! A database in files is judged and opened.
#![tactic(auto)]

mod holding;
mod indexes;
mod rows;
mod starting;

pub use holding::nothing_held;
pub use starting::{BrokenRule, open_database};
