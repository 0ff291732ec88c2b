//! The commands that ask for rows: SELECT, JOIN and the aggregates.
#![tactic(auto)]

mod aggregating;
mod asking;
mod finding;
mod folding;
mod joining;
mod listed;
mod passing;
mod selecting;
mod tally;

pub use aggregating::aggregate;
pub use asking::ask;
