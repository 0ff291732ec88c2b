//! The commands that make and take away indexes.
#![tactic(auto)]

mod creating;
mod making;
mod relations;
mod removing;
mod sites;
mod slots;
mod tables;
mod trees;

pub use creating::create_index;
pub use removing::remove_index;
