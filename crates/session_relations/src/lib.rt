//! The commands that make, grow and take away relations.
#![tactic(auto)]

mod creating;
mod finding;
mod growing;
mod removing;

pub use creating::create_relation;
pub use growing::create_attribute;
pub use removing::remove_relation;
