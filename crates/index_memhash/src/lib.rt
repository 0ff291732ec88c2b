//! A hash table in memory: of each slot its key, and the slots of a key in their order.
#![tactic(auto)]

mod chains;
pub mod laws;
mod table;

pub use chains::MOST_KEYS;
pub use table::{HashPlace, HashTable};
