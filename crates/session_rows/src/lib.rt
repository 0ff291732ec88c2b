//! The commands that change the rows of a relation: INSERT, REMOVE FROM and PACK.
#![tactic(auto)]

mod adding;
mod finding;
mod inserting;
mod marking;
mod packing;
mod refusing;
mod removing;
mod selecting;
mod suiting;

pub use inserting::insert;
pub use packing::pack;
pub use removing::remove_from;
