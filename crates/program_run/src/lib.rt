//! What a program over an image makes of its words: which image and input they name, and a run or upkeep on a flash.
#![tactic(auto)]

mod calling;
mod failure;
mod naming;

pub use calling::carry_out;
pub use failure::Failure;
pub use naming::{Named, Upkeep, names, upkeep_of, words};
