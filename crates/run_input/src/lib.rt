//! An input that is taken byte by byte to its end, whatever its bytes ask for.
#![tactic(auto)]

mod ending;
mod sending;
mod taker;
mod through;

pub use ending::{Ending, InputEnding};
pub use taker::Taker;
pub use through::take_through;
