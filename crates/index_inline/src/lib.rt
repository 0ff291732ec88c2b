//! Rows whose keys do not fall from slot to slot: keys found by halving, and whether they are in order.
#![tactic(auto)]

mod halving;
mod order;
mod piece;
mod spans;

pub use order::ordered;
pub use spans::range;
