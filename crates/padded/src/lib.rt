//! Short byte strings in arrays of a fixed width, the rest of each array zero.
#![tactic(auto)]

mod array;
mod zeros;

pub use array::padded_to;
pub use zeros::is_zeros;
