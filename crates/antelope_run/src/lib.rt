//! A run of the program: what its words ask for, over an image of a flash.
#![tactic(auto)]

mod call;
mod came;
mod carrying;
mod closing;
mod following;

pub use call::{carry, top};
