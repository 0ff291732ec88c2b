//! Generated commands are carried out, and one line sums up their replies.
#![tactic(auto)]

mod counting;
mod discard;
mod generating;
mod line;
mod tally;

pub use generating::generate;
