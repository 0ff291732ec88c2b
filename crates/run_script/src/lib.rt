//! A script is cut into commands, and each is read and carried out as soon as it has come.
#![tactic(auto)]

mod entry;
mod piece;
mod running;
mod whole;

pub use entry::{carry_out, refuse};
pub use piece::Piece;
pub use running::Runner;
pub use whole::answer_script;
