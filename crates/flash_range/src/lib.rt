//! Reads and programs of ranges of the flash that may cross pages. A place is a byte's number,
//! counted from the front of the flash: byte `at` of page `p` has the place `256 * p + at`.
#![tactic(auto)]

mod program;
mod read;

pub use program::program_range;
pub use read::read_range;
