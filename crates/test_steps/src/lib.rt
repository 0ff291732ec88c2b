//! What tests are made of: scripts and replies put together of pieces, and calls on files whose premises
//! are looked up first, so that of the files no more need be known than that no draft is begun.
#![tactic(auto)]

mod places;
mod steps;
mod texts;

pub use places::is_free;
pub use steps::{appended, created, new_file, read_from, size_of};
pub use texts::{ONE, Part, TWO, joined, push_number, push_often};
