//! The texts of replies, written to a sink.
//!
//! A writer appends its text whole, or answers `Failed` and has appended a proper prefix of it.
#![tactic(auto)]

mod bytes;
mod lines;
mod refusal;
mod rows;

pub use bytes::{write_all, write_count, write_line_of_counts, write_number, write_signed};
pub use lines::{write_ok, write_rows};
pub use refusal::write_refusal;
pub use rows::{write_numbers, write_projected, write_row};
