//! The log of a file: which record holds a region, and how one is added; and the content of a file,
//! read and written through its extent and its log.
#![tactic(auto)]

mod contents;
mod records;

pub use contents::{append_file, overwrite_file, read_file};
pub use records::{log_put, log_region, log_used};
