//! The header with which an extent of the flash begins, and its 32 bytes, both ways.
#![tactic(auto)]

mod header;
mod laws;
mod read;
mod write;

pub use header::Header;
pub use laws::header_both_ways;
pub use read::read_header;
pub use write::write_header;
