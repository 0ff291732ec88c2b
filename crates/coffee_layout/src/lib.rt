//! The flash read as units: what begins at each page, the image rules 1 to 13, and the active files.
#![tactic(auto)]

mod bytes;
mod extents;
mod file;
mod judge;
mod laws;
mod logs;
mod measure;
mod memory;
mod naming;
mod next;
mod sound;
mod unit;
mod units;

pub use bytes::{file_size, last_record, region_place};
pub use file::{FileAt, Table};
pub use judge::check;
pub use laws::one_tiling;
pub use logs::{read_table, records_used};
pub use measure::has_few_pages;
pub use memory::is_doubling;
pub use next::next_unit;
pub use sound::unit_in;
pub use unit::{BadImage, Unit};
