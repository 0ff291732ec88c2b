//! Files that move: extents under construction, logs that are added or put together with their files,
//! and what the table of the files of a flash says of its image.
#![tactic(auto)]

mod begin;
mod commit;
mod copy;
mod laws;
mod logging;
mod rewrite;

pub use begin::begin_extent;
pub use commit::{commit_extent, replace_file, retire_file};
pub use copy::{copy_file, write_extent};
pub use laws::{cramped_sectors, held_files, held_image, kept_files, sound_table};
pub use logging::add_log;
pub use rewrite::{grow, merge};
