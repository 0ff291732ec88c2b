//! Writes what stands on an image: its relations, its indexes, and how the pages of its flash are used.
#![tactic(auto)]

mod counting;
mod flash;
mod indexes;
mod laws;
mod lines;
mod pages;
mod relations;
mod rows;
mod writing;

pub use flash::write_flash;
pub use laws::each_page_is_counted_once;
pub use pages::PageCounts;
pub use writing::write_database;
