//! The files of a database, repaired after a cut of the power.
//!
//! A cut in the middle of a command leaves the database before it or after it, but for a part of what
//! was being written. `mend_database` takes back or completes what stands there in part.
#![tactic(auto)]

mod catalogs;
mod contents;
mod decoding;
mod fields;
mod filling;
mod keyed;
mod lines;
mod listing;
mod mending;
mod pieces;
mod report;
mod rows;
mod strays;
mod taking;
mod trees;

pub use decoding::mended_relation;
pub use filling::may_fill;
pub use keyed::{Keyed, is_heap, keys_of};
pub use lines::write_report;
pub use listing::{SIZE_OF_VERSION_1, VERSION_MARK, whole_catalog};
pub use mending::mend_database;
pub use report::{Mended, Report};
pub use rows::is_row;
