//! What both halves of the database share: the traits of the outside world, names, ids, number fields
//! and counts of faults.
#![tactic(auto)]

mod failed;
mod fault;
mod fields;
mod files;
mod flash;
mod ids;
mod key_column;
mod keys;
mod kind;
mod name;
mod pages;
mod places;
mod sizes;
mod stream;

pub use failed::Failed;
pub use fault::Fault;
pub use fields::{get_i32, get_i64, get_u16, put_bytes, put_i32, put_i64, put_u16};
pub use files::Files;
pub use flash::Flash;
pub use ids::{FileId, IndexId, PageId, RelationId, SectorId, SlotNo};
pub use key_column::KeyColumn;
pub use kind::{FileError, Kind};
pub use name::Name;
pub use pages::{fit, regions};
pub use places::{Named, find_in, free_in};
pub use sizes::{MOST_SLOTS, PAGE_SIZE, SECTOR_SIZE};
pub use stream::{Sink, Source};
