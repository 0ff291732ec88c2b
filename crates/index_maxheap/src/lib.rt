//! The hash tree of a column of keys, in a file of its own, over any `Files`.
#![tactic(auto)]

mod building;
mod bytes;
mod ends;
mod groups;
mod hints;
mod inserting;
mod laws;
mod loads;
mod needs;
mod path;
mod places;
mod rooms;
mod searching;
mod tree;
mod verifying;

pub use building::build;
pub use inserting::insert;
pub use laws::places_stay_good;
pub use loads::buckets_for;
pub use needs::room;
pub use places::{Found, Place};
pub use rooms::{End, Room};
pub use searching::next;
pub use tree::{BUCKET_SIZE, HEAD_SIZE};
pub use verifying::verify;
