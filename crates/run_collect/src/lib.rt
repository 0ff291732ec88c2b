//! Collects a flash at a time of the caller's choosing: each sector that a collection takes is erased, and the
//! database stays.
#![tactic(auto)]

mod came;
mod collecting;
mod laws;
mod lines;

pub use collecting::collect;
pub use laws::collected_images_keep_their_database;
