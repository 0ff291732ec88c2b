//! The commands on cursors: OPEN, FETCH and CLOSE.
#![tactic(auto)]

mod beginning;
mod closing;
mod fetching;
mod heads;
mod numbers;
mod opening;
mod queries;
mod replies;

pub use closing::close_cursor;
pub use fetching::fetch_cursor;
pub use opening::open_cursor;
