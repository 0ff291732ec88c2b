//! The database engine: carries out commands over any files, one after the other.
#![tactic(auto)]

mod answering;
mod changing;
mod executing;
mod reading;
mod session;
mod start_error;
mod writing;

pub use session::Session;
pub use session_model::{Outcome, Step};
pub use start_error::StartError;
