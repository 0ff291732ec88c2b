//! A sink that gathers bytes and hands them on in few calls.
#![tactic(auto)]

mod gathered;
mod waiting;

pub use gathered::{Buffered, Since};
pub use waiting::Waiting;
