//! Runs over memory that is lent: an image, an input, and room for replies.
#![tactic(auto)]

mod checking;
mod collecting;
mod ended;
mod flash;
mod length;
mod repairing;
mod running;
mod sink;
mod source;

pub use checking::check_lent;
pub use collecting::collect_lent;
pub use ended::Ended;
pub use repairing::repair_lent;
pub use running::run_lent;
