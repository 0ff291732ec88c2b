//! What a session keeps of its files, the database that it stands for, and what each change of the files makes of both.
#![tactic(auto)]

mod answer;
mod base;
mod finding;
mod held;
mod preparing;
mod projecting;
mod readers;
mod replies;
mod step;

pub use answer::Answer;
pub use base::Base;
pub use finding::{find_relation, indexes_of};
pub use held::{Held, Indexed, Open, OpenJoin, OpenSelect, Side};
pub use preparing::prepare_catalog;
pub use projecting::{project, project_pair};
pub use readers::least_reader;
pub use replies::reply;
pub use step::{Outcome, Step};
