//! How large a flash suffices for a database that grows: the sectors that are planned, and laws on them.
#![tactic(auto)]

mod further;
mod growth;
mod laws;
mod line;
mod planning;
mod sectors;
mod writing;

pub use further::{FurtherRows, NamedRows};
pub use laws::{
    planned_flash_has_enough, planned_flash_has_enough_for_rings, planned_space_suffices,
    sound_databases_have_few_rows,
};
pub use line::write_plan;
pub use planning::planned;
pub use writing::write;
