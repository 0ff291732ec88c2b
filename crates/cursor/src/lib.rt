//! Machines that answer a query row by row.
#![tactic(auto)]

mod block;
mod by_block;
mod fields;
mod join;
mod laws;
mod marks;
mod partner;
mod select;
mod walk;

pub use block::Block;
pub use fields::selects_row;
pub use join::JoinCursor;
pub use laws::{
    nothing_is_left_of_no_slots, rows_that_come_change_no_answer, rows_that_come_change_no_pair,
};
pub use select::{SelectCursor, none_begun};
