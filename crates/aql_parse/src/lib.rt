//! The reading of commands.
#![tactic(auto)]

mod built;
mod codes;
mod conditions;
mod head;
mod heads;
mod inserts;
mod items;
mod laws;
mod lists;
mod machine;
mod moves;
mod nodes;
mod parts;
mod reading;
mod stack;
mod symbols;

pub use laws::{each_command_is_read, readings_are_unique};
pub use reading::parse;
