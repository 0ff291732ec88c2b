//! The generated workload: for each seed an endless list of commands.
#![tactic(auto)]

mod commands;

pub use commands::nth_command;
