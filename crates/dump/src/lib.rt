//! Writes the database of a session as a script that makes it again, and pieces of such texts.

#![tactic(auto)]

mod indexes;
mod lines;
mod pieces;
mod relations;
mod rows;
mod schemas;
mod sent;
mod values;
mod writing;

pub use lines::{kind_text, write_domain};
pub use pieces::write_three;
pub use values::write_comma;
pub use writing::write;
