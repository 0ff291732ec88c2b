//! The rows of one relation in a file, over any `Files`.
#![tactic(auto)]

mod drafts;
mod field;
mod fields;
pub mod laws;
mod rows;
mod span;
mod tuples;
mod waiting;

pub use field::{Field, field_at, value_at};
pub use rows::{get_tuple, is_live, values_suit};
pub use span::Span;
pub use tuples::{ROW_SIZE, Tuples};
