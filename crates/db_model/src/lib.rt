//! The types of AQL, the query language, and the definitions that every theorem of the database cites.
#![tactic(auto)]

mod commands;
pub mod laws;
mod lists;
mod names;
mod refusals;
mod schemas;
mod texts;
mod tokens;
mod values;
mod widths;

pub use commands::{Agg, AggList, Command, Compare, Condition, Idents, Node, Query};
pub use lists::Few;
pub use names::Ident;
pub use refusals::{Pool, Refusal};
pub use schemas::{
    Attribute, Attributes, Domain, DomainAsked, IndexKind, MOST_TABLES, Range, Schema,
};
pub use texts::Text;
pub use tokens::{Keyword, Sign, Token};
pub use values::{Tuple, Value};
pub use widths::{fields_length, row_length, up_to_zero, width};
