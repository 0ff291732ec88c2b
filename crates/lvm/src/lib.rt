//! Conditions: compiled for a schema, evaluated on its tuples, and turned into ranges.
#![tactic(auto)]

mod arithmetic;
mod code;
mod comparing;
mod evaluate;
mod instruction;
mod item;
mod kind;
pub mod laws;
mod side;
mod stack;
mod values;

pub use code::Code;
pub use item::Item;
pub use values::Values;
