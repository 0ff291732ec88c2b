//! Folds: the aggregates of a stream of values, found in passes over it and with no buffer.
#![tactic(auto)]

mod fold;
mod search;
mod stage;
mod summary;

pub use fold::Fold;
