//! The words that the program is called with, and what they ask for.
#![tactic(auto)]

mod digits;
mod planned;
mod reading;
mod words;

pub use reading::form;
pub use words::Form;
