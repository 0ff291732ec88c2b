//! The tokens of a command: words, numbers, quoted texts and signs.
#![tactic(auto)]

mod expected;
mod lexed;
mod scan;

pub use expected::{keyword_len, literal_at, name_at, past_white};
pub use lexed::Lexed;
pub use scan::next_token;
