//! Four clients on one line: their frames as the bytes come, and the sink that puts the client first.
#![tactic(auto)]

mod asking;
mod carrying;
mod decoder;
mod fed;
mod framed;
mod hearing;
mod replies;
mod serving;
mod whole;

pub use asking::answer;
pub use decoder::Decoder;
pub use fed::Fed;
pub use framed::{Begun, Framed};
pub use serving::Server;
pub use whole::serve_line;
