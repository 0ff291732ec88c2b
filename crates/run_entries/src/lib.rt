//! What a session makes of the entries of an input, however its bytes are cut into them and sent: definitions and their laws; and
//! the line of an image that is not sound.
#![tactic(auto)]

mod image_line;
mod laws;

pub use image_line::write_image_line;
pub use laws::accepted_commands_are_answered;
