//! What a power cut left of an image is repaired: its files stay those that it mends to.
#![tactic(auto)]

mod completing;
mod discarding;
mod drafting;
mod joining;
mod laws;
mod mending;
mod owner;
mod settling;
mod superseding;

pub use discarding::{discard, torn_file};
pub use laws::{cut_settlings_mend, mended_images_keep_their_files};
pub use mending::{MendError, mend};
