//! What a power cut left of an image, found by reading alone.
#![tactic(auto)]

mod behind;
mod erased;
mod finding;
mod judging;
mod laws;
mod overlays;
mod settling;
mod torn_header;
mod trouble;
mod twins;
mod walks;
mod zeros;

pub use judging::judge;
pub use laws::cut_images_mend;
pub use overlays::overlay_of;
pub use trouble::{Judgement, PlacedFile, TornRecord, Trouble, UnderWay};
