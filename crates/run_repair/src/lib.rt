//! Repairs an image of a flash that a power cut left, or tells by reading alone what that would do.
#![tactic(auto)]

mod came;
mod checking;
mod finding;
mod giving_up;
mod judging;
mod laws;
mod lines;
mod mending;
mod repairing;
mod room;
mod surveying;
mod verdicts;

pub use checking::check;
pub use judging::judge_image;
pub use laws::{
    cut_images_are_repaired, interrupted_repairs_lose_nothing,
    repaired_images_stand_for_what_they_mended_to,
};
pub use repairing::repair;
