//! A flash over a flash that is owned: it reads as that would if a few writes had been done, and is never
//! written.
#![tactic(auto)]

mod handed;
mod over;
mod overlay;
mod view;

pub use handed::Handed;
pub use overlay::{Mark, Overlay, Two};
pub use view::View;
