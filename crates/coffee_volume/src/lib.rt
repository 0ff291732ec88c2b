//! The files of a flash: a `Volume` holds a flash and the table of its files, and meets `Files`.
#![tactic(auto)]

mod drafts;
mod entry;
mod files;
mod laws;
mod mount;
mod prepare;
mod step;
mod volume;
mod window;

pub use laws::{cramped_volume_is_small, images_mend_to_one_set_of_files};
pub use mount::{Listed, MountError, Unlisted, list};
pub use volume::Volume;
