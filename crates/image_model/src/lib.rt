//! Which images of a flash are sound, and which database each stands for.
#![tactic(auto)]

mod laws;
mod returned;

pub use laws::{
    erased_image_is_sound, images_mend_to_one_database, mounted_files_are_the_images,
    sound_image_breaks_no_rule, volumes_are_asked_for_few,
};
pub use returned::sound_files_are_a_sound_image;
