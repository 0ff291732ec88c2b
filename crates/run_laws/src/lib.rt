//! Laws on what a run leaves: what the statuses of `top` of `antelope_run` come to.
#![tactic(auto)]

mod laws;

pub use laws::{
    dumped_scripts_make_their_image, dumps_are_made_again,
    interrupted_repairs_restore_what_cuts_left, one_place_finds_no_space, one_place_is_unsaid,
    planned_rings_find_space, planned_runs_find_space, repairs_restore_what_cuts_left,
    runs_survive_cuts,
};
