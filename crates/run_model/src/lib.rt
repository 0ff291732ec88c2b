//! What a run leaves, status by status: the definitions that the contract of the top call is made of, and laws on them.
#![tactic(auto)]

mod laws;

pub use laws::{
    first_bytes_give_first_entries, one_reply_is_unsaid, scripts_are_answered_in_order,
    scripts_come_in_parts,
};
