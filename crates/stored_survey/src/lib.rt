//! Whether the files of a database are ones that a cut of the power can have left, told by reading alone.
//!
//! A command that is cut leaves one thing half done, and all else as the rules 14 to 20 have it: `Half`
//! has the cases. First it is found which of them stands in the files, and then whether all else is sound
//! beside it. Damage breaks rules in other ways, or in two places, and is refused.
#![tactic(auto)]

mod begun;
mod emptied;
mod finding;
mod foretelling;
mod grown;
mod indexes;
mod judging;
mod mark;
mod places;
mod reading;
mod relations;
mod rows;

pub use foretelling::foretell;
pub use judging::may_be_cut;
