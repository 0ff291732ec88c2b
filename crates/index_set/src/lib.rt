//! The indexes of a relation: which one serves a condition, and the slots that it finds.
#![tactic(auto)]

mod candidates;
mod choices;
mod info;
mod inserts;
mod laws;
mod tables;
mod walks;

pub use candidates::{Candidates, Search};
pub use choices::{Plan, choose, verify_all};
pub use index_memhash::MOST_KEYS;
pub use info::{Access, IndexInfo, Indexes, Rooms, TableId};
pub use inserts::{insert_all, prepare_all};
pub use laws::{
    ahead_where_rows_come, fits_where_rows_are_inserted, grown_where_all_are_complete,
    waits_where_rows_come,
};
pub use tables::HashTables;
