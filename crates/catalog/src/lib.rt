//! The catalog of a database: which relations and indexes it has, in the file `CAT`.
#![tactic(auto)]

mod change;
mod decode;
mod indexes;
mod laws;
mod names;
mod opening;
mod relations;
mod slots;
mod types;

pub use change::{clear_index, clear_relation, put_index, put_relation, room_for};
pub use decode::{is_row, read_attribute, read_relation};
pub use indexes::load_indexes;
pub use laws::{one_index_is_replaced, one_relation_is_replaced};
pub use names::{catalog_file, first_stranger, rows_file, tree_file};
pub use opening::load;
pub use slots::{first_catalog, relation_slot, unused_slot};
pub use types::{BadCatalog, Catalog, IndexEntry};
