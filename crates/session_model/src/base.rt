use crate::held::{Held, Open};
use afl_base::Files;
use index_set::HashTables;

/// The database of a session: its files, what it knows of them, the entries of its hash tables, and its
/// open cursors. Contracts see it as the database that these stand for.
#[derive(Drop)]
pub struct Base<V: Files> {
    pub tables: HashTables,
    pub held: Held,
    pub opens: [Option<Open>; 4],
    // The last: before the tables it would be copied together with one of them.
    pub files: V,
}
