//! Which hash table a new index takes, and how many slots it has room for.

#![tactic(auto)]

ghost use Rattle.std.specs.Prelude.{◌≡◌, ◌<◌, ◌≤◌, IsFalse, IsTrue};
ghost use Rattle.session_indexes.specs.Sites.{free_table, is_in_table, is_table_taken};

use db_model::MOST_TABLES;
use index_set::{Access, MOST_KEYS, TableId};
use session_model::Indexed;

fn is_in_table(index: &Option<Indexed>, table: TableId) -> bool
    ensures { result ≡ is_in_table table index.now }
{
    match index {
        Some(index) => index.access == Access::Table(table),
        None => false,
    }
}

// Whether an index has the table.
fn is_taken(indexes: &[Option<Indexed>], table: TableId) -> bool
    ensures { result ≡ is_table_taken table indexes.now }
{
    for i in 0..indexes.len() {
        if is_in_table(&indexes[i], table) {
            return true;
        }
    }
    false
}

/// A table that no index has.
pub fn free_table(indexes: &[Option<Indexed>]) -> Option<TableId>
    ensures { result ≡ free_table indexes.now }
{
    if 0 < MOST_TABLES && !is_taken(indexes, TableId::First) {
        return Some(TableId::First);
    }
    if 1 < MOST_TABLES && !is_taken(indexes, TableId::Second) {
        return Some(TableId::Second);
    }
    None
}

/// Whether a table has no room for the keys of this many slots.
pub fn is_crowded(slots: u16) -> bool
    ensures crowded { IsTrue result → 2048 < slots }
    ensures fits { IsFalse result → slots ≤ 2048 }
{
    slots > MOST_KEYS
}
