//! Indexes of a relation, and how each finds the slots of a key.

#![tactic(auto)]

use afl_base::{FileId, KeyColumn};
use db_model::Few;
use index_maxheap::Room;

/// A hash table in memory. There are as many as `MOST_TABLES` of `db_model`, and at most two.
#[derive(Clone, Copy, Debug, PartialEq, Eq)]
pub enum TableId {
    First,
    Second,
}

/// By what an index finds the slots of a key.
#[derive(Clone, Copy, Debug, PartialEq, Eq)]
pub enum Access {
    /// The keys do not fall over the slots.
    Order,
    /// The hash tree in this file.
    Tree(FileId),
    /// This hash table.
    Table(TableId),
}

/// An index of a relation: the place of its attribute, where the keys stand, and how they are found.
#[derive(Clone, Copy, Debug, PartialEq, Eq)]
pub struct IndexInfo {
    pub attribute: u8,
    pub column: KeyColumn,
    pub access: Access,
}

impl Default for IndexInfo {
    fn default() -> IndexInfo {
        IndexInfo {
            attribute: 0,
            column: KeyColumn {
                file: FileId::default(),
                row: 0,
                at: 0,
                width: 2,
            },
            access: Access::Order,
        }
    }
}

/// The indexes of one relation, in the order of their catalog slots.
pub type Indexes = Few<IndexInfo, 8>;

/// The rooms of the indexes of a list, each at its index's place.
pub type Rooms = Few<Room, 8>;
