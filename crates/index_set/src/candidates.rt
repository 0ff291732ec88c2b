//! How the slots of a condition are found, and which of them are still to come.

#![tactic(auto)]

ghost use Rattle.std.specs.Prelude.{◌≤◌};

use crate::info::TableId;
use afl_base::FileId;
use db_model::Range;
use index_maxheap::Place;

/// How slots are found.
#[derive(Clone, Copy, Debug, PartialEq, Eq)]
pub enum Search {
    Nothing,
    Scan,
    Order {
        attribute: u8,
        range: Range,
    },
    Tree {
        attribute: u8,
        file: FileId,
        key: i32,
    },
    Table {
        attribute: u8,
        table: TableId,
        key: i32,
    },
}

/// The slots that a search has still to answer: those from `from` on and below `slots`.
#[derive(Clone, Copy, Debug, PartialEq, Eq)]
pub struct Candidates {
    pub search: Search,
    /// Where in a tree it stands, None for its root.
    pub place: Option<Place>,
    /// Where it stood when it came to rest: nothing is asked of it, and a look tells whether it is so.
    pub hint: Option<Place>,
    pub from: u16,
    /// Where an order's range ends, or `slots`.
    pub end: u16,
    pub slots: u16,

    pub ghost order: { from ≤ end },
    pub ghost within: { end ≤ slots },
    pub ghost few: { slots ≤ 32768 },
}
