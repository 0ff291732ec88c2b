//! What was repaired in a database.

#![tactic(auto)]

ghost use Rattle.std.specs.Prelude.{◌≡◌, ◌≤◌, []};
ghost use Rattle.stored_mend.specs.Reported.{with_line};

use afl_base::{IndexId, RelationId};
use db_model::{Few, Ident};

// The most lines: two of the catalog and its mark; one of each relation slot and one of the mark for
// its TIME; one of each index slot, of the rows and of the tree that a slot does not ask for, and of the
// rows of each relation; two of each tree, which may wait for room.
const MOST_LINES: usize = 2 + 16 + 8 + 8 + 8 + 8 + 16;

/// Something that was repaired.
#[derive(Clone, Copy, Debug, PartialEq, Eq)]
pub enum Mended {
    /// The first change of the catalog was not whole: its file is removed.
    Catalog,
    /// The mark of version 2 stands after the catalog.
    Mark,
    /// The rest of a relation that has no name is removed.
    Relation(RelationId),
    /// The attribute that a relation was being given is taken back.
    Attribute(Ident),
    /// The row that a relation was being given is taken back.
    Row(Ident),
    /// The tree of an index is built anew.
    Tree { relation: Ident, attribute: Ident },
    /// An index whose tree was not there is taken back.
    Index { relation: Ident, attribute: Ident },
    /// A tree that no index has is removed.
    Stray(IndexId),
}

impl Default for Mended {
    fn default() -> Mended {
        Mended::Catalog
    }
}

/// All that was repaired, in the order of the work.
#[derive(Drop)]
pub struct Report {
    pub mended: Few<Mended, MOST_LINES>,
}

impl Report {
    /// Nothing yet.
    pub fn new() -> Report
        ensures { result.mended ≡ [] }
    {
        Report { mended: Few::new() }
    }

    // One thing more. The list has a place for each that a repair may add.
    pub fn add(&mut self, mended: Mended)
        ensures { self.new.mended ≡ with_line self.old.mended mended }
    {
        if self.mended.len() < MOST_LINES {
            self.mended.push(mended);
        }
    }
}
