//! A relation by its name, with its indexes.

#![tactic(auto)]

ghost use Rattle.std.specs.Prelude.{◌≡◌, None, IfNone, IfSome};
ghost use Rattle.session_model.specs.Cells.{cell_from};
ghost use Rattle.session_queries.specs.Finds.{HasEightSlots, IsRelationFound};

use db_model::Ident;
use index_set::Indexes;
use session_model::{Held, find_relation, indexes_of};
use tuple_file::Tuples;

/// A relation, its slot and its indexes.
#[derive(Drop)]
pub struct Found {
    pub slot: u16,
    pub tuples: Tuples,
    pub indexes: Indexes,
}

/// The relation of that name, `None` exactly where there is none.
pub fn find(held: &Held, name: &Ident) -> Option<Found>
    requires slots { HasEightSlots held.now }
    ensures found { IfSome result (λ found. IsRelationFound held.now name.now found) }
    ensures none { IfNone result (cell_from name.now 0 held.now.relations ≡ None) }
{
    let slot = match find_relation(&held.relations, name) {
        Some(slot) => slot,
        None => return None,
    };
    match &held.relations[slot] {
        None => None,
        Some(tuples) => Some(Found {
            slot: slot as u16,
            tuples: tuples.copy(),
            indexes: indexes_of(&held.indexes, slot as u16, tuples),
        }),
    }
}
