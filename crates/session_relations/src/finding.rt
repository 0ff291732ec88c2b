//! Relations and free slots of the catalog.

#![tactic(auto)]

ghost use Rattle.std.specs.Prelude.{◌≡◌, ◌⊎◌, Option, Some, None, IfNone, IfSome, get_or, length, nat_lt};
ghost use Rattle.db_model.specs.Database.{free_from};
ghost use Rattle.session_model.specs.Cells.{cell_from};
ghost use Rattle.session_relations.specs.Changes.{indexes_on, is_index_on};
ghost use Rattle.tuple_file.specs.declared.tuples.Tuples.{Tuples as AnyTuples};

use afl_base::{FileId, RelationId};
use db_model::Ident;
use session_model::{Held, Indexed, find_relation};
use tuple_file::Tuples;

/// The file of the catalog, and a slot in it.
#[derive(Clone, Copy)]
pub struct Place {
    pub cat: FileId,
    pub slot: RelationId,
}

/// Where the relation of that name stands. Without a catalog there is no relation.
pub fn find_place(held: &Held, name: &Ident) -> Option<Place>
    requires { length held.now.relations ≡ 8 }
    ensures cat { IfSome result (λ place. held.now.cat ≡ Some place.cat) }
    ensures there { IfSome result (λ place. (t : AnyTuples)
        × (get_or held.now.relations place.slot None ≡ Some t)
        × (cell_from name.now 0 held.now.relations ≡ Some (place.slot, t))) }
    ensures none { IfNone result
        ((held.now.cat ≡ None) ⊎ (cell_from name.now 0 held.now.relations ≡ None)) }
{
    let Some(cat) = held.cat else {
        return None;
    };
    let k = find_relation(&held.relations, name)?;
    let slot = RelationId::new(k as u16)?;
    Some(Place { cat, slot })
}

/// The lowest slot without a relation.
pub fn free_slot(relations: &[Option<Tuples>]) -> Option<RelationId>
    requires { length relations.now ≡ 8 }
    ensures { result ≡ free_from 0 relations.now }
{
    for i in 0..relations.len() {
        if relations[i].is_none() {
            return RelationId::new(i as u16);
        }
    }
    None
}

/// Whether the relation in a slot has an index.
pub fn has_index(indexes: &[Option<Indexed>], relation: RelationId) -> bool
    ensures { result ≡ nat_lt 0 (length (indexes_on relation indexes.now)) }
{
    for slot in indexes {
        if is_on(slot, relation) {
            return true;
        }
    }
    false
}

fn is_on(slot: &Option<Indexed>, relation: RelationId) -> bool
    ensures { result ≡ is_index_on relation slot.now }
{
    match slot {
        Some(index) => index.relation == relation,
        None => false,
    }
}
