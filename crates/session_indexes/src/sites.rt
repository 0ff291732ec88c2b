//! Where an index comes to stand: in the first unused slot, on an attribute that may have an index
//! of the kind and has none.

#![tactic(auto)]

ghost use Rattle.std.specs.Prelude.{◌≡◌, ◌<◌, ℕ, List, Option, Some, Err, IfErr, IfOk, IfSome};
ghost use Rattle.std.specs.Prelude.{length};
ghost use Rattle.afl_base.specs.Files.{Table};
ghost use Rattle.db_model.specs.Database.{free_from};
ghost use Rattle.db_model.specs.Item.{place_of};
ghost use Rattle.db_model.specs.Step.{allows, create_index};
ghost use Rattle.session_model.specs.Cells.{cell_from};
ghost use Rattle.session_model.specs.View.{view};
ghost use Rattle.session_model.specs.declared.held.Open.{Open};
ghost use Rattle.session_indexes.specs.Sites.{IsSite, is_held_on, slot_from};

use afl_base::{IndexId, RelationId};
use db_model::{Attributes, Domain, Ident, IndexKind, Pool, Refusal};
use session_model::{Held, Indexed};
use tuple_file::Tuples;

/// An index slot, and the place of an attribute of the relation in a slot.
#[derive(Clone, Copy)]
pub struct Site {
    pub slot: IndexId,
    pub relation: RelationId,
    pub attribute: u8,
}

/// The place of the attribute of that name.
pub fn place_of(attributes: &Attributes, name: &Ident) -> Option<u8>
    ensures place { result ≡ place_of name.now attributes.now }
    ensures below { IfSome result (λ place. place < 8) }
    ensures within { IfSome result (λ place. place < length attributes.now) }
{
    let items = attributes.as_slice();
    for i in 0..items.len() {
        if items[i].name == *name {
            return Some(i as u8);
        }
    }
    None
}

// Whether an index of the kind may stand on an attribute of the domain.
fn allows(kind: IndexKind, domain: Domain) -> bool
    ensures { result ≡ allows kind domain }
{
    match domain {
        Domain::Int | Domain::Long => true,
        Domain::Time => kind == IndexKind::Inline,
        Domain::Str(_) => false,
    }
}

fn is_held_on(index: &Option<Indexed>, relation: RelationId, attribute: u8) -> bool
    ensures { result ≡ is_held_on relation attribute index.now }
{
    match index {
        Some(index) => {
            index.relation.number() == relation.number() && index.attribute == attribute
        }
        None => false,
    }
}

/// The slot of the index on the attribute at a place of the relation in a slot.
pub fn slot_of(indexes: &[Option<Indexed>], relation: RelationId, attribute: u8) -> Option<IndexId>
    requires { length indexes.now ≡ 8 }
    ensures { result ≡ slot_from relation attribute 0 indexes.now }
{
    for i in 0..indexes.len() {
        if is_held_on(&indexes[i], relation, attribute) {
            return IndexId::new(i as u16);
        }
    }
    None
}

// The first unused slot.
fn free_slot(indexes: &[Option<Indexed>]) -> Option<IndexId>
    requires { length indexes.now ≡ 8 }
    ensures { result ≡ free_from 0 indexes.now }
{
    for i in 0..indexes.len() {
        if indexes[i].is_none() {
            return IndexId::new(i as u16);
        }
    }
    None
}

/// Where an index of a kind comes to stand on an attribute of a relation, or what refuses it before
/// the kind is asked.
pub fn site_for(
    held: &Held,
    relation: RelationId,
    tuples: &Tuples,
    attribute: &Ident,
    kind: IndexKind,
) -> Result<Site, Refusal>
    requires { length held.now.indexes ≡ 8 }
    ensures site { IfOk result (λ site. IsSite held.now attribute.now kind site tuples.now) }
    ensures relation { IfOk result (λ site. site.relation ≡ relation) }
    ensures refused { IfErr result (λ refusal.
        (files : Table) (opens : List (Option Open)) (name : List ℕ)
        → cell_from name 0 held.now.relations ≡ Some (relation, tuples.now)
        → create_index (view files held.now opens) name attribute.now kind ≡ Err refusal) }
{
    let Some(place) = place_of(&tuples.schema.attributes, attribute) else {
        return Err(Refusal::NoAttribute { nth: 1 });
    };
    if !allows(kind, tuples.schema.attributes.get(place as usize).domain) {
        return Err(Refusal::Domain);
    }
    if slot_of(&held.indexes, relation, place).is_some() {
        return Err(Refusal::Exists);
    }
    let Some(slot) = free_slot(&held.indexes) else {
        return Err(Refusal::Full {
            pool: Pool::Indexes,
            limit: 8,
        });
    };
    Ok(Site {
        slot,
        relation,
        attribute: place,
    })
}
