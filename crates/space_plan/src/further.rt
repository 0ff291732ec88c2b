//! How many further rows are planned for.

#![tactic(auto)]

ghost use Rattle.std.specs.Prelude.{◌≡◌, ◌<◌, ◌≤◌, false, length};
ghost use Rattle.std.specs.List.{list_all};
ghost use Rattle.antelope_engine.specs.Reading.{relation_in_slot};
ghost use Rattle.space_plan.specs.FurtherRows.{are_relations, has_relation_name, is_relation, rows_for_name, rows_to};

use afl_base::{Files, RelationId};
use antelope_engine::Session;
use db_model::{Few, Ident};

/// This many rows for the relation of a name.
#[derive(Clone, Copy, Debug, PartialEq, Eq)]
pub struct NamedRows {
    pub relation: Ident,
    pub rows: u16,
}

impl Default for NamedRows {
    fn default() -> NamedRows {
        NamedRows {
            relation: Ident::default(),
            rows: 0,
        }
    }
}

/// How many further rows are planned for, relation by relation.
#[derive(Drop)]
pub enum FurtherRows {
    /// This many in each.
    Each(u16),
    /// This many in those that are named, and none in the others.
    Named(Few<NamedRows, 8>),
}

// How many come to the relation of a name.
pub fn rows_to(rows: &FurtherRows, name: &[u8]) -> u16
    ensures { result ≡ rows_to rows.now name.now }
{
    match rows {
        FurtherRows::Each(rows) => *rows,
        FurtherRows::Named(all) => rows_for_name(all.as_slice(), name),
    }
}

fn rows_for_name(all: &[NamedRows], name: &[u8]) -> u16
    ensures { result ≡ rows_for_name all.now name.now }
{
    for named in all {
        if named.relation.bytes() == name {
            return named.rows;
        }
    }
    0
}

// Whether each relation that is named is one of the session's database.
pub fn are_relations<V: Files>(session: &Session<V>, rows: &FurtherRows) -> bool
    requires running { session.now.stopped ≡ false }
    ensures { let db = session.now.database in
        length db.relations ≤ 8 → result ≡ are_relations db rows.now }
{
    match rows {
        FurtherRows::Each(_) => true,
        FurtherRows::Named(all) => all_are_relations(session, all.as_slice()),
    }
}

fn all_are_relations<V: Files>(session: &Session<V>, all: &[NamedRows]) -> bool
    requires running { session.now.stopped ≡ false }
    ensures { let db = session.now.database in length db.relations ≤ 8
        → result ≡ list_all (λ named. is_relation db named.relation) all.now }
{
    for named in all {
        if !is_relation(session, named.relation.bytes()) {
            return false;
        }
    }
    true
}

// Whether a relation of the session's database has this name.
#[tactic(auto, using(crate::proofs::Names::named_here, crate::proofs::Names::named_later))]
fn is_relation<V: Files>(session: &Session<V>, name: &[u8]) -> bool
    requires running { session.now.stopped ≡ false }
    ensures { let db = session.now.database in
        length db.relations ≤ 8 → result ≡ is_relation db name.now }
{
    for slot in 0..8u16 {
        if is_in_slot(session, slot, name) {
            return true;
        }
    }
    false
}

// Whether the relation in a slot has this name.
fn is_in_slot<V: Files>(session: &Session<V>, slot: u16, name: &[u8]) -> bool
    requires running { session.now.stopped ≡ false }
    requires slot { slot < 8 }
    ensures { result ≡ has_relation_name name.now (relation_in_slot session.now.database slot) }
{
    let Some(id) = RelationId::new(slot) else {
        return false;
    };
    match session.schema(id) {
        None => false,
        Some(schema) => schema.name.bytes() == name,
    }
}
