//! The sectors that suffice for the database of a session once it has grown.

#![tactic(auto)]

ghost use Rattle.std.specs.Prelude.{◌≡◌, ◌+◌, ◌<◌, ◌≤◌, ◌++◌, [], false, IsTrue, length, map, option_map};
ghost use Rattle.std.specs.Option.{option_to_list};
ghost use Rattle.antelope_engine.specs.Reading.{index_in_slot, relation_in_slot};
ghost use Rattle.db_model.specs.Database.{used_things};
ghost use Rattle.space_model.specs.Enough.{rows_in};
ghost use Rattle.space_plan.specs.FurtherRows.{rows_to};
ghost use Rattle.space_plan.specs.Planned.{relation_name, planned, rows_planned, trees_planned};

use crate::further::{FurtherRows, rows_to};
use crate::growth::{rows_size, tree_size};
use crate::sectors::{enough_for, most_of};
use afl_base::{Files, IndexId, RelationId};
use antelope_engine::Session;
use db_model::{Few, IndexKind};

// The size that is planned for the rows of the relation in a slot, where it is used.
fn planned_rows<V: Files>(session: &Session<V>, slot: u16, rows: &FurtherRows) -> Option<u32>
    requires running { session.now.stopped ≡ false }
    requires slot { slot < 8 }
    ensures { let at = relation_in_slot session.now.database slot in
        result ≡ option_map (rows_planned (rows_to rows.now)) at }
{
    let id = RelationId::new(slot)?;
    let schema = session.schema(id)?;
    let more = rows_to(rows, schema.name.bytes());
    Some(rows_size(more, &schema.attributes, session.slots(id)))
}

// The slots of the relation in a slot, none where it is unused.
fn slots_in<V: Files>(session: &Session<V>, id: RelationId) -> u16
    requires running { session.now.stopped ≡ false }
    ensures { result ≡ length (rows_in session.now.database id) }
{
    match session.schema(id) {
        None => 0,
        Some(_) => session.slots(id),
    }
}

// How many rows come to the relation in a slot.
fn rows_in_slot<V: Files>(session: &Session<V>, id: RelationId, rows: &FurtherRows) -> u16
    requires running { session.now.stopped ≡ false }
    ensures { result ≡ rows_to rows.now (relation_name session.now.database id) }
{
    match session.schema(id) {
        None => rows_to(rows, &[]),
        Some(schema) => rows_to(rows, schema.name.bytes()),
    }
}

// The size that is planned for the hash tree in an index slot, where it has one.
fn planned_tree<V: Files>(session: &Session<V>, slot: u16, rows: &FurtherRows) -> Option<u32>
    requires running { session.now.stopped ≡ false }
    requires slot { slot < 8 }
    ensures { let at = index_in_slot session.now.database slot in IsTrue (V.state session.now.files).tells
        → option_to_list result
        ≡ trees_planned (rows_to rows.now) session.now.database (option_to_list at) }
{
    let id = IndexId::new(slot)?;
    let index = session.index(id)?;
    match index.kind {
        IndexKind::Inline | IndexKind::MemHash => None,
        IndexKind::MaxHeap => {
            let more = rows_in_slot(session, index.relation, rows);
            let slots = slots_in(session, index.relation);
            Some(tree_size(more, session.buckets(id), slots))
        }
    }
}

// Puts a size after the others, where there is one.
fn push(sizes: &mut Few<u32, 16>, size: Option<u32>)
    requires { length sizes.old < 16 }
    ensures { sizes.new ≡ sizes.old ++ option_to_list size }
{
    match size {
        None => {}
        Some(size) => sizes.push(size),
    }
}

// Puts the sizes that are planned for the rows of relations after the others.
fn push_rows<V: Files>(session: &Session<V>, rows: &FurtherRows, sizes: &mut Few<u32, 16>)
    requires running { session.now.stopped ≡ false }
    requires empty { sizes.old ≡ [] }
    ensures few { length sizes.new ≤ 8 }
    ensures sizes { let relations = session.now.database.relations in
        length relations ≤ 8
        → sizes.new ≡ map (rows_planned (rows_to rows.now)) (used_things relations) }
{
    for relation in 0..8u16 {
        push(sizes, planned_rows(session, relation, rows));
    }
}

// Puts the sizes that are planned for hash trees after the others.
fn push_trees<V: Files>(session: &Session<V>, rows: &FurtherRows, sizes: &mut Few<u32, 16>)
    requires running { session.now.stopped ≡ false }
    requires few { length sizes.old ≤ 8 }
    ensures few { length sizes.new ≤ 16 }
    ensures sizes { let indexes = session.now.database.indexes in
        IsTrue (V.state session.now.files).tells → length indexes ≤ 8
        → sizes.new ≡ sizes.old
        ++ trees_planned (rows_to rows.now) session.now.database (used_things indexes) }
{
    for index in 0..8u16 {
        push(sizes, planned_tree(session, index, rows));
    }
}

/// The sectors of a flash that suffice for the session's database while commands only insert and read, and
/// no relation gets more rows than `rows` says. A removed row keeps its slot, and counts. Nothing is said of the
/// number where the files do not tell their bytes.
pub fn planned<V: Files>(session: &Session<V>, rows: &FurtherRows) -> u32
    requires running { session.now.stopped ≡ false }
    ensures { IsTrue (V.state session.now.files).tells
        → result ≡ planned session.now.database (rows_to rows.now) }
{
    session.database_is_sound();
    let mut sizes = Few::new();
    push_rows(session, rows, &mut sizes);
    push_trees(session, rows, &mut sizes);
    let pages = most_of(sizes.as_slice());
    enough_for(sizes.as_slice(), pages)
}
