//! Whether the indexes of a relation take one more row.

#![tactic(auto)]

ghost use Rattle.std.specs.Prelude.{◌≡◌, ◌≤◌, length, option_map, slice_get};
ghost use Rattle.catalog.specs.CatalogFile.{index_in, indexes_in};
ghost use Rattle.db_model.specs.Row.{fields_length, row_of, tuple_of};
ghost use Rattle.db_model.specs.Step.{key_of};
ghost use Rattle.stored_mend.specs.Whole.{all_take, is_in_order, row_read, slot_takes, takes_next};

use afl_base::RelationId;
use catalog::IndexEntry;
use db_model::{Attribute, IndexKind};
use tuple_file::{Field, field_at};

/// Whether each index of a relation takes a row behind so many others. The last of them has no bytes where there
/// is none.
pub fn all_take(
    indexes: &[Option<IndexEntry>],
    relation: RelationId,
    attributes: &[Attribute],
    slots: u32,
    before: &[u8],
    row: &[u8],
) -> bool
    requires row { fields_length attributes.now ≤ length row.now }
    requires before { 1 ≤ length before.now → fields_length attributes.now ≤ length before.now }
    ensures { result ≡ all_take (indexes_in indexes.now) relation slots (row_read attributes.now before.now)
        (row_of attributes.now row.now) }
{
    for index in indexes {
        if !slot_takes(index, relation, attributes, slots, before, row) {
            return false;
        }
    }
    true
}

// Whether an index slot has no index of the relation, or one that takes the row.
fn slot_takes(
    slot: &Option<IndexEntry>,
    relation: RelationId,
    attributes: &[Attribute],
    slots: u32,
    before: &[u8],
    row: &[u8],
) -> bool
    requires row { fields_length attributes.now ≤ length row.now }
    requires before { 1 ≤ length before.now → fields_length attributes.now ≤ length before.now }
    ensures { result ≡ slot_takes relation slots (row_read attributes.now before.now)
        (row_of attributes.now row.now) (option_map index_in slot.now) }
{
    match slot {
        Some(index) => {
            index.relation.number() != relation.number()
                || takes(index, attributes, slots, before, row)
        }
        None => true,
    }
}

// Whether an index takes the row.
fn takes(
    index: &IndexEntry,
    attributes: &[Attribute],
    slots: u32,
    before: &[u8],
    row: &[u8],
) -> bool
    requires row { fields_length attributes.now ≤ length row.now }
    requires before { 1 ≤ length before.now → fields_length attributes.now ≤ length before.now }
    ensures { result ≡ takes_next index.now.kind index.now.attribute slots (row_read attributes.now before.now)
        (row_of attributes.now row.now) }
{
    match index.kind {
        IndexKind::Inline => is_in_order(attributes, index.attribute, before, row),
        IndexKind::MaxHeap => true,
        IndexKind::MemHash => slots < 2_048,
    }
}

// Whether the number that a row has at a place is not below that of the row before.
fn is_in_order(attributes: &[Attribute], place: u8, before: &[u8], row: &[u8]) -> bool
    requires row { fields_length attributes.now ≤ length row.now }
    requires before { 1 ≤ length before.now → fields_length attributes.now ≤ length before.now }
    ensures { result ≡ is_in_order place (row_read attributes.now before.now) (row_of attributes.now row.now) }
{
    if before.is_empty() {
        return true;
    }
    number_at(attributes, place, row) >= number_at(attributes, place, before)
}

// The number that a row has at a place, 0 where it has none.
fn number_at(attributes: &[Attribute], place: u8, row: &[u8]) -> i64
    requires { fields_length attributes.now ≤ length row.now }
    ensures { result ≡ key_of (slice_get (tuple_of attributes.now row.now) place) }
{
    match field_at(attributes, row, place) {
        Some(Field::Number(number)) => number,
        Some(Field::Text(_)) => 0,
        None => 0,
    }
}
