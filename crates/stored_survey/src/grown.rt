//! A relation slot that was being given one more attribute.

#![tactic(auto)]

ghost use Rattle.std.specs.Prelude.{◌≡◌, ◌≤◌, ◌<◌, ◌+◌, ◌*◌, ◌++◌, ◌∷◌, [], ℕ, List, Some, IfNone, IfSome, length, true};
ghost use Rattle.std.specs.Bool.{Decides};
ghost use Rattle.catalog.specs.Rules.{is_row, is_schema};
ghost use Rattle.db_model.specs.declared.schemas.Attribute.{Attribute as AnyAttribute};
ghost use Rattle.db_model.specs.Catalog.{relation_slot_bytes};
ghost use Rattle.stored.specs.CutTables.{IsEdge, IsGrownInPart};
ghost use Rattle.stored_mend.specs.Slots.{IsReadSlot};
ghost use Rattle.stored_survey.specs.Parts.{EndsBeforeCount, IsAttributeEnd, IsMoreInPart, IsNameFront, IsPartAt, IsWholeMore};

use crate::emptied::{ATTRIBUTE_SIZE, ATTRIBUTES_AT, attribute_ended, is_edge};
use afl_base::put_bytes;
use catalog::is_row;
use db_model::{Attribute, Attributes, Ident, Schema, up_to_zero};
use padded::is_zeros;

/// Whether nothing stands after the attributes of a relation.
pub fn ends_with_attributes(bytes: &[u8], schema: &Schema) -> bool
    requires length { length bytes.now ≡ 176 }
    ensures is { IsReadSlot bytes.now schema.now
        → Decides result (bytes.now ≡ relation_slot_bytes (Some schema.now)) }
{
    is_zeros(&bytes[ATTRIBUTES_AT + ATTRIBUTE_SIZE * schema.attributes.len()..160])
}

/// Whether one more attribute stands after those of a relation, or those bytes of it that lie before or
/// after the begin of a region, and nothing else. Their number stands in a region after it.
pub fn is_grown_in_part(slot: u16, bytes: &[u8], schema: &Schema) -> bool
    requires slot { slot < 8 }
    requires length { length bytes.now ≡ 176 }
    ensures is { IsReadSlot bytes.now schema.now
        → Decides result (IsGrownInPart slot bytes.now schema.now) }
{
    let count = schema.attributes.len();
    if count >= 8 {
        return false;
    }
    let begin = ATTRIBUTES_AT + ATTRIBUTE_SIZE * count;
    let end = begin + ATTRIBUTE_SIZE;
    if !is_zeros(&bytes[end..160]) {
        return false;
    }
    is_more_in_part(slot, &bytes[begin..end], schema)
}

// Whether these are the bytes, or such a part of them, of one more attribute.
fn is_more_in_part(slot: u16, field: &[u8], schema: &Schema) -> bool
    requires slot { slot < 8 }
    requires length { length field.now ≡ 18 }
    requires few { length schema.now.attributes < 8 }
    ensures is { is_schema 2 schema.now ≡ true
        → Decides result (IsMoreInPart slot field.now schema.now) }
{
    let begin = ATTRIBUTES_AT + ATTRIBUTE_SIZE * schema.attributes.len();
    if is_whole_apart(slot, begin, field, schema) {
        return true;
    }
    for at in 1..17usize {
        if is_part_at_edge(slot, begin, at, field) {
            return true;
        }
    }
    false
}

// Whether all of an attribute stands here that the relation may be given.
fn is_whole_apart(slot: u16, begin: usize, field: &[u8], schema: &Schema) -> bool
    requires slot { slot < 8 }
    requires begin { begin ≤ 142 }
    requires length { length field.now ≡ 18 }
    requires few { length schema.now.attributes < 8 }
    ensures is { is_schema 2 schema.now ≡ true
        → Decides result (EndsBeforeCount slot (begin + 18) × IsWholeMore field.now schema.now) }
{
    if !is_apart(slot, begin + ATTRIBUTE_SIZE) {
        return false;
    }
    is_whole_more(field, schema)
}

// Whether the bytes of a slot up to a place lie in regions before that of the number of attributes.
fn is_apart(slot: u16, end: usize) -> bool
    requires slot { slot < 8 }
    requires some { 1 ≤ end }
    requires inside { end ≤ 176 }
    ensures is { Decides result (EndsBeforeCount slot end) }
{
    let front = 176 * slot as usize;
    (front + end - 1) / 128 < (front + 160) / 128
}

// Whether an attribute stands here that the relation may be given.
fn is_whole_more(field: &[u8], schema: &Schema) -> bool
    requires length { length field.now ≡ 18 }
    requires few { length schema.now.attributes < 8 }
    ensures is { is_schema 2 schema.now ≡ true → Decides result (IsWholeMore field.now schema.now) }
{
    match attribute_ended(field) {
        Some(more) => fits(&more, schema),
        None => false,
    }
}

// Whether the relation may be given an attribute: none of its own has the name, and its row is not
// too long.
fn fits(more: &Attribute, schema: &Schema) -> bool
    requires few { length schema.now.attributes < 8 }
    ensures { result ≡ is_row (schema.now.attributes ++ more.now ∷ []) }
{
    is_row(&with_more(schema.attributes.as_slice(), more))
}

// The attributes, and one more behind them.
fn with_more(attributes: &[Attribute], more: &Attribute) -> Attributes
    requires few { length attributes.now < 8 }
    ensures { result ≡ attributes.now ++ more.now ∷ [] }
{
    let mut all = Attributes::new();
    for attribute in attributes {
        all.push(*attribute);
    }
    all.push(*more);
    all
}

// Whether a region begins at a place in an attribute, and the bytes before it stand here, or those
// behind.
fn is_part_at_edge(slot: u16, begin: usize, at: usize, field: &[u8]) -> bool
    requires slot { slot < 8 }
    requires some { 1 ≤ at }
    requires at { at ≤ 16 }
    requires begin { begin ≤ 142 }
    requires length { length field.now ≡ 18 }
    ensures is { Decides result (IsEdge slot (begin + at) × IsPartAt slot begin at field.now) }
{
    if !is_edge(slot, begin + at) {
        return false;
    }
    is_part(slot, begin, at, field)
}

fn is_part(slot: u16, begin: usize, at: usize, field: &[u8]) -> bool
    requires slot { slot < 8 }
    requires some { 1 ≤ at }
    requires at { at ≤ 16 }
    requires begin { begin ≤ 142 }
    requires length { length field.now ≡ 18 }
    ensures is { Decides result (IsPartAt slot begin at field.now) }
{
    if is_zeros(&field[at..]) {
        return is_front(slot, begin + at, &field[..at]);
    }
    if !is_zeros(&field[..at]) {
        return false;
    }
    is_end(slot, begin + ATTRIBUTE_SIZE, &field[at..])
}

// Whether an attribute begins with these bytes, up to a place in the slot.
fn is_front(slot: u16, end: usize, bytes: &[u8]) -> bool
    requires slot { slot < 8 }
    requires some { 1 ≤ end }
    requires inside { end ≤ 176 }
    requires few { length bytes.now ≤ 16 }
    ensures is { Decides result
        (EndsBeforeCount slot end × ((name : List ℕ) × IsNameFront bytes.now name)) }
{
    if !is_apart(slot, end) {
        return false;
    }
    begins_name(bytes)
}

// Whether an attribute ends with these bytes, up to a place in the slot.
fn is_end(slot: u16, end: usize, bytes: &[u8]) -> bool
    requires slot { slot < 8 }
    requires some { 1 ≤ end }
    requires inside { end ≤ 176 }
    requires least { 2 ≤ length bytes.now }
    requires most { length bytes.now ≤ 18 }
    ensures is { Decides result
        (EndsBeforeCount slot end × ((a : AnyAttribute) × IsAttributeEnd bytes.now a)) }
{
    if !is_apart(slot, end) {
        return false;
    }
    ends_attribute(bytes)
}

fn begins_name(bytes: &[u8]) -> bool
    requires { length bytes.now ≤ 16 }
    ensures is { Decides result ((name : List ℕ) × IsNameFront bytes.now name) }
{
    name_begun(bytes).is_some()
}

fn ends_attribute(bytes: &[u8]) -> bool
    requires some { 2 ≤ length bytes.now }
    requires most { length bytes.now ≤ 18 }
    ensures is { Decides result ((a : AnyAttribute) × IsAttributeEnd bytes.now a) }
{
    attribute_ended(bytes).is_some()
}

/// A name whose field begins with these bytes. Where it may go on it is taken for one of 15 letters, since
/// its first letters may be a keyword, and no keyword is so long.
pub fn name_begun(bytes: &[u8]) -> Option<Ident>
    requires { length bytes.now ≤ 16 }
    ensures some { IfSome result (λ name. IsNameFront bytes.now name) }
    ensures none { IfNone result ((name : List ℕ) → IsNameFront bytes.now name → ⊥) }
{
    let front = up_to_zero(bytes);
    if front.len() < bytes.len() {
        if !is_zeros(&bytes[front.len()..]) {
            return None;
        }
        return Ident::new(front);
    }
    if front.len() > 15 {
        return None;
    }
    let mut longest = *b"zzzzzzzzzzzzzzz";
    put_bytes(&mut longest, 0, front);
    Ident::new(&longest)
}
