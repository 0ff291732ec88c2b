//! A relation slot that was being emptied.

#![tactic(auto)]

ghost use Rattle.std.specs.Prelude.{◌≡◌, ◌≤◌, ◌<◌, ◌+◌, ◌-◌, ◌*◌, ◌%◌, ℕ, List, Some, None, IfNone, IfSome, MatchOption, drop, length, slice_range};
ghost use Rattle.std.specs.Bool.{Decides};
ghost use Rattle.db_model.specs.declared.schemas.Attribute.{Attribute as AnyAttribute};
ghost use Rattle.db_model.specs.declared.schemas.Schema.{Schema as AnySchema};
ghost use Rattle.db_model.specs.declared.schemas.Domain.{Domain as AnyDomain};
ghost use Rattle.db_model.specs.Catalog.{IsAttribute, IsDomain, IsRelation, attribute_bytes, domain_code, domain_length, relation_slot_bytes};
ghost use Rattle.stored.specs.CutTables.{IsEdge, IsEmptiedInPart};
ghost use Rattle.stored_survey.specs.Parts.{IsAttributeEnd, IsNameEnd, IsSlotEnd};

use afl_base::put_bytes;
use catalog::{relation_slot, unused_slot};
use db_model::{Attribute, Attributes, Domain, Ident, Schema, up_to_zero};
use padded::is_zeros;

/// The first place of an attribute in a slot, and the bytes of one.
pub const ATTRIBUTES_AT: usize = 16;

pub const ATTRIBUTE_SIZE: usize = 18;

/// Whether a region of the catalog begins at this byte of a relation slot.
pub fn is_edge(slot: u16, at: usize) -> bool
    requires slot { slot < 8 }
    requires at { at ≤ 176 }
    ensures is { Decides result (IsEdge slot at) }
{
    (176 * slot as usize + at) % 128 == 0
}

/// Whether the slot is not used.
pub fn is_unused_slot(bytes: &[u8]) -> bool
    requires { length bytes.now ≡ 176 }
    ensures is { Decides result (bytes.now ≡ relation_slot_bytes None) }
{
    let unused: [u8; 176] = unused_slot();
    bytes == unused.as_slice()
}

/// Whether zeros stand in front up to where a region begins, and behind them the rest of a relation's
/// slot. No region begins in the name.
pub fn is_emptied_in_part(slot: u16, bytes: &[u8]) -> bool
    requires slot { slot < 8 }
    requires length { length bytes.now ≡ 176 }
    ensures is { Decides result (IsEmptiedInPart slot bytes.now) }
{
    for at in 16..161usize {
        if is_emptied_at(slot, at, bytes) {
            return true;
        }
    }
    false
}

// The same of a place.
fn is_emptied_at(slot: u16, at: usize, bytes: &[u8]) -> bool
    requires slot { slot < 8 }
    requires from { 16 ≤ at }
    requires upto { at ≤ 160 }
    requires length { length bytes.now ≡ 176 }
    ensures is { Decides result
        (IsEdge slot at × ((was : AnySchema) × IsSlotEnd at bytes.now was)) }
{
    if !is_edge(slot, at) {
        return false;
    }
    is_rest(at, bytes)
}

// Whether zeros stand in front up to a place, and behind them the rest of a relation's slot.
fn is_rest(at: usize, bytes: &[u8]) -> bool
    requires from { 16 ≤ at }
    requires upto { at ≤ 160 }
    requires even { at % 2 ≡ 0 }
    requires length { length bytes.now ≡ 176 }
    ensures is { Decides result ((was : AnySchema) × IsSlotEnd at bytes.now was) }
{
    if !is_zeros(&bytes[..at]) {
        return false;
    }
    match ended_relation(at, bytes) {
        Some(was) => has_end(bytes, relation_slot(&was).as_slice(), at),
        None => false,
    }
}

// Whether the same bytes stand from a place on.
fn has_end(bytes: &[u8], other: &[u8], at: usize) -> bool
    requires inside { at ≤ length bytes.now }
    requires same { length other.now ≡ length bytes.now }
    ensures is { Decides result (drop at bytes.now ≡ drop at other.now) }
{
    bytes[at..] == other[at..]
}

// A relation whose slot has these bytes from a place on, where there is one.
fn ended_relation(at: usize, bytes: &[u8]) -> Option<Schema>
    requires from { 16 ≤ at }
    requires upto { at ≤ 160 }
    requires even { at % 2 ≡ 0 }
    requires length { length bytes.now ≡ 176 }
    ensures valid { IfSome result (λ made. IsRelation (Some made)) }
    ensures same { (was : AnySchema) → IsSlotEnd at bytes.now was → MatchOption result ⊥
        (λ made. drop at (relation_slot_bytes (Some made))
        ≡ drop at (relation_slot_bytes (Some was))) }
{
    let count = bytes[160] as usize;
    if count > 8 {
        return None;
    }
    let mut attributes = Attributes::new();
    for place in 0..count {
        attributes.push(ended_attribute(at, place, bytes)?);
    }
    Some(Schema {
        name: Ident::default(),
        attributes,
    })
}

// An attribute at its place in the slot, of which the bytes before `at` may be any.
fn ended_attribute(at: usize, place: usize, bytes: &[u8]) -> Option<Attribute>
    requires from { 16 ≤ at }
    requires even { at % 2 ≡ 0 }
    requires place { place < 8 }
    requires length { length bytes.now ≡ 176 }
    ensures valid { IfSome result (λ made. IsAttribute made) }
    ensures same { (a : AnyAttribute) → IsAttribute a
        → drop (at - (16 + 18 * place))
        (slice_range bytes.now (16 + 18 * place) (16 + 18 * place + 18))
        ≡ drop (at - (16 + 18 * place)) (attribute_bytes a)
        → MatchOption result ⊥ (λ made. drop (at - (16 + 18 * place)) (attribute_bytes made)
        ≡ drop (at - (16 + 18 * place)) (attribute_bytes a)) }
{
    let begin = ATTRIBUTES_AT + ATTRIBUTE_SIZE * place;
    let end = begin + ATTRIBUTE_SIZE;
    if end <= at {
        return Some(Attribute {
            name: Ident::default(),
            domain: Domain::Int,
        });
    }
    if begin < at {
        return attribute_ended(&bytes[at..end]);
    }
    attribute_ended(&bytes[begin..end])
}

/// An attribute whose last bytes these are, None where there is none.
pub fn attribute_ended(bytes: &[u8]) -> Option<Attribute>
    requires some { 2 ≤ length bytes.now }
    requires most { length bytes.now ≤ 18 }
    ensures some { IfSome result (λ a. IsAttributeEnd bytes.now a) }
    ensures none { IfNone result ((a : AnyAttribute) → IsAttributeEnd bytes.now a → ⊥) }
{
    let size = bytes.len() - 2;
    let name = name_ended(&bytes[..size])?;
    let domain = domain_in(bytes[size], bytes[size + 1])?;
    Some(Attribute { name, domain })
}

// A name whose field ends with these bytes. What it begins with is taken for letters with which no
// keyword begins.
fn name_ended(bytes: &[u8]) -> Option<Ident>
    requires { length bytes.now ≤ 16 }
    ensures some { IfSome result (λ name. IsNameEnd bytes.now name) }
    ensures none { IfNone result ((name : List ℕ) → IsNameEnd bytes.now name → ⊥) }
{
    if bytes.is_empty() {
        return Some(Ident::default());
    }
    let shown = up_to_zero(bytes);
    if !is_zeros(&bytes[shown.len()..]) {
        return None;
    }
    let hidden = 16 - bytes.len();
    let mut name = *b"zzzzzzzzzzzzzzzz";
    put_bytes(&mut name, hidden, shown);
    Ident::new(&name[..hidden + shown.len()])
}

// The domain of a code and a length, None where there is none.
fn domain_in(code: u8, length: u8) -> Option<Domain>
    ensures some { IfSome result
        (λ d. IsDomain d × (domain_code d ≡ code) × (domain_length d ≡ length)) }
    ensures none { IfNone result ((d : AnyDomain)
        → IsDomain d → domain_code d ≡ code → domain_length d ≡ length → ⊥) }
{
    match code {
        1 => (length == 0).then_some(Domain::Int),
        2 => (length == 0).then_some(Domain::Long),
        3 => (1 <= length && length <= 32).then_some(Domain::Str(length)),
        4 => (length == 0).then_some(Domain::Time),
        _ => None,
    }
}
