ghost use Rattle.std.specs.Prelude.{◌≡◌, ◌<◌, ◌≤◌, ◌*◌, ◌+◌, ◌&&◌, ◌==◌, Some, None, IfNone, IfSome, IsFalse, IsTrue, if◌then◌else◌, length, nat_le, nat_lt, option_map, replicate, slice_index, take, ◌++◌, ◌∷◌, [], ◌-◌};
ghost use Rattle.std.specs.List.{list_all};
ghost use Rattle.std.specs.Str.{bytes_eq};
ghost use Rattle.db_model.specs.Catalog.{attribute_of, attributes_of, domain_from, index_slot_bytes, index_slot_of, kind_from, relation_slot_of, schema_of};
ghost use Rattle.db_model.specs.Database.{is_among};
ghost use Rattle.db_model.specs.Row.{row_length, up_to_zero};
ghost use Rattle.catalog.specs.CatalogFile.{index_in};
ghost use Rattle.catalog.specs.Rules.{is_attribute_slot, is_domain, is_index_form, is_relation_slot, is_row, is_schema};
ghost use Rattle.db_model.specs.Sound.{are_distinct, attribute_names};

use crate::slots::{index_slot, relation_slot, unused_slot};
use crate::types::IndexEntry;
use afl_base::RelationId;
use db_model::{Attribute, Attributes, Domain, Ident, IndexKind, Schema, row_length, up_to_zero};

/// What a relation slot holds, None where it is not of the catalog's form.
pub fn read_relation(slot: &[u8], version: u8) -> Option<Option<Schema>>
    requires { length slot.now ≡ 176 }
    ensures { result ≡ (if is_relation_slot version slot.now (relation_slot_of slot.now)
        then Some (relation_slot_of slot.now) else None) }
{
    if slot[0] == 0 {
        let unused: [u8; 176] = unused_slot();
        return (slot == unused.as_slice()).then_some(None);
    }
    let schema = read_schema(slot, version)?;
    (slot == relation_slot(&schema).as_slice()).then_some(Some(schema))
}

// The schema in a slot, None where it has a name, a domain, a number of attributes or a row that no
// relation has.
fn read_schema(slot: &[u8], version: u8) -> Option<Schema>
    requires { length slot.now ≡ 176 }
    ensures { result ≡ (if is_schema version (schema_of slot.now)
        then Some (schema_of slot.now) else None) }
{
    let name = Ident::new(up_to_zero(&slot[..16]))?;
    let attributes = read_attributes(slot[160] as usize, &slot[16..], version)?;
    if !is_row(&attributes) {
        return None;
    }
    Some(Schema { name, attributes })
}

// The first `n` attributes, None where there are more than 8 or one is malformed.
fn read_attributes(n: usize, bytes: &[u8], version: u8) -> Option<Attributes>
    requires { 144 ≤ length bytes.now }
    ensures { result ≡ (if nat_le n 8 && list_all (is_attribute_slot version) (attributes_of n bytes.now)
        then Some (attributes_of n bytes.now) else None) }
{
    let mut attributes = Attributes::new();
    if n > 8 {
        return None;
    }
    for j in 0..n {
        attributes.push(read_attribute(&bytes[18 * j..18 * j + 18], version)?);
    }
    Some(attributes)
}

/// The attribute in 18 bytes, None where its name or its domain is none.
pub fn read_attribute(bytes: &[u8], version: u8) -> Option<Attribute>
    requires { length bytes.now ≡ 18 }
    ensures { result ≡ (if is_attribute_slot version (attribute_of bytes.now)
        then Some (attribute_of bytes.now) else None) }
{
    let name = Ident::new(up_to_zero(&bytes[..16]))?;
    let domain = domain_from(bytes[16], bytes[17]);
    is_domain(version, domain).then_some(Attribute { name, domain })
}

fn domain_from(code: u8, length: u8) -> Domain
    ensures { result ≡ domain_from code length }
{
    match code {
        1 => Domain::Int,
        2 => Domain::Long,
        4 => Domain::Time,
        _ => Domain::Str(length),
    }
}

// Whether a catalog of the version may have the domain.
fn is_domain(version: u8, domain: Domain) -> bool
    ensures { result ≡ is_domain version domain }
{
    match domain {
        Domain::Int | Domain::Long => true,
        Domain::Time => version == 2,
        Domain::Str(n) => 1 <= n && n <= 32,
    }
}

/// Whether a row of the attributes has at most 128 bytes, and no two have one name.
pub fn is_row(attributes: &Attributes) -> bool
    ensures { result ≡ is_row attributes.now }
{
    row_length(attributes) <= 128 && are_distinct(attributes.as_slice())
}

// Whether no two of the attributes have one name.
fn are_distinct(attributes: &[Attribute]) -> bool
    ensures { result ≡ are_distinct (attribute_names attributes.now) }
{
    for (at, attribute) in attributes.iter().enumerate() {
        if is_among(&attribute.name, &attributes[at + 1..]) {
            return false;
        }
    }
    true
}

// Whether one of the attributes has the name.
fn is_among(name: &Ident, attributes: &[Attribute]) -> bool
    ensures { result ≡ is_among name.now (attribute_names attributes.now) }
{
    for attribute in attributes {
        if attribute.name == *name {
            return true;
        }
    }
    false
}

// What an index slot holds, None where it is not of the catalog's form.
pub fn read_index(slot: &[u8]) -> Option<Option<IndexEntry>>
    requires { length slot.now ≡ 8 }
    ensures some { IfSome result (λ entry. option_map index_in entry ≡ index_slot_of slot.now) }
    ensures form { IfSome result (λ _. IsTrue (is_index_form slot.now (index_slot_of slot.now))) }
    ensures none { IfNone result (IsFalse (is_index_form slot.now (index_slot_of slot.now))) }
{
    if slot[0] == 0 {
        let unused: [u8; 8] = unused_slot();
        return (slot == unused.as_slice()).then_some(None);
    }
    let entry = IndexEntry {
        kind: kind_from(slot[0]),
        relation: RelationId::new(u16::from(slot[1]))?,
        attribute: slot[2],
    };
    (slot == index_slot(&entry).as_slice()).then_some(Some(entry))
}

fn kind_from(code: u8) -> IndexKind
    ensures { result ≡ kind_from code }
{
    match code {
        1 => IndexKind::Inline,
        2 => IndexKind::MaxHeap,
        _ => IndexKind::MemHash,
    }
}
