ghost use Rattle.std.specs.Prelude.{◌≡◌, ◌+◌, ◌-◌, ◌*◌, ◌≤◌, ◌∷◌, ◌++◌, [], None, Some, length, replicate, flat_map, slice_index};
ghost use Rattle.db_model.specs.Catalog.{attribute_bytes, domain_code, domain_length, empty_bytes, index_slot_bytes, kind_code, relation_slot_bytes};
ghost use Rattle.padded.specs.Padded.{padded};
ghost use Rattle.afl_base.specs.Fields.{put_at};
ghost use Rattle.catalog.specs.CatalogFile.{index_in};
ghost use Rattle.catalog.specs.Copies.{copies};

use crate::types::IndexEntry;
use afl_base::put_bytes;
use db_model::{Attribute, Domain, Few, IndexKind, Schema};

/// A relation slot of the schema.
pub fn relation_slot(schema: &Schema) -> Few<u8, 176>
    ensures { result ≡ relation_slot_bytes (Some schema.now) }
{
    let mut slot = Few::new();
    push_padded(&mut slot, schema.name.bytes(), 16);
    push_attributes(&mut slot, schema.attributes.as_slice());
    push_padded(&mut slot, &[schema.attributes.len() as u8], 15);
    slot.push(1);
    slot
}

// The attributes, at most 8, and zeros up to 144 bytes.
fn push_attributes(slot: &mut Few<u8, 176>, attributes: &[Attribute])
    requires few { length attributes.now ≤ 8 }
    requires room { length slot.old + 144 ≤ 176 }
    ensures pushed { slot.new ≡ slot.old ++ padded 144 (flat_map attribute_bytes attributes.now) }
    ensures long { length slot.new ≡ length slot.old + 144 }
{
    for attribute in attributes {
        push_padded(slot, attribute.name.bytes(), 16);
        slot.push(domain_code(attribute.domain));
        slot.push(domain_length(attribute.domain));
    }
    push_zeros(slot, 18 * (8 - attributes.len()));
}

// The bytes, and zeros up to the width.
fn push_padded(slot: &mut Few<u8, 176>, bytes: &[u8], width: usize)
    requires short { length bytes.now ≤ width }
    requires room { length slot.old + width ≤ 176 }
    ensures pushed { slot.new ≡ slot.old ++ padded width bytes.now }
    ensures long { length slot.new ≡ length slot.old + width }
{
    for byte in bytes {
        slot.push(*byte);
    }
    push_zeros(slot, width - bytes.len());
}

fn push_zeros(slot: &mut Few<u8, 176>, n: usize)
    requires { length slot.old + n ≤ 176 }
    ensures pushed { slot.new ≡ slot.old ++ replicate n 0 }
    ensures long { length slot.new ≡ length slot.old + n }
{
    for _pushed in 0..n {
        slot.push(0);
    }
}

fn domain_code(domain: Domain) -> u8
    ensures { result ≡ domain_code domain }
{
    match domain {
        Domain::Int => 1,
        Domain::Long => 2,
        Domain::Str(_) => 3,
        Domain::Time => 4,
    }
}

// The length of a STRING, else 0.
fn domain_length(domain: Domain) -> u8
    ensures { result ≡ domain_length domain }
{
    match domain {
        Domain::Str(n) => n,
        _ => 0,
    }
}

// An index slot of the entry.
pub fn index_slot(entry: &IndexEntry) -> [u8; 8]
    ensures { result ≡ index_slot_bytes (Some (index_in entry.now)) }
{
    [
        kind_code(entry.kind),
        entry.relation.number() as u8,
        entry.attribute,
        0,
        0,
        0,
        0,
        1,
    ]
}

fn kind_code(kind: IndexKind) -> u8
    ensures { result ≡ kind_code kind }
{
    match kind {
        IndexKind::Inline => 1,
        IndexKind::MaxHeap => 2,
        IndexKind::MemHash => 3,
    }
}

/// A slot that is not used.
pub fn unused_slot<const N: usize>() -> [u8; N]
    requires { 1 ≤ N }
    ensures { result ≡ replicate (N - 1) 0 ++ 1 ∷ [] }
{
    let mut slot = [0; N];
    slot[N - 1] = 1;
    slot
}

// Makes of 1,480 bytes a catalog of version 2 without relations and indexes.
fn put_empty(bytes: &mut [u8])
    requires { length bytes.old ≡ 1480 }
    ensures { bytes.new ≡ empty_bytes }
{
    let relation: [u8; 176] = unused_slot();
    let index: [u8; 8] = unused_slot();
    put_copies(bytes, 0, &relation, 8);
    put_copies(bytes, 1408, &index, 8);
    put_bytes(bytes, SIZE_OF_VERSION_1 as usize, &VERSION_MARK);
}

// Puts `n` copies of `part` in the place of the bytes from `at` on.
fn put_copies(bytes: &mut [u8], at: usize, part: &[u8], n: usize)
    requires { at + n * length part.now ≤ length bytes.old }
    ensures { bytes.new ≡ put_at bytes.old at (copies n part.now) }
{
    let mut next = at;
    for _copy in 0..n {
        put_bytes(bytes, next, part);
        next += part.len();
    }
}

/// The bytes of a catalog of version 2 with one used slot, which stands at `at`.
pub fn first_catalog(at: usize, slot: &[u8]) -> [u8; SIZE_OF_VERSION_2 as usize]
    requires { at + length slot.now ≤ 1472 }
    ensures value { result ≡ put_at empty_bytes at slot.now }
    ensures last { slice_index result 1479 ≡ 1 }
{
    let mut bytes = [0; SIZE_OF_VERSION_2 as usize];
    put_empty(&mut bytes);
    put_bytes(&mut bytes, at, slot);
    bytes
}

// The bytes of a catalog of version 1: eight relation slots and eight index slots.
pub const SIZE_OF_VERSION_1: u32 = 1_472;

// The bytes of one of version 2, in which a mark comes after the slots.
pub const SIZE_OF_VERSION_2: u32 = 1_480;

// The mark.
pub const VERSION_MARK: [u8; 8] = [2, 0, 0, 0, 0, 0, 0, 1];
