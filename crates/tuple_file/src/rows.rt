//! The bytes of one row.

#![tactic(auto)]

ghost use Rattle.std.specs.Prelude.{◌≡◌, ◌==◌, ◌-◌, ◌+◌, ◌*◌, ◌<◌, ◌≤◌, ◌↔◌, ◌||◌, ℕ, IsTrue, length, slice_index, slice_range};
ghost use Rattle.db_model.specs.Row.{AllSuit, fields_length, mark, row_at, row_bytes, row_length, row_of, tuple_of};

use crate::fields::{is_field, push_field, put_field};
use db_model::{Attributes, Tuple, row_length, width};

/// Whether a row is live.
pub fn is_live(row: &[u8]) -> bool
    requires { 1 ≤ length row.now }
    ensures { result ≡ (slice_index row.now (length row.now - 1) == 1) }
{
    row[row.len() - 1] == 1
}

/// Fills `into` with the fields of a row.
pub fn get_tuple(attributes: &Attributes, row: &[u8], into: &mut Tuple)
    requires { fields_length attributes.now ≤ length row.now }
    ensures tuple { into.new ≡ tuple_of attributes.now row.now }
    ensures suits { AllSuit attributes.now into.new }
{
    into.clear();
    let mut rest = row;
    for attribute in attributes.as_slice() {
        rest = push_field(attribute.domain, rest, into);
    }
}

/// The values that bytes are read as suit the attributes, whatever the bytes are.
#[tactic(auto, using(db_model::proofs::Decoded::tuple_suits))]
pub fn values_suit(attributes: &Attributes, row: &[u8])
    ensures { AllSuit attributes.now (tuple_of attributes.now row.now) }
{}

// Makes the bytes of `row` those of the tuple's row.
pub fn put_row(attributes: &Attributes, tuple: &Tuple, live: bool, row: &mut [u8])
    requires suits { AllSuit attributes.now tuple.now }
    requires size { length row.old ≡ row_length attributes.now }
    ensures { row.new ≡ row_bytes attributes.now (record { tuple = tuple.now; live = live }) }
{
    let mut at = 0;
    for (i, attribute) in attributes.as_slice().iter().enumerate() {
        put_field(row, at, attribute.domain, tuple.get(i));
        at += width(attribute.domain);
    }
    row[at] = mark(live);
}

// The last byte of a row.
fn mark(live: bool) -> u8
    ensures { result ≡ mark live }
{
    if live { 1 } else { 3 }
}

// Whether the bytes are those of the row that they are read as.
pub fn is_row(attributes: &Attributes, row: &[u8]) -> bool
    requires { length row.now ≡ row_length attributes.now }
    ensures { IsTrue result ↔ (row_bytes attributes.now (row_of attributes.now row.now) ≡ row.now) }
{
    let mut rest = row;
    for attribute in attributes.as_slice() {
        if !is_field(attribute.domain, rest) {
            return false;
        }
        rest = &rest[width(attribute.domain)..];
    }
    is_mark(rest[0])
}

// Whether the bytes are this many rows, one after another.
pub fn are_rows(attributes: &Attributes, count: u16, bytes: &[u8]) -> bool
    requires { length bytes.now ≡ row_length attributes.now * count }
    ensures { IsTrue result ↔ ((slot : ℕ) → slot < count
        → row_bytes attributes.now (row_at attributes.now bytes.now slot)
        ≡ slice_range bytes.now (row_length attributes.now * slot)
        (row_length attributes.now * slot + row_length attributes.now)) }
{
    let length = row_length(attributes);
    for slot in 0..count {
        let at = length * slot as usize;
        if !is_row(attributes, &bytes[at..at + length]) {
            return false;
        }
    }
    true
}

// Whether a row may end with this byte.
fn is_mark(byte: u8) -> bool
    ensures { result ≡ ((byte == 1) || (byte == 3)) }
{
    byte == 1 || byte == 3
}
