//! Whether bytes are those of a row.

#![tactic(auto)]

ghost use Rattle.std.specs.Prelude.{◌≡◌, ◌+◌, ◌≤◌, ◌<◌, ◌↔◌, ◌||◌, ◌==◌, IsTrue, length, take};
ghost use Rattle.db_model.specs.Row.{AllSuit, field_bytes, field_of, is_text_field, row_bytes, row_length, row_of, suits, tuple_of, width};
ghost use Rattle.db_model.specs.declared.schemas.Domain.TheVariants.{Time};
ghost use Rattle.db_model.specs.declared.values.Value.TheVariants.{Number};

use afl_base::get_i64;
use db_model::{Attributes, Domain, Text, up_to_zero, width};
use padded::is_zeros;

/// Whether the bytes are those of the row that they are read as, which suits its attributes.
pub fn is_row(attributes: &Attributes, row: &[u8]) -> bool
    requires { length row.now ≡ row_length attributes.now }
    ensures row { IsTrue result ↔ (row_bytes attributes.now (row_of attributes.now row.now) ≡ row.now) }
    ensures suits { AllSuit attributes.now (tuple_of attributes.now row.now) }
{
    let mut rest = row;
    for attribute in attributes.as_slice() {
        if !is_field(attribute.domain, rest) {
            return false;
        }
        rest = &rest[width(attribute.domain)..];
    }
    is_mark(rest[0])
}

// Whether a row may end with this byte.
fn is_mark(byte: u8) -> bool
    ensures { result ≡ ((byte == 1) || (byte == 3)) }
{
    byte == 1 || byte == 3
}

// Whether the field that `bytes` begin with has the bytes of the value that it is read as. Numbers have these in any
// case.
#[tactic(auto, unfolding(afl_base::specs::Fields::i64_at))]
fn is_field(domain: Domain, bytes: &[u8]) -> bool
    requires { width domain ≤ length bytes.now }
    ensures { IsTrue result
        ↔ (field_bytes domain (field_of domain bytes.now) ≡ take (width domain) bytes.now) }
{
    match domain {
        Domain::Int => true,
        Domain::Long => true,
        Domain::Time => is_time(get_i64(bytes, 0)),
        Domain::Str(n) => is_text_field(&bytes[..n as usize]),
    }
}

fn is_time(number: i64) -> bool
    ensures { result ≡ suits Time (Number number) }
{
    (0..=140_737_488_355_327).contains(&number)
}

// Whether a field is a text with zeros behind it.
fn is_text_field(field: &[u8]) -> bool
    ensures { result ≡ is_text_field field.now }
{
    let front = up_to_zero(field);
    is_zeros(&field[front.len()..]) && Text::new(front).is_some()
}
