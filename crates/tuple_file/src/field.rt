//! One field of a row, read where it stands.

#![tactic(auto)]

ghost use Rattle.std.specs.Prelude.{◌≡◌, ◌≤◌, length, option_map, slice_get};
ghost use Rattle.db_model.specs.Row.{field_of, fields_length, text_or_empty, tuple_of, width};
ghost use Rattle.tuple_file.specs.Lent.{value_in};

use crate::fields::{is_text_field, time_or_least, value_of};
use afl_base::{get_i32, get_i64, get_u16};
use db_model::{Attribute, Domain, Value, up_to_zero, width};

/// The value of a field, which lends its text.
#[derive(Clone, Copy)]
pub enum Field<'a> {
    Number(i64),
    Text(&'a [u8]),
}

/// The value of the field at a place of a row, None where there is none. No other is decoded.
pub fn field_at<'a>(attributes: &[Attribute], row: &'a [u8], place: u8) -> Option<Field<'a>>
    requires { fields_length attributes.now ≤ length row.now }
    ensures { option_map value_in result ≡ slice_get (tuple_of attributes.now row.now) place }
{
    let mut rest = row;
    let mut before = place;
    for attribute in attributes {
        if before == 0 {
            return Some(decoded(attribute.domain, rest));
        }
        rest = &rest[width(attribute.domain)..];
        before -= 1;
    }
    None
}

/// The same value with a text of its own.
pub fn value_at(attributes: &[Attribute], row: &[u8], place: u8) -> Option<Value>
    requires { fields_length attributes.now ≤ length row.now }
    ensures { result ≡ slice_get (tuple_of attributes.now row.now) place }
{
    let mut rest = row;
    let mut before = place;
    for attribute in attributes {
        if before == 0 {
            return Some(value_of(attribute.domain, rest));
        }
        rest = &rest[width(attribute.domain)..];
        before -= 1;
    }
    None
}

// The value of the field that `bytes` begin with, the least of its domain where they are none.
#[tactic(auto, unfolding(afl_base::specs::Fields::u16_at, afl_base::specs::Fields::i32_at, afl_base::specs::Fields::i64_at))]
fn decoded<'a>(domain: Domain, bytes: &'a [u8]) -> Field<'a>
    requires { width domain ≤ length bytes.now }
    ensures { value_in result ≡ field_of domain bytes.now }
{
    match domain {
        Domain::Int => Field::Number(i64::from(get_u16(bytes, 0).cast_signed())),
        Domain::Long => Field::Number(i64::from(get_i32(bytes, 0))),
        Domain::Time => Field::Number(time_or_least(get_i64(bytes, 0))),
        Domain::Str(n) => Field::Text(text_or_empty(&bytes[..n as usize])),
    }
}

// The text of a field, the empty text where it has none.
fn text_or_empty(field: &[u8]) -> &[u8]
    ensures { result.now ≡ text_or_empty field.now }
{
    if is_text_field(field) {
        up_to_zero(field)
    } else {
        &[]
    }
}
