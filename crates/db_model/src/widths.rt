//! How many bytes fields and rows take, and where a text in a field ends.

#![tactic(auto)]

ghost use Rattle.std.specs.Prelude.{◌≡◌, ◌≤◌, length};
ghost use Rattle.db_model.specs.Row.{fields_length, row_length, up_to_zero, width};

use crate::schemas::{Attribute, Attributes, Domain};

/// The bytes of a field of the domain.
pub fn width(domain: Domain) -> usize
    ensures value { result ≡ width domain }
    ensures short { result ≤ 255 }
{
    match domain {
        Domain::Int => 2,
        Domain::Long => 4,
        Domain::Time => 8,
        Domain::Str(n) => n as usize,
    }
}

/// The bytes of the fields of at most 8 attributes.
pub fn fields_length(attributes: &[Attribute]) -> usize
    requires { length attributes.now ≤ 8 }
    ensures value { result ≡ fields_length attributes.now }
    ensures short { result ≤ 2040 }
{
    let mut length = 0;
    for attribute in attributes {
        length += width(attribute.domain);
    }
    length
}

/// The bytes of a row: its fields and a mark.
pub fn row_length(attributes: &Attributes) -> usize
    ensures value { result ≡ row_length attributes.now }
    ensures short { result ≤ 2041 }
{
    fields_length(attributes.as_slice()) + 1
}

/// The bytes before the first zero.
pub fn up_to_zero(bytes: &[u8]) -> &[u8]
    ensures front { result.now ≡ up_to_zero bytes.now }
    ensures short { length result.now ≤ length bytes.now }
{
    for (at, byte) in bytes.iter().enumerate() {
        if *byte == 0 {
            return &bytes[..at];
        }
    }
    bytes
}
