ghost use Rattle.std.specs.Prelude.{◌≡◌, ◌≤◌, ◌==◌, length, if◌then◌else◌};
ghost use Rattle.std.specs.List.{prefix_len};
ghost use Rattle.afl_base.specs.Names.{is_name_byte};
ghost use Rattle.coffee_header.specs.Headers.{header_of, is_flags, is_kind, is_name_field, name_of_field};
ghost use Rattle.padded.specs.Zeros.{is_zeros};

use crate::header::Header;
use afl_base::{Name, get_u16};
use padded::is_zeros;

/// The header that these 32 bytes are, None exactly where they are none: the kind is no 0 or 1, the
/// flags are none of 2, 3, 11, 19, 7, 15 and 23, or the bytes from 10 on are not a name and zeros.
pub fn read_header(bytes: &[u8; 32]) -> Option<Header>
    ensures { result ≡ header_of bytes.now }
{
    header_in(bytes)
}

#[tactic(auto, unfolding(crate::specs::Headers::header_of))]
fn header_in(bytes: &[u8]) -> Option<Header>
    requires { length bytes.now ≡ 32 }
    ensures { result ≡ header_of bytes.now }
{
    if !is_kind(bytes[8]) || !is_flags(bytes[9]) {
        return None;
    }
    let name = read_name(&bytes[10..])?;
    Some(Header {
        log_page: get_u16(bytes, 0),
        log_records: get_u16(bytes, 2),
        log_record_size: get_u16(bytes, 4),
        max_pages: get_u16(bytes, 6),
        kind: bytes[8],
        flags: bytes[9],
        name,
    })
}

// The name of a name field, None where the field does not hold a name and zeros after it.
fn read_name(field: &[u8]) -> Option<Name>
    ensures { result ≡ (if is_name_field field.now then Some (name_of_field field.now) else None) }
{
    let len = name_len(field);
    if !is_zeros(&field[len..]) {
        return None;
    }
    Name::new(&field[..len])
}

// How many bytes from the front may stand in a name.
fn name_len(field: &[u8]) -> usize
    ensures value { result ≡ prefix_len is_name_byte field.now }
    ensures within { result ≤ length field.now }
{
    field.iter().take_while(|b| 33 <= **b && **b <= 126).count()
}

fn is_kind(kind: u8) -> bool
    ensures { result ≡ is_kind kind }
{
    matches!(kind, 0 | 1)
}

fn is_flags(flags: u8) -> bool
    ensures { result ≡ is_flags flags }
{
    matches!(flags, 2 | 3 | 11 | 19 | 7 | 15 | 23)
}
