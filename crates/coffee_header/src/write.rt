ghost use Rattle.std.specs.Prelude.{◌≡◌, ◌≤◌, true, length};
ghost use Rattle.padded.specs.Padded.{padded};
ghost use Rattle.coffee_header.specs.Headers.{header_bytes, is_flags, is_kind};

use crate::header::Header;
use afl_base::put_u16;

/// Writes the 32 bytes of `header`.
pub fn write_header(header: &Header, bytes: &mut [u8; 32])
    requires kind { is_kind header.now.kind ≡ true }
    requires flags { is_flags header.now.flags ≡ true }
    ensures { bytes.new ≡ header_bytes header.now }
{
    put_header(header, &mut bytes[..]);
}

fn put_header(header: &Header, bytes: &mut [u8])
    requires { length bytes.old ≡ 32 }
    ensures { bytes.new ≡ header_bytes header.now }
{
    put_u16(bytes, 0, header.log_page);
    put_u16(bytes, 2, header.log_records);
    put_u16(bytes, 4, header.log_record_size);
    put_u16(bytes, 6, header.max_pages);
    bytes[8] = header.kind;
    bytes[9] = header.flags;
    put_name(header.name.bytes(), &mut bytes[10..]);
}

// `name`, and zeros after it.
fn put_name(name: &[u8], field: &mut [u8])
    requires { length name.now ≤ length field.old }
    ensures { field.new ≡ padded (length field.old) name.now }
{
    for (i, byte) in field.iter_mut().enumerate() {
        *byte = if i < name.len() { name[i] } else { 0 };
    }
}
