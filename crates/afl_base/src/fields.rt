ghost use Rattle.std.specs.Prelude.{◌≡◌, ◌+◌, ◌≤◌, length};
ghost use Rattle.afl_base.specs.Fields.{i32_at, i32_bytes, i64_at, i64_bytes, put_at, u16_at, u16_bytes};

use byteorder::{ByteOrder, LittleEndian};

/// The number in the two bytes at `at`, the lower byte first.
pub fn get_u16(bytes: &[u8], at: usize) -> u16
    requires { at + 2 ≤ length bytes.now }
    ensures { result ≡ u16_at bytes.now at }
{
    LittleEndian::read_u16(&bytes[at..])
}

/// The signed number in the four bytes at `at`, the lowest byte first.
pub fn get_i32(bytes: &[u8], at: usize) -> i32
    requires { at + 4 ≤ length bytes.now }
    ensures { result ≡ i32_at bytes.now at }
{
    LittleEndian::read_u32(&bytes[at..]).cast_signed()
}

/// The signed number in the eight bytes at `at`, the lowest byte first.
pub fn get_i64(bytes: &[u8], at: usize) -> i64
    requires { at + 8 ≤ length bytes.now }
    ensures { result ≡ i64_at bytes.now at }
{
    LittleEndian::read_u64(&bytes[at..]).cast_signed()
}

/// Puts `value` into the two bytes at `at`, the lower byte first. All other bytes stay.
pub fn put_u16(bytes: &mut [u8], at: usize, value: u16)
    requires { at + 2 ≤ length bytes.old }
    ensures { bytes.new ≡ put_at bytes.old at (u16_bytes value) }
{
    LittleEndian::write_u16(&mut bytes[at..], value);
}

/// Puts `value` into the four bytes at `at`, the lowest byte first. All other bytes stay.
pub fn put_i32(bytes: &mut [u8], at: usize, value: i32)
    requires { at + 4 ≤ length bytes.old }
    ensures { bytes.new ≡ put_at bytes.old at (i32_bytes value) }
{
    LittleEndian::write_u32(&mut bytes[at..], value.cast_unsigned());
}

/// Puts `value` into the eight bytes at `at`, the lowest byte first. All other bytes stay.
pub fn put_i64(bytes: &mut [u8], at: usize, value: i64)
    requires { at + 8 ≤ length bytes.old }
    ensures { bytes.new ≡ put_at bytes.old at (i64_bytes value) }
{
    LittleEndian::write_u64(&mut bytes[at..], value.cast_unsigned());
}

/// Puts `part` in the place of the bytes from `at` on. All other bytes stay.
pub fn put_bytes(bytes: &mut [u8], at: usize, part: &[u8])
    requires { at + length part.now ≤ length bytes.old }
    ensures { bytes.new ≡ put_at bytes.old at part.now }
{
    bytes[at..at + part.len()].copy_from_slice(part);
}
