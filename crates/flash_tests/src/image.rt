ghost use Rattle.std.specs.Prelude.{◌≡◌, ◌<◌, ◌≤◌, true};
ghost use Rattle.coffee_header.specs.Headers.{is_flags, is_kind};

use crate::layout_calls::{Answer, Call, first_other};
use afl_base::Name;
use afl_sim::{FaultFlash, MemFlash};
use arrayvec::ArrayVec;
use coffee_header::{Header, write_header};

/// The bytes of four sectors.
pub const SIZE: usize = 16384;

/// The bytes of an erased flash.
pub fn erased() -> [u8; SIZE] {
    [0; SIZE]
}

/// Sets one byte of an image, where it has that byte.
pub fn set(image: &mut [u8; SIZE], at: usize, byte: u8) {
    if at < SIZE {
        image[at] = byte;
    }
}

/// Writes a header at the front of a page.
pub fn put(image: &mut [u8; SIZE], page: usize, header: &Header)
    requires page { page < 64 }
    requires kind { is_kind header.now.kind ≡ true }
    requires flags { is_flags header.now.flags ≡ true }
{
    let mut bytes = [0; 32];
    write_header(header, &mut bytes);
    for i in 0..32usize {
        set(image, 256 * page + i, bytes[i]);
    }
}

/// The header of an active file with a log whose first page is `log_page - 1`, or with none.
pub fn file(log_page: u16, pages: u16, fixed: bool, name: Name) -> Header
    ensures kind { is_kind result.kind ≡ true }
    ensures flags { is_flags result.flags ≡ true }
{
    Header {
        log_page,
        log_records: 30,
        log_record_size: 128,
        max_pages: pages,
        kind: if fixed { 1 } else { 0 },
        flags: if log_page == 0 { 3 } else { 11 },
        name,
    }
}

/// The header of an active log.
pub fn log(name: Name) -> Header
    ensures kind { is_kind result.kind ≡ true }
    ensures flags { is_flags result.flags ≡ true }
{
    Header {
        log_page: 0,
        log_records: 0,
        log_record_size: 0,
        max_pages: 16,
        kind: 1,
        flags: 19,
        name,
    }
}

/// `CAT` in pages 0 to 5, `T0` in pages 6 to 21, and the log of `CAT` in pages 22 to 37 with four
/// records in use, of the regions 0, 0, 11 and 11. `CAT` has 1,472 bytes, the last of which stands in
/// its last record; `T0` has 10.
pub fn two_files() -> [u8; SIZE] {
    let cat = named(b"CAT");
    let mut image = erased();
    put(&mut image, 0, &file(23, 6, true, cat));
    put(&mut image, 6, &file(0, 16, false, named(b"T0")));
    put(&mut image, 22, &log(cat));
    let table = 256 * 22 + 32;
    let records = 256 * 22 + 96;
    let bytes = [
        (table, 1),
        (table + 2, 1),
        (table + 4, 12),
        (table + 6, 12),
        (records, 65),
        (records + 128 * 2 + 100, 1),
        (records + 128 * 3 + 63, 1),
        (256 * 6 + 32 + 9, 1),
    ];
    set_all(&mut image, &bytes);
    image
}

/// Sets bytes of an image at their places, where it has them.
pub fn set_all(image: &mut [u8; SIZE], bytes: &[(usize, u8)]) {
    for (at, byte) in bytes.iter() {
        set(image, *at, *byte);
    }
}

/// The name of some letters.
pub fn named(letters: &[u8]) -> Name {
    Name::new(letters).unwrap_or_default()
}

/// A flash in memory.
pub fn memory<'a>(image: &'a mut [u8; SIZE]) -> Option<MemFlash<'a>> {
    let all = &mut image[..];
    MemFlash::new(all)
}

/// The first other answer of a flash in memory whose call of this number fails; the calls are counted
/// from 1.
pub fn first_other_of(
    image: &mut [u8; SIZE],
    call: u64,
    calls: &[(Call, Answer)],
) -> Option<(usize, Answer)> {
    match failing(image, call) {
        Some(mut flash) => first_other(&mut flash, calls),
        None => Some((0, Answer::Failed)),
    }
}

/// A flash in memory whose call of this number fails.
pub fn failing<'a>(image: &'a mut [u8; SIZE], call: u64) -> Option<FaultFlash<MemFlash<'a>>> {
    let mut fails = ArrayVec::new();
    fails.push(call);
    Some(FaultFlash::new(memory(image)?, fails))
}
