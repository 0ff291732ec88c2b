//! Images that are made byte by byte.

use crate::cases::show;
use crate::running::{MANY, copied, erased, none_is_wrong, run, text};
use std::alloc::Global;
use std::test::Fail;
use test_steps::Part;

/// One byte of an image: its page, its place in the page, and its value.
pub type Byte = (u16, u8, u8);

/// An image that breaks a rule: what is written of it, and the bytes in which it differs from the image of
/// two rows.
pub type Case = (&'static str, &'static [Byte]);

// Lines `ok`, as many as there are in a text of this many bytes.
fn all_ok(alloc: Global, bytes: usize) -> Vec<u8> {
    text(alloc, &[Part::Often("ok\n", (bytes / 3 % 65_536) as u16)])
}

/// What a script leaves of an erased image, which is none where one of its commands is not accepted.
pub fn made_by(alloc: Global, script: &[u8]) -> Vec<u8> {
    let mut image = erased(alloc, MANY);
    let ended = run(alloc, script, image.as_mut_slice());
    if ended.is(0, all_ok(alloc, ended.written.len()).as_slice()) {
        image
    } else {
        Vec::new(alloc)
    }
}

/// The same of a script of some parts.
pub fn made_of(alloc: Global, script: &[Part]) -> Vec<u8> {
    made_by(alloc, text(alloc, script).as_slice())
}

const TWO_ROWS: &[u8] =
    b"CREATE RELATION s;CREATE ATTRIBUTE k DOMAIN LONG IN s;CREATE ATTRIBUTE t DOMAIN STRING(3) IN s;\
    INSERT (5, 'abc') INTO s;INSERT (-1, '') INTO s;";

/// The relation s with two rows: `CAT` in pages 0 to 5, its log in pages 22 to 37 with four records in
/// use, and `T0` in pages 6 to 21.
pub fn two_rows(alloc: Global) -> Vec<u8> {
    made_by(alloc, TWO_ROWS)
}

/// Sets a byte of an image, where it has that byte.
pub fn set(image: &mut [u8], at: usize, byte: u8) {
    if at < image.len() {
        image[at] = byte;
    }
}

/// Sets some bytes of an image.
pub fn set_all(image: &mut [u8], bytes: &[Byte]) {
    for (page, at, byte) in bytes {
        set(image, 256 * usize::from(*page) + usize::from(*at), *byte);
    }
}

/// Writes bytes into an image from one on.
pub fn put(image: &mut [u8], at: usize, bytes: &[u8]) {
    let mut place = at;
    for byte in bytes {
        set(image, place, *byte);
        place = place.saturating_add(1);
    }
}

/// Writes the header of an active file without a log at a page: its pages, and 0 for a doubling file or
/// 1 for a fixed one.
pub fn put_file(image: &mut [u8], page: u16, pages: u16, kind: u8, name: &[u8]) {
    let at = 256 * usize::from(page);
    put(image, at, &[0, 0, 30, 0, 128, 0]);
    set(image, at + 6, (pages % 256) as u8);
    set(image, at + 7, (pages / 256) as u8);
    set(image, at + 8, kind);
    set(image, at + 9, 3);
    put(image, at + 10, name);
}

/// Whether a run over a sound image, of which some bytes are changed, is refused by just this line, and
/// leaves the image.
pub fn is_refused(alloc: Global, sound: &[u8], bytes: &[Byte], line: &str) -> bool {
    let mut image = copied(alloc, sound);
    set_all(image.as_mut_slice(), bytes);
    let before = copied(alloc, image.as_slice());
    let ended = run(alloc, b"CREATE RELATION q;", image.as_mut_slice());
    ended.is(6, line.as_bytes()) && image.as_slice() == before.as_slice()
}

/// A run over such an image is refused by just this line, and leaves the image.
pub fn expect_refused(
    alloc: Global,
    sound: &[u8],
    bytes: &[Byte],
    line: &'static str,
) -> Result<(), Fail> {
    show(is_refused(alloc, sound, bytes, line), line)
}

// The number of the first image of a table that is not refused by its line.
fn first_accepted(alloc: Global, cases: &[Case]) -> Option<u64> {
    let sound = two_rows(alloc);
    let mut number = 0u64;
    for (line, bytes) in cases {
        if !is_refused(alloc, sound.as_slice(), *bytes, *line) {
            return Some(number);
        }
        number = number.saturating_add(1);
    }
    None
}

/// Each image of a table is refused by its line.
pub fn all_are_refused(alloc: Global, cases: &[Case]) -> Result<(), Fail> {
    none_is_wrong(first_accepted(alloc, cases))
}

/// A catalog of version 1 in pages 0 to 5, with the relation n whose one attribute v has the domain of
/// this byte, and its file in this many pages from page 6 on.
pub fn version_1(alloc: Global, domain: u8, pages: u16) -> Vec<u8> {
    let mut image = erased(alloc, MANY);
    let all = image.as_mut_slice();
    put_file(all, 0, 6, 1, b"CAT");
    for slot in 0..8usize {
        set(all, 32 + 176 * slot + 175, 1);
        set(all, 32 + 1408 + 8 * slot + 7, 1);
    }
    put(all, 32, b"n");
    put(all, 32 + 16, b"v");
    set(all, 32 + 32, domain);
    set(all, 32 + 160, 1);
    put_file(all, 6, pages, 0, b"T0");
    image
}
