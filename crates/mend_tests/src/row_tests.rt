ghost use Rattle.std.specs.Prelude.{◌≡◌, None, OnOk};

use crate::database::{put_catalog, put_growing};
use crate::mended::{is_mended, size_named};
use crate::rows::{is_filled, typed};
use afl_base::{FileError, Files};
use afl_sim::PlainFiles;

// An INT, a LONG, a TIME and a STRING of 3 bytes.
const ALL: [(u8, u8); 4] = [(1, 0), (2, 0), (4, 0), (3, 3)];

// -2, 300, 1000 and 'ab', and behind it 5, 70000, 2000 and 'xyz'.
const TWO_ROWS: [u8; 36] = [
    254, 255, 44, 1, 0, 0, 232, 3, 0, 0, 0, 0, 0, 0, b'a', b'b', 0, 1, //
    5, 0, 112, 17, 1, 0, 208, 7, 0, 0, 0, 0, 0, 0, b'x', b'y', b'z', 1,
];

// Whether of the second row so many bytes are filled to this row, beside three INLINE indexes.
fn fills_to(part: usize, row: &[u8; 18]) -> bool {
    let mut files: PlainFiles<4064> = PlainFiles::new();
    if part > 18 {
        return false;
    }
    is_filled(&mut files, &typed(&ALL, 3), &TWO_ROWS[..18 + part], 36, row) == Ok(true)
}

#[test]
fn a_part_of_each_length_is_filled_to_a_removed_row(rt: HostRuntime) {
    let first = [5, 0, 44, 1, 0, 0, 232, 3, 0, 0, 0, 0, 0, 0, 0, 0, 0, 3];
    assert!(rt; fills_to(1, &first));
    // 368 is the least LONG from 300 on whose lowest byte is 112
    let mut row = first;
    row[2] = 112;
    row[3] = 1;
    assert!(rt; fills_to(3, &row));
    // and 4464 that with the bytes 112 and 17
    row[3] = 17;
    assert!(rt; fills_to(4, &row));
    row[4] = 1;
    assert!(rt; fills_to(5, &row));
    // 1232 is the least TIME from 1000 on whose lowest byte is 208
    row[6] = 208;
    row[7] = 4;
    assert!(rt; fills_to(7, &row));
    row[7] = 7;
    assert!(rt; fills_to(8, &row));
    row[14] = b'x';
    assert!(rt; fills_to(15, &row));
    row[15] = b'y';
    assert!(rt; fills_to(16, &row));
    row[16] = b'z';
    assert!(rt; fills_to(17, &row));
}

#[test]
fn a_negative_number_is_filled_to_one_that_does_not_fall(rt: HostRuntime) {
    let mut files: PlainFiles<4064> = PlainFiles::new();
    let catalog = typed(&[(1, 0)], 1);
    // -300, and of -5 the lower byte: -261 is the least INT from -300 on with it
    let rows = [212, 254, 1, 251];
    assert!(rt; is_filled(&mut files, &catalog, &rows, 6, &[251, 254, 3]) == Ok(true));
}

#[test]
fn without_a_row_before_a_number_is_filled_to_the_least(rt: HostRuntime) {
    let mut files: PlainFiles<4064> = PlainFiles::new();
    let int = typed(&[(1, 0)], 1);
    assert!(rt; is_filled(&mut files, &int, &[251], 3, &[251, 128, 3]) == Ok(true));
    let mut files: PlainFiles<4064> = PlainFiles::new();
    let long = typed(&[(2, 0)], 1);
    assert!(rt; is_filled(&mut files, &long, &[251, 255], 5, &[251, 255, 0, 128, 3]) == Ok(true));
    let mut files: PlainFiles<4064> = PlainFiles::new();
    let time = typed(&[(4, 0)], 1);
    let row = [208, 0, 0, 0, 0, 0, 0, 0, 3];
    assert!(rt; is_filled(&mut files, &time, &[208], 9, &row) == Ok(true));
}

#[test]
fn a_number_that_must_fall_is_filled_with_zeros(rt: HostRuntime) {
    let mut files: PlainFiles<4064> = PlainFiles::new();
    let catalog = typed(&[(2, 0)], 0);
    let rows = [255, 255, 255, 127, 1, 5];
    assert!(rt; is_filled(&mut files, &catalog, &rows, 10, &[5, 0, 0, 0, 3]) == Ok(true));
}

#[test]
fn a_file_that_is_full_but_for_the_part_is_filled(rt: HostRuntime) {
    let mut rows = [0; 4_057];
    for slot in 0..507 {
        rows[8 * slot + 7] = 1;
    }
    rows[4_056] = b'x';
    let mut files: PlainFiles<4064> = PlainFiles::new();
    let catalog = typed(&[(3, 7)], 0);
    let row = [b'x', 0, 0, 0, 0, 0, 0, 3];
    assert!(rt; is_filled(&mut files, &catalog, &rows, 4_064, &row) == Ok(true));
}

// Whether a part that is the front of no row is taken back, so that the file has so many bytes.
fn is_taken_back<V: Files>(
    files: &mut V,
    domain: (u8, u8),
    rows: &[u8],
    size: u32,
) -> Result<bool, FileError>
    requires idle { (V.state files.old).draft ≡ None }
    ensures idle { OnOk result ((V.state files.new).draft ≡ None) }
{
    put_catalog(files, &typed(&[domain], 0), 1480)?;
    put_growing(files, b"T0", rows)?;
    let mended = is_mended(files, b"row of r taken back\n")?;
    Ok(mended && size_named(files, b"T0") == Some(size))
}

#[test]
fn a_part_that_begins_no_row_is_taken_back(rt: HostRuntime) {
    // a byte behind the end of a text
    let mut files: PlainFiles<4064> = PlainFiles::new();
    let rows = [b'a', 0, 0, 1, 0, b'x'];
    assert!(rt; is_taken_back(&mut files, (3, 3), &rows, 4) == Ok(true));
    // a TIME of 2 to the 48th
    let mut files: PlainFiles<4064> = PlainFiles::new();
    let rows = [1, 0, 0, 0, 0, 0, 0, 0, 1, 0, 0, 0, 0, 0, 0, 1];
    assert!(rt; is_taken_back(&mut files, (4, 0), &rows, 9) == Ok(true));
}
