//! How often reads of a file read its flash.

use crate::calls::{change, doubling_file};
use crate::mounted::{SIZE, calls_of_mount, erased, memory, mounted, named};
use crate::rows::make_short_rows;
use afl_base::{Files, Flash};

// Removes the first of the rows, for which the file gets a log.
fn mark_first(image: &mut [u8; SIZE]) -> bool {
    let Some(flash) = memory(image) else {
        return false;
    };
    match mounted(flash) {
        Some(mut volume) => change(&mut volume, named(b"T0"), 2, &[3], &[]) == Ok(true),
        None => false,
    }
}

// Whether the row of a number stands in its place.
fn has_row<V: Files>(files: &mut V, row: u32) -> bool {
    let Some(file) = doubling_file(files, named(b"T0")) else {
        return false;
    };
    if row >= 300 {
        return false;
    }
    if files.size(file) != 900 {
        return false;
    }
    let mut bytes = [0; 3];
    if files.read(file, 3 * row, &mut bytes).is_err() {
        return false;
    }
    let [low, high, _] = bytes;
    u32::from(low) + 256 * u32::from(high) == row
}

// How many pages are read where all rows are read one by one, from the first or from the last one on.
fn pages_read(image: &mut [u8; SIZE], backwards: bool) -> Option<u64> {
    let before = calls_of_mount(image);
    let mut volume = mounted(memory(image)?)?;
    for turn in 0..300u32 {
        let row = if backwards { 299 - turn } else { turn };
        if !has_row(&mut volume, row) {
            return None;
        }
    }
    volume.unmount().reads().checked_sub(before)
}

#[test]
fn reads_in_order_read_each_page_once(rt: HostRuntime) {
    let mut image = erased();
    assert!(rt; make_short_rows(&mut image));
    // 900 bytes after a header of 32 lie in 4 pages. The first row is read alone, since no read went before.
    assert_eq!(rt; pages_read(&mut image, false), Some(5));
    // Backwards each row is read alone, and two of them cross the end of a page.
    assert_eq!(rt; pages_read(&mut image, true), Some(302));
}

#[test]
fn reads_in_order_read_each_region_of_a_logged_file_once(rt: HostRuntime) {
    let mut image = erased();
    assert!(rt; make_short_rows(&mut image));
    assert!(rt; mark_first(&mut image));
    // The first row, and each of 8 regions, of which 3 cross the end of a page. The log's table is read each time.
    assert_eq!(rt; pages_read(&mut image, false), Some(21));
}
