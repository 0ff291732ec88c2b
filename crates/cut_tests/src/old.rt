//! Images of version 1.

use crate::running::erased;
use std::alloc::Global;

// Writes bytes into an image from one on, where it has these.
fn put(image: &mut [u8], at: usize, bytes: &[u8]) {
    for (place, byte) in image.iter_mut().skip(at).zip(bytes) {
        *place = *byte;
    }
}

// Writes the header of an active file without a log: its pages, its kind and its name.
fn put_file(image: &mut [u8], at: usize, pages: u8, kind: u8, name: &str) {
    put(image, at, &[0, 0, 30, 0, 128, 0, pages, 0, kind, 3]);
    put(image, at.saturating_add(10), name.as_bytes());
}

/// An image of this many sectors of version 1, with the relation n of one INT attribute v, which has three rows of the
/// number 5.
pub fn version_1(alloc: Global, sectors: usize) -> Vec<u8> {
    let mut image = erased(alloc, sectors);
    let all = image.as_mut_slice();
    put_file(all, 0, 6, 1, "CAT");
    for slot in 0..8usize {
        put(all, 32 + 176 * slot + 175, &[1]);
        put(all, 32 + 1_408 + 8 * slot + 7, &[1]);
    }
    put(all, 32, b"n");
    put(all, 32 + 16, b"v");
    // the domain INT, and the number of attributes
    put(all, 32 + 32, &[1]);
    put(all, 32 + 160, &[1]);
    put_file(all, 1_536, 16, 0, "T0");
    put(all, 1_568, &[5, 0, 1, 5, 0, 1, 5, 0, 1]);
    image
}
