//! Each rule of an image is the first that is broken.

use crate::running::{MANY, erased};
use crate::strangers::{Byte, Case, all_are_refused, expect_refused, put_file};
use std::alloc::Global;
use std::test::Fail;

const OF_FLASH: &[Case] = &[
    ("no image 1 0\n", &[(0, 9, 1)]),
    // 5,000 pages
    ("no image 2 22\n", &[(22, 6, 136), (22, 7, 19)]),
    ("no image 3 38\n", &[(38, 100, 1)]),
    ("no image 4 40\n", &[(40, 9, 34)]),
    // The name `CAT`.
    (
        "no image 6 6\n",
        &[(6, 10, b'C'), (6, 11, b'A'), (6, 12, b'T')],
    ),
    ("no image 7 0\n", &[(0, 2, 31)]),
    ("no image 8 0\n", &[(0, 0, 24)]),
    ("no image 9 22\n", &[(0, 0, 0), (0, 9, 3)]),
    ("no image 10 22\n", &[(22, 42, 1)]),
    ("no image 11 22\n", &[(22, 32, 13)]),
    ("no image 12 22\n", &[(22, 92, 1)]),
];

const OF_DATABASE: &[Case] = &[
    // The name `Q0`.
    ("no image 14 1\n", &[(6, 10, b'Q')]),
    // The name of the relation in the last record of region 0, which is record 2 of the log.
    ("no image 16 0\n", &[(23, 96, b'-')]),
    // No kind of index.
    ("no image 17 0\n", &[(5, 160, 4)]),
    // `T0` is removed.
    ("no image 18 0\n", &[(6, 9, 7)]),
    // No mark of a row.
    ("no image 19 0\n", &[(6, 39, 2)]),
    // An INLINE on k, whose keys fall.
    ("no image 20 0\n", &[(5, 160, 1)]),
];

#[test]
fn rules_of_the_flash_are_told_with_their_pages(rt: HostRuntime) -> Result<(), Fail> {
    all_are_refused(rt.alloc(), OF_FLASH)
}

#[test]
fn rules_of_the_database_are_told_with_their_places(rt: HostRuntime) -> Result<(), Fail> {
    all_are_refused(rt.alloc(), OF_DATABASE)
}

// An image of this many files, each of one page.
fn many_files(alloc: Global, files: u16) -> Vec<u8> {
    let mut image = erased(alloc, MANY);
    for page in 0..files {
        let tens = (page / 10 % 10) as u8;
        let ones = (page % 10) as u8;
        let mut name = [b'F', b'0' + ones, 0];
        if tens > 0 {
            name = [b'F', b'0' + tens, b'0' + ones];
        }
        put_file(image.as_mut_slice(), page, 1, 1, &name);
    }
    image
}

#[test]
fn the_33rd_file_is_told(rt: HostRuntime) -> Result<(), Fail> {
    let image = many_files(rt.alloc(), 33);
    expect_refused(rt.alloc(), image.as_slice(), &[], "no image 5 32\n")
}

// An image is refused that has one file alone, of which some bytes are set.
fn one_file_alone(
    alloc: Global,
    pages: u16,
    kind: u8,
    name: &[u8],
    bytes: &[Byte],
    line: &'static str,
) -> Result<(), Fail> {
    let mut image = erased(alloc, MANY);
    put_file(image.as_mut_slice(), 0, pages, kind, name);
    expect_refused(alloc, image.as_slice(), bytes, line)
}

#[test]
fn an_empty_file_of_64_pages_is_told(rt: HostRuntime) -> Result<(), Fail> {
    one_file_alone(rt.alloc(), 64, 0, b"T0", &[], "no image 13 0\n")
}

#[test]
fn a_catalog_of_one_byte_is_told(rt: HostRuntime) -> Result<(), Fail> {
    one_file_alone(rt.alloc(), 6, 1, b"CAT", &[(0, 32, 1)], "no image 15 0\n")
}
