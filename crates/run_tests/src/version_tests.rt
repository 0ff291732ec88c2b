//! Images of version 1, which become those of version 2 with the next change of the catalog.

use crate::cases::{Case, expect_on, show};
use crate::image::has_size;
use crate::running::{MANY, copied, erased};
use std::alloc::Global;
use std::test::Fail;
use test_steps::Part;

// Sets a byte of an image, where it has that byte.
fn set(image: &mut [u8], at: usize, byte: u8) {
    if at < image.len() {
        image[at] = byte;
    }
}

// Writes bytes into an image from one on.
fn put(image: &mut [u8], at: usize, bytes: &[u8]) {
    let mut place = at;
    for byte in bytes {
        set(image, place, *byte);
        place = place.saturating_add(1);
    }
}

// Writes the header of an active file without a log: its pages, its kind and its name.
fn put_file(image: &mut [u8], page: usize, pages: u16, kind: u8, name: &str) {
    let at = page.saturating_mul(256);
    put(image, at, &[0, 0, 30, 0, 128, 0]);
    put(
        image,
        at.saturating_add(6),
        &[(pages % 256) as u8, (pages / 256) as u8, kind, 3],
    );
    put(image, at.saturating_add(10), name.as_bytes());
}

// An image of version 1 with the relation n of one INT attribute v, which has this many rows of the number
// 5, in a file of this many pages.
fn version_1(alloc: Global, rows: u16, pages: u16) -> Vec<u8> {
    let mut image = erased(alloc, MANY);
    let all = image.as_mut_slice();
    put_file(all, 0, 6, 1, "CAT");
    for slot in 0..8usize {
        set(all, 32 + 176 * slot + 175, 1);
        set(all, 32 + 1_408 + 8 * slot + 7, 1);
    }
    put(all, 32, b"n");
    put(all, 32 + 16, b"v");
    // The domain INT, and the number of attributes.
    set(all, 32 + 32, 1);
    set(all, 32 + 160, 1);
    put_file(all, 6, pages, 0, "T0");
    for row in 0..rows {
        put(all, 6 * 256 + 32 + 3 * usize::from(row), &[5, 0, 1]);
    }
    image
}

const READ: Case = Case {
    shows: "a row of version 1 is read",
    script: &[Part::Once("SELECT v FROM n;")],
    replies: &[Part::Once("5\nrows 1\n")],
};

#[test]
fn a_catalog_of_version_1_stays_where_it_is_only_read(rt: HostRuntime) -> Result<(), Fail> {
    let mut image = version_1(rt.alloc(), 1, 16);
    let old = has_size(rt.alloc(), image.as_mut_slice(), "CAT", 1_472);
    show(old, "the catalog is of version 1")?;
    let before = copied(rt.alloc(), image.as_slice());
    expect_on(rt.alloc(), &READ, image.as_mut_slice())?;
    show(image.as_slice() == before.as_slice(), "the image stays")
}

const CHANGED: Case = Case {
    shows: "an attribute of the domain TIME is made",
    script: &[Part::Once(
        "INSERT (6) INTO n; CREATE ATTRIBUTE t DOMAIN TIME IN n; CREATE RELATION m; \
        CREATE ATTRIBUTE t DOMAIN time IN m; INSERT (140737488355327) INTO m; \
        INSERT (140737488355328) INTO m; INSERT (-1) INTO m; CREATE INDEX m.t TYPE MAXHEAP; \
        CREATE INDEX m.t TYPE INLINE; INSERT (5) INTO m; SELECT t FROM m WHERE t > 5;",
    )],
    replies: &[Part::Once(
        "ok\nno empty\nok\nok\nok\nno value 1\nno value 1\nno domain\nok\n\
        no ordered 140737488355327\n140737488355327\nrows 1\n",
    )],
};

#[test]
fn a_catalog_of_version_1_changes_with_its_first_slot(rt: HostRuntime) -> Result<(), Fail> {
    let mut image = version_1(rt.alloc(), 1, 16);
    expect_on(rt.alloc(), &CHANGED, image.as_mut_slice())?;
    let new = has_size(rt.alloc(), image.as_mut_slice(), "CAT", 1_480);
    show(new, "the catalog is of version 2")
}

const FULL: Case = Case {
    shows: "16,384 slots are all of version 1",
    script: &[Part::Once("INSERT (1) INTO n; CREATE RELATION m; INSERT (1) INTO n;")],
    replies: &[Part::Once("no full slots 16384\nok\nok\n")],
};

#[test]
fn version_1_has_16384_slots_and_version_2_has_more(rt: HostRuntime) -> Result<(), Fail> {
    // 256 pages hold the 49,152 bytes of the rows.
    let mut image = version_1(rt.alloc(), 16_384, 256);
    expect_on(rt.alloc(), &FULL, image.as_mut_slice())
}
