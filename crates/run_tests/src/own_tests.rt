//! More images that break a rule of the database first.

use crate::cases::show;
use crate::running::{MANY, copied, erased, runs};
use crate::strangers::{
    Case, all_are_refused, expect_refused, is_refused, made_by, made_of, put_file, set, two_rows,
    version_1,
};
use std::alloc::Global;
use std::test::Fail;
use test_steps::{ONE, Part};

const CASES: &[Case] = &[
    // The name `T8`.
    ("no image 14 1\n", &[(6, 11, b'8')]),
    // The mark of a version 3.
    ("no image 15 0\n", &[(5, 224, 3)]),
    // A byte after the mark.
    ("no image 15 0\n", &[(5, 232, 1)]),
    // Both attributes have the name k.
    ("no image 16 0\n", &[(23, 130, b'k')]),
    // A STRING(33).
    ("no image 16 0\n", &[(23, 147, 33)]),
    // A second relation of the name s.
    ("no image 16 2\n", &[(1, 128, b's')]),
    // An INLINE on a STRING.
    ("no image 17 0\n", &[(5, 160, 1), (5, 162, 1)]),
    // An index on a third attribute.
    ("no image 17 0\n", &[(5, 160, 1), (5, 162, 2)]),
    // An index of a relation that there is not.
    ("no image 17 0\n", &[(5, 160, 1), (5, 161, 3)]),
    // Two indexes on one attribute. The first is not complete, too.
    ("no image 17 1\n", &[(5, 160, 1), (5, 168, 3)]),
    // A MAXHEAP without its file.
    ("no image 18 8\n", &[(5, 160, 2)]),
    // A byte after the last row.
    ("no image 19 0\n", &[(6, 48, 1)]),
    // A quote in a text.
    ("no image 19 0\n", &[(6, 36, b'\'')]),
    // A letter after the zeros of a text.
    ("no image 19 0\n", &[(6, 45, b'a')]),
];

#[test]
fn broken_rules_are_told_with_their_places(rt: HostRuntime) -> Result<(), Fail> {
    all_are_refused(rt.alloc(), CASES)
}

// Whether an image is refused by this line that has one more file, after the two rows.
fn one_file_more(alloc: Global, name: &[u8], line: &str) -> bool {
    let mut image = two_rows(alloc);
    put_file(image.as_mut_slice(), 38, 16, 0, name);
    is_refused(alloc, image.as_slice(), &[], line)
}

#[test]
fn a_file_of_no_relation_and_no_tree_is_told(rt: HostRuntime) -> Result<(), Fail> {
    show(
        one_file_more(rt.alloc(), b"T1", "no image 18 1\n"),
        "T1 is of no relation",
    )?;
    show(
        one_file_more(rt.alloc(), b"X3", "no image 18 11\n"),
        "X3 is of no tree",
    )
}

// Whether an image is refused that has one file alone.
fn one_file_alone(alloc: Global, pages: u16, kind: u8, name: &[u8]) -> bool {
    let mut image = erased(alloc, MANY);
    put_file(image.as_mut_slice(), 0, pages, kind, name);
    is_refused(alloc, image.as_slice(), &[], "no image 14 0\n")
}

#[test]
fn a_file_of_another_kind_is_told(rt: HostRuntime) -> Result<(), Fail> {
    show(
        one_file_alone(rt.alloc(), 16, 0, b"CAT"),
        "a catalog that doubles",
    )?;
    show(
        one_file_alone(rt.alloc(), 5, 1, b"CAT"),
        "a catalog of five pages",
    )?;
    show(
        one_file_alone(rt.alloc(), 3, 1, b"T0"),
        "rows that do not double",
    )
}

#[test]
fn rows_of_a_relation_without_attributes_are_told(rt: HostRuntime) -> Result<(), Fail> {
    let image = made_by(rt.alloc(), b"CREATE RELATION s;");
    let line = "no image 19 0\n";
    expect_refused(rt.alloc(), image.as_slice(), &[(6, 32, 1)], line)
}

// An image of version 1 with this many rows of the number 0.
fn zeros(alloc: Global, rows: u16) -> Vec<u8> {
    let mut image = version_1(alloc, 1, 256);
    let all = image.as_mut_slice();
    for slot in 0..rows {
        set(all, 256 * 6 + 32 + 3 * usize::from(slot) + 2, 1);
    }
    image
}

const COUNT: &[u8] = b"SELECT COUNT(v) FROM n;";

#[test]
fn version_1_has_at_most_16384_slots_and_no_time(rt: HostRuntime) -> Result<(), Fail> {
    let mut full = zeros(rt.alloc(), 16_384);
    let counted = runs(rt.alloc(), COUNT, full.as_mut_slice(), b"16384\nrows 1\n");
    show(counted, "16,384 slots are counted")?;
    let more = zeros(rt.alloc(), 16_385);
    expect_refused(rt.alloc(), more.as_slice(), &[], "no image 19 0\n")?;
    let time = version_1(rt.alloc(), 4, 16);
    expect_refused(rt.alloc(), time.as_slice(), &[], "no image 16 0\n")
}

const FEW: &[Part] = &[Part::Once(ONE), Part::Often("INSERT (1) INTO n;", 2_048)];

const TOO_MANY: &[Part] = &[Part::Once(ONE), Part::Often("INSERT (1) INTO n;", 2_049)];

// Whether an index of this kind on v is complete, when a byte of the catalog says that there is one.
fn is_complete(alloc: Global, image: &[u8], kind: u8) -> bool {
    let mut image = copied(alloc, image);
    set(image.as_mut_slice(), 256 * 5 + 160, kind);
    runs(alloc, b"", image.as_mut_slice(), b"")
}

#[test]
fn a_table_of_2049_rows_is_told(rt: HostRuntime) -> Result<(), Fail> {
    let few = made_of(rt.alloc(), FEW);
    show(
        is_complete(rt.alloc(), few.as_slice(), 3),
        "a table of 2,048 rows",
    )?;
    let many = made_of(rt.alloc(), TOO_MANY);
    show(
        is_complete(rt.alloc(), many.as_slice(), 1),
        "2,049 rows in order",
    )?;
    expect_refused(
        rt.alloc(),
        many.as_slice(),
        &[(5, 160, 3)],
        "no image 20 0\n",
    )
}
