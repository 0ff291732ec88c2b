//! Logs, drafts, and the space of a flash.

use crate::cases::{Case, expect_on, show};
use crate::image::{begins, has_size, is_erased_from, is_unlogged, page_with_log};
use crate::running::{MANY, erased, run, text};
use std::alloc::Global;
use std::test::Fail;
use test_steps::{ONE, Part};

const MARKED: Case = Case {
    shows: "thirty of forty rows are marked",
    script: &[
        Part::Once(ONE),
        Part::Numbered("INSERT (", 40, ") INTO n;"),
        Part::Numbered("REMOVE FROM n WHERE v = ", 30, ";"),
    ],
    replies: &[Part::Often("ok\n", 42), Part::Often("rows 1\n", 30)],
};

const MARKED_LAST: Case = Case {
    shows: "the 31st row is marked",
    script: &[Part::Once("REMOVE FROM n WHERE v = 30; SELECT COUNT(v), MIN(v) FROM n;")],
    replies: &[Part::Once("rows 1\n9,31\nrows 1\n")],
};

#[test]
fn the_31st_mark_merges_the_log_of_the_rows(rt: HostRuntime) -> Result<(), Fail> {
    let mut image = erased(rt.alloc(), MANY);
    expect_on(rt.alloc(), &MARKED, image.as_mut_slice())?;
    let full = page_with_log(image.as_slice(), "T0", 30);
    expect_on(rt.alloc(), &MARKED_LAST, image.as_mut_slice())?;
    let merged = page_with_log(image.as_slice(), "T0", 1);
    show(
        full.is_some() && merged.is_some(),
        "records of the logs are in use",
    )?;
    show(merged != full, "the log is merged")
}

const REMOVED: Case = Case {
    shows: "two hundred rows are removed at once",
    script: &[
        Part::Once(ONE),
        Part::Numbered("INSERT (", 300, ") INTO n;"),
        Part::Once("REMOVE FROM n WHERE v < 200; SELECT COUNT(v) FROM n;"),
    ],
    replies: &[
        Part::Often("ok\n", 302),
        Part::Once("rows 200\n100\nrows 1\n"),
    ],
};

#[test]
fn many_rows_are_removed_without_a_log(rt: HostRuntime) -> Result<(), Fail> {
    let mut image = erased(rt.alloc(), MANY);
    expect_on(rt.alloc(), &REMOVED, image.as_mut_slice())?;
    show(is_unlogged(image.as_slice(), "T0"), "the rows have no log")
}

const PACKED: Case = Case {
    shows: "removed rows are dropped by PACK",
    script: &[
        Part::Once(ONE),
        Part::Once(
            "INSERT (0) INTO n; INSERT (1) INTO n; INSERT (2) INTO n; REMOVE FROM n WHERE v = 1; \
            SELECT v FROM n; REMOVE FROM n WHERE v = 1; PACK n; SELECT v FROM n;",
        ),
    ],
    replies: &[Part::Once("ok\nok\nok\nok\nok\nrows 1\n0\n2\nrows 2\nrows 0\nok\n0\n2\nrows 2\n")],
};

#[test]
fn removed_rows_are_dropped_by_pack(rt: HostRuntime) -> Result<(), Fail> {
    let mut image = erased(rt.alloc(), MANY);
    expect_on(rt.alloc(), &PACKED, image.as_mut_slice())?;
    let packed = has_size(rt.alloc(), image.as_mut_slice(), "T0", 6);
    show(packed, "the file has the bytes of two rows")
}

// Whether a page of an image begins an active extent.
fn begins_at(image: &[u8], page: usize, flags: u8, name: &str) -> bool {
    let at = page.saturating_mul(256);
    match image.get(at..at.saturating_add(256)) {
        Some(bytes) => begins(bytes, flags, name),
        None => false,
    }
}

const FILLED: &[Part] = &[
    Part::Once("CREATE RELATION n; CREATE ATTRIBUTE v DOMAIN LONG IN n;"),
    Part::Often("INSERT (1) INTO n;", 900),
];

const HALTED: &[Part] = &[Part::Often("ok\n", 814), Part::Once("no space 32\n")];

// Whether 900 inserts of a LONG into four sectors have no space for the 813th.
fn is_filled(alloc: Global, image: &mut [u8]) -> bool {
    let script = text(alloc, FILLED);
    let replies = text(alloc, HALTED);
    run(alloc, script.as_slice(), image).is(3, replies.as_slice())
}

// Whether there are the catalog, its rows and its log, of 6, 16 and 16 pages, and 26 free pages.
fn lies_together(image: &[u8]) -> bool {
    begins_at(image, 0, 11, "CAT")
        && begins_at(image, 6, 3, "T0")
        && begins_at(image, 22, 19, "CAT")
        && is_erased_from(image, 38 * 256)
}

const COUNTED: Case = Case {
    shows: "812 rows are counted",
    script: &[Part::Once("SELECT COUNT(v) FROM n;")],
    replies: &[Part::Once("812\nrows 1\n")],
};

#[test]
fn four_sectors_hold_812_rows(rt: HostRuntime) -> Result<(), Fail> {
    let mut image = erased(rt.alloc(), 4);
    let filled = is_filled(rt.alloc(), image.as_mut_slice());
    show(filled, "the 813th row has no space")?;
    show(lies_together(image.as_slice()), "the files lie together")?;
    expect_on(rt.alloc(), &COUNTED, image.as_mut_slice())
}

const ONE_BY_ONE: Case = Case {
    shows: "forty relations come and go",
    script: &[Part::Often(
        "CREATE RELATION n;CREATE ATTRIBUTE v DOMAIN INT IN n;REMOVE RELATION n;",
        40,
    )],
    replies: &[Part::Often("ok\n", 120)],
};

#[test]
fn eight_sectors_hold_one_relation_after_the_other(rt: HostRuntime) -> Result<(), Fail> {
    let mut image = erased(rt.alloc(), 8);
    expect_on(rt.alloc(), &ONE_BY_ONE, image.as_mut_slice())
}
