//! Sessions over a flash in memory: merging, drafts, growth, and full pools.

use crate::arrays::{text, zeros};
use crate::cases::{Case, LARGE, expect_each_on_flash, show};
use crate::told::{told, volume_over};
use std::alloc::{AllocError, Global};
use std::test::Fail;
use test_steps::{ONE, Part, push_number, push_often};

const GROWN: &[Case] = &[
    Case {
        shows: "rows are marked until the log is merged",
        script: &[
            Part::Once(ONE),
            Part::Numbered("INSERT (", 40, ") INTO n;"),
            Part::Numbered("REMOVE FROM n WHERE v = ", 31, ";"),
            Part::Once("SELECT COUNT(v), MIN(v) FROM n;"),
        ],
        replies: &[
            Part::Often("ok\n", 42),
            Part::Often("rows 1\n", 31),
            Part::Once("9,31\nrows 1\n"),
        ],
    },
    Case {
        shows: "many rows are removed in one draft",
        script: &[
            Part::Once(ONE),
            Part::Numbered("INSERT (", 300, ") INTO n;"),
            Part::Once("REMOVE FROM n WHERE v < 200;SELECT COUNT(v) FROM n;"),
        ],
        replies: &[
            Part::Often("ok\n", 302),
            Part::Once("rows 200\n100\nrows 1\n"),
        ],
    },
    Case {
        shows: "a cursor under a hash tree goes on while the tree is merged and grown",
        script: &[
            Part::Once(ONE),
            Part::Once("CREATE INDEX n.v TYPE MAXHEAP;"),
            Part::Often("INSERT (7) INTO n;", 40),
            Part::Once("OPEN 1 SELECT v FROM n WHERE v = 7;"),
            Part::Often("INSERT (7) INTO n;", 600),
            Part::Often("FETCH 1;", 41),
        ],
        // The first are those of the relation, of the index, of OPEN, and of 640 inserts.
        replies: &[
            Part::Often("ok\n", 644),
            Part::Often("7\nrows 1\n", 40),
            Part::Once("rows 0\n"),
        ],
    },
    Case {
        shows: "a hash table has 2,048 entries",
        script: &[
            Part::Once(ONE),
            Part::Once("CREATE INDEX n.v TYPE MEMHASH;"),
            Part::Often("INSERT (1) INTO n;", 2_049),
        ],
        replies: &[
            Part::Often("ok\n", 2_051),
            Part::Once("no full hashentries 2048\n"),
        ],
    },
];

#[test]
fn rows_logs_and_indexes_grow(rt: HostRuntime) -> Result<(), Fail> {
    expect_each_on_flash(rt.alloc(), LARGE, GROWN)
}

const SLOTS: &[Case] = &[Case {
    shows: "the last slot is number 32,767",
    script: &[
        Part::Once(ONE),
        Part::Often("INSERT (1) INTO n;", 32_769),
        Part::Once("SELECT COUNT(v) FROM n;"),
    ],
    replies: &[
        Part::Often("ok\n", 32_770),
        Part::Once("no full slots 32768\n32768\nrows 1\n"),
    ],
}];

#[test]
fn the_last_slot_is_number_32_767(rt: HostRuntime) -> Result<(), Fail> {
    expect_each_on_flash(rt.alloc(), LARGE, SLOTS)
}

// 812 rows of four bytes fill a flash of four sectors.
const FILLED: &[Case] = &[Case {
    shows: "a command that has no space does nothing",
    script: &[
        Part::Once("CREATE RELATION n;CREATE ATTRIBUTE v DOMAIN LONG IN n;"),
        Part::Often("INSERT (1) INTO n;", 812),
        Part::Often("INSERT (2) INTO n;SELECT COUNT(v), MAX(v) FROM n;", 2),
        Part::Once("REMOVE FROM n WHERE v = 2;SELECT v FROM m;"),
    ],
    replies: &[
        Part::Often("ok\n", 814),
        Part::Often("no space 32\n812,1\nrows 1\n", 2),
        Part::Once("rows 0\nno relation\n"),
    ],
}];

#[test]
fn a_command_that_has_no_space_does_nothing(rt: HostRuntime) -> Result<(), Fail> {
    expect_each_on_flash(rt.alloc(), 16_384, FILLED)
}

const SAMPLES: &str = "CREATE RELATION samples;CREATE ATTRIBUTE minute DOMAIN LONG IN samples;\
    CREATE ATTRIBUTE node DOMAIN INT IN samples;CREATE ATTRIBUTE value DOMAIN INT IN samples;\
    CREATE INDEX samples.minute TYPE INLINE;";

const TEN_MINUTES: &str = "SELECT minute, value FROM samples WHERE minute >= 600 AND minute < 610;";

// A sensor's day, a row a minute, and a question after ten minutes of it: 1,446 commands.
fn push_day(alloc: Global) -> Result<Vec<u8>, AllocError> {
    let mut text = Vec::from_slice(alloc, SAMPLES.as_bytes())?;
    for minute in 0..1_440u16 {
        push_often(&mut text, "INSERT (", 1)?;
        push_number(&mut text, minute)?;
        push_often(&mut text, ", ", 1)?;
        push_number(&mut text, minute % 4)?;
        push_often(&mut text, ", ", 1)?;
        push_number(&mut text, 200 + minute % 7)?;
        push_often(&mut text, ") INTO samples;", 1)?;
    }
    push_often(&mut text, TEN_MINUTES, 1)?;
    Ok(text)
}

const FOUND: &[Part] = &[
    Part::Often("ok\n", 1_445),
    Part::Once("600,205\n601,206\n602,200\n603,201\n604,202\n605,203\n606,204\n607,205\n"),
    Part::Once("608,206\n609,200\nrows 10\n"),
];

fn day(alloc: Global) -> Vec<u8> {
    match push_day(alloc) {
        Ok(text) => text,
        Err(_) => Vec::new(alloc),
    }
}

// Whether the ten minutes are found.
fn is_found(alloc: Global) -> bool {
    let replies = text(alloc, FOUND);
    let mut image = zeros(alloc, LARGE);
    let Some(volume) = volume_over(image.as_mut_slice()) else {
        return false;
    };
    match told(alloc, volume, day(alloc).as_slice()) {
        Some((written, _)) => written.as_slice() == replies.as_slice(),
        None => false,
    }
}

#[test]
fn a_day_of_samples_is_found_by_its_minutes(rt: HostRuntime) -> Result<(), Fail> {
    show(is_found(rt.alloc()), "the ten minutes")
}
