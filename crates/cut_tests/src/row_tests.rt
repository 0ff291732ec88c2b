//! Cuts of commands that change rows.

use crate::scripts::{Asks, Case, all_are_put_right};
use std::test::Fail;
use test_steps::Part;

const MADE: &[Part] = &[
    Part::Once("CREATE RELATION s;CREATE ATTRIBUTE k DOMAIN LONG IN s;"),
    Part::Once("CREATE ATTRIBUTE t DOMAIN STRING(3) IN s;"),
];

// All that four sectors have room for.
const FIRST: &[Part] = &[
    Part::Once(
        "CREATE RELATION s;CREATE ATTRIBUTE k DOMAIN LONG IN s;INSERT (1) INTO s;INSERT (2) INTO s;",
    ),
    Part::Once("REMOVE FROM s WHERE k = 1;INSERT (3) INTO s;PACK s;INSERT (4) INTO s;"),
];

const CHANGED: &[Part] = &[
    Part::Once("INSERT (1,'a') INTO s;INSERT (2,'') INTO s;INSERT (-3,'abc') INTO s;"),
    Part::Once("INSERT (4,'d') INTO s;INSERT (0,'') INTO s;INSERT (6,'zz') INTO s;"),
    Part::Once("REMOVE FROM s WHERE k > 1;INSERT (7,'e') INTO s;REMOVE FROM s WHERE k = 7;"),
    Part::Once("INSERT (8,'f') INTO s;PACK s;INSERT (9,'g') INTO s;REMOVE FROM s;PACK s;"),
];

// Rows that fill most of the first extent of a file.
const MANY: &[Part] = &[
    Part::Once("CREATE RELATION s;CREATE ATTRIBUTE k DOMAIN LONG IN s;"),
    Part::Once("CREATE ATTRIBUTE t DOMAIN STRING(3) IN s;"),
    Part::Numbered("INSERT (", 505, ",'abc') INTO s;"),
];

// The file grows, rows are marked one by one until the log is full, and by a draft, and it is packed.
const GROWN: &[Part] = &[
    Part::Numbered("INSERT (", 6, ",'x') INTO s;"),
    Part::Once("REMOVE FROM s WHERE k < 20;INSERT (1,'y') INTO s;REMOVE FROM s WHERE k < 40;"),
    Part::Once("INSERT (2,'z') INTO s;REMOVE FROM s WHERE k < 100;INSERT (3,'u') INTO s;PACK s;"),
    Part::Once("REMOVE FROM s WHERE k = 200;INSERT (4,'v') INTO s;"),
];

const FEW: &[Case] = &[
    Case {
        old: false,
        sectors: 4,
        before: &[],
        asks: Asks::Script(FIRST),
        times: 24,
        one_in: 4,
    },
    Case {
        old: false,
        sectors: 8,
        before: MADE,
        asks: Asks::Script(CHANGED),
        times: 64,
        one_in: 4,
    },
];

const GROWN_FILES: &[Case] = &[Case {
    old: false,
    sectors: 12,
    before: MANY,
    asks: Asks::Script(GROWN),
    times: 40,
    one_in: 16,
}];

// On so few sectors extents are collected meanwhile.
const COLLECTED: &[Case] = &[Case {
    old: false,
    sectors: 9,
    before: MANY,
    asks: Asks::Script(GROWN),
    times: 40,
    one_in: 16,
}];

#[test]
fn a_few_rows_are_put_right(rt: HostRuntime) -> Result<(), Fail> {
    all_are_put_right(rt.alloc(), FEW, 2_000)
}

#[test]
fn files_that_grow_are_put_right(rt: HostRuntime) -> Result<(), Fail> {
    all_are_put_right(rt.alloc(), GROWN_FILES, 6_500)
}

#[test]
fn files_that_grow_on_few_sectors_are_put_right(rt: HostRuntime) -> Result<(), Fail> {
    all_are_put_right(rt.alloc(), COLLECTED, 7_000)
}
