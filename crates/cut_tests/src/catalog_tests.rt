//! Cuts of commands that change the catalog.

use crate::scripts::{Asks, Case, all_are_put_right};
use std::test::Fail;
use test_steps::Part;

const MADE: &[Part] = &[
    Part::Once("CREATE RELATION s;CREATE ATTRIBUTE k DOMAIN LONG IN s;"),
    Part::Once("CREATE ATTRIBUTE t DOMAIN STRING(3) IN s;CREATE RELATION n;"),
    Part::Once("CREATE ATTRIBUTE v DOMAIN INT IN n;CREATE ATTRIBUTE at DOMAIN TIME IN n;"),
    Part::Once("CREATE INDEX n.v TYPE INLINE;CREATE INDEX s.k TYPE MEMHASH;"),
    Part::Once("REMOVE INDEX n.v;CREATE RELATION m;REMOVE RELATION s;CREATE RELATION p;"),
];

const CHANGED: &[Part] = &[
    Part::Once("REMOVE RELATION p;CREATE RELATION q;CREATE ATTRIBUTE a DOMAIN INT IN q;"),
    Part::Once(
        "CREATE INDEX q.a TYPE MAXHEAP;REMOVE INDEX q.a;REMOVE RELATION q;REMOVE RELATION m;",
    ),
    Part::Once("REMOVE RELATION n;"),
];

// A catalog whose copies fill a small flash.
const OFTEN: &[Part] = &[
    Part::Once("CREATE RELATION n;CREATE ATTRIBUTE v DOMAIN INT IN n;"),
    Part::Often("CREATE INDEX n.v TYPE INLINE;REMOVE INDEX n.v;", 40),
];

// Changes of a catalog of version 1.
const MARKED: &[Part] = &[
    Part::Once("INSERT (6) INTO n;CREATE ATTRIBUTE t DOMAIN TIME IN n;CREATE RELATION m;"),
    Part::Once("CREATE ATTRIBUTE t DOMAIN TIME IN m;INSERT (7) INTO m;REMOVE RELATION n;"),
];

const INDEXED: &[Part] = &[Part::Once(
    "CREATE INDEX n.v TYPE MAXHEAP;INSERT (6) INTO n;REMOVE INDEX n.v;",
)];

const OLD: &[Case] = &[
    Case {
        old: true,
        sectors: 8,
        before: &[],
        asks: Asks::Script(MARKED),
        times: 72,
        one_in: 4,
    },
    Case {
        old: true,
        sectors: 10,
        before: &[],
        asks: Asks::Script(INDEXED),
        times: 72,
        one_in: 4,
    },
];

const CATALOGS: &[Case] = &[
    Case {
        old: false,
        sectors: 8,
        before: &[],
        asks: Asks::Script(MADE),
        times: 48,
        one_in: 4,
    },
    Case {
        old: false,
        sectors: 10,
        before: MADE,
        asks: Asks::Script(CHANGED),
        times: 48,
        one_in: 4,
    },
];

const OFTEN_CHANGED: &[Case] = &[
    Case {
        old: false,
        sectors: 8,
        before: OFTEN,
        asks: Asks::Script(CHANGED),
        times: 24,
        one_in: 8,
    },
    Case {
        old: false,
        sectors: 6,
        before: &[],
        asks: Asks::Script(OFTEN),
        times: 16,
        one_in: 16,
    },
];

#[test]
fn catalogs_are_put_right(rt: HostRuntime) -> Result<(), Fail> {
    all_are_put_right(rt.alloc(), CATALOGS, 6_000)
}

#[test]
fn catalogs_that_move_are_put_right(rt: HostRuntime) -> Result<(), Fail> {
    all_are_put_right(rt.alloc(), OFTEN_CHANGED, 3_500)
}

#[test]
fn catalogs_of_version_1_are_put_right(rt: HostRuntime) -> Result<(), Fail> {
    all_are_put_right(rt.alloc(), OLD, 3_000)
}
