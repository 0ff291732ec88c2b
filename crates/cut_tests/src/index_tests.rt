//! Cuts of commands over relations with indexes.

use crate::scripts::{Asks, Case, all_are_put_right};
use std::test::Fail;
use test_steps::Part;

const MADE: &[Part] = &[
    Part::Once(
        "CREATE RELATION n;CREATE ATTRIBUTE v DOMAIN INT IN n;CREATE ATTRIBUTE w DOMAIN LONG IN n;",
    ),
    Part::Numbered("INSERT (", 70, ",7) INTO n;"),
];

const INDEXED: &[Part] = &[
    Part::Once("CREATE INDEX n.v TYPE MAXHEAP;CREATE INDEX n.w TYPE MAXHEAP;"),
    Part::Numbered("INSERT (", 12, ",7) INTO n;"),
    Part::Once("OPEN 1 SELECT v FROM n;REMOVE FROM n WHERE v = 5;FETCH 1;INSERT (3,-1) INTO n;"),
    Part::Once("REMOVE INDEX n.v;CREATE INDEX n.v TYPE MEMHASH;INSERT (-9,9) INTO n;"),
    Part::Once("REMOVE INDEX n.w;PACK n;CREATE INDEX n.w TYPE MAXHEAP;REMOVE RELATION n;"),
];

// A tree whose buckets and log fill a small flash again and again.
const LOADED: &[Part] = &[
    Part::Once(
        "CREATE RELATION n;CREATE ATTRIBUTE v DOMAIN INT IN n;CREATE ATTRIBUTE w DOMAIN LONG IN n;",
    ),
    Part::Once("CREATE INDEX n.v TYPE MAXHEAP;"),
    Part::Numbered("INSERT (", 90, ",7) INTO n;"),
];

const INDEXES: &[Case] = &[
    Case {
        old: false,
        sectors: 24,
        before: MADE,
        asks: Asks::Script(INDEXED),
        times: 36,
        one_in: 32,
    },
    Case {
        old: false,
        sectors: 11,
        before: MADE,
        asks: Asks::Script(INDEXED),
        times: 28,
        one_in: 32,
    },
];

// On as many sectors as are enough no repair lacks space.
const ROOMY: &[Case] = &[Case {
    old: false,
    sectors: 64,
    before: MADE,
    asks: Asks::Script(INDEXED),
    times: 9,
    one_in: 32,
}];

const LOADS: &[Case] = &[Case {
    old: false,
    sectors: 12,
    before: &[],
    asks: Asks::Script(LOADED),
    times: 30,
    one_in: 64,
}];

#[test]
fn indexes_are_put_right(rt: HostRuntime) -> Result<(), Fail> {
    all_are_put_right(rt.alloc(), INDEXES, 6_500)
}

#[test]
fn loads_of_a_tree_are_put_right(rt: HostRuntime) -> Result<(), Fail> {
    all_are_put_right(rt.alloc(), LOADS, 6_500)
}

#[test]
fn indexes_on_many_sectors_are_put_right(rt: HostRuntime) -> Result<(), Fail> {
    all_are_put_right(rt.alloc(), ROOMY, 800)
}
