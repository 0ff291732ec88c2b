//! Cuts of lines of frames, and of generated commands.

use crate::scripts::{Asks, Case, all_are_put_right};
use std::test::Fail;
use test_steps::Part;

const MADE: &[Part] = &[
    Part::Once(
        "CREATE RELATION n;CREATE ATTRIBUTE v DOMAIN INT IN n;CREATE ATTRIBUTE t DOMAIN TIME IN n;",
    ),
    Part::Numbered("INSERT (", 40, ",5) INTO n;"),
];

const SERVED: &[Part] = &[
    Part::Once(
        "OPEN 1 SELECT v FROM n WHERE v > 3;CREATE INDEX n.v TYPE MAXHEAP;FETCH 1;INSERT (7,140737488355327) INTO n;",
    ),
    Part::Once(
        "REMOVE FROM n WHERE v = 7;FETCH 1;CREATE RELATION m;INSERT (8,0) INTO n;CLOSE 1;REMOVE FROM n WHERE v > 1;",
    ),
    Part::Once(
        "SELECT v FROM n;PACK n;REMOVE INDEX n.v;PACK n;INSERT (9,1) INTO n;REMOVE RELATION m;",
    ),
];

const SERVED_LINES: &[Case] = &[Case {
    old: false,
    sectors: 16,
    before: MADE,
    asks: Asks::Frames(SERVED),
    times: 96,
    one_in: 16,
}];

const GENERATED: &[Case] = &[
    Case {
        old: false,
        sectors: 9,
        before: &[],
        asks: Asks::Generated("7", 40),
        times: 54,
        one_in: 16,
    },
    Case {
        old: false,
        sectors: 64,
        before: &[],
        asks: Asks::Generated("11", 24),
        times: 32,
        one_in: 64,
    },
];

#[test]
fn lines_of_frames_are_put_right(rt: HostRuntime) -> Result<(), Fail> {
    all_are_put_right(rt.alloc(), SERVED_LINES, 3_500)
}

#[test]
fn generated_commands_are_put_right(rt: HostRuntime) -> Result<(), Fail> {
    all_are_put_right(rt.alloc(), GENERATED, 8_000)
}
