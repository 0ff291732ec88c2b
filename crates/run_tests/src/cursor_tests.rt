//! Cursors, and the commands that stand between their fetches.

use crate::cases::{Case, expect_each, expect_in_turn};
use crate::running::{MANY, erased};
use std::test::Fail;
use test_steps::{ONE, Part, TWO};

const FETCHES: &str =
    "INSERT (1, 'a') INTO s; OPEN 1 SELECT k FROM s; INSERT (2, 'b') INTO s; FETCH 1; FETCH 1; \
    SELECT COUNT(k) FROM s; ";

const FETCHED: &str = "ok\nok\nok\nok\nok\nok\n1\nrows 1\nrows 0\n2\nrows 1\n";

const BETWEEN_FETCHES: &[Case] = &[
    Case {
        shows: "rows that came after OPEN are not fetched",
        script: &[Part::Once(TWO), Part::Once(FETCHES)],
        replies: &[Part::Once(FETCHED)],
    },
    Case {
        shows: "an open cursor keeps its rows from being removed",
        script: &[
            Part::Once(TWO),
            Part::Once(FETCHES),
            Part::Once(
                "OPEN 1 SELECT k FROM s; REMOVE FROM s; CLOSE 1; REMOVE FROM s; FETCH 1; FETCH 5;",
            ),
        ],
        replies: &[
            Part::Once(FETCHED),
            Part::Once("no open\nno inuse 1\nok\nrows 2\nno cursor\nno cursor\n"),
        ],
    },
    Case {
        shows: "cursors go on by themselves",
        script: &[
            Part::Once(TWO),
            Part::Once(
                "INSERT (1, 'a') INTO s; OPEN 1 SELECT k FROM s; OPEN 4 SELECT t FROM s; \
                INSERT (2, 'b') INTO s; FETCH 4; FETCH 1; FETCH 1; OPEN 2 SELECT k FROM s; FETCH 2; \
                FETCH 2; REMOVE RELATION s; CLOSE 1; PACK s; FETCH 5; OPEN 2 SELECT k FROM s; CLOSE 3;",
            ),
        ],
        replies: &[
            Part::Once(
                "ok\nok\nok\nok\nok\nok\nok\n'a'\nrows 1\n1\nrows 1\nrows 0\nok\n1\nrows 1\n2\nrows 1\n",
            ),
            Part::Once("no inuse 1\nok\nno inuse 2\nno cursor\nno open\nno cursor\n"),
        ],
    },
    Case {
        shows: "a cursor goes on while its tree grows",
        script: &[
            Part::Once(ONE),
            Part::Once("CREATE INDEX n.v TYPE MAXHEAP;"),
            Part::Often("INSERT (7) INTO n;", 40),
            Part::Once("OPEN 1 SELECT v FROM n WHERE v = 7;"),
            Part::Often("INSERT (7) INTO n;", 600),
            Part::Often("FETCH 1;", 41),
        ],
        // The first are those of the relation, of the index, of OPEN, and of 640 inserts.
        replies: &[
            Part::Often("ok\n", 644),
            Part::Often("7\nrows 1\n", 40),
            Part::Once("rows 0\n"),
        ],
    },
];

#[test]
fn a_cursor_fetches_the_rows_of_its_open(rt: HostRuntime) -> Result<(), Fail> {
    expect_each(rt.alloc(), BETWEEN_FETCHES)
}

const TWO_RUNS: &[Case] = &[
    Case {
        shows: "a cursor is opened in one run",
        script: &[Part::Once(TWO), Part::Once("OPEN 1 SELECT k FROM s;")],
        replies: &[Part::Often("ok\n", 4)],
    },
    Case {
        shows: "the cursor is gone in the next run",
        script: &[Part::Once("FETCH 1; CLOSE 1; PACK s;")],
        replies: &[Part::Once("no cursor\nno cursor\nok\n")],
    },
];

#[test]
fn a_cursor_ends_with_its_run(rt: HostRuntime) -> Result<(), Fail> {
    let mut image = erased(rt.alloc(), MANY);
    expect_in_turn(rt.alloc(), TWO_RUNS, image.as_mut_slice())
}
