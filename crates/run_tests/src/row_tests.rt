//! Rows that are inserted, and values that do not suit.

use crate::cases::{Case, expect_each, expect_in_turn, expect_on, show};
use crate::image::{has_contents, is_erased_from};
use crate::running::{MANY, erased};
use std::test::Fail;
use test_steps::{ONE, Part, TWO};

const NOTHING: Case = Case {
    shows: "an empty script has no reply",
    script: &[],
    replies: &[],
};

#[test]
fn an_empty_script_leaves_an_erased_image(rt: HostRuntime) -> Result<(), Fail> {
    let mut image = erased(rt.alloc(), MANY);
    expect_on(rt.alloc(), &NOTHING, image.as_mut_slice())?;
    show(is_erased_from(image.as_slice(), 0), "the image stays")
}

const SELECTED: Case = Case {
    shows: "rows are selected as they were inserted",
    script: &[
        Part::Once(TWO),
        Part::Once("INSERT (5, 'abc') INTO s; INSERT (-1, '') INTO s; SELECT t, k FROM s;"),
    ],
    replies: &[Part::Once("ok\nok\nok\nok\nok\n'abc',5\n'',-1\nrows 2\n")],
};

const STORED: &[u8] = b"\x05\x00\x00\x00abc\x01\xff\xff\xff\xff\x00\x00\x00\x01";

#[test]
fn rows_are_selected_as_they_were_inserted(rt: HostRuntime) -> Result<(), Fail> {
    let mut image = erased(rt.alloc(), MANY);
    expect_on(rt.alloc(), &SELECTED, image.as_mut_slice())?;
    let stored = has_contents(rt.alloc(), image.as_mut_slice(), "T0", STORED);
    show(stored, "the file has the bytes of two rows")
}

const SUITED: &[Case] = &[
    Case {
        shows: "numbers stay within their domain",
        script: &[
            Part::Once(ONE),
            Part::Once(
                "INSERT (-32768) INTO n; INSERT (32767) INTO n; INSERT (32768) INTO n; SELECT v FROM n;",
            ),
        ],
        replies: &[Part::Once("ok\nok\nok\nok\nno value 1\n-32768\n32767\nrows 2\n")],
    },
    Case {
        shows: "the first value that does not suit is named",
        script: &[
            Part::Once(TWO),
            Part::Once(
                "INSERT (1, 'abcd') INTO s; INSERT ('x', 'y') INTO s; INSERT (1) INTO s; \
                INSERT (1, 'a', 2) INTO s;",
            ),
        ],
        replies: &[Part::Once("ok\nok\nok\nno value 2\nno value 1\nno value 2\nno value 3\n")],
    },
];

#[test]
fn values_that_do_not_suit_are_refused(rt: HostRuntime) -> Result<(), Fail> {
    expect_each(rt.alloc(), SUITED)
}

const TWO_RUNS: &[Case] = &[
    Case {
        shows: "a row is inserted in one run",
        script: &[Part::Once(ONE), Part::Once("INSERT (0) INTO n;")],
        replies: &[Part::Once("ok\nok\nok\n")],
    },
    Case {
        shows: "the row is found in the next run",
        script: &[Part::Once("SELECT v FROM n;")],
        replies: &[Part::Once("0\nrows 1\n")],
    },
];

#[test]
fn a_second_run_finds_the_rows_of_the_first(rt: HostRuntime) -> Result<(), Fail> {
    let mut image = erased(rt.alloc(), MANY);
    expect_in_turn(rt.alloc(), TWO_RUNS, image.as_mut_slice())
}
