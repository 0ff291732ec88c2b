//! How a script is cut and read.

use crate::cases::{Case, expect_each};
use std::test::Fail;
use test_steps::{ONE, Part, TWO};

const CUT: &[Case] = &[
    Case {
        shows: "a last piece without its end is unfinished",
        script: &[Part::Once("CREATE RELATION s")],
        replies: &[Part::Once("no unfinished\n")],
    },
    Case {
        shows: "a command of 512 bytes is carried out",
        script: &[
            Part::Once("CREATE RELATION"),
            Part::Often(" ", 496),
            Part::Once("s;SELECT k FROM s;"),
        ],
        replies: &[Part::Once("ok\nno attribute 1\n")],
    },
    Case {
        shows: "a command of 513 bytes is too long",
        script: &[
            Part::Once("CREATE RELATION"),
            Part::Often(" ", 497),
            Part::Once("s;SELECT k FROM s;"),
        ],
        replies: &[Part::Once("no long\nno relation\n")],
    },
    Case {
        shows: "a quoted end ends no command",
        script: &[
            Part::Once(TWO),
            Part::Once("INSERT (1, ';') INTO s; SELECT t FROM s;"),
        ],
        replies: &[Part::Once("ok\nok\nok\nok\n';'\nrows 1\n")],
    },
    Case {
        shows: "white space alone is no command",
        script: &[Part::Once(";;")],
        replies: &[],
    },
];

#[test]
fn a_script_is_cut_into_commands(rt: HostRuntime) -> Result<(), Fail> {
    expect_each(rt.alloc(), CUT)
}

const TOLD: &[Case] = &[
    Case {
        shows: "the place is told where no command goes on",
        script: &[Part::Once(
            "SELECT FROM s; CREATE TABLE s; SELECT k FROM s WHERE k = ; \
            INSERT (1234567890123456789) INTO s;",
        )],
        replies: &[Part::Once("no syntax 6\nno syntax 6\nno syntax 25\nno syntax 8\n")],
    },
    Case {
        shows: "names and types that do not suit are told",
        script: &[
            Part::Once(TWO),
            Part::Once(
                "SELECT k, z FROM s; SELECT k FROM s WHERE t > 3; SELECT SUM(t) FROM s; \
                SELECT k FROM u; CREATE INDEX s.t TYPE INLINE; CREATE RELATION s;",
            ),
        ],
        replies: &[
            Part::Often("ok\n", 3),
            Part::Once("no attribute 2\nno type 2\nno type 1\nno relation\nno domain\nno exists\n"),
        ],
    },
    Case {
        shows: "a condition has 32 nodes",
        script: &[
            Part::Once(ONE),
            Part::Once("SELECT v FROM n WHERE NOT "),
            Part::Often("v = 1 AND ", 7),
            Part::Once("v = 1;"),
        ],
        replies: &[Part::Once("ok\nok\nrows 0\n")],
    },
    Case {
        shows: "a condition has no more than 32 nodes",
        script: &[
            Part::Once(ONE),
            Part::Once("SELECT v FROM n WHERE NOT NOT "),
            Part::Often("v = 1 AND ", 7),
            Part::Once("v = 1;"),
        ],
        replies: &[Part::Once("ok\nok\nno full nodes 32\n")],
    },
];

#[test]
fn what_is_no_command_is_told(rt: HostRuntime) -> Result<(), Fail> {
    expect_each(rt.alloc(), TOLD)
}
