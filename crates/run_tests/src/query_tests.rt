//! Conditions, aggregates and joins.

use crate::cases::{Case, expect_each};
use std::test::Fail;
use test_steps::{ONE, Part};

// Two relations with an attribute of one name, and three rows each. Twelve commands.
const PAIR: &str =
    "CREATE RELATION l; CREATE ATTRIBUTE a DOMAIN INT IN l; CREATE ATTRIBUTE x DOMAIN INT IN l; \
    CREATE RELATION r; CREATE ATTRIBUTE a DOMAIN INT IN r; CREATE ATTRIBUTE y DOMAIN INT IN r; \
    INSERT (1, 10) INTO l; INSERT (2, 20) INTO l; INSERT (1, 30) INTO l; \
    INSERT (1, 7) INTO r; INSERT (1, 8) INTO r; INSERT (3, 9) INTO r; ";

const QUESTIONS: &[Case] = &[
    Case {
        shows: "what is undefined makes a comparison false",
        script: &[
            Part::Once(ONE),
            Part::Once(
                "INSERT (0) INTO n; INSERT (2) INTO n; SELECT v FROM n WHERE 10 / v > 1; \
                SELECT v FROM n WHERE NOT 10 / v > 1;",
            ),
        ],
        replies: &[Part::Once("ok\nok\nok\nok\n2\nrows 1\n0\nrows 1\n")],
    },
    Case {
        shows: "conditions reckon and compare",
        script: &[
            Part::Once(ONE),
            Part::Once(
                "INSERT (1) INTO n; INSERT (2) INTO n; INSERT (3) INTO n; \
                SELECT v FROM n WHERE v * v - 1 = 3 OR NOT (v < 3); \
                SELECT v FROM n WHERE 'b' < 'ba' AND v <> 2;",
            ),
        ],
        replies: &[Part::Once("ok\nok\nok\nok\nok\n2\n3\nrows 2\n1\n3\nrows 2\n")],
    },
    Case {
        shows: "aggregates of some rows and of none",
        script: &[
            Part::Once(ONE),
            Part::Once(
                "INSERT (4) INTO n; INSERT (1) INTO n; INSERT (3) INTO n; INSERT (2) INTO n; \
                SELECT MEDIAN(v), SUM(v), COUNT(v) FROM n; \
                SELECT MIN(v), SUM(v), COUNT(v) FROM n WHERE v > 9; \
                REMOVE FROM n; INSERT (-3) INTO n; INSERT (-4) INTO n; SELECT MEAN(v) FROM n;",
            ),
        ],
        replies: &[
            Part::Often("ok\n", 6),
            Part::Once("2,10,4\nrows 1\n-,0,0\nrows 1\nrows 4\nok\nok\n-3\nrows 1\n"),
        ],
    },
    Case {
        shows: "pairs come by left row and then by right row",
        script: &[Part::Once(PAIR), Part::Once("JOIN l, r ON a PROJECT x, y;")],
        replies: &[
            Part::Often("ok\n", 12),
            Part::Once("10,7\n10,8\n30,7\n30,8\nrows 4\n"),
        ],
    },
    Case {
        shows: "pairs are fetched as they were when asked for",
        script: &[
            Part::Once(PAIR),
            Part::Once(
                "OPEN 3 JOIN l, r ON a PROJECT a, y; INSERT (1, 5) INTO r; FETCH 3; FETCH 3; FETCH 3; \
                REMOVE FROM r;",
            ),
        ],
        replies: &[
            Part::Often("ok\n", 14),
            Part::Once("1,7\nrows 1\n1,8\nrows 1\n1,7\nrows 1\nno inuse 3\n"),
        ],
    },
];

#[test]
fn questions_are_answered(rt: HostRuntime) -> Result<(), Fail> {
    expect_each(rt.alloc(), QUESTIONS)
}
