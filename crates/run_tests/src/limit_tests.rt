//! One more than there may be.

use crate::cases::{Case, expect_each};
use std::test::Fail;
use test_steps::{ONE, Part};

const EIGHT: &str =
    "CREATE RELATION s; CREATE ATTRIBUTE a DOMAIN INT IN s; CREATE ATTRIBUTE b DOMAIN INT IN s; \
    CREATE ATTRIBUTE c DOMAIN INT IN s; CREATE ATTRIBUTE d DOMAIN INT IN s; \
    CREATE ATTRIBUTE e DOMAIN INT IN s; CREATE ATTRIBUTE f DOMAIN INT IN s; \
    CREATE ATTRIBUTE g DOMAIN INT IN s; CREATE ATTRIBUTE h DOMAIN INT IN s; ";

const FULL: &[Case] = &[
    Case {
        shows: "the ninth relation is refused",
        script: &[Part::Once(
            "CREATE RELATION a; CREATE RELATION b; CREATE RELATION c; CREATE RELATION d; \
            CREATE RELATION e; CREATE RELATION f; CREATE RELATION g; CREATE RELATION h; \
            CREATE RELATION i;",
        )],
        replies: &[Part::Often("ok\n", 8), Part::Once("no full relations 8\n")],
    },
    Case {
        shows: "the ninth attribute is refused",
        script: &[
            Part::Once(EIGHT),
            Part::Once("CREATE ATTRIBUTE i DOMAIN INT IN s;"),
        ],
        replies: &[Part::Often("ok\n", 9), Part::Once("no full attributes 8\n")],
    },
    Case {
        shows: "a row has at most 128 bytes",
        script: &[Part::Once(
            "CREATE RELATION s; CREATE ATTRIBUTE a DOMAIN STRING(32) IN s; \
            CREATE ATTRIBUTE b DOMAIN STRING(32) IN s; CREATE ATTRIBUTE c DOMAIN STRING(32) IN s; \
            CREATE ATTRIBUTE d DOMAIN STRING(32) IN s;",
        )],
        replies: &[Part::Often("ok\n", 4), Part::Once("no full rowbytes 128\n")],
    },
    Case {
        shows: "the ninth index is refused",
        script: &[
            Part::Once(EIGHT),
            Part::Once(
                "CREATE INDEX s.a TYPE INLINE; CREATE INDEX s.b TYPE INLINE; CREATE INDEX s.c TYPE INLINE; \
                CREATE INDEX s.d TYPE INLINE; CREATE INDEX s.e TYPE INLINE; CREATE INDEX s.f TYPE INLINE; \
                CREATE INDEX s.g TYPE INLINE; CREATE INDEX s.h TYPE INLINE; ",
            ),
            Part::Once(ONE),
            Part::Once("CREATE INDEX n.v TYPE INLINE;"),
        ],
        replies: &[Part::Often("ok\n", 19), Part::Once("no full indexes 8\n")],
    },
    Case {
        shows: "the third hash table is refused",
        script: &[
            Part::Once(EIGHT),
            Part::Once(
                "CREATE INDEX s.a TYPE MEMHASH; CREATE INDEX s.b TYPE MEMHASH; \
                CREATE INDEX s.c TYPE MEMHASH;",
            ),
        ],
        replies: &[
            Part::Often("ok\n", 11),
            Part::Once("no full hashtables 2\n"),
        ],
    },
    Case {
        shows: "the 2,049th row under a hash table is refused",
        script: &[
            Part::Once(ONE),
            Part::Once("CREATE INDEX n.v TYPE MEMHASH;"),
            Part::Often("INSERT (1) INTO n;", 2_049),
        ],
        replies: &[
            Part::Often("ok\n", 2_051),
            Part::Once("no full hashentries 2048\n"),
        ],
    },
];

#[test]
fn one_more_is_refused(rt: HostRuntime) -> Result<(), Fail> {
    expect_each(rt.alloc(), FULL)
}

const SLOTS: &[Case] = &[Case {
    shows: "the 32,769th row is refused",
    script: &[Part::Once(ONE), Part::Often("INSERT (1) INTO n;", 32_769)],
    replies: &[
        Part::Often("ok\n", 32_770),
        Part::Once("no full slots 32768\n"),
    ],
}];

#[test]
fn the_32769th_row_is_refused(rt: HostRuntime) -> Result<(), Fail> {
    expect_each(rt.alloc(), SLOTS)
}
