//! Commands and their replies, over files in memory and over a flash.

use crate::cases::{Case, expect_each};
use std::test::Fail;
use test_steps::{ONE, Part, TWO};

const ROWS: &[Case] = &[
    Case {
        shows: "rows are selected as they were inserted",
        script: &[
            Part::Once(TWO),
            Part::Once("INSERT (5, 'abc') INTO s;INSERT (-1, '') INTO s;SELECT t, k FROM s;"),
        ],
        replies: &[
            Part::Often("ok\n", 5),
            Part::Once("'abc',5\n'',-1\nrows 2\n"),
        ],
    },
    Case {
        shows: "numbers stay within their domain",
        script: &[
            Part::Once(ONE),
            Part::Once(
                "INSERT (-32768) INTO n;INSERT (32767) INTO n;INSERT (32768) INTO n;SELECT v FROM n;",
            ),
        ],
        replies: &[
            Part::Often("ok\n", 4),
            Part::Once("no value 1\n-32768\n32767\nrows 2\n"),
        ],
    },
    Case {
        shows: "the first value that does not suit is named",
        script: &[
            Part::Once(TWO),
            Part::Once(
                "INSERT (1, 'abcd') INTO s;INSERT ('x', 'y') INTO s;INSERT (1) INTO s;\
                INSERT (1, 'a', 2) INTO s;",
            ),
        ],
        replies: &[
            Part::Often("ok\n", 3),
            Part::Once("no value 2\nno value 1\nno value 2\nno value 3\n"),
        ],
    },
    Case {
        shows: "removed rows are dropped by PACK",
        script: &[
            Part::Once(ONE),
            Part::Once(
                "INSERT (0) INTO n;INSERT (1) INTO n;INSERT (2) INTO n;REMOVE FROM n WHERE v = 1;\
                SELECT v FROM n;REMOVE FROM n WHERE v = 1;PACK n;SELECT v FROM n;",
            ),
        ],
        replies: &[
            Part::Often("ok\n", 5),
            Part::Once("rows 1\n0\n2\nrows 2\nrows 0\nok\n0\n2\nrows 2\n"),
        ],
    },
    Case {
        shows: "undefined comparisons are false",
        script: &[
            Part::Once(ONE),
            Part::Once(
                "INSERT (0) INTO n;INSERT (2) INTO n;SELECT v FROM n WHERE 10 / v > 1;\
                SELECT v FROM n WHERE NOT 10 / v > 1;",
            ),
        ],
        replies: &[Part::Often("ok\n", 4), Part::Once("2\nrows 1\n0\nrows 1\n")],
    },
    Case {
        shows: "conditions reckon and compare",
        script: &[
            Part::Once(ONE),
            Part::Once(
                "INSERT (1) INTO n;INSERT (2) INTO n;INSERT (3) INTO n;\
                SELECT v FROM n WHERE v * v - 1 = 3 OR NOT (v < 3);\
                SELECT v FROM n WHERE 'b' < 'ba' AND v <> 2;",
            ),
        ],
        replies: &[
            Part::Often("ok\n", 5),
            Part::Once("2\n3\nrows 2\n1\n3\nrows 2\n"),
        ],
    },
    Case {
        shows: "aggregates of some rows and of none",
        script: &[
            Part::Once(ONE),
            Part::Once(
                "INSERT (4) INTO n;INSERT (1) INTO n;INSERT (3) INTO n;INSERT (2) INTO n;\
                SELECT MEDIAN(v), SUM(v), COUNT(v) FROM n;\
                SELECT MIN(v), SUM(v), COUNT(v) FROM n WHERE v > 9;REMOVE FROM n;\
                INSERT (-3) INTO n;INSERT (-4) INTO n;SELECT MEAN(v) FROM n;",
            ),
        ],
        replies: &[
            Part::Often("ok\n", 6),
            Part::Once("2,10,4\nrows 1\n-,0,0\nrows 1\nrows 4\nok\nok\n-3\nrows 1\n"),
        ],
    },
];

#[test]
fn rows_are_inserted_selected_and_removed(rt: HostRuntime) -> Result<(), Fail> {
    expect_each(rt.alloc(), ROWS)
}

const INDEXED: &[Case] = &[
    Case {
        shows: "equal keys are found in order",
        script: &[
            Part::Once(TWO),
            Part::Once(
                "CREATE INDEX s.k TYPE INLINE;INSERT (1, '') INTO s;INSERT (2, '') INTO s;\
                INSERT (2, '') INTO s;INSERT (2, '') INTO s;INSERT (5, '') INTO s;\
                SELECT k FROM s WHERE k >= 2 AND k <= 2;",
            ),
        ],
        replies: &[Part::Often("ok\n", 9), Part::Once("2\n2\n2\nrows 3\n")],
    },
    Case {
        shows: "a row that one index refuses is in none",
        script: &[Part::Once(
            "CREATE RELATION q;CREATE ATTRIBUTE k DOMAIN LONG IN q;CREATE ATTRIBUTE m DOMAIN LONG IN q;\
            CREATE INDEX q.k TYPE INLINE;CREATE INDEX q.m TYPE MAXHEAP;INSERT (50, 9) INTO q;\
            INSERT (49, 8) INTO q;SELECT k FROM q WHERE m = 8;SELECT k FROM q WHERE m = 9;",
        )],
        replies: &[
            Part::Often("ok\n", 6),
            Part::Once("no ordered 50\nrows 0\n50\nrows 1\n"),
        ],
    },
    Case {
        shows: "a hash tree finds all of 256 equal keys",
        script: &[
            Part::Once(ONE),
            Part::Once("CREATE INDEX n.v TYPE MAXHEAP;"),
            Part::Often("INSERT (7) INTO n;", 256),
            Part::Once("SELECT COUNT(v) FROM n WHERE v = 7;"),
        ],
        replies: &[Part::Often("ok\n", 259), Part::Once("256\nrows 1\n")],
    },
    Case {
        shows: "an index keeps its relation from being packed",
        script: &[
            Part::Once(TWO),
            Part::Once(
                "CREATE INDEX s.k TYPE MAXHEAP;INSERT (1, 'a') INTO s;INSERT (2, 'b') INTO s;\
                REMOVE FROM s WHERE k = 1;PACK s;REMOVE INDEX s.k;PACK s;SELECT k FROM s;\
                REMOVE INDEX s.k;",
            ),
        ],
        replies: &[
            Part::Often("ok\n", 6),
            Part::Once("rows 1\nno indexed\nok\nok\n2\nrows 1\nno index\n"),
        ],
    },
    Case {
        shows: "a hash table serves and goes",
        script: &[
            Part::Once(ONE),
            Part::Once(
                "CREATE INDEX n.v TYPE MEMHASH;INSERT (4) INTO n;INSERT (5) INTO n;INSERT (4) INTO n;\
                SELECT v FROM n WHERE v = 4 AND v < 9;SELECT COUNT(v) FROM n WHERE v = 4 AND v = 5;\
                PACK n;REMOVE INDEX n.v;PACK n;",
            ),
        ],
        replies: &[
            Part::Often("ok\n", 6),
            Part::Once("4\n4\nrows 2\n0\nrows 1\nno indexed\nok\nok\n"),
        ],
    },
];

#[test]
fn rows_are_found_by_their_keys(rt: HostRuntime) -> Result<(), Fail> {
    expect_each(rt.alloc(), INDEXED)
}

// Two relations with rows that meet. Twelve commands.
const JOINED: &str =
    "CREATE RELATION l;CREATE ATTRIBUTE a DOMAIN INT IN l;CREATE ATTRIBUTE x DOMAIN INT IN l;\
    CREATE RELATION r;CREATE ATTRIBUTE a DOMAIN INT IN r;CREATE ATTRIBUTE y DOMAIN INT IN r;\
    INSERT (1, 10) INTO l;INSERT (2, 20) INTO l;INSERT (1, 30) INTO l;\
    INSERT (1, 7) INTO r;INSERT (1, 8) INTO r;INSERT (3, 9) INTO r;";

const FETCHED: &[Case] = &[
    Case {
        shows: "a cursor answers the rows that were there when it was opened",
        script: &[
            Part::Once(TWO),
            Part::Once(
                "INSERT (1, 'a') INTO s;OPEN 1 SELECT k FROM s;INSERT (2, 'b') INTO s;FETCH 1;FETCH 1;\
                SELECT COUNT(k) FROM s;OPEN 1 SELECT k FROM s;REMOVE FROM s;CLOSE 1;REMOVE FROM s;\
                FETCH 1;FETCH 5;",
            ),
        ],
        replies: &[
            Part::Often("ok\n", 6),
            Part::Once("1\nrows 1\nrows 0\n2\nrows 1\n"),
            Part::Once("no open\nno inuse 1\nok\nrows 2\nno cursor\nno cursor\n"),
        ],
    },
    Case {
        shows: "four cursors go on by themselves",
        script: &[
            Part::Once(TWO),
            Part::Once(
                "INSERT (1, 'a') INTO s;OPEN 1 SELECT k FROM s;OPEN 4 SELECT t FROM s;\
                INSERT (2, 'b') INTO s;FETCH 4;FETCH 1;FETCH 1;OPEN 2 SELECT k FROM s;FETCH 2;FETCH 2;\
                REMOVE RELATION s;CLOSE 1;PACK s;FETCH 5;OPEN 2 SELECT k FROM s;CLOSE 3;",
            ),
        ],
        replies: &[
            Part::Often("ok\n", 7),
            Part::Once("'a'\nrows 1\n1\nrows 1\nrows 0\nok\n1\nrows 1\n2\nrows 1\n"),
            Part::Once("no inuse 1\nok\nno inuse 2\nno cursor\nno open\nno cursor\n"),
        ],
    },
    Case {
        shows: "pairs come by left slot and then right slot",
        script: &[
            Part::Once(JOINED),
            Part::Once("JOIN l, r ON a PROJECT x, y;"),
        ],
        replies: &[
            Part::Often("ok\n", 12),
            Part::Once("10,7\n10,8\n30,7\n30,8\nrows 4\n"),
        ],
    },
    Case {
        shows: "a left row behind 256 others finds its pair",
        script: &[
            Part::Once(JOINED),
            Part::Often("INSERT (4, 0) INTO l;", 256),
            Part::Once("INSERT (3, 50) INTO l;JOIN l, r ON a PROJECT x, y;"),
        ],
        replies: &[
            Part::Often("ok\n", 269),
            Part::Once("10,7\n10,8\n30,7\n30,8\n50,9\nrows 5\n"),
        ],
    },
    Case {
        shows: "pairs are fetched as they were when asked for",
        script: &[
            Part::Once(JOINED),
            Part::Once(
                "OPEN 3 JOIN l, r ON a PROJECT a, y;INSERT (1, 5) INTO r;FETCH 3;FETCH 3;FETCH 3;\
                REMOVE FROM r;",
            ),
        ],
        replies: &[
            Part::Often("ok\n", 14),
            Part::Once("1,7\nrows 1\n1,8\nrows 1\n1,7\nrows 1\nno inuse 3\n"),
        ],
    },
];

#[test]
fn rows_and_pairs_are_fetched(rt: HostRuntime) -> Result<(), Fail> {
    expect_each(rt.alloc(), FETCHED)
}

const EIGHT: &str =
    "CREATE RELATION a;CREATE ATTRIBUTE a DOMAIN INT IN a;CREATE ATTRIBUTE b DOMAIN INT IN a;\
    CREATE ATTRIBUTE c DOMAIN INT IN a;CREATE ATTRIBUTE d DOMAIN INT IN a;\
    CREATE ATTRIBUTE e DOMAIN INT IN a;CREATE ATTRIBUTE f DOMAIN INT IN a;\
    CREATE ATTRIBUTE g DOMAIN INT IN a;CREATE ATTRIBUTE h DOMAIN INT IN a;";

const REFUSED: &[Case] = &[
    Case {
        shows: "the ninth relation is refused",
        script: &[Part::Once(
            "CREATE RELATION a;CREATE RELATION b;CREATE RELATION c;CREATE RELATION d;CREATE RELATION e;\
            CREATE RELATION f;CREATE RELATION g;CREATE RELATION h;CREATE RELATION i;",
        )],
        replies: &[Part::Often("ok\n", 8), Part::Once("no full relations 8\n")],
    },
    Case {
        shows: "the ninth attribute is refused",
        script: &[
            Part::Once(EIGHT),
            Part::Once("CREATE ATTRIBUTE i DOMAIN INT IN a;"),
        ],
        replies: &[Part::Often("ok\n", 9), Part::Once("no full attributes 8\n")],
    },
    Case {
        shows: "a row has at most 128 bytes",
        script: &[Part::Once(
            "CREATE RELATION a;CREATE ATTRIBUTE a DOMAIN STRING(32) IN a;\
            CREATE ATTRIBUTE b DOMAIN STRING(32) IN a;CREATE ATTRIBUTE c DOMAIN STRING(32) IN a;\
            CREATE ATTRIBUTE d DOMAIN STRING(32) IN a;",
        )],
        replies: &[Part::Often("ok\n", 4), Part::Once("no full rowbytes 128\n")],
    },
    Case {
        shows: "the third hash table and the ninth index are refused",
        script: &[
            Part::Once(EIGHT),
            Part::Once(
                "CREATE INDEX a.a TYPE INLINE;CREATE INDEX a.b TYPE MEMHASH;CREATE INDEX a.c TYPE MEMHASH;\
                CREATE INDEX a.d TYPE MEMHASH;CREATE INDEX a.d TYPE MAXHEAP;CREATE INDEX a.e TYPE INLINE;\
                CREATE INDEX a.f TYPE INLINE;CREATE INDEX a.g TYPE INLINE;CREATE INDEX a.h TYPE INLINE;\
                CREATE RELATION b;CREATE ATTRIBUTE a DOMAIN INT IN b;CREATE INDEX b.a TYPE INLINE;",
            ),
        ],
        replies: &[
            Part::Often("ok\n", 12),
            Part::Once("no full hashtables 2\n"),
            Part::Often("ok\n", 7),
            Part::Once("no full indexes 8\n"),
        ],
    },
    Case {
        shows: "a condition has at most 32 nodes",
        script: &[
            Part::Once(ONE),
            Part::Once(
                "SELECT v FROM n WHERE NOT v = 1 OR v = 2 OR v = 3 OR v = 4 OR v = 5 OR v = 6 OR v = 7 \
                OR v = 8;",
            ),
            Part::Once(
                "SELECT v FROM n WHERE NOT v = 1 OR NOT v = 2 OR v = 3 OR v = 4 OR v = 5 OR v = 6 \
                OR v = 7 OR v = 8;",
            ),
        ],
        replies: &[
            Part::Often("ok\n", 2),
            Part::Once("rows 0\nno full nodes 32\n"),
        ],
    },
    Case {
        shows: "refusals come in their order",
        script: &[
            Part::Once(TWO),
            Part::Once(
                "SELECT k, z FROM s;SELECT k FROM s WHERE t > 3;SELECT SUM(t) FROM s;SELECT k FROM u;\
                CREATE INDEX s.t TYPE INLINE;CREATE RELATION s;",
            ),
        ],
        replies: &[
            Part::Often("ok\n", 3),
            Part::Once("no attribute 2\nno type 2\nno type 1\nno relation\nno domain\nno exists\n"),
        ],
    },
];

#[test]
fn what_cannot_be_is_refused(rt: HostRuntime) -> Result<(), Fail> {
    expect_each(rt.alloc(), REFUSED)
}
