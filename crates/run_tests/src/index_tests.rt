//! Indexes of each kind, and what is asked of them.

use crate::cases::{Case, expect_each, expect_on, show};
use crate::image::{contents, has_size, number_at};
use crate::running::{MANY, copied, erased, run, text};
use crate::samples::{BY_MINUTE, SEVENS, THE_TEN, day, made_of};
use std::alloc::Global;
use std::test::Fail;
use test_steps::{ONE, Part, TWO};

const DAY_REPLIES: &[Part] = &[Part::Often("ok\n", 1_445), Part::Once(THE_TEN)];

// Whether ten minutes of a sensor's day are found.
fn day_is_asked(alloc: Global) -> bool {
    let script = day(alloc, BY_MINUTE, 1);
    let replies = text(alloc, DAY_REPLIES);
    let ended = run(alloc, script.as_slice(), erased(alloc, MANY).as_mut_slice());
    ended.is(0, replies.as_slice())
}

#[test]
fn ten_minutes_of_a_day_are_found(rt: HostRuntime) -> Result<(), Fail> {
    show(day_is_asked(rt.alloc()), "the ten minutes")
}

const FOUND: &[Case] = &[
    Case {
        shows: "equal keys are found in order",
        script: &[
            Part::Once(TWO),
            Part::Once(
                "CREATE INDEX s.k TYPE INLINE; INSERT (1, '') INTO s; INSERT (2, '') INTO s; \
                INSERT (2, '') INTO s; INSERT (2, '') INTO s; INSERT (5, '') INTO s; \
                SELECT k FROM s WHERE k >= 2 AND k <= 2;",
            ),
        ],
        replies: &[Part::Often("ok\n", 9), Part::Once("2\n2\n2\nrows 3\n")],
    },
    Case {
        shows: "a row that one index refuses is in none",
        script: &[Part::Once(
            "CREATE RELATION q; CREATE ATTRIBUTE k DOMAIN LONG IN q; CREATE ATTRIBUTE m DOMAIN LONG IN q; \
            CREATE INDEX q.k TYPE INLINE; CREATE INDEX q.m TYPE MAXHEAP; INSERT (50, 9) INTO q; \
            INSERT (49, 8) INTO q; SELECT k FROM q WHERE m = 8; SELECT k FROM q WHERE m = 9;",
        )],
        replies: &[Part::Once("ok\nok\nok\nok\nok\nok\nno ordered 50\nrows 0\n50\nrows 1\n")],
    },
    Case {
        shows: "a hash table finds equal keys and no two at once",
        script: &[
            Part::Once(ONE),
            Part::Once(
                "CREATE INDEX n.v TYPE MEMHASH; INSERT (4) INTO n; INSERT (5) INTO n; INSERT (4) INTO n; \
                SELECT v FROM n WHERE v = 4 AND v < 9; SELECT COUNT(v) FROM n WHERE v = 4 AND v = 5; \
                PACK n; REMOVE INDEX n.v; PACK n;",
            ),
        ],
        replies: &[
            Part::Often("ok\n", 6),
            Part::Once("4\n4\nrows 2\n0\nrows 1\nno indexed\nok\nok\n"),
        ],
    },
];

#[test]
fn rows_are_found_by_their_keys(rt: HostRuntime) -> Result<(), Fail> {
    expect_each(rt.alloc(), FOUND)
}

// Where the numbers of the path of key 7 stand in a tree, and these numbers: those of five nodes, and of
// three buckets more after the last one's. Each has two bytes; bucket b stands at 683 + 195 * b.
const PATH: &[(usize, u16)] = &[
    (0, 1),
    (8, 2),
    (36, 3),
    (146, 4),
    (586, 5),
    (683 + 195 * 4 + 192, 6),
    (683 + 195 * 5 + 192, 7),
    (683 + 195 * 6 + 192, 8),
    (683 + 195 * 7 + 192, 0),
];

// Whether these numbers stand at their places.
fn has_all(tree: &[u8], numbers: &[(usize, u16)]) -> bool {
    for (at, number) in numbers {
        if number_at(tree, *at) != *number {
            return false;
        }
    }
    true
}

// How many nodes have a bucket.
fn named_nodes(tree: &[u8]) -> u16 {
    let mut named = 0u16;
    for node in 0..341usize {
        if number_at(tree, 2 * node) != 0 {
            named = named.saturating_add(1);
        }
    }
    named
}

const COUNT: Case = Case {
    shows: "256 equal keys are found",
    script: &[Part::Once("SELECT COUNT(v) FROM n WHERE v = 7;")],
    replies: &[Part::Once("256\nrows 1\n")],
};

#[test]
fn a_tree_of_256_equal_keys_is_one_path(rt: HostRuntime) -> Result<(), Fail> {
    let mut image = made_of(rt.alloc(), SEVENS, 259);
    expect_on(rt.alloc(), &COUNT, image.as_mut_slice())?;
    let tree = contents(rt.alloc(), image.as_mut_slice(), "X0");
    show(tree.len() == 2_243, "the tree has eight buckets")?;
    show(has_all(tree.as_slice(), PATH), "the buckets are one path")?;
    show(
        named_nodes(tree.as_slice()) == 5,
        "no other node has a bucket",
    )
}

const PACKED: Case = Case {
    shows: "an index keeps its relation from being packed",
    script: &[
        Part::Once(TWO),
        Part::Once(
            "CREATE INDEX s.k TYPE MAXHEAP; INSERT (1, 'a') INTO s; INSERT (2, 'b') INTO s; \
            REMOVE FROM s WHERE k = 1; PACK s; REMOVE INDEX s.k; PACK s; SELECT k FROM s; \
            REMOVE INDEX s.k;",
        ),
    ],
    replies: &[
        Part::Often("ok\n", 6),
        Part::Once("rows 1\nno indexed\nok\nok\n2\nrows 1\nno index\n"),
    ],
};

#[test]
fn an_index_keeps_its_relation_from_being_packed(rt: HostRuntime) -> Result<(), Fail> {
    let mut image = erased(rt.alloc(), MANY);
    expect_on(rt.alloc(), &PACKED, image.as_mut_slice())?;
    let packed = has_size(rt.alloc(), image.as_mut_slice(), "T0", 8);
    show(packed, "the file has the bytes of a row")
}

const MADE: Case = Case {
    shows: "two rows stand under an index",
    script: &[
        Part::Once(TWO),
        Part::Once("CREATE INDEX s.k TYPE INLINE; INSERT (1, 'a') INTO s; INSERT (2, 'b') INTO s;"),
    ],
    replies: &[Part::Often("ok\n", 6)],
};

const REFUSED: Case = Case {
    shows: "a PACK and two inserts are refused",
    script: &[Part::Once("PACK s; INSERT (1, 'c') INTO s; INSERT (3, 'long') INTO s;")],
    replies: &[Part::Once("no indexed\nno ordered 2\nno value 2\n")],
};

#[test]
fn a_refused_command_leaves_the_image_byte_for_byte(rt: HostRuntime) -> Result<(), Fail> {
    let mut image = erased(rt.alloc(), MANY);
    expect_on(rt.alloc(), &MADE, image.as_mut_slice())?;
    let before = copied(rt.alloc(), image.as_slice());
    expect_on(rt.alloc(), &REFUSED, image.as_mut_slice())?;
    show(image.as_slice() == before.as_slice(), "the image stays")
}
