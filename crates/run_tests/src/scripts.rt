//! A script of inserts under two indexes and of fetches between them, and its replies.

use crate::running::text;
use std::alloc::{AllocError, Global};
use test_steps::{Part, push_number, push_often};

const SCRIPT: &[Part] = &[
    Part::Once("CREATE RELATION n;CREATE ATTRIBUTE v DOMAIN INT IN n;"),
    Part::Once("CREATE ATTRIBUTE w DOMAIN INT IN n;"),
    Part::Once("CREATE INDEX n.v TYPE MAXHEAP;CREATE INDEX n.w TYPE MEMHASH;"),
    Part::Often("INSERT (7, 1) INTO n;", 40),
    Part::Once("OPEN 1 SELECT v FROM n WHERE v = 7;"),
    Part::Often("INSERT (7, 1) INTO n;", 12),
    Part::Often("FETCH 1;", 41),
];

// The first 58 commands reply `ok`.
const REPLIES: &[Part] = &[
    Part::Often("ok\n", 58),
    Part::Often("7\nrows 1\n", 40),
    Part::Once("rows 0\n"),
];

/// The script: it makes a relation, inserts 40 rows, opens a cursor, inserts 12 rows, and fetches 41
/// times.
pub fn script(alloc: Global) -> Vec<u8> {
    text(alloc, SCRIPT)
}

/// All of its replies.
pub fn replies(alloc: Global) -> Vec<u8> {
    text(alloc, REPLIES)
}

/// How many rows the first so many commands insert.
pub fn rows_after(commands: u16) -> u16 {
    match commands {
        0..=5 => 0,
        6..=45 => commands - 5,
        46 => 40,
        47..=58 => commands - 6,
        _ => 52,
    }
}

fn push_count(alloc: Global, rows: u16) -> Result<Vec<u8>, AllocError> {
    let mut text = Vec::new(alloc);
    push_number(&mut text, rows)?;
    push_often(&mut text, "\nrows 1\n", 1)?;
    Ok(text)
}

/// The reply to a count of all rows.
pub fn count(alloc: Global, rows: u16) -> Vec<u8> {
    match push_count(alloc, rows) {
        Ok(text) => text,
        Err(_) => Vec::new(alloc),
    }
}

/// How many lines a text has.
pub fn lines(text: &[u8]) -> u16 {
    let mut lines = 0u16;
    for byte in text {
        if *byte == b'\n' {
            lines = lines.saturating_add(1);
        }
    }
    lines
}

const WHOLE: &[Part] = &[
    Part::Once(
        "CREATE RELATION n;CREATE ATTRIBUTE v DOMAIN INT IN n;CREATE ATTRIBUTE w DOMAIN LONG IN n;\
        CREATE ATTRIBUTE t DOMAIN STRING(5) IN n;CREATE INDEX n.v TYPE MAXHEAP;\
        CREATE INDEX n.w TYPE INLINE;CREATE RELATION m;CREATE ATTRIBUTE v DOMAIN INT IN m;\
        CREATE INDEX m.v TYPE MEMHASH;INSERT (7) INTO m;INSERT (8) INTO m;",
    ),
    // Forty rows, of which ten at a time have one w, and every third has one v.
    Part::Often(
        "INSERT (7, 10, 'abc') INTO n;INSERT (8, 10, 'abc') INTO n;INSERT (9, 10, 'abc') INTO n;",
        3,
    ),
    Part::Once("INSERT (7, 10, 'abc') INTO n;"),
    Part::Often(
        "INSERT (8, 11, 'abc') INTO n;INSERT (9, 11, 'abc') INTO n;INSERT (7, 11, 'abc') INTO n;",
        3,
    ),
    Part::Once("INSERT (8, 11, 'abc') INTO n;"),
    Part::Often(
        "INSERT (9, 12, 'abc') INTO n;INSERT (7, 12, 'abc') INTO n;INSERT (8, 12, 'abc') INTO n;",
        3,
    ),
    Part::Once("INSERT (9, 12, 'abc') INTO n;"),
    Part::Often(
        "INSERT (7, 13, 'abc') INTO n;INSERT (8, 13, 'abc') INTO n;INSERT (9, 13, 'abc') INTO n;",
        3,
    ),
    Part::Once("INSERT (7, 13, 'abc') INTO n;"),
    Part::Once(
        "SELECT v, t FROM n WHERE v = 7;SELECT v FROM n WHERE w > 5 AND w < 9;\
        SELECT COUNT(v), SUM(w), MIN(v), MAX(w), MEAN(v), MEDIAN(w) FROM n WHERE v + 1 > 2;\
        JOIN n, m ON v PROJECT v, w;JOIN m, n ON v PROJECT t;OPEN 1 SELECT v FROM n WHERE v = 8;\
        OPEN 2 JOIN n, m ON v PROJECT w;FETCH 1;FETCH 2;INSERT (8, 99, 'late') INTO n;FETCH 1;FETCH 2;\
        CLOSE 1;CLOSE 2;REMOVE FROM n WHERE v = 7 OR w < 3;REMOVE INDEX n.v;CREATE INDEX n.v TYPE MAXHEAP;\
        REMOVE INDEX n.v;REMOVE INDEX n.w;PACK n;SELECT COUNT(t) FROM n;REMOVE INDEX m.v;REMOVE FROM m;\
        REMOVE RELATION m;REMOVE RELATION n;SELECT v FROM n",
    ),
];

/// A script with commands of all kinds, over two relations with indexes of all kinds.
pub fn whole_script(alloc: Global) -> Vec<u8> {
    text(alloc, WHOLE)
}
