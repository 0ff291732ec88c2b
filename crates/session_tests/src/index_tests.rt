//! Seeded lists of commands: indexes change no answer.

ghost use Rattle.std.specs.Prelude.{◌<◌, ◌≤◌};
ghost use Rattle.session_model.specs.Queries.{IsWellFormed};

use crate::told::{carry_out, read, started};
use afl_base::Files;
use afl_sim::{MemSink, PlainFiles};
use antelope_engine::{Outcome, Session};
use arrayvec::ArrayVec;
use db_model::Command;
use std::test::Fail;

// Two relations with an attribute of one name.
const RELATIONS: &[&[u8]] = &[
    b"CREATE RELATION s",
    b"CREATE ATTRIBUTE k DOMAIN INT IN s",
    b"CREATE ATTRIBUTE v DOMAIN LONG IN s",
    b"CREATE RELATION r",
    b"CREATE ATTRIBUTE k DOMAIN LONG IN r",
    b"CREATE ATTRIBUTE w DOMAIN INT IN r",
];

// What every list has; each # is a digit, and each @ the number of a cursor.
const COMMANDS: &[&[u8]] = &[
    b"INSERT (#, #) INTO s",
    b"INSERT (#, #) INTO s",
    b"INSERT (1#, #) INTO s",
    b"INSERT (#, 2#) INTO s",
    b"INSERT (#, #) INTO r",
    b"CREATE INDEX s.k TYPE INLINE",
    b"CREATE INDEX s.k TYPE MAXHEAP",
    b"CREATE INDEX s.k TYPE MEMHASH",
    b"CREATE INDEX s.v TYPE MAXHEAP",
    b"CREATE INDEX r.k TYPE MEMHASH",
    b"REMOVE INDEX s.k",
    b"REMOVE INDEX s.v",
    b"SELECT k, v FROM s WHERE k = #",
    b"SELECT v FROM s WHERE v = # AND k >= #",
    b"SELECT k FROM s WHERE k > # AND k <= 1#",
    b"SELECT k FROM s WHERE # < k AND 1# >= k",
    b"SELECT k, v FROM s WHERE k = # OR v = #",
    b"SELECT COUNT(v), SUM(v), MIN(v), MAX(k), MEAN(v), MEDIAN(k) FROM s WHERE v <> #",
    b"JOIN s, r ON k PROJECT k, v, w",
    b"OPEN @ SELECT v, k FROM s WHERE v = #",
    b"OPEN @ JOIN r, s ON k PROJECT v, w",
    b"FETCH @",
    b"CLOSE @",
    b"REMOVE FROM s WHERE k = # AND v < #",
    b"PACK s",
];

// A number from a seed, and the next seed.
fn drawn(seed: &mut u32, below: u32) -> u32
    requires { 1 ≤ below }
    ensures { result < below }
{
    *seed = seed.wrapping_mul(1_664_525).wrapping_add(1_013_904_223);
    (*seed >> 16) % below
}

// A command of the list: every third is one of the four that it has more of.
fn chosen<'a>(common: &[&'a [u8]], more: &[&'a [u8]], seed: &mut u32) -> Option<&'a [u8]> {
    let (from, number) = if drawn(seed, 3) == 0 {
        (more, drawn(seed, 4))
    } else {
        (common, drawn(seed, 25))
    };
    from.get(number as usize).copied()
}

// A command of which each # is a digit from a seed, and each @ a digit from 1 to 4.
fn filled(template: &[u8], seed: &mut u32) -> ArrayVec<u8, 128> {
    let mut text = ArrayVec::new();
    for byte in template {
        if text.len() < 128 {
            text.push(match *byte {
                b'#' => b'0' + drawn(seed, 10) as u8,
                b'@' => b'1' + drawn(seed, 4) as u8,
                other => other,
            });
        }
    }
    text
}

// What is written of a reply of at most 4,096 bytes, and what it came to.
fn told<V: Files>(
    session: &mut Session<V>,
    command: &Command,
    room: &mut [u8; 4096],
) -> Option<(usize, Outcome)>
    requires { IsWellFormed command.now }
{
    let mut out = MemSink::new(&mut room[..], None);
    let outcome = carry_out(session, command, &mut out)?;
    Some((out.written().len(), outcome))
}

// Whether a command is of indexes, which one of the two sessions has alone.
fn is_of_indexes(command: &Command) -> bool {
    matches!(
        command,
        Command::CreateIndex { .. } | Command::RemoveIndex { .. }
    )
}

// Whether a command changes rows, which an index may refuse.
fn is_change(command: &Command) -> bool {
    matches!(
        command,
        Command::Insert { .. } | Command::RemoveFrom { .. } | Command::Pack { .. }
    )
}

// Whether a command is answered alike with indexes and without. A change that is refused with them
// is not made without them.
fn is_alike<V: Files>(
    indexed: &mut Session<V>,
    plain: &mut Session<V>,
    command: &Command,
    left: &mut [u8; 4096],
    right: &mut [u8; 4096],
) -> bool
    requires { IsWellFormed command.now }
{
    let Some((wrote, outcome)) = told(indexed, command, left) else {
        return false;
    };
    if is_of_indexes(command) || outcome == Outcome::Refused && is_change(command) {
        return true;
    }
    let Some((also, _)) = told(plain, command, right) else {
        return false;
    };
    match (left.get(..wrote), right.get(..also)) {
        (Some(left), Some(right)) => left == right,
        _ => false,
    }
}

// Command number k of a list, which begins with those that make the relations.
fn nth_command(k: usize, more: &[&[u8]], seed: &mut u32) -> ArrayVec<u8, 128> {
    match RELATIONS.get(k) {
        Some(text) => filled(text, seed),
        None => match chosen(COMMANDS, more, seed) {
            Some(text) => filled(text, seed),
            None => ArrayVec::new(),
        },
    }
}

// Whether a list of 40 commands is answered alike.
fn are_alike<V: Files>(
    indexed: &mut Session<V>,
    plain: &mut Session<V>,
    seed: u32,
    more: &[&[u8]],
) -> bool {
    let mut seed = seed;
    let mut command = Command::FetchCursor { number: 0 };
    let mut left = [0; 4096];
    let mut right = [0; 4096];
    for k in 0..46usize {
        let text = nth_command(k, more, &mut seed);
        if read(text.as_slice(), &mut command).is_err()
            || !is_alike(indexed, plain, &command, &mut left, &mut right)
        {
            return false;
        }
    }
    true
}

// Whether the list of a seed is answered alike.
fn is_list_alike(seed: u32, more: &[&[u8]]) -> bool {
    match (
        started(PlainFiles::<4064>::new()),
        started(PlainFiles::<4064>::new()),
    ) {
        (Some(mut indexed), Some(mut plain)) => are_alike(&mut indexed, &mut plain, seed, more),
        _ => false,
    }
}

// The first of 250 lists that is not answered alike.
fn first_unlike(first: u32, more: &[&[u8]]) -> Option<u32> {
    for list in 0..250u32 {
        if !is_list_alike(first.wrapping_add(list), more) {
            return Some(list);
        }
    }
    None
}

// 250 lists are answered alike.
fn lists_are_alike(first: u32, more: &[&[u8]]) -> Result<(), Fail> {
    match first_unlike(first, more) {
        None => Ok(()),
        Some(list) => Err(Fail::new(list)),
    }
}

const BETWEEN_BOUNDS: &[&[u8]] = &[
    b"CREATE INDEX s.k TYPE INLINE",
    b"INSERT (2#, #) INTO s",
    b"INSERT (3#, #) INTO s",
    b"SELECT k, v FROM s WHERE k >= # AND k < 3#",
];

#[test]
fn rows_between_bounds_are_the_same_by_the_order_of_their_keys() -> Result<(), Fail> {
    lists_are_alike(0, BETWEEN_BOUNDS)
}

const BY_TREES: &[&[u8]] = &[
    b"CREATE INDEX s.k TYPE MAXHEAP",
    b"CREATE INDEX s.v TYPE MAXHEAP",
    b"SELECT k FROM s WHERE v = #",
    b"SELECT v FROM s WHERE k = # AND v > #",
];

#[test]
fn rows_of_a_key_are_the_same_by_hash_trees() -> Result<(), Fail> {
    lists_are_alike(250, BY_TREES)
}

const BY_TABLES: &[&[u8]] = &[
    b"CREATE INDEX s.v TYPE MEMHASH",
    b"CREATE INDEX r.k TYPE MEMHASH",
    b"SELECT k FROM s WHERE v = #",
    b"SELECT w FROM r WHERE k = #",
];

#[test]
fn rows_of_a_key_are_the_same_by_hash_tables() -> Result<(), Fail> {
    lists_are_alike(500, BY_TABLES)
}

const AGGREGATES: &[&[u8]] = &[
    b"CREATE INDEX s.v TYPE MAXHEAP",
    b"SELECT COUNT(k), SUM(k), MEAN(v) FROM s WHERE k = #",
    b"SELECT MEDIAN(v), MIN(k), MAX(v) FROM s WHERE k > #",
    b"SELECT MEDIAN(k) FROM s WHERE v = #",
];

#[test]
fn aggregates_are_the_same_by_indexes() -> Result<(), Fail> {
    lists_are_alike(750, AGGREGATES)
}

const JOINS: &[&[u8]] = &[
    b"INSERT (#, #) INTO r",
    b"CREATE INDEX s.k TYPE MAXHEAP",
    b"JOIN r, s ON k PROJECT w, v",
    b"JOIN s, r ON k PROJECT v, w, k",
];

#[test]
fn joins_are_the_same_by_indexes() -> Result<(), Fail> {
    lists_are_alike(1000, JOINS)
}

const OPEN_SELECTS: &[&[u8]] = &[
    b"OPEN @ SELECT k FROM s WHERE k = #",
    b"OPEN @ SELECT v FROM s WHERE k > #",
    b"FETCH @",
    b"FETCH @",
];

#[test]
fn cursors_of_one_relation_are_the_same_by_indexes() -> Result<(), Fail> {
    lists_are_alike(1250, OPEN_SELECTS)
}

const OPEN_JOINS: &[&[u8]] = &[
    b"INSERT (#, #) INTO r",
    b"OPEN @ JOIN s, r ON k PROJECT k, v, w",
    b"FETCH @",
    b"FETCH @",
];

#[test]
fn cursors_of_joins_are_the_same_by_indexes() -> Result<(), Fail> {
    lists_are_alike(1500, OPEN_JOINS)
}

const REMOVALS: &[&[u8]] = &[
    b"REMOVE FROM s WHERE v = #",
    b"REMOVE FROM r WHERE k < #",
    b"REMOVE INDEX s.k",
    b"CLOSE @",
];

#[test]
fn rows_that_are_left_are_the_same_by_indexes() -> Result<(), Fail> {
    lists_are_alike(1750, REMOVALS)
}
