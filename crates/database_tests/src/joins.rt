//! Cursors of two relations, with all changed between their answers.

ghost use Rattle.std.specs.Prelude.{◌≡◌, None, OnOk};
ghost use Rattle.afl_base.specs.Files.{State};
ghost use Rattle.cursor.specs.Pairs.{MayReadPairs};
ghost use Rattle.database_tests.specs.Standing.{IsStanding};

use crate::between::{begin, change_all};
use crate::counting::{CountingFlash, Counts};
use crate::known::Known;
use crate::relation::Relation;
use crate::volumes::mounted;
use afl_base::Files;
use afl_sim::MemFlash;
use cursor::JoinCursor;
use db_model::Tuple;
use index_set::HashTables;
use std::test::Fail;

// Has a cursor rest at one turn of three.
fn rest_at_some(cursor: &mut JoinCursor, rests: bool, turn: u16)
    ensures left { cursor.new.left ≡ cursor.old.left }
    ensures right { cursor.new.right ≡ cursor.old.right }
    ensures indexes { cursor.new.right_indexes ≡ cursor.old.right_indexes }
    ensures may_read { (state : State) → MayReadPairs state cursor.old
        → MayReadPairs state cursor.new }
{
    if rests && turn % 3 == 1 {
        cursor.rest();
    }
}

// How many pairs a cursor answers that joins the relation with itself. They are those that are known,
// in order, and all is changed after each.
#[tactic(auto, using(crate::proofs::Standing::are_readable))]
fn count_pairs<V: Files>(
    files: &mut V,
    tables: &mut HashTables,
    relation: &Relation,
    known: &mut Known,
    counts: &Counts,
    on: u8,
    rests: bool,
) -> Result<u16, Fail>
    requires stands { IsStanding (V.state files.old) tables.old relation.now.tuples relation.now.tree }
{
    let slots = relation.tuples.count(files);
    let left = relation.tuples.copy();
    let right = relation.tuples.copy();
    let mut cursor = JoinCursor::begin(files, left, right, relation.indexes(), on, on);
    let mut one = Tuple::new();
    let mut other = Tuple::new();
    let mut at = 0;
    let mut from = 0;
    for turn in 0..600u16 {
        let found = cursor.next(files, tables, &mut one, &mut other)?;
        let Some((left, right)) = known.next_pair(on, at, from, slots) else {
            if found {
                return Err(Fail::new("a pair is answered behind the last"));
            }
            return Ok(turn);
        };
        if !found || !known.has(left, &one) || !known.has(right, &other) {
            return Err(Fail::new("another pair is answered"));
        }
        change_all(files, tables, relation, known, counts)?;
        at = left;
        from = right.saturating_add(1);
        rest_at_some(&mut cursor, rests, turn);
    }
    Err(Fail::new("there are too many answers"))
}

// Joins a relation of 24 rows with itself.
fn join_on<V: Files>(
    files: &mut V,
    known: &mut Known,
    counts: &Counts,
    on: u8,
    rests: bool,
) -> Result<u16, Fail>
    requires idle { (V.state files.old).draft ≡ None }
{
    let mut tables = HashTables::new();
    let relation = begin(files, &mut tables, known)?;
    count_pairs(files, &mut tables, &relation, known, counts, on, rests)
}

// Joins a relation in an image on each key in turn, and at every second turn the cursor rests between
// some pairs.
fn join_in(image: &mut [u8], counts: &Counts, turn: u8) -> Result<u16, Fail> {
    let flash = MemFlash::new(image).ok_or("no flash")?;
    let mut volume = mounted(CountingFlash::new(flash, counts))?;
    let mut known = Known::new();
    join_on(&mut volume, &mut known, counts, turn / 2, turn % 2 == 1)
}

#[test]
fn pairs_are_joined_while_rows_come_on_both_sides(rt: HostRuntime) -> Result<(), Fail> {
    let counts = Counts::new();
    let mut answers = [0; 6];
    for turn in 0..6u8 {
        let mut image = vec![in rt.alloc(); 0u8; 98_304]?;
        answers[usize::from(turn)] = join_in(&mut image, &counts, turn)?;
    }
    // Of k there are four rows of each of six numbers.
    assert_eq!(rt; answers, [96, 96, 58, 58, 118, 118]);
    Ok(())
}
