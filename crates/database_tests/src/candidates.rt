//! Candidates of each plan, with all changed between their answers.

ghost use Rattle.std.specs.Prelude.{◌≡◌, ◌<◌, None, OnOk};
ghost use Rattle.index_set.specs.Tables.{Tables};
ghost use Rattle.database_tests.specs.Standing.{IsStanding};

use crate::asked::Asked;
use crate::between::{begin, change_all};
use crate::counting::{CountingFlash, Counts};
use crate::known::{Known, number_of};
use crate::relation::Relation;
use crate::volumes::mounted;
use afl_base::Files;
use afl_sim::MemFlash;
use index_set::{Candidates, HashTables};
use std::test::Fail;

// How many slots candidates answer. They are those that are known, in order. All is changed after
// each, and after the last.
#[tactic(auto, using(crate::proofs::Standing::are_readable, crate::proofs::Standing::safe_on))]
fn count_answers<V: Files>(
    files: &mut V,
    tables: &mut HashTables,
    relation: &Relation,
    known: &mut Known,
    counts: &Counts,
    asked: Asked,
    rests: bool,
) -> Result<u16, Fail>
    requires stands { IsStanding (V.state files.old) tables.old relation.now.tuples relation.now.tree }
    ensures stands { OnOk result (
        IsStanding (V.state files.new) tables.new relation.now.tuples relation.now.tree) }
{
    let slots = relation.tuples.count(files);
    let indexes = relation.indexes();
    let mut candidates = Candidates::begin(files, tables, &indexes, &asked.ranges(), slots)?;
    if !asked.is_for(&candidates.search) {
        return Err(Fail::new("another plan is chosen"));
    }
    let mut from = 0;
    let mut answers = 0;
    let mut ended = false;
    for turn in 0..600u16 {
        let found = number_of(&candidates.next(files, tables)?);
        if found != known.next(asked, from, slots) {
            return Err(Fail::new("another slot is answered"));
        }
        // After the last slot none is answered once more.
        if ended {
            return Ok(answers);
        }
        change_all(files, tables, relation, known, counts)?;
        match found {
            Some(slot) => {
                from = slot.saturating_add(1);
                answers = turn.saturating_add(1);
            }
            None => {
                from = slots;
                ended = true;
            }
        }
        if rests && turn % 3 == 1 {
            candidates.rest();
        }
    }
    Err(Fail::new("there are too many answers"))
}

// What was seen while questions were asked.
#[derive(Drop)]
struct Seen {
    answers: [u16; 10],
    // The bytes of the rows and of the tree, before the first answer and after the last.
    before: (u32, u32),
    behind: (u32, u32),
}

fn sizes<V: Files>(files: &V, relation: &Relation) -> (u32, u32)
    requires { (tables : Tables)
        × IsStanding (V.state files.now) tables relation.now.tuples relation.now.tree }
{
    (files.size(relation.tuples.file), files.size(relation.tree))
}

// Asks five questions over a relation of 24 rows, each twice: the second time the candidates rest
// between some answers.
fn ask_all<V: Files>(files: &mut V, known: &mut Known, counts: &Counts) -> Result<Seen, Fail>
    requires idle { (V.state files.old).draft ≡ None }
{
    let mut tables = HashTables::new();
    let relation = begin(files, &mut tables, known)?;
    let before = sizes(files, &relation);
    let questions = [
        Asked::Nothing,
        Asked::Everything,
        Asked::MiddleK,
        Asked::ThreeL,
        Asked::LeastR,
    ];
    let mut answers = [0; 10];
    for turn in 0..10usize {
        answers[turn] = count_answers(
            files,
            &mut tables,
            &relation,
            known,
            counts,
            questions[turn / 2],
            turn % 2 == 1,
        )?;
    }
    let behind = sizes(files, &relation);
    Ok(Seen {
        answers,
        before,
        behind,
    })
}

// Whether the files had the bytes of 24 rows and of their tree, and those of the rows and of the tree
// outgrow their first 16 pages.
fn has_grown(seen: &Seen, known: &Known) -> bool {
    let rows = u32::from(known.count());
    if rows > 600 || seen.before != (480, 878) || seen.behind.0 != 20 * rows {
        return false;
    }
    4_064 < seen.behind.0 && 4_064 < seen.behind.1
}

// Whether a sector was erased for each row but the first 24.
fn has_erased(counts: &Counts, known: &Known) -> bool {
    u32::from(known.count()) <= counts.erased.get().saturating_add(24)
}

// Asks all questions over the files of an image.
fn ask_in(image: &mut [u8], known: &mut Known, counts: &Counts) -> Result<Seen, Fail> {
    let flash = MemFlash::new(image).ok_or("no flash")?;
    let mut volume = mounted(CountingFlash::new(flash, counts))?;
    ask_all(&mut volume, known, counts)
}

#[test]
fn slots_are_answered_while_all_is_changed_between_them(rt: HostRuntime) -> Result<(), Fail> {
    let counts = Counts::new();
    let mut image = vec![in rt.alloc(); 0u8; 98_304]?;
    let mut known = Known::new();
    let seen = ask_in(&mut image, &mut known, &counts)?;
    // None; all rows that there are; and of each k four.
    assert_eq!(rt; seen.answers, [0, 0, 26, 53, 32, 32, 35, 48, 52, 63]);
    assert!(rt; has_grown(&seen, &known));
    // A row was added and a sector erased after each answer.
    assert!(rt; has_erased(&counts, &known));
    Ok(())
}
