//! Cursors of one relation, with all changed between their answers.

ghost use Rattle.std.specs.Prelude.{◌≡◌, None, OnOk};
ghost use Rattle.database_tests.specs.Standing.{IsStanding};

use crate::asked::Asked;
use crate::between::{begin, change_all};
use crate::counting::{CountingFlash, Counts};
use crate::known::{Known, number_of};
use crate::relation::Relation;
use crate::volumes::mounted;
use afl_base::Files;
use afl_sim::MemFlash;
use cursor::{SelectCursor, none_begun};
use db_model::Tuple;
use index_set::HashTables;
use lvm::Code;
use std::test::Fail;

fn code_for(relation: &Relation, asked: Asked) -> Result<Code, Fail> {
    let mut code = Code::none();
    match code.compile(&asked.condition(), &relation.tuples.schema, 0) {
        Ok(()) => Ok(code),
        Err(_) => Err(Fail::new("the condition is refused")),
    }
}

// How many rows a cursor answers. They are those that are known, in order, and all is changed after
// each.
#[tactic(auto, using(crate::proofs::Standing::are_readable, crate::proofs::Standing::on_numbers, crate::proofs::Standing::may_read_on))]
fn count_rows<V: Files>(
    files: &mut V,
    tables: &mut HashTables,
    relation: &Relation,
    known: &mut Known,
    counts: &Counts,
    asked: Asked,
    rests: bool,
) -> Result<u16, Fail>
    requires stands { IsStanding (V.state files.old) tables.old relation.now.tuples relation.now.tree }
    ensures stands { OnOk result (
        IsStanding (V.state files.new) tables.new relation.now.tuples relation.now.tree) }
{
    let slots = relation.tuples.count(files);
    let code = code_for(relation, asked)?;
    let indexes = relation.indexes();
    let mut cursor = SelectCursor {
        tuples: relation.tuples.copy(),
        code,
        candidates: none_begun(),
    };
    cursor.begin(files, tables, &indexes)?;
    if !asked.is_for(&cursor.candidates.search) {
        return Err(Fail::new("another plan is chosen"));
    }
    let mut tuple = Tuple::new();
    let mut from = 0;
    for turn in 0..600u16 {
        let found = number_of(&cursor.next(files, tables, &mut tuple)?);
        if !known.is_next(asked, from, slots, found, &tuple) {
            return Err(Fail::new("another row is answered"));
        }
        let Some(slot) = found else {
            return Ok(turn);
        };
        change_all(files, tables, relation, known, counts)?;
        from = slot.saturating_add(1);
        if rests && turn % 3 == 1 {
            cursor.rest();
        }
    }
    Err(Fail::new("there are too many answers"))
}

// Asks six questions over a relation of 24 rows. In every second the cursor rests between some rows.
fn select_all<V: Files>(files: &mut V, known: &mut Known, counts: &Counts) -> Result<[u16; 6], Fail>
    requires idle { (V.state files.old).draft ≡ None }
{
    let mut tables = HashTables::new();
    let relation = begin(files, &mut tables, known)?;
    let questions = [
        Asked::Nothing,
        Asked::Everything,
        Asked::ThreeL,
        Asked::ThreeLMoreR,
        Asked::LeastR,
        Asked::MiddleK,
    ];
    let mut answers = [0; 6];
    for turn in 0..6usize {
        answers[turn] = count_rows(
            files,
            &mut tables,
            &relation,
            known,
            counts,
            questions[turn],
            turn % 2 == 1,
        )?;
    }
    Ok(answers)
}

#[test]
fn rows_are_selected_while_all_is_changed_between_them(rt: HostRuntime) -> Result<(), Fail> {
    let counts = Counts::new();
    let mut image = vec![in rt.alloc(); 0u8; 98_304]?;
    let flash = MemFlash::new(&mut image).ok_or("no flash")?;
    let mut volume = mounted(CountingFlash::new(flash, &counts))?;
    let mut known = Known::new();
    let answers = select_all(&mut volume, &mut known, &counts)?;
    // None; all rows that there are at first; and of k four rows of each of eight numbers.
    assert_eq!(rt; answers, [0, 24, 9, 5, 12, 32]);
    Ok(())
}
