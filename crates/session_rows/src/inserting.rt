//! INSERT.

#![tactic(auto)]

ghost use Rattle.std.specs.Prelude.{◌≡◌, ◌≤◌, ◌⊎◌, ℕ, IfOk, IsTrue, None, OnErr, OnOk, Some, get_or};
ghost use Rattle.afl_base.specs.CutFiles.{CutLeaves, MendsToState};
ghost use Rattle.afl_base.specs.Keeping.{Changes};
ghost use Rattle.afl_base.specs.Asked.{asks_few};
ghost use Rattle.afl_base.specs.Sparing.{WantsNothing};
ghost use Rattle.db_model.specs.declared.commands.Command.TheVariants as command;
ghost use Rattle.db_model.specs.Database.{Database};
ghost use Rattle.db_model.specs.Step.{insert_into, slots_limit};
ghost use Rattle.tuple_file.specs.Tuples.{slots};
ghost use Rattle.session_model.specs.Answers.{Changed, OnNoSpace, OnNothing, SparesDone};
ghost use Rattle.session_model.specs.Frames.{WantsRow};
ghost use Rattle.session_model.specs.Indexed.{AreAllowed, infos_of};
ghost use Rattle.session_model.specs.Carried.{Carries, Runs};
ghost use Rattle.session_model.specs.Running.{IsRunning};
ghost use Rattle.session_model.specs.View.{relation_of_rows, view};
ghost use Rattle.session_rows.specs.Changes.{RelationGrows, RunsOn};
ghost use Rattle.session_rows.specs.CutRows.{MayChange};
ghost use Rattle.session_rows.specs.Ready.{IsDatabaseWith, TakesRow};

use crate::adding::add_row;
use crate::finding::{Target, relation_at};
use crate::refusing::refused_row;
use afl_base::{Failed, FileError, Files, SlotNo};
use db_model::{Ident, Refusal, Tuple};
use index_set::{HashTables, Indexes};
use session_model::{Answer, Base, Held, Open, find_relation, indexes_of};
use tuple_file::Tuples;

/// Puts a row after the others of a relation: room for it and for its keys is made before any of it
/// is written. What a cut leaves mends to a database with the row or without it.
// Not inlined, so that its rows are on the stack of no other command.
#[inline(never)]
pub fn insert<V: Files>(
    base: &mut Base<V>,
    values: &Tuple,
    relation: &Ident,
) -> Result<Answer, Failed>
    requires running { Runs V.Files base.old }
    ensures carried { Carries V.Files (command.Insert values.now relation.now) base.old base.new result }
{
    let held = &base.held;
    let Some(k) = find_relation(&held.relations, relation) else {
        return Ok(Answer::Refused(Refusal::NoRelation));
    };
    let tuples = relation_at(&held.relations, k);
    let target = Target {
        slot: k as u16,
        tuples,
    };
    let answer = insert_at(
        &mut base.files,
        &mut base.tables,
        held,
        &base.opens[..],
        &target,
        values,
    )?;
    Ok(answer)
}

// Puts a row after the others of a relation that is held.
fn insert_at<V: Files>(
    files: &mut V,
    tables: &mut HashTables,
    held: &Held,
    opens: &[Option<Open>],
    target: &Target,
    values: &Tuple,
) -> Result<Answer, Failed>
    requires running { IsRunning (V.state files.old) tables.old held.now opens.now }
    requires there { get_or held.now.relations target.now.slot None ≡ Some target.now.tuples.now }
    ensures changed { let old = (V.state files.old).files in let new = (V.state files.new).files in
        IsTrue (V.state files.old).tells → IfOk result (λ answer.
        Changed
        (insert_into values.now target.now.slot (view old held.now opens.now) (relation_of_rows old target.now.tuples.now))
        (relation_of_rows old target.now.tuples.now) (relation_of_rows new target.now.tuples.now) answer) }
    ensures goes_on { OnOk result
        (RunsOn (V.state files.old) (V.state files.new) tables.new held.now opens.now target.now.slot) }
    ensures wants { let asks = asks_few (V.asks files.new) (V.state files.new).files in
        let infos = infos_of target.now.slot target.now.tuples.now held.now.indexes in
        IsTrue (V.state files.old).tells → OnNoSpace result (λ need.
        WantsRow asks (V.state files.new) target.now.tuples.now infos values.now need) }
    ensures lacks { OnNoSpace result (λ need. V.lacks files.new need) }
    ensures spares { let wants = WantsRow (V.asks files.old) (V.state files.old) target.now.tuples.now in
        SparesDone V.is_free (WantsNothing (wants (infos_of target.now.slot target.now.tuples.now held.now.indexes) values.now))
        (V.state files.old) (V.state files.new) result }
    ensures cut { let old = V.state files.old in let r = relation_of_rows old.files target.now.tuples.now in
        let infos = infos_of target.now.slot target.now.tuples.now held.now.indexes in
        let made = insert_into values.now target.now.slot (view old.files held.now opens.now) r in
        CutLeaves V.cuts V.mends V.state files.old files.new (OnErr result)
        (λ after. MayChange old after tables.old target.now.tuples.now infos made) }
    ensures untouched { OnNothing result (V.state files.new ≡ V.state files.old) }
    ensures frame { Changes V.state V.lent V.reads V.faults files.old files.new result }
{
    let indexes = indexes_of(&held.indexes, target.slot, target.tuples);
    let answer = insert_row(files, tables, held.version, target.tuples, &indexes, values)?;
    Ok(answer)
}

// Puts a row after the others of a relation with these indexes.
fn insert_row<V: Files>(
    files: &mut V,
    tables: &mut HashTables,
    version: u8,
    tuples: &Tuples,
    indexes: &Indexes,
    values: &Tuple,
) -> Result<Answer, Failed>
    requires version { (version ≡ 1) ⊎ (version ≡ 2) }
    requires few { slots (V.state files.old).files tuples.now ≤ slots_limit version }
    requires ready { let count = slots (V.state files.old).files tuples.now in
        TakesRow (V.state files.old) tables.old tuples.now indexes.now count }
    requires allowed { AreAllowed tuples.now.schema.attributes indexes.now }
    ensures changed { let old = (V.state files.old).files in let new = (V.state files.new).files in
        IsTrue (V.state files.old).tells → IfOk result (λ answer. (k : ℕ) (db : Database)
        → IsDatabaseWith version k indexes.now db
        → Changed (insert_into values.now k db (relation_of_rows old tuples.now))
        (relation_of_rows old tuples.now) (relation_of_rows new tuples.now) answer) }
    ensures grows { OnOk result (RelationGrows (V.state files.old) (V.state files.new)
        tables.old tables.new tuples.now indexes.now) }
    ensures few { OnOk result (slots (V.state files.new).files tuples.now ≤ slots_limit version) }
    ensures wants { let asks = asks_few (V.asks files.new) (V.state files.new).files in
        IsTrue (V.state files.old).tells → OnNoSpace result (λ need.
        WantsRow asks (V.state files.new) tuples.now indexes.now values.now need) }
    ensures lacks { OnNoSpace result (λ need. V.lacks files.new need) }
    ensures spares { let wants = WantsRow (V.asks files.old) (V.state files.old) tuples.now in
        SparesDone V.is_free (WantsNothing (wants indexes.now values.now)) (V.state files.old) (V.state files.new) result }
    ensures cut { let old = V.state files.old in let r = relation_of_rows old.files tuples.now in
        IsTrue V.cuts → IsTrue old.tells → OnErr result ((k : ℕ) (db : Database)
        → IsDatabaseWith version k indexes.now db → MendsToState V.mends (V.state files.new).store
        (λ after. MayChange old after tables.old tuples.now indexes.now (insert_into values.now k db r))) }
    ensures untouched { OnNothing result (V.state files.new ≡ V.state files.old) }
    ensures frame { Changes V.state V.lent V.reads V.faults files.old files.new result }
{
    if let Some(refusal) = refused_row(files, version, tables, tuples, indexes, values)? {
        return Ok(Answer::Refused(refusal));
    }
    let Some(slot) = SlotNo::new(tuples.count(files)) else {
        unreachable!()
    };
    match add_row(files, tables, tuples, indexes, values, slot) {
        Ok(()) => Ok(Answer::Fine),
        Err(FileError::Space { need }) => Ok(Answer::NoSpace(need)),
        Err(FileError::Failed) => Err(Failed),
    }
}
