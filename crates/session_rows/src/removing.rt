//! REMOVE FROM.

#![tactic(auto)]

ghost use Rattle.std.specs.Prelude.{◌≡◌, IfOk, IsOk, IsTrue, None, OnErr, OnOk, Some, get_or};
ghost use Rattle.afl_base.specs.CutFiles.{CutLeaves, MendsToState};
ghost use Rattle.afl_base.specs.Keeping.{Changes};
ghost use Rattle.afl_base.specs.Asked.{asks_few};
ghost use Rattle.afl_base.specs.Sparing.{TakesNoPage, WantsNothing};
ghost use Rattle.db_model.specs.declared.commands.Command.TheVariants as command;
ghost use Rattle.db_model.specs.Cond.{IsCondition, condition_of};
ghost use Rattle.db_model.specs.Step.{remove_from as remove_in};
ghost use Rattle.tuple_file.specs.Tuples.{rows, slots};
ghost use Rattle.session_model.specs.Answers.{Changed, OnDone, OnNoSpace, OnNothing, SparesDone};
ghost use Rattle.session_model.specs.Carried.{Carries, Runs};
ghost use Rattle.session_model.specs.Running.{IsRunning};
ghost use Rattle.session_model.specs.View.{relation_of_rows, view};
ghost use Rattle.session_rows.specs.Changes.{ReplacesRows, RunsOn};
ghost use Rattle.session_rows.specs.CutRows.{MayRemove};
ghost use Rattle.session_rows.specs.Removals.{IsRemoval};
ghost use Rattle.session_rows.specs.Wanted.{OfCode, WantsRemovalBy};
ghost use Rattle.session_rows.specs.Ready.{MaySelect};

use crate::finding::{Target, relation_at};
use crate::marking::remove_selected;
use crate::selecting::select_slots;
use afl_base::{Failed, FileError, Files};
use cursor::{SelectCursor, none_begun};
use db_model::{Condition, Ident, Refusal};
use index_set::{HashTables, Indexes};
use lvm::Code;
use session_model::{Answer, Base, Held, Open, find_relation, indexes_of, least_reader};
use tuple_file::Tuples;

/// Removes the live rows that satisfy a condition: up to 29 are marked one by one, and more are
/// written anew in one draft. What a cut leaves mends to a database in which all of them are removed
/// or none, or, of up to 29, those in the first slots.
// Not inlined, so that its cursor is on the stack of no other command.
#[inline(never)]
pub fn remove_from<V: Files>(
    base: &mut Base<V>,
    relation: &Ident,
    condition: &Condition,
) -> Result<Answer, Failed>
    requires running { Runs V.Files base.old }
    requires condition { IsCondition condition.now }
    ensures carried { Carries V.Files (command.RemoveFrom relation.now condition.now)
        base.old base.new result }
{
    let held = &base.held;
    let Some(k) = find_relation(&held.relations, relation) else {
        return Ok(Answer::Refused(Refusal::NoRelation));
    };
    let tuples = relation_at(&held.relations, k);
    let target = Target {
        slot: k as u16,
        tuples,
    };
    let answer = remove_at(
        &mut base.files,
        &base.tables,
        held,
        &base.opens[..],
        &target,
        condition,
    )?;
    Ok(answer)
}

// Removes the rows of a relation that satisfy a condition.
fn remove_at<V: Files>(
    files: &mut V,
    tables: &HashTables,
    held: &Held,
    opens: &[Option<Open>],
    target: &Target,
    condition: &Condition,
) -> Result<Answer, Failed>
    requires running { IsRunning (V.state files.old) tables.now held.now opens.now }
    requires there { get_or held.now.relations target.now.slot None ≡ Some target.now.tuples.now }
    requires condition { IsCondition condition.now }
    ensures changed { let old = (V.state files.old).files in let new = (V.state files.new).files in
        let made = remove_in (condition_of condition.now) target.now.slot in
        IsTrue (V.state files.old).tells → IfOk result (λ answer.
        Changed (made (view old held.now opens.now) (relation_of_rows old target.now.tuples.now))
        (relation_of_rows old target.now.tuples.now) (relation_of_rows new target.now.tuples.now) answer) }
    ensures goes_on { OnOk result
        (RunsOn (V.state files.old) (V.state files.new) tables.now held.now opens.now target.now.slot) }
    ensures wants { let asks = asks_few (V.asks files.new) (V.state files.new).files in
        IsTrue (V.state files.old).tells → OnNoSpace result
        (WantsRemovalBy asks (V.state files.new) target.now.tuples.now (condition_of condition.now)) }
    ensures lacks { OnNoSpace result (λ need. V.lacks files.new need) }
    ensures accepted { let old = (V.state files.old).files in
        let made = remove_in (condition_of condition.now) target.now.slot in
        OnErr result (IsOk (made (view old held.now opens.now) (relation_of_rows old target.now.tuples.now))) }
    ensures spares { let wants = WantsRemovalBy (V.asks files.old) (V.state files.old) target.now.tuples.now in
        SparesDone V.is_free (WantsNothing (wants (condition_of condition.now))) (V.state files.old) (V.state files.new) result }
    ensures cut { CutLeaves V.cuts V.mends V.state files.old files.new (OnErr result)
        (λ after. MayRemove (V.state files.old) after target.now.tuples.now (condition_of condition.now)) }
    ensures untouched { OnNothing result (V.state files.new ≡ V.state files.old) }
    ensures frame { Changes V.state V.lent V.reads V.faults files.old files.new result }
{
    let schema = &target.tuples.schema;
    let mut cursor = SelectCursor {
        tuples: target.tuples.copy(),
        code: Code::none(),
        candidates: none_begun(),
    };
    if let Err(refusal) = cursor.code.compile(condition, schema, 0) {
        return Ok(Answer::Refused(refusal));
    }
    if let Some(reader) = least_reader(opens, &schema.name) {
        return Ok(Answer::Refused(Refusal::InUse { cursor: reader }));
    }
    let indexes = indexes_of(&held.indexes, target.slot, target.tuples);
    let answer = remove_rows(files, tables, target.tuples, &indexes, &mut cursor)?;
    Ok(answer)
}

// Removes the rows of a relation with these indexes that a cursor selects, which has not begun.
fn remove_rows<V: Files>(
    files: &mut V,
    tables: &HashTables,
    tuples: &Tuples,
    indexes: &Indexes,
    cursor: &mut SelectCursor,
) -> Result<Answer, Failed>
    requires of { cursor.old.tuples ≡ tuples.now }
    requires ready { MaySelect (V.state files.old) tuples.now indexes.now }
    ensures removed { let attributes = tuples.now.schema.attributes in
        let old = rows (V.state files.old).files tuples.now in
        let new = rows (V.state files.new).files tuples.now in
        IsTrue (V.state files.old).tells → IfOk result (λ answer.
        OfCode cursor.old.code (V.state files.old) tables.now tuples.now indexes.now (λ condition.
        IsRemoval attributes condition old new answer)) }
    ensures replaces { OnOk result
        (ReplacesRows (V.state files.old) (V.state files.new) tuples.now) }
    ensures wants { let asks = asks_few (V.asks files.new) (V.state files.new).files in
        IsTrue (V.state files.old).tells → OnNoSpace result (λ need.
        OfCode cursor.old.code (V.state files.old) tables.now tuples.now indexes.now (λ condition.
        WantsRemovalBy asks (V.state files.new) tuples.now condition need)) }
    ensures lacks { OnNoSpace result (λ need. V.lacks files.new need) }
    ensures spares { let old = V.state files.old in IsTrue old.tells → OnDone result
        (OfCode cursor.old.code old tables.now tuples.now indexes.now (λ condition.
        WantsNothing (WantsRemovalBy (V.asks files.old) old tuples.now condition)
        → TakesNoPage V.is_free old.store (V.state files.new).store)) }
    ensures cut { IsTrue V.cuts → IsTrue (V.state files.old).tells → OnErr result
        (OfCode cursor.old.code (V.state files.old) tables.now tuples.now indexes.now (λ condition.
        MendsToState V.mends (V.state files.new).store
        (λ after. MayRemove (V.state files.old) after tuples.now condition))) }
    ensures untouched { OnNothing result (V.state files.new ≡ V.state files.old) }
    ensures frame { Changes V.state V.lent V.reads V.faults files.old files.new result }
{
    cursor.begin(files, tables, indexes)?;
    let selected = select_slots(files, tables, cursor)?;
    match remove_selected(files, tuples, &cursor.code, &selected) {
        Ok(()) => Ok(Answer::Removed(selected.count)),
        Err(FileError::Space { need }) => Ok(Answer::NoSpace(need)),
        Err(FileError::Failed) => Err(Failed),
    }
}
