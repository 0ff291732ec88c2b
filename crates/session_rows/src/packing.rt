//! PACK.

#![tactic(auto)]

ghost use Rattle.std.specs.Prelude.{◌≡◌, IfOk, IfSome, IsTrue, None, OnErr, OnOk, Some, get_or};
ghost use Rattle.afl_base.specs.CutFiles.{CutLeaves};
ghost use Rattle.afl_base.specs.Keeping.{Changes};
ghost use Rattle.afl_base.specs.Sparing.{WantsNothing};
ghost use Rattle.db_model.specs.declared.commands.Command.TheVariants as command;
ghost use Rattle.db_model.specs.Database.{relation_named};
ghost use Rattle.db_model.specs.Step.{pack as pack_in};
ghost use Rattle.session_model.specs.Answers.{Changed, OnNoSpace, OnNothing, SparesDone};
ghost use Rattle.session_model.specs.Carried.{Carries, Runs, Tells, database};
ghost use Rattle.session_model.specs.Indexed.{infos_of};
ghost use Rattle.session_model.specs.Running.{IsRunning};
ghost use Rattle.session_model.specs.View.{relation_of_rows, view};
ghost use Rattle.session_rows.specs.Changes.{HasOnlyLiveRows, RunsOn};
ghost use Rattle.session_rows.specs.CutRows.{MayChange};
ghost use Rattle.session_rows.specs.Wanted.{WantsPackedRows};

use crate::finding::relation_at;
use afl_base::{Failed, FileError, Files};
use db_model::{Ident, Refusal};
use index_set::HashTables;
use session_model::{Answer, Base, Held, Open, find_relation, indexes_of, least_reader};
use tuple_file::Tuples;

/// Drops the removed rows of a relation. Where no row is removed, the files are left as they are. What
/// a cut leaves mends to a database with all of the removed rows or with none.
// Not inlined, so that its rows are on the stack of no other command.
#[inline(never)]
pub fn pack<V: Files>(base: &mut Base<V>, relation: &Ident) -> Result<Answer, Failed>
    requires running { Runs V.Files base.old }
    ensures carried { Carries V.Files (command.Pack relation.now) base.old base.new result }
    ensures idle { Tells V.Files base.old
        → IfSome (relation_named (database V.Files base.old) relation.now) (λ found.
        HasOnlyLiveRows found.1 → OnOk result (V.state base.new.files ≡ V.state base.old.files)) }
{
    let held = &base.held;
    let Some(k) = find_relation(&held.relations, relation) else {
        return Ok(Answer::Refused(Refusal::NoRelation));
    };
    let tuples = relation_at(&held.relations, k);
    let answer = pack_at(
        &mut base.files,
        &base.tables,
        held,
        &base.opens[..],
        k as u16,
        tuples,
    )?;
    Ok(answer)
}

// Drops the removed rows of the relation in a slot.
fn pack_at<V: Files>(
    files: &mut V,
    tables: &HashTables,
    held: &Held,
    opens: &[Option<Open>],
    k: u16,
    tuples: &Tuples,
) -> Result<Answer, Failed>
    requires running { IsRunning (V.state files.old) tables.now held.now opens.now }
    requires there { get_or held.now.relations k None ≡ Some tuples.now }
    ensures changed { let old = (V.state files.old).files in let new = (V.state files.new).files in
        IsTrue (V.state files.old).tells → IfOk result (λ answer.
        Changed (pack_in k (view old held.now opens.now) (relation_of_rows old tuples.now))
        (relation_of_rows old tuples.now) (relation_of_rows new tuples.now) answer) }
    ensures goes_on { OnOk result
        (RunsOn (V.state files.old) (V.state files.new) tables.now held.now opens.now k) }
    ensures wants { let new = relation_of_rows (V.state files.new).files tuples.now in
        IsTrue (V.state files.old).tells → OnNoSpace result (λ need. WantsPackedRows new need) }
    ensures lacks { OnNoSpace result (λ need. V.lacks files.new need) }
    ensures spares { let wants = WantsPackedRows (relation_of_rows (V.state files.old).files tuples.now) in
        SparesDone V.is_free (WantsNothing wants) (V.state files.old) (V.state files.new) result }
    ensures cut { let old = V.state files.old in let r = relation_of_rows old.files tuples.now in
        let infos = infos_of k tuples.now held.now.indexes in
        let made = pack_in k (view old.files held.now opens.now) r in
        CutLeaves V.cuts V.mends V.state files.old files.new (OnErr result)
        (λ after. MayChange old after tables.now tuples.now infos made) }
    ensures untouched { OnNothing result (V.state files.new ≡ V.state files.old) }
    ensures idle { IsTrue (V.state files.old).tells
        → HasOnlyLiveRows (relation_of_rows (V.state files.old).files tuples.now)
        → OnOk result (V.state files.new ≡ V.state files.old) }
    ensures frame { Changes V.state V.lent V.reads V.faults files.old files.new result }
{
    if let Some(cursor) = least_reader(opens, &tuples.schema.name) {
        return Ok(Answer::Refused(Refusal::InUse { cursor }));
    }
    if !indexes_of(&held.indexes, k, tuples).is_empty() {
        return Ok(Answer::Refused(Refusal::HasIndex));
    }
    match tuples.pack(files) {
        Ok(()) => Ok(Answer::Fine),
        Err(FileError::Space { need }) => Ok(Answer::NoSpace(need)),
        Err(FileError::Failed) => Err(Failed),
    }
}
