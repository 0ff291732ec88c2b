//! REMOVE RELATION.

#![tactic(auto)]

ghost use Rattle.std.specs.Prelude.{◌≡◌, ◌*◌, ◌≤◌, Err, IfNone, IfSome, IsErrOf, IsSome, IsTrue, None, Ok, OnOk, Some, [], get_or, length, map, option_map};
ghost use Rattle.afl_base.specs.CutFiles.{CutLeaves};
ghost use Rattle.afl_base.specs.Keeping.{ChangesOrLacks};
ghost use Rattle.afl_base.specs.FileErrors.{OnSpace, WhereFailed};
ghost use Rattle.afl_base.specs.Files.{IsNamed, IsUnnamed, KeepsBytes, Table};
ghost use Rattle.afl_base.specs.Sparing.{SparesWhere};
ghost use Rattle.db_model.specs.declared.commands.Command.TheVariants as command;
ghost use Rattle.db_model.specs.Database.{reader_from, with_relation};
ghost use Rattle.db_model.specs.Sound.{IsSoundDatabase};
ghost use Rattle.session_model.specs.Carried.{Carries, IsEither, Runs};
ghost use Rattle.session_model.specs.Frames.{AsksNoExtent};
ghost use Rattle.session_model.specs.Running.{HasCatalogFile, IsRunning};
ghost use Rattle.session_model.specs.View.{cursor_in, view};
ghost use Rattle.session_relations.specs.Changes.{AsksRelationSlot, MayTakeSlot, PutsSlot, Shows, changed_at, indexes_on, refuse_removal};
ghost use Rattle.space_model.specs.FileNames.{rows_file};
ghost use Rattle.stored.specs.Mends.{MendsToDatabase};
ghost use Rattle.tuple_file.specs.declared.tuples.Tuples.{Tuples as AnyTuples};

use crate::finding::{Place, find_place, has_index};
use afl_base::{Failed, FileError, FileId, Files};
use catalog::clear_relation;
use db_model::{Ident, Refusal};
use index_set::HashTables;
use session_model::{Answer, Base, Held, Open, least_reader, prepare_catalog};

/// Takes a relation away: its slot first, and then the file of its rows.
// Not inlined, so that what it keeps is on the stack of no other command.
#[inline(never)]
pub fn remove_relation<V: Files>(base: &mut Base<V>, relation: &Ident) -> Result<Answer, Failed>
    requires running { Runs V.Files base.old }
    ensures carried { Carries V.Files (command.RemoveRelation relation.now) base.old base.new result }
{
    let at = match find_place(&base.held, relation) {
        Some(at) => at,
        None => return Ok(Answer::Refused(Refusal::NoRelation)),
    };
    if let Some(refusal) = refusal_of(&base.held, &base.opens[..], &at, relation) {
        return Ok(Answer::Refused(refusal));
    }
    match take_relation(
        &mut base.files,
        &base.tables,
        &mut base.held,
        &base.opens[..],
        &at,
    ) {
        Ok(()) => Ok(Answer::Fine),
        Err(FileError::Space { need }) => Ok(Answer::NoSpace(need)),
        Err(FileError::Failed) => Err(Failed),
    }
}

// Why the relation in a slot is to stay, where a cursor reads it or an index stands on it.
fn refusal_of(held: &Held, opens: &[Option<Open>], at: &Place, name: &Ident) -> Option<Refusal>
    requires { length opens.now ≤ 4 }
    ensures unread { IfNone result ((files : Table)
        → reader_from name.now 1 (map (option_map (cursor_in files)) opens.now) ≡ None) }
    ensures alone { IfNone result (indexes_on at.now.slot held.now.indexes ≡ []) }
    ensures free { IfNone result ((files : Table)
        → refuse_removal (view files held.now opens.now) name.now at.now.slot ≡ Ok tt) }
    ensures refused { IfSome result (λ refusal. (files : Table)
        → refuse_removal (view files held.now opens.now) name.now at.now.slot ≡ Err refusal) }
{
    if let Some(cursor) = least_reader(opens, name) {
        return Some(Refusal::InUse { cursor });
    }
    if has_index(&held.indexes, at.slot) {
        return Some(Refusal::HasIndex);
    }
    None
}

// Empties the slot of a relation that no cursor reads, and takes its rows' file away.
fn take_relation<V: Files>(
    files: &mut V,
    tables: &HashTables,
    held: &mut Held,
    opens: &[Option<Open>],
    at: &Place,
) -> Result<(), FileError>
    requires running { IsRunning (V.state files.old) tables.now held.old opens.now }
    requires cat { held.old.cat ≡ Some at.now.cat }
    requires there { IsSome (get_or held.old.relations at.now.slot None) }
    requires unread { (t : AnyTuples) → get_or held.old.relations at.now.slot None ≡ Some t
        → (files : Table)
        → reader_from t.schema.name 1 (map (option_map (cursor_in files)) opens.now) ≡ None }
    requires alone { indexes_on at.now.slot held.old.indexes ≡ [] }
    ensures made { let old = view (V.state files.old).files held.old opens.now in OnOk result
        (Shows (V.state files.old) (V.state files.new) tables.now held.new opens.now
        (changed_at old at.now.slot None)) }
    ensures kept { OnSpace result (λ _.
        Shows (V.state files.old) (V.state files.new) tables.now held.new opens.now
        (view (V.state files.old).files held.old opens.now)) }
    ensures held { OnSpace result (λ _. held.new ≡ held.old) }
    ensures asked { OnSpace result (λ need.
        AsksRelationSlot (V.asks files.new) (V.state files.new).files at.now.cat at.now.slot need) }
    ensures spares { let asks = AsksNoExtent (V.asks files.old) (V.state files.old).files at.now.cat in
        SparesWhere V.is_free (asks (176 * at.now.slot) 176) (V.state files.old) (V.state files.new) result }
    ensures cut { let old = view (V.state files.old).files held.old opens.now in IsTrue V.cuts
        → IsTrue (V.state files.old).tells → IsSoundDatabase old
        → IsSoundDatabase (changed_at old at.now.slot None) → IsErrOf result FileError.Failed
        → MendsToDatabase V.mends (V.state files.new).store
        (IsEither old (with_relation old at.now.slot None)) }
    ensures frame { ChangesOrLacks V.state V.lent V.reads V.faults V.lacks files.old files.new result }
{
    let rows = match &held.relations[at.slot.number() as usize] {
        Some(tuples) => tuples.file,
        None => unreachable!(),
    };
    take_slot(files, at, rows)?;
    held.relations[at.slot.number() as usize] = None;
    held.version = 2;
    Ok(())
}

// Empties a slot of the catalog, where there is room for it, and then takes away the file of its
// rows.
fn take_slot<V: Files>(files: &mut V, at: &Place, rows: FileId) -> Result<(), FileError>
    requires idle { (V.state files.old).draft ≡ None }
    requires catalog { HasCatalogFile (V.state files.old).files (Some at.now.cat) }
    requires named { IsNamed (V.state files.old).files rows (rows_file at.now.slot) }
    ensures put { OnOk result
        (PutsSlot (V.state files.old) (V.state files.new) at.now.cat at.now.slot None) }
    ensures gone { OnOk result (IsUnnamed (V.state files.new).files (rows_file at.now.slot)) }
    ensures kept { OnSpace result (λ _.
        KeepsBytes (V.state files.old) (V.state files.new) at.now.cat) }
    ensures asked { OnSpace result (λ need.
        AsksRelationSlot (V.asks files.new) (V.state files.new).files at.now.cat at.now.slot need) }
    ensures spares { let asks = AsksNoExtent (V.asks files.old) (V.state files.old).files at.now.cat in
        SparesWhere V.is_free (asks (176 * at.now.slot) 176) (V.state files.old) (V.state files.new) result }
    ensures cut { CutLeaves V.cuts V.mends V.state files.old files.new (WhereFailed result)
        (λ after. MayTakeSlot (V.state files.old) after at.now.cat at.now.slot) }
    ensures frame { ChangesOrLacks V.state V.lent V.reads V.faults V.lacks files.old files.new result }
{
    prepare_catalog(files, at.cat, 176 * u32::from(at.slot.number()), 176)?;
    clear_relation(files, at.cat, at.slot)?;
    files.remove(rows)?;
    Ok(())
}
