//! CREATE RELATION.

#![tactic(auto)]

ghost use Rattle.std.specs.Prelude.{◌≡◌, ◌<◌, ◌⊎◌, List, Option, Err, IfErr, IfOk, IsErrOf, IsTrue, None, Ok, OnOk, Some, length};
ghost use Rattle.afl_base.specs.CutFiles.{CutLeaves};
ghost use Rattle.afl_base.specs.Keeping.{ChangesOrLacks};
ghost use Rattle.afl_base.specs.declared.kind.Kind.TheVariants.{Doubling};
ghost use Rattle.afl_base.specs.FileErrors.{OnSpace, WhereFailed};
ghost use Rattle.afl_base.specs.Files.{IsUnnamed, Keeps, KeepsBytes, Table, new_file, place, used};
ghost use Rattle.db_model.specs.declared.commands.Command.TheVariants as command;
ghost use Rattle.db_model.specs.Between.{AreAlike};
ghost use Rattle.db_model.specs.Database.{bare, free_from, with_relation};
ghost use Rattle.db_model.specs.Names.{is_name};
ghost use Rattle.db_model.specs.Sound.{IsSoundDatabase};
ghost use Rattle.db_model.specs.Step as machine;
ghost use Rattle.db_model.specs.Step.{Fine};
ghost use Rattle.space_model.specs.FileNames.{rows_file};
ghost use Rattle.session_model.specs.declared.held.Open.{Open as AnyOpen};
ghost use Rattle.session_model.specs.Carried.{Carries, IsEither, Runs};
ghost use Rattle.session_model.specs.Running.{HasCatalogFile, IsRunning};
ghost use Rattle.session_model.specs.View.{view};
ghost use Rattle.session_model.specs.Wanted.{WantsFew};
ghost use Rattle.session_relations.specs.Changes.{AsksRelationSlot, MayMakeSlot, PutsSlot, Shows, bare_relation, bare_schema, changed_at};
ghost use Rattle.stored.specs.Mends.{MendsToDatabase};

use crate::finding::{Place, free_slot};
use afl_base::{Failed, FileError, FileId, Files, Kind, RelationId};
use catalog::{catalog_file, put_relation, rows_file};
use db_model::{Few, Ident, Pool, Refusal, Schema};
use index_set::HashTables;
use session_model::{Answer, Base, Held, Open, find_relation, prepare_catalog};
use tuple_file::Tuples;

/// Makes an empty relation: the catalog where it is absent, room in it, the file of its rows, and then its slot.
// Not inlined, so that its schemas are on the stack of no other command.
#[inline(never)]
pub fn create_relation<V: Files>(base: &mut Base<V>, name: &Ident) -> Result<Answer, Failed>
    requires running { Runs V.Files base.old }
    ensures carried { Carries V.Files (command.CreateRelation name.now) base.old base.new result }
{
    let slot = match slot_for(&base.held, name) {
        Ok(slot) => slot,
        Err(refusal) => return Ok(Answer::Refused(refusal)),
    };
    match add_relation(
        &mut base.files,
        &base.tables,
        &mut base.held,
        &base.opens[..],
        slot,
        name,
    ) {
        Ok(()) => Ok(Answer::Fine),
        Err(FileError::Space { need }) => Ok(Answer::NoSpace(need)),
        Err(FileError::Failed) => Err(Failed),
    }
}

// The slot for a new relation of that name, or why there is to be none.
fn slot_for(held: &Held, name: &Ident) -> Result<RelationId, Refusal>
    requires { length held.now.relations ≡ 8 }
    ensures slot { IfOk result (λ slot. free_from 0 held.now.relations ≡ Some slot) }
    ensures made { IfOk result (λ slot. (files : Table) (opens : List (Option AnyOpen))
        → machine.create_relation (view files held.now opens) name.now
        ≡ Ok (
          with_relation (view files held.now opens) slot
              (Some (bare_relation name.now)),
          Fine,
        )) }
    ensures refused { IfErr result (λ refusal. (files : Table) (opens : List (Option AnyOpen))
        → machine.create_relation (view files held.now opens) name.now ≡ Err refusal) }
{
    match find_relation(&held.relations, name) {
        Some(_) => return Err(Refusal::Exists),
        None => {}
    }
    match free_slot(&held.relations) {
        Some(slot) => Ok(slot),
        None => Err(Refusal::Full {
            pool: Pool::Relations,
            limit: 8,
        }),
    }
}

// Makes an empty relation in the lowest free slot.
fn add_relation<V: Files>(
    files: &mut V,
    tables: &HashTables,
    held: &mut Held,
    opens: &[Option<Open>],
    slot: RelationId,
    name: &Ident,
) -> Result<(), FileError>
    requires running { IsRunning (V.state files.old) tables.now held.old opens.now }
    requires slot { free_from 0 held.old.relations ≡ Some slot }
    ensures made { let old = view (V.state files.old).files held.old opens.now in OnOk result
        (Shows (V.state files.old) (V.state files.new) tables.now held.new opens.now
        (changed_at old slot (Some (bare_relation name.now)))) }
    ensures kept { OnSpace result (λ _.
        Shows (V.state files.old) (V.state files.new) tables.now held.new opens.now
        (view (V.state files.old).files held.old opens.now)) }
    ensures wants { let new = view (V.state files.new).files held.new opens.now in
        IsTrue (V.state files.old).tells → OnSpace result (λ need.
        WantsFew (V.asks files.new) (V.state files.new).files new
        (command.CreateRelation name.now) need) }
    ensures cut { let old = view (V.state files.old).files held.old opens.now in IsTrue V.cuts
        → IsTrue (V.state files.old).tells → IsSoundDatabase old
        → (IsTrue (is_name name.now) → IsSoundDatabase (changed_at old slot (Some (bare_relation name.now))))
        → IsErrOf result FileError.Failed → MendsToDatabase V.mends (V.state files.new).store
        (IsEither old (with_relation old slot (Some (bare_relation name.now)))) }
    ensures frame { ChangesOrLacks V.state V.lent V.reads V.faults V.lacks files.old files.new result }
{
    let cat = make_catalog(files, tables, held, opens)?;
    let schema = bare_schema(name);
    let file = make_rows(files, &Place { cat, slot }, &schema)?;
    held.relations[slot.number() as usize] = Some(Tuples { file, schema });
    held.version = 2;
    Ok(())
}

// The schema of a relation that has nothing but its name.
fn bare_schema(name: &Ident) -> Schema
    ensures schema { result ≡ bare_schema name.now }
    ensures name { IsTrue (is_name name.now) }
{
    // its bytes are those of a NAME
    let _bytes = name.bytes();
    Schema {
        name: *name,
        attributes: Few::new(),
    }
}

// The file of the catalog, which is made where it is absent.
fn make_catalog<V: Files>(
    files: &mut V,
    tables: &HashTables,
    held: &mut Held,
    opens: &[Option<Open>],
) -> Result<FileId, FileError>
    requires running { IsRunning (V.state files.old) tables.now held.old opens.now }
    ensures cat { IfOk result (λ cat. held.new ≡ record held.old { cat = Some cat }) }
    ensures made { OnOk result
        (Shows (V.state files.old) (V.state files.new) tables.now held.new opens.now
        (view (V.state files.old).files held.old opens.now)) }
    ensures kept { OnSpace result (λ _. Keeps (V.state files.old) (V.state files.new)
        × (held.new ≡ held.old) × (held.old.cat ≡ None)) }
    ensures need { OnSpace result (λ need. need ≡ 6) }
    ensures cut { let old = view (V.state files.old).files held.old opens.now in IsTrue V.cuts
        → IsTrue (V.state files.old).tells → IsSoundDatabase old → IsErrOf result FileError.Failed
        → MendsToDatabase V.mends (V.state files.new).store (λ now. AreAlike now (bare old)) }
    ensures frame { ChangesOrLacks V.state V.lent V.reads V.faults V.lacks files.old files.new result }
{
    if let Some(cat) = held.cat {
        return Ok(cat);
    }
    let cat = files.create(catalog_file(), Kind::Fixed(6))?;
    held.cat = Some(cat);
    Ok(cat)
}

// Makes the file of a new relation's rows, and puts the relation into its slot of the catalog.
fn make_rows<V: Files>(files: &mut V, at: &Place, schema: &Schema) -> Result<FileId, FileError>
    requires idle { (V.state files.old).draft ≡ None }
    requires catalog { HasCatalogFile (V.state files.old).files (Some at.now.cat) }
    requires unnamed { IsUnnamed (V.state files.old).files (rows_file at.now.slot) }
    requires few { used (V.state files.old).files < 32 }
    ensures put { OnOk result
        (PutsSlot (V.state files.old) (V.state files.new) at.now.cat at.now.slot
        (Some schema.now)) }
    ensures file { IfOk result (λ file.
        place (V.state files.new).files file ≡ Some (new_file (rows_file at.now.slot) Doubling)) }
    ensures kept { OnSpace result (λ _.
        KeepsBytes (V.state files.old) (V.state files.new) at.now.cat) }
    ensures asked { OnSpace result (λ need.
        AsksRelationSlot (V.asks files.new) (V.state files.new).files at.now.cat at.now.slot need
        ⊎ (need ≡ 16)) }
    ensures cut { CutLeaves V.cuts V.mends V.state files.old files.new (WhereFailed result)
        (λ after. MayMakeSlot (V.state files.old) after at.now.cat at.now.slot schema.now) }
    ensures frame { ChangesOrLacks V.state V.lent V.reads V.faults V.lacks files.old files.new result }
{
    prepare_catalog(files, at.cat, 176 * u32::from(at.slot.number()), 176)?;
    let file = files.create(rows_file(at.slot), Kind::Doubling)?;
    put_relation(files, at.cat, at.slot, schema)?;
    Ok(file)
}
