//! The file of the catalog, repaired slot by slot.

#![tactic(auto)]

ghost use Rattle.std.specs.Prelude.{◌≡◌, ◌≢◌, ◌≤◌, ◌<◌, ◌+◌, ◌-◌, ℕ, List, IfNone, IfSome, IsTrue, None, OnOk, Some, length, slice_get, slice_index};
ghost use Rattle.afl_base.specs.Files.{IsLive, KeepsBytes, Overwrites, size_at};
ghost use Rattle.afl_base.specs.CutFiles.{CutLeaves, OverwritesFront};
ghost use Rattle.afl_base.specs.FileErrors.{OnSpace, WhereFailed};
ghost use Rattle.afl_base.specs.Keeping.{ChangesOrLacks, OnlyReads};
ghost use Rattle.afl_base.specs.declared.kind.Kind.TheVariants.{Fixed};
ghost use Rattle.db_model.specs.declared.schemas.Attribute.{Attribute};
ghost use Rattle.db_model.specs.Catalog.{Index, relation_slot_bytes};
ghost use Rattle.space_model.specs.FileNames.{catalog_file, rows_file};
ghost use Rattle.stored.specs.CutTables.{IsCutTable, IsHalfDone};
ghost use Rattle.stored.specs.Mended.{has_time, is_time_domain, mended_base};
ghost use Rattle.stored.specs.declared.half.Half.{Half};
ghost use Rattle.stored_mend.specs.Complete.{LosesIndex};
ghost use Rattle.stored_mend.specs.Interrupted.{CutMends, IsCutState};
ghost use Rattle.stored_mend.specs.Listed.{HasWrittenCatalog, IsListedTo, IsMarkedHalf, IsMarkedSlot, IsTakenBack, KeepsKnown, LacksTree, indexes_below, relations_below};
ghost use Rattle.stored_mend.specs.Mending.{HasInSlot, IsStrangeSlot, IsWholeCatalog, IsWrittenCatalog, MendsAsBefore, WantsMark};
ghost use Rattle.stored_mend.specs.Reported.{HasNames, IsOn, Reports, SparesSlots, bytes_by_name, with_line};
ghost use Rattle.stored_mend.specs.declared.report.Mended.TheVariants.{Index as IndexLine, Relation as RelationLine};
ghost use Rattle.stored_mend.specs.Trees.{SparesButOne};

use crate::listing::{SIZE_OF_VERSION_1, VERSION_MARK, relation_in, whole_catalog};
use crate::report::{Mended, Report};
use afl_base::{Failed, FileError, FileId, Files, IndexId, Kind, RelationId, regions};
use catalog::{catalog_file, rows_file, tree_file};
use db_model::{Domain, Schema};
use padded::is_zeros;

// An index slot that is not used.
const UNUSED_INDEX: [u8; 8] = [0, 0, 0, 0, 0, 0, 0, 1];

/// Takes a catalog back whose first change was not whole: there was no relation.
pub fn take_back_catalog<V: Files>(files: &mut V, report: &mut Report) -> Result<(), FileError>
    requires idle { (V.state files.old).draft ≡ None }
    ensures idle { OnOk result ((V.state files.new).draft ≡ None) }
    ensures base { OnOk result
        (mended_base (V.state files.new).files ≡ mended_base (V.state files.old).files) }
    ensures kept { OnOk result (MendsAsBefore (V.state files.old) (V.state files.new)) }
    ensures listed { IsCutTable (V.state files.old).files
        → OnOk result (IsTakenBack (V.state files.new).files) }
    ensures cut { IsTrue (V.state files.old).tells
        → IsCutTable (V.state files.old).files
        → CutMends V.cuts V.mends V.state files.new (WhereFailed result)
        (λ db. db ≡ mended_base (V.state files.old).files) }
    ensures space { IsTrue (V.state files.old).tells
        → IsCutTable (V.state files.old).files
        → OnSpace result (λ _. IsCutState (V.state files.new)
        (λ db. db ≡ mended_base (V.state files.old).files)) }
    ensures frame { ChangesOrLacks V.state V.lent V.reads V.faults V.lacks files.old files.new result }
    ensures reported { IsTrue (V.state files.old).tells → OnOk result
        (Reports 1 (V.state files.old) (V.state files.new) report.old.mended report.new.mended) }
{
    let Some(cat) = files.find(catalog_file()) else {
        return Ok(());
    };
    let size = files.size(cat);
    if size == 0 || size >= SIZE_OF_VERSION_1 {
        return Ok(());
    }
    files.remove(cat)?;
    report.add(Mended::Catalog);
    Ok(())
}

// The file of the catalog, where it has a catalog's kind and size. Each file has one of 32 places.
fn written_catalog<V: Files>(files: &V) -> Option<FileId>
    ensures found { IfSome result (λ cat. IsWrittenCatalog (V.state files.now).files cat) }
    ensures none { IfNone result (HasWrittenCatalog (V.state files.now).files → ⊥) }
{
    let cat = whole_catalog(files)?;
    files.live(cat);
    if files.size(cat) > 1_480 {
        return None;
    }
    if files.kind(cat) != Kind::Fixed(6) {
        return None;
    }
    Some(cat)
}

/// Completes the mark of version 2, where a part of it is there.
pub fn complete_mark<V: Files>(files: &mut V, report: &mut Report) -> Result<(), FileError>
    requires idle { (V.state files.old).draft ≡ None }
    ensures idle { OnOk result ((V.state files.new).draft ≡ None) }
    ensures kept { OnOk result (MendsAsBefore (V.state files.old) (V.state files.new)) }
    ensures listed { IsTrue (V.state files.old).tells → IsTakenBack (V.state files.old).files
        → OnOk result (IsListedTo (relations_below 0) (V.state files.new).files) }
    ensures cut { IsTrue (V.state files.old).tells
        → IsTakenBack (V.state files.old).files
        → CutMends V.cuts V.mends V.state files.new (WhereFailed result)
        (λ db. db ≡ mended_base (V.state files.old).files) }
    ensures space { IsTrue (V.state files.old).tells
        → IsTakenBack (V.state files.old).files
        → OnSpace result (λ _. IsCutState (V.state files.new)
        (λ db. db ≡ mended_base (V.state files.old).files)) }
    ensures frame { ChangesOrLacks V.state V.lent V.reads V.faults V.lacks files.old files.new result }
    ensures reported { IsTrue (V.state files.old).tells → OnOk result
        (Reports 1 (V.state files.old) (V.state files.new) report.old.mended report.new.mended) }
{
    let Some(cat) = written_catalog(files) else {
        return Ok(());
    };
    if files.size(cat) == SIZE_OF_VERSION_1 {
        return Ok(());
    }
    write_mark(files, cat, report)?;
    Ok(())
}

// Appends what is missing of the mark.
fn write_mark<V: Files>(files: &mut V, cat: FileId, report: &mut Report) -> Result<(), FileError>
    requires idle { (V.state files.old).draft ≡ None }
    requires catalog { IsWrittenCatalog (V.state files.old).files cat }
    ensures idle { OnOk result ((V.state files.new).draft ≡ None) }
    ensures kept { WantsMark (V.state files.old)
        → OnOk result (MendsAsBefore (V.state files.old) (V.state files.new)) }
    ensures known { OnOk result (KeepsKnown (V.state files.old).files (V.state files.new).files) }
    ensures marked { IsTrue (V.state files.old).tells → WantsMark (V.state files.old)
        → (half : Half) → IsHalfDone (V.state files.old).files half
        → OnOk result (IsMarkedHalf (V.state files.new).files half) }
    ensures cut { IsTrue (V.state files.old).tells → WantsMark (V.state files.old)
        → IsCutTable (V.state files.old).files
        → CutMends V.cuts V.mends V.state files.new (WhereFailed result)
        (λ db. db ≡ mended_base (V.state files.old).files) }
    ensures space { IsTrue (V.state files.old).tells → WantsMark (V.state files.old)
        → IsCutTable (V.state files.old).files
        → OnSpace result (λ _. IsCutState (V.state files.new)
        (λ db. db ≡ mended_base (V.state files.old).files)) }
    ensures frame { ChangesOrLacks V.state V.lent V.reads V.faults V.lacks files.old files.new result }
    ensures reported { IsTrue (V.state files.old).tells
        → OnOk result (Reports 1 (V.state files.old) (V.state files.new) report.old.mended report.new.mended) }
{
    let written = (files.size(cat) - SIZE_OF_VERSION_1) as usize;
    if written == 8 {
        return Ok(());
    }
    files.prepare(cat, 0, 8 - written as u32)?;
    files.append(cat, &VERSION_MARK[written..])?;
    report.add(Mended::Mark);
    Ok(())
}

/// Repairs a relation slot: it is emptied where its name is gone, what stands after its attributes
/// is taken back, and a catalog of version 1 gets the mark where it has a TIME.
pub fn mend_relation<V: Files>(
    files: &mut V,
    slot: u16,
    report: &mut Report,
) -> Result<(), FileError>
    requires idle { (V.state files.old).draft ≡ None }
    requires slot { slot < 8 }
    ensures idle { OnOk result ((V.state files.new).draft ≡ None) }
    ensures kept { OnOk result (MendsAsBefore (V.state files.old) (V.state files.new)) }
    ensures listed { IsTrue (V.state files.old).tells
        → IsListedTo (relations_below slot) (V.state files.old).files
        → OnOk result (IsListedTo (relations_below (slot + 1)) (V.state files.new).files) }
    ensures cut { IsTrue (V.state files.old).tells
        → IsListedTo (relations_below slot) (V.state files.old).files
        → CutMends V.cuts V.mends V.state files.new (WhereFailed result)
        (λ db. db ≡ mended_base (V.state files.old).files) }
    ensures space { IsTrue (V.state files.old).tells
        → IsListedTo (relations_below slot) (V.state files.old).files
        → OnSpace result (λ _. IsCutState (V.state files.new)
        (λ db. db ≡ mended_base (V.state files.old).files)) }
    ensures frame { ChangesOrLacks V.state V.lent V.reads V.faults V.lacks files.old files.new result }
    ensures reported { IsTrue (V.state files.old).tells → OnOk result
        (Reports 2 (V.state files.old) (V.state files.new) report.old.mended report.new.mended) }
{
    let Some(cat) = written_catalog(files) else {
        return Ok(());
    };
    match relation_in(files, cat, slot)? {
        None => Ok(()),
        Some(None) => {
            empty_slot(files, cat, slot, report)?;
            Ok(())
        }
        Some(Some(schema)) => {
            mend_schema(files, cat, slot, &schema, report)?;
            Ok(())
        }
    }
}

// Empties a slot without a name.
fn empty_slot<V: Files>(
    files: &mut V,
    cat: FileId,
    slot: u16,
    report: &mut Report,
) -> Result<(), FileError>
    requires idle { (V.state files.old).draft ≡ None }
    requires catalog { IsWrittenCatalog (V.state files.old).files cat }
    requires slot { slot < 8 }
    ensures idle { OnOk result ((V.state files.new).draft ≡ None) }
    ensures kept { HasInSlot (V.state files.old) slot None
        → OnOk result (MendsAsBefore (V.state files.old) (V.state files.new)) }
    ensures listed { IsTrue (V.state files.old).tells → HasInSlot (V.state files.old) slot None
        → IsListedTo (relations_below slot) (V.state files.old).files
        → OnOk result (IsListedTo (relations_below (slot + 1)) (V.state files.new).files) }
    ensures cut { IsTrue (V.state files.old).tells → HasInSlot (V.state files.old) slot None
        → IsListedTo (relations_below slot) (V.state files.old).files
        → CutMends V.cuts V.mends V.state files.new (WhereFailed result)
        (λ db. db ≡ mended_base (V.state files.old).files) }
    ensures space { IsTrue (V.state files.old).tells → HasInSlot (V.state files.old) slot None
        → IsListedTo (relations_below slot) (V.state files.old).files
        → OnSpace result (λ _. IsCutState (V.state files.new)
        (λ db. db ≡ mended_base (V.state files.old).files)) }
    ensures frame { ChangesOrLacks V.state V.lent V.reads V.faults V.lacks files.old files.new result }
    ensures reported { IsTrue (V.state files.old).tells → HasInSlot (V.state files.old) slot None
        → OnOk result (Reports 1 (V.state files.old) (V.state files.new) report.old.mended report.new.mended) }
{
    let mut bytes = [0; 176];
    files.read(cat, 176 * u32::from(slot), &mut bytes)?;
    let unused = unused_relation();
    if bytes == unused {
        return Ok(());
    }
    overwrite(files, cat, 176 * u32::from(slot), &unused)?;
    report_removed(files, slot, report);
    Ok(())
}

// The slot of a relation that is not used.
fn unused_relation() -> [u8; 176]
    ensures { result ≡ relation_slot_bytes None }
{
    let mut unused = [0; 176];
    unused[175] = 1;
    unused
}

// Reports a relation whose slot is emptied, unless its rows are still to be removed.
fn report_removed<V: Files>(files: &V, slot: u16, report: &mut Report)
    requires slot { slot < 8 }
    ensures told { bytes_by_name (rows_file slot) (V.state files.now).files ≡ None
        → report.new.mended ≡ with_line report.old.mended (RelationLine slot) }
    ensures still { bytes_by_name (rows_file slot) (V.state files.now).files ≢ None
        → report.new.mended ≡ report.old.mended }
{
    let Some(id) = RelationId::new(slot) else {
        return;
    };
    match files.find(rows_file(id)) {
        Some(_) => {}
        None => report.add(Mended::Relation(id)),
    }
}

// Takes back what stands after the attributes of a relation, and writes the mark for a TIME.
fn mend_schema<V: Files>(
    files: &mut V,
    cat: FileId,
    slot: u16,
    schema: &Schema,
    report: &mut Report,
) -> Result<(), FileError>
    requires idle { (V.state files.old).draft ≡ None }
    requires catalog { IsWrittenCatalog (V.state files.old).files cat }
    requires slot { slot < 8 }
    ensures idle { OnOk result ((V.state files.new).draft ≡ None) }
    ensures kept { HasInSlot (V.state files.old) slot (Some schema.now)
        → OnOk result (MendsAsBefore (V.state files.old) (V.state files.new)) }
    ensures listed { IsTrue (V.state files.old).tells
        → HasInSlot (V.state files.old) slot (Some schema.now)
        → IsListedTo (relations_below slot) (V.state files.old).files
        → OnOk result (IsListedTo (relations_below (slot + 1)) (V.state files.new).files) }
    ensures cut { IsTrue (V.state files.old).tells
        → HasInSlot (V.state files.old) slot (Some schema.now)
        → IsListedTo (relations_below slot) (V.state files.old).files
        → CutMends V.cuts V.mends V.state files.new (WhereFailed result)
        (λ db. db ≡ mended_base (V.state files.old).files) }
    ensures space { IsTrue (V.state files.old).tells
        → HasInSlot (V.state files.old) slot (Some schema.now)
        → IsListedTo (relations_below slot) (V.state files.old).files
        → OnSpace result (λ _. IsCutState (V.state files.new)
        (λ db. db ≡ mended_base (V.state files.old).files)) }
    ensures frame { ChangesOrLacks V.state V.lent V.reads V.faults V.lacks files.old files.new result }
    ensures reported { IsTrue (V.state files.old).tells
        → HasInSlot (V.state files.old) slot (Some schema.now)
        → OnOk result (Reports 2 (V.state files.old) (V.state files.new) report.old.mended report.new.mended) }
{
    mark_time(files, cat, schema, report)?;
    take_back_attribute(files, slot, schema, report)
}

// Writes the mark where a relation has a TIME and the catalog is of version 1.
fn mark_time<V: Files>(
    files: &mut V,
    cat: FileId,
    schema: &Schema,
    report: &mut Report,
) -> Result<(), FileError>
    requires idle { (V.state files.old).draft ≡ None }
    requires catalog { IsWrittenCatalog (V.state files.old).files cat }
    ensures idle { OnOk result ((V.state files.new).draft ≡ None) }
    ensures kept { (IsTrue (has_time (Some schema.now)) → WantsMark (V.state files.old))
        → OnOk result (MendsAsBefore (V.state files.old) (V.state files.new)) }
    ensures marked { IsTrue (V.state files.old).tells
        → (slot : ℕ) → slot < 8 → HasInSlot (V.state files.old) slot (Some schema.now)
        → IsListedTo (relations_below slot) (V.state files.old).files
        → OnOk result (IsMarkedSlot slot (V.state files.new).files) }
    ensures cut { IsTrue (V.state files.old).tells
        → (IsTrue (has_time (Some schema.now)) → WantsMark (V.state files.old))
        → IsCutTable (V.state files.old).files
        → CutMends V.cuts V.mends V.state files.new (WhereFailed result)
        (λ db. db ≡ mended_base (V.state files.old).files) }
    ensures space { IsTrue (V.state files.old).tells
        → (IsTrue (has_time (Some schema.now)) → WantsMark (V.state files.old))
        → IsCutTable (V.state files.old).files
        → OnSpace result (λ _. IsCutState (V.state files.new)
        (λ db. db ≡ mended_base (V.state files.old).files)) }
    ensures frame { ChangesOrLacks V.state V.lent V.reads V.faults V.lacks files.old files.new result }
    ensures reported { IsTrue (V.state files.old).tells
        → OnOk result (Reports 1 (V.state files.old) (V.state files.new) report.old.mended report.new.mended) }
{
    if files.size(cat) != SIZE_OF_VERSION_1 {
        return Ok(());
    }
    if !has_time(schema) {
        return Ok(());
    }
    write_mark(files, cat, report)?;
    Ok(())
}

fn has_time(schema: &Schema) -> bool
    ensures { result ≡ has_time (Some schema.now) }
{
    let attributes = schema.attributes.as_slice();
    attributes.iter().any(|attribute| is_time(attribute.domain))
}

fn is_time(domain: Domain) -> bool
    ensures { result ≡ is_time_domain domain }
{
    matches!(domain, Domain::Time)
}

// Writes zeros after the attributes of a relation, where there are other bytes.
fn take_back_attribute<V: Files>(
    files: &mut V,
    slot: u16,
    schema: &Schema,
    report: &mut Report,
) -> Result<(), FileError>
    requires idle { (V.state files.old).draft ≡ None }
    requires slot { slot < 8 }
    ensures idle { OnOk result ((V.state files.new).draft ≡ None) }
    ensures kept { HasInSlot (V.state files.old) slot (Some schema.now)
        → OnOk result (MendsAsBefore (V.state files.old) (V.state files.new)) }
    ensures listed { IsTrue (V.state files.old).tells
        → HasInSlot (V.state files.old) slot (Some schema.now)
        → IsMarkedSlot slot (V.state files.old).files
        → OnOk result (IsListedTo (relations_below (slot + 1)) (V.state files.new).files) }
    ensures cut { IsTrue (V.state files.old).tells
        → HasInSlot (V.state files.old) slot (Some schema.now)
        → IsMarkedSlot slot (V.state files.old).files
        → CutMends V.cuts V.mends V.state files.new (WhereFailed result)
        (λ db. db ≡ mended_base (V.state files.old).files) }
    ensures space { IsTrue (V.state files.old).tells
        → HasInSlot (V.state files.old) slot (Some schema.now)
        → IsMarkedSlot slot (V.state files.old).files
        → OnSpace result (λ _. IsCutState (V.state files.new)
        (λ db. db ≡ mended_base (V.state files.old).files)) }
    ensures frame { ChangesOrLacks V.state V.lent V.reads V.faults V.lacks files.old files.new result }
    ensures reported { IsTrue (V.state files.old).tells → HasInSlot (V.state files.old) slot (Some schema.now)
        → OnOk result (Reports 1 (V.state files.old) (V.state files.new) report.old.mended report.new.mended) }
{
    let Some(cat) = written_catalog(files) else {
        return Ok(());
    };
    let front = 18 * schema.attributes.len();
    let at = 176 * u32::from(slot) + 16 + front as u32;
    let mut bytes = [0; 144];
    let behind = &mut bytes[front..];
    files.read(cat, at, behind)?;
    if is_zeros(behind) {
        return Ok(());
    }
    let zeros = [0; 144];
    overwrite(files, cat, at, &zeros[front..])?;
    report.add(Mended::Attribute(schema.name));
    Ok(())
}

/// Takes back an index whose tree is not there.
pub fn mend_index<V: Files>(files: &mut V, slot: u16, report: &mut Report) -> Result<(), FileError>
    requires idle { (V.state files.old).draft ≡ None }
    requires slot { slot < 8 }
    ensures idle { OnOk result ((V.state files.new).draft ≡ None) }
    ensures kept { OnOk result (MendsAsBefore (V.state files.old) (V.state files.new)) }
    ensures others { OnOk result (SparesButOne (V.state files.old) (V.state files.new) catalog_file) }
    ensures listed { IsTrue (V.state files.old).tells
        → IsListedTo (indexes_below slot) (V.state files.old).files
        → OnOk result (IsListedTo (indexes_below (slot + 1)) (V.state files.new).files) }
    ensures loses { IsTrue (V.state files.old).tells → LacksTree (V.state files.old).files slot
        → OnOk result (LosesIndex (V.state files.old).files (V.state files.new).files slot) }
    ensures cut { IsTrue (V.state files.old).tells
        → IsCutTable (V.state files.old).files
        → CutMends V.cuts V.mends V.state files.new (WhereFailed result)
        (λ db. db ≡ mended_base (V.state files.old).files) }
    ensures space { IsTrue (V.state files.old).tells
        → IsCutTable (V.state files.old).files
        → OnSpace result (λ _. IsCutState (V.state files.new)
        (λ db. db ≡ mended_base (V.state files.old).files)) }
    ensures frame { ChangesOrLacks V.state V.lent V.reads V.faults V.lacks files.old files.new result }
    ensures reported { IsTrue (V.state files.old).tells → HasNames (V.state files.old).files slot
        → OnOk result (Reports 1 (V.state files.old) (V.state files.new) report.old.mended report.new.mended) }
    ensures slots { IsTrue (V.state files.old).tells
        → OnOk result (SparesSlots (V.state files.old).files (V.state files.new).files slot) }
{
    let Some(cat) = written_catalog(files) else {
        return Ok(());
    };
    let Some(id) = IndexId::new(slot) else {
        return Ok(());
    };
    let at = SIZE_OF_VERSION_1 - 64 + 8 * u32::from(slot);
    let mut bytes = [0; 8];
    files.read(cat, at, &mut bytes)?;
    if bytes[0] != 2 {
        return Ok(());
    }
    match files.find(tree_file(id)) {
        Some(_) => return Ok(()),
        None => {}
    }
    report_index(files, cat, bytes[1], bytes[2], report)?;
    overwrite(files, cat, at, &UNUSED_INDEX)?;
    Ok(())
}

// Reports an index on an attribute that is taken back.
fn report_index<V: Files>(
    files: &mut V,
    cat: FileId,
    relation: u8,
    attribute: u8,
    report: &mut Report,
) -> Result<(), Failed>
    requires live { IsLive (V.state files.old).files cat }
    requires size { 1472 ≤ size_at (V.state files.old).files cat }
    ensures frame { OnlyReads V.state V.lent V.reads V.faults files.old files.new result }
    ensures told { IsTrue (V.state files.old).tells → IsWholeCatalog (V.state files.old).files cat
        → (IsStrangeSlot (V.state files.old).files relation → ⊥) → (index : Index) (name of : List ℕ)
        → index.relation ≡ relation → index.attribute ≡ attribute → IsOn (V.state files.old).files index name of
        → OnOk result (report.new.mended ≡ with_line report.old.mended (IndexLine name of)) }
{
    if relation >= 8 {
        return Ok(());
    }
    match relation_in(files, cat, u16::from(relation))? {
        None => Ok(()),
        Some(None) => Ok(()),
        Some(Some(schema)) => {
            report_index_of(&schema, attribute, report);
            Ok(())
        }
    }
}

// Reports that the index on an attribute of a relation is taken back.
fn report_index_of(schema: &Schema, attribute: u8, report: &mut Report)
    ensures told { (place : Attribute) → slice_get schema.now.attributes attribute ≡ Some place
        → report.new.mended ≡ with_line report.old.mended (IndexLine schema.now.name place.name) }
{
    if let Some(found) = schema.attributes.as_slice().get(attribute as usize) {
        report.add(Mended::Index {
            relation: schema.name,
            attribute: found.name,
        });
    }
}

// Makes room, and puts these bytes into a slot.
fn overwrite<V: Files>(files: &mut V, cat: FileId, at: u32, bytes: &[u8]) -> Result<(), FileError>
    requires idle { (V.state files.old).draft ≡ None }
    requires catalog { IsWrittenCatalog (V.state files.old).files cat }
    requires some { 1 ≤ length bytes.now }
    requires few { length bytes.now ≤ 176 }
    requires inside { at + length bytes.now ≤ 1472 }
    requires last { at + length bytes.now ≡ 1472 → slice_index bytes.now (length bytes.now - 1) ≢ 0 }
    ensures idle { OnOk result ((V.state files.new).draft ≡ None) }
    ensures put { OnOk result (Overwrites (V.state files.old) (V.state files.new) cat at bytes.now) }
    ensures space { OnSpace result (λ _. KeepsBytes (V.state files.old) (V.state files.new) cat) }
    ensures cut { CutLeaves V.cuts V.mends V.state files.old files.new (WhereFailed result)
        (λ after. OverwritesFront (V.state files.old) after cat at bytes.now) }
    ensures frame { ChangesOrLacks V.state V.lent V.reads V.faults V.lacks files.old files.new result }
{
    files.prepare(cat, regions(at, bytes.len()), 0)?;
    files.overwrite(cat, at, bytes)?;
    Ok(())
}
