//! Rows of which a part is there, filled or taken back.

#![tactic(auto)]

ghost use Rattle.std.specs.Bool.{Decides};
ghost use Rattle.std.specs.Prelude.{◌≡◌, ◌≢◌, ◌≤◌, ◌<◌, ◌+◌, ◌-◌, ◌⊎◌, ℕ, IfOk, IsSome, IsTrue, None, OnErr, OnOk, Some, length, replicate, slice_index, slice_range, take};
ghost use Rattle.afl_base.specs.Files.{Becomes, Drafts, IsLive, IsNamed, Keeps, WritesDraft, bytes_at, draft_in, file_at, size_at};
ghost use Rattle.afl_base.specs.CutFiles.{CutKeeps, CutKeepsOrLeaves};
ghost use Rattle.afl_base.specs.FileErrors.{OnSpace, WhereFailed};
ghost use Rattle.afl_base.specs.Keeping.{Changes, ChangesOrLacks, OnlyReads};
ghost use Rattle.afl_base.specs.declared.kind.Kind.TheVariants.{Doubling};
ghost use Rattle.catalog.specs.Catalogs.{catalog_slots};
ghost use Rattle.space_model.specs.FileNames.{rows_file};
ghost use Rattle.stored.specs.Mended.{mended_catalog};
ghost use Rattle.stored_mend.specs.Filled.{EndsInRow, FillsIn, HasRemovedMore};
ghost use Rattle.stored_mend.specs.Mending.{HasInSlot};
ghost use Rattle.stored_mend.specs.Reported.{Reports};
ghost use Rattle.stored_mend.specs.Interrupted.{CutMends, IsCutState};
ghost use Rattle.stored_mend.specs.Rows.{AreSameRows, ChangesOne, MayEndAt};
ghost use Rattle.stored_mend.specs.RowsCut.{HasPartStill, IsFilledOne, MayMendRows, WhereRowsBelow};
ghost use Rattle.stored_mend.specs.Whole.{MakesWhole, MendsRows};

use crate::filling::fill_row;
use crate::report::{Mended, Report};
use afl_base::{Failed, FileError, FileId, Files, Kind, Name, RelationId};
use catalog::{Catalog, rows_file};
use db_model::{Schema, row_length};

// The bytes that are copied at once.
const PIECE_SIZE: u32 = 256;

/// Fills a row of the relation in a slot that is there in part to a removed row. One that is the front of no row, or
/// of one that an index does not take, is taken back.
pub fn mend_rows<V: Files>(
    files: &mut V,
    slot: u16,
    catalog: &Catalog,
    report: &mut Report,
) -> Result<(), FileError>
    requires relations { length catalog.now.relations ≡ 8 }
    requires listed { IsTrue (V.state files.old).tells
        → catalog.now.relations ≡ (mended_catalog (V.state files.old).files).relations }
    requires idle { (V.state files.old).draft ≡ None }
    ensures kept { OnOk result (FillsIn (λ k. k ≡ slot) (V.state files.old) (V.state files.new)) }
    ensures whole { let slots = catalog_slots catalog.now in OnOk result
        (MakesWhole slots slot (slot + 1) (V.state files.old) (V.state files.new)) }
    ensures space { let slots = catalog_slots catalog.now in WhereRowsBelow slots slot (V.state files.old)
        (OnSpace result (λ _. IsCutState (V.state files.new) (IsFilledOne slot (V.state files.old).files))) }
    ensures cut { let slots = catalog_slots catalog.now in WhereRowsBelow slots slot (V.state files.old)
        (CutMends V.cuts V.mends V.state files.new (WhereFailed result) (IsFilledOne slot (V.state files.old).files)) }
    ensures frame { ChangesOrLacks V.state V.lent V.reads V.faults V.lacks files.old files.new result }
    ensures reported { IsTrue (V.state files.old).tells → OnOk result
        (Reports 1 (V.state files.old) (V.state files.new) report.old.mended report.new.mended) }
{
    match RelationId::new(slot) {
        Some(id) => {
            mend_relation_rows(files, id, catalog, report)?;
            Ok(())
        }
        None => Ok(()),
    }
}

fn mend_relation_rows<V: Files>(
    files: &mut V,
    id: RelationId,
    catalog: &Catalog,
    report: &mut Report,
) -> Result<(), FileError>
    requires relations { length catalog.now.relations ≡ 8 }
    requires listed { IsTrue (V.state files.old).tells
        → catalog.now.relations ≡ (mended_catalog (V.state files.old).files).relations }
    requires idle { (V.state files.old).draft ≡ None }
    ensures kept { OnOk result (FillsIn (λ k. k ≡ id) (V.state files.old) (V.state files.new)) }
    ensures whole { let slots = catalog_slots catalog.now in OnOk result
        (MakesWhole slots id (id + 1) (V.state files.old) (V.state files.new)) }
    ensures space { let slots = catalog_slots catalog.now in WhereRowsBelow slots id (V.state files.old)
        (OnSpace result (λ _. IsCutState (V.state files.new) (IsFilledOne id (V.state files.old).files))) }
    ensures cut { let slots = catalog_slots catalog.now in WhereRowsBelow slots id (V.state files.old)
        (CutMends V.cuts V.mends V.state files.new (WhereFailed result) (IsFilledOne id (V.state files.old).files)) }
    ensures frame { ChangesOrLacks V.state V.lent V.reads V.faults V.lacks files.old files.new result }
    ensures reported { IsTrue (V.state files.old).tells → OnOk result
        (Reports 1 (V.state files.old) (V.state files.new) report.old.mended report.new.mended) }
{
    match &catalog.relations[id.number() as usize] {
        Some(schema) => {
            mend_rows_of(files, id, schema, catalog, report)?;
            Ok(())
        }
        None => Ok(()),
    }
}

fn mend_rows_of<V: Files>(
    files: &mut V,
    id: RelationId,
    schema: &Schema,
    catalog: &Catalog,
    report: &mut Report,
) -> Result<(), FileError>
    requires idle { (V.state files.old).draft ≡ None }
    ensures end { IsTrue (V.state files.old).tells → OnOk result
        (EndsInRow (V.state files.old).files (V.state files.new).files (rows_file id) schema.now.attributes) }
    ensures rows { IsTrue (V.state files.old).tells → OnOk result
        (AreSameRows (V.state files.old).files (V.state files.new).files (rows_file id) schema.now.attributes
        ⊎ HasRemovedMore (V.state files.old).files (V.state files.new).files (rows_file id) schema.now.attributes) }
    ensures mended { IsTrue (V.state files.old).tells → OnOk result
        (MendsRows (catalog_slots catalog.now) id schema.now.attributes (V.state files.old) (V.state files.new)) }
    ensures others { OnOk result (ChangesOne (V.state files.old) (V.state files.new) (rows_file id)) }
    ensures space { IsTrue (V.state files.old).tells → OnSpace result
        (λ _. HasPartStill id schema.now.attributes (V.state files.old) (V.state files.new)) }
    ensures cut { let slots = catalog_slots catalog.now in
        CutKeepsOrLeaves V.cuts V.mends V.state files.old files.new (WhereFailed result)
        (λ after. MayMendRows slots id schema.now.attributes (V.state files.old) after) }
    ensures frame { ChangesOrLacks V.state V.lent V.reads V.faults V.lacks files.old files.new result }
    ensures reported { IsTrue (V.state files.old).tells → id < 8
        → HasInSlot (V.state files.old) id (Some schema.now)
        → OnOk result (Reports 1 (V.state files.old) (V.state files.new) report.old.mended report.new.mended) }
{
    let name = rows_file(id);
    let Some(file) = files.find(name) else {
        return Ok(());
    };
    let size = files.size(file);
    let whole = size - size % row_length(&schema.attributes) as u32;
    if whole == size {
        return Ok(());
    }
    if fill_row(files, file, &schema.attributes, catalog, id)? {
        report.add(Mended::Row(schema.name));
        return Ok(());
    }
    if !may_end_at(files, file, whole)? {
        return Ok(());
    }
    cut_file(files, file, name, whole)?;
    report.add(Mended::Row(schema.name));
    Ok(())
}

// Whether this many bytes of the file can be a file: it doubles, and the last of them is not zero.
fn may_end_at<V: Files>(files: &mut V, file: FileId, size: u32) -> Result<bool, Failed>
    requires live { IsLive (V.state files.old).files file }
    requires inside { size ≤ size_at (V.state files.old).files file }
    ensures may { IsTrue (V.state files.old).tells → IfOk result (λ may.
        Decides may (MayEndAt (file_at (V.state files.old).files file) size)) }
    ensures kind { IfOk result (λ may. IsTrue may
        → (file_at (V.state files.old).files file).kind ≡ Doubling) }
    ensures most { IfOk result (λ may. IsTrue may → size ≤ 4194304) }
    ensures frame { OnlyReads V.state V.lent V.reads V.faults files.old files.new result }
{
    if files.kind(file) != Kind::Doubling || size > 4_194_304 {
        return Ok(false);
    }
    if size == 0 {
        return Ok(true);
    }
    let mut last = [0];
    files.read(file, size - 1, &mut last)?;
    Ok(last[0] != 0)
}

// Replaces a file by its first bytes.
fn cut_file<V: Files>(files: &mut V, file: FileId, name: Name, size: u32) -> Result<(), FileError>
    requires idle { (V.state files.old).draft ≡ None }
    requires named { IsNamed (V.state files.old).files file name }
    requires only { (k : ℕ) → IsNamed (V.state files.old).files k name → k ≡ file }
    requires kind { (file_at (V.state files.old).files file).kind ≡ Doubling }
    requires inside { size ≤ size_at (V.state files.old).files file }
    requires most { size ≤ 4194304 }
    requires last { IsTrue (V.state files.old).tells → 1 ≤ size
        → slice_index (bytes_at (V.state files.old).files file) (size - 1) ≢ 0 }
    ensures front { OnOk result (Becomes (V.state files.old) (V.state files.new) file size
        (take size (bytes_at (V.state files.old).files file))) }
    ensures space { OnSpace result (λ _. Keeps (V.state files.old) (V.state files.new)) }
    ensures cut { CutKeepsOrLeaves V.cuts V.mends V.state files.old files.new (WhereFailed result)
        (λ after. Becomes (V.state files.old) after file size
        (take size (bytes_at (V.state files.old).files file))) }
    ensures frame { ChangesOrLacks V.state V.lent V.reads V.faults V.lacks files.old files.new result }
{
    files.draft(name, size)?;
    copy_bytes(files, file, size)?;
    files.draft_commit()?;
    Ok(())
}

// Copies the first bytes of a file into the draft.
fn copy_bytes<V: Files>(files: &mut V, file: FileId, size: u32) -> Result<(), Failed>
    requires live { IsLive (V.state files.old).files file }
    requires inside { size ≤ size_at (V.state files.old).files file }
    requires most { size ≤ 4194304 }
    requires begun { IsSome (V.state files.old).draft }
    requires size { length (draft_in (V.state files.old)).bytes ≡ size }
    requires erased { IsTrue (V.state files.old).tells
        → (draft_in (V.state files.old)).bytes ≡ replicate size 0 }
    ensures copied { OnOk result (Drafts (V.state files.old) (V.state files.new)
        (draft_in (V.state files.old)).name size (take size (bytes_at (V.state files.old).files file))) }
    ensures cut { CutKeeps V.cuts V.mends V.state files.old files.new (OnErr result) }
    ensures frame { Changes V.state V.lent V.reads V.faults files.old files.new result }
{
    let mut at = 0;
    while at < size {
        let count = (size - at).min(PIECE_SIZE);
        copy_piece(files, file, at, count as usize)?;
        at += count;
    }
    Ok(())
}

// Copies some bytes of a file to the same place of the draft.
fn copy_piece<V: Files>(files: &mut V, file: FileId, at: u32, count: usize) -> Result<(), Failed>
    requires live { IsLive (V.state files.old).files file }
    requires few { count ≤ 256 }
    requires inside { at + count ≤ size_at (V.state files.old).files file }
    requires begun { IsSome (V.state files.old).draft }
    requires room { at + count ≤ length (draft_in (V.state files.old)).bytes }
    requires zeros { IsTrue (V.state files.old).tells
        → slice_range (draft_in (V.state files.old)).bytes at (at + count) ≡ replicate count 0 }
    ensures copied { OnOk result (WritesDraft (V.state files.old) (V.state files.new) at
        (slice_range (bytes_at (V.state files.old).files file) at (at + count))) }
    ensures cut { CutKeeps V.cuts V.mends V.state files.old files.new (OnErr result) }
    ensures frame { Changes V.state V.lent V.reads V.faults files.old files.new result }
{
    let mut bytes = [0; PIECE_SIZE as usize];
    let piece = &mut bytes[..count];
    files.read(file, at, piece)?;
    files.draft_write(at, piece)?;
    Ok(())
}
