//! Hash trees that are built for all rows of a relation.

#![tactic(auto)]

ghost use Rattle.std.specs.Prelude.{◌≡◌, ◌≢◌, ◌<◌, None, IfOk, IsTrue, OnOk};
ghost use Rattle.afl_base.specs.CutFiles.{CutKeeps, CutLeaves};
ghost use Rattle.afl_base.specs.Keeping.{ChangesOrLacks};
ghost use Rattle.afl_base.specs.FileErrors.{OnSpace, WhereFailed};
ghost use Rattle.afl_base.specs.Files.{IsUnnamed, Keeps, KeepsBytes, used};
ghost use Rattle.afl_base.specs.Fit.{fit};
ghost use Rattle.db_model.specs.Step.{keys};
ghost use Rattle.db_model.specs.declared.schemas.IndexKind.TheVariants.{MaxHeap};
ghost use Rattle.session_model.specs.Indexed.{IsAllowedAt};
ghost use Rattle.space_model.specs.Enough.{tree_size};
ghost use Rattle.space_model.specs.FileNames.{tree_file};
ghost use Rattle.tuple_file.specs.Column.{IsNumber, column_of};
ghost use Rattle.tuple_file.specs.Tuples.{HoldsRows, rows};
ghost use Rattle.session_indexes.specs.Made.{AsksIndex, IsReadyFor, keys_at};
ghost use Rattle.session_indexes.specs.Parts.{MayPutTree};
ghost use Rattle.session_indexes.specs.Trees.{DraftsTree, PutsTree};

use crate::sites::Site;
use crate::slots::{prepare_slot, put_site};
use afl_base::{FileError, FileId, Files, IndexId};
use catalog::tree_file;
use db_model::IndexKind;
use index_maxheap::{BUCKET_SIZE, HEAD_SIZE, buckets_for, build};
use tuple_file::Tuples;

// Builds the tree of the keys of an attribute in a draft.
fn draft_tree<V: Files>(
    files: &mut V,
    tuples: &Tuples,
    attribute: u8,
    slot: IndexId,
) -> Result<(), FileError>
    requires idle { (V.state files.old).draft ≡ None }
    requires holds { HoldsRows (V.state files.old) tuples.now }
    requires number { IsNumber tuples.now.schema.attributes attribute }
    requires narrow { (column_of tuples.now attribute).width ≢ 8 }
    requires unnamed { IsUnnamed (V.state files.old).files (tree_file slot) }
    requires place { used (V.state files.old).files < 32 }
    ensures drafted { let old = V.state files.old in let new = V.state files.new in
        let ks = keys attribute (rows old.files tuples.now) in
        OnOk result (DraftsTree old new (tree_file slot) ks) }
    ensures kept { OnSpace result (λ need. Keeps (V.state files.old) (V.state files.new)) }
    ensures need { let old = V.state files.old in IsTrue old.tells → OnSpace result (λ need.
        need ≡ fit (tree_size (keys attribute (rows old.files tuples.now)))) }
    ensures cut { CutKeeps V.cuts V.mends V.state files.old files.new (WhereFailed result) }
    ensures frame { ChangesOrLacks V.state V.lent V.reads V.faults V.lacks files.old files.new result }
{
    let slots = tuples.count(files);
    let Ok(buckets) = buckets_for(files, tuples.column(attribute), slots) else {
        return Err(FileError::Failed);
    };
    let size = HEAD_SIZE as u32 + BUCKET_SIZE as u32 * u32::from(buckets);
    match files.draft(tree_file(slot), size) {
        Ok(()) => {}
        Err(FileError::Space { need }) => return Err(FileError::Space { need }),
        Err(FileError::Failed) => return Err(FileError::Failed),
    }
    let Ok(()) = build(files, tuples.column(attribute), slots, buckets) else {
        return Err(FileError::Failed);
    };
    Ok(())
}

/// Builds the tree of the keys of an attribute, puts its index into the catalog, and gives the tree
/// its file.
pub fn add_tree<V: Files>(
    files: &mut V,
    cat: FileId,
    tuples: &Tuples,
    site: &Site,
) -> Result<FileId, FileError>
    requires ready { IsReadyFor (V.state files.old) cat tuples.now site.now }
    requires allowed { IsAllowedAt tuples.now.schema.attributes site.now.attribute MaxHeap }
    ensures put { let old = V.state files.old in let new = V.state files.new in
        IfOk result (λ file. PutsTree old new cat tuples.now site.now file) }
    ensures space { let old = V.state files.old in let new = V.state files.new in
        OnSpace result (λ need. KeepsBytes old new cat) }
    ensures asked { let old = V.state files.old in let ks = keys_at old tuples.now site.now in
        IsTrue old.tells → OnSpace result (λ need.
        AsksIndex (V.asks files.new) (V.state files.new) cat site.now.slot MaxHeap ks need) }
    ensures cut { let old = V.state files.old in
        CutLeaves V.cuts V.mends V.state files.old files.new (WhereFailed result)
        (λ after. MayPutTree old after cat tuples.now site.now) }
    ensures frame { ChangesOrLacks V.state V.lent V.reads V.faults V.lacks files.old files.new result }
{
    match prepare_slot(files, cat, site.slot) {
        Ok(()) => {}
        Err(FileError::Space { need }) => return Err(FileError::Space { need }),
        Err(FileError::Failed) => return Err(FileError::Failed),
    }
    match draft_tree(files, tuples, site.attribute, site.slot) {
        Ok(()) => {}
        Err(FileError::Space { need }) => return Err(FileError::Space { need }),
        Err(FileError::Failed) => return Err(FileError::Failed),
    }
    let Ok(()) = put_site(files, cat, site, IndexKind::MaxHeap) else {
        return Err(FileError::Failed);
    };
    let Ok(file) = files.draft_commit() else {
        return Err(FileError::Failed);
    };
    Ok(file)
}
