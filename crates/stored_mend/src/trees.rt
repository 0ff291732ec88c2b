//! Trees of indexes, put right.

#![tactic(auto)]

ghost use Rattle.std.specs.Prelude.{◌≡◌, ◌≢◌, ◌≤◌, ◌<◌, ◌++◌, ◌∷◌, [], ℕ, ℤ, List, IfNone, IfOk, IfSome, IsTrue, None, OnOk, Some, get_or, length, slice_get, true, false, ◌+◌, OnErr};
ghost use Rattle.afl_base.specs.FileErrors.{OnSpace, UnlessFailed, WhereFailed};
ghost use Rattle.afl_base.specs.CutFiles.{CutKeepsOrLeaves, CutLeaves};
ghost use Rattle.afl_base.specs.Files.{Becomes, IsLive, IsNamed, IsUnnamed, Keeps, KeepsBytes, Removes, bytes_at, file_at, used};
ghost use Rattle.afl_base.specs.Keeping.{Changes, ChangesOrLacks};
ghost use Rattle.afl_base.specs.declared.kind.Kind.TheVariants.{Doubling};
ghost use Rattle.afl_base.specs.KeyColumn.{key_of};
ghost use Rattle.afl_base.specs.Keys.{first_keys};
ghost use Rattle.catalog.specs.Catalogs.{catalog_slots};
ghost use Rattle.catalog.specs.Rules.{catalog_in};
ghost use Rattle.catalog.specs.declared.types.IndexEntry.{IndexEntry};
ghost use Rattle.db_model.specs.declared.schemas.Attribute.{Attribute};
ghost use Rattle.db_model.specs.declared.schemas.Schema.{Schema};
ghost use Rattle.index_maxheap.specs.Rooms.{OnlyIndexChanges};
ghost use Rattle.index_tree.specs.Trees.{IsTreeOf};
ghost use Rattle.space_model.specs.FileNames.{rows_file, tree_file};
ghost use Rattle.stored.specs.Mended.{mended_base};
ghost use Rattle.stored.specs.Sound.{IsSoundTable};
ghost use Rattle.stored.specs.declared.half.Half.{Half as AnyHalf};
ghost use Rattle.stored_mend.specs.Complete.{HasCompleteIndexes, AreKeysIn, CompletesFirst, CompletesSlot, HasSlot, HasCompleteIndex, IsSoundButTrees, LosesTree, SettlesSlot};
ghost use Rattle.stored_mend.specs.CutTrees.{AreTreesWhile, CompletesBut, IndexWaits, KeepsTrees, MayMakeRoom, MayMendTree, MayPutKey, MayRemoveTree, MayReplaceTree, StaysWithout};
ghost use Rattle.stored_mend.specs.Interrupted.{CutMends, IsCutState};
ghost use Rattle.stored_mend.specs.Keys.{AreKeys};
ghost use Rattle.stored_mend.specs.Mending.{KeepsBase};
ghost use Rattle.stored_mend.specs.Reported.{IsOtherTree, ReportsTrees, bytes_by_name, with_line};
ghost use Rattle.stored_mend.specs.declared.report.Mended.TheVariants.{Tree as TreeLine};
ghost use Rattle.stored_mend.specs.Stages.{HasWholeRelations};
ghost use Rattle.stored_mend.specs.Trees.{BecomesTree, BuildsTree, ChangesAtMost, HasTreeNow, KeepsButTrees, LacksRoom, LosesTrees, SparesButTree};

use crate::catalogs::mend_index;
use crate::keyed::{Keyed, is_heap, keys_of};
use crate::report::{Mended, Report};
use afl_base::{Failed, FileError, FileId, Files, IndexId, Kind, Name, SlotNo};
use catalog::{Catalog, IndexEntry, tree_file};
use index_maxheap::{BUCKET_SIZE, HEAD_SIZE, buckets_for, build, insert, room, verify};
use index_tree::a_tree_ends_in_a_mark;

/// Puts all trees right. A tree for which there is no room waits until all others are done, and then its
/// file makes room for it. What is left where this is cut off, or finds no room, can be repaired still.
#[tactic(auto, using(crate::proofs::TreesLost::but_kept))]
pub fn mend_all_trees<V: Files>(
    files: &mut V,
    catalog: &Catalog,
    report: &mut Report,
) -> Result<(), FileError>
    requires relations { length catalog.now.relations ≡ 8 }
    requires indexes { length catalog.now.indexes ≡ 8 }
    requires idle { (V.state files.old).draft ≡ None }
    ensures kept { OnOk result
        (KeepsButTrees (LacksRoom V.state V.lacks) (V.state files.old) (V.state files.new)) }
    ensures sound { IsTrue (V.state files.old).tells → catalog_slots catalog.now ≡ catalog_in (V.state files.old).files
        → (half : AnyHalf) → HasWholeRelations (V.state files.old).files half
        → OnOk result (IsSoundTable (V.state files.new).files) }
    ensures cut { IsTrue (V.state files.old).tells
        → catalog_slots catalog.now ≡ catalog_in (V.state files.old).files
        → (half : AnyHalf) → HasWholeRelations (V.state files.old).files half
        → CutMends V.cuts V.mends V.state files.new (WhereFailed result)
        (λ db. LosesTrees (mended_base (V.state files.old).files) db) }
    ensures space { IsTrue (V.state files.old).tells
        → catalog_slots catalog.now ≡ catalog_in (V.state files.old).files
        → (half : AnyHalf) → HasWholeRelations (V.state files.old).files half
        → OnSpace result (λ need. IsCutState (V.state files.new)
        (λ db. LosesTrees (mended_base (V.state files.old).files) db)) }
    ensures frame { ChangesOrLacks V.state V.lent V.reads V.faults V.lacks files.old files.new result }
    ensures reported { IsTrue (V.state files.old).tells → catalog_slots catalog.now ≡ catalog_in (V.state files.old).files
        → (half : AnyHalf) → HasWholeRelations (V.state files.old).files half
        → OnOk result (ReportsTrees 16 (V.state files.old) (V.state files.new) report.old.mended report.new.mended) }
{
    let waiting = mend_trees(files, catalog, report)?;
    if waiting == 0 {
        return Ok(());
    }
    for slot in 0..8u16 {
        make_room(files, slot, catalog, waiting == 1, report)?;
    }
    Ok(())
}

// Puts those trees right for which there is room. It answers how many wait.
fn mend_trees<V: Files>(
    files: &mut V,
    catalog: &Catalog,
    report: &mut Report,
) -> Result<u16, Failed>
    requires relations { length catalog.now.relations ≡ 8 }
    requires indexes { length catalog.now.indexes ≡ 8 }
    requires idle { (V.state files.old).draft ≡ None }
    ensures kept { OnOk result (KeepsBase (V.state files.old) (V.state files.new)) }
    ensures begun { OnOk result
        (CompletesFirst (V.state files.old) (V.state files.new) catalog.now 0) }
    ensures complete { IfOk result (λ waiting. waiting ≡ 0
        → CompletesFirst (V.state files.old) (V.state files.new) catalog.now 8) }
    ensures alone { IfOk result (λ waiting. waiting ≡ 1 → (waits : ℕ)
        × CompletesBut (V.state files.old) (V.state files.new) catalog.now 8 waits) }
    ensures trees { OnOk result (KeepsTrees (V.state files.old) (V.state files.new) catalog.now) }
    ensures cut { IsTrue (V.state files.old).tells → (half : AnyHalf)
        → HasCompleteIndexes (V.state files.old).files catalog.now 0
        → AreTreesWhile (V.state files.old).files half
        → CutMends V.cuts V.mends V.state files.new (OnErr result)
        (λ db. db ≡ mended_base (V.state files.old).files) }
    ensures frame { Changes V.state V.lent V.reads V.faults files.old files.new result }
    ensures reported { IsTrue (V.state files.old).tells → HasCompleteIndexes (V.state files.old).files catalog.now 0
        → OnOk result (ReportsTrees 8 (V.state files.old) (V.state files.new) report.old.mended report.new.mended) }
{
    let mut waiting = 0;
    for slot in 0..8u16 {
        let need = mend_tree(files, slot, catalog, report)?;
        waiting += count(need);
    }
    Ok(waiting)
}

// 1 where there is something.
fn count(need: Option<u16>) -> u16
    ensures none { result ≡ 0 → need ≡ None }
    ensures few { result ≤ 1 }
{
    match need {
        Some(_) => 1,
        None => 0,
    }
}

// Puts the tree of the index in a slot right. Where there is still no room for it, its file is removed
// to make some; but only where it waits alone, so that one thing at a time is half done.
#[tactic(auto, using(crate::proofs::TreesLost::but_kept))]
fn make_room<V: Files>(
    files: &mut V,
    slot: u16,
    catalog: &Catalog,
    alone: bool,
    report: &mut Report,
) -> Result<(), FileError>
    requires relations { length catalog.now.relations ≡ 8 }
    requires indexes { length catalog.now.indexes ≡ 8 }
    requires idle { (V.state files.old).draft ≡ None }
    requires slot { slot < 8 }
    ensures kept { OnOk result
        (KeepsButTrees (LacksRoom V.state V.lacks) (V.state files.old) (V.state files.new)) }
    ensures settles { OnOk result
        (SettlesSlot (V.state files.old) (V.state files.new) catalog.now slot) }
    ensures trees { IsTrue (V.state files.old).tells → (half : AnyHalf)
        → MayMakeRoom (V.state files.old).files catalog.now half slot alone
        → OnOk result (AreTreesWhile (V.state files.new).files half) }
    ensures cut { IsTrue (V.state files.old).tells → (half : AnyHalf)
        → MayMakeRoom (V.state files.old).files catalog.now half slot alone
        → CutMends V.cuts V.mends V.state files.new (WhereFailed result)
        (λ db. LosesTrees (mended_base (V.state files.old).files) db) }
    ensures space { IsTrue (V.state files.old).tells → (half : AnyHalf)
        → MayMakeRoom (V.state files.old).files catalog.now half slot alone
        → OnSpace result (λ need. IsCutState (V.state files.new)
        (λ db. LosesTrees (mended_base (V.state files.old).files) db)) }
    ensures frame { ChangesOrLacks V.state V.lent V.reads V.faults V.lacks files.old files.new result }
    ensures reported { IsTrue (V.state files.old).tells → HasSlot (V.state files.old).files catalog.now slot
        → IsSoundButTrees (V.state files.old).files
        → OnOk result (ReportsTrees 1 (V.state files.old) (V.state files.new) report.old.mended report.new.mended) }
{
    let waits = mend_tree(files, slot, catalog, report)?;
    match waits {
        Some(need) => {
            if !alone {
                return Err(FileError::Space { need });
            }
            replace_tree(files, slot, catalog, report)?;
            let _first_is_live = files.live(FileId::default());
            Ok(())
        }
        None => Ok(()),
    }
}

// Puts the tree of the index in a slot right, where there is room. Else it answers how many pages are
// lacking. No other file changes.
#[tactic(auto, using(crate::proofs::TreeFiles::changes_same))]
fn mend_tree<V: Files>(
    files: &mut V,
    slot: u16,
    catalog: &Catalog,
    report: &mut Report,
) -> Result<Option<u16>, Failed>
    requires relations { length catalog.now.relations ≡ 8 }
    requires indexes { length catalog.now.indexes ≡ 8 }
    requires idle { (V.state files.old).draft ≡ None }
    requires slot { slot < 8 }
    ensures kept { OnOk result (KeepsBase (V.state files.old) (V.state files.new)) }
    ensures changes { OnOk result
        (ChangesAtMost (V.state files.old) (V.state files.new) (tree_file slot)) }
    ensures complete { IfOk result (λ waits. IfNone waits
        (CompletesSlot (V.state files.old) (V.state files.new) catalog.now slot)) }
    ensures lacks { IfOk result (λ waits. IfSome waits (λ need. V.lacks files.new need)) }
    ensures waits { IsTrue (V.state files.old).tells → HasSlot (V.state files.old).files catalog.now slot
        → IsSoundButTrees (V.state files.old).files → IfOk result (λ waits. IfSome waits
        (λ need. IndexWaits (V.state files.old).files (V.state files.new).files slot)) }
    ensures cut { IsTrue (V.state files.old).tells → (half : AnyHalf)
        → HasSlot (V.state files.old).files catalog.now slot
        → AreTreesWhile (V.state files.old).files half
        → CutMends V.cuts V.mends V.state files.new (OnErr result)
        (λ db. db ≡ mended_base (V.state files.old).files) }
    ensures frame { Changes V.state V.lent V.reads V.faults files.old files.new result }
    ensures quiet { IsTrue (V.state files.old).tells → HasSlot (V.state files.old).files catalog.now slot
        → IsSoundButTrees (V.state files.old).files → IfOk result (λ waits. IfSome waits (λ need.
        ReportsTrees 0 (V.state files.old) (V.state files.new) report.old.mended report.new.mended)) }
    ensures reported { IsTrue (V.state files.old).tells → HasSlot (V.state files.old).files catalog.now slot
        → IsSoundButTrees (V.state files.old).files
        → OnOk result (ReportsTrees 1 (V.state files.old) (V.state files.new) report.old.mended report.new.mended) }
{
    let Some(id) = IndexId::new(slot) else {
        return Ok(None);
    };
    let Some(keys) = keys_of_tree(files, catalog, id) else {
        return Ok(None);
    };
    match mend_tree_of(files, tree_file(id), &keys) {
        Ok(false) => Ok(None),
        Ok(true) => {
            report_slot(catalog, id, report);
            Ok(None)
        }
        Err(FileError::Space { need }) => Ok(Some(need)),
        Err(FileError::Failed) => Err(Failed),
    }
}

// The keys of the tree in a slot, None where no index there has one.
fn keys_of_tree<V: Files>(files: &V, catalog: &Catalog, id: IndexId) -> Option<Keyed>
    requires relations { length catalog.now.relations ≡ 8 }
    requires indexes { length catalog.now.indexes ≡ 8 }
    ensures keys { IfSome result (λ keys. AreKeys (V.state files.now) keys.column keys.slots) }
    ensures narrow { IfSome result (λ keys. keys.column.width ≢ 8) }
    ensures rows { IfSome result (λ keys. (slot : ℕ)
        × IsNamed (V.state files.now).files keys.column.file (rows_file slot)) }
    ensures read { HasSlot (V.state files.now).files catalog.now id → IsSoundButTrees (V.state files.now).files
        → IfSome result (λ keys. AreKeysIn (V.state files.now).files id
        (first_keys (key_of (V.state files.now) keys.column) keys.slots)) }
    ensures none { HasSlot (V.state files.now).files catalog.now id → IsSoundButTrees (V.state files.now).files
        → IfNone result (HasCompleteIndex (V.state files.now).files id) }
{
    let Some(entry) = catalog.indexes[id.number() as usize] else {
        return None;
    };
    if !is_heap(entry.kind) {
        return None;
    }
    let Some(keys) = keys_of(files, catalog, &entry) else {
        return None;
    };
    if keys.column.width == 8 {
        return None;
    }
    Some(keys)
}

// Reports that the tree of the index in a slot is built anew.
fn report_slot(catalog: &Catalog, id: IndexId, report: &mut Report)
    requires relations { length catalog.now.relations ≡ 8 }
    requires indexes { length catalog.now.indexes ≡ 8 }
    ensures told { (entry : IndexEntry) (schema : Schema) (place : Attribute)
        → get_or catalog.now.indexes id None ≡ Some entry → get_or catalog.now.relations entry.relation None ≡ Some schema
        → slice_get schema.attributes entry.attribute ≡ Some place
        → report.new.mended ≡ with_line report.old.mended (TreeLine schema.name place.name) }
{
    if let Some(entry) = catalog.indexes[id.number() as usize] {
        report_tree(catalog, &entry, report);
    }
}

// Reports that the tree of an index is built anew.
fn report_tree(catalog: &Catalog, entry: &IndexEntry, report: &mut Report)
    requires relations { length catalog.now.relations ≡ 8 }
    ensures told { (schema : Schema) (place : Attribute)
        → get_or catalog.now.relations entry.now.relation None ≡ Some schema
        → slice_get schema.attributes entry.now.attribute ≡ Some place
        → report.new.mended ≡ with_line report.old.mended (TreeLine schema.name place.name) }
{
    if let Some(schema) = &catalog.relations[entry.relation.number() as usize] {
        if let Some(found) = schema.attributes.as_slice().get(entry.attribute as usize) {
            report.add(Mended::Tree {
                relation: schema.name,
                attribute: found.name,
            });
        }
    }
}

// Makes the file of a name the tree of some keys, where it is not. It answers whether it did.
fn mend_tree_of<V: Files>(files: &mut V, name: Name, keys: &Keyed) -> Result<bool, FileError>
    requires keys { AreKeys (V.state files.old) keys.now.column keys.now.slots }
    requires narrow { keys.now.column.width ≢ 8 }
    requires idle { (V.state files.old).draft ≡ None }
    ensures tree { IsTrue (V.state files.old).tells → OnOk result
        (HasTreeNow (V.state files.old).files (V.state files.new).files name
        (first_keys (key_of (V.state files.old) keys.now.column) keys.now.slots)) }
    ensures same { IfOk result (λ made. made ≡ false → V.state files.new ≡ V.state files.old) }
    ensures others { UnlessFailed result
        (ChangesAtMost (V.state files.old) (V.state files.new) name) }
    ensures waits { IsTrue (V.state files.old).tells → OnSpace result (λ need.
        StaysWithout (V.state files.old).files (V.state files.new).files name
        (first_keys (key_of (V.state files.old) keys.now.column) keys.now.slots)) }
    ensures cut { let ks = first_keys (key_of (V.state files.old) keys.now.column) keys.now.slots in
        CutLeaves V.cuts V.mends V.state files.old files.new (WhereFailed result)
        (λ after. MayMendTree (V.state files.old) after name ks) }
    ensures frame { ChangesOrLacks V.state V.lent V.reads V.faults V.lacks files.old files.new result }
    ensures wrong { IsTrue (V.state files.old).tells → IfOk result (λ made. made ≡ true → IsOtherTree
        (V.state files.old).files name (first_keys (key_of (V.state files.old) keys.now.column) keys.now.slots)) }
{
    let Some(tree) = files.find(name) else {
        return Ok(false);
    };
    files.live(tree);
    if files.kind(tree) != Kind::Doubling {
        return Ok(false);
    }
    let whole = verify(files, tree, keys.column, keys.slots)?;
    if whole {
        return Ok(false);
    }
    let added = add_last_key(files, tree, keys)?;
    if added {
        return Ok(true);
    }
    match build_tree(files, name, keys) {
        Ok(()) => Ok(true),
        Err(stop) => Err(stop),
    }
}

// Gives a tree its last key, where it lacks that alone and there is room. It answers whether it did.
fn add_last_key<V: Files>(files: &mut V, tree: FileId, keys: &Keyed) -> Result<bool, Failed>
    requires keys { AreKeys (V.state files.old) keys.now.column keys.now.slots }
    requires narrow { keys.now.column.width ≢ 8 }
    requires idle { (V.state files.old).draft ≡ None }
    requires live { IsLive (V.state files.old).files tree }
    requires kind { (file_at (V.state files.old).files tree).kind ≡ Doubling }
    ensures added { IfOk result (λ added. added ≡ true
        → BecomesTree (V.state files.old) (V.state files.new) tree
        (first_keys (key_of (V.state files.old) keys.now.column) keys.now.slots)) }
    ensures kept { IfOk result (λ added. added ≡ false
        → KeepsBytes (V.state files.old) (V.state files.new) tree) }
    ensures cut { CutLeaves V.cuts V.mends V.state files.old files.new (OnErr result)
        (λ after. MayPutKey (V.state files.old) after tree keys.now.slots) }
    ensures frame { Changes V.state V.lent V.reads V.faults files.old files.new result }
{
    if keys.slots == 0 {
        return Ok(false);
    }
    let Some(last) = SlotNo::new(keys.slots - 1) else {
        return Ok(false);
    };
    let lacks_one = verify(files, tree, keys.column, last.number())?;
    if !lacks_one {
        return Ok(false);
    }
    let key = keys.column.key(files, last)?;
    let added = put_key(files, tree, &key, last)?;
    Ok(added)
}

// Puts the key of a slot into a tree, where there is room. It answers whether it did.
fn put_key<V: Files>(files: &mut V, tree: FileId, key: &i32, slot: SlotNo) -> Result<bool, Failed>
    requires idle { (V.state files.old).draft ≡ None }
    requires live { IsLive (V.state files.old).files tree }
    requires kind { (file_at (V.state files.old).files tree).kind ≡ Doubling }
    ensures added { IsTrue (V.state files.old).tells → (keys : List ℤ)
        → IsTreeOf (bytes_at (V.state files.old).files tree) keys → length keys ≡ slot
        → IfOk result (λ added. added ≡ true
        → IsTreeOf (bytes_at (V.state files.new).files tree) (keys ++ key.now ∷ [])) }
    ensures only { IfOk result (λ added. added ≡ true
        → OnlyIndexChanges (V.state files.old) (V.state files.new) tree) }
    ensures kept { IfOk result (λ added. added ≡ false
        → KeepsBytes (V.state files.old) (V.state files.new) tree) }
    ensures cut { (keys : List ℤ) → IsTreeOf (bytes_at (V.state files.old).files tree) keys
        → length keys ≡ slot → CutLeaves V.cuts V.mends V.state files.old files.new (OnErr result)
        (λ after. MayPutKey (V.state files.old) after tree (slot + 1)) }
    ensures frame { Changes V.state V.lent V.reads V.faults files.old files.new result }
{
    let room = room(files, tree, key)?;
    if room.overwrites == 0 {
        return Ok(false);
    }
    match files.prepare(tree, room.overwrites, room.bytes) {
        Ok(()) => {}
        Err(FileError::Space { .. }) => return Ok(false),
        Err(FileError::Failed) => return Err(Failed),
    }
    insert(files, tree, &room, key, slot)?;
    Ok(true)
}

// Builds the tree of some keys in a draft, which becomes the file of a name.
fn build_tree<V: Files>(files: &mut V, name: Name, keys: &Keyed) -> Result<(), FileError>
    requires keys { AreKeys (V.state files.old) keys.now.column keys.now.slots }
    requires narrow { keys.now.column.width ≢ 8 }
    requires idle { (V.state files.old).draft ≡ None }
    requires kind { (k : ℕ) → IsNamed (V.state files.old).files k name
        → (file_at (V.state files.old).files k).kind ≡ Doubling }
    requires one { (j k : ℕ) → IsNamed (V.state files.old).files j name
        → IsNamed (V.state files.old).files k name → j ≡ k }
    requires place { IsUnnamed (V.state files.old).files name → used (V.state files.old).files < 32 }
    ensures built { OnOk result (BuildsTree (V.state files.old) (V.state files.new) name
        (first_keys (key_of (V.state files.old) keys.now.column) keys.now.slots)) }
    ensures kept { OnSpace result (λ _. Keeps (V.state files.old) (V.state files.new)) }
    ensures cut { let ks = first_keys (key_of (V.state files.old) keys.now.column) keys.now.slots in
        CutKeepsOrLeaves V.cuts V.mends V.state files.old files.new (WhereFailed result)
        (λ after. BuildsTree (V.state files.old) after name ks) }
    ensures frame { ChangesOrLacks V.state V.lent V.reads V.faults V.lacks files.old files.new result }
{
    let buckets = buckets_for(files, keys.column, keys.slots)?;
    let size = HEAD_SIZE as u32 + BUCKET_SIZE as u32 * u32::from(buckets);
    files.draft(name, size)?;
    build(files, keys.column, keys.slots, buckets)?;
    a_tree_ends_in_a_mark();
    files.draft_commit()?;
    Ok(())
}

// Removes the tree of the index in a slot, for which there was no room, and builds it in what became
// free. Where there still is no room, the index is taken back.
fn replace_tree<V: Files>(
    files: &mut V,
    slot: u16,
    catalog: &Catalog,
    report: &mut Report,
) -> Result<(), FileError>
    requires relations { length catalog.now.relations ≡ 8 }
    requires indexes { length catalog.now.indexes ≡ 8 }
    requires idle { (V.state files.old).draft ≡ None }
    requires slot { slot < 8 }
    ensures kept { OnOk result
        (KeepsButTrees (LacksRoom V.state V.lacks) (V.state files.old) (V.state files.new)) }
    ensures settles { OnOk result
        (SettlesSlot (V.state files.old) (V.state files.new) catalog.now slot) }
    ensures cut { IsTrue (V.state files.old).tells → (half : AnyHalf)
        → MayRemoveTree (V.state files.old).files catalog.now half slot
        → CutMends V.cuts V.mends V.state files.new (WhereFailed result)
        (λ db. LosesTrees (mended_base (V.state files.old).files) db) }
    ensures space { IsTrue (V.state files.old).tells → (half : AnyHalf)
        → MayRemoveTree (V.state files.old).files catalog.now half slot
        → OnSpace result (λ need. IsCutState (V.state files.new)
        (λ db. LosesTrees (mended_base (V.state files.old).files) db)) }
    ensures frame { ChangesOrLacks V.state V.lent V.reads V.faults V.lacks files.old files.new result }
    ensures reported { IsTrue (V.state files.old).tells → HasSlot (V.state files.old).files catalog.now slot
        → IsSoundButTrees (V.state files.old).files
        → (HasCompleteIndex (V.state files.old).files slot → ⊥)
        → OnOk result (ReportsTrees 1 (V.state files.old) (V.state files.new) report.old.mended report.new.mended) }
{
    match has_tree_again(files, slot, catalog, report) {
        Ok(true) => Ok(()),
        Ok(false) => {
            mend_index(files, slot, report)?;
            Ok(())
        }
        Err(Failed) => Err(FileError::Failed),
    }
}

// Removes the tree of the index in a slot and builds it in what became free. It answers false where
// there is no room even then: the index has no tree any more.
fn has_tree_again<V: Files>(
    files: &mut V,
    slot: u16,
    catalog: &Catalog,
    report: &mut Report,
) -> Result<bool, Failed>
    requires relations { length catalog.now.relations ≡ 8 }
    requires indexes { length catalog.now.indexes ≡ 8 }
    requires idle { (V.state files.old).draft ≡ None }
    requires slot { slot < 8 }
    ensures kept { OnOk result
        (KeepsButTrees (LacksRoom V.state V.lacks) (V.state files.old) (V.state files.new)) }
    ensures settles { IfOk result (λ stands. stands ≡ true
        → SettlesSlot (V.state files.old) (V.state files.new) catalog.now slot) }
    ensures gone { IfOk result (λ stands. stands ≡ false
        → LosesTree (V.state files.old) (V.state files.new) catalog.now slot) }
    ensures cut { IsTrue (V.state files.old).tells → (half : AnyHalf)
        → MayRemoveTree (V.state files.old).files catalog.now half slot
        → CutMends V.cuts V.mends V.state files.new (OnErr result)
        (λ db. LosesTrees (mended_base (V.state files.old).files) db) }
    ensures frame { Changes V.state V.lent V.reads V.faults files.old files.new result }
    ensures reported { IsTrue (V.state files.old).tells → HasSlot (V.state files.old).files catalog.now slot
        → IsSoundButTrees (V.state files.old).files → (HasCompleteIndex (V.state files.old).files slot → ⊥)
        → IfOk result (λ stands. stands ≡ true
        → ReportsTrees 1 (V.state files.old) (V.state files.new) report.old.mended report.new.mended) }
    ensures still { IfOk result (λ stands. stands ≡ false → report.new.mended ≡ report.old.mended) }
{
    let Some(id) = IndexId::new(slot) else {
        return Ok(true);
    };
    let Some(keys) = keys_of_tree(files, catalog, id) else {
        return Ok(true);
    };
    let name = tree_file(id);
    let Some(tree) = files.find(name) else {
        return Ok(true);
    };
    match replace_tree_of(files, tree, name, &keys) {
        Ok(()) => {
            report_slot(catalog, id, report);
            Ok(true)
        }
        Err(FileError::Space { .. }) => Ok(false),
        Err(FileError::Failed) => Err(Failed),
    }
}

// Removes a tree, and builds that of some keys under its name. Where there is no room for it, the file
// is gone.
fn replace_tree_of<V: Files>(
    files: &mut V,
    tree: FileId,
    name: Name,
    keys: &Keyed,
) -> Result<(), FileError>
    requires keys { AreKeys (V.state files.old) keys.now.column keys.now.slots }
    requires narrow { keys.now.column.width ≢ 8 }
    requires idle { (V.state files.old).draft ≡ None }
    requires named { IsNamed (V.state files.old).files tree name }
    requires apart { keys.now.column.file ≢ tree }
    ensures built { OnOk result (BuildsTree (V.state files.old) (V.state files.new) name
        (first_keys (key_of (V.state files.old) keys.now.column) keys.now.slots)) }
    ensures gone { OnSpace result (λ _. IsUnnamed (V.state files.new).files name) }
    ensures spares { OnSpace result (λ _.
        SparesButTree (V.state files.old) (V.state files.new) name) }
    ensures cut { let ks = first_keys (key_of (V.state files.old) keys.now.column) keys.now.slots in
        CutKeepsOrLeaves V.cuts V.mends V.state files.old files.new (WhereFailed result)
        (λ after. MayReplaceTree (V.state files.old) after name ks) }
    ensures frame { ChangesOrLacks V.state V.lent V.reads V.faults V.lacks files.old files.new result }
{
    remove_tree(files, tree, name)?;
    match build_tree(files, name, keys) {
        Ok(()) => Ok(()),
        Err(stop) => Err(stop),
    }
}

// Removes the file of a name. A file that is removed leaves a place.
fn remove_tree<V: Files>(files: &mut V, tree: FileId, name: Name) -> Result<(), Failed>
    requires idle { (V.state files.old).draft ≡ None }
    requires named { IsNamed (V.state files.old).files tree name }
    ensures removed { OnOk result (Removes (V.state files.old) (V.state files.new) tree) }
    ensures spares { OnOk result (SparesButTree (V.state files.old) (V.state files.new) name) }
    ensures gone { OnOk result (IsUnnamed (V.state files.new).files name) }
    ensures place { OnOk result (used (V.state files.new).files < 32) }
    ensures cut { CutKeepsOrLeaves V.cuts V.mends V.state files.old files.new (OnErr result)
        (λ after. IsUnnamed after.files name × SparesButTree (V.state files.old) after name) }
    ensures frame { Changes V.state V.lent V.reads V.faults files.old files.new result }
{
    files.live(tree);
    files.remove(tree)?;
    Ok(())
}
