//! Which thing is half done.

#![tactic(auto)]

ghost use Rattle.std.specs.Prelude.{◌≡◌, ◌<◌, ℕ, IfOk, IsTrue, None, Some, length, true};
ghost use Rattle.std.specs.Bool.{Decides};
ghost use Rattle.afl_base.specs.Files.{IsLive, size_at};
ghost use Rattle.afl_base.specs.Keeping.{OnlyReads};
ghost use Rattle.afl_base.specs.Files.{bytes_at};
ghost use Rattle.catalog.specs.CatalogFile.{index_in};
ghost use Rattle.db_model.specs.declared.schemas.IndexKind.TheVariants.{MaxHeap as OfHeap};
ghost use Rattle.space_model.specs.FileNames.{bytes_named, is_there, tree_file};
ghost use Rattle.stored.specs.CutTables.{index_read, relation, slot_bytes};
ghost use Rattle.stored.specs.declared.half.Half.TheVariants.{Nothing};
ghost use Rattle.stored_mend.specs.Mending.{IsWholeCatalog};
ghost use Rattle.stored_mend.specs.Slots.{IsReadSlot};
ghost use Rattle.stored_survey.specs.Asked.{IsReadAs};
ghost use Rattle.stored_survey.specs.Pieces.{IsReadIndex, RowsShow};
ghost use Rattle.stored_survey.specs.Shown.{Shows, ShowsIndex, ShowsIndexes, ShowsSlot, ShowsSlots};

use crate::emptied::is_unused_slot;
use crate::grown::ends_with_attributes;
use crate::indexes::has_whole_tree;
use crate::places::{rows_at, tree_at};
use crate::reading::relation_bytes;
use afl_base::{Failed, FileId, Files};
use catalog::{Catalog, IndexEntry};
use db_model::{Schema, row_length};
use stored::Half;
use stored_mend::is_heap;

/// The first thing that is half done: of the relations by slot, and then of the indexes.
pub fn find_half<V: Files>(files: &mut V, cat: FileId, catalog: &Catalog) -> Result<Half, Failed>
    requires whole { IsWholeCatalog (V.state files.old).files cat }
    requires relations { length catalog.now.relations ≡ 8 }
    requires indexes { length catalog.now.indexes ≡ 8 }
    ensures shows { IsTrue (V.state files.old).tells → IsReadAs (V.state files.old).files catalog.now
        → IfOk result (λ half. Shows (V.state files.old).files half) }
    ensures frame { OnlyReads V.state V.lent V.reads V.faults files.old files.new result }
{
    let half = half_of_relations(files, cat, catalog)?;
    if !is_nothing(&half) {
        return Ok(half);
    }
    let half_index = half_of_indexes(files, catalog)?;
    Ok(half_index)
}

fn half_of_relations<V: Files>(
    files: &mut V,
    cat: FileId,
    catalog: &Catalog,
) -> Result<Half, Failed>
    requires whole { IsWholeCatalog (V.state files.old).files cat }
    requires relations { length catalog.now.relations ≡ 8 }
    ensures shows { IsTrue (V.state files.old).tells → IsReadAs (V.state files.old).files catalog.now
        → IfOk result (λ half. ShowsSlots (V.state files.old).files half) }
    ensures frame { OnlyReads V.state V.lent V.reads V.faults files.old files.new result }
{
    for slot in 0..8u16 {
        let half = half_of_relation(files, cat, catalog, slot)?;
        if !is_nothing(&half) {
            return Ok(half);
        }
    }
    Ok(Half::Nothing)
}

fn half_of_indexes<V: Files>(files: &mut V, catalog: &Catalog) -> Result<Half, Failed>
    requires relations { length catalog.now.relations ≡ 8 }
    requires indexes { length catalog.now.indexes ≡ 8 }
    ensures shows { IsTrue (V.state files.old).tells → IsReadAs (V.state files.old).files catalog.now
        → IfOk result (λ half. ShowsIndexes (V.state files.old).files half) }
    ensures frame { OnlyReads V.state V.lent V.reads V.faults files.old files.new result }
{
    for slot in 0..8u16 {
        let half = half_of_index(files, catalog, slot)?;
        if !is_nothing(&half) {
            return Ok(half);
        }
    }
    Ok(Half::Nothing)
}

/// Whether nothing is half done.
pub fn is_nothing(half: &Half) -> bool
    ensures { Decides result (half.now ≡ Nothing) }
{
    *half == Half::Nothing
}

fn half_of_relation<V: Files>(
    files: &mut V,
    cat: FileId,
    catalog: &Catalog,
    slot: u16,
) -> Result<Half, Failed>
    requires whole { IsWholeCatalog (V.state files.old).files cat }
    requires relations { length catalog.now.relations ≡ 8 }
    requires slot { slot < 8 }
    ensures shows { IsTrue (V.state files.old).tells → IsReadAs (V.state files.old).files catalog.now
        → IfOk result (λ half. ShowsSlot (V.state files.old).files slot half) }
    ensures frame { OnlyReads V.state V.lent V.reads V.faults files.old files.new result }
{
    let bytes = relation_bytes(files, cat, slot)?;
    match &catalog.relations[slot as usize] {
        None => Ok(half_of_unused(files, &bytes, slot)),
        Some(schema) => Ok(half_of_used(files, &bytes, schema, slot)),
    }
}

// What is half done of a slot without a relation.
fn half_of_unused<V: Files>(files: &V, bytes: &[u8], slot: u16) -> Half
    requires slot { slot < 8 }
    requires length { length bytes.now ≡ 176 }
    ensures { relation (V.state files.now).files slot ≡ None
        → bytes.now ≡ slot_bytes (V.state files.now).files slot
        → ShowsSlot (V.state files.now).files slot result }
{
    if !is_unused_slot(bytes) {
        return Half::Emptying(slot);
    }
    match rows_at(files, slot) {
        Some(_) => Half::LoneRows(slot),
        None => Half::Nothing,
    }
}

// What is half done of the slot of a relation.
fn half_of_used<V: Files>(files: &V, bytes: &[u8], schema: &Schema, slot: u16) -> Half
    requires slot { slot < 8 }
    requires length { length bytes.now ≡ 176 }
    ensures { IsReadSlot bytes.now schema.now → relation (V.state files.now).files slot ≡ Some schema.now
        → bytes.now ≡ slot_bytes (V.state files.now).files slot
        → ShowsSlot (V.state files.now).files slot result }
{
    if !ends_with_attributes(bytes, schema) {
        return Half::Growing(slot);
    }
    match rows_at(files, slot) {
        None => Half::Nothing,
        Some(file) => half_of_rows(files, file, schema, slot),
    }
}

// What is half done of a file of rows: less than a row stands at its end.
fn half_of_rows<V: Files>(files: &V, file: FileId, schema: &Schema, slot: u16) -> Half
    requires live { IsLive (V.state files.now).files file }
    ensures { RowsShow (size_at (V.state files.now).files file) schema.now slot result }
{
    if files.size(file) % row_length(&schema.attributes) as u32 != 0 {
        Half::AddingRow(slot)
    } else {
        Half::Nothing
    }
}

fn half_of_index<V: Files>(files: &mut V, catalog: &Catalog, slot: u16) -> Result<Half, Failed>
    requires relations { length catalog.now.relations ≡ 8 }
    requires indexes { length catalog.now.indexes ≡ 8 }
    requires slot { slot < 8 }
    ensures shows { IsTrue (V.state files.old).tells → IsReadAs (V.state files.old).files catalog.now
        → IfOk result (λ half. ShowsIndex (V.state files.old).files slot half) }
    ensures frame { OnlyReads V.state V.lent V.reads V.faults files.old files.new result }
{
    match &catalog.indexes[slot as usize] {
        None => Ok(half_of_free(files, slot)),
        Some(entry) => {
            if !is_heap(entry.kind) {
                return Ok(Half::Nothing);
            }
            let half = half_of_heap(files, catalog, entry, slot)?;
            Ok(half)
        }
    }
}

// What is half done of a slot without an index.
fn half_of_free<V: Files>(files: &V, slot: u16) -> Half
    requires slot { slot < 8 }
    ensures { index_read (V.state files.now).files slot ≡ None
        → ShowsIndex (V.state files.now).files slot result }
{
    match tree_at(files, slot) {
        Some(_) => Half::LoneTree(slot),
        None => Half::Nothing,
    }
}

// What is half done of an index that wants a tree.
fn half_of_heap<V: Files>(
    files: &mut V,
    catalog: &Catalog,
    entry: &IndexEntry,
    slot: u16,
) -> Result<Half, Failed>
    requires relations { length catalog.now.relations ≡ 8 }
    requires slot { slot < 8 }
    ensures shows { IsTrue (V.state files.old).tells → IsReadAs (V.state files.old).files catalog.now
        → IsReadIndex (V.state files.old).files slot (index_in entry.now) → entry.now.kind ≡ OfHeap
        → IfOk result (λ half. ShowsIndex (V.state files.old).files slot half) }
    ensures frame { OnlyReads V.state V.lent V.reads V.faults files.old files.new result }
{
    match tree_at(files, slot) {
        None => Ok(Half::Treeless(slot)),
        Some(file) => {
            let half = half_of_tree(files, catalog, entry, file)?;
            Ok(half)
        }
    }
}

// What is half done of the tree of an index.
fn half_of_tree<V: Files>(
    files: &mut V,
    catalog: &Catalog,
    entry: &IndexEntry,
    tree: FileId,
) -> Result<Half, Failed>
    requires relations { length catalog.now.relations ≡ 8 }
    requires live { IsLive (V.state files.old).files tree }
    ensures shows { IsTrue (V.state files.old).tells → IsReadAs (V.state files.old).files catalog.now
        → (i : ℕ) → IsReadIndex (V.state files.old).files i (index_in entry.now)
        → entry.now.kind ≡ OfHeap → is_there (tree_file i) (V.state files.old).files ≡ true
        → bytes_at (V.state files.old).files tree ≡ bytes_named (tree_file i) (V.state files.old).files
        → IfOk result (λ half. ShowsIndex (V.state files.old).files i half) }
    ensures frame { OnlyReads V.state V.lent V.reads V.faults files.old files.new result }
{
    let whole = has_whole_tree(files, catalog, entry, tree)?;
    if whole {
        Ok(Half::Nothing)
    } else {
        Ok(Half::AddingKey(entry.relation.number()))
    }
}
