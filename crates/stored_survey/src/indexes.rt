//! Indexes and their trees, beside what is half done.

#![tactic(auto)]

ghost use Rattle.std.specs.Prelude.{◌≡◌, ◌≢◌, ◌⊎◌, ◌≤◌, ◌<◌, ◌+◌, ℕ, IfOk, IfSome, IsTrue, None, length, slice_range, true};
ghost use Rattle.std.specs.Bool.{Decides};
ghost use Rattle.afl_base.specs.Files.{IsLive, bytes_at};
ghost use Rattle.afl_base.specs.Keeping.{OnlyReads};
ghost use Rattle.catalog.specs.CatalogFile.{index_in};
ghost use Rattle.db_model.specs.declared.schemas.IndexKind.TheVariants.{MaxHeap as OfHeap, MemHash as OfTable};
ghost use Rattle.index_tree.specs.TreeFile.{NamesOnly};
ghost use Rattle.index_tree.specs.Trees.{IsTreeOf};
ghost use Rattle.space_model.specs.FileNames.{bytes_named, is_there, rows_file, tree_file};
ghost use Rattle.stored.specs.CutTables.{IsIndexWhile, index_read};
ghost use Rattle.stored.specs.Sound.{IsIndexComplete};
ghost use Rattle.stored.specs.declared.half.Half.{Half as AnyHalf};
ghost use Rattle.stored.specs.declared.half.Half.TheVariants.{AddingKey, LoneTree, Treeless};
ghost use Rattle.stored_survey.specs.Asked.{AreSoundBeside, IsKeptBeside, IsReadAs};
ghost use Rattle.stored_survey.specs.Pieces.{IsFileNamed, IsReadIndex, NamesWithin};
ghost use Rattle.stored_survey.specs.Shown.{keys_mended};

use crate::places::tree_at;
use afl_base::{Failed, FileId, Files, get_u16};
use catalog::{Catalog, IndexEntry};
use db_model::IndexKind;
use index_inline::ordered;
use index_maxheap::{BUCKET_SIZE, HEAD_SIZE, verify};
use stored::Half;
use stored_mend::{is_heap, keys_of};

// The bytes of the pairs of a bucket, and of one pair.
const PAIRS_SIZE: usize = 192;

const PAIR_SIZE: usize = 6;

/// Whether the tree of an index slot, and what an index asks of its keys, are sound but for what is half
/// done. All relations are sound so.
pub fn is_sound_index<V: Files>(
    files: &mut V,
    catalog: &Catalog,
    half: &Half,
    slot: u16,
) -> Result<bool, Failed>
    requires relations { length catalog.now.relations ≡ 8 }
    requires indexes { length catalog.now.indexes ≡ 8 }
    requires slot { slot < 8 }
    ensures kept { IsTrue (V.state files.old).tells → IsReadAs (V.state files.old).files catalog.now
        → AreSoundBeside (V.state files.old).files half.now
        → IfOk result (λ is. Decides is (IsKeptBeside (V.state files.old).files half.now slot)) }
    ensures frame { OnlyReads V.state V.lent V.reads V.faults files.old files.new result }
{
    match &catalog.indexes[slot as usize] {
        None => Ok(is_sound_unindexed(files, half, slot)),
        Some(entry) => {
            let sound = is_sound_entry(files, catalog, half, slot, entry)?;
            Ok(sound)
        }
    }
}

// The same of a slot without an index.
fn is_sound_unindexed<V: Files>(files: &V, half: &Half, slot: u16) -> bool
    requires slot { slot < 8 }
    ensures { index_read (V.state files.now).files slot ≡ None
        → Decides result (IsKeptBeside (V.state files.now).files half.now slot) }
{
    match tree_at(files, slot) {
        Some(_) => is_lone_tree(half, slot),
        None => true,
    }
}

// The same of the index of a slot.
fn is_sound_entry<V: Files>(
    files: &mut V,
    catalog: &Catalog,
    half: &Half,
    slot: u16,
    entry: &IndexEntry,
) -> Result<bool, Failed>
    requires relations { length catalog.now.relations ≡ 8 }
    requires slot { slot < 8 }
    ensures kept { IsTrue (V.state files.old).tells → IsReadAs (V.state files.old).files catalog.now
        → AreSoundBeside (V.state files.old).files half.now
        → IsReadIndex (V.state files.old).files slot (index_in entry.now)
        → IfOk result (λ is. Decides is (IsKeptBeside (V.state files.old).files half.now slot)) }
    ensures frame { OnlyReads V.state V.lent V.reads V.faults files.old files.new result }
{
    let tree = tree_at(files, slot);
    if is_heap(entry.kind) {
        let heap = is_sound_heap(files, catalog, half, slot, entry, tree)?;
        return Ok(heap);
    }
    match tree {
        Some(_) => Ok(false),
        None => {
            let sound = has_sound_keys(files, catalog, entry)?;
            Ok(sound)
        }
    }
}

fn is_hash_table(kind: IndexKind) -> bool
    ensures { Decides result (kind ≡ OfTable) }
{
    kind == IndexKind::MemHash
}

// Whether a hash table has room for so many keys.
fn are_few(slots: u16) -> bool
    ensures { Decides result (slots ≤ 2048) }
{
    slots <= 2_048
}

fn is_none(broken: &Option<i64>) -> bool
    ensures { Decides result (broken.now ≡ None) }
{
    match broken {
        Some(_) => false,
        None => true,
    }
}

fn is_lone_tree(half: &Half, slot: u16) -> bool
    ensures { Decides result (half.now ≡ LoneTree slot) }
{
    *half == Half::LoneTree(slot)
}

fn is_treeless(half: &Half, slot: u16) -> bool
    ensures { Decides result (half.now ≡ Treeless slot) }
{
    *half == Half::Treeless(slot)
}

fn is_adding_key(half: &Half, relation: u16) -> bool
    ensures { Decides result (half.now ≡ AddingKey relation) }
{
    *half == Half::AddingKey(relation)
}

// The same of a slot whose index wants a tree. `tree` is the file that it has.
fn is_sound_heap<V: Files>(
    files: &mut V,
    catalog: &Catalog,
    half: &Half,
    slot: u16,
    entry: &IndexEntry,
    tree: Option<FileId>,
) -> Result<bool, Failed>
    requires relations { length catalog.now.relations ≡ 8 }
    requires live { IfSome tree (λ file. IsLive (V.state files.old).files file) }
    ensures kept { IsTrue (V.state files.old).tells → IsReadAs (V.state files.old).files catalog.now
        → AreSoundBeside (V.state files.old).files half.now
        → IsReadIndex (V.state files.old).files slot (index_in entry.now) → entry.now.kind ≡ OfHeap
        → IsFileNamed (V.state files.old).files (tree_file slot) tree
        → IfOk result (λ is. Decides is (IsKeptBeside (V.state files.old).files half.now slot)) }
    ensures frame { OnlyReads V.state V.lent V.reads V.faults files.old files.new result }
{
    match tree {
        None => Ok(is_treeless(half, slot)),
        Some(file) => {
            let sound = is_sound_tree(files, catalog, half, entry, file)?;
            Ok(sound)
        }
    }
}

// Whether the keys of an index without a tree are as it requires.
fn has_sound_keys<V: Files>(
    files: &mut V,
    catalog: &Catalog,
    entry: &IndexEntry,
) -> Result<bool, Failed>
    requires relations { length catalog.now.relations ≡ 8 }
    ensures complete { IsTrue (V.state files.old).tells → IsReadAs (V.state files.old).files catalog.now
        → (half : AnyHalf) → AreSoundBeside (V.state files.old).files half
        → (i : ℕ) → IsReadIndex (V.state files.old).files i (index_in entry.now)
        → entry.now.kind ≢ OfHeap
        → IfOk result (λ is. Decides is (IsIndexComplete entry.now.kind
        (bytes_named (tree_file i) (V.state files.old).files) (keys_mended (V.state files.old).files (index_in entry.now)))) }
    ensures frame { OnlyReads V.state V.lent V.reads V.faults files.old files.new result }
{
    match keys_of(files, catalog, entry) {
        None => Ok(false),
        Some(keys) => {
            if is_hash_table(entry.kind) {
                return Ok(are_few(keys.slots));
            }
            let broken = ordered(files, &keys.column, keys.slots)?;
            Ok(is_none(&broken))
        }
    }
}

/// Whether a file is the tree of an index's keys.
pub fn has_whole_tree<V: Files>(
    files: &mut V,
    catalog: &Catalog,
    entry: &IndexEntry,
    tree: FileId,
) -> Result<bool, Failed>
    requires relations { length catalog.now.relations ≡ 8 }
    requires live { IsLive (V.state files.old).files tree }
    ensures whole { IsTrue (V.state files.old).tells → IsReadAs (V.state files.old).files catalog.now
        → (i : ℕ) → IsReadIndex (V.state files.old).files i (index_in entry.now)
        → entry.now.kind ≡ OfHeap
        → is_there (rows_file entry.now.relation) (V.state files.old).files ≡ true
        → IfOk result (λ is. Decides is (IsTreeOf
        (bytes_at (V.state files.old).files tree) (keys_mended (V.state files.old).files (index_in entry.now)))) }
    ensures frame { OnlyReads V.state V.lent V.reads V.faults files.old files.new result }
{
    match keys_of(files, catalog, entry) {
        None => Ok(false),
        Some(keys) => {
            if keys.column.width == 8 {
                return Ok(false);
            }
            match verify(files, tree, keys.column, keys.slots) {
                Ok(whole) => Ok(whole),
                Err(failed) => Err(failed),
            }
        }
    }
}

// Whether a tree is whole; or names slots of rows alone, where a key was being put into it.
fn is_sound_tree<V: Files>(
    files: &mut V,
    catalog: &Catalog,
    half: &Half,
    entry: &IndexEntry,
    tree: FileId,
) -> Result<bool, Failed>
    requires relations { length catalog.now.relations ≡ 8 }
    requires live { IsLive (V.state files.old).files tree }
    ensures sound { IsTrue (V.state files.old).tells → IsReadAs (V.state files.old).files catalog.now
        → AreSoundBeside (V.state files.old).files half.now
        → (i : ℕ) → IsReadIndex (V.state files.old).files i (index_in entry.now)
        → entry.now.kind ≡ OfHeap
        → IfOk result (λ is. Decides is (IsIndexWhile half.now (index_in entry.now)
        (bytes_at (V.state files.old).files tree) (keys_mended (V.state files.old).files (index_in entry.now)))) }
    ensures frame { OnlyReads V.state V.lent V.reads V.faults files.old files.new result }
{
    let whole = has_whole_tree(files, catalog, entry, tree)?;
    if whole {
        return Ok(true);
    }
    if !is_adding_key(half, entry.relation.number()) {
        return Ok(false);
    }
    match keys_of(files, catalog, entry) {
        None => Ok(false),
        Some(keys) => {
            if keys.slots == 0 {
                return Ok(false);
            }
            let only = names_slots_only(files, tree, keys.slots)?;
            Ok(only)
        }
    }
}

// Whether no pair of a tree names a slot after this many.
fn names_slots_only<V: Files>(files: &mut V, tree: FileId, slots: u16) -> Result<bool, Failed>
    requires live { IsLive (V.state files.old).files tree }
    ensures only { let bytes = bytes_at (V.state files.old).files tree in
        IsTrue (V.state files.old).tells → IfOk result (λ only. Decides only (NamesOnly slots bytes)) }
    ensures frame { OnlyReads V.state V.lent V.reads V.faults files.old files.new result }
{
    let size = files.size(tree);
    let mut at = HEAD_SIZE as u32;
    while at < size {
        let count = at_most(PAIRS_SIZE as u32, size - at);
        let only = names_slots_at(files, tree, at, count, slots)?;
        if !only {
            return Ok(false);
        }
        at += at_most(BUCKET_SIZE as u32, size - at);
    }
    Ok(true)
}

// So many bytes, or those that are left.
fn at_most(most: u32, left: u32) -> u32
    ensures few { result ≤ most }
    ensures within { result ≤ left }
    ensures all { (result ≡ most) ⊎ (result ≡ left) }
{
    if left < most { left } else { most }
}

// The same of the pairs in so many bytes from a place on.
fn names_slots_at<V: Files>(
    files: &mut V,
    tree: FileId,
    at: u32,
    count: u32,
    slots: u16,
) -> Result<bool, Failed>
    requires live { IsLive (V.state files.old).files tree }
    requires few { count ≤ 192 }
    requires inside { at + count ≤ length (bytes_at (V.state files.old).files tree) }
    ensures only { let bytes = bytes_at (V.state files.old).files tree in
        IsTrue (V.state files.old).tells → IfOk result
        (λ only. Decides only (NamesWithin slots (slice_range bytes at (at + count)))) }
    ensures frame { OnlyReads V.state V.lent V.reads V.faults files.old files.new result }
{
    let mut bytes = [0; PAIRS_SIZE];
    let pairs = &mut bytes[..count as usize];
    files.read(tree, at, pairs)?;
    Ok(name_slots_only(pairs, slots))
}

// Whether no whole pair names a slot behind so many. A pair has slot + 1, and 0 where it is empty.
fn name_slots_only(pairs: &[u8], slots: u16) -> bool
    ensures { Decides result (NamesWithin slots pairs.now) }
{
    for pair in 0..pairs.len() / PAIR_SIZE {
        if get_u16(pairs, PAIR_SIZE * pair + 4) > slots {
            return false;
        }
    }
    true
}
