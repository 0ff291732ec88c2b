//! Calls on hash trees whose premises are looked up first: of the files no more need be known than that
//! no draft is begun.

ghost use Rattle.std.specs.Prelude.{◌≡◌, ◌<◌, ◌≤◌, ◌*◌, IsTrue, OnOk, None};
ghost use Rattle.afl_base.specs.Files.{IsLive, IsUnnamed, size_at, used};

use afl_base::{FileError, FileId, Files, KeyColumn, Kind, Name, SlotNo};
use index_maxheap::{Found, Place, buckets_for, build, insert, next, room, verify};
use index_tree::a_tree_ends_in_a_mark;
use test_steps::is_free;

// The column of rows that have a key of two bytes and then the byte 1.
fn column(rows: FileId) -> KeyColumn
    ensures file { result.file ≡ rows }
    ensures row { result.row ≡ 3 }
    ensures at { result.at ≡ 0 }
    ensures width { result.width ≡ 2 }
{
    KeyColumn {
        file: rows,
        row: 3,
        at: 0,
        width: 2,
    }
}

// Whether a file has this many rows, at most 32,768.
fn has_rows<V: Files>(files: &V, rows: FileId, slots: u16) -> bool
    ensures live { IsTrue result → IsLive (V.state files.now).files rows }
    ensures slots { IsTrue result → slots ≤ 32768 }
    ensures size { IsTrue result → 3 * slots ≤ size_at (V.state files.now).files rows }
{
    if !files.live(rows) || slots > 32_768 {
        return false;
    }
    3 * u32::from(slots) <= files.size(rows)
}

/// The number of buckets of the tree of the keys of some rows.
pub fn buckets<V: Files>(files: &mut V, rows: FileId, slots: u16) -> Result<u16, FileError>
    requires idle { (V.state files.old).draft ≡ None }
    ensures idle { OnOk result ((V.state files.new).draft ≡ None) }
{
    if !has_rows(files, rows, slots) {
        return Err(FileError::Failed);
    }
    Ok(buckets_for(files, column(rows), slots)?)
}

/// Whether a file is the tree of the keys of some rows.
pub fn is_tree<V: Files>(
    files: &mut V,
    index: FileId,
    rows: FileId,
    slots: u16,
) -> Result<bool, FileError>
    requires idle { (V.state files.old).draft ≡ None }
    ensures idle { OnOk result ((V.state files.new).draft ≡ None) }
{
    if !files.live(index) || !has_rows(files, rows, slots) {
        return Err(FileError::Failed);
    }
    Ok(verify(files, index, column(rows), slots)?)
}

// The tree of the keys of some rows, in a new file.
fn build_tree<V: Files>(
    files: &mut V,
    name: Name,
    rows: FileId,
    slots: u16,
) -> Result<FileId, FileError>
    requires live { IsLive (V.state files.old).files rows }
    requires slots { slots ≤ 32768 }
    requires size { 3 * slots ≤ size_at (V.state files.old).files rows }
    requires idle { (V.state files.old).draft ≡ None }
    requires unnamed { IsUnnamed (V.state files.old).files name }
    requires used { used (V.state files.old).files < 32 }
    ensures idle { OnOk result ((V.state files.new).draft ≡ None) }
{
    let keys = column(rows);
    let most = buckets_for(files, keys, slots)?;
    files.draft(name, 683 + 195 * u32::from(most))?;
    build(files, keys, slots, most)?;
    a_tree_ends_in_a_mark();
    Ok(files.draft_commit()?)
}

/// The tree of the keys of some rows, in a new file of this name.
pub fn built_tree<V: Files>(
    files: &mut V,
    name: &[u8],
    rows: FileId,
    slots: u16,
) -> Result<FileId, FileError>
    requires idle { (V.state files.old).draft ≡ None }
    ensures idle { OnOk result ((V.state files.new).draft ≡ None) }
{
    let Some(name) = Name::new(name) else {
        return Err(FileError::Failed);
    };
    if !is_free(files, name) || !has_rows(files, rows, slots) {
        return Err(FileError::Failed);
    }
    build_tree(files, name, rows, slots)
}

/// Puts the key of the next slot into a tree.
pub fn put_key<V: Files>(
    files: &mut V,
    index: FileId,
    key: &i32,
    number: u16,
) -> Result<(), FileError>
    requires idle { (V.state files.old).draft ≡ None }
    ensures idle { OnOk result ((V.state files.new).draft ≡ None) }
{
    let Some(slot) = SlotNo::new(number) else {
        return Err(FileError::Failed);
    };
    if !files.live(index) || files.kind(index) != Kind::Doubling {
        return Err(FileError::Failed);
    }
    let room = room(files, index, key)?;
    if room.overwrites == 0 {
        return Ok(());
    }
    files.prepare(index, room.overwrites, room.bytes)?;
    insert(files, index, &room, key, slot)?;
    Ok(())
}

// Whether two searches found the same.
fn same_slot(one: &Option<Found>, other: &Option<Found>) -> bool {
    match (one, other) {
        (Some(one), Some(other)) => one.slot.number() == other.slot.number(),
        (Some(_), None) => false,
        (None, Some(_)) => false,
        (None, None) => true,
    }
}

// The first slot of a key from one on, where the search for the one before ended at a place. A search
// from the root that has the place for a hint must find the same.
fn found<V: Files>(
    files: &mut V,
    index: FileId,
    key: &i32,
    place: Option<Place>,
    from: u16,
) -> Result<Option<Found>, FileError>
    requires idle { (V.state files.old).draft ≡ None }
    ensures idle { OnOk result ((V.state files.new).draft ≡ None) }
{
    if !files.live(index) {
        return Err(FileError::Failed);
    }
    let found = next(files, index, key, place, None, from)?;
    let hinted = next(files, index, key, None, place, from)?;
    if !same_slot(&found, &hinted) {
        return Err(FileError::Failed);
    }
    Ok(found)
}

/// Whether a search answers exactly the slots of a key among the first of a list.
pub fn finds_all<V: Files>(
    files: &mut V,
    index: FileId,
    keys: &[i32],
    slots: u16,
    key: &i32,
) -> Result<bool, FileError>
    requires idle { (V.state files.old).draft ≡ None }
    ensures idle { OnOk result ((V.state files.new).draft ≡ None) }
{
    if usize::from(slots) > keys.len() {
        return Err(FileError::Failed);
    }
    let mut place: Option<Place> = None;
    let mut from = 0u16;
    for slot in 0..slots {
        if keys[usize::from(slot)] == *key {
            let Some(found) = found(files, index, key, place, from)? else {
                return Ok(false);
            };
            if found.slot.number() != slot {
                return Ok(false);
            }
            place = Some(found.place);
            from = slot + 1;
        }
    }
    Ok(found(files, index, key, place, from)?.is_none())
}
