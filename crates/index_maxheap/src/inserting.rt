//! Inserts.

#![tactic(auto)]

ghost use Rattle.std.specs.Prelude.{◌≡◌, ◌+◌, ◌-◌, ◌<◌, ◌≤◌, ◌∷◌, ◌++◌, ◌/◌, [], ℤ, List, length, IsTrue, OnErr, OnOk};
ghost use Rattle.afl_base.specs.CutFiles.{CutLeaves};
ghost use Rattle.afl_base.specs.Keeping.{Changes};
ghost use Rattle.afl_base.specs.Files.{IsLive, bytes_at, file_at, size_at};
ghost use Rattle.afl_base.specs.Regions.{regions};
ghost use Rattle.afl_base.specs.Sparing.{SparesPages};
ghost use Rattle.index_tree.specs.Pairs.{pair};
ghost use Rattle.index_tree.specs.Places.{KeepsNumbers};
ghost use Rattle.index_tree.specs.Trees.{IsTreeOf};
ghost use Rattle.index_maxheap.specs.Rooms.{HasRoomFor, MayInsert, MayPutBucket, MayPutPair, OnlyIndexChanges, PutsBucket, PutsPair, room_of};

use crate::bytes::{first_bucket, pair_bytes};
use crate::rooms::{End, Room};
use crate::tree::{BUCKET_SIZE, HEAD_SIZE};
use afl_base::{Failed, FileId, Files, SlotNo, put_u16};

/// Puts the pair of the key and the next slot into the tree, with the room that `room` said it needs.
/// Where that found no tree, it does nothing. What a cut leaves of a tree names the slots of rows alone.
pub fn insert<V: Files>(
    files: &mut V,
    index: FileId,
    room: &Room,
    key: &i32,
    slot: SlotNo,
) -> Result<(), Failed>
    requires live { IsLive (V.state files.old).files index }
    requires room { HasRoomFor (V.state files.old) index room.now }
    ensures grown { IsTrue (V.state files.old).tells → (keys : List ℤ)
        → IsTreeOf (bytes_at (V.state files.old).files index) keys
        → length keys ≡ slot → room.now ≡ room_of (bytes_at (V.state files.old).files index) key.now
        → OnOk result (IsTreeOf (bytes_at (V.state files.new).files index) (keys ++ key.now ∷ [])) }
    ensures keeps { IsTrue (V.state files.old).tells → (keys : List ℤ)
        → IsTreeOf (bytes_at (V.state files.old).files index) keys
        → length keys ≡ slot → room.now ≡ room_of (bytes_at (V.state files.old).files index) key.now
        → OnOk result (KeepsNumbers (bytes_at (V.state files.old).files index) (bytes_at (V.state files.new).files index)) }
    ensures only { OnOk result (OnlyIndexChanges (V.state files.old) (V.state files.new) index) }
    ensures spares { SparesPages V.is_free V.state files.old files.new result }
    ensures cut { CutLeaves V.cuts V.mends V.state files.old files.new (OnErr result)
        (λ after. MayInsert (V.state files.old) after index room.now key.now slot) }
    ensures frame { Changes V.state V.lent V.reads V.faults files.old files.new result }
{
    match room.end {
        End::Pair { at } => put_pair(files, index, at, key, slot),
        End::Bucket { at } => put_bucket(files, index, at, key, slot),
        End::Nowhere => Ok(()),
    }
}

// Writes a pair at a place.
fn put_pair<V: Files>(
    files: &mut V,
    index: FileId,
    at: u32,
    key: &i32,
    slot: SlotNo,
) -> Result<(), Failed>
    requires live { IsLive (V.state files.old).files index }
    requires range { at + 7 ≤ size_at (V.state files.old).files index }
    requires records { regions at 6 ≤ (file_at (V.state files.old).files index).records }
    ensures put { OnOk result
        (PutsPair (V.state files.old) (V.state files.new) index at (pair key.now slot)) }
    ensures spares { SparesPages V.is_free V.state files.old files.new result }
    ensures cut { CutLeaves V.cuts V.mends V.state files.old files.new (OnErr result)
        (λ after. MayPutPair (V.state files.old) after index at (pair key.now slot)) }
    ensures frame { Changes V.state V.lent V.reads V.faults files.old files.new result }
{
    let bytes = pair_bytes(key, slot);
    files.overwrite(index, at, &bytes)?;
    Ok(())
}

// Appends a bucket with one pair, and then writes its number to a place.
fn put_bucket<V: Files>(
    files: &mut V,
    index: FileId,
    at: u32,
    key: &i32,
    slot: SlotNo,
) -> Result<(), Failed>
    requires live { IsLive (V.state files.old).files index }
    requires range { at + 3 ≤ size_at (V.state files.old).files index }
    requires heads { 683 ≤ size_at (V.state files.old).files index }
    requires small { size_at (V.state files.old).files index ≤ 268000 }
    requires records { regions at 2 ≤ (file_at (V.state files.old).files index).records }
    requires room { 195 ≤ (file_at (V.state files.old).files index).room }
    ensures put { OnOk result
        (PutsBucket (V.state files.old) (V.state files.new) index at (pair key.now slot)) }
    ensures spares { SparesPages V.is_free V.state files.old files.new result }
    ensures cut { CutLeaves V.cuts V.mends V.state files.old files.new (OnErr result)
        (λ after. MayPutBucket (V.state files.old) after index at (pair key.now slot)) }
    ensures frame { Changes V.state V.lent V.reads V.faults files.old files.new result }
{
    let number = ((files.size(index) - HEAD_SIZE as u32) / BUCKET_SIZE as u32 + 1) as u16;
    let bucket = first_bucket(key, slot);
    files.append(index, &bucket)?;
    let mut bytes = [0; 2];
    put_u16(&mut bytes, 0, number);
    files.overwrite(index, at, &bytes)?;
    Ok(())
}
