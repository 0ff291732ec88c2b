//! What an insert needs.

#![tactic(auto)]

ghost use Rattle.std.specs.Prelude.{◌≡◌, ◌+◌, ◌<◌, ◌≤◌, List, ℤ, None, IsTrue, IfOk};
ghost use Rattle.afl_base.specs.Keeping.{OnlyReads};
ghost use Rattle.afl_base.specs.Files.{IsLive, bytes_at, size_at};
ghost use Rattle.db_model.specs.Cost.{keys_beside};
ghost use Rattle.index_tree.specs.Trees.{IsTreeOf};
ghost use Rattle.index_maxheap.specs.Rooms.{IsRoomIn, room_at, room_of};
ghost use Rattle.index_maxheap.specs.Searches.{walk_left};

use crate::ends::find_end;
use crate::rooms::{End, Room};
use crate::tree::{BUCKET_SIZE, HEAD_SIZE};
use afl_base::{Failed, FileId, Files, regions};

// What an insert at an end of a path needs.
fn room_for(end: End) -> Room
    ensures room { result ≡ room_at end }
    ensures end { result.end ≡ end }
    ensures few { (result.overwrites ≤ 2) × (result.bytes ≤ 195) }
    ensures none { result.overwrites ≡ 0 → result.bytes ≡ 0 }
{
    match end {
        End::Pair { at } => Room {
            overwrites: regions(at, 6),
            bytes: 0,
            end,
        },
        End::Bucket { at } => Room {
            overwrites: regions(at, 2),
            bytes: BUCKET_SIZE as u32,
            end,
        },
        End::Nowhere => Room {
            overwrites: 0,
            bytes: 0,
            end,
        },
    }
}

/// What an insert of the key needs. Where the pair goes into a bucket that is there, it is the regions
/// that its 6 bytes touch, and no bytes; where a bucket is appended, the regions that the 2 bytes of its
/// number touch, and 195.
pub fn room<V: Files>(files: &mut V, index: FileId, key: &i32) -> Result<Room, Failed>
    requires live { IsLive (V.state files.old).files index }
    ensures room { IsTrue (V.state files.old).tells → (keys : List ℤ)
        → IsTreeOf (bytes_at (V.state files.old).files index) keys
        → IfOk result (λ room. room ≡ room_of (bytes_at (V.state files.old).files index) key.now) }
    ensures place { IfOk result (λ room. IsRoomIn room (size_at (V.state files.old).files index)) }
    ensures few { IfOk result (λ room. (room.overwrites ≤ 2) × (room.bytes ≤ 195)) }
    ensures small { IfOk result (λ room. 0 < room.overwrites
        → size_at (V.state files.old).files index ≤ 268000) }
    ensures none { IfOk result (λ room. room.overwrites ≡ 0 → room.bytes ≡ 0) }
    ensures reads { IsTrue (V.state files.old).tells → (keys : List ℤ)
        → IsTreeOf (bytes_at (V.state files.old).files index) keys
        → V.reads files.new ≤ V.reads files.old + walk_left (keys_beside key.now keys) None }
    ensures frame { OnlyReads V.state V.lent V.reads V.faults files.old files.new result }
{
    let size = files.size(index);
    if size < HEAD_SIZE as u32 {
        return Ok(room_for(End::Nowhere));
    }
    if size > 268_000 {
        return Ok(room_for(End::Nowhere));
    }
    let end = find_end(files, index, key)?;
    let room = room_for(end);
    Ok(room)
}
