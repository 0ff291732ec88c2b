//! The parts of a tree's file.

#![tactic(auto)]

ghost use Rattle.std.specs.Prelude.{◌≡◌, ◌≢◌, ◌+◌, ◌*◌, ◌-◌, ◌<◌, ◌≤◌, length, IsTrue, IfOk, OnOk, slice_range};
ghost use Rattle.afl_base.specs.Keeping.{OnlyReads};
ghost use Rattle.afl_base.specs.Fields.{u16_at};
ghost use Rattle.afl_base.specs.Files.{IsLive, bytes_at, size_at};
ghost use Rattle.afl_base.specs.Regions.{regions};
ghost use Rattle.index_tree.specs.Buckets.{IsFilledBucket};
ghost use Rattle.index_tree.specs.TreeFile.{bucket_place};

use afl_base::{Failed, FileId, Files, get_u16};

/// The bytes in front of all buckets: the numbers of the nodes, and the mark.
pub const HEAD_SIZE: usize = 683;

/// The bytes of a bucket.
pub const BUCKET_SIZE: usize = 195;

/// Where in a bucket the number of the next one stands.
pub const NEXT_AT: usize = 192;

/// Where the bucket after this many others begins.
pub fn bucket_place(buckets: u16) -> u32
    ensures { result ≡ bucket_place buckets }
{
    HEAD_SIZE as u32 + BUCKET_SIZE as u32 * u32::from(buckets)
}

/// The number of the two bytes at a place of the file.
#[tactic(auto, using(index_tree::proofs::Frames::number_alone))]
pub fn read_number<V: Files>(files: &mut V, index: FileId, at: u32) -> Result<u16, Failed>
    requires live { IsLive (V.state files.old).files index }
    requires range { at + 2 ≤ size_at (V.state files.old).files index }
    ensures number { IsTrue (V.state files.old).tells
        → IfOk result (λ n. n ≡ u16_at (bytes_at (V.state files.old).files index) at) }
    ensures reads { V.reads files.new ≤ V.reads files.old + 3 * regions at 2 }
    ensures frame { OnlyReads V.state V.lent V.reads V.faults files.old files.new result }
{
    let mut bytes = [0; 2];
    files.read(index, at, &mut bytes)?;
    Ok(get_u16(&bytes, 0))
}

/// The bytes of the bucket with a number that is not 0.
pub fn read_bucket<V: Files>(
    files: &mut V,
    index: FileId,
    number: u16,
    into: &mut [u8; BUCKET_SIZE],
) -> Result<(), Failed>
    requires live { IsLive (V.state files.old).files index }
    requires some { number ≢ 0 }
    requires range { bucket_place number ≤ size_at (V.state files.old).files index }
    ensures bytes { IsTrue (V.state files.old).tells
        → OnOk result (into.new ≡ slice_range (bytes_at (V.state files.old).files index) (bucket_place (number - 1)) (bucket_place (number - 1) + 195)) }
    ensures length { length into.new ≡ 195 }
    ensures reads { V.reads files.new ≤ V.reads files.old + 9 }
    ensures frame { OnlyReads V.state V.lent V.reads V.faults files.old files.new result }
{
    let all = &mut into[..];
    files.read(index, bucket_place(number - 1), all)?;
    Ok(())
}

/// How many pairs stand in a bucket before the first that is empty.
pub fn filled(bytes: &[u8; BUCKET_SIZE]) -> u8
    ensures { IsFilledBucket bytes.now result }
{
    for pair in 0..32u8 {
        if get_u16(bytes, 6 * usize::from(pair) + 4) == 0 {
            return pair;
        }
    }
    32
}
