//! The bytes that an insert writes.

#![tactic(auto)]

ghost use Rattle.std.specs.Prelude.{◌+◌};
ghost use Rattle.index_tree.specs.Buckets.{IsFirstBucket, IsPairBytes};

use crate::tree::BUCKET_SIZE;
use afl_base::{SlotNo, put_i32, put_u16};

/// The bytes of a pair.
pub fn pair_bytes(key: &i32, slot: SlotNo) -> [u8; 6]
    ensures { IsPairBytes result (record { key = key.now; slot = slot }) }
{
    let key = *key;
    let mut bytes = [0; 6];
    put_i32(&mut bytes, 0, key);
    put_u16(&mut bytes, 4, slot.number() + 1);
    bytes
}

/// The bytes of a bucket with one pair.
pub fn first_bucket(key: &i32, slot: SlotNo) -> [u8; BUCKET_SIZE]
    ensures { IsFirstBucket result (record { key = key.now; slot = slot }) }
{
    let key = *key;
    let mut bytes = [0; BUCKET_SIZE];
    put_i32(&mut bytes, 0, key);
    put_u16(&mut bytes, 4, slot.number() + 1);
    bytes[BUCKET_SIZE - 1] = 1;
    bytes
}
