//! The slots of a key, one after the other.

#![tactic(auto)]

ghost use Rattle.std.specs.Prelude.{◌≡◌, ◌+◌, ◌*◌, ◌-◌, ◌<◌, ◌≤◌, ◌&&◌, ℕ, ℤ, List, MatchOption, Some, length, nat_lt, slice_range, IsTrue, IfOk, IfSome};
ghost use Rattle.afl_base.specs.Keeping.{OnlyReads};
ghost use Rattle.std.specs.Ordering.{int_eq};
ghost use Rattle.afl_base.specs.Files.{IsLive, bytes_at, size_at};
ghost use Rattle.db_model.specs.Cost.{keys_beside};
ghost use Rattle.afl_base.specs.Keys.{HasNone, IsFirstOf};
ghost use Rattle.index_tree.specs.Pairs.{Pair};
ghost use Rattle.index_tree.specs.TreeFile.{HoldsPairs, bucket_place, key_at, number_of, slot_at};
ghost use Rattle.index_tree.specs.Trees.{IsTreeOf};
ghost use Rattle.index_maxheap.specs.Searches.{IsPlaceOf, IsSafe, IsSafeStep, IsShort, IsStart, Scans, LooksInto, TellsHop, hop_after, number_reads, walk_left};

use crate::hints::hinted;
use crate::path::node;
use crate::places::{Found, Place};
use crate::tree::{BUCKET_SIZE, HEAD_SIZE, NEXT_AT, bucket_place, read_bucket, read_number};
use afl_base::{Failed, FileId, Files, SlotNo, get_i32, get_u16};

/// What a look into one bucket comes to.
#[derive(Clone, Copy)]
pub enum Step {
    Found { slot: SlotNo, place: Place },
    End,
    Onward { place: Place },
}

/// What a search in a bucket comes to.
#[derive(Clone, Copy)]
pub enum Scanned {
    Found { pair: u8, slot: u16 },
    End,
    Passed,
}

/// Slot + 1 in a pair of a bucket, 0 in an empty one.
pub(crate) fn slot_in(bytes: &[u8; BUCKET_SIZE], pair: u8) -> u16
    requires { pair < 32 }
    ensures { result ≡ slot_at bytes.now 0 pair }
{
    get_u16(bytes, 6 * usize::from(pair) + 4)
}

/// Whether a pair of a bucket has the key.
pub(crate) fn has_key(bytes: &[u8; BUCKET_SIZE], pair: u8, key: &i32) -> bool
    requires { pair < 32 }
    ensures { result ≡ int_eq (key_at bytes.now 0 pair) key.now }
{
    get_i32(bytes, 6 * usize::from(pair)) == *key
}

// Whether a pair has the key, and a slot that is not below one.
fn is_wanted(bytes: &[u8; BUCKET_SIZE], pair: u8, key: &i32, from: u16) -> bool
    requires { pair < 32 }
    ensures { result ≡ (int_eq (key_at bytes.now 0 pair) key.now && nat_lt from (slot_at bytes.now 0 pair)) }
{
    has_key(bytes, pair, key) && from < slot_in(bytes, pair)
}

// Looks for a key in a bucket, from a pair on, and passes slots that are below one. The pairs are filled in
// order, and an empty one is never wanted: so only the last tells whether the bucket is full.
fn scan(bytes: &[u8; BUCKET_SIZE], start: u8, key: &i32, from: u16) -> Scanned
    requires { start ≤ 32 }
    ensures short { IsShort result from }
    ensures scans { (rest : List Pair) → HoldsPairs bytes.now 0 rest → start ≤ length rest
        → Scans result key.now from rest start }
{
    for pair in start..32 {
        if is_wanted(bytes, pair, key, from) {
            let number = slot_in(bytes, pair);
            return Scanned::Found {
                pair,
                slot: number - 1,
            };
        }
    }
    let last = slot_in(bytes, 31);
    if last == 0 {
        return Scanned::End;
    }
    Scanned::Passed
}

// The number of the bucket after a full one, 0 for none. A node's number touches one region.
fn number_onward<V: Files>(
    files: &mut V,
    index: FileId,
    place: Place,
    bytes: &[u8; BUCKET_SIZE],
    key: &i32,
) -> Result<u16, Failed>
    requires live { IsLive (V.state files.old).files index }
    requires heads { 683 ≤ size_at (V.state files.old).files index }
    requires safe { IsSafe place }
    requires bytes { IsTrue (V.state files.old).tells
        → bytes.now ≡ slice_range (bytes_at (V.state files.old).files index) (bucket_place (place.bucket - 1)) (bucket_place (place.bucket - 1) + 195) }
    ensures number { let bytes = bytes_at (V.state files.old).files index in
        IsTrue (V.state files.old).tells → (hop : ℕ) → TellsHop place.hop hop
        → place.bucket ≡ number_of bytes key.now hop
        → IfOk result (λ n. n ≡ number_of bytes key.now (hop + 1)) }
    ensures reads { let before = V.reads files.old in
        V.reads files.new + number_reads place.hop ≤ before + number_reads (place.hop + 1) }
    ensures frame { OnlyReads V.state V.lent V.reads V.faults files.old files.new result }
{
    if place.hop < 4 {
        read_number(files, index, 2 * u32::from(node(key, place.hop as u8 + 1)))
    } else {
        Ok(get_u16(bytes, NEXT_AT))
    }
}

// Looks for a key in the bucket of a place.
fn look_in<V: Files>(
    files: &mut V,
    index: FileId,
    place: Place,
    key: &i32,
    from: u16,
) -> Result<Step, Failed>
    requires live { IsLive (V.state files.old).files index }
    requires heads { 683 ≤ size_at (V.state files.old).files index }
    requires safe { IsSafe place }
    requires near { place.hop < 65535 }
    ensures steps { IsTrue (V.state files.old).tells → (keys : List ℤ)
        → IsTreeOf (bytes_at (V.state files.old).files index) keys
        → IsPlaceOf (bytes_at (V.state files.old).files index) keys key.now from (Some place)
        → IfOk result (λ s. LooksInto s (bytes_at (V.state files.old).files index) keys key.now from) }
    ensures safe { IfOk result (λ s. IsSafeStep s place.hop from) }
    ensures cost { let before = V.reads files.old in IfOk result (λ s.
        V.reads files.new + number_reads place.hop ≤ before + 9 + number_reads (hop_after s place.hop)) }
    ensures reads { let before = V.reads files.old in
        V.reads files.new + number_reads place.hop ≤ before + 9 + number_reads (place.hop + 1) }
    ensures frame { OnlyReads V.state V.lent V.reads V.faults files.old files.new result }
{
    if files.size(index) < bucket_place(place.bucket) {
        return Ok(Step::End);
    }
    let mut bytes = [0; BUCKET_SIZE];
    read_bucket(files, index, place.bucket, &mut bytes)?;
    match scan(&bytes, place.pair, key, from) {
        Scanned::Found { pair, slot } => match SlotNo::new(slot) {
            None => Ok(Step::End),
            Some(slot) => Ok(Step::Found {
                slot,
                place: Place {
                    bucket: place.bucket,
                    pair: pair + 1,
                    hop: place.hop,
                },
            }),
        },
        Scanned::End => Ok(Step::End),
        Scanned::Passed => {
            let number = number_onward(files, index, place, &bytes, key)?;
            if number == 0 {
                return Ok(Step::End);
            }
            Ok(Step::Onward {
                place: Place {
                    bucket: number,
                    pair: 0,
                    hop: place.hop + 1,
                },
            })
        }
    }
}

// Walks from a place on. No path has more than 1,024 buckets.
fn walk<V: Files>(
    files: &mut V,
    index: FileId,
    start: Place,
    key: &i32,
    from: u16,
) -> Result<Option<Found>, Failed>
    requires live { IsLive (V.state files.old).files index }
    requires heads { 683 ≤ size_at (V.state files.old).files index }
    ensures next { IsTrue (V.state files.old).tells → (keys : List ℤ)
        → IsTreeOf (bytes_at (V.state files.old).files index) keys
        → IsStart (bytes_at (V.state files.old).files index) keys key.now from start
        → IfOk result (λ r. MatchOption r (HasNone key.now keys from)
        (λ f. IsFirstOf key.now keys from f.slot
        × IsPlaceOf (bytes_at (V.state files.old).files index) keys key.now (f.slot + 1) (Some f.place))) }
    ensures forward { IfOk result (λ r. IfSome r (λ f. from ≤ f.slot)) }
    ensures reads { IsTrue (V.state files.old).tells → (keys : List ℤ)
        → IsTreeOf (bytes_at (V.state files.old).files index) keys
        → IsStart (bytes_at (V.state files.old).files index) keys key.now from start
        → V.reads files.new ≤ V.reads files.old + walk_left (keys_beside key.now keys) (Some start) }
    ensures reads_found { IsTrue (V.state files.old).tells → (keys : List ℤ)
        → IsTreeOf (bytes_at (V.state files.old).files index) keys
        → IsStart (bytes_at (V.state files.old).files index) keys key.now from start
        → IfOk result (λ r. IfSome r (λ f. V.reads files.new + walk_left (keys_beside key.now keys) (Some f.place)
        ≤ V.reads files.old + walk_left (keys_beside key.now keys) (Some start) + 9)) }
    ensures frame { OnlyReads V.state V.lent V.reads V.faults files.old files.new result }
{
    if start.bucket == 0 {
        return Ok(None);
    }
    if start.pair > 32 {
        return Ok(None);
    }
    if start.hop > 1024 {
        return Ok(None);
    }
    let mut place = start;
    for hops in 0..1026u16 {
        match look_in(files, index, place, key, from)? {
            Step::Found {
                slot,
                place: behind,
            } => {
                return Ok(Some(Found {
                    slot,
                    place: behind,
                }));
            }
            Step::End => return Ok(None),
            Step::Onward { place: onward } => place = onward,
        }
    }
    Ok(None)
}

// Walks from the root on. It leaves the reads of one bucket of those that are promised.
fn walk_from_root<V: Files>(
    files: &mut V,
    index: FileId,
    key: &i32,
    from: u16,
) -> Result<Option<Found>, Failed>
    requires live { IsLive (V.state files.old).files index }
    requires heads { 683 ≤ size_at (V.state files.old).files index }
    ensures next { IsTrue (V.state files.old).tells → (keys : List ℤ)
        → IsTreeOf (bytes_at (V.state files.old).files index) keys
        → IfOk result (λ r. MatchOption r (HasNone key.now keys from)
        (λ f. IsFirstOf key.now keys from f.slot
        × IsPlaceOf (bytes_at (V.state files.old).files index) keys key.now (f.slot + 1) (Some f.place))) }
    ensures forward { IfOk result (λ r. IfSome r (λ f. from ≤ f.slot)) }
    ensures reads { IsTrue (V.state files.old).tells → (keys : List ℤ)
        → IsTreeOf (bytes_at (V.state files.old).files index) keys
        → V.reads files.new + 9 ≤ V.reads files.old + walk_left (keys_beside key.now keys) None }
    ensures reads_found { IsTrue (V.state files.old).tells → (keys : List ℤ)
        → IsTreeOf (bytes_at (V.state files.old).files index) keys
        → IfOk result (λ r. IfSome r (λ f. V.reads files.new + walk_left (keys_beside key.now keys) (Some f.place)
        ≤ V.reads files.old + walk_left (keys_beside key.now keys) None)) }
    ensures frame { OnlyReads V.state V.lent V.reads V.faults files.old files.new result }
{
    let bucket = read_number(files, index, 0)?;
    let root = Place {
        bucket,
        pair: 0,
        hop: 0,
    };
    walk(files, index, root, key, from)
}

/// The first slot of the key, from one on, at or after a place, and the place after it. `place` is
/// None for the root, or came from a call for the same key; `from` may have grown since. Nothing is
/// asked of `hint`: from the root the search goes on where it names the place after the slot before
/// `from`, which one look tells.
pub fn next<V: Files>(
    files: &mut V,
    index: FileId,
    key: &i32,
    place: Option<Place>,
    hint: Option<Place>,
    from: u16,
) -> Result<Option<Found>, Failed>
    requires live { IsLive (V.state files.old).files index }
    ensures next { IsTrue (V.state files.old).tells → (keys : List ℤ)
        → IsTreeOf (bytes_at (V.state files.old).files index) keys
        → IsPlaceOf (bytes_at (V.state files.old).files index) keys key.now from place
        → IfOk result (λ r. MatchOption r (HasNone key.now keys from)
        (λ f. IsFirstOf key.now keys from f.slot
        × IsPlaceOf (bytes_at (V.state files.old).files index) keys key.now (f.slot + 1) (Some f.place))) }
    ensures forward { IfOk result (λ r. IfSome r (λ f. from ≤ f.slot)) }
    ensures reads { IsTrue (V.state files.old).tells → (keys : List ℤ)
        → IsTreeOf (bytes_at (V.state files.old).files index) keys
        → IsPlaceOf (bytes_at (V.state files.old).files index) keys key.now from place
        → V.reads files.new ≤ V.reads files.old + walk_left (keys_beside key.now keys) place }
    ensures reads_found { IsTrue (V.state files.old).tells → (keys : List ℤ)
        → IsTreeOf (bytes_at (V.state files.old).files index) keys
        → IsPlaceOf (bytes_at (V.state files.old).files index) keys key.now from place
        → IfOk result (λ r. IfSome r (λ f. V.reads files.new + walk_left (keys_beside key.now keys) (Some f.place)
        ≤ V.reads files.old + walk_left (keys_beside key.now keys) place + 9)) }
    ensures frame { OnlyReads V.state V.lent V.reads V.faults files.old files.new result }
{
    if files.size(index) < HEAD_SIZE as u32 {
        return Ok(None);
    }
    match place {
        Some(place) => walk(files, index, place, key, from),
        None => match hinted(files, index, key, hint, from)? {
            Some(place) => walk(files, index, place, key, from),
            None => walk_from_root(files, index, key, from),
        },
    }
}
