//! Places that are believed after a look.

#![tactic(auto)]

ghost use Rattle.std.specs.Prelude.{◌≡◌, ◌≢◌, ◌+◌, ◌*◌, ◌<◌, ◌≤◌, true, ℕ, ℤ, List, None, Some, min, IsTrue, IfOk, IfSome, MatchOption};
ghost use Rattle.afl_base.specs.Keeping.{OnlyReads};
ghost use Rattle.afl_base.specs.Files.{IsLive, bytes_at, size_at};
ghost use Rattle.index_tree.specs.TreeFile.{bucket_place, number_of};
ghost use Rattle.index_tree.specs.Trees.{IsTreeOf};
ghost use Rattle.index_maxheap.specs.Searches.{IsBehind, IsOnPathAt, IsPlaceOf, MayStand, walk_left};

use crate::path::node;
use crate::places::Place;
use crate::searching::{has_key, slot_in};
use crate::tree::{BUCKET_SIZE, bucket_place, read_bucket, read_number};
use afl_base::{Failed, FileId, Files};

// Whether a place may stand after a pair of a chain. A path of nodes is as soon walked from its root.
fn may_stand(hint: Place, from: u16, size: u32) -> bool
    ensures stands { result ≡ true → MayStand hint from size }
{
    let is_in_chain = hint.hop >= 4 && hint.bucket != 0 && bucket_place(hint.bucket) <= size;
    is_in_chain && from != 0 && hint.pair != 0 && hint.pair <= 32
}

// Whether the pair before a place has the key, and the slot before one.
fn is_behind<V: Files>(
    files: &mut V,
    index: FileId,
    hint: Place,
    key: &i32,
    from: u16,
) -> Result<bool, Failed>
    requires live { IsLive (V.state files.old).files index }
    requires stands { MayStand hint from (size_at (V.state files.old).files index) }
    ensures behind { IsTrue (V.state files.old).tells → IfOk result (λ yes. yes ≡ true
        → IsBehind (bytes_at (V.state files.old).files index) key.now from hint) }
    ensures reads { V.reads files.new ≤ V.reads files.old + 9 }
    ensures frame { OnlyReads V.state V.lent V.reads V.faults files.old files.new result }
{
    let mut bytes = [0; BUCKET_SIZE];
    read_bucket(files, index, hint.bucket, &mut bytes)?;
    let before = hint.pair - 1;
    Ok(has_key(&bytes, before, key) && slot_in(&bytes, before) == from)
}

// The hop of a bucket of the path of a key: where one of the four upper nodes has it, else 4.
fn hop_of<V: Files>(files: &mut V, index: FileId, key: &i32, bucket: u16) -> Result<u16, Failed>
    requires live { IsLive (V.state files.old).files index }
    requires heads { 683 ≤ size_at (V.state files.old).files index }
    ensures hop { let bytes = bytes_at (V.state files.old).files index in
        IsTrue (V.state files.old).tells → (hop : ℕ) → bucket ≡ number_of bytes key.now hop
        → IfOk result (λ told. IsOnPathAt bytes key.now bucket told) }
    ensures cost { IfOk result (λ told. (told ≤ 4)
        × (V.reads files.new ≤ V.reads files.old + 3 * min (told + 1) 4)) }
    ensures reads { V.reads files.new ≤ V.reads files.old + 12 }
    ensures frame { OnlyReads V.state V.lent V.reads V.faults files.old files.new result }
{
    for level in 0..4u8 {
        let at = 2 * u32::from(node(key, level));
        let number = read_number(files, index, at)?;
        if number == bucket {
            return Ok(u16::from(level));
        }
    }
    Ok(4)
}

// The place of a hint, where it names the place after the slot before one.
fn place_of_hint<V: Files>(
    files: &mut V,
    index: FileId,
    key: &i32,
    hint: Place,
    from: u16,
) -> Result<Option<Place>, Failed>
    requires live { IsLive (V.state files.old).files index }
    requires heads { 683 ≤ size_at (V.state files.old).files index }
    ensures place { let bytes = bytes_at (V.state files.old).files index in
        IsTrue (V.state files.old).tells → (keys : List ℤ) → IsTreeOf bytes keys
        → IfOk result (λ r. IfSome r (λ place. IsPlaceOf bytes keys key.now from (Some place))) }
    ensures cost { IfOk result (λ r. MatchOption r (V.reads files.new ≤ V.reads files.old + 9)
        (λ place. (e : ℕ) → V.reads files.new + walk_left e (Some place)
        ≤ V.reads files.old + walk_left e None)) }
    ensures reads { V.reads files.new ≤ V.reads files.old + 21 }
    ensures frame { OnlyReads V.state V.lent V.reads V.faults files.old files.new result }
{
    if !may_stand(hint, from, files.size(index)) {
        return Ok(None);
    }
    if !is_behind(files, index, hint, key, from)? {
        return Ok(None);
    }
    let hop = hop_of(files, index, key, hint.bucket)?;
    Ok(Some(Place {
        bucket: hint.bucket,
        pair: hint.pair,
        hop,
    }))
}

/// The place that a hint names, where it is the one after the slot before one. It reads one bucket
/// where it is not, and else less than it saves.
pub fn hinted<V: Files>(
    files: &mut V,
    index: FileId,
    key: &i32,
    hint: Option<Place>,
    from: u16,
) -> Result<Option<Place>, Failed>
    requires live { IsLive (V.state files.old).files index }
    requires heads { 683 ≤ size_at (V.state files.old).files index }
    ensures place { let bytes = bytes_at (V.state files.old).files index in
        IsTrue (V.state files.old).tells → (keys : List ℤ) → IsTreeOf bytes keys
        → IfOk result (λ r. IfSome r (λ place. IsPlaceOf bytes keys key.now from (Some place))) }
    ensures cost { IfOk result (λ r. MatchOption r (V.reads files.new ≤ V.reads files.old + 9)
        (λ place. (e : ℕ) → V.reads files.new + walk_left e (Some place)
        ≤ V.reads files.old + walk_left e None)) }
    ensures reads { V.reads files.new ≤ V.reads files.old + 21 }
    ensures frame { OnlyReads V.state V.lent V.reads V.faults files.old files.new result }
{
    match hint {
        None => Ok(None),
        Some(hint) => place_of_hint(files, index, key, hint, from),
    }
}
