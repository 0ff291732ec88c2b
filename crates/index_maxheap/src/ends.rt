//! Walks to the end of a path.

#![tactic(auto)]

ghost use Rattle.std.specs.Prelude.{◌≡◌, ◌≢◌, ◌+◌, ◌*◌, ◌-◌, ◌/◌, ◌<◌, ◌≤◌, true, ℕ, ℤ, List, None, IsTrue, IfOk};
ghost use Rattle.afl_base.specs.Keeping.{OnlyReads};
ghost use Rattle.afl_base.specs.Files.{IsLive, bytes_at, size_at};
ghost use Rattle.db_model.specs.Cost.{keys_beside};
ghost use Rattle.index_tree.specs.Pairs.{Pair};
ghost use Rattle.index_tree.specs.TreeFile.{IsBucket, bucket_place};
ghost use Rattle.index_tree.specs.Trees.{IsTreeOf, numbered};
ghost use Rattle.index_maxheap.specs.Rooms.{IsWithin};
ghost use Rattle.index_maxheap.specs.Searches.{walk_left};
ghost use Rattle.index_maxheap.specs.Walks.{EndsPath, FindsInBucket, IsBeside, IsFullLowest, IsInChain, IsSafeLook, IsUnmet, LeadsOn};

use crate::path::node;
use crate::rooms::End;
use crate::tree::{
    BUCKET_SIZE, HEAD_SIZE, NEXT_AT, bucket_place, filled, read_bucket, read_number,
};
use afl_base::{Failed, FileId, Files, get_i32, get_u16};

/// What a look at the bucket of a number finds: no bucket, this many pairs, or 32 and the number in `next`.
#[derive(Clone, Copy)]
pub enum Look {
    None,
    Room { pair: u8 },
    Full { next: u16 },
}

// Looks at the bucket of a number.
fn look_at<V: Files>(files: &mut V, index: FileId, number: u16) -> Result<Look, Failed>
    requires live { IsLive (V.state files.old).files index }
    ensures looks { IsTrue (V.state files.old).tells → (rest : List Pair)
        → IsBucket (bytes_at (V.state files.old).files index) number rest
        → IfOk result (λ found. FindsInBucket found number rest) }
    ensures onward { IsTrue (V.state files.old).tells
        → IfOk result (λ found. LeadsOn found (bytes_at (V.state files.old).files index) number) }
    ensures safe { IfOk result (λ found. IsSafeLook found number (size_at (V.state files.old).files index)) }
    ensures none { number ≡ 0 → V.reads files.new ≤ V.reads files.old }
    ensures reads { V.reads files.new ≤ V.reads files.old + 9 }
    ensures frame { OnlyReads V.state V.lent V.reads V.faults files.old files.new result }
{
    if number == 0 {
        return Ok(Look::None);
    }
    if files.size(index) < bucket_place(number) {
        return Ok(Look::None);
    }
    let mut bytes = [0; BUCKET_SIZE];
    read_bucket(files, index, number, &mut bytes)?;
    let pair = filled(&bytes);
    if pair < 32 {
        return Ok(Look::Room { pair });
    }
    let next = get_u16(&bytes, NEXT_AT);
    Ok(Look::Full { next })
}

// The number of the last bucket in a file of this many bytes, 0 for none.
fn last_number(size: u32) -> u16
    requires heads { 683 ≤ size }
    requires small { size ≤ 268000 }
    ensures within { bucket_place result ≤ size }
{
    ((size - HEAD_SIZE as u32) / BUCKET_SIZE as u32) as u16
}

// The number of a bucket that was not met yet, 0 once it was.
fn unmet(last: u16, number: u16) -> u16
    ensures same { result ≢ 0 → result ≡ last }
    ensures other { result ≢ 0 → number ≢ result }
{
    if number == last { 0 } else { last }
}

// Whether the first key of a bucket has the same lowest node as another key.
fn is_beside<V: Files>(files: &mut V, index: FileId, number: u16, key: &i32) -> Result<bool, Failed>
    requires live { IsLive (V.state files.old).files index }
    requires some { number ≢ 0 }
    requires range { bucket_place number ≤ size_at (V.state files.old).files index }
    ensures beside { IsTrue (V.state files.old).tells → IfOk result (λ same. same ≡ true
        → IsBeside (bytes_at (V.state files.old).files index) number key.now) }
    ensures reads { V.reads files.new ≤ V.reads files.old + 9 }
    ensures frame { OnlyReads V.state V.lent V.reads V.faults files.old files.new result }
{
    let mut bytes = [0; 4];
    files.read(index, bucket_place(number - 1), &mut bytes)?;
    let first = get_i32(&bytes, 0);
    Ok(node(&first, 4) == node(key, 4))
}

// A bucket of the chain that begins with one: the last of the file, if it has that path and was not met,
// else the first. A chain that grew last ends in the last bucket of the file.
fn far_in_chain<V: Files>(
    files: &mut V,
    index: FileId,
    first: u16,
    last: u16,
    key: &i32,
) -> Result<u16, Failed>
    requires live { IsLive (V.state files.old).files index }
    requires range { bucket_place last ≤ size_at (V.state files.old).files index }
    ensures chain { let bytes = bytes_at (V.state files.old).files index in
        IsTrue (V.state files.old).tells → (keys : List ℤ) → IsTreeOf bytes keys
        → IsInChain bytes key.now 5 first → IsUnmet bytes key.now 5 last
        → IfOk result (λ number. (hop : ℕ) × (5 ≤ hop) × IsInChain bytes key.now hop number) }
    ensures reads { V.reads files.new ≤ V.reads files.old + 9 }
    ensures frame { OnlyReads V.state V.lent V.reads V.faults files.old files.new result }
{
    if last == 0 {
        return Ok(first);
    }
    if is_beside(files, index, last, key)? {
        Ok(last)
    } else {
        Ok(first)
    }
}

// Where a pair of the bucket with a number that is not 0 stands.
fn pair_place(number: u16, pair: u8) -> u32
    requires some { number ≢ 0 }
    requires short { pair < 32 }
    ensures { result ≡ bucket_place (number - 1) + 6 * pair }
{
    bucket_place(number - 1) + 6 * u32::from(pair)
}

// Where the number of the bucket after one of a chain stands.
fn next_place(number: u16) -> u32
    requires some { number ≢ 0 }
    ensures place { result ≡ bucket_place (number - 1) + 192 }
{
    bucket_place(number - 1) + NEXT_AT as u32
}

// The end of a chain, from one of its buckets on.
fn chain_end<V: Files>(files: &mut V, index: FileId, start: u16) -> Result<End, Failed>
    requires live { IsLive (V.state files.old).files index }
    requires heads { 683 ≤ size_at (V.state files.old).files index }
    requires small { size_at (V.state files.old).files index ≤ 268000 }
    ensures finds { let bytes = bytes_at (V.state files.old).files index in
        IsTrue (V.state files.old).tells → (keys : List ℤ) (key : ℤ) (hop : ℕ) → IsTreeOf bytes keys
        → IsInChain bytes key hop start → IfOk result (λ end. EndsPath end bytes (numbered 0 keys) key) }
    ensures within { IfOk result (λ end. IsWithin end (size_at (V.state files.old).files index)) }
    ensures reads { let bytes = bytes_at (V.state files.old).files index in
        IsTrue (V.state files.old).tells → (keys : List ℤ) (key : ℤ) (hop : ℕ) → IsTreeOf bytes keys
        → IsInChain bytes key hop start
        → V.reads files.new + 9 * hop ≤ V.reads files.old + 9 * (5 + keys_beside key keys / 32) }
    ensures frame { OnlyReads V.state V.lent V.reads V.faults files.old files.new result }
{
    let mut number = start;
    for turns in 0..1026u16 {
        match look_at(files, index, number)? {
            Look::None => return Ok(End::Nowhere),
            Look::Room { pair } => {
                return Ok(End::Pair {
                    at: pair_place(number, pair),
                });
            }
            Look::Full { next } => {
                if next == 0 {
                    return Ok(End::Bucket {
                        at: next_place(number),
                    });
                }
                number = next;
            }
        }
    }
    Ok(End::Nowhere)
}

// The end after the full bucket of a lowest node, `last` being the last bucket of the file or 0.
fn end_behind<V: Files>(
    files: &mut V,
    index: FileId,
    key: &i32,
    number: u16,
    next: u16,
    last: u16,
) -> Result<End, Failed>
    requires live { IsLive (V.state files.old).files index }
    requires heads { 683 ≤ size_at (V.state files.old).files index }
    requires small { size_at (V.state files.old).files index ≤ 268000 }
    requires some { number ≢ 0 }
    requires within { bucket_place number ≤ size_at (V.state files.old).files index }
    requires range { bucket_place last ≤ size_at (V.state files.old).files index }
    ensures finds { let bytes = bytes_at (V.state files.old).files index in
        IsTrue (V.state files.old).tells → (keys : List ℤ) → IsTreeOf bytes keys
        → IsFullLowest bytes (numbered 0 keys) key.now number next → IsUnmet bytes key.now 5 last
        → IfOk result (λ end. EndsPath end bytes (numbered 0 keys) key.now) }
    ensures within { IfOk result (λ end. IsWithin end (size_at (V.state files.old).files index)) }
    ensures reads { let bytes = bytes_at (V.state files.old).files index in
        IsTrue (V.state files.old).tells → (keys : List ℤ) → IsTreeOf bytes keys
        → IsFullLowest bytes (numbered 0 keys) key.now number next → IsUnmet bytes key.now 5 last
        → V.reads files.new ≤ V.reads files.old + 9 * (1 + keys_beside key.now keys / 32) }
    ensures frame { OnlyReads V.state V.lent V.reads V.faults files.old files.new result }
{
    if next == 0 {
        return Ok(End::Bucket {
            at: next_place(number),
        });
    }
    let start = far_in_chain(files, index, next, last, key)?;
    chain_end(files, index, start)
}

/// Where a pair of the key goes, in a file that is not too large for a tree.
pub fn find_end<V: Files>(files: &mut V, index: FileId, key: &i32) -> Result<End, Failed>
    requires live { IsLive (V.state files.old).files index }
    requires heads { 683 ≤ size_at (V.state files.old).files index }
    requires small { size_at (V.state files.old).files index ≤ 268000 }
    ensures finds { IsTrue (V.state files.old).tells → (keys : List ℤ)
        → IsTreeOf (bytes_at (V.state files.old).files index) keys
        → IfOk result (λ end. EndsPath end (bytes_at (V.state files.old).files index) (numbered 0 keys) key.now) }
    ensures within { IfOk result (λ end. IsWithin end (size_at (V.state files.old).files index)) }
    ensures reads { IsTrue (V.state files.old).tells → (keys : List ℤ)
        → IsTreeOf (bytes_at (V.state files.old).files index) keys
        → V.reads files.new ≤ V.reads files.old + walk_left (keys_beside key.now keys) None }
    ensures frame { OnlyReads V.state V.lent V.reads V.faults files.old files.new result }
{
    let mut last = last_number(files.size(index));
    for level in 0..5u8 {
        let at = 2 * u32::from(node(key, level));
        let number = read_number(files, index, at)?;
        match look_at(files, index, number)? {
            Look::None => return Ok(End::Bucket { at }),
            Look::Room { pair } => {
                return Ok(End::Pair {
                    at: pair_place(number, pair),
                });
            }
            Look::Full { next } => {
                last = unmet(last, number);
                if level == 4 {
                    return end_behind(files, index, key, number, next, last);
                }
            }
        }
    }
    Ok(End::Nowhere)
}
