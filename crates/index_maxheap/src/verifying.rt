//! Whether a file is the tree of a column.

#![tactic(auto)]

ghost use Rattle.std.specs.Prelude.{◌≡◌, ◌≢◌, ◌+◌, ◌*◌, ◌-◌, ◌^◌, ◌<◌, ◌≤◌, ◌⊎◌, ℕ, ℤ, pos, true, false, length, IsTrue, IfOk, IfSome, OnOk, get_or, slice_range, ◌%◌};
ghost use Rattle.afl_base.specs.Keeping.{OnlyReads};
ghost use Rattle.std.specs.Ordering.{int_eq};
ghost use Rattle.afl_base.specs.Fields.{i32_at, u16_at};
ghost use Rattle.afl_base.specs.Files.{IsLive, bytes_at, size_at};
ghost use Rattle.afl_base.specs.KeyColumn.{HasField, IsWidth, key_of};
ghost use Rattle.index_tree.specs.Pairs.{pairs_of};
ghost use Rattle.afl_base.specs.Keys.{first_keys};
ghost use Rattle.index_tree.specs.Trees.{IsTreeOf};
ghost use Rattle.index_tree.specs.TreeFile.{bucket_place, key_at, slot_at};
ghost use Rattle.index_maxheap.specs.Verify.{AreHeads, Goes, HasSeen, IsNodeDone, Opens};

use crate::loads::level_with_room;
use crate::path::node;
use crate::tree::{BUCKET_SIZE, HEAD_SIZE, NEXT_AT, bucket_place, filled, read_bucket};
use afl_base::{Failed, FileId, Files, KeyColumn, SlotNo, get_i32, get_u16};

/// The number after a bucket, and how many pairs it has in front of its empty ones.
#[derive(Clone, Copy)]
pub struct Tail {
    pub next: u16,
    pub fill: u8,
}

/// Of each node how many pairs were seen, and its last bucket: its place, the number after it, and how
/// many pairs it has.
#[derive(Drop)]
pub struct Seen {
    pub loads: [u16; 341],
    pub places: [u32; 341],
    pub nexts: [u16; 341],
    pub fills: [u8; 341],
}

fn is_key(bytes: &[u8], at: usize, key: &i32) -> bool
    requires { at + 4 ≤ length bytes.now }
    ensures { result ≡ int_eq (i32_at bytes.now at) key.now }
{
    get_i32(bytes, at) == *key
}

// Whether no pair from one on has a slot or a key.
fn is_blank(bytes: &[u8; BUCKET_SIZE], from: u8) -> bool
    ensures yes { result ≡ true → (i : ℕ) → from ≤ i → i < 32 → (slot_at bytes.now 0 i ≡ 0)
        × (key_at bytes.now 0 i ≡ pos 0) }
    ensures no_ { result ≡ false → (i : ℕ) × (from ≤ i) × (i < 32)
        × ((slot_at bytes.now 0 i ≢ 0) ⊎ (key_at bytes.now 0 i ≢ pos 0)) }
{
    for pair in from..32 {
        if get_u16(bytes, 6 * usize::from(pair) + 4) != 0 {
            return false;
        }
        if !is_key(bytes, 6 * usize::from(pair), &0) {
            return false;
        }
    }
    true
}

// Whether the bucket of an upper node has a number after it.
fn is_upper(level: u8, next: u16) -> bool
    ensures yes { result ≡ true → (level < 4) × (next ≢ 0) }
    ensures no_ { result ≡ false → level < 4 → next ≡ 0 }
{
    level < 4 && next != 0
}

// The tail of a bucket that the pair of a key and slot opens, at a level.
fn open_bucket<V: Files>(
    files: &mut V,
    index: FileId,
    number: u16,
    level: u8,
    key: &i32,
    slot: SlotNo,
) -> Result<Option<Tail>, Failed>
    requires live { IsLive (V.state files.old).files index }
    ensures opens { IsTrue (V.state files.old).tells
        → IfOk result (λ tail. Opens tail (bytes_at (V.state files.old).files index) number level (record { key = key.now; slot = slot })) }
    ensures safe { IfOk result (λ tail. IfSome tail (λ _. (number ≢ 0)
        × (bucket_place number ≤ size_at (V.state files.old).files index))) }
    ensures reads { V.reads files.new ≤ V.reads files.old + 9 }
    ensures frame { OnlyReads V.state V.lent V.reads V.faults files.old files.new result }
{
    if number == 0 {
        return Ok(None);
    }
    if files.size(index) < bucket_place(number) {
        return Ok(None);
    }
    let mut bytes = [0; BUCKET_SIZE];
    read_bucket(files, index, number, &mut bytes)?;
    if get_u16(&bytes, 4) != slot.number() + 1 {
        return Ok(None);
    }
    if !is_key(&bytes, 0, key) {
        return Ok(None);
    }
    if bytes[BUCKET_SIZE - 1] != 1 {
        return Ok(None);
    }
    let fill = filled(&bytes);
    if !is_blank(&bytes, fill) {
        return Ok(None);
    }
    let next = get_u16(&bytes, NEXT_AT);
    if is_upper(level, next) {
        return Ok(None);
    }
    Ok(Some(Tail { next, fill }))
}

// Whether the pair of a key and slot stands at a place.
fn has_pair<V: Files>(
    files: &mut V,
    index: FileId,
    at: u32,
    key: &i32,
    slot: SlotNo,
) -> Result<bool, Failed>
    requires live { IsLive (V.state files.old).files index }
    requires range { at + 6 ≤ size_at (V.state files.old).files index }
    ensures yes { IsTrue (V.state files.old).tells
        → IfOk result (λ has. has ≡ true
        → (i32_at (bytes_at (V.state files.old).files index) at ≡ key.now)
        × (u16_at (bytes_at (V.state files.old).files index) (at + 4) ≡ slot + 1)) }
    ensures no_ { IsTrue (V.state files.old).tells
        → IfOk result (λ has. has ≡ false
        → i32_at (bytes_at (V.state files.old).files index) at ≡ key.now
        → u16_at (bytes_at (V.state files.old).files index) (at + 4) ≢ slot + 1) }
    ensures reads { V.reads files.new ≤ V.reads files.old + 6 }
    ensures frame { OnlyReads V.state V.lent V.reads V.faults files.old files.new result }
{
    let mut bytes = [0; 6];
    files.read(index, at, &mut bytes)?;
    if get_u16(&bytes, 4) != slot.number() + 1 {
        return Ok(false);
    }
    if !is_key(&bytes, 0, key) {
        return Ok(false);
    }
    Ok(true)
}

// The number of the bucket that a node opens next.
fn number_for(heads: &[u8; HEAD_SIZE], node: u16, load: u16, next: u16) -> u16
    requires { node ≤ 340 }
    ensures first { load ≡ 0 → result ≡ u16_at heads.now (2 * node) }
    ensures later { load ≢ 0 → result ≡ next }
{
    if load == 0 {
        get_u16(heads, 2 * usize::from(node))
    } else {
        next
    }
}

// Looks at the next slot's pair. It answers how many buckets it opens, or None where the file is no
// tree with that slot.
fn verify_slot<V: Files>(
    files: &mut V,
    index: FileId,
    heads: &[u8; HEAD_SIZE],
    seen: &mut Seen,
    key: &i32,
    slot: SlotNo,
) -> Result<Option<u16>, Failed>
    requires live { IsLive (V.state files.old).files index }
    requires light { (i : ℕ) → get_or seen.old.loads i 0 ≤ slot }
    requires inside { (i : ℕ)
        → get_or seen.old.places i 0 + 195 ≤ size_at (V.state files.old).files index }
    requires low { (i : ℕ) → get_or seen.old.places i 0 < 2 ^ 25 }
    ensures goes { IsTrue (V.state files.old).tells → (f : ℕ → ℤ) → key.now ≡ f slot
        → AreHeads heads.now (bytes_at (V.state files.old).files index) →
        HasSeen (bytes_at (V.state files.old).files index) seen.old (pairs_of f slot) →
        IfOk result (λ opens. Goes opens (bytes_at (V.state files.old).files index) f slot
        (λ _. HasSeen (bytes_at (V.state files.old).files index) seen.new (pairs_of f (slot + 1)))) }
    ensures light { IfOk result (λ opens. IfSome opens (λ n. (n ≤ 1)
        × ((i : ℕ) → get_or seen.new.loads i 0 ≤ slot + 1))) }
    ensures inside { IfOk result (λ opens. (i : ℕ)
        → get_or seen.new.places i 0 + 195 ≤ size_at (V.state files.old).files index) }
    ensures low { IfOk result (λ opens. (i : ℕ) → get_or seen.new.places i 0 < 2 ^ 25) }
    ensures reads { V.reads files.new ≤ V.reads files.old + 9 }
    ensures frame { OnlyReads V.state V.lent V.reads V.faults files.old files.new result }
{
    let level = level_with_room(&seen.loads, key);
    let node = node(key, level);
    let n = usize::from(node);
    let load = seen.loads[n];
    if load % 32 != 0 {
        if !has_pair(
            files,
            index,
            seen.places[n] + 6 * u32::from(load % 32),
            key,
            slot,
        )? {
            return Ok(None);
        }
        seen.loads[n] = load + 1;
        return Ok(Some(0));
    }
    let number = number_for(heads, node, load, seen.nexts[n]);
    match open_bucket(files, index, number, level, key, slot)? {
        None => Ok(None),
        Some(tail) => {
            seen.loads[n] = load + 1;
            seen.places[n] = bucket_place(number - 1);
            seen.nexts[n] = tail.next;
            seen.fills[n] = tail.fill;
            Ok(Some(1))
        }
    }
}

// The numbers of the nodes, and the byte after them.
fn read_heads<V: Files>(
    files: &mut V,
    index: FileId,
    heads: &mut [u8; HEAD_SIZE],
) -> Result<(), Failed>
    requires live { IsLive (V.state files.old).files index }
    requires range { 683 ≤ size_at (V.state files.old).files index }
    ensures bytes { IsTrue (V.state files.old).tells
        → OnOk result (heads.new ≡ slice_range (bytes_at (V.state files.old).files index) 0 683) }
    ensures long { length heads.new ≡ 683 }
    ensures reads { V.reads files.new ≤ V.reads files.old + 18 }
    ensures frame { OnlyReads V.state V.lent V.reads V.faults files.old files.new result }
{
    let all = &mut heads[..];
    files.read(index, 0, all)?;
    Ok(())
}

// Whether a node has no number, or a last bucket with no pair after those that were seen.
fn is_done(heads: &[u8; HEAD_SIZE], node: u16, load: u16, next: u16, fill: u8) -> bool
    requires { node ≤ 340 }
    ensures yes { result ≡ true → IsNodeDone heads.now node load next fill }
    ensures no_ { result ≡ false → IsNodeDone heads.now node load next fill → ⊥ }
{
    if load == 0 {
        return get_u16(heads, 2 * usize::from(node)) == 0;
    }
    if u16::from(fill) != (load - 1) % 32 + 1 {
        return false;
    }
    next == 0
}

// Whether all nodes are.
fn are_done(heads: &[u8; HEAD_SIZE], seen: &Seen) -> bool
    ensures yes { result ≡ true → (n : ℕ) → n < 341
        → IsNodeDone heads.now n (get_or seen.now.loads n 0) (get_or seen.now.nexts n 0) (get_or seen.now.fills n 0) }
    ensures no_ { result ≡ false → (n : ℕ) × (n < 341)
        × (IsNodeDone heads.now n (get_or seen.now.loads n 0) (get_or seen.now.nexts n 0) (get_or seen.now.fills n 0)
        → ⊥) }
{
    for node in 0..341u16 {
        let n = usize::from(node);
        if !is_done(heads, node, seen.loads[n], seen.nexts[n], seen.fills[n]) {
            return false;
        }
    }
    true
}

/// Whether the file is the tree of the first `slots` keys. It reads each key once.
pub fn verify<V: Files>(
    files: &mut V,
    index: FileId,
    column: KeyColumn,
    slots: u16,
) -> Result<bool, Failed>
    requires live { IsLive (V.state files.old).files index }
    requires width { IsWidth column.width }
    requires narrow { column.width ≢ 8 }
    requires slots { slots ≤ 32768 }
    requires fields { (slot : ℕ) → slot < slots → HasField (V.state files.old) column slot }
    ensures tree { IsTrue (V.state files.old).tells
        → IfOk result (λ meets. meets ≡ true
        → IsTreeOf (bytes_at (V.state files.old).files index) (first_keys (key_of (V.state files.old) column) slots)) }
    ensures no_tree { IsTrue (V.state files.old).tells
        → IfOk result (λ meets. meets ≡ false
        → IsTreeOf (bytes_at (V.state files.old).files index) (first_keys (key_of (V.state files.old) column) slots)
        → ⊥) }
    ensures reads { V.reads files.new ≤ V.reads files.old + (15 * slots + 2048) }
    ensures frame { OnlyReads V.state V.lent V.reads V.faults files.old files.new result }
{
    let size = files.size(index);
    if size < HEAD_SIZE as u32 {
        return Ok(false);
    }
    let mut heads = [0u8; HEAD_SIZE];
    read_heads(files, index, &mut heads)?;
    if heads[HEAD_SIZE - 1] != 1 {
        return Ok(false);
    }
    let mut seen = Seen {
        loads: [0; 341],
        places: [0; 341],
        nexts: [0; 341],
        fills: [0; 341],
    };
    let mut opened = 0u16;
    let column = &column;
    for slot in 0..slots {
        let Some(slot) = SlotNo::new(slot) else {
            return Ok(false);
        };
        let key = column.key(files, slot)?;
        match verify_slot(files, index, &heads, &mut seen, &key, slot)? {
            None => return Ok(false),
            Some(opens) => opened += opens,
        }
    }
    if size != bucket_place(opened) {
        return Ok(false);
    }
    Ok(are_done(&heads, &seen))
}
