//! A tree that is built in a draft.

#![tactic(auto)]

ghost use Rattle.std.specs.Prelude.{◌≡◌, ◌≢◌, ◌+◌, ◌*◌, ◌^◌, ◌<◌, ◌≤◌, ℕ, List, IsSome, IsTrue, OnErr, OnOk, length, replicate};
ghost use Rattle.afl_base.specs.CutFiles.{CutKeeps};
ghost use Rattle.afl_base.specs.Keeping.{Changes};
ghost use Rattle.afl_base.specs.Files.{draft_in};
ghost use Rattle.afl_base.specs.KeyColumn.{HasField, IsWidth, key_of};
ghost use Rattle.db_model.specs.HashTree.{buckets};
ghost use Rattle.index_maxheap.specs.Builds.{Builds, DraftsBucket, FitDraft, Gathers, HasOtherDraft, HasZeros, IsSafeBuild, NodesAwait, with_pair};
ghost use Rattle.index_tree.specs.Pairs.{Pair, pair_keys};
ghost use Rattle.index_tree.specs.Places.{SlotsRise};
ghost use Rattle.afl_base.specs.Keys.{first_keys};
ghost use Rattle.index_tree.specs.Trees.{IsTreeOf};
ghost use Rattle.index_tree.specs.TreeFile.{bucket_place};

use crate::groups::{GROUP, Nodes, PAIR_SIZE, WAITING_SIZE, group_place};
use crate::loads::level_with_room;
use crate::path::node;
use crate::tree::{BUCKET_SIZE, HEAD_SIZE, NEXT_AT, bucket_place};
use afl_base::{Failed, Files, KeyColumn, SlotNo, put_u16};

// Writes the last byte of a bucket after `opened` buckets, and its number to a place before it.
fn write_bucket<V: Files>(files: &mut V, at: u32, opened: u16) -> Result<(), Failed>
    requires begun { IsSome (V.state files.old).draft }
    requires few { opened < 65535 }
    requires range { at + 2 ≤ bucket_place opened }
    requires fits { bucket_place (opened + 1) ≤ length (draft_in (V.state files.old)).bytes }
    requires free { IsTrue (V.state files.old).tells
        → HasZeros (draft_in (V.state files.old)).bytes (bucket_place opened + 194) 1 }
    requires zeros { IsTrue (V.state files.old).tells
        → HasZeros (draft_in (V.state files.old)).bytes at 2 }
    ensures written { OnOk result (DraftsBucket (V.state files.old) (V.state files.new) at opened) }
    ensures cut { CutKeeps V.cuts V.mends V.state files.old files.new (OnErr result) }
    ensures frame { Changes V.state V.lent V.reads V.faults files.old files.new result }
{
    files.draft_write(bucket_place(opened) + (BUCKET_SIZE as u32 - 1), &[1])?;
    let mut number = [0; 2];
    put_u16(&mut number, 0, opened + 1);
    files.draft_write(at, &number)?;
    Ok(())
}

// Where a new bucket of a node is named: at its number, or in its last bucket.
fn spot(load: u16, node: u16, place: u32) -> u32
    requires { place < 2 ^ 25 }
    ensures first { load ≡ 0 → result ≡ 2 * node }
    ensures next { load ≢ 0 → result ≡ place + 192 }
    ensures low { (size : ℕ) → 683 ≤ size → node ≤ 340 → (load ≢ 0 → place + 195 ≤ size) → result + 3 ≤ size }
{
    if load == 0 {
        2 * u32::from(node)
    } else {
        place + NEXT_AT as u32
    }
}

// Puts the next slot's pair into the tree in the draft, or has it wait. Where that takes more than
// `most` buckets, which can be only where bytes are not told, it does nothing.
fn build_slot<V: Files>(
    files: &mut V,
    nodes: &mut Nodes,
    most: u16,
    key: &i32,
    slot: SlotNo,
) -> Result<(), Failed>
    requires begun { IsSome (V.state files.old).draft }
    requires size { length (draft_in (V.state files.old)).bytes ≡ bucket_place most }
    requires safe { IsSafeBuild nodes.old most slot }
    requires few { most < 65535 }
    requires told { IsTrue (V.state files.old).tells → (ps : List Pair)
        × Gathers nodes.old (draft_in (V.state files.old)).bytes ps
        × (length ps ≡ slot) × (buckets (pair_keys (with_pair ps key.now slot)) ≤ most) }
    ensures built { IsTrue (V.state files.old).tells → (ps : List Pair)
        → Gathers nodes.old (draft_in (V.state files.old)).bytes ps
        → length ps ≡ slot → SlotsRise (with_pair ps key.now slot)
        → buckets (pair_keys (with_pair ps key.now slot)) ≤ most →
        OnOk result (Gathers nodes.new (draft_in (V.state files.new)).bytes (with_pair ps key.now slot)) }
    ensures safe { OnOk result (IsSafeBuild nodes.new most (slot + 1)) }
    ensures only { OnOk result (HasOtherDraft (V.state files.old) (V.state files.new)) }
    ensures cut { CutKeeps V.cuts V.mends V.state files.old files.new (OnErr result) }
    ensures frame { Changes V.state V.lent V.reads V.faults files.old files.new result }
{
    let level = level_with_room(&nodes.loads, key);
    let node = node(key, level);
    let load = nodes.loads[usize::from(node)];
    let place = nodes.place(node);
    if load % 32 == 0 {
        if nodes.opened == most {
            return Ok(());
        }
        write_bucket(files, spot(load, node, place), nodes.opened)?;
        nodes.open(node);
        nodes.take_in(node, key, slot);
        return Ok(());
    }
    if load % GROUP != GROUP - 1 {
        nodes.take_in(node, key, slot);
        return Ok(());
    }
    let group = nodes.complete(node, key, slot);
    files.draft_write(group_place(place, load), &group)?;
    Ok(())
}

// Writes those pairs of a node that wait.
fn write_waiting<V: Files>(files: &mut V, nodes: &Nodes, node: u16) -> Result<(), Failed>
    requires node { node < 341 }
    requires begun { IsSome (V.state files.old).draft }
    requires fit { FitDraft nodes.now (V.state files.old) }
    requires told { IsTrue (V.state files.old).tells → (full : List ℕ)
        × NodesAwait node nodes.now (draft_in (V.state files.old)).bytes full }
    ensures written { IsTrue (V.state files.old).tells → (full : List ℕ)
        → NodesAwait node nodes.now (draft_in (V.state files.old)).bytes full
        → OnOk result (NodesAwait (node + 1) nodes.now (draft_in (V.state files.new)).bytes full) }
    ensures only { OnOk result (HasOtherDraft (V.state files.old) (V.state files.new)) }
    ensures cut { CutKeeps V.cuts V.mends V.state files.old files.new (OnErr result) }
    ensures frame { Changes V.state V.lent V.reads V.faults files.old files.new result }
{
    let load = nodes.loads[usize::from(node)];
    let place = nodes.place(node);
    if load % GROUP == 0 {
        return Ok(());
    }
    let size = PAIR_SIZE * usize::from(load % GROUP);
    nodes.write(files, node, group_place(place, load), size)?;
    Ok(())
}

// Writes all pairs that wait.
fn write_rest<V: Files>(files: &mut V, nodes: &Nodes) -> Result<(), Failed>
    requires begun { IsSome (V.state files.old).draft }
    requires fit { FitDraft nodes.now (V.state files.old) }
    requires told { IsTrue (V.state files.old).tells → (ps : List Pair)
        × Gathers nodes.now (draft_in (V.state files.old)).bytes ps }
    ensures written { IsTrue (V.state files.old).tells → (ps : List Pair)
        → Gathers nodes.now (draft_in (V.state files.old)).bytes ps
        → OnOk result (Builds nodes.now.loads nodes.now.lasts nodes.now.opened
        (draft_in (V.state files.new)).bytes ps) }
    ensures only { OnOk result (HasOtherDraft (V.state files.old) (V.state files.new)) }
    ensures cut { CutKeeps V.cuts V.mends V.state files.old files.new (OnErr result) }
    ensures frame { Changes V.state V.lent V.reads V.faults files.old files.new result }
{
    for node in 0..341u16 {
        write_waiting(files, nodes, node)?;
    }
    Ok(())
}

/// Builds the tree of the first `slots` keys in the draft, which has as many bytes as that takes and
/// is erased. Where more than `most` buckets were needed, which can be only where bytes are not told,
/// the draft is left unfinished.
pub fn build<V: Files>(
    files: &mut V,
    column: KeyColumn,
    slots: u16,
    most: u16,
) -> Result<(), Failed>
    requires width { IsWidth column.width }
    requires narrow { column.width ≢ 8 }
    requires slots { slots ≤ 32768 }
    requires fields { (slot : ℕ) → slot < slots → HasField (V.state files.old) column slot }
    requires begun { IsSome (V.state files.old).draft }
    requires size { length (draft_in (V.state files.old)).bytes ≡ bucket_place most }
    requires few { most < 65535 }
    requires erased { IsTrue (V.state files.old).tells
        → (draft_in (V.state files.old)).bytes ≡ replicate (bucket_place most) 0 }
    requires count { IsTrue (V.state files.old).tells
        → most ≡ buckets (first_keys (key_of (V.state files.old) column) slots) }
    ensures tree { IsTrue (V.state files.old).tells
        → OnOk result (IsTreeOf (draft_in (V.state files.new)).bytes (first_keys (key_of (V.state files.old) column) slots)) }
    ensures only { OnOk result (HasOtherDraft (V.state files.old) (V.state files.new)) }
    ensures cut { CutKeeps V.cuts V.mends V.state files.old files.new (OnErr result) }
    ensures frame { Changes V.state V.lent V.reads V.faults files.old files.new result }
{
    files.draft_write(HEAD_SIZE as u32 - 1, &[1])?;
    let mut nodes = Nodes {
        loads: [0; 341],
        lasts: [0; 341],
        groups: [0; 341 * WAITING_SIZE],
        opened: 0,
    };
    let column = &column;
    for slot in 0..slots {
        let Some(slot) = SlotNo::new(slot) else {
            return Ok(());
        };
        let key = column.key(files, slot)?;
        build_slot(files, &mut nodes, most, &key, slot)?;
    }
    write_rest(files, &nodes)?;
    Ok(())
}
