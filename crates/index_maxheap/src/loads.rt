//! Loads of the nodes of a tree.

#![tactic(auto)]

ghost use Rattle.std.specs.Prelude.{◌≡◌, ◌≢◌, ◌+◌, ◌*◌, ◌<◌, ◌≤◌, ℕ, IfOk, IsTrue, get_or};
ghost use Rattle.afl_base.specs.Keeping.{OnlyReads};
ghost use Rattle.db_model.specs.HashTree.{buckets, node};
ghost use Rattle.afl_base.specs.KeyColumn.{HasField, IsWidth, key_of};
ghost use Rattle.index_tree.specs.Loads.{IsLevel, Loads};
ghost use Rattle.afl_base.specs.Keys.{first_keys};

use crate::path::node;
use afl_base::{Failed, Files, KeyColumn, SlotNo};

/// The level of the first node of a key's path that holds one pair more.
pub fn level_with_room(loads: &[u16; 341], key: &i32) -> u8
    ensures { IsLevel loads.now key.now result }
{
    for level in 0..4u8 {
        if loads[usize::from(node(key, level))] < 32 {
            return level;
        }
    }
    4
}

// One key more. It answers how many buckets it opens.
fn add(loads: &mut [u16; 341], key: &i32) -> u16
    requires few { (i : ℕ) → get_or loads.old i 0 < 32768 }
    ensures loads { Loads loads.old loads.new key.now result }
    ensures one { result ≤ 1 }
    ensures few { (i n : ℕ) → get_or loads.old i 0 ≤ n → get_or loads.new i 0 ≤ n + 1 }
{
    let node = usize::from(node(key, level_with_room(loads, key)));
    let load = loads[node];
    loads[node] = load + 1;
    if load % 32 == 0 { 1 } else { 0 }
}

/// How many buckets the tree of the first `slots` keys has. No tree has more than 1,365.
pub fn buckets_for<V: Files>(files: &mut V, column: KeyColumn, slots: u16) -> Result<u16, Failed>
    requires width { IsWidth column.width }
    requires narrow { column.width ≢ 8 }
    requires slots { slots ≤ 32768 }
    requires fields { (slot : ℕ) → slot < slots → HasField (V.state files.old) column slot }
    ensures buckets { IsTrue (V.state files.old).tells
        → IfOk result (λ n. n ≡ buckets (first_keys (key_of (V.state files.old) column) slots)) }
    ensures few { IfOk result (λ n. n ≤ 1365) }
    ensures reads { V.reads files.new ≤ V.reads files.old + 6 * slots }
    ensures frame { OnlyReads V.state V.lent V.reads V.faults files.old files.new result }
{
    let mut loads = [0u16; 341];
    let mut buckets = 0u16;
    let column = &column;
    for slot in 0..slots {
        let Some(slot) = SlotNo::new(slot) else {
            return Ok(buckets);
        };
        let key = column.key(files, slot)?;
        buckets += add(&mut loads, &key);
    }
    Ok(buckets)
}
