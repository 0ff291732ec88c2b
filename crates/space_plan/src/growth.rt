//! The sizes of files after more rows.

#![tactic(auto)]

ghost use Rattle.std.specs.Prelude.{◌≡◌, ◌+◌, ◌*◌, ◌≤◌};
ghost use Rattle.db_model.specs.Row.{row_length};
ghost use Rattle.space_plan.specs.Planned.{buckets_planned, slots_planned};

use db_model::{Attributes, row_length};
use index_maxheap::{BUCKET_SIZE, HEAD_SIZE};

// The slots that a relation has at most.
const SLOTS: u32 = 32_768;

// The slots of a relation after this many more rows.
fn slots_planned(rows: u16, slots: u16) -> u32
    ensures value { result ≡ slots_planned rows slots }
    ensures few { result ≤ 32768 }
{
    (u32::from(slots) + u32::from(rows)).min(SLOTS)
}

// The bytes of its rows.
pub fn rows_size(rows: u16, attributes: &Attributes, slots: u16) -> u32
    ensures { result ≡ row_length attributes.now * slots_planned rows slots }
{
    row_length(attributes) as u32 * slots_planned(rows, slots)
}

// The bytes of a hash tree after this many more rows.
pub fn tree_size(rows: u16, buckets: u16, slots: u16) -> u32
    ensures { result ≡ 683 + 195 * buckets_planned rows buckets slots }
{
    let of_rows = u32::from(buckets) + u32::from(rows);
    let of_slots = slots_planned(rows, slots) / 32 + 341;
    HEAD_SIZE as u32 + BUCKET_SIZE as u32 * of_rows.min(of_slots)
}
