//! The choice of an index, and the test whether indexes are complete.

#![tactic(auto)]

ghost use Rattle.std.specs.Prelude.{◌≡◌, ◌≢◌, ◌+◌, ◌*◌, ◌<◌, ◌≤◌, List, None, IsTrue, IfOk, IfSome, MatchOption, length, option_map, ℕ};
ghost use Rattle.afl_base.specs.Keeping.{OnlyReads};
ghost use Rattle.std.specs.Bool.{Decides};
ghost use Rattle.std.specs.List.{list_any};
ghost use Rattle.afl_base.specs.KeyColumn.{HasField, IsWidth};
ghost use Rattle.db_model.specs.declared.schemas.Range.{Range as AnyRange};
ghost use Rattle.db_model.specs.Plan as model;
ghost use Rattle.db_model.specs.Plan.{first_plan, is_empty, is_everything, only_key, plan, range_at};
ghost use Rattle.db_model.specs.Row.{Row};
ghost use Rattle.db_model.specs.Step.{first_fall};
ghost use Rattle.index_inline.specs.Keys.{keys_of};
ghost use Rattle.index_set.specs.declared.info.TableId.{TableId as AnyTable};
ghost use Rattle.index_set.specs.Complete.{AreComplete, AreHeld, AreReadable, HaveKeysOf, IsComplete, IsFirstIncomplete, IsHeld, IsReadable, most_reads, most_reads_of_all};
ghost use Rattle.index_set.specs.Inserts.{AreApart, AreDoublingTrees, IsDoublingTree, KeepsTables, KeepsTablesBeside};
ghost use Rattle.index_set.specs.Tables.{IsTable, entries};
ghost use Rattle.index_set.specs.Plans.{IsBy, IsOf, by_kind, access_kind, kinds, plan_in};

use crate::info::{Access, IndexInfo, Indexes, TableId};
use crate::tables::HashTables;
use afl_base::{Failed, FileId, Files, KeyColumn};
use db_model::{IndexKind, Range};
use index_inline::ordered;
use index_maxheap::verify;
use index_memhash::MOST_KEYS;

/// How the rows of a relation are found: by the index of that number in its list, counted from 0.
#[derive(Clone, Copy, Debug, PartialEq, Eq)]
pub enum Plan {
    Nothing,
    Scan,
    Order { nth: u8 },
    Tree { nth: u8, file: FileId, key: i32 },
    Table { nth: u8, table: TableId, key: i32 },
}

/// The first usable index, by the ranges of the keys.
#[tactic(auto, unfolding(db_model::specs::Plan::plan))]
pub fn choose(indexes: &Indexes, ranges: &[Range; 8]) -> Plan
    ensures plan { plan_in result ≡ plan (kinds indexes.now) ranges.now }
    ensures index { IsOf result indexes.now }
{
    if has_empty(indexes, ranges) {
        return Plan::Nothing;
    }
    if let Some(plan) = first_of(indexes, ranges, IndexKind::MemHash) {
        return plan;
    }
    if let Some(plan) = first_of(indexes, ranges, IndexKind::MaxHeap) {
        return plan;
    }
    if let Some(plan) = first_of(indexes, ranges, IndexKind::Inline) {
        return plan;
    }
    Plan::Scan
}

// Whether the range of some indexed attribute is empty.
fn has_empty(indexes: &Indexes, ranges: &[Range; 8]) -> bool
    ensures { result ≡ list_any (λ index. is_empty (range_at ranges.now index.1)) (kinds indexes.now) }
{
    let count = indexes.len();
    for nth in 0..count {
        let range = range_of(ranges, indexes.get(nth).attribute);
        if is_empty(&range) {
            return true;
        }
    }
    false
}

// The first index of a kind that is usable.
fn first_of(indexes: &Indexes, ranges: &[Range; 8], kind: IndexKind) -> Option<Plan>
    ensures plan { option_map plan_in result ≡ first_plan (by_kind kind ranges.now) 0 (kinds indexes.now) }
    ensures index { IfSome result (λ plan. IsOf plan indexes.now) }
{
    let count = indexes.len();
    for nth in 0..count {
        let info = *indexes.get(nth);
        let range = range_of(ranges, info.attribute);
        let plan = usable(info.access, &range, kind, nth as u8);
        if plan.is_some() {
            return plan;
        }
    }
    None
}

// The plan that an index gives, if it is of a kind and usable.
fn usable(access: Access, range: &Range, kind: IndexKind, nth: u8) -> Option<Plan>
    ensures plan { (ranges : List AnyRange) (place : ℕ) → range_at ranges place ≡ range.now
        → option_map plan_in result ≡ by_kind kind ranges nth (access_kind access, place) }
    ensures index { IfSome result (λ plan. IsBy plan nth access) }
{
    match kind {
        IndexKind::Inline => by_order(access, range, nth),
        IndexKind::MaxHeap => by_tree(access, range, nth),
        IndexKind::MemHash => by_table(access, range, nth),
    }
}

fn by_order(access: Access, range: &Range, nth: u8) -> Option<Plan>
    ensures plan { (ranges : List AnyRange) (place : ℕ) → range_at ranges place ≡ range.now
        → option_map plan_in result ≡ model.by_order ranges nth (access_kind access, place) }
    ensures index { IfSome result (λ plan. IsBy plan nth access) }
{
    match access {
        Access::Order => {
            if is_everything(range) {
                return None;
            }
            Some(Plan::Order { nth })
        }
        Access::Tree(_) => None,
        Access::Table(_) => None,
    }
}

fn by_tree(access: Access, range: &Range, nth: u8) -> Option<Plan>
    ensures plan { (ranges : List AnyRange) (place : ℕ) → range_at ranges place ≡ range.now
        → option_map plan_in result ≡ model.by_tree ranges nth (access_kind access, place) }
    ensures index { IfSome result (λ plan. IsBy plan nth access) }
{
    match access {
        Access::Order => None,
        Access::Tree(file) => {
            let key = only_key(range)?;
            Some(Plan::Tree { nth, file, key })
        }
        Access::Table(_) => None,
    }
}

fn by_table(access: Access, range: &Range, nth: u8) -> Option<Plan>
    ensures plan { (ranges : List AnyRange) (place : ℕ) → range_at ranges place ≡ range.now
        → option_map plan_in result ≡ model.by_table ranges nth (access_kind access, place) }
    ensures index { IfSome result (λ plan. IsBy plan nth access) }
{
    match access {
        Access::Order => None,
        Access::Tree(_) => None,
        Access::Table(table) => {
            let key = only_key(range)?;
            Some(Plan::Table { nth, table, key })
        }
    }
}

// The range of the attribute at a place.
pub(crate) fn range_of(ranges: &[Range; 8], place: u8) -> Range
    ensures { result ≡ range_at ranges.now place }
{
    if place < 8 {
        return ranges[usize::from(place)];
    }
    Range::Between {
        lo: i64::MIN,
        hi: i64::MAX,
    }
}

fn is_empty(range: &Range) -> bool
    ensures { result ≡ is_empty range.now }
{
    match range {
        Range::Empty => true,
        Range::Between { .. } => false,
    }
}

fn is_everything(range: &Range) -> bool
    ensures { result ≡ is_everything range.now }
{
    match range {
        Range::Empty => false,
        Range::Between { lo, hi } => *lo == i64::MIN && *hi == i64::MAX,
    }
}

// The only number of a range, where it has 32 bits.
fn only_key(range: &Range) -> Option<i32>
    ensures { result ≡ only_key range.now }
{
    match range {
        Range::Empty => None,
        Range::Between { lo, hi } => {
            if *lo == *hi && -2147483648 <= *lo && *lo <= 2147483647 {
                return Some(*lo as i32);
            }
            None
        }
    }
}

/// Fills the hash tables that the list names, and answers the first index that is not complete.
pub fn verify_all<V: Files>(
    files: &mut V,
    tables: &mut HashTables,
    indexes: &Indexes,
    slots: u16,
) -> Result<Option<u8>, Failed>
    requires few { slots ≤ 32768 }
    requires readable { AreReadable (V.state files.old) slots indexes.now }
    requires apart { AreApart indexes.now }
    ensures complete { let state = V.state files.old in IsTrue state.tells → IfOk result (λ nth.
        (all : List Row) → length all ≡ slots → HaveKeysOf state all indexes.now
        → MatchOption nth (AreComplete state tables.new all indexes.now) (λ n.
        IsFirstIncomplete state tables.new all indexes.now n)) }
    ensures held { IfOk result (λ nth. nth ≡ None
        → AreDoublingTrees (V.state files.old) indexes.now
        → AreHeld (V.state files.new) tables.new slots indexes.now) }
    ensures tables { KeepsTables tables.old tables.new indexes.now }
    ensures reads { V.reads files.new ≤ V.reads files.old + most_reads_of_all slots indexes.now }
    ensures frame { OnlyReads V.state V.lent V.reads V.faults files.old files.new result }
{
    let count = indexes.len();
    for nth in 0..count {
        let info = indexes.get(nth);
        let whole = is_complete(files, tables, info, slots)?;
        if !whole {
            return Ok(Some(nth as u8));
        }
    }
    Ok(None)
}

// Whether an index is complete for the keys of the first slots, its table being filled with them.
fn is_complete<V: Files>(
    files: &mut V,
    tables: &mut HashTables,
    info: &IndexInfo,
    slots: u16,
) -> Result<bool, Failed>
    requires few { slots ≤ 32768 }
    requires readable { IsReadable (V.state files.old) slots info.now }
    ensures complete { let state = V.state files.old in IsTrue state.tells → IfOk result (λ whole.
        Decides whole (IsComplete state tables.new info.now.access (keys_of state info.now.column slots))) }
    ensures held { IfOk result (λ whole. IsTrue whole → IsDoublingTree (V.state files.old) info.now.access
        → IsHeld (V.state files.new) tables.new slots info.now.access) }
    ensures tables { KeepsTablesBeside info.now.access tables.old tables.new }
    ensures reads { V.reads files.new ≤ V.reads files.old + most_reads slots info.now.access }
    ensures frame { OnlyReads V.state V.lent V.reads V.faults files.old files.new result }
{
    let access = info.access;
    match access {
        Access::Order => is_ordered(files, &info.column, slots),
        Access::Tree(file) => verify(files, file, info.column, slots),
        Access::Table(table) => fill_whole(files, tables, table, &info.column, slots),
    }
}

// Whether the keys do not fall.
fn is_ordered<V: Files>(files: &mut V, column: &KeyColumn, slots: u16) -> Result<bool, Failed>
    requires few { slots ≤ 32768 }
    requires width { IsWidth column.now.width }
    requires fields { (slot : ℕ) → slot < slots → HasField (V.state files.old) column.now slot }
    ensures ordered { let state = V.state files.old in IsTrue state.tells → IfOk result (λ whole.
        Decides whole (first_fall (keys_of state column.now slots) ≡ None)) }
    ensures reads { V.reads files.new ≤ V.reads files.old + 6 * slots }
    ensures frame { OnlyReads V.state V.lent V.reads V.faults files.old files.new result }
{
    let fall = ordered(files, column, slots)?;
    Ok(fall.is_none())
}

// Fills a table, and answers whether it holds the keys of all slots. It has no room for more than 2,048.
fn fill_whole<V: Files>(
    files: &mut V,
    tables: &mut HashTables,
    table: TableId,
    column: &KeyColumn,
    slots: u16,
) -> Result<bool, Failed>
    requires there { IsTable table }
    requires width { IsWidth column.now.width }
    requires narrow { column.now.width ≢ 8 }
    requires fields { (slot : ℕ) → slot < slots → HasField (V.state files.old) column.now slot }
    ensures whole { let state = V.state files.old in IsTrue state.tells → IfOk result (λ whole.
        Decides whole (entries tables.new table ≡ keys_of state column.now slots)) }
    ensures size { IfOk result (λ whole. IsTrue whole → length (entries tables.new table) ≡ slots) }
    ensures reads { V.reads files.new ≤ V.reads files.old + 6 * slots }
    ensures other { (other : AnyTable) → other ≢ table → entries tables.new other ≡ entries tables.old other }
    ensures frame { OnlyReads V.state V.lent V.reads V.faults files.old files.new result }
{
    if slots > MOST_KEYS {
        return Ok(tables.len(table) == slots);
    }
    tables.fill(files, table, column, slots)?;
    Ok(true)
}
