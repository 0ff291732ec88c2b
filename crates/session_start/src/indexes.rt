//! Whether indexes are complete for the rows of their relations.

#![tactic(auto)]

ghost use Rattle.std.specs.Prelude.{◌≡◌, ◌+◌, ◌*◌, ◌<◌, ◌≤◌, ◌≢◌, ℕ, List, None, IfNone, IfOk, IsTrue, MatchOption, get_or, length, map};
ghost use Rattle.afl_base.specs.Keeping.{OnlyReads};
ghost use Rattle.std.specs.Bool.{Decides};
ghost use Rattle.std.specs.List.{range_with_len};
ghost use Rattle.afl_base.specs.KeyColumn.{HasField, IsWidth, key_of};
ghost use Rattle.db_model.specs.Row.{Row};
ghost use Rattle.db_model.specs.Step.{keys};
ghost use Rattle.index_set.specs.declared.info.TableId.{TableId as AnyTable};
ghost use Rattle.index_set.specs.Complete.{HasKeys, IsComplete, IsReadable, most_reads};
ghost use Rattle.index_set.specs.Inserts.{IsDoublingTree, IsNoTable};
ghost use Rattle.index_set.specs.Tables.{HasTable, IsTable, entries};
ghost use Rattle.stored.specs.Sound.{IsFirst};
ghost use Rattle.tuple_file.specs.Tuples.{HoldsRows, rows, slots};
ghost use Rattle.session_model.specs.Indexed.{IsAllowed, info_of};
ghost use Rattle.session_start.specs.Found.{AreFilesFound};
ghost use Rattle.session_start.specs.Judged.{AllEight, HoldsSlot, IsKept, MayBeUsed, IsReadySlot, KeepsSlot};
ghost use Rattle.session_start.specs.Reads.{all_reads, index_reads};

use afl_base::{Failed, Files, KeyColumn};
use index_set::{Access, HashTables, IndexInfo, Indexes, MOST_KEYS, TableId, verify_all};
use session_model::{Held, Indexed};
use tuple_file::Tuples;

/// The first index that is not complete. The table of each that has one is filled.
pub fn first_incomplete<V: Files>(
    files: &mut V,
    tables: &mut HashTables,
    held: &Held,
) -> Result<Option<u16>, Failed>
    requires found { AreFilesFound (V.state files.old) held.now }
    requires holds { AllEight (HoldsSlot (V.state files.old) held.now) }
    ensures kept { let Keeps = KeepsSlot (V.state files.old).files held.now in
        IsTrue (V.state files.old).tells → IfOk result (λ slot.
        MatchOption slot (AllEight Keeps) (λ i. IsFirst Keeps i)) }
    ensures ready { IfOk result (λ slot. IfNone slot
        (AllEight (IsReadySlot (V.state files.old) tables.new held.now))) }
    ensures reads { V.reads files.new ≤ V.reads files.old
        + all_reads (V.state files.old).files held.now.relations held.now.indexes }
    ensures frame { OnlyReads V.state V.lent V.reads V.faults files.old files.new result }
{
    for slot in 0..8u16 {
        let whole = is_whole_slot(files, tables, held, slot)?;
        if !whole {
            return Ok(Some(slot));
        }
    }
    Ok(None)
}

// Whether the index of a slot, if there is one, is complete. All others stay as they are.
fn is_whole_slot<V: Files>(
    files: &mut V,
    tables: &mut HashTables,
    held: &Held,
    slot: u16,
) -> Result<bool, Failed>
    requires found { AreFilesFound (V.state files.old) held.now }
    requires holds { AllEight (HoldsSlot (V.state files.old) held.now) }
    requires slot { slot < 8 }
    ensures kept { IsTrue (V.state files.old).tells → IfOk result (λ whole.
        Decides whole (KeepsSlot (V.state files.old).files held.now slot)) }
    ensures ready { IfOk result (λ whole. IsTrue whole
        → IsReadySlot (V.state files.old) tables.new held.now slot) }
    ensures others { let state = V.state files.old in (i : ℕ) → i ≢ slot
        → IsReadySlot state tables.old held.now i → IsReadySlot state tables.new held.now i }
    ensures reads { V.reads files.new ≤ V.reads files.old
        + index_reads (V.state files.old).files held.now.relations (get_or held.now.indexes slot None) }
    ensures frame { OnlyReads V.state V.lent V.reads V.faults files.old files.new result }
{
    match &held.indexes[slot as usize] {
        None => Ok(true),
        Some(index) => match &held.relations[index.relation.number() as usize] {
            // No index is held without its relation.
            None => Ok(true),
            Some(tuples) => {
                let whole = is_whole(files, tables, tuples, index)?;
                Ok(whole)
            }
        },
    }
}

// Whether an index is complete for the rows of its relation. Its table, if it has one, is filled.
fn is_whole<V: Files>(
    files: &mut V,
    tables: &mut HashTables,
    tuples: &Tuples,
    index: &Indexed,
) -> Result<bool, Failed>
    requires holds { HoldsRows (V.state files.old) tuples.now }
    requires place { index.now.attribute < 8 }
    requires allowed { IsAllowed tuples.now.schema.attributes (info_of tuples.now index.now) }
    requires tree { IsDoublingTree (V.state files.old) index.now.access }
    requires table { HasTable index.now.access }
    ensures kept { let files_old = (V.state files.old).files in IsTrue (V.state files.old).tells
        → IfOk result (λ whole. Decides whole (IsKept files_old index.now.access
        (keys index.now.attribute (rows files_old tuples.now)))) }
    ensures ready { IfOk result (λ whole. IsTrue whole
        → MayBeUsed (V.state files.old) tables.new index.now tuples.now) }
    ensures tables { (number : AnyTable) → IsNoTable number index.now.access
        → entries tables.new number ≡ entries tables.old number }
    ensures reads { V.reads files.new ≤ V.reads files.old
        + (15 * slots (V.state files.old).files tuples.now + 2048) }
    ensures frame { OnlyReads V.state V.lent V.reads V.faults files.old files.new result }
{
    let slots = tuples.count(files);
    let info = IndexInfo {
        attribute: index.attribute,
        column: tuples.column(index.attribute),
        access: index.access,
    };
    match info.access {
        Access::Order => verify_one(files, tables, info, slots),
        Access::Tree(_) => verify_one(files, tables, info, slots),
        Access::Table(table) => fill(files, tables, table, &info.column, slots),
    }
}

// Whether an index is complete for the keys of all slots.
fn verify_one<V: Files>(
    files: &mut V,
    tables: &mut HashTables,
    info: IndexInfo,
    slots: u16,
) -> Result<bool, Failed>
    requires few { slots ≤ 32768 }
    requires readable { IsReadable (V.state files.old) slots info }
    ensures complete { let state = V.state files.old in IsTrue state.tells → IfOk result (λ whole.
        (all : List Row) → length all ≡ slots → HasKeys state all info
        → Decides whole (IsComplete state tables.new info.access (keys info.attribute all))) }
    ensures tables { (number : AnyTable) → IsNoTable number info.access
        → entries tables.new number ≡ entries tables.old number }
    ensures reads { V.reads files.new ≤ V.reads files.old + most_reads slots info.access }
    ensures frame { OnlyReads V.state V.lent V.reads V.faults files.old files.new result }
{
    let mut alone = Indexes::new();
    alone.push(info);
    let broken = verify_all(files, tables, &alone, slots)?;
    Ok(broken.is_none())
}

// Fills a table with the keys of all slots, if it has room for them.
fn fill<V: Files>(
    files: &mut V,
    tables: &mut HashTables,
    table: TableId,
    column: &KeyColumn,
    slots: u16,
) -> Result<bool, Failed>
    requires there { IsTable table }
    requires width { IsWidth column.now.width }
    requires narrow { column.now.width ≢ 8 }
    requires fields { (slot : ℕ) → slot < slots → HasField (V.state files.old) column.now slot }
    ensures few { IfOk result (λ whole. Decides whole (slots ≤ 2048)) }
    ensures keys { let state = V.state files.old in IsTrue state.tells → IfOk result (λ whole.
        IsTrue whole → entries tables.new table ≡ map (key_of state column.now) (range_with_len 0 slots)) }
    ensures size { IfOk result (λ whole. IsTrue whole → length (entries tables.new table) ≡ slots) }
    ensures other { (other : AnyTable) → other ≢ table
        → entries tables.new other ≡ entries tables.old other }
    ensures reads { V.reads files.new ≤ V.reads files.old + 6 * slots }
    ensures frame { OnlyReads V.state V.lent V.reads V.faults files.old files.new result }
{
    if slots > MOST_KEYS {
        return Ok(false);
    }
    tables.fill(files, table, column, slots)?;
    Ok(true)
}
