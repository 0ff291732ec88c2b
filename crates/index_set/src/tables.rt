//! Hash tables in memory.

#![tactic(auto)]

ghost use Rattle.std.specs.Prelude.{◌≡◌, ◌≢◌, ◌+◌, ◌*◌, ◌<◌, ◌≤◌, ◌++◌, ◌∷◌, ℕ, [], IsTrue, OnOk, length, map};
ghost use Rattle.afl_base.specs.Keeping.{OnlyReads};
ghost use Rattle.std.specs.List.{range_with_len};
ghost use Rattle.afl_base.specs.KeyColumn.{HasField, IsWidth, key_of};
ghost use Rattle.index_set.specs.declared.info.TableId.{TableId as AnyTable};
ghost use Rattle.index_set.specs.Tables.{IsTable, entries, number};
ghost use Rattle.index_memhash.specs.Chains.{FindsKey};

use crate::info::TableId;
use afl_base::{Failed, Files, KeyColumn, SlotNo};
use db_model::MOST_TABLES;
use index_memhash::{HashPlace, HashTable};
use std::marker::Model;

const TABLES: usize = MOST_TABLES as usize;

/// The hash tables that there are, of at most 2,048 keys and 14,340 bytes each. Entry number i of a
/// table is the key of slot i.
#[derive(Drop)]
pub struct HashTables {
    tables: [HashTable; TABLES],
}

impl Model for HashTables {
    ghost use Rattle.std.specs.Prelude.{◌≡◌, length};
    ghost use Rattle.db_model.specs.Database.{most_tables};
    ghost use Rattle.index_set.specs.Tables.{Tables};

    ghost Value = { Tables };

    ghost view = { λ t. t.tables };

    ghost invariant = { λ t. length t.tables ≡ most_tables };
}

impl HashTables {
    /// Empty tables.
    // Inlined, and written out one by one, as many as `MOST_TABLES`, so that the zeros are written where
    // the tables are to stay.
    #[inline(always)]
    pub fn new() -> HashTables
        ensures { (table : AnyTable) → entries result table ≡ [] }
    {
        HashTables {
            tables: [HashTable::new(), HashTable::new()],
        }
    }

    /// Puts the keys of the first slots into a table, in the place of what it had. Each key is read
    /// once. The other tables stay.
    pub fn fill<V: Files>(
        &mut self,
        files: &mut V,
        table: TableId,
        column: &KeyColumn,
        slots: u16,
    ) -> Result<(), Failed>
        requires there { IsTable table }
        requires few { slots ≤ 2048 }
        requires width { IsWidth column.now.width }
        requires narrow { column.now.width ≢ 8 }
        requires fields { (slot : ℕ) → slot < slots → HasField (V.state files.old) column.now slot }
        ensures keys { let state = V.state files.old in IsTrue state.tells → OnOk result
            (entries self.new table ≡ map (key_of state column.now) (range_with_len 0 slots)) }
        ensures size { OnOk result (length (entries self.new table) ≡ slots) }
        ensures other { (other : AnyTable) → other ≢ table
            → entries self.new other ≡ entries self.old other }
        ensures reads { V.reads files.new ≤ V.reads files.old + 6 * slots }
        ensures frame { OnlyReads V.state V.lent V.reads V.faults files.old files.new result }
    {
        self.clear(table);
        for at in 0..slots {
            let Some(slot) = SlotNo::new(at) else {
                return Err(Failed);
            };
            let key = column.key(files, slot)?;
            self.push(table, &key);
        }
        Ok(())
    }

    // The number of keys in a table.
    pub(crate) fn len(&self, table: TableId) -> u16
        ensures len { result ≡ length (entries self.now table) }
        ensures few { result ≤ 2048 }
    {
        match self.tables.get(place(table)) {
            Some(table) => table.len(),
            None => 0,
        }
    }

    // The first slot of the key, from one on.
    pub(crate) fn next(&self, table: TableId, key: &i32, from: u16) -> Option<SlotNo>
        ensures { FindsKey result key.now (entries self.now table) from }
    {
        let table = self.tables.get(place(table))?;
        let (slot, _) = table.next(HashPlace { entry: from }, key)?;
        Some(slot)
    }

    // Puts the key of the next slot into a table.
    pub(crate) fn push(&mut self, table: TableId, key: &i32)
        requires there { IsTable table }
        requires room { length (entries self.old table) < 2048 }
        ensures key { entries self.new table ≡ entries self.old table ++ key.now ∷ [] }
        ensures other { (other : AnyTable) → other ≢ table
            → entries self.new other ≡ entries self.old other }
    {
        self.tables[place(table)].insert(key);
    }

    // Takes all keys out of a table.
    fn clear(&mut self, table: TableId)
        requires there { IsTable table }
        ensures none { entries self.new table ≡ [] }
        ensures other { (other : AnyTable) → other ≢ table
            → entries self.new other ≡ entries self.old other }
    {
        self.tables[place(table)].clear();
    }
}

// The place of a table among those that there are.
fn place(table: TableId) -> usize
    ensures { result ≡ number table }
{
    match table {
        TableId::First => 0,
        TableId::Second => 1,
    }
}
