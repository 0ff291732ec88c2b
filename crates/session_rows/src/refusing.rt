//! What refuses an insert.

#![tactic(auto)]

ghost use Rattle.std.specs.Prelude.{◌≡◌, ◌-◌, ◌<◌, ◌++◌, ◌∷◌, ◌⊎◌, ℕ, [], None, Ok, IsTrue, IfOk, length, map, slice_get, true};
ghost use Rattle.afl_base.specs.Keeping.{OnlyReads};
ghost use Rattle.db_model.specs.Database.{Database, indexes_of};
ghost use Rattle.db_model.specs.Row.{AllSuit};
ghost use Rattle.db_model.specs.Step.{fallen as fallen_in, insert_into, slots_limit};
ghost use Rattle.index_set.specs.Complete.{AreComplete};
ghost use Rattle.index_set.specs.Inserts.{AreOpenFor, HaveKeys, MayAllFollow};
ghost use Rattle.tuple_file.specs.Tuples.{HoldsRows, rows, slots};
ghost use Rattle.session_model.specs.Indexed.{AreAllowed, index_of_info};
ghost use Rattle.session_model.specs.View.{relation_of_rows};
ghost use Rattle.session_rows.specs.Refused.{IsRefusedBy};

use crate::suiting::{fallen, has_order, has_table, unsuited};
use afl_base::{Failed, Files, MOST_SLOTS, SlotNo};
use db_model::{Pool, Refusal, Tuple};
use index_set::{HashTables, Indexes, MOST_KEYS};
use tuple_file::Tuples;

// How many rows a relation may have in a database of version 1.
const MOST_SLOTS_OF_VERSION_1: u16 = 16_384;

/// Why a row may not be put after the others, `None` where it may.
pub(crate) fn refused_row<V: Files>(
    files: &mut V,
    version: u8,
    tables: &HashTables,
    tuples: &Tuples,
    indexes: &Indexes,
    values: &Tuple,
) -> Result<Option<Refusal>, Failed>
    requires holds { HoldsRows (V.state files.old) tuples.now }
    requires version { (version ≡ 1) ⊎ (version ≡ 2) }
    requires allowed { AreAllowed tuples.now.schema.attributes indexes.now }
    ensures refused { let r = relation_of_rows (V.state files.old).files tuples.now in
        IsTrue (V.state files.old).tells → IfOk result (λ no. (slot : ℕ) (db : Database)
        → db.version ≡ version → indexes_of db slot ≡ map (index_of_info slot) indexes.now
        → IsRefusedBy (insert_into values.now slot db r) no
        (record r { rows = r.rows ++ record { tuple = values.now; live = true } ∷ [] })) }
    ensures suits { let attributes = tuples.now.schema.attributes in
        IfOk result (λ no. no ≡ None → AllSuit attributes values.now) }
    ensures keys { IfOk result (λ no. no ≡ None → HaveKeys values.now indexes.now) }
    ensures few { let count = slots (V.state files.old).files tuples.now in
        IfOk result (λ no. no ≡ None → count < slots_limit version) }
    ensures open { let count = slots (V.state files.old).files tuples.now in
        IfOk result (λ no. no ≡ None → AreOpenFor count indexes.now) }
    ensures follow { let all = rows (V.state files.old).files tuples.now in
        IsTrue (V.state files.old).tells → IfOk result (λ no. no ≡ None
        → AreComplete (V.state files.old) tables.now all indexes.now
        → MayAllFollow all values.now indexes.now) }
    ensures frame { OnlyReads V.state V.lent V.reads V.faults files.old files.new result }
{
    if let Some(nth) = unsuited(tuples.schema.attributes.as_slice(), values.as_slice()) {
        return Ok(Some(Refusal::Value { nth }));
    }
    let count = tuples.count(files);
    let limit = slots_limit(version);
    if limit <= count {
        return Ok(Some(Refusal::Full {
            pool: Pool::Slots,
            limit,
        }));
    }
    if let Some(last) = fallen_behind(files, tuples, indexes, values)? {
        return Ok(Some(Refusal::NotOrdered { last }));
    }
    if has_table(indexes) && MOST_KEYS <= count {
        return Ok(Some(Refusal::Full {
            pool: Pool::HashEntries,
            limit: MOST_KEYS,
        }));
    }
    Ok(None)
}

// How many rows a relation may have.
fn slots_limit(version: u8) -> u16
    ensures { result ≡ slots_limit version }
{
    if version == 1 {
        MOST_SLOTS_OF_VERSION_1
    } else {
        MOST_SLOTS
    }
}

// The last row's number, where an index keeps its attribute in order and the new row's is less. The
// last row is read once, and only where there is such an index.
fn fallen_behind<V: Files>(
    files: &mut V,
    tuples: &Tuples,
    indexes: &Indexes,
    values: &Tuple,
) -> Result<Option<i64>, Failed>
    requires holds { HoldsRows (V.state files.old) tuples.now }
    ensures fallen { let all = rows (V.state files.old).files tuples.now in
        IsTrue (V.state files.old).tells → IfOk result (λ last. (slot : ℕ) → last
        ≡ fallen_in (map (index_of_info slot) indexes.now) (slice_get all (length all - 1)) values.now) }
    ensures frame { OnlyReads V.state V.lent V.reads V.faults files.old files.new result }
{
    if !has_order(indexes) {
        return Ok(None);
    }
    let count = tuples.count(files);
    if count == 0 {
        return Ok(None);
    }
    let Some(slot) = SlotNo::new(count - 1) else {
        unreachable!()
    };
    let mut last = Tuple::new();
    tuples.row(files, slot, &mut last)?;
    Ok(fallen(indexes, last.as_slice(), values.as_slice()))
}
