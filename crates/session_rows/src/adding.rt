//! A row after the others of a relation, and its keys in the indexes.

#![tactic(auto)]

ghost use Rattle.std.specs.Prelude.{◌≡◌, ◌<◌, ◌≤◌, ℕ, IsTrue, IfOk, OnErr, OnOk};
ghost use Rattle.afl_base.specs.CutFiles.{CutLeaves, MendsToState};
ghost use Rattle.afl_base.specs.Keeping.{Changes, ChangesOrLacks};
ghost use Rattle.afl_base.specs.Asked.{asks_few};
ghost use Rattle.afl_base.specs.FileErrors.{OnSpace, UnlessFailed, WhereFailed};
ghost use Rattle.afl_base.specs.Files.{file_at};
ghost use Rattle.afl_base.specs.Frames.{Prepares};
ghost use Rattle.afl_base.specs.Sparing.{SparesPages, SparesWhere, StandsStillWhere, WantsNothing};
ghost use Rattle.db_model.specs.Row.{AllSuit, row_length};
ghost use Rattle.index_set.specs.Complete.{AreComplete};
ghost use Rattle.index_set.specs.Inserts.{AreOpenFor, AreRoomFor, HaveKeys, HaveRoom, MayAllFollow};
ghost use Rattle.tuple_file.specs.Tuples.{rows};
ghost use Rattle.session_model.specs.Frames.{StaysAt, WantsRow};
ghost use Rattle.session_rows.specs.Changes.{AddsRow};
ghost use Rattle.session_rows.specs.CutRows.{MayAddRow};
ghost use Rattle.session_rows.specs.Ready.{TakesRow};

use afl_base::{Failed, FileError, Files, SlotNo};
use db_model::{Tuple, row_length};
use index_set::{HashTables, Indexes, Rooms, insert_all, prepare_all};
use tuple_file::Tuples;

// A row, and the room that was made for its keys.
#[derive(Clone, Copy)]
struct RoomedRow<'a> {
    values: &'a Tuple,
    rooms: &'a Rooms,
}

/// Puts a row after the others, and its keys into each index: room for all of it is made before
/// any of it is written.
pub(crate) fn add_row<V: Files>(
    files: &mut V,
    tables: &mut HashTables,
    tuples: &Tuples,
    indexes: &Indexes,
    values: &Tuple,
    slot: SlotNo,
) -> Result<(), FileError>
    requires ready { TakesRow (V.state files.old) tables.old tuples.now indexes.now slot }
    requires suits { AllSuit tuples.now.schema.attributes values.now }
    requires keys { HaveKeys values.now indexes.now }
    requires open { AreOpenFor slot indexes.now }
    ensures added { OnOk result (AddsRow (V.state files.old) (V.state files.new)
        tables.old tables.new tuples.now indexes.now values.now slot) }
    ensures complete { let all = rows (V.state files.old).files tuples.now in
        let now = rows (V.state files.new).files tuples.now in
        IsTrue (V.state files.old).tells → OnOk result
        (AreComplete (V.state files.old) tables.old all indexes.now
        → MayAllFollow all values.now indexes.now
        → AreComplete (V.state files.new) tables.new now indexes.now) }
    ensures space { let stays = StaysAt tuples.now.file indexes.now in
        OnSpace result (λ need. Prepares (V.state files.old) (V.state files.new) stays) }
    ensures same_tables { OnSpace result (λ need. tables.new ≡ tables.old) }
    ensures wants { let asks = asks_few (V.asks files.new) (V.state files.new).files in
        IsTrue (V.state files.old).tells → OnSpace result (λ need.
        WantsRow asks (V.state files.new) tuples.now indexes.now values.now need) }
    ensures spares { let wants = WantsRow (V.asks files.old) (V.state files.old) tuples.now in
        SparesWhere V.is_free (WantsNothing (wants indexes.now values.now)) (V.state files.old) (V.state files.new) result }
    ensures cut { CutLeaves V.cuts V.mends V.state files.old files.new (WhereFailed result)
        (λ after. MayAddRow (V.state files.old) after tables.old tuples.now indexes.now values.now) }
    ensures frame { ChangesOrLacks V.state V.lent V.reads V.faults V.lacks files.old files.new result }
{
    let rooms = prepare_row(files, tables, tuples, indexes, values, slot)?;
    let row = RoomedRow {
        values,
        rooms: &rooms,
    };
    write_row(files, tables, tuples, indexes, &row, slot)?;
    Ok(())
}

// Makes room for a row and for its keys. No contents change.
fn prepare_row<V: Files>(
    files: &mut V,
    tables: &HashTables,
    tuples: &Tuples,
    indexes: &Indexes,
    values: &Tuple,
    slot: SlotNo,
) -> Result<Rooms, FileError>
    requires ready { TakesRow (V.state files.old) tables.now tuples.now indexes.now slot }
    requires keys { HaveKeys values.now indexes.now }
    ensures contents { let stays = StaysAt tuples.now.file indexes.now in
        UnlessFailed result (Prepares (V.state files.old) (V.state files.new) stays) }
    ensures room { let file = file_at (V.state files.new).files tuples.now.file in
        OnOk result (row_length tuples.now.schema.attributes ≤ file.room) }
    ensures rooms { IfOk result (λ rooms. HaveRoom (V.state files.new) rooms indexes.now) }
    ensures exact { IsTrue (V.state files.old).tells → IfOk result (λ rooms.
        AreRoomFor (V.state files.new) values.now rooms indexes.now) }
    ensures wants { let asks = asks_few (V.asks files.new) (V.state files.new).files in
        IsTrue (V.state files.old).tells → OnSpace result (λ need.
        WantsRow asks (V.state files.new) tuples.now indexes.now values.now need) }
    ensures still { StandsStillWhere V.state V.asks ((need : ℕ)
        → WantsRow (V.asks files.old) (V.state files.old) tuples.now indexes.now values.now need → ⊥) files.old files.new result }
    ensures cut { let stays = StaysAt tuples.now.file indexes.now in
        CutLeaves V.cuts V.mends V.state files.old files.new (WhereFailed result)
        (λ after. Prepares (V.state files.old) after stays) }
    ensures frame { ChangesOrLacks V.state V.lent V.reads V.faults V.lacks files.old files.new result }
{
    files.prepare(tuples.file, 0, row_length(&tuples.schema.attributes) as u32)?;
    let rooms = prepare_all(files, tables, indexes, values, slot)?;
    Ok(rooms)
}

// Writes a row and its keys, for which room was made.
fn write_row<V: Files>(
    files: &mut V,
    tables: &mut HashTables,
    tuples: &Tuples,
    indexes: &Indexes,
    row: &RoomedRow,
    slot: SlotNo,
) -> Result<(), Failed>
    requires ready { TakesRow (V.state files.old) tables.old tuples.now indexes.now slot }
    requires suits { AllSuit tuples.now.schema.attributes row.now.values.now }
    requires keys { HaveKeys row.now.values.now indexes.now }
    requires open { AreOpenFor slot indexes.now }
    requires room { let file = file_at (V.state files.old).files tuples.now.file in
        row_length tuples.now.schema.attributes ≤ file.room }
    requires rooms { HaveRoom (V.state files.old) row.now.rooms.now indexes.now }
    ensures added { OnOk result (AddsRow (V.state files.old) (V.state files.new)
        tables.old tables.new tuples.now indexes.now row.now.values.now slot) }
    ensures complete { let all = rows (V.state files.old).files tuples.now in
        let now = rows (V.state files.new).files tuples.now in
        IsTrue (V.state files.old).tells → OnOk result
        (AreComplete (V.state files.old) tables.old all indexes.now
        → AreRoomFor (V.state files.old) row.now.values.now row.now.rooms.now indexes.now
        → MayAllFollow all row.now.values.now indexes.now
        → AreComplete (V.state files.new) tables.new now indexes.now) }
    ensures spares { SparesPages V.is_free V.state files.old files.new result }
    ensures cut { IsTrue V.cuts → IsTrue (V.state files.old).tells → OnErr result
        (AreRoomFor (V.state files.old) row.now.values.now row.now.rooms.now indexes.now
        → MendsToState V.mends (V.state files.new).store
        (λ after. MayAddRow (V.state files.old) after tables.old tuples.now indexes.now row.now.values.now)) }
    ensures frame { Changes V.state V.lent V.reads V.faults files.old files.new result }
{
    tuples.append(files, row.values)?;
    insert_all(files, tables, indexes, row.rooms, row.values, slot)?;
    Ok(())
}
