//! Inserts into the indexes of a relation: all room is made before anything is written.

#![tactic(auto)]

ghost use Rattle.std.specs.Prelude.{◌≡◌, ◌≢◌, ◌+◌, ◌<◌, ◌++◌, ◌∷◌, [], ℕ, ℤ, pos, negsuc, List, None, IsTrue, OnErr, OnOk, IfOk, length, slice_get};
ghost use Rattle.afl_base.specs.CutFiles.{CutLeaves};
ghost use Rattle.afl_base.specs.Keeping.{Changes, ChangesOrLacks};
ghost use Rattle.afl_base.specs.declared.kind.Kind.TheVariants as Kind;
ghost use Rattle.afl_base.specs.Asked.{asks_few};
ghost use Rattle.afl_base.specs.FileErrors.{OnSpace, UnlessFailed, WhereFailed};
ghost use Rattle.afl_base.specs.Files.{IsLive, bytes_at, file_at};
ghost use Rattle.afl_base.specs.Frames.{Prepares, SparesOthers};
ghost use Rattle.afl_base.specs.Sparing.{SparesPages, StandsStillWhere};
ghost use Rattle.db_model.specs.Row.{Row, is_between};
ghost use Rattle.db_model.specs.Step.{key_of};
ghost use Rattle.index_maxheap.specs.Rooms.{HasRoomFor, room_of};
ghost use Rattle.index_set.specs.Complete.{AreComplete, AreHeld, IsComplete, IsHeld};
ghost use Rattle.index_set.specs.declared.info.Access.TheVariants as access;
ghost use Rattle.index_set.specs.Inserts.{AllKeepBuckets, AreApart, AreOpenFor, AreRoomFor, AsksFor, HasRoom, HaveKeys, HaveRoom, IsApart, IsDoublingTree, IsNoTree, IsOpenFor, IsRoomFor, KeepsBuckets, KeepsTables, KeepsTablesBeside, MayAllFollow, MayFollow, MayInsertKey, MayInsertKeys, OneAsksFor, is_key};
ghost use Rattle.index_tree.specs.Trees.{IsTreeOf};

use crate::info::{Access, Indexes, Rooms};
use crate::tables::HashTables;
use afl_base::{Failed, FileError, FileId, Files, SlotNo};
use db_model::{Tuple, Value};
use index_maxheap::{Room, insert, room};

/// Makes room in each tree of the list for the tuple's key. No contents change.
pub fn prepare_all<V: Files>(
    files: &mut V,
    tables: &HashTables,
    indexes: &Indexes,
    tuple: &Tuple,
    slot: SlotNo,
) -> Result<Rooms, FileError>
    requires idle { (V.state files.old).draft ≡ None }
    requires held { AreHeld (V.state files.old) tables.now slot indexes.now }
    requires apart { AreApart indexes.now }
    requires keys { HaveKeys tuple.now indexes.now }
    ensures contents { UnlessFailed result
        (Prepares (V.state files.old) (V.state files.new) (IsNoTree indexes.now)) }
    ensures room { IfOk result (λ rooms. HaveRoom (V.state files.new) rooms indexes.now) }
    ensures exact { IsTrue (V.state files.old).tells → IfOk result (λ rooms.
        AreRoomFor (V.state files.old) tuple.now rooms indexes.now) }
    ensures asked { IsTrue (V.state files.old).tells → OnSpace result (λ need.
        OneAsksFor (asks_few (V.asks files.new) (V.state files.new).files) (V.state files.new) tuple.now need
        indexes.now) }
    ensures still { StandsStillWhere V.state V.asks ((need : ℕ)
        → OneAsksFor (V.asks files.old) (V.state files.old) tuple.now need indexes.now → ⊥) files.old files.new result }
    ensures cut { CutLeaves V.cuts V.mends V.state files.old files.new (WhereFailed result)
        (λ after. Prepares (V.state files.old) after (IsNoTree indexes.now)) }
    ensures frame { ChangesOrLacks V.state V.lent V.reads V.faults V.lacks files.old files.new result }
{
    let mut rooms = Rooms::new();
    let count = indexes.len();
    for nth in 0..count {
        let info = *indexes.get(nth);
        let key = key_in(tuple, info.attribute);
        let room = match prepare_one(files, info.access, &key) {
            Ok(room) => room,
            Err(error) => return Err(error),
        };
        rooms.push(room);
    }
    Ok(rooms)
}

// The number at a place of a tuple, where it is one of 32 bits.
fn key_in(tuple: &Tuple, attribute: u8) -> i32
    ensures { let value = slice_get tuple.now attribute in IsTrue (is_key value) → result ≡ key_of value }
{
    let at = usize::from(attribute);
    if at >= tuple.len() {
        return 0;
    }
    match tuple.get(at) {
        Value::Number(number) => narrow(*number),
        Value::Text(_) => 0,
    }
}

fn narrow(number: i64) -> i32
    ensures { IsTrue (is_between (negsuc 2147483647) (pos 2147483647) number) → result ≡ number }
{
    if number < -2147483648 || number > 2147483647 {
        return 0;
    }
    number as i32
}

// Makes room in one index for a key.
fn prepare_one<V: Files>(files: &mut V, access: Access, key: &i32) -> Result<Room, FileError>
    requires idle { (V.state files.old).draft ≡ None }
    requires tree { IsDoublingTree (V.state files.old) access }
    ensures contents { UnlessFailed result
        (Prepares (V.state files.old) (V.state files.new) (λ id. IsApart id access)) }
    ensures room { IfOk result (λ room. HasRoom (V.state files.new) room access) }
    ensures exact { IsTrue (V.state files.old).tells → IfOk result (λ room.
        IsRoomFor (V.state files.old) key.now room access) }
    ensures asked { IsTrue (V.state files.old).tells → OnSpace result (λ need.
        AsksFor (asks_few (V.asks files.new) (V.state files.new).files) (V.state files.new) key.now need access) }
    ensures still { StandsStillWhere V.state V.asks ((need : ℕ)
        → AsksFor (V.asks files.old) (V.state files.old) key.now need access → ⊥) files.old files.new result }
    ensures cut { CutLeaves V.cuts V.mends V.state files.old files.new (WhereFailed result)
        (λ after. Prepares (V.state files.old) after (λ id. IsApart id access)) }
    ensures frame { ChangesOrLacks V.state V.lent V.reads V.faults V.lacks files.old files.new result }
{
    match access {
        Access::Order => Ok(Room::default()),
        Access::Tree(file) => prepare_tree(files, file, key),
        Access::Table(_) => Ok(Room::default()),
    }
}

// Makes room in a tree for a key. Where the file is no tree, nothing is needed.
#[tactic(auto, using(afl_base::proofs::AskedLaws::asked_few, afl_base::proofs::CutLaws::mends_now, afl_base::proofs::FrameLaws::keeps_prepares, afl_base::proofs::FrameLaws::prepares_same, crate::proofs::Lists::room_made, crate::proofs::Lists::nothing_needed))]
fn prepare_tree<V: Files>(files: &mut V, file: FileId, key: &i32) -> Result<Room, FileError>
    requires idle { (V.state files.old).draft ≡ None }
    requires live { IsLive (V.state files.old).files file }
    requires kind { (file_at (V.state files.old).files file).kind ≡ Kind.Doubling }
    ensures contents { UnlessFailed result
        (Prepares (V.state files.old) (V.state files.new) (λ id. id ≢ file)) }
    ensures room { IfOk result (λ room. HasRoomFor (V.state files.new) file room) }
    ensures exact { let bytes = bytes_at (V.state files.old).files file in IsTrue (V.state files.old).tells
        → (keys : List ℤ) → IsTreeOf bytes keys → IfOk result (λ room. room ≡ room_of bytes key.now) }
    ensures asked { let bytes = bytes_at (V.state files.old).files file in IsTrue (V.state files.old).tells
        → (keys : List ℤ) → IsTreeOf bytes keys → OnSpace result (λ need.
        asks_few (V.asks files.new) (V.state files.new).files file
        ((room_of bytes key.now).overwrites) ((room_of bytes key.now).bytes) need) }
    ensures still { StandsStillWhere V.state V.asks ((need : ℕ)
        → AsksFor (V.asks files.old) (V.state files.old) key.now need (access.Tree file) → ⊥) files.old files.new result }
    ensures cut { CutLeaves V.cuts V.mends V.state files.old files.new (WhereFailed result)
        (λ after. Prepares (V.state files.old) after (λ id. id ≢ file)) }
    ensures frame { ChangesOrLacks V.state V.lent V.reads V.faults V.lacks files.old files.new result }
{
    let room = room(files, file, key)?;
    if room.overwrites == 0 {
        return Ok(room);
    }
    files.prepare(file, room.overwrites, room.bytes)?;
    Ok(room)
}

/// Adds the tuple's keys, as those of the next slot, to each index of the list, in the rooms that
/// were made for them. What a cut leaves of a tree names the slots of rows alone.
pub fn insert_all<V: Files>(
    files: &mut V,
    tables: &mut HashTables,
    indexes: &Indexes,
    rooms: &Rooms,
    tuple: &Tuple,
    slot: SlotNo,
) -> Result<(), Failed>
    requires idle { (V.state files.old).draft ≡ None }
    requires held { AreHeld (V.state files.old) tables.old slot indexes.now }
    requires apart { AreApart indexes.now }
    requires keys { HaveKeys tuple.now indexes.now }
    requires open { AreOpenFor slot indexes.now }
    requires room { HaveRoom (V.state files.old) rooms.now indexes.now }
    ensures complete { let state = V.state files.old in IsTrue state.tells → OnOk result
        ((all : List Row) (row : Row) → length all ≡ slot → row.tuple ≡ tuple.now
        → AreComplete state tables.old all indexes.now
        → AreRoomFor state tuple.now rooms.now indexes.now
        → MayAllFollow all tuple.now indexes.now
        → AreComplete (V.state files.new) tables.new (all ++ row ∷ []) indexes.now) }
    ensures keeps { let state = V.state files.old in IsTrue state.tells → OnOk result
        ((all : List Row) → length all ≡ slot → AreComplete state tables.old all indexes.now
        → AreRoomFor state tuple.now rooms.now indexes.now
        → AllKeepBuckets state (V.state files.new) indexes.now) }
    ensures held { OnOk result (AreHeld (V.state files.new) tables.new (slot + 1) indexes.now) }
    ensures others { OnOk result
        (SparesOthers (V.state files.old) (V.state files.new) (IsNoTree indexes.now)) }
    ensures tables { OnOk result (KeepsTables tables.old tables.new indexes.now) }
    ensures spares { SparesPages V.is_free V.state files.old files.new result }
    ensures cut { CutLeaves V.cuts V.mends V.state files.old files.new (OnErr result)
        (λ after. MayInsertKeys (V.state files.old) after tables.old indexes.now rooms.now tuple.now slot) }
    ensures frame { Changes V.state V.lent V.reads V.faults files.old files.new result }
{
    let count = indexes.len();
    for nth in 0..count {
        let info = *indexes.get(nth);
        let key = key_in(tuple, info.attribute);
        let room = rooms.get(nth);
        insert_one(files, tables, info.access, room, &key, slot)?;
    }
    Ok(())
}

// Adds a key to one index, as that of the next slot.
#[tactic(auto, using(crate::proofs::Lists::only_spares))]
fn insert_one<V: Files>(
    files: &mut V,
    tables: &mut HashTables,
    access: Access,
    room: &Room,
    key: &i32,
    slot: SlotNo,
) -> Result<(), Failed>
    requires held { IsHeld (V.state files.old) tables.old slot access }
    requires open { IsOpenFor slot access }
    requires room { HasRoom (V.state files.old) room.now access }
    ensures complete { let state = V.state files.old in IsTrue state.tells → OnOk result
        ((keys : List ℤ) → length keys ≡ slot → IsComplete state tables.old access keys
        → IsRoomFor state key.now room.now access → MayFollow keys key.now access
        → IsComplete (V.state files.new) tables.new access (keys ++ key.now ∷ [])) }
    ensures keeps { let state = V.state files.old in IsTrue state.tells → OnOk result
        ((keys : List ℤ) → length keys ≡ slot → IsComplete state tables.old access keys
        → IsRoomFor state key.now room.now access → KeepsBuckets state (V.state files.new) access) }
    ensures held { OnOk result (IsHeld (V.state files.new) tables.new (slot + 1) access) }
    ensures others { OnOk result
        (SparesOthers (V.state files.old) (V.state files.new) (λ id. IsApart id access)) }
    ensures tables { OnOk result (KeepsTablesBeside access tables.old tables.new) }
    ensures spares { SparesPages V.is_free V.state files.old files.new result }
    ensures cut { CutLeaves V.cuts V.mends V.state files.old files.new (OnErr result)
        (λ after. MayInsertKey (V.state files.old) after tables.old access room.now key.now slot) }
    ensures frame { Changes V.state V.lent V.reads V.faults files.old files.new result }
{
    match access {
        Access::Order => Ok(()),
        Access::Tree(file) => insert(files, file, room, key, slot),
        Access::Table(table) => {
            tables.push(table, key);
            Ok(())
        }
    }
}
