//! Changes of many rows at once, by a draft of the file.

#![tactic(auto)]

ghost use Rattle.std.specs.Prelude.{◌≡◌, ◌≢◌, ◌+◌, ◌-◌, ◌*◌, ◌≤◌, ◌<◌, IfOk, IsOkUnless, IsSome, IsTrue, List, None, OnErr, OnOk, false, length, replicate, slice_index, slice_set, true};
ghost use Rattle.afl_base.specs.Keeping.{Changes, ChangesOrLacks, OnlyReads};
ghost use Rattle.std.specs.Fn.{FnReturnsAt};
ghost use Rattle.afl_base.specs.CutFiles.{CutKeeps, CutKeepsOrLeaves};
ghost use Rattle.afl_base.specs.FileErrors.{OnSpace, WhereFailed};
ghost use Rattle.afl_base.specs.Files.{Commits, Drafts, IsLive, Keeps, draft_in, file_at, size_at};
ghost use Rattle.afl_base.specs.Fit.{fit};
ghost use Rattle.db_model.specs.Row.{AllRowsSuit, AllSuit, Row, row_bytes, row_length, row_of, rows_bytes, tuple_of};
ghost use Rattle.tuple_file.specs.CutRows.{HasWholeRows};
ghost use Rattle.tuple_file.specs.Drafts.{ReachesSlot, IsZeroDraft, PutsRow};
ghost use Rattle.tuple_file.specs.Gathered.{IsFree, TakesRows, end_of_waiting, gathered};
ghost use Rattle.tuple_file.specs.Tuples.{AreAnswered, HoldsRows, IsAnswered, IsLiveTuple, IsRowFile, OfAsked, OfSlots, OnlyDraftChanges, OnlyRowsChange, live_rows, row, rows, slots};

use crate::rows::{is_live, values_suit};
use crate::span::Span;
use crate::tuples::{ROW_SIZE, Tuples};
use crate::waiting::Waiting;
use afl_base::{Failed, FileError, Files};
use db_model::{Attributes, row_length};

impl Tuples {
    /// Asks `removed` once about the bytes of each live row in the slots `asked`, and removes those for
    /// which it answers true. Their fields stay, and so do all other rows and all slots. It asks nothing
    /// about a removed row.
    ///
    /// The file is replaced by a draft, for which `Space` has the `need`.
    pub fn rewrite<V: Files, F: Fn(&[u8]) -> bool>(
        &self,
        files: &mut V,
        asked: &Span,
        removed: F,
    ) -> Result<(), FileError>
        requires holds { HoldsRows (V.state files.old) self.now }
        requires idle { (V.state files.old).draft ≡ None }
        requires callable { let attributes = self.now.schema.attributes in
            (bytes : _) → length bytes.now ≡ row_length attributes
            → AllSuit attributes (tuple_of attributes bytes.now)
            → (IsTrue (V.state files.old).tells
            → IsLiveTuple (V.state files.old).files self.now (tuple_of attributes bytes.now))
            → F.pre removed bytes }
        ensures rows { IsTrue (V.state files.old).tells
            → OnOk result (AreAnswered (OfSlots asked.now self.now.schema.attributes (FnReturnsAt F.Fn removed)) 0
            (rows (V.state files.old).files self.now) (rows (V.state files.new).files self.now)) }
        ensures suit { IsTrue (V.state files.old).tells
            → OnOk result (AllRowsSuit self.now.schema.attributes
            (rows (V.state files.new).files self.now)) }
        ensures slots { OnOk result (slots (V.state files.new).files self.now
            ≡ slots (V.state files.old).files self.now) }
        ensures holds { OnOk result (HoldsRows (V.state files.new) self.now) }
        ensures only { OnOk result (OnlyRowsChange (V.state files.old) (V.state files.new) self.now) }
        ensures need { OnSpace result (λ need. need
            ≡ fit (size_at (V.state files.old).files self.now.file)) }
        ensures kept { OnSpace result (λ _. Keeps (V.state files.old) (V.state files.new)) }
        ensures cut { CutKeepsOrLeaves V.cuts V.mends V.state files.old files.new (WhereFailed result)
            (λ after. OnlyRowsChange (V.state files.old) after self.now
            × AreAnswered (OfSlots asked.now self.now.schema.attributes (FnReturnsAt F.Fn removed)) 0
            (rows (V.state files.old).files self.now) (rows after.files self.now)
            × AllRowsSuit self.now.schema.attributes (rows after.files self.now)
            × HasWholeRows after self.now) }
        ensures frame { ChangesOrLacks V.state V.lent V.reads V.faults V.lacks files.old files.new result }
    {
        let slots = self.count(files);
        let size = files.size(self.file);
        self.begin(files, size)?;
        self.draft_answered(files, slots, asked, &removed)?;
        self.commit(files)?;
        Ok(())
    }

    // Writes each row into the draft as `removed` answers about it.
    fn draft_answered<V: Files, F: Fn(&[u8]) -> bool>(
        &self,
        files: &mut V,
        count: u16,
        asked: &Span,
        removed: &F,
    ) -> Result<(), Failed>
        requires holds { HoldsRows (V.state files.old) self.now }
        requires count { count ≡ slots (V.state files.old).files self.now }
        requires callable { let attributes = self.now.schema.attributes in
            (bytes : _) → length bytes.now ≡ row_length attributes
            → AllSuit attributes (tuple_of attributes bytes.now)
            → (IsTrue (V.state files.old).tells
            → IsLiveTuple (V.state files.old).files self.now (tuple_of attributes bytes.now))
            → F.pre removed.now bytes }
        requires begun { IsSome (V.state files.old).draft }
        requires size { length (draft_in (V.state files.old)).bytes
            ≡ size_at (V.state files.old).files self.now.file }
        requires most { length (draft_in (V.state files.old)).bytes ≤ 4194304 }
        requires zeros { IsTrue (V.state files.old).tells
            → IsZeroDraft (V.state files.old) (size_at (V.state files.old).files self.now.file) }
        ensures rows { IsTrue (V.state files.old).tells
            → OnOk result ((news : List Row)
            × AreAnswered (OfSlots asked.now self.now.schema.attributes (FnReturnsAt F.Fn removed.now)) 0
            (rows (V.state files.old).files self.now) news
            × AllRowsSuit self.now.schema.attributes news
            × ((draft_in (V.state files.new)).bytes ≡ rows_bytes self.now.schema.attributes news)) }
        ensures only { OnOk result (OnlyDraftChanges (V.state files.old) (V.state files.new)) }
        ensures cut { CutKeeps V.cuts V.mends V.state files.old files.new (OnErr result) }
        ensures frame { Changes V.state V.lent V.reads V.faults files.old files.new result }
    {
        let mut bytes = [0; ROW_SIZE];
        let row = &mut bytes[..row_length(&self.schema.attributes)];
        let mut waiting = Waiting::new();
        for slot in 0..count {
            self.draft_answer(files, slot, asked, removed, row, &mut waiting)?;
        }
        waiting.flush(files)?;
        Ok(())
    }

    // Puts the row in the slot after those that wait, as `removed` answers about it. Its bytes are read
    // into `bytes`.
    fn draft_answer<V: Files, F: Fn(&[u8]) -> bool>(
        &self,
        files: &mut V,
        slot: u16,
        asked: &Span,
        removed: &F,
        bytes: &mut [u8],
        waiting: &mut Waiting,
    ) -> Result<(), Failed>
        requires holds { HoldsRows (V.state files.old) self.now }
        requires slot { slot < slots (V.state files.old).files self.now }
        requires size { length bytes.old ≡ row_length self.now.schema.attributes }
        requires callable { let attributes = self.now.schema.attributes in
            (bytes : _) → length bytes.now ≡ row_length attributes
            → AllSuit attributes (tuple_of attributes bytes.now)
            → (IsTrue (V.state files.old).tells
            → IsLiveTuple (V.state files.old).files self.now (tuple_of attributes bytes.now))
            → F.pre removed.now bytes }
        requires takes { TakesRows (V.state files.old) waiting.old }
        requires range { ReachesSlot (V.state files.old) self.now slot }
        requires behind { end_of_waiting waiting.old ≡ row_length self.now.schema.attributes * slot }
        ensures row { IsTrue (V.state files.old).tells
            → OnOk result ((new : Row)
            × IsAnswered (OfSlots asked.now self.now.schema.attributes (FnReturnsAt F.Fn removed.now) slot)
            (row (V.state files.old).files self.now slot) new
            × AllSuit self.now.schema.attributes new.tuple
            × PutsRow (gathered (V.state files.old) waiting.old) (gathered (V.state files.new) waiting.new)
            self.now slot new) }
        ensures free { IsTrue (V.state files.old).tells
            → OnOk result (IsFree (V.state files.new) waiting.new) }
        ensures behind { OnOk result (end_of_waiting waiting.new
            ≡ row_length self.now.schema.attributes * (slot + 1)) }
        ensures size { OnOk result (length bytes.new ≡ length bytes.old) }
        ensures only { OnOk result (OnlyDraftChanges (V.state files.old) (V.state files.new)) }
        ensures cut { CutKeeps V.cuts V.mends V.state files.old files.new (OnErr result) }
        ensures frame { Changes V.state V.lent V.reads V.faults files.old files.new result }
    {
        self.read(files, slot, bytes)?;
        answer(&self.schema.attributes, asked.has(slot), bytes, removed);
        waiting.put(files, bytes)?;
        Ok(())
    }

    /// Drops all removed rows; the live ones close up in order. Where no row is removed it begins no
    /// draft, changes nothing and never answers `Space`.
    ///
    /// Else the file is replaced by a draft, for which `Space` has the `need`.
    pub fn pack<V: Files>(&self, files: &mut V) -> Result<(), FileError>
        requires holds { HoldsRows (V.state files.old) self.now }
        requires idle { (V.state files.old).draft ≡ None }
        ensures rows { IsTrue (V.state files.old).tells
            → OnOk result (rows (V.state files.new).files self.now
            ≡ live_rows (V.state files.old).files self.now) }
        ensures slots { OnOk result (slots (V.state files.new).files self.now
            ≤ slots (V.state files.old).files self.now) }
        ensures holds { OnOk result (HoldsRows (V.state files.new) self.now) }
        ensures only { OnOk result (OnlyRowsChange (V.state files.old) (V.state files.new) self.now) }
        ensures same { IsTrue (V.state files.old).tells
            → live_rows (V.state files.old).files self.now ≡ rows (V.state files.old).files self.now
            → OnOk result (V.state files.new ≡ V.state files.old) }
        ensures never { IsTrue (V.state files.old).tells
            → live_rows (V.state files.old).files self.now ≡ rows (V.state files.old).files self.now
            → IsOkUnless result FileError.Failed }
        ensures need { IsTrue (V.state files.old).tells
            → OnSpace result (λ need. need ≡ fit (row_length self.now.schema.attributes
            * length (live_rows (V.state files.old).files self.now))) }
        ensures kept { OnSpace result (λ _. Keeps (V.state files.old) (V.state files.new)) }
        ensures cut { CutKeepsOrLeaves V.cuts V.mends V.state files.old files.new (WhereFailed result)
            (λ after. OnlyRowsChange (V.state files.old) after self.now
            × (rows after.files self.now ≡ live_rows (V.state files.old).files self.now)
            × HasWholeRows after self.now) }
        ensures frame { ChangesOrLacks V.state V.lent V.reads V.faults V.lacks files.old files.new result }
    {
        let slots = self.count(files);
        let live = self.count_live(files, slots)?;
        if live == slots {
            return Ok(());
        }
        let size = row_length(&self.schema.attributes) as u32 * u32::from(live);
        self.begin(files, size)?;
        self.draft_live(files, slots, live)?;
        self.commit(files)?;
        Ok(())
    }

    // How many rows are live.
    fn count_live<V: Files>(&self, files: &mut V, count: u16) -> Result<u16, Failed>
        requires holds { HoldsRows (V.state files.old) self.now }
        requires count { count ≡ slots (V.state files.old).files self.now }
        ensures live { IsTrue (V.state files.old).tells
            → IfOk result (λ live. live ≡ length (live_rows (V.state files.old).files self.now)) }
        ensures few { IfOk result (λ live. live ≤ count) }
        ensures frame { OnlyReads V.state V.lent V.reads V.faults files.old files.new result }
    {
        let mut live = 0;
        for slot in 0..count {
            live += u16::from(self.is_live(files, slot)?);
        }
        Ok(live)
    }

    // Whether the row in the slot of this number is live, by its mark alone.
    fn is_live<V: Files>(&self, files: &mut V, slot: u16) -> Result<bool, Failed>
        requires holds { HoldsRows (V.state files.old) self.now }
        requires slot { slot < slots (V.state files.old).files self.now }
        ensures live { IsTrue (V.state files.old).tells
            → IfOk result (λ live. live ≡ (row (V.state files.old).files self.now slot).live) }
        ensures frame { OnlyReads V.state V.lent V.reads V.faults files.old files.new result }
    {
        let mut mark = [0];
        let length = row_length(&self.schema.attributes) as u32;
        files.read(
            self.file,
            length * u32::from(slot) + (length - 1),
            &mut mark,
        )?;
        Ok(mark[0] == 1)
    }

    // Writes the live rows into the draft, which has room for this many.
    fn draft_live<V: Files>(&self, files: &mut V, count: u16, room: u16) -> Result<(), Failed>
        requires holds { HoldsRows (V.state files.old) self.now }
        requires count { count ≡ slots (V.state files.old).files self.now }
        requires room { IsTrue (V.state files.old).tells → room
            ≡ length (live_rows (V.state files.old).files self.now) }
        requires few { room ≤ 32768 }
        requires begun { IsSome (V.state files.old).draft }
        requires size { length (draft_in (V.state files.old)).bytes
            ≡ row_length self.now.schema.attributes * room }
        requires most { length (draft_in (V.state files.old)).bytes ≤ 4194304 }
        requires zeros { IsTrue (V.state files.old).tells
            → IsZeroDraft (V.state files.old) (row_length self.now.schema.attributes * room) }
        ensures suit { IsTrue (V.state files.old).tells
            → OnOk result (AllRowsSuit self.now.schema.attributes
            (live_rows (V.state files.old).files self.now)) }
        ensures rows { IsTrue (V.state files.old).tells
            → OnOk result ((draft_in (V.state files.new)).bytes
            ≡ rows_bytes self.now.schema.attributes (live_rows (V.state files.old).files self.now)) }
        ensures only { OnOk result (OnlyDraftChanges (V.state files.old) (V.state files.new)) }
        ensures cut { CutKeeps V.cuts V.mends V.state files.old files.new (OnErr result) }
        ensures frame { Changes V.state V.lent V.reads V.faults files.old files.new result }
    {
        let mut waiting = Waiting::new();
        let mut written = 0;
        for slot in 0..count {
            written = self.draft_if_live(files, slot, written, room, &mut waiting)?;
        }
        waiting.flush(files)?;
        Ok(())
    }

    // Puts the row in the slot, where it is live, after those that were put before it, and answers how
    // many they are then. A file that does not tell its bytes may show more live rows than it did
    // when they were counted; they are left out.
    fn draft_if_live<V: Files>(
        &self,
        files: &mut V,
        slot: u16,
        written: u16,
        room: u16,
        waiting: &mut Waiting,
    ) -> Result<u16, Failed>
        requires holds { HoldsRows (V.state files.old) self.now }
        requires slot { slot < slots (V.state files.old).files self.now }
        requires written { written ≤ room }
        requires few { room ≤ 32768 }
        requires takes { TakesRows (V.state files.old) waiting.old }
        requires size { length (draft_in (V.state files.old)).bytes
            ≡ row_length self.now.schema.attributes * room }
        requires behind { end_of_waiting waiting.old ≡ row_length self.now.schema.attributes * written }
        ensures live { IsTrue (V.state files.old).tells → written < room
            → (row (V.state files.old).files self.now slot).live ≡ true
            → IfOk result (λ now. (now ≡ written + 1)
            × AllSuit self.now.schema.attributes (row (V.state files.old).files self.now slot).tuple
            × PutsRow (gathered (V.state files.old) waiting.old) (gathered (V.state files.new) waiting.new)
            self.now written (row (V.state files.old).files self.now slot)) }
        ensures removed { IsTrue (V.state files.old).tells
            → (row (V.state files.old).files self.now slot).live ≡ false
            → IfOk result (λ now. (now ≡ written)
            × (gathered (V.state files.new) waiting.new ≡ gathered (V.state files.old) waiting.old)) }
        ensures free { IsTrue (V.state files.old).tells
            → OnOk result (IsFree (V.state files.new) waiting.new) }
        ensures behind { IfOk result (λ now. end_of_waiting waiting.new
            ≡ row_length self.now.schema.attributes * now) }
        ensures few { IfOk result (λ now. now ≤ room) }
        ensures only { OnOk result (OnlyDraftChanges (V.state files.old) (V.state files.new)) }
        ensures cut { CutKeeps V.cuts V.mends V.state files.old files.new (OnErr result) }
        ensures frame { Changes V.state V.lent V.reads V.faults files.old files.new result }
    {
        let mut bytes = [0; ROW_SIZE];
        let row = &mut bytes[..row_length(&self.schema.attributes)];
        self.read(files, slot, row)?;
        values_suit(&self.schema.attributes, row);
        if !is_live(row) || written == room {
            return Ok(written);
        }
        waiting.put(files, row)?;
        Ok(written + 1)
    }

    // Begins a draft of this many zeros for the relation's file.
    fn begin<V: Files>(&self, files: &mut V, size: u32) -> Result<(), FileError>
        requires file { IsRowFile (V.state files.old).files self.now }
        requires idle { (V.state files.old).draft ≡ None }
        requires size { size ≤ 4194304 }
        ensures begun { OnOk result (Drafts (V.state files.old) (V.state files.new)
            (file_at (V.state files.old).files self.now.file).name size (replicate size 0)) }
        ensures need { OnSpace result (λ need. need ≡ fit size) }
        ensures kept { OnSpace result (λ _. Keeps (V.state files.old) (V.state files.new)) }
        ensures cut { CutKeeps V.cuts V.mends V.state files.old files.new (WhereFailed result) }
        ensures frame { ChangesOrLacks V.state V.lent V.reads V.faults V.lacks files.old files.new result }
    {
        let name = files.name(self.file);
        files.draft(name, size)?;
        Ok(())
    }

    // Makes the draft of the relation's file that file.
    fn commit<V: Files>(&self, files: &mut V) -> Result<(), Failed>
        requires live { IsLive (V.state files.old).files self.now.file }
        requires begun { IsSome (V.state files.old).draft }
        requires name { (draft_in (V.state files.old)).name
            ≡ (file_at (V.state files.old).files self.now.file).name }
        requires last { IsTrue (V.state files.old).tells
            → 1 ≤ length (draft_in (V.state files.old)).bytes
            → slice_index (draft_in (V.state files.old)).bytes (length (draft_in (V.state files.old)).bytes - 1)
            ≢ 0 }
        ensures committed { OnOk result (Commits (V.state files.old) (V.state files.new) self.now.file) }
        ensures cut { CutKeepsOrLeaves V.cuts V.mends V.state files.old files.new (OnErr result)
            (λ after. Commits (V.state files.old) after self.now.file) }
        ensures frame { Changes V.state V.lent V.reads V.faults files.old files.new result }
    {
        files.draft_commit()?;
        Ok(())
    }
}

// Marks the bytes of a live row as removed, if it is to be asked about and `removed` answers so.
fn answer<F: Fn(&[u8]) -> bool>(attributes: &Attributes, asks: bool, row: &mut [u8], removed: &F)
    requires size { length row.old ≡ row_length attributes.now }
    requires callable { (shown : _) → IsTrue (row_of attributes.now row.old).live
        → shown.now ≡ row.old → AllSuit attributes.now (tuple_of attributes.now row.old)
        → F.pre removed.now shown }
    ensures answered { row_bytes attributes.now (row_of attributes.now row.old) ≡ row.old → (new : Row)
        × IsAnswered (OfAsked asks attributes.now (FnReturnsAt F.Fn removed.now)) (row_of attributes.now row.old) new
        × AllSuit attributes.now new.tuple × (row.new ≡ row_bytes attributes.now new) }
    ensures size { length row.new ≡ length row.old }
{
    values_suit(attributes, row);
    if !is_live(row) {
        return;
    }
    if !asks {
        return;
    }
    if answer_about(row, removed) {
        mark_removed(row);
    }
}

// What `removed` answers about the bytes of a row.
fn answer_about<F: Fn(&[u8]) -> bool>(row: &[u8], removed: &F) -> bool
    requires { (shown : _) → shown.now ≡ row.now → F.pre removed.now shown }
    ensures { FnReturnsAt F.Fn removed.now row.now result }
{
    removed(row)
}

// Makes the last byte of a row the mark of a removed one.
fn mark_removed(row: &mut [u8])
    requires { 1 ≤ length row.old }
    ensures { row.new ≡ slice_set row.old (length row.old - 1) 3 }
{
    let last = row.len() - 1;
    row[last] = 3;
}
