//! Rows on their way into a draft: each page is programmed for many of them at once.

#![tactic(auto)]

ghost use Rattle.std.specs.Prelude.{◌≡◌, ◌+◌, ◌≤◌, ◌++◌, [], IsTrue, OnErr, OnOk, length};
ghost use Rattle.afl_base.specs.CutFiles.{CutKeeps};
ghost use Rattle.afl_base.specs.Fields.{put_at};
ghost use Rattle.afl_base.specs.Files.{draft_in};
ghost use Rattle.afl_base.specs.Keeping.{Changes};
ghost use Rattle.tuple_file.specs.Gathered.{IsFree, TakesRows, end_of_waiting, gathered, page_rest};
ghost use Rattle.tuple_file.specs.Tuples.{OnlyDraftChanges};

use afl_base::{Failed, Files};
use std::marker::Model;

// The bytes of a page, and those of it before the first byte of a file. What is written in whole pages is programmed once;
// nothing else depends on them.
const PAGE_SIZE: usize = 256;

const HEADER_SIZE: usize = 32;

/// Bytes of rows that the draft does not have yet, up to where a page ends.
#[derive(Drop)]
pub(crate) struct Waiting {
    bytes: [u8; PAGE_SIZE],
    filled: usize,
    at: u32,
}

impl Model for Waiting {
    ghost use Rattle.std.specs.Prelude.{◌≤◌, take};
    ghost use Rattle.tuple_file.specs.Gathered.{WaitingRows, page_rest};

    ghost Value = { WaitingRows };

    ghost view = { λ w. record { at = w.at; bytes = take w.filled w.bytes } };

    ghost invariant = { λ w. w.filled ≤ page_rest w.at };
}

impl Waiting {
    /// None yet, for the front of a draft.
    pub(crate) fn new() -> Waiting
        ensures at { result.at ≡ 0 }
        ensures none { result.bytes ≡ [] }
    {
        Waiting {
            bytes: [0; PAGE_SIZE],
            filled: 0,
            at: 0,
        }
    }

    /// Puts the bytes of a row after those that came before it. What waits is written where a page ends.
    pub(crate) fn put<V: Files>(&mut self, files: &mut V, row: &[u8]) -> Result<(), Failed>
        requires short { length row.now ≤ 128 }
        requires takes { TakesRows (V.state files.old) self.old }
        requires range { end_of_waiting self.old + length row.now ≤ length (draft_in (V.state files.old)).bytes }
        ensures put { IsTrue (V.state files.old).tells
            → OnOk result (gathered (V.state files.new) self.new
            ≡ put_at (gathered (V.state files.old) self.old) (end_of_waiting self.old) row.now) }
        ensures free { IsTrue (V.state files.old).tells
            → OnOk result (IsFree (V.state files.new) self.new) }
        ensures end { OnOk result (end_of_waiting self.new ≡ end_of_waiting self.old + length row.now) }
        ensures only { OnOk result (OnlyDraftChanges (V.state files.old) (V.state files.new)) }
        ensures cut { CutKeeps V.cuts V.mends V.state files.old files.new (OnErr result) }
        ensures frame { Changes V.state V.lent V.reads V.faults files.old files.new result }
    {
        let fits = row.len().min(self.room());
        self.take_in(&row[..fits]);
        if self.room() == 0 {
            self.flush(files)?;
            self.take_in(&row[fits..]);
        }
        Ok(())
    }

    // How many bytes more belong to the page that waits.
    fn room(&self) -> usize
        ensures { result + length self.now.bytes ≡ page_rest self.now.at }
    {
        PAGE_SIZE - (self.at as usize + HEADER_SIZE) % PAGE_SIZE - self.filled
    }

    // Takes bytes in, for which there is room in the page.
    fn take_in(&mut self, more: &[u8])
        requires room { length self.old.bytes + length more.now ≤ page_rest self.old.at }
        ensures at { self.new.at ≡ self.old.at }
        ensures bytes { self.new.bytes ≡ self.old.bytes ++ more.now }
    {
        let end = self.filled + more.len();
        self.bytes[self.filled..end].copy_from_slice(more);
        self.filled = end;
    }

    /// Writes all that waits.
    pub(crate) fn flush<V: Files>(&mut self, files: &mut V) -> Result<(), Failed>
        requires takes { TakesRows (V.state files.old) self.old }
        requires range { end_of_waiting self.old ≤ length (draft_in (V.state files.old)).bytes }
        ensures written { IsTrue (V.state files.old).tells → OnOk result
            ((draft_in (V.state files.new)).bytes ≡ gathered (V.state files.old) self.old) }
        ensures free { IsTrue (V.state files.old).tells
            → OnOk result (IsFree (V.state files.new) self.new) }
        ensures at { OnOk result (self.new.at ≡ end_of_waiting self.old) }
        ensures none { OnOk result (self.new.bytes ≡ []) }
        ensures only { OnOk result (OnlyDraftChanges (V.state files.old) (V.state files.new)) }
        ensures cut { CutKeeps V.cuts V.mends V.state files.old files.new (OnErr result) }
        ensures frame { Changes V.state V.lent V.reads V.faults files.old files.new result }
    {
        files.draft_write(self.at, &self.bytes[..self.filled])?;
        self.at += self.filled as u32;
        self.filled = 0;
        Ok(())
    }
}
