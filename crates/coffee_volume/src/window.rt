ghost use Rattle.std.specs.Prelude.{◌≡◌, ◌↔◌, ℕ, ◌+◌, ◌-◌, ◌*◌, ◌%◌, ◌≤◌, [], None, IsSome, IsTrue, OnErr, OnOk, length};
ghost use Rattle.afl_base.specs.Keeping.{OnlyReads};
ghost use Rattle.afl_base.specs.Regions.{regions};
ghost use Rattle.coffee_layout.specs.Files.{FitsIn};
ghost use Rattle.coffee_layout.specs.Units.{pages_of};
ghost use Rattle.coffee_volume.specs.Windows.{Holds, IsPart, ShowsContent, content_of};

use afl_base::{Failed, FileId, Flash};
use coffee_layout::FileAt;
use coffee_log::read_file;
use flash_range::read_range;
use std::marker::Model;

// The most bytes that are held: those of a page.
const WINDOW_SIZE: usize = 256;

// The most bytes that a read may skip and go on: those of the longest row, of which a scan by one
// field skips the others.
const MOST_SKIPPED: u32 = 128;

/// Bytes of the file that was read last. Where reads go on in order, each beginning where the one
/// before it ended or a little behind, what stands behind in the same page is read with them, and so
/// each page once.
#[derive(Drop)]
pub(crate) struct Window {
    file: u16,
    from: u32,
    held: usize,
    bytes: [u8; WINDOW_SIZE],
    // Where the last read ended.
    end: u32,
}

impl Model for Window {
    ghost use Rattle.std.specs.Prelude.{◌≤◌, take};
    ghost use Rattle.coffee_volume.specs.Windows.{Part};

    ghost Value = { Part };

    ghost view = { λ w. record { file = w.file; from = w.from; bytes = take w.held w.bytes } };

    ghost invariant = { λ w. w.held ≤ 256 };
}

impl Window {
    /// Nothing is held, and no read goes on.
    pub(crate) fn new() -> Window
        ensures { result.bytes ≡ [] }
    {
        Window {
            file: 0,
            from: 0,
            held: 0,
            bytes: [0; WINDOW_SIZE],
            end: u32::MAX,
        }
    }

    /// Lets go of what is held, since files change. No read goes on then: nothing is read ahead which the
    /// next change would throw away.
    pub(crate) fn clear(&mut self)
        ensures { self.new.bytes ≡ [] }
    {
        self.held = 0;
        self.end = u32::MAX;
    }

    /// Fills `into` where all of it is held of this file, and answers whether it is. Of most reads it is.
    pub(crate) fn gives(&mut self, id: FileId, at: u32, into: &mut [u8]) -> bool
        ensures told { IsTrue result ↔ Holds self.old id at (length into.old) }
        ensures part { IsTrue result → (content : ℕ → ℕ) → ShowsContent self.old content
            → IsPart into.new (length into.old) at content }
        ensures same { self.new ≡ self.old }
    {
        if !self.holds(id.number(), at, into.len()) {
            return false;
        }
        // A guess of where the next read begins: it may wrap.
        self.end = at.wrapping_add(into.len() as u32);
        self.give_all(at, into);
        true
    }

    // Whether all of these bytes of this file are held.
    fn holds(&self, file: u16, at: u32, len: usize) -> bool
        ensures { IsTrue result ↔ Holds self.now file at len }
    {
        if self.file != file || at < self.from {
            return false;
        }
        let before = (at - self.from) as usize;
        before <= self.held && len <= self.held - before
    }

    // Fills `into` with what is held.
    fn give_all(&self, at: u32, into: &mut [u8])
        requires { Holds self.now self.now.file at (length into.old) }
        ensures { (content : ℕ → ℕ) → ShowsContent self.now content
            → IsPart into.new (length into.old) at content }
    {
        let before = (at - self.from) as usize;
        into.copy_from_slice(&self.bytes[before..before + into.len()]);
    }

    /// Fills `into` with the content of a file from byte `at` on.
    pub(crate) fn read<F: Flash>(
        &mut self,
        flash: &mut F,
        id: FileId,
        file: &FileAt,
        at: u32,
        into: &mut [u8],
    ) -> Result<(), Failed>
        requires fits { FitsIn (pages_of (F.image flash.old)) file.now }
        requires range { at + length into.old ≤ file.now.size }
        ensures bytes { IsTrue F.tells
            → (self.old.file ≡ id → ShowsContent self.old (content_of (F.image flash.old) file.now))
            → OnOk result (IsPart into.new (length into.old) at (content_of (F.image flash.old) file.now)) }
        ensures shows { IsTrue F.tells
            → (self.old.file ≡ id → ShowsContent self.old (content_of (F.image flash.old) file.now))
            → ShowsContent self.new (content_of (F.image flash.old) file.now) }
        ensures file { self.new.file ≡ id }
        ensures reads { F.reads flash.new ≤ F.reads flash.old + 3 * regions at (length into.old) }
        ensures frame { OnlyReads F.image F.lent F.reads F.faults flash.old flash.new result }
    {
        // What the number of sectors promises bounds the size.
        flash.sectors();
        self.turn_to(id.number());
        let goes_on = self.end <= at && at - self.end <= MOST_SKIPPED;
        self.end = at + into.len() as u32;
        let given = self.give(at, into);
        self.read_rest(flash, file, at + given as u32, &mut into[given..], goes_on)?;
        Ok(())
    }

    // Lets go of what is held of another file.
    fn turn_to(&mut self, file: u16)
        ensures file { self.new.file ≡ file }
        ensures shows { (content : ℕ → ℕ) → (self.old.file ≡ file → ShowsContent self.old content)
            → ShowsContent self.new content }
    {
        if self.file == file {
            return;
        }
        self.file = file;
        self.held = 0;
        self.end = u32::MAX;
    }

    // Fills a front part of `into` with what is held, and answers its length.
    fn give(&self, at: u32, into: &mut [u8]) -> usize
        ensures few { result ≤ length into.old }
        ensures part { (content : ℕ → ℕ) → ShowsContent self.now content → IsPart into.new result at content }
        ensures all { self.now.from ≤ at → at + length into.old ≤ self.now.from + length self.now.bytes
            → result ≡ length into.old }
    {
        if at < self.from {
            return 0;
        }
        let before = (at - self.from) as usize;
        if self.held <= before {
            return 0;
        }
        let count = into.len().min(self.held - before);
        into[..count].copy_from_slice(&self.bytes[before..before + count]);
        count
    }

    // Fills `into` with what is not held, and holds more where reads go on in order.
    fn read_rest<F: Flash>(
        &mut self,
        flash: &mut F,
        file: &FileAt,
        at: u32,
        into: &mut [u8],
        goes_on: bool,
    ) -> Result<(), Failed>
        requires fits { FitsIn (pages_of (F.image flash.old)) file.now }
        requires range { at + length into.old ≤ file.now.size }
        ensures bytes { IsTrue F.tells
            → OnOk result (IsPart into.new (length into.old) at (content_of (F.image flash.old) file.now)) }
        ensures shows { IsTrue F.tells → ShowsContent self.old (content_of (F.image flash.old) file.now)
            → ShowsContent self.new (content_of (F.image flash.old) file.now) }
        ensures file { self.new.file ≡ self.old.file }
        ensures reads { F.reads flash.new ≤ F.reads flash.old + 3 * regions at (length into.old) }
        ensures frame { OnlyReads F.image F.lent F.reads F.faults flash.old flash.new result }
    {
        if into.is_empty() {
            return Ok(());
        }
        let count = count_at_once(file, at);
        if !goes_on || count < into.len() {
            read_file(flash, file.page, file.log, at, into)?;
            return Ok(());
        }
        self.fill(flash, file, at, count)?;
        self.give(at, into);
        Ok(())
    }

    // Holds this many bytes of a file from byte `at` on.
    fn fill<F: Flash>(
        &mut self,
        flash: &mut F,
        file: &FileAt,
        at: u32,
        count: usize,
    ) -> Result<(), Failed>
        requires fits { FitsIn (pages_of (F.image flash.old)) file.now }
        requires range { at + count ≤ file.now.size }
        requires few { count ≤ 256 }
        requires page { file.now.log ≡ None → (32 + at) % 256 + count ≤ 256 }
        requires region { IsSome file.now.log → at % 128 + count ≤ 128 }
        ensures shows { IsTrue F.tells
            → ShowsContent self.new (content_of (F.image flash.old) file.now) }
        ensures held { OnOk result ((self.new.from ≡ at) × (length self.new.bytes ≡ count)) }
        ensures file { self.new.file ≡ self.old.file }
        ensures reads { F.reads flash.new ≤ F.reads flash.old + 3 }
        ensures frame { OnlyReads F.image F.lent F.reads F.faults flash.old flash.new result }
    {
        self.held = 0;
        read_at_once(flash, file, at, &mut self.bytes[..count])?;
        self.from = at;
        self.held = count;
        Ok(())
    }
}

// How many bytes of a file from byte `at` on are read at once: up to the end of their page, or of their
// region where the file has a log, and of the file.
fn count_at_once(file: &FileAt, at: u32) -> usize
    requires { at ≤ file.now.size }
    ensures range { at + result ≤ file.now.size }
    ensures few { result ≤ 256 }
    ensures page { file.now.log ≡ None → (32 + at) % 256 + result ≤ 256 }
    ensures region { IsSome file.now.log → at % 128 + result ≤ 128 }
{
    let together = match file.log {
        None => 256 - (at % 256 + 32) % 256,
        Some(_) => 128 - at % 128,
    };
    together.min(file.size - at) as usize
}

// Fills `into` with such bytes.
fn read_at_once<F: Flash>(
    flash: &mut F,
    file: &FileAt,
    at: u32,
    into: &mut [u8],
) -> Result<(), Failed>
    requires fits { FitsIn (pages_of (F.image flash.old)) file.now }
    requires range { at + length into.old ≤ file.now.size }
    requires page { file.now.log ≡ None → (32 + at) % 256 + length into.old ≤ 256 }
    requires region { IsSome file.now.log → at % 128 + length into.old ≤ 128 }
    ensures bytes { IsTrue F.tells
        → OnOk result (IsPart into.new (length into.old) at (content_of (F.image flash.old) file.now)) }
    ensures reads { F.reads flash.new ≤ F.reads flash.old + 3 }
    ensures frame { OnlyReads F.image F.lent F.reads F.faults flash.old flash.new result }
{
    match file.log {
        None => read_in_page(flash, file, at, into),
        Some(_) => read_file(flash, file.page, file.log, at, into),
    }
}

// The same of a file that has no log: they are read as they stand in their page.
fn read_in_page<F: Flash>(
    flash: &mut F,
    file: &FileAt,
    at: u32,
    into: &mut [u8],
) -> Result<(), Failed>
    requires fits { FitsIn (pages_of (F.image flash.old)) file.now }
    requires range { at + length into.old ≤ file.now.size }
    requires none { file.now.log ≡ None }
    requires page { (32 + at) % 256 + length into.old ≤ 256 }
    ensures bytes { IsTrue F.tells
        → OnOk result (IsPart into.new (length into.old) at (content_of (F.image flash.old) file.now)) }
    ensures reads { F.reads flash.new ≤ F.reads flash.old + 1 }
    ensures frame { OnlyReads F.image F.lent F.reads F.faults flash.old flash.new result }
{
    flash.sectors();
    read_range(flash, 256 * u32::from(file.page.0) + 32 + at, into)?;
    Ok(())
}
