ghost use Rattle.std.specs.Prelude.{◌≤◌, IfSome, length};

use crate::backing::Backing;
use crate::bytes::program_bytes;
use afl_base::{Failed, Flash, PageId, SectorId, Sink, Source};
use std::io;
use std::io::{ErrorKind, Read, Write};
use std::marker::Model;
use std::os::unix::fs::FileExt;

const PAGE: u64 = 256;

const SECTOR: u64 = 4096;

const ERASED: [u8; 4096] = [0; 4096];

// How often a call that a signal interrupted is made again.
const TRIES: u32 = 1_000_000;

/// A flash kept in an open file, byte after byte. It tells no contents, since others may write the
/// file. What a call on the file failed to do is a fault of this flash.
#[derive(Drop)]
pub struct FileFlash<F: FileExt + Drop> {
    file: F,
    sectors: u16,
    reads: u64,
    faults: u64,
}

impl<F: FileExt + Drop> Model for FileFlash<F> {
    ghost use Rattle.std.specs.Prelude.{◌≤◌};
    ghost use Rattle.afl_sim.specs.Devices.{FlashInFile};

    ghost Value = { FlashInFile };

    ghost view = { λ f. record { sectors = f.sectors; reads = f.reads; faults = f.faults } };

    ghost invariant = { λ f. (4 ≤ f.sectors) × (f.sectors ≤ 4095) };
}

impl<F: FileExt + Drop> FileFlash<F> {
    ghost use Rattle.std.specs.Prelude.{◌≡◌, ◌↔◌, ◌*◌, IsSome, IfSome, is_err};
    ghost use Rattle.afl_sim.specs.Devices.{faults_counted};
    ghost use Rattle.afl_sim.specs.Lengths.{IsImageLength};

    /// A flash in `file`, which has `length` bytes and was opened for reading and writing. `None`
    /// comes exactly where `length` is not 4,096 times a number of sectors from 4 to 4,095.
    pub fn new(file: F, length: u64) -> Option<FileFlash<F>>
        ensures variant { IsSome result ↔ IsImageLength length }
        ensures sectors { IfSome result (λ flash. length ≡ 4096 * flash.sectors) }
        ensures reads { IfSome result (λ flash. flash.reads ≡ 0) }
        ensures faults { IfSome result (λ flash. flash.faults ≡ 0) }
    {
        let sectors = length / SECTOR;
        if length % SECTOR != 0 || sectors < 4 || sectors > 4095 {
            return None;
        }
        Some(FileFlash {
            file,
            sectors: sectors as u16,
            reads: 0,
            faults: 0,
        })
    }

    // Counts a fault where a call on the file failed.
    fn judge(&mut self, outcome: io::Result<()>) -> Result<(), Failed>
        ensures sectors { self.new.sectors ≡ self.old.sectors }
        ensures reads { self.new.reads ≡ self.old.reads }
        ensures counts { self.new.faults ≡ faults_counted (is_err result) self.old.faults }
    {
        match outcome {
            Ok(()) => Ok(()),
            Err(_) => {
                self.faults = self.faults.saturating_add(1);
                Err(Failed)
            }
        }
    }
}

impl<F: FileExt + Drop> Flash for FileFlash<F> {
    ghost use Rattle.std.specs.Prelude.{◌≡◌, ◌≢◌, ℕ, ◌+◌, ◌*◌, ◌≤◌, false, is_err, length, slice_range, IsTrue, OnErr, OnOk, []};
    ghost use Rattle.afl_base.specs.Causes.{CountsOne};
    ghost use Rattle.afl_base.specs.Cuts.{IsCutErase, IsCutProgram};
    ghost use Rattle.afl_base.specs.Image.{or_at, zeros_at, page_bytes, sector_bytes};
    ghost use Rattle.afl_sim.specs.Devices.{faults_counted, untold};
    ghost use Rattle.afl_base.specs.Keeping.{OnlyReads, Programs};

    ghost tells = { false };

    ghost cuts = { false };

    ghost image = { λ f. untold f };

    ghost faults = { λ f. f.faults };

    ghost reads = { λ f. f.reads };

    ghost lent = { λ f. [] };

    fn sectors(&self) -> u16 {
        self.sectors
    }

    fn read(&mut self, page: PageId, at: u16, into: &mut [u8]) -> Result<(), Failed>
        requires page { 256 * page.0 + 256 ≤ length (untold self.old) }
        requires range { at + length into.old ≤ 256 }
        ensures bytes { IsTrue false → OnOk result
            (into.new ≡ slice_range (untold self.old) (256 * page.0 + at) (256 * page.0 + at + length into.old)) }
        ensures counted { CountsOne self.old.reads self.new.reads }
        ensures reads { self.new.reads ≤ self.old.reads + 1 }
        ensures faultless { OnOk result (self.new.faults ≡ self.old.faults) }
        ensures frame { let flash = ⟦<Self as Flash>⟧ in
            OnlyReads flash.image flash.lent flash.reads flash.faults self.old self.new result }
        ensures counts { self.new.faults ≡ faults_counted (is_err result) self.old.faults }
    {
        self.reads = self.reads.saturating_add(1);
        let outcome = self
            .file
            .read_exact_at(into, PAGE * u64::from(page.0) + u64::from(at));
        self.judge(outcome)?;
        Ok(())
    }

    fn program(&mut self, page: PageId, at: u16, bytes: &[u8]) -> Result<(), Failed>
        requires page { 256 * page.0 + 256 ≤ length (untold self.old) }
        requires range { at + length bytes.now ≤ 256 }
        ensures programmed { IsTrue false → OnOk result
            (untold self.new ≡ or_at (untold self.old) (256 * page.0 + at) bytes.now) }
        ensures page { IsTrue false → OnOk result
            (page_bytes (untold self.new) page.0 ≡ or_at (page_bytes (untold self.old) page.0) at bytes.now) }
        ensures other_pages { IsTrue false → (p : ℕ) → p ≢ page.0
            → page_bytes (untold self.new) p ≡ page_bytes (untold self.old) p }
        ensures cut { IsTrue false → IsTrue false → OnErr result
            (IsCutProgram (untold self.old) (untold self.new) (256 * page.0 + at) bytes.now) }
        ensures faultless { OnOk result (self.new.faults ≡ self.old.faults) }
        ensures frame { let flash = ⟦<Self as Flash>⟧ in
            Programs flash.image flash.lent flash.reads flash.faults self.old self.new result }
        ensures counts { self.new.faults ≡ faults_counted (is_err result) self.old.faults }
    {
        let place = PAGE * u64::from(page.0) + u64::from(at);
        let mut buffer = [0u8; 256];
        let part = &mut buffer[..bytes.len()];
        let outcome = self.file.read_exact_at(part, place);
        self.judge(outcome)?;
        program_bytes(part, 0, bytes);
        let outcome = self.file.write_all_at(part, place);
        self.judge(outcome)?;
        Ok(())
    }

    fn erase(&mut self, sector: SectorId) -> Result<(), Failed>
        requires sector { 4096 * sector.0 + 4096 ≤ length (untold self.old) }
        ensures erased { IsTrue false → OnOk result
            (untold self.new ≡ zeros_at (untold self.old) (4096 * sector.0) 4096) }
        ensures other_sectors { IsTrue false → (s : ℕ) → s ≢ sector.0
            → sector_bytes (untold self.new) s ≡ sector_bytes (untold self.old) s }
        ensures cut { IsTrue false → IsTrue false → OnErr result
            (IsCutErase (untold self.old) (untold self.new) sector.0) }
        ensures faultless { OnOk result (self.new.faults ≡ self.old.faults) }
        ensures frame { let flash = ⟦<Self as Flash>⟧ in
            Programs flash.image flash.lent flash.reads flash.faults self.old self.new result }
        ensures counts { self.new.faults ≡ faults_counted (is_err result) self.old.faults }
    {
        let outcome = self
            .file
            .write_all_at(&ERASED, SECTOR * u64::from(sector.0));
        self.judge(outcome)?;
        Ok(())
    }
}

impl<F: FileExt + Drop> Backing for FileFlash<F> {
    ghost use Rattle.std.specs.Prelude.{◌≡◌, ◌≢◌, ℕ, ◌+◌, ◌*◌, ◌≤◌, false, is_err, length, IsTrue, OnErr, OnOk};
    ghost use Rattle.afl_base.specs.Causes.{CountsOne};
    ghost use Rattle.afl_base.specs.Cuts.{IsCutProgram};
    ghost use Rattle.afl_base.specs.Image.{or_at, page_bytes, sector_bytes};
    ghost use Rattle.afl_sim.specs.Caches.{Covers};
    ghost use Rattle.afl_sim.specs.Devices.{faults_counted, untold};
    ghost use Rattle.afl_base.specs.Keeping.{OnlyReads, Programs};

    fn read_sector(&mut self, sector: SectorId, into: &mut [u8]) -> Result<(), Failed>
        requires sector { 4096 * sector.0 + 4096 ≤ length (untold self.old) }
        requires whole { length into.old ≡ 4096 }
        ensures bytes { IsTrue false → OnOk result
            (into.new ≡ sector_bytes (untold self.old) sector.0) }
        ensures counted { CountsOne self.old.reads self.new.reads }
        ensures faultless { OnOk result (self.new.faults ≡ self.old.faults) }
        ensures frame { let flash = ⟦<Self as Flash>⟧ in
            OnlyReads flash.image flash.lent flash.reads flash.faults self.old self.new result }
        ensures counts { self.new.faults ≡ faults_counted (is_err result) self.old.faults }
    {
        self.reads = self.reads.saturating_add(1);
        let outcome = self.file.read_exact_at(into, SECTOR * u64::from(sector.0));
        self.judge(outcome)?;
        Ok(())
    }

    fn overwrite(&mut self, page: PageId, at: u16, bytes: &[u8]) -> Result<(), Failed>
        requires page { 256 * page.0 + 256 ≤ length (untold self.old) }
        requires range { at + length bytes.now ≤ 256 }
        requires covers { IsTrue false → Covers (untold self.old) (256 * page.0 + at) bytes.now }
        ensures programmed { IsTrue false → OnOk result
            (untold self.new ≡ or_at (untold self.old) (256 * page.0 + at) bytes.now) }
        ensures other_pages { IsTrue false → (p : ℕ) → p ≢ page.0
            → page_bytes (untold self.new) p ≡ page_bytes (untold self.old) p }
        ensures cut { IsTrue false → IsTrue false → OnErr result
            (IsCutProgram (untold self.old) (untold self.new) (256 * page.0 + at) bytes.now) }
        ensures faultless { OnOk result (self.new.faults ≡ self.old.faults) }
        ensures frame { let flash = ⟦<Self as Flash>⟧ in
            Programs flash.image flash.lent flash.reads flash.faults self.old self.new result }
        ensures counts { self.new.faults ≡ faults_counted (is_err result) self.old.faults }
    {
        let outcome = self
            .file
            .write_all_at(bytes, PAGE * u64::from(page.0) + u64::from(at));
        self.judge(outcome)?;
        Ok(())
    }
}

// Reads once, and again where a signal came in between. `None` is a failure.
fn read_once<R: Read>(reader: &mut R, into: &mut [u8]) -> Option<usize>
    ensures { IfSome result (λ n. n ≤ length into.new) }
{
    for _ in 0..TRIES {
        match reader.read(into) {
            Ok(n) => return Some(n),
            Err(error) if error.kind() == ErrorKind::Interrupted => {}
            Err(_) => return None,
        }
    }
    None
}

// Writes once, and again where a signal came in between. `None` is a failure, as is a writer that
// takes nothing.
fn write_once<W: Write>(writer: &mut W, bytes: &[u8]) -> Option<usize>
    ensures least { IfSome result (λ n. 1 ≤ n) }
    ensures most { IfSome result (λ n. n ≤ length bytes.now) }
{
    for _ in 0..TRIES {
        match writer.write(bytes) {
            Ok(0) => return None,
            Ok(n) => return Some(n),
            Err(error) if error.kind() == ErrorKind::Interrupted => {}
            Err(_) => return None,
        }
    }
    None
}

/// A source over a reader of the system: an open file or standard input. It tells no contents,
/// and contracts see it as its counts of reads and of faults.
#[derive(Drop)]
pub struct StdSource<R: Read + Drop> {
    reader: R,
    reads: u64,
    faults: u64,
}

impl<R: Read + Drop> Model for StdSource<R> {
    ghost use Rattle.afl_sim.specs.Devices.{SourceOverReader};

    ghost Value = { SourceOverReader };

    ghost view = { λ s. record { reads = s.reads; faults = s.faults } };
}

impl<R: Read + Drop> StdSource<R> {
    ghost use Rattle.std.specs.Prelude.{◌≡◌};

    /// A source of what `reader` gives.
    pub fn new(reader: R) -> StdSource<R>
        ensures reads { result.reads ≡ 0 }
        ensures faults { result.faults ≡ 0 }
    {
        StdSource {
            reader,
            reads: 0,
            faults: 0,
        }
    }
}

impl<R: Read + Drop> Source for StdSource<R> {
    ghost use Rattle.std.specs.Prelude.{◌≡◌, ◌≤◌, ℕ, List, Option, None, IfOk, OnErr, OnOk, is_err, length, take};
    ghost use Rattle.std.specs.Io.KnownBytes.{prepend_known, IsAtEnd};
    ghost use Rattle.afl_base.specs.Causes.{CountsOne, HasCause};
    ghost use Rattle.afl_sim.specs.Devices.{faults_counted};

    ghost left = { λ s. None };

    ghost faults = { λ s. s.faults };

    ghost reads = { λ s. s.reads };

    fn read(&mut self, into: &mut [u8]) -> Result<usize, Failed>
        requires room { 1 ≤ length into.old }
        ensures within { IfOk result (λ n. n ≤ length into.new) }
        ensures bytes { IfOk result (λ n. None ≡ prepend_known (take n into.new) None) }
        ensures end { IfOk result (λ n. n ≡ 0 → IsAtEnd None) }
        ensures failed { OnErr result (◌≡◌ {A = Option (List ℕ)} None None) }
        ensures counted { CountsOne self.old.reads self.new.reads }
        ensures faultless { OnOk result (self.new.faults ≡ self.old.faults) }
        ensures cause { HasCause self.old.faults self.new.faults result }
        ensures counts { self.new.faults ≡ faults_counted (is_err result) self.old.faults }
    {
        self.reads = self.reads.saturating_add(1);
        let Some(n) = read_once(&mut self.reader, into) else {
            self.faults = self.faults.saturating_add(1);
            return Err(Failed);
        };
        Ok(n)
    }
}

/// A sink over a writer of the system, as standard output. It tells no contents, and contracts see
/// it as its count of faults.
#[derive(Drop)]
pub struct StdSink<W: Write + Drop> {
    writer: W,
    faults: u64,
}

impl<W: Write + Drop> Model for StdSink<W> {
    ghost use Rattle.std.specs.Prelude.{ℕ};

    ghost Value = { ℕ };

    ghost view = { λ s. s.faults };
}

impl<W: Write + Drop> StdSink<W> {
    ghost use Rattle.std.specs.Prelude.{◌≡◌};

    /// A sink that hands on to `writer`.
    pub fn new(writer: W) -> StdSink<W>
        ensures { result ≡ 0 }
    {
        StdSink { writer, faults: 0 }
    }
}

impl<W: Write + Drop> Sink for StdSink<W> {
    ghost use Rattle.std.specs.Prelude.{◌≡◌, ◌≤◌, ℕ, List, Option, None, IfOk, OnErr, is_err, length, take, []};
    ghost use Rattle.std.specs.Io.KnownBytes.{append_known};
    ghost use Rattle.afl_sim.specs.Devices.{faults_counted};
    ghost use Rattle.afl_base.specs.Keeping.{Sends};

    ghost held = { λ s. None };

    ghost faults = { λ s. s };

    ghost lent = { λ s. [] };

    fn write(&mut self, bytes: &[u8]) -> Result<usize, Failed>
        requires some { 1 ≤ length bytes.now }
        ensures least { IfOk result (λ n. 1 ≤ n) }
        ensures most { IfOk result (λ n. n ≤ length bytes.now) }
        ensures bytes { IfOk result (λ n. None ≡ append_known None (take n bytes.now)) }
        ensures failed { OnErr result (◌≡◌ {A = Option (List ℕ)} None None) }
        ensures frame { let sink = ⟦<Self as Sink>⟧ in Sends sink.lent sink.faults self.old self.new result }
        ensures counts { self.new ≡ faults_counted (is_err result) self.old }
    {
        let Some(n) = write_once(&mut self.writer, bytes) else {
            self.faults = self.faults.saturating_add(1);
            return Err(Failed);
        };
        Ok(n)
    }
}
