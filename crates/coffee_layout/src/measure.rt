ghost use Rattle.std.specs.Prelude.{◌≡◌, ℕ, ◌+◌, ◌*◌, ◌/◌, ◌≤◌, ◌<◌, ◌||◌, nat_le, length, map, List, None, IsTrue, IfOk, OnOk};
ghost use Rattle.afl_base.specs.Keeping.{OnlyReads};
ghost use Rattle.std.specs.List.{All};
ghost use Rattle.std.specs.Option.{option_map};
ghost use Rattle.afl_base.specs.Fit.{fit};
ghost use Rattle.coffee_layout.specs.Files.{FitsIn, Placed, entry_of, entry_with, used_of};
ghost use Rattle.coffee_layout.specs.Rules.{first_failing, has_few_pages};
ghost use Rattle.coffee_layout.specs.Units.{pages_of};
ghost use Rattle.coffee_layout.specs.Walks.{IsMeasured, IsPlaced, LogFits, LogsFit, fitting, has_few, page_id};

use crate::bytes::file_size;
use crate::file::{FileAt, Table};
use crate::logs::{read_table, records_used};
use afl_base::{Failed, Flash, Kind, PageId, fit};

/// Measures the files of the table: their sizes, and how many records of their logs are in use.
pub(crate) fn measure_table<F: Flash>(flash: &mut F, table: &mut Table) -> Result<(), Failed>
    requires placed { All (λ e. IsPlaced (pages_of (F.image flash.old)) e) table.old.items }
    ensures measured { IsTrue F.tells → OnOk result
        ((files : List Placed) → LogsFit (pages_of (F.image flash.old)) files
        → table.old.items ≡ map (λ f. entry_with f 0 0) files
        → table.new.items ≡ map (entry_of (F.image flash.old)) files) }
    ensures fits { OnOk result (All (FitsIn (pages_of (F.image flash.old))) table.new.items) }
    ensures reads { F.reads flash.new ≤ F.reads flash.old + 32 * (1 + 6 * pages_of (F.image flash.old)) }
    ensures frame { OnlyReads F.image F.lent F.reads F.faults flash.old flash.new result }
{
    measure_all(flash, table.as_mut_slice())?;
    Ok(())
}

fn measure_all<F: Flash>(flash: &mut F, table: &mut [FileAt]) -> Result<(), Failed>
    requires few { length table.old ≤ 32 }
    requires placed { All (λ e. IsPlaced (pages_of (F.image flash.old)) e) table.old }
    ensures measured { IsTrue F.tells → OnOk result
        ((files : List Placed) → LogsFit (pages_of (F.image flash.old)) files
        → table.old ≡ map (λ f. entry_with f 0 0) files
        → table.new ≡ map (entry_of (F.image flash.old)) files) }
    ensures fits { OnOk result (All (FitsIn (pages_of (F.image flash.old))) table.new) }
    ensures reads { F.reads flash.new ≤ F.reads flash.old + 32 * (1 + 6 * pages_of (F.image flash.old)) }
    ensures frame { OnlyReads F.image F.lent F.reads F.faults flash.old flash.new result }
{
    for i in 0..table.len() {
        let file = measured(flash, &table[i])?;
        table[i] = file;
    }
    Ok(())
}

// The entry of a file with its size, and with its log where that lies inside the flash.
fn measured<F: Flash>(flash: &mut F, file: &FileAt) -> Result<FileAt, Failed>
    requires placed { IsPlaced (pages_of (F.image flash.old)) file.now }
    ensures measured { IsTrue F.tells → IfOk result (λ e. IsMeasured (F.image flash.old) file.now e) }
    ensures fits { IfOk result (λ e. FitsIn (pages_of (F.image flash.old)) e) }
    ensures reads { F.reads flash.new ≤ F.reads flash.old + (1 + 6 * pages_of (F.image flash.old)) }
    ensures frame { OnlyReads F.image F.lent F.reads F.faults flash.old flash.new result }
{
    let pages = 16 * flash.sectors();
    let log = fitting(pages, file.log);
    let size = file_size(flash, file.page, file.pages, log)?;
    let used = log_used(flash, log)?;
    Ok(FileAt {
        name: file.name,
        kind: file.kind,
        page: file.page,
        pages: file.pages,
        size,
        log,
        used,
    })
}

// The log, where it lies inside the flash.
fn fitting(pages: u16, log: Option<PageId>) -> Option<PageId>
    ensures value { result ≡ fitting pages log }
    ensures fits { LogFits pages result }
{
    match log {
        None => None,
        Some(log) => if u32::from(log.0) + 16 <= u32::from(pages) {
            Some(log)
        } else {
            None
        },
    }
}

// The records of a log that are in use, 0 of none.
fn log_used<F: Flash>(flash: &mut F, log: Option<PageId>) -> Result<u8, Failed>
    requires log { LogFits (pages_of (F.image flash.old)) log }
    ensures used { IsTrue F.tells → IfOk result (λ n. n ≡ used_of (F.image flash.old) log) }
    ensures few { IfOk result (λ n. n ≤ 30) }
    ensures none { IfOk result (λ n. log ≡ None → n ≡ 0) }
    ensures reads { F.reads flash.new ≤ F.reads flash.old + 1 }
    ensures frame { OnlyReads F.image F.lent F.reads F.faults flash.old flash.new result }
{
    let Some(log) = log else {
        return Ok(0);
    };
    let mut table = [0; 60];
    read_table(flash, log.0, &mut table)?;
    Ok(records_used(&table) as u8)
}

/// Rule 13: the first page of the first file of the table that has too many pages.
pub(crate) fn first_oversized(table: &[FileAt]) -> Option<PageId>
    ensures { (image : List ℕ) (files : List Placed) → table.now ≡ map (entry_of image) files
        → result ≡ option_map page_id (first_failing (has_few_pages image) files) }
{
    for file in table {
        if !has_few_pages(file) {
            return Some(file.page);
        }
    }
    None
}

/// Whether a doubling file has at most twice the pages that its size needs; a fixed one always.
pub fn has_few_pages(file: &FileAt) -> bool
    ensures { result ≡ has_few file.now }
{
    match file.kind {
        Kind::Fixed(_) => true,
        Kind::Doubling => has_few_for(file.pages, file.size),
    }
}

// Whether a doubling file has at most twice the pages that its size needs. No doubling extent holds
// more than 8,388,576 bytes.
fn has_few_for(pages: u16, size: u32) -> bool
    ensures { result ≡ nat_le pages (2 * fit size) }
{
    if size > 8388576 {
        return true;
    }
    u32::from(pages) <= 2 * u32::from(fit(size))
}
