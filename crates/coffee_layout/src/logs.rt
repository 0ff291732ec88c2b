ghost use Rattle.std.specs.Prelude.{◌≡◌, ◌+◌, ◌-◌, ◌*◌, ◌/◌, ◌%◌, ◌≤◌, ◌<◌, ◌==◌, ◌&&◌, ◌||◌, not, false, true, length, min, slice_range, IsTrue, IfOk, OnOk};
ghost use Rattle.afl_base.specs.Keeping.{OnlyReads};
ghost use Rattle.std.specs.List.{list_any};
ghost use Rattle.flash_range.specs.Range.{pages_touched};
ghost use Rattle.coffee_layout.specs.FileBytes.{table_of, used_in};
ghost use Rattle.coffee_layout.specs.Rules.{has_regions_inside, is_clear, is_front_filled, is_region_inside};
ghost use Rattle.padded.specs.Zeros.{is_zeros};
ghost use Rattle.coffee_layout.specs.Walks.{fits_entry, is_its_log};

use crate::file::FileAt;
use afl_base::{Failed, Flash, PageId, SECTOR_SIZE, get_u16};
use flash_range::read_range;
use padded::is_zeros;

// The bytes of a log's table: 30 numbers of two bytes.
pub(crate) const TABLE: usize = 60;

/// Rule 9: whether a file of the table names the log at `page`.
pub(crate) fn is_log_named(table: &[FileAt], page: u16) -> bool
    ensures { result ≡ list_any (λ f. is_its_log page f.log) table.now }
{
    table.iter().any(|f| is_its_log(f, page))
}

// Whether the log of a file is the one at `page`.
fn is_its_log(file: &FileAt, page: u16) -> bool
    ensures { result ≡ is_its_log page file.now.log }
{
    match file.log {
        Some(log) => log.0 == page,
        None => false,
    }
}

/// Rule 10, of the log at `page`.
pub(crate) fn is_front_filled<F: Flash>(flash: &mut F, page: u16) -> Result<bool, Failed>
    requires page { 256 * page + 256 ≤ length (F.image flash.old) }
    ensures filled { IsTrue F.tells → IfOk result
        (λ r. r ≡ is_front_filled (table_of (F.image flash.old) page)) }
    ensures reads { F.reads flash.new ≤ F.reads flash.old + 1 }
    ensures frame { OnlyReads F.image F.lent F.reads F.faults flash.old flash.new result }
{
    let mut table = [0; TABLE];
    read_table(flash, page, &mut table)?;
    Ok(is_table_filled(&table))
}

/// Reads the table of the log at `page`: 30 numbers of two bytes. One read.
pub fn read_table<F: Flash>(flash: &mut F, page: u16, table: &mut [u8; 60]) -> Result<(), Failed>
    requires page { 256 * page + 256 ≤ length (F.image flash.old) }
    ensures table { IsTrue F.tells → OnOk result (table.new ≡ table_of (F.image flash.old) page) }
    ensures reads { F.reads flash.new ≤ F.reads flash.old + 1 }
    ensures frame { OnlyReads F.image F.lent F.reads F.faults flash.old flash.new result }
{
    flash.read(PageId(page), 32, table)
}

#[tactic(auto, using(crate::proofs::Records::all_more, crate::proofs::Records::all_end, crate::proofs::Records::used_more, crate::proofs::Records::used_end))]
fn is_table_filled(table: &[u8]) -> bool
    requires { length table.now ≡ 60 }
    ensures { result ≡ is_front_filled table.now }
{
    let used = records_used(table);
    for i in used..30 {
        if get_u16(table, 2 * i) != 0 {
            return false;
        }
    }
    true
}

/// The number of records in use: this many numbers from the front are not 0.
#[tactic(auto, using(crate::proofs::Records::all_more, crate::proofs::Records::all_end, crate::proofs::Records::used_more, crate::proofs::Records::used_end))]
pub fn records_used(table: &[u8]) -> usize
    requires { length table.now ≡ 60 }
    ensures used { result ≡ used_in table.now }
    ensures few { result ≤ 30 }
{
    for i in 0..30 {
        if get_u16(table, 2 * i) == 0 {
            return i;
        }
    }
    30
}

/// Rule 11, of the log at `page` and the file of the table that names it.
pub(crate) fn fits_its_file<F: Flash>(
    flash: &mut F,
    files: &[FileAt],
    page: u16,
) -> Result<bool, Failed>
    requires page { 256 * page + 256 ≤ length (F.image flash.old) }
    ensures fits { IsTrue F.tells → IfOk result
        (λ r. r ≡ fits_entry page (table_of (F.image flash.old) page) files.now) }
    ensures reads { F.reads flash.new ≤ F.reads flash.old + 1 }
    ensures frame { OnlyReads F.image F.lent F.reads F.faults flash.old flash.new result }
{
    let mut table = [0; TABLE];
    read_table(flash, page, &mut table)?;
    for file in files {
        if is_its_log(file, page) {
            return Ok(has_regions_inside(&table, file.pages, file.size));
        }
    }
    Ok(true)
}

#[tactic(auto, using(crate::proofs::Records::all_more, crate::proofs::Records::all_end, crate::proofs::Records::used_more, crate::proofs::Records::used_end))]
fn has_regions_inside(table: &[u8], pages: u16, size: u32) -> bool
    requires { length table.now ≡ 60 }
    ensures { result ≡ has_regions_inside pages size table.now }
{
    for i in 0..30 {
        if !is_number_inside(get_u16(table, 2 * i), pages, size) {
            return false;
        }
    }
    true
}

// Whether a record is free, or its region lies inside the file.
fn is_number_inside(number: u16, pages: u16, size: u32) -> bool
    ensures { result ≡ number == 0 || is_region_inside pages size number }
{
    let number = u32::from(number);
    number == 0 || number <= 2 * u32::from(pages) && 128 * (number - 1) < size
}

/// Rule 12, of the log at `page`.
pub(crate) fn is_clear<F: Flash>(flash: &mut F, page: u16) -> Result<bool, Failed>
    requires page { 256 * page + 256 ≤ length (F.image flash.old) }
    ensures clear { IsTrue F.tells → IfOk result (λ r. r ≡ is_clear (F.image flash.old) page) }
    ensures reads { F.reads flash.new ≤ F.reads flash.old + 19 }
    ensures frame { OnlyReads F.image F.lent F.reads F.faults flash.old flash.new result }
{
    let mut table = [0; TABLE];
    read_table(flash, page, &mut table)?;
    let place = 256 * u32::from(page);
    let used = records_used(&table) as u32;
    if !range_is_zeros(flash, place + 92, place + 96)? {
        return Ok(false);
    }
    range_is_zeros(flash, place + 96 + 128 * used, place + SECTOR_SIZE as u32)
}

// Whether the bytes from one place up to another are zero, as far as the flash has them.
fn range_is_zeros<F: Flash>(flash: &mut F, from: u32, to: u32) -> Result<bool, Failed>
    ensures zeros { IsTrue F.tells → IfOk result
        (λ r. r ≡ is_zeros (slice_range (F.image flash.old) from to)) }
    ensures reads { F.reads flash.new ≤ F.reads flash.old + pages_touched from (to - from) }
    ensures frame { OnlyReads F.image F.lent F.reads F.faults flash.old flash.new result }
{
    let end = to.min(SECTOR_SIZE as u32 * u32::from(flash.sectors()));
    let mut at = from;
    while at < end {
        let n = (end - at).min(256 - at % 256);
        if !piece_is_zeros(flash, at, n)? {
            return Ok(false);
        }
        at += n;
    }
    Ok(true)
}

// The same of a piece of one page.
fn piece_is_zeros<F: Flash>(flash: &mut F, place: u32, n: u32) -> Result<bool, Failed>
    requires some { 1 ≤ n }
    requires page { place % 256 + n ≤ 256 }
    requires range { place + n ≤ length (F.image flash.old) }
    ensures zeros { IsTrue F.tells → IfOk result
        (λ r. r ≡ is_zeros (slice_range (F.image flash.old) place (place + n))) }
    ensures reads { F.reads flash.new ≤ F.reads flash.old + 1 }
    ensures frame { OnlyReads F.image F.lent F.reads F.faults flash.old flash.new result }
{
    let mut bytes = [0; 256];
    let piece = &mut bytes[..n as usize];
    read_range(flash, place, piece)?;
    Ok(is_zeros(piece))
}
