ghost use Rattle.std.specs.Prelude.{◌≡◌, ◌≢◌, ℕ, ◌+◌, ◌-◌, ◌*◌, ◌/◌, ◌%◌, ◌≤◌, ◌<◌, min, true, false, length, slice_index, Option, None, Some, IsTrue, IfOk, OnErr, OnOk};
ghost use Rattle.afl_base.specs.Keeping.{ChangesFlash, OnlyReads, Programs};
ghost use Rattle.afl_base.specs.Image.{page_bytes};
ghost use Rattle.afl_base.specs.Regions.{regions};
ghost use Rattle.flash_range.specs.Range.{Outside, PageOutside};
ghost use Rattle.coffee_layout.specs.FileBytes.{file_byte, last_in, table_of};
ghost use Rattle.coffee_layout.specs.Units.{pages_of};
ghost use Rattle.coffee_layout.specs.Walks.{LogFits};
ghost use Rattle.coffee_log.specs.FileChanges.{FileBecomes, IsFile, IsUnlogged, one_if, records_for};
ghost use Rattle.coffee_log.specs.FileCuts.{IsFileCut, IsOverwriteCut};
ghost use Rattle.coffee_log.specs.Logs.{AddsRecords, IsLog};

use crate::records::log_put;
use afl_base::{Failed, Flash, PageId, get_u16, put_bytes};
use coffee_layout::{FileAt, last_record, read_table, region_place};
use flash_range::{program_range, read_range};

/// Fills `into` with the content of a file from byte `at` on, by the first page of its extent and that
/// of its log. At most 3 reads for each region of 128 bytes that the range touches.
pub fn read_file<F: Flash>(
    flash: &mut F,
    page: PageId,
    log: Option<PageId>,
    at: u32,
    into: &mut [u8],
) -> Result<(), Failed>
    requires placed { 256 * page.0 + 32 + at + length into.old ≤ length (F.image flash.old) }
    requires log { LogFits (pages_of (F.image flash.old)) log }
    ensures bytes { IsTrue F.tells → OnOk result
        ((k : ℕ)
        → k < length into.old → slice_index into.new k ≡ file_byte (F.image flash.old) page.0 log (at + k)) }
    ensures reads { F.reads flash.new ≤ F.reads flash.old + 3 * regions at (length into.old) }
    ensures frame { OnlyReads F.image F.lent F.reads F.faults flash.old flash.new result }
{
    flash.sectors();
    match log {
        None => read_plain(flash, page, at, into),
        Some(log) => read_logged(flash, page, log, at, into),
    }
}

// The same of a file that has no log: its content stands in one piece.
fn read_plain<F: Flash>(flash: &mut F, page: PageId, at: u32, into: &mut [u8]) -> Result<(), Failed>
    requires placed { 256 * page.0 + 32 + at + length into.old ≤ length (F.image flash.old) }
    ensures bytes { IsTrue F.tells → OnOk result
        ((k : ℕ)
        → k < length into.old → slice_index into.new k ≡ file_byte (F.image flash.old) page.0 None (at + k)) }
    ensures reads { F.reads flash.new ≤ F.reads flash.old + 2 * regions at (length into.old) }
    ensures frame { OnlyReads F.image F.lent F.reads F.faults flash.old flash.new result }
{
    flash.sectors();
    read_range(flash, 256 * u32::from(page.0) + 32 + at, into)?;
    Ok(())
}

// The same of a file that has a log, whose table is read once.
fn read_logged<F: Flash>(
    flash: &mut F,
    page: PageId,
    log: PageId,
    at: u32,
    into: &mut [u8],
) -> Result<(), Failed>
    requires placed { 256 * page.0 + 32 + at + length into.old ≤ length (F.image flash.old) }
    requires log { log.0 + 16 ≤ pages_of (F.image flash.old) }
    ensures bytes { IsTrue F.tells → OnOk result
        ((k : ℕ) → k < length into.old
        → slice_index into.new k ≡ file_byte (F.image flash.old) page.0 (Some log) (at + k)) }
    ensures reads { F.reads flash.new ≤ F.reads flash.old + 3 * regions at (length into.old) }
    ensures frame { OnlyReads F.image F.lent F.reads F.faults flash.old flash.new result }
{
    if into.is_empty() {
        return Ok(());
    }
    let mut table = [0; 60];
    read_table(flash, log.0, &mut table)?;
    read_by_table(flash, page, log, &table, at, into)?;
    Ok(())
}

// The same by the table of the log.
fn read_by_table<F: Flash>(
    flash: &mut F,
    page: PageId,
    log: PageId,
    table: &[u8; 60],
    at: u32,
    into: &mut [u8],
) -> Result<(), Failed>
    requires placed { 256 * page.0 + 32 + at + length into.old ≤ length (F.image flash.old) }
    requires log { log.0 + 16 ≤ pages_of (F.image flash.old) }
    ensures bytes { IsTrue F.tells → table.now ≡ table_of (F.image flash.old) log.0 → OnOk result
        ((k : ℕ) → k < length into.old
        → slice_index into.new k ≡ file_byte (F.image flash.old) page.0 (Some log) (at + k)) }
    ensures reads { F.reads flash.new ≤ F.reads flash.old + 2 * regions at (length into.old) }
    ensures frame { OnlyReads F.image F.lent F.reads F.faults flash.old flash.new result }
{
    flash.sectors();
    let mut done = 0;
    while done < into.len() {
        let from = at + done as u32;
        done += read_piece(flash, page, log, table, from, &mut into[done..])?;
    }
    Ok(())
}

// Fills a front part of `into`, which stands in one piece, and answers its length.
fn read_piece<F: Flash>(
    flash: &mut F,
    page: PageId,
    log: PageId,
    table: &[u8; 60],
    at: u32,
    into: &mut [u8],
) -> Result<usize, Failed>
    requires some { 1 ≤ length into.old }
    requires placed { 256 * page.0 + 32 + at + length into.old ≤ length (F.image flash.old) }
    requires log { log.0 + 16 ≤ pages_of (F.image flash.old) }
    ensures some { IfOk result (λ n. 1 ≤ n) }
    ensures within { IfOk result (λ n. n ≤ length into.old) }
    ensures whole { IfOk result (λ n. n < length into.old → (at + n) % 128 ≡ 0) }
    ensures bytes { IsTrue F.tells → table.now ≡ table_of (F.image flash.old) log.0 → IfOk result
        (λ n. (k : ℕ) → k < n
        → slice_index into.new k ≡ file_byte (F.image flash.old) page.0 (Some log) (at + k)) }
    ensures reads { F.reads flash.new ≤ F.reads flash.old + 2 * regions at (length into.old) }
    ensures read { IfOk result (λ n. F.reads flash.new ≤ F.reads flash.old + 2 * regions at n) }
    ensures frame { OnlyReads F.image F.lent F.reads F.faults flash.old flash.new result }
{
    flash.sectors();
    match last_record(table, at / 128) {
        None => {
            let n = plain_length(table, at, into.len());
            read_range(flash, 256 * u32::from(page.0) + 32 + at, &mut into[..n])?;
            Ok(n)
        }
        Some(i) => {
            let n = into.len().min((128 - at % 128) as usize);
            let record = 256 * u32::from(log.0) + 96 + 128 * i;
            read_range(flash, record + at % 128, &mut into[..n])?;
            Ok(n)
        }
    }
}

// How many of the `rest` bytes from byte `at` on, whose region has no record, come before the next
// region that has one.
fn plain_length(table: &[u8; 60], at: u32, rest: usize) -> usize
    requires plain { last_in table.now (at / 128) 30 ≡ None }
    requires some { 1 ≤ rest }
    requires range { at + rest ≤ 16773120 }
    ensures some { 1 ≤ result }
    ensures within { result ≤ rest }
    ensures whole { result < rest → (at + result) % 128 ≡ 0 }
    ensures plain { (p : ℕ) → at ≤ p → p < at + result → last_in table.now (p / 128) 30 ≡ None }
{
    let mut end = at + rest as u32;
    if end <= at - at % 128 + 128 {
        return rest;
    }
    for i in 0..30 {
        end = end_before(get_u16(table, 2 * i), at, end);
    }
    (end - at) as usize
}

// Where the region that a record's number names begins, if that is between two places, else the second
// one.
fn end_before(number: u16, at: u32, end: u32) -> u32
    requires order { at < end }
    ensures some { at < result }
    ensures within { result ≤ end }
    ensures whole { result < end → result % 128 ≡ 0 }
    ensures plain { (p : ℕ) → at / 128 < p / 128 → p < result → number ≢ p / 128 + 1 }
{
    if number == 0 {
        return end;
    }
    let front = 128 * (u32::from(number) - 1);
    if at < front && front < end {
        front
    } else {
        end
    }
}

// The same of a part of one region.
fn read_part<F: Flash>(
    flash: &mut F,
    page: PageId,
    log: Option<PageId>,
    at: u32,
    into: &mut [u8],
) -> Result<(), Failed>
    requires part { at % 128 + length into.old ≤ 128 }
    requires placed { 256 * page.0 + 32 + at + length into.old ≤ length (F.image flash.old) }
    requires log { LogFits (pages_of (F.image flash.old)) log }
    ensures bytes { IsTrue F.tells → OnOk result
        ((k : ℕ)
        → k < length into.old → slice_index into.new k ≡ file_byte (F.image flash.old) page.0 log (at + k)) }
    ensures reads { F.reads flash.new ≤ F.reads flash.old + 3 }
    ensures frame { OnlyReads F.image F.lent F.reads F.faults flash.old flash.new result }
{
    flash.sectors();
    let front = at % 128;
    let place = region_place(flash, page, log, at / 128, front + into.len() as u32)?;
    read_range(flash, place + front, into)?;
    Ok(())
}

/// Writes over content of a file with a log: one record more for each region that the range touches.
/// Answers the records then in use. The file has the bytes from byte `at` on, and all else stays. At most
/// 3 reads for each of these regions.
pub fn overwrite_file<F: Flash>(
    flash: &mut F,
    file: &FileAt,
    log: PageId,
    at: u32,
    bytes: &[u8],
) -> Result<u8, Failed>
    requires placed { file.now.page.0 + file.now.pages ≤ pages_of (F.image flash.old) }
    requires log { log.0 + 16 ≤ pages_of (F.image flash.old) }
    requires free { file.now.used + regions at (length bytes.now) ≤ 30 }
    requires region { at + length bytes.now ≤ 8388480 }
    requires fits { at + length bytes.now + 32 ≤ 256 * file.now.pages }
    ensures used { IfOk result (λ n. n ≡ file.now.used + regions at (length bytes.now)) }
    ensures becomes { IsTrue F.tells → IfOk result
        (λ n. (size : ℕ)
        → IsFile (F.image flash.old) file.now.page.0 file.now.pages (Some log) file.now.used size
        → at + length bytes.now ≤ size → size + 32 ≤ 256 * file.now.pages
        → FileBecomes (F.image flash.old) (F.image flash.new) file.now.page.0 file.now.pages (Some log)
        n size at bytes.now) }
    ensures adds { IsTrue F.tells → IfOk result (λ n. IsLog (F.image flash.old) log.0 file.now.used
        → AddsRecords (F.image flash.old) (F.image flash.new) log.0 file.now.used n (at / 128)
        (256 * file.now.pages - 32)) }
    ensures cut { IsTrue F.tells → IsTrue F.cuts → OnErr result
        ((size : ℕ) → IsFile (F.image flash.old) file.now.page.0 file.now.pages (Some log) file.now.used size
        → at + length bytes.now ≤ size → size + 32 ≤ 256 * file.now.pages
        → IsOverwriteCut (F.image flash.old) (F.image flash.new) file.now.page.0 file.now.pages (Some log)
        size at bytes.now) }
    ensures other_pages { IsTrue F.tells → (p : ℕ) → PageOutside (256 * log.0) 4096 p
        → page_bytes (F.image flash.new) p ≡ page_bytes (F.image flash.old) p }
    ensures reads { F.reads flash.new ≤ F.reads flash.old + 3 * regions at (length bytes.now) }
    ensures frame { ChangesFlash F.image F.lent F.reads F.faults flash.old flash.new result }
{
    flash.sectors();
    let mut records = file.used;
    let mut done = 0;
    while done < bytes.len() {
        let from = at + done as u32;
        let n = (bytes.len() - done).min((128 - from % 128) as usize);
        put_part(flash, file, log, records, from, &bytes[done..done + n])?;
        records += 1;
        done += n;
    }
    Ok(records)
}

/// Adds bytes to a file. Where the region of the first of them has a record in a log, its part goes into a
/// further record; all other bytes are programmed into the extent. Answers the records then in use. All
/// else stays. At most 4 reads.
pub fn append_file<F: Flash>(flash: &mut F, file: &FileAt, bytes: &[u8]) -> Result<u8, Failed>
    requires placed { file.now.page.0 + file.now.pages ≤ pages_of (F.image flash.old) }
    requires log { LogFits (pages_of (F.image flash.old)) file.now.log }
    requires free { (l : PageId) → file.now.log ≡ Some l → 1 ≤ length bytes.now → file.now.used < 30 }
    requires region { file.now.size + length bytes.now ≤ 8388480 }
    requires fits { file.now.size + length bytes.now + 32 ≤ 256 * file.now.pages }
    ensures used { IsTrue F.tells → IfOk result
        (λ n. n ≡ file.now.used + records_for (F.image flash.old) file.now.log file.now.size (length bytes.now)) }
    ensures few { IfOk result (λ n. n ≤ file.now.used + min (length bytes.now) 1) }
    ensures unlogged { file.now.log ≡ None → IfOk result (λ n. n ≡ file.now.used) }
    ensures becomes { IsTrue F.tells → IfOk result
        (λ n. IsFile (F.image flash.old) file.now.page.0 file.now.pages file.now.log file.now.used file.now.size
        → FileBecomes (F.image flash.old) (F.image flash.new) file.now.page.0 file.now.pages file.now.log n
        (file.now.size + length bytes.now) file.now.size bytes.now) }
    ensures adds { IsTrue F.tells → (l : PageId) → file.now.log ≡ Some l
        → IfOk result
        (λ n. IsFile (F.image flash.old) file.now.page.0 file.now.pages file.now.log file.now.used file.now.size
        → AddsRecords (F.image flash.old) (F.image flash.new) l.0 file.now.used n (file.now.size / 128)
        (256 * file.now.pages - 32)) }
    ensures cut { IsTrue F.tells → IsTrue F.cuts → OnErr result
        (IsFile (F.image flash.old) file.now.page.0 file.now.pages file.now.log file.now.used file.now.size
        → IsFileCut (F.image flash.old) (F.image flash.new) file.now.page.0 file.now.pages file.now.log
        file.now.size file.now.size bytes.now) }
    ensures reads { F.reads flash.new ≤ F.reads flash.old + 4 }
    ensures frame { ChangesFlash F.image F.lent F.reads F.faults flash.old flash.new result }
{
    match file.log {
        None => {
            append_plain(flash, file.page, file.size, bytes)?;
            Ok(file.used)
        }
        Some(log) => append_logged(flash, file, log, bytes),
    }
}

// The same of a file with a log.
fn append_logged<F: Flash>(
    flash: &mut F,
    file: &FileAt,
    log: PageId,
    bytes: &[u8],
) -> Result<u8, Failed>
    requires placed { file.now.page.0 + file.now.pages ≤ pages_of (F.image flash.old) }
    requires log { log.0 + 16 ≤ pages_of (F.image flash.old) }
    requires free { 1 ≤ length bytes.now → file.now.used < 30 }
    requires region { file.now.size + length bytes.now ≤ 8388480 }
    requires fits { file.now.size + length bytes.now + 32 ≤ 256 * file.now.pages }
    ensures used { IsTrue F.tells → IfOk result
        (λ n. n ≡ file.now.used + records_for (F.image flash.old) (Some log) file.now.size (length bytes.now)) }
    ensures few { IfOk result (λ n. n ≤ file.now.used + min (length bytes.now) 1) }
    ensures becomes { IsTrue F.tells → IfOk result
        (λ n. IsFile (F.image flash.old) file.now.page.0 file.now.pages (Some log) file.now.used file.now.size
        → FileBecomes (F.image flash.old) (F.image flash.new) file.now.page.0 file.now.pages (Some log) n
        (file.now.size + length bytes.now) file.now.size bytes.now) }
    ensures adds { IsTrue F.tells → IfOk result
        (λ n. IsFile (F.image flash.old) file.now.page.0 file.now.pages (Some log) file.now.used file.now.size
        → AddsRecords (F.image flash.old) (F.image flash.new) log.0 file.now.used n (file.now.size / 128)
        (256 * file.now.pages - 32)) }
    ensures cut { IsTrue F.tells → IsTrue F.cuts → OnErr result
        (IsFile (F.image flash.old) file.now.page.0 file.now.pages (Some log) file.now.used file.now.size
        → IsFileCut (F.image flash.old) (F.image flash.new) file.now.page.0 file.now.pages (Some log)
        file.now.size file.now.size bytes.now) }
    ensures reads { F.reads flash.new ≤ F.reads flash.old + 4 }
    ensures frame { ChangesFlash F.image F.lent F.reads F.faults flash.old flash.new result }
{
    if bytes.is_empty() {
        return Ok(file.used);
    }
    if !is_logged(flash, log, file.size / 128)? {
        append_plain(flash, file.page, file.size, bytes)?;
        return Ok(file.used);
    }
    let n = bytes.len().min((128 - file.size % 128) as usize);
    put_part(flash, file, log, file.used, file.size, &bytes[..n])?;
    append_plain(flash, file.page, file.size + n as u32, &bytes[n..])?;
    Ok(file.used + 1)
}

// Whether the log has a record of a region.
fn is_logged<F: Flash>(flash: &mut F, log: PageId, region: u32) -> Result<bool, Failed>
    requires log { log.0 + 16 ≤ pages_of (F.image flash.old) }
    requires region { region < 16777216 }
    ensures plain { IsTrue F.tells → IfOk result
        (λ b. b ≡ false → last_in (table_of (F.image flash.old) log.0) region 30 ≡ None) }
    ensures logged { IsTrue F.tells → IfOk result
        (λ b. b ≡ true → one_if (last_in (table_of (F.image flash.old) log.0) region 30) ≡ 1) }
    ensures reads { F.reads flash.new ≤ F.reads flash.old + 1 }
    ensures frame { OnlyReads F.image F.lent F.reads F.faults flash.old flash.new result }
{
    let mut table = [0; 60];
    read_table(flash, log.0, &mut table)?;
    match last_record(&table, region) {
        None => Ok(false),
        Some(_) => Ok(true),
    }
}

// Programs bytes after the end of a file, where no record hides them.
fn append_plain<F: Flash>(flash: &mut F, page: PageId, at: u32, bytes: &[u8]) -> Result<(), Failed>
    requires placed { 256 * page.0 + 32 + at + length bytes.now ≤ length (F.image flash.old) }
    ensures becomes { IsTrue F.tells → OnOk result
        ((pages used : ℕ) (log : Option PageId)
        → IsFile (F.image flash.old) page.0 pages log used at
        → IsUnlogged (F.image flash.old) log at (length bytes.now)
        → at + length bytes.now + 32 ≤ 256 * pages → 256 * (page.0 + pages) ≤ length (F.image flash.old)
        → FileBecomes (F.image flash.old) (F.image flash.new) page.0 pages log used (at + length bytes.now) at bytes.now) }
    ensures others { IsTrue F.tells → OnOk result
        ((k : ℕ) → Outside (256 * page.0 + 32 + at) (length bytes.now) k
        → slice_index (F.image flash.new) k ≡ slice_index (F.image flash.old) k) }
    ensures cut { IsTrue F.tells → IsTrue F.cuts → OnErr result
        ((pages used : ℕ) (log : Option PageId)
        → IsFile (F.image flash.old) page.0 pages log used at
        → IsUnlogged (F.image flash.old) log at (length bytes.now)
        → at + length bytes.now + 32 ≤ 256 * pages → 256 * (page.0 + pages) ≤ length (F.image flash.old)
        → IsFileCut (F.image flash.old) (F.image flash.new) page.0 pages log at at bytes.now) }
    ensures stays { IsTrue F.tells → IsTrue F.cuts → OnErr result
        ((k : ℕ) → Outside (256 * page.0 + 32 + at) (length bytes.now) k
        → slice_index (F.image flash.new) k ≡ slice_index (F.image flash.old) k) }
    ensures frame { Programs F.image F.lent F.reads F.faults flash.old flash.new result }
{
    flash.sectors();
    program_range(flash, 256 * u32::from(page.0) + 32 + at, bytes)?;
    Ok(())
}

// The bytes of a file's extent.
fn extent_size(file: &FileAt) -> u32
    ensures { result ≡ 256 * file.now.pages }
{
    256 * u32::from(file.pages)
}

// Puts a part of one region into the file by a record more of its log, which holds the whole region.
fn put_part<F: Flash>(
    flash: &mut F,
    file: &FileAt,
    log: PageId,
    used: u8,
    at: u32,
    bytes: &[u8],
) -> Result<(), Failed>
    requires placed { file.now.page.0 + file.now.pages ≤ pages_of (F.image flash.old) }
    requires log { log.0 + 16 ≤ pages_of (F.image flash.old) }
    requires free { used < 30 }
    requires region { at < 8388480 }
    requires some { 1 ≤ length bytes.now }
    requires part { at % 128 + length bytes.now ≤ 128 }
    requires fits { at + length bytes.now + 32 ≤ 256 * file.now.pages }
    ensures becomes { IsTrue F.tells → OnOk result
        ((size total : ℕ) → IsFile (F.image flash.old) file.now.page.0 file.now.pages (Some log) used size
        → size ≤ total → at + length bytes.now ≤ total → total + 32 ≤ 256 * file.now.pages
        → FileBecomes (F.image flash.old) (F.image flash.new) file.now.page.0 file.now.pages (Some log)
        (used + 1) total at bytes.now) }
    ensures adds { IsTrue F.tells → OnOk result (IsLog (F.image flash.old) log.0 used
        → AddsRecords (F.image flash.old) (F.image flash.new) log.0 used (used + 1) (at / 128)
        (256 * file.now.pages - 32)) }
    ensures cut { IsTrue F.tells → IsTrue F.cuts → OnErr result
        ((size : ℕ) → IsFile (F.image flash.old) file.now.page.0 file.now.pages (Some log) used size
        → at ≤ size → 128 * (at / 128) < size → size + 32 ≤ 256 * file.now.pages
        → IsOverwriteCut (F.image flash.old) (F.image flash.new) file.now.page.0 file.now.pages (Some log)
        size at bytes.now) }
    ensures other_pages { IsTrue F.tells → (p : ℕ) → PageOutside (256 * log.0) 4096 p
        → page_bytes (F.image flash.new) p ≡ page_bytes (F.image flash.old) p }
    ensures reads { F.reads flash.new ≤ F.reads flash.old + 3 }
    ensures frame { ChangesFlash F.image F.lent F.reads F.faults flash.old flash.new result }
{
    let region = at / 128;
    // The last region of an extent has 96 bytes of content. What its record holds after them is zero.
    let len = (extent_size(file) - 32 - 128 * region).min(128);
    let mut buffer = [0; 128];
    load_front(flash, file.page, log, 128 * region, len, &mut buffer)?;
    put_bytes(&mut buffer, (at % 128) as usize, bytes);
    log_put(flash, log, used, region as u16, &buffer)?;
    Ok(())
}

// Fills the first `len` bytes of a buffer with the content from the front of a region on.
fn load_front<F: Flash>(
    flash: &mut F,
    page: PageId,
    log: PageId,
    at: u32,
    len: u32,
    buffer: &mut [u8; 128],
) -> Result<(), Failed>
    requires front { at % 128 ≡ 0 }
    requires len { len ≤ 128 }
    requires placed { 256 * page.0 + 32 + at + len ≤ length (F.image flash.old) }
    requires log { log.0 + 16 ≤ pages_of (F.image flash.old) }
    ensures bytes { IsTrue F.tells → OnOk result
        ((k : ℕ)
        → k < len → slice_index buffer.new k ≡ file_byte (F.image flash.old) page.0 (Some log) (at + k)) }
    ensures behind { (k : ℕ) → len ≤ k → slice_index buffer.new k ≡ slice_index buffer.old k }
    ensures reads { F.reads flash.new ≤ F.reads flash.old + 3 }
    ensures frame { OnlyReads F.image F.lent F.reads F.faults flash.old flash.new result }
{
    read_part(flash, page, Some(log), at, &mut buffer[..len as usize])?;
    Ok(())
}
