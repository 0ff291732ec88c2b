ghost use Rattle.std.specs.Prelude.{◌≡◌, ◌≢◌, ◌+◌, ◌-◌, ◌*◌, ◌/◌, ◌≤◌, ◌<◌, length, slice_index, Option, None, Some, IsTrue, IfOk, IfSome, ◌⊎◌};
ghost use Rattle.afl_base.specs.Keeping.{OnlyReads};
ghost use Rattle.coffee_layout.specs.FileBytes.{IsEnd, file_byte, last_in, place_or, region_place, table_of};
ghost use Rattle.coffee_layout.specs.Units.{pages_of};
ghost use Rattle.coffee_layout.specs.Walks.{LogFits};

use crate::logs::read_table;
use afl_base::{Failed, Flash, PageId, get_u16};
use flash_range::read_range;

/// The number of bytes of a file: up to and with its last content byte that is not zero, the log
/// taken into account. `pages` is the number of pages of its extent, whose first one is `page`.
/// At most 3 reads for each region of 128 bytes.
pub fn file_size<F: Flash>(
    flash: &mut F,
    page: PageId,
    pages: u16,
    log: Option<PageId>,
) -> Result<u32, Failed>
    requires some { 1 ≤ pages }
    requires placed { page.0 + pages ≤ pages_of (F.image flash.old) }
    requires log { LogFits (pages_of (F.image flash.old)) log }
    ensures size { IsTrue F.tells → IfOk result
        (λ n. IsEnd (file_byte (F.image flash.old) page.0 log) (256 * pages - 32) n) }
    ensures within { IfOk result (λ n. n + 32 ≤ 256 * pages) }
    ensures reads { F.reads flash.new ≤ F.reads flash.old + 6 * pages }
    ensures frame { OnlyReads F.image F.lent F.reads F.faults flash.old flash.new result }
{
    flash.sectors();
    let capacity = 256 * u32::from(pages) - 32;
    let mut region = 2 * u32::from(pages);
    while 0 < region {
        region -= 1;
        // The last region of an extent has 96 bytes, every other one 128.
        let len = (capacity - 128 * region).min(128);
        let end = region_end(flash, page, log, region, len)?;
        if 0 < end {
            return Ok(128 * region + end);
        }
    }
    Ok(0)
}

// The same of the first `len` bytes of one region.
fn region_end<F: Flash>(
    flash: &mut F,
    page: PageId,
    log: Option<PageId>,
    region: u32,
    len: u32,
) -> Result<u32, Failed>
    requires some { 1 ≤ len }
    requires few { len ≤ 128 }
    requires placed { 256 * page.0 + 32 + 128 * region + len ≤ length (F.image flash.old) }
    requires log { LogFits (pages_of (F.image flash.old)) log }
    ensures end { IsTrue F.tells → IfOk result
        (λ n. IsEnd (λ p. file_byte (F.image flash.old) page.0 log (128 * region + p)) len n) }
    ensures within { IfOk result (λ n. n ≤ len) }
    ensures reads { F.reads flash.new ≤ F.reads flash.old + 3 }
    ensures frame { OnlyReads F.image F.lent F.reads F.faults flash.old flash.new result }
{
    let place = region_place(flash, page, log, region, len)?;
    let mut bytes = [0; 128];
    let part = &mut bytes[..len as usize];
    read_range(flash, place, part)?;
    Ok(end_of(part) as u32)
}

// The place after the last byte that is not zero.
fn end_of(bytes: &[u8]) -> usize
    ensures { IsEnd (slice_index bytes.now) (length bytes.now) result }
{
    let mut n = bytes.len();
    while 0 < n {
        if bytes[n - 1] != 0 {
            return n;
        }
        n -= 1;
    }
    0
}

/// Where the bytes of a region stand: in the last record of the log that is the region's own, else
/// in the extent whose first page is `page`. At least `len` bytes, at most 128, lie there inside the
/// flash. At most one read.
pub fn region_place<F: Flash>(
    flash: &mut F,
    page: PageId,
    log: Option<PageId>,
    region: u32,
    len: u32,
) -> Result<u32, Failed>
    requires few { len ≤ 128 }
    requires placed { 256 * page.0 + 32 + 128 * region + len ≤ length (F.image flash.old) }
    requires log { LogFits (pages_of (F.image flash.old)) log }
    ensures place { IsTrue F.tells → IfOk result
        (λ p. p ≡ region_place (F.image flash.old) page.0 log region) }
    ensures inside { IfOk result (λ p. p + len ≤ length (F.image flash.old)) }
    ensures reads { F.reads flash.new ≤ F.reads flash.old + 1 }
    ensures frame { OnlyReads F.image F.lent F.reads F.faults flash.old flash.new result }
{
    flash.sectors();
    let direct = 256 * u32::from(page.0) + 32 + 128 * region;
    match log {
        None => Ok(direct),
        Some(log) => logged_place(flash, direct, log, region),
    }
}

fn logged_place<F: Flash>(
    flash: &mut F,
    direct: u32,
    log: PageId,
    region: u32,
) -> Result<u32, Failed>
    requires region { region < 16777216 }
    requires log { log.0 + 16 ≤ pages_of (F.image flash.old) }
    ensures place { IsTrue F.tells → IfOk result
        (λ p. p ≡ place_or direct log.0 (last_in (table_of (F.image flash.old) log.0) region 30)) }
    ensures inside { IfOk result (λ p. (p ≡ direct) ⊎ (p + 128 ≤ length (F.image flash.old))) }
    ensures reads { F.reads flash.new ≤ F.reads flash.old + 1 }
    ensures frame { OnlyReads F.image F.lent F.reads F.faults flash.old flash.new result }
{
    flash.sectors();
    let mut table = [0; 60];
    read_table(flash, log.0, &mut table)?;
    match last_record(&table, region) {
        None => Ok(direct),
        Some(i) => Ok(256 * u32::from(log.0) + 96 + 128 * i),
    }
}

/// The last record of a region, by the table of its log: None exactly where it has none.
#[tactic(auto, using(crate::proofs::Sizes::last_more, crate::proofs::Sizes::last_none))]
pub fn last_record(table: &[u8], region: u32) -> Option<u32>
    requires table { length table.now ≡ 60 }
    requires region { region < 16777216 }
    ensures last { result ≡ last_in table.now region 30 }
    ensures few { IfSome result (λ i. i < 30) }
{
    let mut n: usize = 30;
    while 0 < n {
        n -= 1;
        if u32::from(get_u16(table, 2 * n)) == region + 1 {
            return Some(n as u32);
        }
    }
    None
}
