ghost use Rattle.std.specs.Prelude.{◌≡◌, ℕ, ◌+◌, ◌*◌, ◌≤◌, ◌<◌, IsTrue, IfOk, OnErr, OnOk};
ghost use Rattle.afl_base.specs.Keeping.{OnlyReads, Programs};
ghost use Rattle.afl_base.specs.Image.{page_bytes};
ghost use Rattle.flash_range.specs.Range.{PageOutside};
ghost use Rattle.coffee_layout.specs.FileBytes.{last_in, table_of, used_in};
ghost use Rattle.coffee_layout.specs.Units.{pages_of};
ghost use Rattle.coffee_log.specs.Logs.{IsCutRecord, IsLog, PutsRecord};

use afl_base::{Failed, Flash, PageId, put_u16};
use coffee_layout::{last_record, read_table, records_used};
use flash_range::program_range;

/// The last record of a region, 0 to 29: None exactly where the log at `log` has none of it. One read.
pub fn log_region<F: Flash>(flash: &mut F, log: PageId, region: u16) -> Result<Option<u8>, Failed>
    requires log { log.0 + 16 ≤ pages_of (F.image flash.old) }
    ensures last { IsTrue F.tells → IfOk result
        (λ r. r ≡ last_in (table_of (F.image flash.old) log.0) region 30) }
    ensures reads { F.reads flash.new ≤ F.reads flash.old + 1 }
    ensures frame { OnlyReads F.image F.lent F.reads F.faults flash.old flash.new result }
{
    let mut table = [0; 60];
    read_table(flash, log.0, &mut table)?;
    match last_record(&table, u32::from(region)) {
        None => Ok(None),
        Some(i) => Ok(Some(i as u8)),
    }
}

/// The number of records of the log at `log` that are in use, 0 to 30. One read.
pub fn log_used<F: Flash>(flash: &mut F, log: PageId) -> Result<u8, Failed>
    requires log { log.0 + 16 ≤ pages_of (F.image flash.old) }
    ensures used { IsTrue F.tells → IfOk result (λ n. n ≡ used_in (table_of (F.image flash.old) log.0)) }
    ensures few { IfOk result (λ n. n ≤ 30) }
    ensures reads { F.reads flash.new ≤ F.reads flash.old + 1 }
    ensures frame { OnlyReads F.image F.lent F.reads F.faults flash.old flash.new result }
{
    let mut table = [0; 60];
    read_table(flash, log.0, &mut table)?;
    Ok(records_used(&table) as u8)
}

/// Adds a record to a log that has `used` records in use: the next one is the region's and holds
/// `bytes`. All other records, and all else, stay. After `Failed` the pages of the log may hold
/// anything, and all other pages stay.
pub fn log_put<F: Flash>(
    flash: &mut F,
    log: PageId,
    used: u8,
    region: u16,
    bytes: &[u8; 128],
) -> Result<(), Failed>
    requires log { log.0 + 16 ≤ pages_of (F.image flash.old) }
    requires free { used < 30 }
    requires region { region < 65535 }
    ensures put { IsTrue F.tells → OnOk result
        (IsLog (F.image flash.old) log.0 used
        → PutsRecord (F.image flash.old) (F.image flash.new) log.0 used region bytes.now) }
    ensures cut { IsTrue F.tells → IsTrue F.cuts → OnErr result
        (IsLog (F.image flash.old) log.0 used
        → IsCutRecord (F.image flash.old) (F.image flash.new) log used region bytes.now) }
    ensures other_pages { IsTrue F.tells → (p : ℕ) → PageOutside (256 * log.0) 4096 p
        → page_bytes (F.image flash.new) p ≡ page_bytes (F.image flash.old) p }
    ensures frame { Programs F.image F.lent F.reads F.faults flash.old flash.new result }
{
    let front = 256 * u32::from(log.0);
    let mut number = [0; 2];
    put_u16(&mut number, 0, region + 1);
    program_range(flash, front + 96 + 128 * u32::from(used), bytes)?;
    program_range(flash, front + 32 + 2 * u32::from(used), &number)?;
    Ok(())
}
