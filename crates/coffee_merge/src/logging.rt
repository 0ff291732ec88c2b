ghost use Rattle.std.specs.Prelude.{◌≡◌, ◌≢◌, ◌+◌, ◌*◌, ◌≤◌, ◌<◌, ℕ, true, None, length, IsErrOf, IsTrue, IfOk, OnErr, OnOk};
ghost use Rattle.afl_base.specs.Keeping.{ChangesFlashOrLacks, Programs};
ghost use Rattle.afl_base.specs.Cuts.{IsCutProgram};
ghost use Rattle.afl_base.specs.Fields.{u16_bytes};
ghost use Rattle.afl_base.specs.FileErrors.{OnSpace};
ghost use Rattle.afl_base.specs.Image.{or_at, page_bytes};
ghost use Rattle.afl_base.specs.Names.{is_file_name};
ghost use Rattle.coffee_header.specs.Headers.{header_bytes};
ghost use Rattle.coffee_layout.specs.Files.{FitsIn};
ghost use Rattle.coffee_layout.specs.Units.{pages_of};
ghost use Rattle.coffee_merge.specs.CutMarks.{IsCutNaming};
ghost use Rattle.coffee_merge.specs.Flags.{flagged};
ghost use Rattle.coffee_merge.specs.Holding.{Entries, HoldsTable, IsIn, log_header};
ghost use Rattle.coffee_merge.specs.Outcomes.{LeavesAll, LogsFile};
ghost use Rattle.coffee_merge.specs.Torn.{BreaksOff};

use crate::begin::{obtain_pages, put_header};
use afl_base::{Failed, FileError, Flash, Name, PageId, put_u16};
use coffee_header::Header;
use coffee_layout::FileAt;

/// Makes an empty log, in the lowest run of 16 free pages, for a file that has none. `Space` comes
/// exactly where the image is then cramped, and leaves all files. All other free pages stay
/// free.
pub fn add_log<F: Flash>(flash: &mut F, file: &FileAt) -> Result<PageId, FileError>
    requires fits { FitsIn (pages_of (F.image flash.old)) file.now }
    ensures logged { IsTrue F.tells → IfOk result
        (λ log. (table : Entries) (i : ℕ) → HoldsTable (F.image flash.old) table None
        → IsIn table i file.now → file.now.log ≡ None
        → LogsFile (F.image flash.old) (F.image flash.new) table i file.now log) }
    ensures left { IsTrue F.tells → OnSpace result
        (λ need. (table : Entries) → HoldsTable (F.image flash.old) table None
        → LeavesAll (F.image flash.old) (F.image flash.new) table need) }
    ensures need { OnSpace result (λ need. need ≡ 16) }
    ensures inside { IfOk result (λ log. log.0 + 16 ≤ pages_of (F.image flash.new)) }
    ensures cut { IsTrue F.tells → IsTrue F.cuts → IsErrOf result FileError.Failed
        → (table : Entries) (i : ℕ) → HoldsTable (F.image flash.old) table None
        → IsIn table i file.now → file.now.log ≡ None
        → BreaksOff (F.image flash.old) (F.image flash.new) table }
    ensures frame { ChangesFlashOrLacks F.image F.lent F.reads F.faults flash.old flash.new result }
{
    flash.sectors();
    let log = obtain_pages(flash, 16)?;
    put_log_header(flash, log, &file.name)?;
    name_log(flash, file.page, log)?;
    Ok(log)
}

// Writes the header of a log into a free page.
fn put_log_header<F: Flash>(flash: &mut F, log: PageId, name: &Name) -> Result<(), Failed>
    requires page { 256 * log.0 + 256 ≤ length (F.image flash.old) }
    ensures name { is_file_name name.now ≡ true }
    ensures written { IsTrue F.tells → OnOk result
        (F.image flash.new ≡ or_at (F.image flash.old) (256 * log.0) (header_bytes (log_header name.now))) }
    ensures other_pages { IsTrue F.tells → (p : ℕ) → p ≢ log.0
        → page_bytes (F.image flash.new) p ≡ page_bytes (F.image flash.old) p }
    ensures cut { IsTrue F.tells → IsTrue F.cuts → OnErr result
        (IsCutProgram (F.image flash.old) (F.image flash.new) (256 * log.0) (header_bytes (log_header name.now))) }
    ensures frame { Programs F.image F.lent F.reads F.faults flash.old flash.new result }
{
    let header = Header {
        log_page: 0,
        log_records: 0,
        log_record_size: 0,
        max_pages: 16,
        kind: 1,
        flags: 19,
        name: *name,
    };
    put_header(flash, log, &header)
}

// Programs the page of a log, and MODIFIED, into the header of its file.
fn name_log<F: Flash>(flash: &mut F, page: PageId, log: PageId) -> Result<(), Failed>
    requires page { 256 * page.0 + 256 ≤ length (F.image flash.old) }
    requires log { log.0 < 65535 }
    ensures written { IsTrue F.tells → OnOk result
        (F.image flash.new ≡ flagged (or_at (F.image flash.old) (256 * page.0) (u16_bytes (log.0 + 1))) page.0 8) }
    ensures other_pages { IsTrue F.tells → (p : ℕ) → p ≢ page.0
        → page_bytes (F.image flash.new) p ≡ page_bytes (F.image flash.old) p }
    ensures cut { IsTrue F.tells → IsTrue F.cuts → OnErr result
        (IsCutNaming (F.image flash.old) (F.image flash.new) page.0 log.0) }
    ensures frame { Programs F.image F.lent F.reads F.faults flash.old flash.new result }
{
    let mut number = [0; 2];
    put_u16(&mut number, 0, log.0 + 1);
    flash.program(page, 0, &number)?;
    flash.program(page, 9, &[8])?;
    Ok(())
}
