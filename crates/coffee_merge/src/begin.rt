ghost use Rattle.std.specs.Prelude.{◌≡◌, ◌≢◌, ◌+◌, ◌*◌, ◌≤◌, ℕ, true, None, length, IsErrOf, IsTrue, IfOk, OnErr, OnOk};
ghost use Rattle.afl_base.specs.Keeping.{ChangesFlashOrLacks, Programs};
ghost use Rattle.afl_base.specs.Cuts.{IsCutProgram};
ghost use Rattle.afl_base.specs.FileErrors.{OnSpace};
ghost use Rattle.afl_base.specs.Image.{or_at, page_bytes};
ghost use Rattle.afl_base.specs.Names.{is_file_name};
ghost use Rattle.coffee_header.specs.Headers.{header_bytes, is_flags, is_kind};
ghost use Rattle.coffee_layout.specs.Units.{pages_of};
ghost use Rattle.coffee_merge.specs.Holding.{Entries, HoldsTable, draft_header, extent_of, has_shape};
ghost use Rattle.coffee_merge.specs.Outcomes.{BeginsFile, IsObtained, LeavesAll};
ghost use Rattle.coffee_merge.specs.Torn.{BreaksOff};

use afl_base::{Failed, FileError, Flash, Kind, Name, PageId};
use coffee_header::{Header, write_header};
use coffee_space::obtain;

/// Begins an extent of `pages` pages under construction, in the lowest run of free pages, after a
/// collection where there is none. `Space` comes exactly where the image is then cramped, and leaves
/// all files. All other free pages stay free.
pub fn begin_extent<F: Flash>(
    flash: &mut F,
    name: &Name,
    kind: Kind,
    pages: u16,
) -> Result<PageId, FileError>
    requires some { 1 ≤ pages }
    requires shape { has_shape kind pages ≡ true }
    ensures begun { IsTrue F.tells → IfOk result
        (λ page. (table : Entries) (size : ℕ) → HoldsTable (F.image flash.old) table None → size + 32 ≤ 256 * pages
        → BeginsFile (F.image flash.old) (F.image flash.new) table (extent_of name.now kind page.0 pages size)) }
    ensures left { IsTrue F.tells → OnSpace result
        (λ need. (table : Entries) → HoldsTable (F.image flash.old) table None
        → LeavesAll (F.image flash.old) (F.image flash.new) table need) }
    ensures need { OnSpace result (λ need. need ≡ pages) }
    ensures inside { IfOk result (λ page. page.0 + pages ≤ pages_of (F.image flash.new)) }
    ensures cut { IsTrue F.tells → IsTrue F.cuts → IsErrOf result FileError.Failed
        → (table : Entries) → HoldsTable (F.image flash.old) table None
        → BreaksOff (F.image flash.old) (F.image flash.new) table }
    ensures frame { ChangesFlashOrLacks F.image F.lent F.reads F.faults flash.old flash.new result }
{
    let page = obtain_pages(flash, pages)?;
    put_file_header(flash, page, name, kind, pages)?;
    Ok(page)
}

/// The lowest run of `pages` free pages, where all files are kept.
pub(crate) fn obtain_pages<F: Flash>(flash: &mut F, pages: u16) -> Result<PageId, FileError>
    requires some { 1 ≤ pages }
    ensures run { IsTrue F.tells → IfOk result
        (λ page. (table : Entries) → HoldsTable (F.image flash.old) table None
        → IsObtained (F.image flash.old) (F.image flash.new) table pages page.0) }
    ensures left { IsTrue F.tells → OnSpace result
        (λ need. (table : Entries) → HoldsTable (F.image flash.old) table None
        → LeavesAll (F.image flash.old) (F.image flash.new) table need) }
    ensures need { OnSpace result (λ need. need ≡ pages) }
    ensures inside { IfOk result (λ page. 256 * (page.0 + pages) ≤ length (F.image flash.new)) }
    ensures cut { IsTrue F.tells → IsTrue F.cuts → IsErrOf result FileError.Failed
        → (table : Entries) → HoldsTable (F.image flash.old) table None
        → BreaksOff (F.image flash.old) (F.image flash.new) table }
    ensures frame { ChangesFlashOrLacks F.image F.lent F.reads F.faults flash.old flash.new result }
{
    obtain(flash, pages)
}

// Writes the header of a file under construction into a free page.
fn put_file_header<F: Flash>(
    flash: &mut F,
    page: PageId,
    name: &Name,
    kind: Kind,
    pages: u16,
) -> Result<(), Failed>
    requires page { 256 * page.0 + 256 ≤ length (F.image flash.old) }
    ensures name { is_file_name name.now ≡ true }
    ensures written { IsTrue F.tells → OnOk result
        (F.image flash.new ≡ or_at (F.image flash.old) (256 * page.0) (header_bytes (draft_header (extent_of name.now kind page.0 pages 0)))) }
    ensures other_pages { IsTrue F.tells → (p : ℕ) → p ≢ page.0
        → page_bytes (F.image flash.new) p ≡ page_bytes (F.image flash.old) p }
    ensures cut { IsTrue F.tells → IsTrue F.cuts → OnErr result
        (IsCutProgram (F.image flash.old) (F.image flash.new) (256 * page.0) (header_bytes (draft_header (extent_of name.now kind page.0 pages 0)))) }
    ensures frame { Programs F.image F.lent F.reads F.faults flash.old flash.new result }
{
    let header = Header {
        log_page: 0,
        log_records: 30,
        log_record_size: 128,
        max_pages: pages,
        kind: match kind {
            Kind::Doubling => 0,
            Kind::Fixed(_) => 1,
        },
        flags: 2,
        name: *name,
    };
    put_header(flash, page, &header)
}

/// Writes the header of an extent into a free page.
pub(crate) fn put_header<F: Flash>(
    flash: &mut F,
    page: PageId,
    header: &Header,
) -> Result<(), Failed>
    requires page { 256 * page.0 + 256 ≤ length (F.image flash.old) }
    requires kind { is_kind header.now.kind ≡ true }
    requires flags { is_flags header.now.flags ≡ true }
    ensures name { is_file_name header.now.name ≡ true }
    ensures written { IsTrue F.tells → OnOk result
        (F.image flash.new ≡ or_at (F.image flash.old) (256 * page.0) (header_bytes header.now)) }
    ensures other_pages { IsTrue F.tells → (p : ℕ) → p ≢ page.0
        → page_bytes (F.image flash.new) p ≡ page_bytes (F.image flash.old) p }
    ensures cut { IsTrue F.tells → IsTrue F.cuts → OnErr result
        (IsCutProgram (F.image flash.old) (F.image flash.new) (256 * page.0) (header_bytes header.now)) }
    ensures frame { Programs F.image F.lent F.reads F.faults flash.old flash.new result }
{
    header.name.bytes();
    let mut bytes = [0; 32];
    write_header(header, &mut bytes);
    flash.program(page, 0, &bytes)
}
