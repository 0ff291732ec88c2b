ghost use Rattle.std.specs.Prelude.{◌≡◌, ◌+◌, ◌*◌, ◌≤◌, ◌<◌, ℕ, None, Some, length, true, IsErrOf, IsTrue, IfOk, OnErr, OnOk};
ghost use Rattle.afl_base.specs.Cuts.{IsCutProgram};
ghost use Rattle.afl_base.specs.FileErrors.{OnSpace};
ghost use Rattle.afl_base.specs.Image.{or_at, zeros_at};
ghost use Rattle.afl_base.specs.Keeping.{ChangesFlash, ChangesFlashOrLacks, Programs};
ghost use Rattle.afl_base.specs.Names.{is_file_name};
ghost use Rattle.coffee_header.specs.Headers.{header_bytes};
ghost use Rattle.coffee_layout.specs.Files.{FitsIn};
ghost use Rattle.coffee_layout.specs.Units.{pages_of};
ghost use Rattle.coffee_layout.specs.declared.file.FileAt.{FileAt as FileEntry};
ghost use Rattle.coffee_merge.specs.CutMarks.{KeepsHead};
ghost use Rattle.coffee_merge.specs.Holding.{BeginsExtent, Copies, Entries, draft_header, extent_of, has_shape};
ghost use Rattle.coffee_merge.specs.Takes.{KeepsPagesBut};
ghost use Rattle.coffee_mend.specs.Joined.{HidesRecord, IsEmptyDraft, IsPartCopied, LeavesTable};
ghost use Rattle.coffee_mend.specs.Mended.{MendsLike};

use afl_base::{Failed, FileError, Flash, Kind, PageId};
use coffee_header::{Header, write_header};
use coffee_layout::FileAt;
use coffee_log::read_file;
use coffee_space::obtain;
use flash_range::program_range;

// What is said of an image here is said of it with zeros in the place of a torn record, wherever that is:
// no call here reads or writes those bytes.

/// Begins an extent for a file in the lowest run of as many free pages.
pub(crate) fn begin_draft<F: Flash>(flash: &mut F, file: &FileAt) -> Result<PageId, FileError>
    requires some { 1 ≤ file.now.pages }
    requires shape { has_shape file.now.kind file.now.pages ≡ true }
    requires size { file.now.size + 32 ≤ 256 * file.now.pages }
    ensures begun { IsTrue F.tells → IfOk result
        (λ page. (table : Entries) (i place : ℕ) → HidesRecord (F.image flash.old) table None i file.now place
        → BeginsExtent (zeros_at (F.image flash.old) place 128) (zeros_at (F.image flash.new) place 128) table
        (extent_of file.now.name file.now.kind page.0 file.now.pages file.now.size)) }
    ensures left { IsTrue F.tells → OnSpace result
        (λ need. (table : Entries) (i place : ℕ) → HidesRecord (F.image flash.old) table None i file.now place
        → LeavesTable (zeros_at (F.image flash.old) place 128) (zeros_at (F.image flash.new) place 128) table need) }
    ensures need { OnSpace result (λ need. need ≡ file.now.pages) }
    ensures inside { IfOk result (λ page. page.0 + file.now.pages ≤ pages_of (F.image flash.new)) }
    ensures cut { IsTrue F.tells → IsTrue F.cuts → IsErrOf result FileError.Failed
        → (table : Entries) (i place : ℕ) → HidesRecord (F.image flash.old) table None i file.now place
        → MendsLike (zeros_at (F.image flash.old) place 128) (F.image flash.new) }
    ensures frame { ChangesFlashOrLacks F.image F.lent F.reads F.faults flash.old flash.new result }
{
    flash.sectors();
    let page = obtain(flash, file.pages)?;
    put_draft(flash, page, file)?;
    Ok(page)
}

// Writes the header of an extent under construction for a file into a free page.
fn put_draft<F: Flash>(flash: &mut F, page: PageId, file: &FileAt) -> Result<(), Failed>
    requires page { 256 * page.0 + 256 ≤ length (F.image flash.old) }
    ensures name { is_file_name file.now.name ≡ true }
    ensures written { IsTrue F.tells → OnOk result (F.image flash.new ≡ or_at (F.image flash.old) (256 * page.0)
        (header_bytes (draft_header (extent_of file.now.name file.now.kind page.0 file.now.pages 0)))) }
    ensures cut { IsTrue F.tells → IsTrue F.cuts → OnErr result
        (IsCutProgram (F.image flash.old) (F.image flash.new) (256 * page.0)
        (header_bytes (draft_header (extent_of file.now.name file.now.kind page.0 file.now.pages 0)))) }
    ensures frame { Programs F.image F.lent F.reads F.faults flash.old flash.new result }
{
    let header = Header {
        log_page: 0,
        log_records: 30,
        log_record_size: 128,
        max_pages: file.pages,
        kind: match file.kind {
            Kind::Doubling => 0,
            Kind::Fixed(_) => 1,
        },
        flags: 2,
        name: file.name,
    };
    header.name.bytes();
    let mut bytes = [0; 32];
    write_header(&header, &mut bytes);
    flash.program(page, 0, &bytes)
}

/// Copies the content of a file, its log taken into account, into the extent under construction at
/// `page`, which has no byte but 0.
pub(crate) fn copy_content<F: Flash>(
    flash: &mut F,
    from: &FileAt,
    page: PageId,
) -> Result<(), Failed>
    requires from { FitsIn (pages_of (F.image flash.old)) from.now }
    requires placed { page.0 + from.now.pages ≤ pages_of (F.image flash.old) }
    ensures copied { IsTrue F.tells → OnOk result
        ((table : Entries) (d : FileEntry) (i place : ℕ) → HidesRecord (F.image flash.old) table (Some d) i from.now place
        → IsEmptyDraft (zeros_at (F.image flash.old) place 128) d page from.now
        → Copies (zeros_at (F.image flash.old) place 128) (zeros_at (F.image flash.new) place 128) table d from.now from.now.size) }
    ensures other_pages { IsTrue F.tells
        → KeepsPagesBut (F.image flash.old) (F.image flash.new) page.0 from.now.pages None }
    ensures head { IsTrue F.tells → IsTrue F.cuts → KeepsHead (F.image flash.old) (F.image flash.new) page.0 }
    ensures frame { ChangesFlash F.image F.lent F.reads F.faults flash.old flash.new result }
{
    flash.sectors();
    let mut done = 0;
    while done < from.size {
        // Content begins at byte 32 of the first page, so that each page is programmed once.
        let n = (from.size - done).min(1024 - (done + 32) % 1024);
        copy_part(flash, from, page, done, n)?;
        done += n;
    }
    Ok(())
}

// The same of at most 1,024 bytes, from byte `at` on: the bytes of the file are programmed at their place.
fn copy_part<F: Flash>(
    flash: &mut F,
    from: &FileAt,
    page: PageId,
    at: u32,
    n: u32,
) -> Result<(), Failed>
    requires few { n ≤ 1024 }
    requires range { at + n ≤ from.now.size }
    requires from { FitsIn (pages_of (F.image flash.old)) from.now }
    requires placed { page.0 + from.now.pages ≤ pages_of (F.image flash.old) }
    ensures copied { IsTrue F.tells → OnOk result
        (IsPartCopied (F.image flash.old) (F.image flash.new) from.now page.0 at n) }
    ensures other_pages { IsTrue F.tells
        → KeepsPagesBut (F.image flash.old) (F.image flash.new) page.0 from.now.pages None }
    ensures head { IsTrue F.tells → IsTrue F.cuts → KeepsHead (F.image flash.old) (F.image flash.new) page.0 }
    ensures frame { ChangesFlash F.image F.lent F.reads F.faults flash.old flash.new result }
{
    let mut buffer = [0; 1024];
    let part = &mut buffer[..n as usize];
    read_file(flash, from.page, from.log, at, part)?;
    flash.sectors();
    program_range(flash, 256 * u32::from(page.0) + 32 + at, part)
}
