ghost use Rattle.std.specs.Prelude.{◌≡◌, ◌+◌, ◌*◌, ◌≤◌, ◌<◌, ℕ, None, Some, length, IsTrue, OnOk};
ghost use Rattle.afl_base.specs.Keeping.{ChangesFlash, Programs};
ghost use Rattle.coffee_layout.specs.FileBytes.{file_byte};
ghost use Rattle.coffee_layout.specs.Files.{FitsIn};
ghost use Rattle.coffee_layout.specs.Units.{pages_of};
ghost use Rattle.coffee_layout.specs.declared.file.FileAt.{FileAt};
ghost use Rattle.coffee_merge.specs.CutMarks.{KeepsHead};
ghost use Rattle.coffee_merge.specs.Holding.{CopiesPart, Entries, HoldsTable, IsIn, Writes};
ghost use Rattle.coffee_merge.specs.Outcomes.{CopiesFile};
ghost use Rattle.coffee_merge.specs.Takes.{KeepsFree, KeepsPagesBut};

use afl_base::{Failed, Flash, PageId};
use coffee_layout::FileAt;
use coffee_log::read_file;
use flash_range::program_range;

/// Writes `bytes` into the extent under construction at `page`, from content byte `at` on, where it has
/// zeros. All else stays.
pub fn write_extent<F: Flash>(
    flash: &mut F,
    page: PageId,
    pages: u16,
    at: u32,
    bytes: &[u8],
) -> Result<(), Failed>
    requires placed { page.0 + pages ≤ pages_of (F.image flash.old) }
    requires fits { at + length bytes.now + 32 ≤ 256 * pages }
    ensures written { IsTrue F.tells → OnOk result
        ((table : Entries) (d : FileAt) → HoldsTable (F.image flash.old) table (Some d) → d.page ≡ page
        → d.pages ≡ pages → at + length bytes.now ≤ d.size
        → ((k : ℕ) → k < length bytes.now → file_byte (F.image flash.old) page.0 None (at + k) ≡ 0)
        → Writes (F.image flash.old) (F.image flash.new) table d at bytes.now) }
    ensures free { IsTrue F.tells → OnOk result
        ((table : Entries) (d : FileAt) → HoldsTable (F.image flash.old) table (Some d) → d.page ≡ page
        → d.pages ≡ pages → KeepsFree (F.image flash.old) (F.image flash.new)) }
    ensures other_pages { IsTrue F.tells
        → KeepsPagesBut (F.image flash.old) (F.image flash.new) page.0 pages None }
    ensures head { IsTrue F.tells → IsTrue F.cuts → KeepsHead (F.image flash.old) (F.image flash.new) page.0 }
    ensures frame { Programs F.image F.lent F.reads F.faults flash.old flash.new result }
{
    flash.sectors();
    program_range(flash, 256 * u32::from(page.0) + 32 + at, bytes)
}

/// Copies the content of a file, its log taken into account, into the extent under construction at
/// `page`, which has no byte but 0. All else stays.
pub fn copy_file<F: Flash>(
    flash: &mut F,
    from: &FileAt,
    page: PageId,
    pages: u16,
) -> Result<(), Failed>
    requires from { FitsIn (pages_of (F.image flash.old)) from.now }
    requires placed { page.0 + pages ≤ pages_of (F.image flash.old) }
    requires fits { from.now.size + 32 ≤ 256 * pages }
    ensures copied { IsTrue F.tells → OnOk result
        ((table : Entries) (d : FileAt) (i : ℕ) → HoldsTable (F.image flash.old) table (Some d)
        → d.page ≡ page → d.pages ≡ pages → d.size ≡ from.now.size → IsIn table i from.now
        → ((p : ℕ) → p + 32 < 256 * pages → file_byte (F.image flash.old) page.0 None p ≡ 0)
        → CopiesFile (F.image flash.old) (F.image flash.new) table d from.now) }
    ensures other_pages { IsTrue F.tells
        → KeepsPagesBut (F.image flash.old) (F.image flash.new) page.0 pages None }
    ensures head { IsTrue F.tells → IsTrue F.cuts → KeepsHead (F.image flash.old) (F.image flash.new) page.0 }
    ensures frame { ChangesFlash F.image F.lent F.reads F.faults flash.old flash.new result }
{
    let mut done = 0;
    while done < from.size {
        // Content begins at byte 32 of the first page, so that each page is programmed once.
        let n = (from.size - done).min(1024 - (done + 32) % 1024);
        copy_part(flash, from, page, pages, done, n)?;
        done += n;
    }
    Ok(())
}

// The same of at most 1,024 bytes, from byte `at` on.
fn copy_part<F: Flash>(
    flash: &mut F,
    from: &FileAt,
    page: PageId,
    pages: u16,
    at: u32,
    n: u32,
) -> Result<(), Failed>
    requires few { n ≤ 1024 }
    requires range { at + n ≤ from.now.size }
    requires from { FitsIn (pages_of (F.image flash.old)) from.now }
    requires placed { page.0 + pages ≤ pages_of (F.image flash.old) }
    requires fits { from.now.size + 32 ≤ 256 * pages }
    ensures copied { IsTrue F.tells → OnOk result
        ((table : Entries) (d : FileAt) (i : ℕ) → HoldsTable (F.image flash.old) table (Some d)
        → d.page ≡ page → d.pages ≡ pages → d.size ≡ from.now.size → IsIn table i from.now
        → ((p : ℕ) → at ≤ p → p + 32 < 256 * pages → file_byte (F.image flash.old) page.0 None p ≡ 0)
        → CopiesPart (F.image flash.old) (F.image flash.new) table d from.now at n) }
    ensures free { IsTrue F.tells → OnOk result
        ((table : Entries) (d : FileAt) → HoldsTable (F.image flash.old) table (Some d) → d.page ≡ page
        → d.pages ≡ pages → KeepsFree (F.image flash.old) (F.image flash.new)) }
    ensures other_pages { IsTrue F.tells
        → KeepsPagesBut (F.image flash.old) (F.image flash.new) page.0 pages None }
    ensures head { IsTrue F.tells → IsTrue F.cuts → KeepsHead (F.image flash.old) (F.image flash.new) page.0 }
    ensures frame { ChangesFlash F.image F.lent F.reads F.faults flash.old flash.new result }
{
    let mut buffer = [0; 1024];
    let part = &mut buffer[..n as usize];
    read_file(flash, from.page, from.log, at, part)?;
    write_extent(flash, page, pages, at, part)
}
