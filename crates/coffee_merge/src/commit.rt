ghost use Rattle.std.specs.Prelude.{◌≡◌, ◌≢◌, ◌⊎◌, ◌+◌, ◌-◌, ◌*◌, ◌≤◌, ◌<◌, ◌∷◌, [], ℕ, None, Some, get_or, length, IsTrue, OnErr, OnOk};
ghost use Rattle.afl_base.specs.Keeping.{Programs};
ghost use Rattle.afl_base.specs.Image.{or_at, page_bytes};
ghost use Rattle.coffee_layout.specs.FileBytes.{file_byte};
ghost use Rattle.coffee_layout.specs.Files.{FitsIn};
ghost use Rattle.coffee_layout.specs.Units.{pages_of};
ghost use Rattle.coffee_layout.specs.declared.file.FileAt.{FileAt};
ghost use Rattle.coffee_merge.specs.CutMarks.{IsCutObsolete, IsCutReplace, IsOneOf};
ghost use Rattle.coffee_merge.specs.Flags.{flagged, obsoleted};
ghost use Rattle.coffee_merge.specs.Holding.{CommitsExtent, Entries, HoldsTable, IsIn, IsNewName, Sets, TakesOnly};
ghost use Rattle.coffee_merge.specs.Takes.{KeepsFree};

use afl_base::{Failed, Flash, PageId};
use coffee_layout::FileAt;

/// Makes the extent under construction at `page` an active file: its last byte is not zero, and no file
/// has its name. It takes a free place of the table. All files have their content.
pub fn commit_extent<F: Flash>(flash: &mut F, page: PageId) -> Result<(), Failed>
    requires page { 256 * page.0 + 256 ≤ length (F.image flash.old) }
    ensures committed { IsTrue F.tells → OnOk result
        ((table : Entries) (d : FileAt) (i : ℕ) → HoldsTable (F.image flash.old) table (Some d)
        → d.page ≡ page → i < length table → get_or table i None ≡ None → IsNewName table d.name
        → (1 ≤ d.size → file_byte (F.image flash.old) page.0 None (d.size - 1) ≢ 0)
        → CommitsExtent (F.image flash.old) (F.image flash.new) table i d) }
    ensures free { IsTrue F.tells → OnOk result
        ((table : Entries) (d : FileAt) → HoldsTable (F.image flash.old) table (Some d) → d.page ≡ page
        → KeepsFree (F.image flash.old) (F.image flash.new)) }
    ensures other_pages { IsTrue F.tells → (p : ℕ) → p ≢ page.0
        → page_bytes (F.image flash.new) p ≡ page_bytes (F.image flash.old) p }
    ensures cut { IsTrue F.tells → IsTrue F.cuts → OnErr result
        (IsOneOf (F.image flash.new) (F.image flash.old) (flagged (F.image flash.old) page.0 1)) }
    ensures frame { Programs F.image F.lent F.reads F.faults flash.old flash.new result }
{
    flash.program(page, 9, &[1])
}

/// The same where a file has the name: the new extent takes its place in the table, and its extent and
/// its log are obsolete. The new one is active before the old one is not: after `Failed` the header of
/// the old extent is as it was, or that of the new extent is complete.
pub fn replace_file<F: Flash>(flash: &mut F, page: PageId, old: &FileAt) -> Result<(), Failed>
    requires page { 256 * page.0 + 256 ≤ length (F.image flash.old) }
    requires fits { FitsIn (pages_of (F.image flash.old)) old.now }
    ensures replaced { IsTrue F.tells → OnOk result
        ((table : Entries) (d : FileAt) (i : ℕ) → HoldsTable (F.image flash.old) table (Some d)
        → d.page ≡ page → IsIn table i old.now → old.now.name ≡ d.name
        → (1 ≤ d.size → file_byte (F.image flash.old) page.0 None (d.size - 1) ≢ 0)
        → CommitsExtent (F.image flash.old) (F.image flash.new) table i d) }
    ensures free { IsTrue F.tells → OnOk result
        ((table : Entries) (d : FileAt) (i : ℕ) → HoldsTable (F.image flash.old) table (Some d)
        → d.page ≡ page → IsIn table i old.now → KeepsFree (F.image flash.old) (F.image flash.new)) }
    ensures other_pages { IsTrue F.tells → (p : ℕ) → p ≢ page.0 → p ≢ old.now.page.0
        → ((l : PageId) → old.now.log ≡ Some l → p ≢ l.0)
        → page_bytes (F.image flash.new) p ≡ page_bytes (F.image flash.old) p }
    ensures survives { IsTrue F.tells → page.0 ≢ old.now.page.0
        → ((l : PageId) → old.now.log ≡ Some l → page.0 ≢ l.0)
        → (page_bytes (F.image flash.new) old.now.page.0 ≡ page_bytes (F.image flash.old) old.now.page.0)
        ⊎ (page_bytes (F.image flash.new) page.0 ≡ or_at (page_bytes (F.image flash.old) page.0) 9 (1 ∷ [])) }
    ensures cut { IsTrue F.tells → IsTrue F.cuts → OnErr result
        (IsCutReplace (F.image flash.old) (F.image flash.new) page.0 old.now.page.0 old.now.log) }
    ensures frame { Programs F.image F.lent F.reads F.faults flash.old flash.new result }
{
    flash.program(page, 9, &[1])?;
    mark_obsolete(flash, old)
}

/// Makes a file obsolete, with its log. All other files have their content.
pub fn retire_file<F: Flash>(flash: &mut F, file: &FileAt) -> Result<(), Failed>
    requires fits { FitsIn (pages_of (F.image flash.old)) file.now }
    ensures retired { IsTrue F.tells → OnOk result
        ((table : Entries) (i : ℕ) → HoldsTable (F.image flash.old) table None → IsIn table i file.now
        → Sets (F.image flash.old) (F.image flash.new) table i None) }
    ensures taken { IsTrue F.tells → OnOk result
        ((table : Entries) (i : ℕ) → HoldsTable (F.image flash.old) table None → IsIn table i file.now
        → TakesOnly (F.image flash.old) (F.image flash.new) 0 0) }
    ensures other_pages { IsTrue F.tells → (p : ℕ) → p ≢ file.now.page.0
        → ((l : PageId) → file.now.log ≡ Some l → p ≢ l.0)
        → page_bytes (F.image flash.new) p ≡ page_bytes (F.image flash.old) p }
    ensures cut { IsTrue F.tells → IsTrue F.cuts → OnErr result
        (IsCutObsolete (F.image flash.old) (F.image flash.new) file.now.page.0 file.now.log) }
    ensures frame { Programs F.image F.lent F.reads F.faults flash.old flash.new result }
{
    mark_obsolete(flash, file)
}

// Programs OBSOLETE into the headers of a file and of its log.
fn mark_obsolete<F: Flash>(flash: &mut F, file: &FileAt) -> Result<(), Failed>
    requires fits { FitsIn (pages_of (F.image flash.old)) file.now }
    ensures obsolete { IsTrue F.tells → OnOk result
        (F.image flash.new ≡ obsoleted (F.image flash.old) file.now.page.0 file.now.log) }
    ensures others { IsTrue F.tells → (q : ℕ) → q ≢ file.now.page.0
        → ((l : PageId) → file.now.log ≡ Some l → q ≢ l.0)
        → page_bytes (F.image flash.new) q ≡ page_bytes (F.image flash.old) q }
    ensures cut { IsTrue F.tells → IsTrue F.cuts → OnErr result
        (IsCutObsolete (F.image flash.old) (F.image flash.new) file.now.page.0 file.now.log) }
    ensures frame { Programs F.image F.lent F.reads F.faults flash.old flash.new result }
{
    flash.program(file.page, 9, &[4])?;
    match file.log {
        None => Ok(()),
        Some(log) => flash.program(log, 9, &[4]),
    }
}
