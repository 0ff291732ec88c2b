ghost use Rattle.std.specs.Prelude.{◌≡◌, ◌+◌, ◌*◌, ◌≤◌, ℕ, None, true, IsErrOf, IsTrue, IfOk};
ghost use Rattle.afl_base.specs.FileErrors.{OnSpace};
ghost use Rattle.afl_base.specs.Keeping.{ChangesFlashOrLacks};
ghost use Rattle.coffee_layout.specs.Files.{FitsIn};
ghost use Rattle.coffee_layout.specs.Units.{pages_of};
ghost use Rattle.coffee_layout.specs.Walks.{has_few};
ghost use Rattle.coffee_merge.specs.Holding.{Entries, HoldsTable, IsIn, has_shape};
ghost use Rattle.coffee_merge.specs.Outcomes.{LeavesAll, MovesFile};
ghost use Rattle.coffee_merge.specs.Torn.{BreaksOff};

use crate::begin::begin_extent;
use crate::commit::replace_file;
use crate::copy::copy_file;
use afl_base::{FileError, Flash, Kind};
use coffee_layout::FileAt;

/// Puts a file and its log together in a new extent of as many pages, and answers its entry, which has
/// no log. The old extent and the old log are obsolete. All files keep their bytes. `Space` has as need
/// these pages: it comes only where the image is then cramped, and leaves all files. Either way the image
/// stands for the same files (`kept_files`), and a sound one stays sound (`held_image`).
pub fn merge<F: Flash>(flash: &mut F, file: &FileAt) -> Result<FileAt, FileError>
    requires fits { FitsIn (pages_of (F.image flash.old)) file.now }
    requires shape { has_shape file.now.kind file.now.pages ≡ true }
    ensures moved { IsTrue F.tells → IfOk result
        (λ to. (table : Entries) (i : ℕ) → HoldsTable (F.image flash.old) table None → IsIn table i file.now
        → MovesFile (F.image flash.old) (F.image flash.new) table i file.now to) }
    ensures entry { IfOk result (λ to. to ≡ record file.now { page = to.page; log = None; used = 0 }) }
    ensures left { IsTrue F.tells → OnSpace result
        (λ need. (table : Entries) → HoldsTable (F.image flash.old) table None
        → LeavesAll (F.image flash.old) (F.image flash.new) table need) }
    ensures need { OnSpace result (λ need. need ≡ file.now.pages) }
    ensures inside { IfOk result (λ to. FitsIn (pages_of (F.image flash.new)) to) }
    ensures cut { IsTrue F.tells → IsTrue F.cuts → IsErrOf result FileError.Failed
        → (table : Entries) (i : ℕ) → HoldsTable (F.image flash.old) table None
        → IsIn table i file.now
        → BreaksOff (F.image flash.old) (F.image flash.new) table }
    ensures frame { ChangesFlashOrLacks F.image F.lent F.reads F.faults flash.old flash.new result }
{
    rewrite(flash, file, file.pages)
}

/// The same in a new extent of twice the pages, for a doubling file of at most 16,384 pages. It may then
/// have more pages than a sound image allows, until it has more bytes: no other rule is broken, and no
/// other file has too many (`held_image`).
pub fn grow<F: Flash>(flash: &mut F, file: &FileAt) -> Result<FileAt, FileError>
    requires fits { FitsIn (pages_of (F.image flash.old)) file.now }
    requires shape { has_shape file.now.kind file.now.pages ≡ true }
    requires doubling { file.now.kind ≡ Kind.Doubling }
    requires few { file.now.pages ≤ 16384 }
    ensures moved { IsTrue F.tells → IfOk result
        (λ to. (table : Entries) (i : ℕ) → HoldsTable (F.image flash.old) table None → IsIn table i file.now
        → MovesFile (F.image flash.old) (F.image flash.new) table i file.now to) }
    ensures entry { IfOk result
        (λ to. to ≡ record file.now { page = to.page; pages = 2 * file.now.pages; log = None; used = 0 }) }
    ensures left { IsTrue F.tells → OnSpace result
        (λ need. (table : Entries) → HoldsTable (F.image flash.old) table None
        → LeavesAll (F.image flash.old) (F.image flash.new) table need) }
    ensures need { OnSpace result (λ need. need ≡ 2 * file.now.pages) }
    ensures inside { IfOk result (λ to. FitsIn (pages_of (F.image flash.new)) to) }
    ensures cut { IsTrue F.tells → IsTrue F.cuts → IsErrOf result FileError.Failed
        → (table : Entries) (i : ℕ) → HoldsTable (F.image flash.old) table None
        → IsIn table i file.now → has_few (record file.now { pages = 2 * file.now.pages }) ≡ true
        → BreaksOff (F.image flash.old) (F.image flash.new) table }
    ensures frame { ChangesFlashOrLacks F.image F.lent F.reads F.faults flash.old flash.new result }
{
    rewrite(flash, file, 2 * file.pages)
}

// The same in a new extent of this many pages.
fn rewrite<F: Flash>(flash: &mut F, file: &FileAt, pages: u16) -> Result<FileAt, FileError>
    requires fits { FitsIn (pages_of (F.image flash.old)) file.now }
    requires shape { has_shape file.now.kind pages ≡ true }
    requires holds { file.now.size + 32 ≤ 256 * pages }
    ensures moved { IsTrue F.tells → IfOk result
        (λ to. (table : Entries) (i : ℕ) → HoldsTable (F.image flash.old) table None → IsIn table i file.now
        → MovesFile (F.image flash.old) (F.image flash.new) table i file.now to) }
    ensures entry { IfOk result
        (λ to. to ≡ record file.now { page = to.page; pages = pages; log = None; used = 0 }) }
    ensures left { IsTrue F.tells → OnSpace result
        (λ need. (table : Entries) → HoldsTable (F.image flash.old) table None
        → LeavesAll (F.image flash.old) (F.image flash.new) table need) }
    ensures need { OnSpace result (λ need. need ≡ pages) }
    ensures inside { IfOk result (λ to. FitsIn (pages_of (F.image flash.new)) to) }
    ensures cut { IsTrue F.tells → IsTrue F.cuts → IsErrOf result FileError.Failed
        → (table : Entries) (i : ℕ) → HoldsTable (F.image flash.old) table None
        → IsIn table i file.now → (has_few file.now ≡ true → has_few (record file.now { pages = pages }) ≡ true)
        → BreaksOff (F.image flash.old) (F.image flash.new) table }
    ensures frame { ChangesFlashOrLacks F.image F.lent F.reads F.faults flash.old flash.new result }
{
    let page = begin_extent(flash, &file.name, file.kind, pages)?;
    copy_file(flash, file, page, pages)?;
    replace_file(flash, page, file)?;
    Ok(FileAt {
        page,
        pages,
        log: None,
        used: 0,
        ..*file
    })
}
