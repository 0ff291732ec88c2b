ghost use Rattle.std.specs.Prelude.{◌≡◌, ℕ, true, None, Some, length, IsErrOf, IsTrue, OnErr, OnOk};
ghost use Rattle.afl_base.specs.FileErrors.{OnSpace};
ghost use Rattle.afl_base.specs.Image.{zeros_at};
ghost use Rattle.afl_base.specs.Keeping.{ChangesFlashOrLacks, Programs};
ghost use Rattle.coffee_find.specs.Found.{HasPage};
ghost use Rattle.coffee_layout.specs.Files.{FitsIn};
ghost use Rattle.coffee_layout.specs.Units.{pages_of};
ghost use Rattle.coffee_merge.specs.CutMarks.{IsCutReplace};
ghost use Rattle.coffee_merge.specs.Flags.{flagged, obsoleted};
ghost use Rattle.coffee_merge.specs.Holding.{Entries, has_shape};
ghost use Rattle.coffee_mend.specs.Joined.{HidesRecord, LeavesTable};
ghost use Rattle.coffee_mend.specs.Mended.{IsSoundAs, MendsLike};

use crate::drafting::{begin_draft, copy_content};
use crate::settling::mark;
use afl_base::{Failed, FileError, Flash, PageId};
use coffee_layout::FileAt;

/// Puts a file together with its log, of which the next record is torn, in a new extent. That is valid
/// before the old one is obsolete: so an image that is left by a cut mends to the same files.
pub(crate) fn join_file<F: Flash>(
    flash: &mut F,
    file: &FileAt,
    log: PageId,
) -> Result<(), FileError>
    requires fits { FitsIn (pages_of (F.image flash.old)) file.now }
    requires shape { has_shape file.now.kind file.now.pages ≡ true }
    requires log { HasPage (length (F.image flash.old)) log.0 }
    ensures joined { IsTrue F.tells → OnOk result
        ((table : Entries) (i place : ℕ) → HidesRecord (F.image flash.old) table None i file.now place
        → file.now.log ≡ Some log → IsSoundAs (zeros_at (F.image flash.old) place 128) (F.image flash.new)) }
    ensures left { IsTrue F.tells → OnSpace result
        (λ need. (table : Entries) (i place : ℕ) → HidesRecord (F.image flash.old) table None i file.now place
        → LeavesTable (zeros_at (F.image flash.old) place 128) (zeros_at (F.image flash.new) place 128) table need) }
    ensures need { OnSpace result (λ need. need ≡ file.now.pages) }
    ensures cut { IsTrue F.tells → IsTrue F.cuts → IsErrOf result FileError.Failed
        → (table : Entries) (i place : ℕ) → HidesRecord (F.image flash.old) table None i file.now place
        → file.now.log ≡ Some log → MendsLike (zeros_at (F.image flash.old) place 128) (F.image flash.new) }
    ensures frame { ChangesFlashOrLacks F.image F.lent F.reads F.faults flash.old flash.new result }
{
    let page = begin_draft(flash, file)?;
    copy_content(flash, file, page)?;
    take_place(flash, page, file.page, log)?;
    Ok(())
}

// Makes a new extent valid, and then the old one and its log obsolete.
fn take_place<F: Flash>(flash: &mut F, page: PageId, old: PageId, log: PageId) -> Result<(), Failed>
    requires page { HasPage (length (F.image flash.old)) page.0 }
    requires old { HasPage (length (F.image flash.old)) old.0 }
    requires log { HasPage (length (F.image flash.old)) log.0 }
    ensures taken { IsTrue F.tells → OnOk result
        (F.image flash.new ≡ obsoleted (flagged (F.image flash.old) page.0 1) old.0 (Some log)) }
    ensures cut { IsTrue F.tells → IsTrue F.cuts → OnErr result
        (IsCutReplace (F.image flash.old) (F.image flash.new) page.0 old.0 (Some log)) }
    ensures frame { Programs F.image F.lent F.reads F.faults flash.old flash.new result }
{
    mark(flash, page, 1)?;
    mark(flash, old, 4)?;
    mark(flash, log, 4)?;
    Ok(())
}
