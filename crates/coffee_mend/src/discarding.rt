ghost use Rattle.std.specs.Prelude.{◌≡◌, Some, length, IsTrue, IfOk, IfSome, OnErr, OnOk};
ghost use Rattle.afl_base.specs.Keeping.{OnlyReads, Programs};
ghost use Rattle.coffee_find.specs.Found.{HasPage, HasRecord, IsSoundBut};
ghost use Rattle.coffee_mend.specs.Discarded.{discarded};
ghost use Rattle.coffee_mend.specs.Superseding.{IsTornOf};
ghost use Rattle.coffee_merge.specs.CutMarks.{IsCutObsolete};

use crate::owner::owner_beside;
use crate::settling::mark;
use afl_base::{Failed, Flash, PageId};
use coffee_find::TornRecord;
use coffee_layout::FileAt;

/// The file of a log whose last record is torn. `None` comes only where the image is not sound but for that
/// record.
pub fn torn_file<F: Flash>(flash: &mut F, torn: &TornRecord) -> Result<Option<FileAt>, Failed>
    requires inside { HasRecord (length (F.image flash.old)) (Some torn.now) }
    ensures owner { IsTrue F.tells → IsSoundBut (F.image flash.old) (Some torn.now) → torn.now.used ≡ 29
        → IfOk result (λ o. (f : FileAt) × (o ≡ Some f) × IsTornOf (F.image flash.old) torn.now f) }
    ensures page { IfOk result (λ o. IfSome o (λ f. HasPage (length (F.image flash.old)) f.page.0)) }
    ensures frame { OnlyReads F.image F.lent F.reads F.faults flash.old flash.new result }
{
    flash.sectors();
    let mut region = [0; 128];
    owner_beside(flash, torn, &mut region)
}

/// Gives up a file: makes it obsolete, and then its log. Where that is cut in between, the log is one that no
/// file names any more, which mending makes obsolete.
pub fn discard<F: Flash>(flash: &mut F, file: &FileAt, log: PageId) -> Result<(), Failed>
    requires page { HasPage (length (F.image flash.old)) file.now.page.0 }
    requires log { HasPage (length (F.image flash.old)) log.0 }
    ensures discarded { IsTrue F.tells → OnOk result
        (F.image flash.new ≡ discarded (F.image flash.old) file.now log) }
    ensures cut { IsTrue F.tells → IsTrue F.cuts → OnErr result
        (IsCutObsolete (F.image flash.old) (F.image flash.new) file.now.page.0 (Some log)) }
    ensures frame { Programs F.image F.lent F.reads F.faults flash.old flash.new result }
{
    mark(flash, file.page, 4)?;
    mark(flash, log, 4)?;
    Ok(())
}
