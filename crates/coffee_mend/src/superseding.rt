ghost use Rattle.std.specs.Prelude.{◌≤◌, ◌<◌, Some, length, IsTrue, OnErr, OnOk};
ghost use Rattle.afl_base.specs.Keeping.{Programs};
ghost use Rattle.coffee_cuts.specs.Cuts.{IsSuperseding};
ghost use Rattle.coffee_cuts.specs.Superseded.{IsSuperseded};
ghost use Rattle.coffee_find.specs.Found.{HasRecord};
ghost use Rattle.coffee_mend.specs.Superseding.{GoesOnOrIsDone, HoldsFirst};

use afl_base::{Failed, Flash};
use coffee_find::TornRecord;
use flash_range::program_range;

/// Supersedes a torn record: the first region of the log's file goes into the record behind it, and then
/// both get its number, that one first.
pub(crate) fn supersede<F: Flash>(
    flash: &mut F,
    torn: &TornRecord,
    region: &[u8; 128],
) -> Result<(), Failed>
    requires torn { HasRecord (length (F.image flash.old)) (Some torn.now) }
    requires low { torn.now.used < 29 }
    ensures superseded { IsTrue F.tells → OnOk result ((t : IsSuperseding (F.image flash.old))
        → HoldsFirst (F.image flash.old) torn.now region.now t → 1 ≤ t.file.size
        → IsSuperseded (F.image flash.old) (F.image flash.new) t) }
    ensures cut { IsTrue F.tells → IsTrue F.cuts → OnErr result ((t : IsSuperseding (F.image flash.old))
        → HoldsFirst (F.image flash.old) torn.now region.now t → 1 ≤ t.file.size
        → GoesOnOrIsDone (F.image flash.old) (F.image flash.new) t) }
    ensures frame { Programs F.image F.lent F.reads F.faults flash.old flash.new result }
{
    // What the number of sectors promises makes the image one of whole pages.
    flash.sectors();
    let page = 256 * u32::from(torn.log.0);
    let used = u32::from(torn.used);
    let number = [1, 0];
    program_range(flash, torn.place + 128, region)?;
    program_range(flash, page + 34 + 2 * used, &number)?;
    program_range(flash, page + 32 + 2 * used, &number)
}
