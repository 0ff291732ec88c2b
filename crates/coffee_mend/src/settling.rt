ghost use Rattle.std.specs.Prelude.{◌≡◌, ◌*◌, length, IsTrue, OnErr, OnOk};
ghost use Rattle.afl_base.specs.Keeping.{Programs};
ghost use Rattle.coffee_cuts.specs.Cuts.{settled};
ghost use Rattle.coffee_find.specs.Found.{HasPage, IsInFlash, meant};
ghost use Rattle.coffee_mend.specs.Settling.{IsCutSettling};
ghost use Rattle.coffee_merge.specs.CutMarks.{IsOneOf};
ghost use Rattle.coffee_merge.specs.Flags.{flagged};

use afl_base::{Failed, Flash, PageId};
use coffee_find::UnderWay;

/// Puts in order what was under way, by one write.
pub(crate) fn settle<F: Flash>(flash: &mut F, under_way: &UnderWay) -> Result<(), Failed>
    requires inside { IsInFlash (length (F.image flash.old)) under_way.now }
    ensures settled { IsTrue F.tells → OnOk result
        (F.image flash.new ≡ settled (F.image flash.old) (meant under_way.now)) }
    ensures cut { IsTrue F.tells → IsTrue F.cuts → OnErr result
        (IsCutSettling (F.image flash.old) (F.image flash.new) (meant under_way.now)) }
    ensures frame { Programs F.image F.lent F.reads F.faults flash.old flash.new result }
{
    match under_way {
        UnderWay::Nothing => Ok(()),
        UnderWay::Beginning { page } => mark(flash, *page, 34),
        UnderWay::Building { page } => mark(flash, *page, 5),
        UnderWay::Erasing { sector, page: _ } => flash.erase(*sector),
        UnderWay::Unnamed { log } => mark(flash, *log, 4),
        UnderWay::Naming { page } => mark(flash, *page, 8),
        UnderWay::Replacing { dropped, kept: _ } => mark(flash, dropped.page, 4),
    }
}

/// Programs a flag into the header at a page.
pub(crate) fn mark<F: Flash>(flash: &mut F, page: PageId, flag: u8) -> Result<(), Failed>
    requires page { HasPage (length (F.image flash.old)) page.0 }
    ensures marked { IsTrue F.tells → OnOk result (F.image flash.new ≡ flagged (F.image flash.old) page.0 flag) }
    ensures cut { IsTrue F.tells → IsTrue F.cuts → OnErr result
        (IsOneOf (F.image flash.new) (F.image flash.old) (flagged (F.image flash.old) page.0 flag)) }
    ensures frame { Programs F.image F.lent F.reads F.faults flash.old flash.new result }
{
    flash.program(page, 9, &[flag])
}
