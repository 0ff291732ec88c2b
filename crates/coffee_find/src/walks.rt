ghost use Rattle.std.specs.Prelude.{◌≡◌, ℕ, ◌+◌, ◌*◌, ◌≤◌, ◌<◌, true, false, length, None, Some, IsTrue, IfNone, IfOk, IfSome};
ghost use Rattle.afl_base.specs.Keeping.{OnlyReads};
ghost use Rattle.coffee_cuts.specs.Cuts.{IsIdle};
ghost use Rattle.coffee_find.specs.Found.{HasPage};
ghost use Rattle.coffee_find.specs.Search.{AreIdle, HasActivePart};
ghost use Rattle.coffee_layout.specs.Tiling.{IsTiled, nowhere, units_of};
ghost use Rattle.coffee_layout.specs.Units.{pages_of, size_of};
ghost use Rattle.coffee_merge.specs.Begun.{unit_begun};

use afl_base::{Failed, Flash, PageId, SectorId};
use coffee_layout::{Unit, next_unit};

/// The unit that begins at `page` in the walk over the units of an image that may break any rule. None
/// where the walk does not come there.
pub(crate) fn begun<F: Flash>(flash: &mut F, page: PageId) -> Result<Option<Unit>, Failed>
    ensures begun { IsTrue F.tells → IfOk result (λ r. IfSome r
        (λ u. unit_begun (units_of (F.image flash.old)) 0 page.0 ≡ Some u)) }
    ensures none { IsTrue F.tells → IfOk result (λ r. IfNone r
        (unit_begun (units_of (F.image flash.old)) 0 page.0 ≡ None)) }
    ensures inside { IfOk result (λ r. IfSome r (λ u. HasPage (length (F.image flash.old)) page.0)) }
    ensures reads { F.reads flash.new ≤ F.reads flash.old + pages_of (F.image flash.old) }
    ensures frame { OnlyReads F.image F.lent F.reads F.faults flash.old flash.new result }
{
    let pages = 16 * flash.sectors();
    let mut at: u16 = 0;
    while at < pages {
        let Some(unit) = next_unit(flash, PageId(at))? else {
            return Ok(None);
        };
        if at == page.0 {
            return Ok(Some(unit));
        }
        let Some(next) = onward(at, &unit, pages) else {
            return Ok(None);
        };
        at = next;
    }
    Ok(None)
}

// The page after a unit, None where it has no page or ends beyond the flash.
pub(crate) fn onward(page: u16, unit: &Unit, pages: u16) -> Option<u16>
    ensures next { IfSome result (λ n. (n ≡ page + size_of unit.now) × (page < n) × (n ≤ pages)) }
    ensures none { IfNone result (1 ≤ size_of unit.now → pages < page + size_of unit.now) }
{
    let size = unit.pages();
    if size == 0 || u32::from(pages) < u32::from(page) + u32::from(size) {
        return None;
    }
    Some(page + size)
}

/// Whether no active extent has a page in `sector`, where the units tile the image: true only where
/// none has.
pub(crate) fn is_idle<F: Flash>(flash: &mut F, sector: SectorId) -> Result<bool, Failed>
    ensures idle { IsTrue F.tells → IfOk result
        (λ r. r ≡ true → IsIdle (units_of (F.image flash.old)) sector.0) }
    ensures busy { IsTrue F.tells → IfOk result
        (λ r. r ≡ false → IsTiled nowhere (F.image flash.old) (units_of (F.image flash.old))
        → IsIdle (units_of (F.image flash.old)) sector.0 → ⊥) }
    ensures reads { F.reads flash.new ≤ F.reads flash.old + pages_of (F.image flash.old) }
    ensures frame { OnlyReads F.image F.lent F.reads F.faults flash.old flash.new result }
{
    let pages = 16 * flash.sectors();
    let mut at: u16 = 0;
    while at < pages {
        let Some(unit) = next_unit(flash, PageId(at))? else {
            return Ok(false);
        };
        let Some(next) = onward(at, &unit, pages) else {
            return Ok(false);
        };
        if !spares(&unit, at, next, sector) {
            return Ok(false);
        }
        at = next;
    }
    Ok(true)
}

// Whether a unit with the pages from `page` to `next` is not active, or has none in `sector`.
fn spares(unit: &Unit, page: u16, next: u16, sector: SectorId) -> bool
    ensures yes { result ≡ true → AreIdle unit.now page next sector.0 }
    ensures no { result ≡ false → HasActivePart unit.now page next sector.0 }
{
    if !unit.is_active() {
        return true;
    }
    let first = 16 * u32::from(sector.0);
    u32::from(next) <= first || first + 16 <= u32::from(page)
}
