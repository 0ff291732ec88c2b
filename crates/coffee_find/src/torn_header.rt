ghost use Rattle.std.specs.Prelude.{◌≡◌, ℕ, ◌+◌, ◌*◌, ◌/◌, ◌≤◌, ◌<◌, true, false, length, Some, None, IsTrue, IfNone, IfOk, IfSome, slice_range};
ghost use Rattle.afl_base.specs.Keeping.{OnlyReads};
ghost use Rattle.coffee_cuts.specs.Cuts.{IsFound, IsTornHeader};
ghost use Rattle.coffee_find.specs.Search.{IsTornHead};
ghost use Rattle.coffee_find.specs.Found.{HasPage, IsInFlash, meant};
ghost use Rattle.coffee_find.specs.declared.trouble.UnderWay.TheVariants.{Beginning};
ghost use Rattle.coffee_layout.specs.Tiling.{units_of};
ghost use Rattle.coffee_layout.specs.Units.{pages_of, unit_at};
ghost use Rattle.coffee_layout.specs.declared.unit.Unit.TheVariants.{Isolated};
ghost use Rattle.coffee_merge.specs.Begun.{unit_begun};
ghost use Rattle.coffee_merge.specs.Flags.{flagged};
ghost use Rattle.padded.specs.Zeros.{is_zeros};

use crate::trouble::UnderWay;
use crate::walks::begun;
use crate::zeros::are_zero;
use afl_base::{Failed, Flash, PageId};
use coffee_layout::{Unit, next_unit};
use flash_views::{Handed, Mark, Overlay, View};

/// A header that was being written at a page.
pub(crate) fn find_torn_header<F: Flash>(
    flash: &mut F,
    page: PageId,
) -> Result<Option<UnderWay>, Failed>
    ensures found { IsTrue F.tells → IfOk result
        (λ o. IfSome o (λ u. IsFound (F.image flash.old) (meant u))) }
    ensures none { IsTrue F.tells → IfOk result
        (λ o. IfNone o (HasPage (length (F.image flash.old)) page.0 → IsTornHeader (F.image flash.old) page.0 → ⊥)) }
    ensures is { IfOk result (λ o. IfSome o (λ u. u ≡ Beginning page)) }
    ensures inside { IfOk result (λ o. IfSome o (λ u. IsInFlash (length (F.image flash.old)) u)) }
    ensures reads { F.reads flash.new ≤ F.reads flash.old + pages_of (F.image flash.old) + 17 }
    ensures frame { OnlyReads F.image F.lent F.reads F.faults flash.old flash.new result }
{
    if !is_torn_head(flash, page)? {
        return Ok(None);
    }
    find_isolated(flash, page)
}

// Whether no unit begins at a page, and all after it in its sector is zero.
fn is_torn_head<F: Flash>(flash: &mut F, page: PageId) -> Result<bool, Failed>
    ensures torn { IsTrue F.tells → IfOk result (λ r. r ≡ true → unit_at (F.image flash.old) page.0 ≡ None) }
    ensures last { IsTrue F.tells → IfOk result (λ r. r ≡ true
        → is_zeros (slice_range (F.image flash.old) (256 * page.0 + 256) (4096 * (page.0 / 16) + 4096)) ≡ true) }
    ensures none { IsTrue F.tells → IfOk result (λ r. r ≡ false → HasPage (length (F.image flash.old)) page.0
        → IsTornHead (F.image flash.old) page.0 → ⊥) }
    ensures inside { IfOk result (λ r. r ≡ true → HasPage (length (F.image flash.old)) page.0) }
    ensures reads { F.reads flash.new ≤ F.reads flash.old + 17 }
    ensures frame { OnlyReads F.image F.lent F.reads F.faults flash.old flash.new result }
{
    if 16 * flash.sectors() <= page.0 {
        return Ok(false);
    }
    if next_unit(flash, page)?.is_some() {
        return Ok(false);
    }
    are_zero(flash, page.0 + 1, 16 * (page.0 / 16) + 16)
}

// The same, once the page is isolated.
fn find_isolated<F: Flash>(flash: &mut F, page: PageId) -> Result<Option<UnderWay>, Failed>
    ensures found { IsTrue F.tells → IfOk result (λ o. IfSome o
        (λ u. unit_begun (units_of (flagged (F.image flash.old) page.0 34)) 0 page.0 ≡ Some Isolated)) }
    ensures none { IsTrue F.tells → IfOk result (λ o. IfNone o
        (unit_begun (units_of (flagged (F.image flash.old) page.0 34)) 0 page.0 ≡ Some Isolated → ⊥)) }
    ensures is { IfOk result (λ o. IfSome o (λ u. u ≡ Beginning page)) }
    ensures reads { F.reads flash.new ≤ F.reads flash.old + pages_of (F.image flash.old) }
    ensures frame { OnlyReads F.image F.lent F.reads F.faults flash.old flash.new result }
{
    if !is_isolated(flash, page)? {
        return Ok(None);
    }
    Ok(Some(UnderWay::Beginning { page }))
}

// Whether an isolated page begins at a page once it is isolated.
fn is_isolated<F: Flash>(flash: &mut F, page: PageId) -> Result<bool, Failed>
    ensures isolated { IsTrue F.tells → IfOk result (λ r. r ≡ true
        → unit_begun (units_of (flagged (F.image flash.old) page.0 34)) 0 page.0 ≡ Some Isolated) }
    ensures none { IsTrue F.tells → IfOk result (λ r. r ≡ false
        → unit_begun (units_of (flagged (F.image flash.old) page.0 34)) 0 page.0 ≡ Some Isolated → ⊥) }
    ensures reads { F.reads flash.new ≤ F.reads flash.old + pages_of (F.image flash.old) }
    ensures frame { OnlyReads F.image F.lent F.reads F.faults flash.old flash.new result }
{
    let mut isolated = Ok(false);
    let _handed = isolated_through(Handed { flash }, page, &mut isolated);
    isolated
}

// The same through a view.
fn isolated_through<F: Flash>(flash: F, page: PageId, isolated: &mut Result<bool, Failed>) -> F
    ensures isolated { IsTrue F.tells → IfOk isolated.new (λ r. r ≡ true
        → unit_begun (units_of (flagged (F.image flash) page.0 34)) 0 page.0 ≡ Some Isolated) }
    ensures none { IsTrue F.tells → IfOk isolated.new (λ r. r ≡ false
        → unit_begun (units_of (flagged (F.image flash) page.0 34)) 0 page.0 ≡ Some Isolated → ⊥) }
    ensures reads { F.reads result ≤ F.reads flash + pages_of (F.image flash) }
    ensures frame { OnlyReads F.image F.lent F.reads F.faults flash result isolated.new }
{
    let overlay = Overlay {
        first: Some(Mark { page, bits: 34 }),
        second: None,
        sector: None,
        blank: None,
        two: None,
    };
    let mut view = View::new(flash, overlay);
    *isolated = begins_isolated(&mut view, page);
    view.into_flash()
}

// Whether an isolated page begins at a page.
fn begins_isolated<F: Flash>(flash: &mut F, page: PageId) -> Result<bool, Failed>
    ensures isolated { IsTrue F.tells → IfOk result
        (λ r. r ≡ true → unit_begun (units_of (F.image flash.old)) 0 page.0 ≡ Some Isolated) }
    ensures none { IsTrue F.tells → IfOk result
        (λ r. r ≡ false → unit_begun (units_of (F.image flash.old)) 0 page.0 ≡ Some Isolated → ⊥) }
    ensures reads { F.reads flash.new ≤ F.reads flash.old + pages_of (F.image flash.old) }
    ensures frame { OnlyReads F.image F.lent F.reads F.faults flash.old flash.new result }
{
    match begun(flash, page)? {
        Some(unit) => Ok(is_isolated_page(&unit)),
        None => Ok(false),
    }
}

fn is_isolated_page(unit: &Unit) -> bool
    ensures yes { result ≡ true → unit.now ≡ Isolated }
    ensures no { result ≡ false → unit.now ≡ Isolated → ⊥ }
{
    match unit {
        Unit::Free => false,
        Unit::Isolated => true,
        Unit::Extent(_) => false,
    }
}
