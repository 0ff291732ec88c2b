ghost use Rattle.std.specs.Prelude.{◌≡◌, ℕ, ◌+◌, ◌*◌, ◌/◌, ◌≤◌, ◌<◌, true, false, length, Some, IsTrue, IfNone, IfOk, IfSome};
ghost use Rattle.afl_base.specs.Image.{zeros_at};
ghost use Rattle.afl_base.specs.Keeping.{OnlyReads};
ghost use Rattle.coffee_cuts.specs.Cuts.{IsErasing, IsFound, IsHeadless, IsSettled};
ghost use Rattle.coffee_find.specs.Found.{HasPage, IsInFlash, meant};
ghost use Rattle.coffee_find.specs.Guesses.{IsGuess};
ghost use Rattle.coffee_find.specs.Search.{HasNoFront, IsBlankFrom, IsEmpty, IsFreeFront, LiesInSector, NoneFree};
ghost use Rattle.coffee_find.specs.declared.finding.Guess.TheVariants.{Erased};
ghost use Rattle.coffee_find.specs.declared.trouble.UnderWay.TheVariants.{Erasing};
ghost use Rattle.coffee_layout.specs.Tiling.{units_of};
ghost use Rattle.coffee_layout.specs.Units.{pages_of};
ghost use Rattle.coffee_layout.specs.declared.unit.Unit.TheVariants.{Free};
ghost use Rattle.coffee_merge.specs.Begun.{unit_begun};

use crate::trouble::UnderWay;
use crate::walks::{begun, is_idle};
use crate::zeros::are_zero;
use afl_base::{Failed, Flash, PageId, SectorId};
use coffee_layout::{Unit, next_unit};
use flash_views::{Handed, Overlay, View};

/// The sector of a page, where that was being erased.
pub(crate) fn find_erased<F: Flash>(flash: &mut F, page: PageId) -> Result<Option<UnderWay>, Failed>
    ensures found { IsTrue F.tells → IfOk result
        (λ o. IfSome o (λ u. IsFound (F.image flash.old) (meant u))) }
    ensures none { IsTrue F.tells → IfOk result (λ o. IfNone o
        ((p : ℕ) → IsErasing (F.image flash.old) (page.0 / 16) p
        → IsSettled (zeros_at (F.image flash.old) (4096 * (page.0 / 16)) 4096) → ⊥)) }
    ensures guess { IfOk result (λ o. IfSome o (λ u. IsGuess Erased page.0 (meant u))) }
    ensures inside { IfOk result (λ o. IfSome o (λ u. IsInFlash (length (F.image flash.old)) u)) }
    ensures reads { F.reads flash.new ≤ F.reads flash.old + 17 * pages_of (F.image flash.old) + 18 }
    ensures frame { OnlyReads F.image F.lent F.reads F.faults flash.old flash.new result }
{
    let sector = SectorId(page.0 / 16);
    if flash.sectors() <= sector.0 {
        return Ok(None);
    }
    match erased_front(flash, sector)? {
        Some(page) => find_blank(flash, sector, page),
        None => Ok(None),
    }
}

// The first page of a sector at which a unit begins once the sector is erased, where no active
// extent has a page in it then.
fn erased_front<F: Flash>(flash: &mut F, sector: SectorId) -> Result<Option<PageId>, Failed>
    requires sector { 4096 * sector.0 + 4096 ≤ length (F.image flash.old) }
    ensures front { IsTrue F.tells → IfOk result (λ o. IfSome o
        (λ p. IsFreeFront (zeros_at (F.image flash.old) (4096 * sector.0) 4096) sector.0 p.0)) }
    ensures lowest { IsTrue F.tells → IfOk result (λ o. IfSome o
        (λ p. NoneFree (zeros_at (F.image flash.old) (4096 * sector.0) 4096) (16 * sector.0) p.0)) }
    ensures none { IsTrue F.tells → IfOk result (λ o. IfNone o
        (HasNoFront (zeros_at (F.image flash.old) (4096 * sector.0) 4096) sector.0)) }
    ensures inside { IfOk result (λ o. IfSome o (λ p. LiesInSector sector.0 p.0)) }
    ensures reads { F.reads flash.new ≤ F.reads flash.old + 17 * pages_of (F.image flash.old) }
    ensures frame { OnlyReads F.image F.lent F.reads F.faults flash.old flash.new result }
{
    let mut front = Ok(None);
    let _handed = erased_through(Handed { flash }, sector, &mut front);
    front
}

// The same through a view.
fn erased_through<F: Flash>(
    flash: F,
    sector: SectorId,
    front: &mut Result<Option<PageId>, Failed>,
) -> F
    requires sector { 4096 * sector.0 + 4096 ≤ length (F.image flash) }
    ensures front { IsTrue F.tells → IfOk front.new (λ o. IfSome o
        (λ p. IsFreeFront (zeros_at (F.image flash) (4096 * sector.0) 4096) sector.0 p.0)) }
    ensures lowest { IsTrue F.tells → IfOk front.new (λ o. IfSome o
        (λ p. NoneFree (zeros_at (F.image flash) (4096 * sector.0) 4096) (16 * sector.0) p.0)) }
    ensures none { IsTrue F.tells → IfOk front.new (λ o. IfNone o
        (HasNoFront (zeros_at (F.image flash) (4096 * sector.0) 4096) sector.0)) }
    ensures inside { IfOk front.new (λ o. IfSome o (λ p. LiesInSector sector.0 p.0)) }
    ensures reads { F.reads result ≤ F.reads flash + 17 * pages_of (F.image flash) }
    ensures frame { OnlyReads F.image F.lent F.reads F.faults flash result front.new }
{
    let overlay = Overlay {
        first: None,
        second: None,
        sector: Some(sector),
        blank: None,
        two: None,
    };
    let mut view = View::new(flash, overlay);
    *front = idle_front(&mut view, sector);
    view.into_flash()
}

// The first page of a sector at which a free page begins, where the sector has no active page.
fn idle_front<F: Flash>(flash: &mut F, sector: SectorId) -> Result<Option<PageId>, Failed>
    requires sector { 4096 * sector.0 + 4096 ≤ length (F.image flash.old) }
    ensures front { IsTrue F.tells → IfOk result
        (λ o. IfSome o (λ p. IsFreeFront (F.image flash.old) sector.0 p.0)) }
    ensures lowest { IsTrue F.tells → IfOk result
        (λ o. IfSome o (λ p. NoneFree (F.image flash.old) (16 * sector.0) p.0)) }
    ensures none { IsTrue F.tells → IfOk result
        (λ o. IfNone o (HasNoFront (F.image flash.old) sector.0)) }
    ensures inside { IfOk result (λ o. IfSome o (λ p. LiesInSector sector.0 p.0)) }
    ensures reads { F.reads flash.new ≤ F.reads flash.old + 17 * pages_of (F.image flash.old) }
    ensures frame { OnlyReads F.image F.lent F.reads F.faults flash.old flash.new result }
{
    let Some(page) = free_front(flash, sector)? else {
        return Ok(None);
    };
    if is_idle(flash, sector)? {
        Ok(Some(page))
    } else {
        Ok(None)
    }
}

// The first page of a sector at which a free page begins.
fn free_front<F: Flash>(flash: &mut F, sector: SectorId) -> Result<Option<PageId>, Failed>
    requires sector { 4096 * sector.0 + 4096 ≤ length (F.image flash.old) }
    ensures begins { IsTrue F.tells → IfOk result (λ o. IfSome o
        (λ p. unit_begun (units_of (F.image flash.old)) 0 p.0 ≡ Some Free)) }
    ensures lowest { IsTrue F.tells → IfOk result
        (λ o. IfSome o (λ p. NoneFree (F.image flash.old) (16 * sector.0) p.0)) }
    ensures none { IsTrue F.tells → IfOk result
        (λ o. IfNone o (NoneFree (F.image flash.old) (16 * sector.0) (16 * sector.0 + 16))) }
    ensures inside { IfOk result (λ o. IfSome o (λ p. LiesInSector sector.0 p.0)) }
    ensures reads { F.reads flash.new ≤ F.reads flash.old + 16 * pages_of (F.image flash.old) }
    ensures frame { OnlyReads F.image F.lent F.reads F.faults flash.old flash.new result }
{
    flash.sectors();
    for k in 0..16u16 {
        let page = PageId(16 * sector.0 + k);
        if is_free_at(flash, page)? {
            return Ok(Some(page));
        }
    }
    Ok(None)
}

// Whether a free page begins at a page.
fn is_free_at<F: Flash>(flash: &mut F, page: PageId) -> Result<bool, Failed>
    ensures free { IsTrue F.tells → IfOk result
        (λ r. r ≡ true → unit_begun (units_of (F.image flash.old)) 0 page.0 ≡ Some Free) }
    ensures none { IsTrue F.tells → IfOk result
        (λ r. r ≡ false → unit_begun (units_of (F.image flash.old)) 0 page.0 ≡ Some Free → ⊥) }
    ensures reads { F.reads flash.new ≤ F.reads flash.old + pages_of (F.image flash.old) }
    ensures frame { OnlyReads F.image F.lent F.reads F.faults flash.old flash.new result }
{
    match begun(flash, page)? {
        Some(unit) => Ok(unit.is_free()),
        None => Ok(false),
    }
}

// The sector, where it is zero up to a page in it, and that is blank.
fn find_blank<F: Flash>(
    flash: &mut F,
    sector: SectorId,
    page: PageId,
) -> Result<Option<UnderWay>, Failed>
    requires sector { 4096 * sector.0 + 4096 ≤ length (F.image flash.old) }
    requires page { LiesInSector sector.0 page.0 }
    ensures found { IsTrue F.tells → IfOk result (λ o. IfSome o (λ u.
        IsFreeFront (zeros_at (F.image flash.old) (4096 * sector.0) 4096) sector.0 page.0
        → IsFound (F.image flash.old) (meant u))) }
    ensures none { IsTrue F.tells → IfOk result
        (λ o. IfNone o (IsBlankFrom (F.image flash.old) sector.0 page.0 → ⊥)) }
    ensures is { IfOk result (λ o. IfSome o (λ u. u ≡ Erasing sector page)) }
    ensures inside { IfOk result (λ o. IfSome o (λ u. IsInFlash (length (F.image flash.old)) u)) }
    ensures reads { F.reads flash.new ≤ F.reads flash.old + 18 }
    ensures frame { OnlyReads F.image F.lent F.reads F.faults flash.old flash.new result }
{
    if !are_zero(flash, 16 * sector.0, page.0)? {
        return Ok(None);
    }
    if !is_headless(flash, page)? {
        return Ok(None);
    }
    Ok(Some(UnderWay::Erasing { sector, page }))
}

// Whether no header of an extent with pages stands at a page: byte 9 is 0, as no header's is, or
// the extent has no pages.
fn is_headless<F: Flash>(flash: &mut F, page: PageId) -> Result<bool, Failed>
    requires page { HasPage (length (F.image flash.old)) page.0 }
    ensures blank { IsTrue F.tells → IfOk result
        (λ r. r ≡ true → IsHeadless (F.image flash.old) page.0) }
    ensures headed { IsTrue F.tells → IfOk result
        (λ r. r ≡ false → IsHeadless (F.image flash.old) page.0 → ⊥) }
    ensures reads { F.reads flash.new ≤ F.reads flash.old + 2 }
    ensures frame { OnlyReads F.image F.lent F.reads F.faults flash.old flash.new result }
{
    let mut ninth = [0; 1];
    flash.read(page, 9, &mut ninth)?;
    if ninth[0] == 0 {
        return Ok(true);
    }
    match next_unit(flash, page)? {
        Some(unit) => Ok(has_no_pages(&unit)),
        None => Ok(false),
    }
}

// Whether a unit is an extent without pages.
fn has_no_pages(unit: &Unit) -> bool
    ensures yes { result ≡ true → IsEmpty unit.now }
    ensures no { result ≡ false → IsEmpty unit.now → ⊥ }
{
    match unit {
        Unit::Free => false,
        Unit::Isolated => false,
        Unit::Extent(header) => header.max_pages == 0,
    }
}
