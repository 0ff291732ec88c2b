ghost use Rattle.std.specs.Prelude.{◌≡◌, ℕ, Bool, ◌+◌, ◌*◌, ◌≤◌, ◌<◌, false, true, length, take, Some, IsTrue, IfOk, OnOk, IfSome, MatchResult, None};
ghost use Rattle.afl_base.specs.Keeping.{OnlyReads};
ghost use Rattle.afl_base.specs.Image.{page_bytes};
ghost use Rattle.coffee_layout.specs.Tiling.{broken_at, broken_suffix, broken_unit, nowhere};
ghost use Rattle.padded.specs.Zeros.{is_zeros};
ghost use Rattle.coffee_layout.specs.Units.{is_free, unit_at};
ghost use Rattle.coffee_layout.specs.Walks.{IsInside};

use crate::next::{next_unit, unit_of};
use crate::unit::Unit;
use afl_base::{Failed, Flash, PageId};
use padded::is_zeros;

/// The unit that begins at `page`, or the first of the rules 1 to 4 that is broken there: where
/// `after_free` says that the unit before is a free page, and no extent may be under construction.
/// One read, of the whole page.
pub(crate) fn sound_unit<F: Flash>(
    flash: &mut F,
    page: u16,
    pages: u16,
    after_free: bool,
) -> Result<Result<Unit, u8>, Failed>
    requires page { page < pages }
    requires pages { 256 * pages ≡ length (F.image flash.old) }
    ensures unit { IsTrue F.tells → IfOk result (λ r. MatchResult r
        (λ u. (unit_at (F.image flash.old) page ≡ Some u)
        × (broken_at nowhere (F.image flash.old) page after_free ≡ None))
        (λ rule. broken_at nowhere (F.image flash.old) page after_free ≡ Some rule)) }
    ensures inside { IfOk result (λ r. IfOk r (λ u. IsInside pages page u)) }
    ensures reads { F.reads flash.new ≤ F.reads flash.old + 1 }
    ensures frame { OnlyReads F.image F.lent F.reads F.faults flash.old flash.new result }
{
    let mut bytes = [0; 256];
    read_page(flash, page, &mut bytes)?;
    let unit = match unit_of(&head_of(&bytes)) {
        Some(unit) => unit,
        None => return Ok(Err(1)),
    };
    let zeros = is_clear(&bytes, &unit);
    match broken_unit(zeros, pages, page, after_free, &unit) {
        Some(rule) => Ok(Err(rule)),
        None => Ok(Ok(unit)),
    }
}

/// The unit that begins at `page`. On a flash that answers otherwise at each read it may be none, or
/// run past the end of the flash: the answer is None then too, and else the unit ends inside.
pub fn unit_in<F: Flash>(flash: &mut F, page: u16, pages: u16) -> Result<Option<Unit>, Failed>
    requires page { page < pages }
    requires pages { 256 * pages ≡ length (F.image flash.old) }
    ensures unit { IsTrue F.tells → (building : ℕ → Bool) (after_free : Bool)
        → broken_at building (F.image flash.old) page after_free ≡ None → IfOk result
        (λ r. r ≡ unit_at (F.image flash.old) page) }
    ensures inside { IfOk result (λ r. IfSome r (λ u. IsInside pages page u)) }
    ensures reads { F.reads flash.new ≤ F.reads flash.old + 1 }
    ensures frame { OnlyReads F.image F.lent F.reads F.faults flash.old flash.new result }
{
    let unit = match next_unit(flash, PageId(page))? {
        Some(unit) => unit,
        None => return Ok(None),
    };
    if unit.pages() == 0 || u32::from(pages) < u32::from(page) + u32::from(unit.pages()) {
        return Ok(None);
    }
    Ok(Some(unit))
}

fn read_page<F: Flash>(flash: &mut F, page: u16, bytes: &mut [u8; 256]) -> Result<(), Failed>
    requires page { 256 * page + 256 ≤ length (F.image flash.old) }
    ensures bytes { IsTrue F.tells → OnOk result (bytes.new ≡ page_bytes (F.image flash.old) page) }
    ensures reads { F.reads flash.new ≤ F.reads flash.old + 1 }
    ensures frame { OnlyReads F.image F.lent F.reads F.faults flash.old flash.new result }
{
    flash.read(PageId(page), 0, bytes)
}

// The first 32 bytes of a page.
fn head_of(page: &[u8; 256]) -> [u8; 32]
    ensures { result ≡ take 32 page.now }
{
    let mut head = [0; 32];
    head.copy_from_slice(&page[..32]);
    head
}

// Whether all bytes of a page that is read as free are zero. Of other pages nothing is said.
fn is_clear(page: &[u8; 256], unit: &Unit) -> bool
    ensures { is_free unit.now ≡ true → result ≡ is_zeros page.now }
{
    unit.is_free() && is_zeros(page)
}

// The first of the rules 1 to 4 that a unit breaks.
fn broken_unit(zeros: bool, pages: u16, page: u16, after_free: bool, unit: &Unit) -> Option<u8>
    ensures { result ≡ broken_unit false zeros pages page after_free (Some unit.now) }
{
    match unit {
        Unit::Free => if zeros { None } else { Some(3) },
        Unit::Isolated => broken_suffix(page, after_free),
        Unit::Extent(header) => {
            if header.flags == 2 {
                return Some(1);
            }
            if header.max_pages == 0
                || u32::from(pages) < u32::from(page) + u32::from(header.max_pages)
            {
                return Some(2);
            }
            broken_suffix(page, after_free)
        }
    }
}

// Rule 4 at a unit that is not free.
fn broken_suffix(page: u16, after_free: bool) -> Option<u8>
    ensures { result ≡ broken_suffix page after_free }
{
    if after_free && page % 16 != 0 {
        Some(4)
    } else {
        None
    }
}
