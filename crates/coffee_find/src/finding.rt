ghost use Rattle.std.specs.Prelude.{◌≡◌, ℕ, ◌+◌, ◌*◌, ◌≤◌, List, length, Some, IsTrue, IfNone, IfOk, IfSome};
ghost use Rattle.afl_base.specs.Keeping.{OnlyReads};
ghost use Rattle.coffee_cuts.specs.Cuts.{IsFound};
ghost use Rattle.coffee_find.specs.Found.{HasPage, IsInFlash, meant};
ghost use Rattle.coffee_find.specs.Guesses.{IsGuess, MissesNoWay};
ghost use Rattle.coffee_find.specs.Search.{IsOfOthers, ShowsNoHeader};
ghost use Rattle.coffee_find.specs.declared.finding.Guess.TheVariants.{Header};
ghost use Rattle.coffee_layout.specs.Tiling.{units_of};
ghost use Rattle.coffee_layout.specs.Units.{pages_of};
ghost use Rattle.coffee_merge.specs.Begun.{unit_begun};

use crate::erased::find_erased;
use crate::torn_header::find_torn_header;
use crate::trouble::UnderWay;
use crate::twins::find_replaced;
use crate::walks::begun;
use afl_base::{Failed, Flash, PageId};
use coffee_layout::Unit;

// What may have been under way, to be looked for at a page.
#[derive(Clone, Copy)]
pub(crate) enum Guess {
    Nothing,
    // An extent that is under construction, a file without the flag of its log, or a log without its
    // file.
    Header,
    // A header of which a front part was written.
    TornHeader,
    // A sector of which a front part was erased.
    Erased,
    // Two files of one name.
    Replaced,
}

/// What was under way, where the image shows what is guessed. Whatever the image mends by, where the
/// guess is right of it, what is found settles the image as that.
pub(crate) fn find<F: Flash>(
    flash: &mut F,
    guess: Guess,
    page: PageId,
) -> Result<Option<UnderWay>, Failed>
    ensures found { IsTrue F.tells → IfOk result
        (λ o. IfSome o (λ u. IsFound (F.image flash.old) (meant u))) }
    ensures all { IsTrue F.tells → IfOk result
        (λ o. MissesNoWay (F.image flash.old) guess page.0 o) }
    ensures inside { IfOk result (λ o. IfSome o (λ u. IsInFlash (length (F.image flash.old)) u)) }
    ensures reads { F.reads flash.new ≤ F.reads flash.old + 67 * pages_of (F.image flash.old) + 18 }
    ensures frame { OnlyReads F.image F.lent F.reads F.faults flash.old flash.new result }
{
    match guess {
        Guess::Nothing => Ok(Some(UnderWay::Nothing)),
        Guess::Header => find_header(flash, page),
        Guess::TornHeader => find_torn_header(flash, page),
        Guess::Erased => find_erased(flash, page),
        Guess::Replaced => find_replaced(flash),
    }
}

// By the flags of the extent that begins at a page.
fn find_header<F: Flash>(flash: &mut F, page: PageId) -> Result<Option<UnderWay>, Failed>
    ensures found { IsTrue F.tells → IfOk result
        (λ o. IfSome o (λ u. IsFound (F.image flash.old) (meant u))) }
    ensures none { IsTrue F.tells → IfOk result
        (λ o. IfNone o (ShowsNoHeader (F.image flash.old) page.0)) }
    ensures guess { IfOk result (λ o. IfSome o (λ u. IsGuess Header page.0 (meant u))) }
    ensures inside { IfOk result (λ o. IfSome o (λ u. IsInFlash (length (F.image flash.old)) u)) }
    ensures reads { F.reads flash.new ≤ F.reads flash.old + pages_of (F.image flash.old) }
    ensures frame { OnlyReads F.image F.lent F.reads F.faults flash.old flash.new result }
{
    match begun(flash, page)? {
        Some(unit) => Ok(by_unit(page, &unit)),
        None => Ok(None),
    }
}

fn by_unit(page: PageId, unit: &Unit) -> Option<UnderWay>
    ensures found { IfSome result (λ u. (image : List ℕ)
        → unit_begun (units_of image) 0 page.0 ≡ Some unit.now → IsFound image (meant u)) }
    ensures none { IfNone result (IsOfOthers unit.now) }
    ensures guess { IfSome result (λ u. IsGuess Header page.0 (meant u)) }
    ensures inside { IfSome result (λ u. (size : ℕ) → HasPage size page.0 → IsInFlash size u) }
{
    match unit {
        Unit::Free => None,
        Unit::Isolated => None,
        Unit::Extent(header) => match header.flags {
            2 => Some(UnderWay::Building { page }),
            3 => Some(UnderWay::Naming { page }),
            19 => Some(UnderWay::Unnamed { log: page }),
            _ => None,
        },
    }
}
