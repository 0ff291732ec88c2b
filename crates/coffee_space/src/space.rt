ghost use Rattle.std.specs.Prelude.{◌≡◌, ℕ, Bool, ◌+◌, ◌*◌, ◌≤◌, length, List, IsTrue, IfOk, OnErr};
ghost use Rattle.afl_base.specs.Keeping.{ChangesFlashOrLacks};
ghost use Rattle.afl_base.specs.FileErrors.{OnSpace, UnlessFailed};
ghost use Rattle.coffee_layout.specs.Marks.{IsCramped, IsLowestRun, IsRun, NoRun, free_pages};
ghost use Rattle.coffee_layout.specs.Tiling.{IsTiled, units_of};
ghost use Rattle.coffee_layout.specs.Units.{pages_of};
ghost use Rattle.coffee_layout.specs.declared.unit.Unit.{Unit};
ghost use Rattle.coffee_space.specs.Collection.{IsCollected, KeepsActive};
ghost use Rattle.coffee_space.specs.Cutting.{IsCutCollection};

use crate::collection::collect;
use crate::runs::find_run;
use afl_base::{FileError, Flash, PageId};

/// The lowest page that begins `pages` free pages one after the other. Where there are none, it
/// collects once, and looks again where that took a sector. `Space` comes exactly where the image is
/// then cramped: no such run is free, and a further collection would take no sector. Nothing is written
/// into the run.
pub fn obtain<F: Flash>(flash: &mut F, pages: u16) -> Result<PageId, FileError>
    requires some { 1 ≤ pages }
    ensures run { IsTrue F.tells → IfOk result
        (λ page. (building : ℕ → Bool) (us : List Unit) → IsTiled building (F.image flash.old) us
        → IsLowestRun (free_pages (units_of (F.image flash.new))) pages page.0) }
    ensures inside { IfOk result (λ page. 256 * (page.0 + pages) ≤ length (F.image flash.new)) }
    ensures cramped { IsTrue F.tells → OnSpace result
        (λ need. (building : ℕ → Bool) (us : List Unit) → IsTiled building (F.image flash.old) us
        → IsCramped (units_of (F.image flash.new)) need) }
    ensures need { OnSpace result (λ need. need ≡ pages) }
    ensures untouched { IsTrue F.tells → (building : ℕ → Bool) (us : List Unit)
        → IsTiled building (F.image flash.old) us → (page : ℕ) → IsRun (free_pages us) page pages
        → F.image flash.new ≡ F.image flash.old }
    ensures collected { IsTrue F.tells → UnlessFailed result
        ((building : ℕ → Bool) (us : List Unit) → IsTiled building (F.image flash.old) us
        → NoRun (free_pages us) pages → IsCollected building (F.image flash.old) (F.image flash.new) us) }
    ensures kept { IsTrue F.tells → UnlessFailed result
        ((building : ℕ → Bool) (us : List Unit) → IsTiled building (F.image flash.old) us
        → KeepsActive building (F.image flash.old) (F.image flash.new) us) }
    ensures reads { F.reads flash.new ≤ F.reads flash.old + 5 * pages_of (F.image flash.old) }
    ensures cut { IsTrue F.tells → IsTrue F.cuts → OnErr result
        ((building : ℕ → Bool) (us : List Unit) → IsTiled building (F.image flash.old) us
        → IsCutCollection building (F.image flash.old) (F.image flash.new) us) }
    ensures frame { ChangesFlashOrLacks F.image F.lent F.reads F.faults flash.old flash.new result }
{
    match find_run(flash, pages)? {
        Some(page) => Ok(page),
        None => obtain_collected(flash, pages),
    }
}

// The same after a collection, where no such run is free.
fn obtain_collected<F: Flash>(flash: &mut F, pages: u16) -> Result<PageId, FileError>
    requires some { 1 ≤ pages }
    ensures run { IsTrue F.tells → IfOk result
        (λ page. (building : ℕ → Bool) (us : List Unit) → IsTiled building (F.image flash.old) us
        → IsLowestRun (free_pages (units_of (F.image flash.new))) pages page.0) }
    ensures inside { IfOk result (λ page. 256 * (page.0 + pages) ≤ length (F.image flash.new)) }
    ensures cramped { IsTrue F.tells → OnSpace result
        (λ need. (building : ℕ → Bool) (us : List Unit) → IsTiled building (F.image flash.old) us
        → NoRun (free_pages us) pages → IsCramped (units_of (F.image flash.new)) need) }
    ensures need { OnSpace result (λ need. need ≡ pages) }
    ensures collected { IsTrue F.tells → UnlessFailed result
        ((building : ℕ → Bool) (us : List Unit) → IsTiled building (F.image flash.old) us
        → IsCollected building (F.image flash.old) (F.image flash.new) us) }
    ensures kept { IsTrue F.tells → UnlessFailed result
        ((building : ℕ → Bool) (us : List Unit) → IsTiled building (F.image flash.old) us
        → KeepsActive building (F.image flash.old) (F.image flash.new) us) }
    ensures reads { F.reads flash.new ≤ F.reads flash.old + 4 * pages_of (F.image flash.old) }
    ensures cut { IsTrue F.tells → IsTrue F.cuts → OnErr result
        ((building : ℕ → Bool) (us : List Unit) → IsTiled building (F.image flash.old) us
        → IsCutCollection building (F.image flash.old) (F.image flash.new) us) }
    ensures frame { ChangesFlashOrLacks F.image F.lent F.reads F.faults flash.old flash.new result }
{
    flash.sectors();
    if collect(flash)? == 0 {
        return Err(FileError::Space { need: pages });
    }
    match find_run(flash, pages)? {
        Some(page) => Ok(page),
        None => Err(FileError::Space { need: pages }),
    }
}
