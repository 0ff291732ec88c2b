ghost use Rattle.std.specs.Bool.{Decides};
ghost use Rattle.std.specs.Prelude.{◌≡◌, ℕ, Bool, List, IfOk, IsTrue, None};
ghost use Rattle.afl_base.specs.Keeping.{OnlyReads};
ghost use Rattle.coffee_layout.specs.Rules.{broken_image};
ghost use Rattle.coffee_layout.specs.Tiling.{IsTiled};
ghost use Rattle.coffee_layout.specs.declared.unit.Unit.{Unit};
ghost use Rattle.run_repair.specs.Rooms.{FindsRoom, HasRoomInFront};

use afl_base::{Failed, Flash, SectorId};
use coffee_space::find_run;

// The pages of a catalog.
const CATALOG_PAGES: u16 = 6;

/// Whether the pages of a catalog are free in a row in front of a sector, if one was being erased. A catalog that is made
/// takes such pages, and has no sector erased for it.
pub fn finds_room<F: Flash>(flash: &mut F, erased: Option<SectorId>) -> Result<bool, Failed>
    ensures finds { IsTrue F.tells → broken_image (F.image flash.old) ≡ None
        → IfOk result (λ finds. Decides finds (FindsRoom (F.image flash.old) erased)) }
    ensures frame { OnlyReads F.image F.lent F.reads F.faults flash.old flash.new result }
{
    flash.sectors();
    match erased {
        Some(sector) => {
            let has = has_room_in_front(flash, sector)?;
            Ok(has)
        }
        None => Ok(false),
    }
}

// The same of a sector.
fn has_room_in_front<F: Flash>(flash: &mut F, sector: SectorId) -> Result<bool, Failed>
    ensures room { IsTrue F.tells → IfOk result (λ has. (building : ℕ → Bool) (us : List Unit)
        → IsTiled building (F.image flash.old) us → Decides has (HasRoomInFront us sector.0)) }
    ensures frame { OnlyReads F.image F.lent F.reads F.faults flash.old flash.new result }
{
    let run = find_run(flash, CATALOG_PAGES)?;
    Ok(match run {
        Some(page) => u32::from(page.0) + u32::from(CATALOG_PAGES) <= 16 * u32::from(sector.0),
        None => false,
    })
}
