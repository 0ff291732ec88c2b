ghost use Rattle.std.specs.Prelude.{◌≡◌, ◌+◌, ◌*◌, ◌/◌, ◌≤◌, ◌<◌, ◌==◌, ◌&&◌, not, true, length, map, List, Some, IsTrue, IfOk};
ghost use Rattle.afl_base.specs.Keeping.{OnlyReads};
ghost use Rattle.std.specs.List.{All, list_any};
ghost use Rattle.std.specs.Option.{option_map};
ghost use Rattle.coffee_layout.specs.Files.{Placed, entry_with, files_in, is_log, logs_in};
ghost use Rattle.coffee_layout.specs.Rules.{first_failing, names_its_log};
ghost use Rattle.coffee_layout.specs.Tiling.{IsTiled, nowhere};
ghost use Rattle.coffee_layout.specs.Units.{pages_of, unit_at};
ghost use Rattle.coffee_layout.specs.Walks.{IsPlaced, is_log_at, keeps_unit, page_id};
ghost use Rattle.coffee_layout.specs.declared.unit.Unit.{Unit};
ghost use Rattle.coffee_layout.specs.declared.unit.Unit.TheVariants.{Extent};

use crate::file::FileAt;
use crate::next::next_unit;
use crate::sound::unit_in;
use crate::unit::Unit;
use afl_base::{Failed, Flash, Name, PageId};
use coffee_header::Header;

/// Rule 8: the first page of the first file of the table that does not name its log. One walk over
/// the units for each file that names one.
pub(crate) fn first_unlogged<F: Flash>(
    flash: &mut F,
    table: &[FileAt],
) -> Result<Option<PageId>, Failed>
    requires few { length table.now ≤ 32 }
    requires placed { All (λ e. IsPlaced (pages_of (F.image flash.old)) e) table.now }
    ensures first { IsTrue F.tells → IfOk result
        (λ r. (us : List Unit) → IsTiled nowhere (F.image flash.old) us
        → table.now ≡ map (λ f. entry_with f 0 0) (files_in us)
        → r ≡ option_map page_id (first_failing (names_its_log (logs_in us)) (files_in us))) }
    ensures reads { F.reads flash.new ≤ F.reads flash.old + 32 * (1 + pages_of (F.image flash.old)) }
    ensures frame { OnlyReads F.image F.lent F.reads F.faults flash.old flash.new result }
{
    for file in table {
        if !names_its_log(flash, file.page)? {
            return Ok(Some(file.page));
        }
    }
    Ok(None)
}

// Rule 8, of the file at `page`.
fn names_its_log<F: Flash>(flash: &mut F, page: PageId) -> Result<bool, Failed>
    requires page { 256 * page.0 + 256 ≤ length (F.image flash.old) }
    ensures names { IsTrue F.tells → IfOk result
        (λ r. (us : List Unit) (f : Placed) → IsTiled nowhere (F.image flash.old) us
        → page.0 ≡ f.page → unit_at (F.image flash.old) f.page ≡ Some (Extent f.header)
        → r ≡ names_its_log (logs_in us) f) }
    ensures reads { F.reads flash.new ≤ F.reads flash.old + (1 + pages_of (F.image flash.old)) }
    ensures frame { OnlyReads F.image F.lent F.reads F.faults flash.old flash.new result }
{
    match next_unit(flash, page)? {
        Some(Unit::Extent(header)) => header_names_its_log(flash, &header),
        Some(Unit::Free) => Ok(true),
        Some(Unit::Isolated) => Ok(true),
        None => Ok(true),
    }
}

fn header_names_its_log<F: Flash>(flash: &mut F, header: &Header) -> Result<bool, Failed>
    ensures names { IsTrue F.tells → IfOk result
        (λ r. (us : List Unit) (f : Placed) → IsTiled nowhere (F.image flash.old) us
        → f.header ≡ header.now → r ≡ names_its_log (logs_in us) f) }
    ensures reads { F.reads flash.new ≤ F.reads flash.old + pages_of (F.image flash.old) }
    ensures frame { OnlyReads F.image F.lent F.reads F.faults flash.old flash.new result }
{
    if header.flags == 3 {
        return Ok(header.log_page == 0);
    }
    if header.log_page == 0 {
        return Ok(false);
    }
    is_active_log(flash, header.log_page - 1, &header.name)
}

// Whether an active log of this name begins at the page `log`.
fn is_active_log<F: Flash>(flash: &mut F, log: u16, name: &Name) -> Result<bool, Failed>
    ensures active { IsTrue F.tells → IfOk result
        (λ r. (us : List Unit) → IsTiled nowhere (F.image flash.old) us
        → r ≡ list_any (is_log_at log name.now) (logs_in us)) }
    ensures reads { F.reads flash.new ≤ F.reads flash.old + pages_of (F.image flash.old) }
    ensures frame { OnlyReads F.image F.lent F.reads F.faults flash.old flash.new result }
{
    let pages = 16 * flash.sectors();
    let mut page: u16 = 0;
    while page < pages {
        let unit = match unit_in(flash, page, pages)? {
            Some(unit) => unit,
            None => return Ok(false),
        };
        if is_unit_log_at(page, &unit, log, name) {
            return Ok(true);
        }
        page = unit.behind(page);
    }
    Ok(false)
}

// Whether the unit at `page` is that log.
fn is_unit_log_at(page: u16, unit: &Unit, log: u16, name: &Name) -> bool
    ensures { not result ≡ keeps_unit (λ e. not (is_log e && is_log_at log name.now e)) page unit.now }
{
    match unit {
        Unit::Free => false,
        Unit::Isolated => false,
        Unit::Extent(header) => header.flags == 19 && (page == log && header.name == *name),
    }
}
