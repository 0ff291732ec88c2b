ghost use Rattle.std.specs.Prelude.{◌≡◌, ◌+◌, ◌*◌, ◌/◌, ◌≤◌, ◌<◌, true, length, List, IsTrue, IfOk};
ghost use Rattle.afl_base.specs.Keeping.{OnlyReads};
ghost use Rattle.std.specs.Option.{option_map};
ghost use Rattle.coffee_layout.specs.Files.{Placed, extents};
ghost use Rattle.coffee_layout.specs.Rules.{first_failing};
ghost use Rattle.coffee_layout.specs.Tiling.{IsTiled, nowhere};
ghost use Rattle.coffee_layout.specs.Units.{pages_of};
ghost use Rattle.coffee_layout.specs.Walks.{HasEntries, keeps_rule, keeps_unit, page_id};
ghost use Rattle.coffee_layout.specs.declared.unit.Unit.{Unit};

use crate::file::FileAt;
use crate::logs::{fits_its_file, is_clear, is_front_filled, is_log_named};
use crate::memory::has_fields;
use crate::sound::unit_in;
use crate::unit::Unit;
use afl_base::{Failed, Flash, PageId};
use coffee_header::Header;

// The rules that are judged at each extent, one walk over the units for each: 7 (fields), 9 (a log is
// named), 10 (its table is filled from the front), 11 (its regions lie inside the file), 12 (the rest
// of it is clear).
#[derive(Clone, Copy)]
pub(crate) enum ExtentRule {
    Fields,
    Named,
    Filled,
    Inside,
    Clear,
}

/// The page of the first extent that breaks `rule`.
pub(crate) fn first_failing<F: Flash>(
    flash: &mut F,
    table: &[FileAt],
    rule: ExtentRule,
) -> Result<Option<PageId>, Failed>
    ensures first { IsTrue F.tells → IfOk result
        (λ r. (us : List Unit) (files : List Placed) → IsTiled nowhere (F.image flash.old) us
        → HasEntries rule (F.image flash.old) table.now files
        → r ≡ option_map page_id (first_failing (keeps_rule rule (F.image flash.old) files) (extents 0 us))) }
    ensures reads { F.reads flash.new ≤ F.reads flash.old + 20 * pages_of (F.image flash.old) }
    ensures frame { OnlyReads F.image F.lent F.reads F.faults flash.old flash.new result }
{
    let pages = 16 * flash.sectors();
    let mut page: u16 = 0;
    while page < pages {
        let unit = match unit_in(flash, page, pages)? {
            Some(unit) => unit,
            None => return Ok(None),
        };
        if !unit_keeps(flash, table, rule, page, &unit)? {
            return Ok(Some(PageId(page)));
        }
        page = unit.behind(page);
    }
    Ok(None)
}

fn unit_keeps<F: Flash>(
    flash: &mut F,
    table: &[FileAt],
    rule: ExtentRule,
    page: u16,
    unit: &Unit,
) -> Result<bool, Failed>
    requires page { 256 * page + 256 ≤ length (F.image flash.old) }
    ensures keeps { IsTrue F.tells → IfOk result
        (λ r. (files : List Placed) → HasEntries rule (F.image flash.old) table.now files
        → r ≡ keeps_unit (keeps_rule rule (F.image flash.old) files) page unit.now) }
    ensures reads { F.reads flash.new ≤ F.reads flash.old + 19 }
    ensures frame { OnlyReads F.image F.lent F.reads F.faults flash.old flash.new result }
{
    match unit {
        Unit::Free => Ok(true),
        Unit::Isolated => Ok(true),
        Unit::Extent(header) => extent_keeps(flash, table, rule, page, header),
    }
}

fn extent_keeps<F: Flash>(
    flash: &mut F,
    table: &[FileAt],
    rule: ExtentRule,
    page: u16,
    header: &Header,
) -> Result<bool, Failed>
    requires page { 256 * page + 256 ≤ length (F.image flash.old) }
    ensures keeps { IsTrue F.tells → IfOk result
        (λ r. (files : List Placed) → HasEntries rule (F.image flash.old) table.now files
        → r ≡ keeps_rule rule (F.image flash.old) files (record { page = page; header = header.now })) }
    ensures reads { F.reads flash.new ≤ F.reads flash.old + 19 }
    ensures frame { OnlyReads F.image F.lent F.reads F.faults flash.old flash.new result }
{
    match rule {
        ExtentRule::Fields => Ok(has_fields(header)),
        ExtentRule::Named => Ok(header.flags != 19 || is_log_named(table, page)),
        ExtentRule::Filled => if header.flags != 19 {
            Ok(true)
        } else {
            is_front_filled(flash, page)
        },
        ExtentRule::Inside => if header.flags != 19 {
            Ok(true)
        } else {
            fits_its_file(flash, table, page)
        },
        ExtentRule::Clear => if header.flags != 19 {
            Ok(true)
        } else {
            is_clear(flash, page)
        },
    }
}
