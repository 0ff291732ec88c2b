ghost use Rattle.std.specs.Prelude.{◌≡◌, ℕ, ◌+◌, ◌*◌, ◌/◌, ◌≤◌, length, map, List, Option, None, Some, IsTrue, IfOk, OnOk, MatchResult};
ghost use Rattle.afl_base.specs.Keeping.{OnlyReads};
ghost use Rattle.std.specs.List.{All};
ghost use Rattle.std.specs.Option.{option_map};
ghost use Rattle.coffee_layout.specs.Files.{FitsIn, entry_of, entry_with, files_in, listed};
ghost use Rattle.coffee_layout.specs.Rules.{broken_image, first_some};
ghost use Rattle.coffee_layout.specs.Tiling.{IsTiled, at_place, nowhere};
ghost use Rattle.coffee_layout.specs.Units.{pages_of};
ghost use Rattle.coffee_layout.specs.Walks.{IsPlaced, measured_rules, named_rules, page_id};
ghost use Rattle.coffee_layout.specs.declared.unit.Unit.{Unit};

use crate::extents::{ExtentRule, first_failing};
use crate::file::{FileAt, Table};
use crate::measure::{first_oversized, measure_table};
use crate::memory::repeated_name;
use crate::naming::first_unlogged;
use crate::unit::BadImage;
use crate::units::judge_units;
use afl_base::{Failed, Flash, PageId};

/// Judges the image. `Ok(Ok(()))` comes exactly where the rules 1 to 13 hold: then `table` has the
/// active files, in page order, as they stand. Else the answer is the first broken rule, with the
/// first place at which it is broken, and what `table` has is of no meaning. The image stays, after
/// `Failed` too, and there are at most 400 reads for each page of the flash.
pub fn check<F: Flash>(flash: &mut F, table: &mut Table) -> Result<Result<(), BadImage>, Failed>
    ensures judged { IsTrue F.tells → IfOk result (λ r. MatchResult r
        (λ sound. (broken_image (F.image flash.old) ≡ None) × (table.new.items ≡ listed (F.image flash.old)))
        (λ bad. broken_image (F.image flash.old) ≡ Some bad)) }
    ensures fits { IfOk result (λ r. OnOk r (All (FitsIn (pages_of (F.image flash.old))) table.new.items)) }
    ensures reads { F.reads flash.new ≤ F.reads flash.old + 400 * pages_of (F.image flash.old) }
    ensures frame { OnlyReads F.image F.lent F.reads F.faults flash.old flash.new result }
{
    flash.sectors();
    table.clear();
    let extra = match judge_units(flash, table)? {
        Ok(extra) => extra,
        Err(bad) => return Ok(Err(bad)),
    };
    if let Some(bad) = at_place(5, extra) {
        return Ok(Err(bad));
    }
    if let Some(bad) = broken_named(flash, table)? {
        return Ok(Err(bad));
    }
    measure_table(flash, table)?;
    if let Some(bad) = broken_measured(flash, table)? {
        return Ok(Err(bad));
    }
    Ok(Ok(()))
}

// The first of the rules 6 to 10 that is broken: those that ask for no sizes.
fn broken_named<F: Flash>(flash: &mut F, table: &[FileAt]) -> Result<Option<BadImage>, Failed>
    requires few { length table.now ≤ 32 }
    requires placed { All (λ e. IsPlaced (pages_of (F.image flash.old)) e) table.now }
    ensures first { IsTrue F.tells → IfOk result
        (λ r. (us : List Unit) → IsTiled nowhere (F.image flash.old) us
        → table.now ≡ map (λ f. entry_with f 0 0) (files_in us)
        → r ≡ first_some (named_rules (F.image flash.old) us)) }
    ensures reads { F.reads flash.new ≤ F.reads flash.old + 32 + 92 * pages_of (F.image flash.old) }
    ensures frame { OnlyReads F.image F.lent F.reads F.faults flash.old flash.new result }
{
    if let Some(bad) = at_place(6, repeated_name(table)) {
        return Ok(Some(bad));
    }
    if let Some(bad) = at_place(7, first_failing(flash, table, ExtentRule::Fields)?) {
        return Ok(Some(bad));
    }
    if let Some(bad) = at_place(8, first_unlogged(flash, table)?) {
        return Ok(Some(bad));
    }
    if let Some(bad) = at_place(9, first_failing(flash, table, ExtentRule::Named)?) {
        return Ok(Some(bad));
    }
    Ok(at_place(10, first_failing(flash, table, ExtentRule::Filled)?))
}

// The first of the rules 11 to 13 that is broken: those that look at the sizes, and rule 12 between.
fn broken_measured<F: Flash>(flash: &mut F, table: &[FileAt]) -> Result<Option<BadImage>, Failed>
    ensures first { IsTrue F.tells → IfOk result
        (λ r. (us : List Unit) → IsTiled nowhere (F.image flash.old) us
        → table.now ≡ map (entry_of (F.image flash.old)) (files_in us)
        → r ≡ first_some (measured_rules (F.image flash.old) us)) }
    ensures reads { F.reads flash.new ≤ F.reads flash.old + 40 * pages_of (F.image flash.old) }
    ensures frame { OnlyReads F.image F.lent F.reads F.faults flash.old flash.new result }
{
    if let Some(bad) = at_place(11, first_failing(flash, table, ExtentRule::Inside)?) {
        return Ok(Some(bad));
    }
    if let Some(bad) = at_place(12, first_failing(flash, table, ExtentRule::Clear)?) {
        return Ok(Some(bad));
    }
    Ok(at_place(13, first_oversized(table)))
}

// The rule that is broken at a page.
fn at_place(rule: u8, page: Option<PageId>) -> Option<BadImage>
    ensures { (place : Option ℕ) → page ≡ option_map page_id place → result ≡ at_place rule place }
{
    match page {
        Some(page) => Some(BadImage {
            rule,
            place: page.0,
        }),
        None => None,
    }
}
