ghost use Rattle.std.specs.Prelude.{◌≡◌, ◌≢◌, ◌+◌, ◌*◌, ◌≤◌, length, None, IsTrue, IfNone, IfOk, IfSome, Some};
ghost use Rattle.afl_base.specs.Keeping.{OnlyReads};
ghost use Rattle.coffee_find.specs.Found.{IsCutBy, IsJudgedInside, IsJudged, IsTroubleInside, MendsToNone};
ghost use Rattle.coffee_find.specs.Guesses.{IsHeadWrong, IsWrong};
ghost use Rattle.coffee_layout.specs.Rules.{broken_image};
ghost use Rattle.coffee_layout.specs.Units.{pages_of};

use crate::finding::{Guess, find};
use crate::settling::settle;
use crate::trouble::{Judgement, Trouble};
use afl_base::{Failed, Flash, PageId};
use coffee_layout::{BadImage, Table, check};

/// Judges the image by reading alone; it stays as it was, after `Failed` too. `Sound` comes exactly
/// where the rules 1 to 13 hold. `Cut` says what was under way when a run ended, and which record is
/// torn: once that is settled, the image is sound. `Strange` comes exactly where the image breaks a
/// rule and mends to no files. At most 4,000 reads for each page.
pub fn judge<F: Flash>(flash: &mut F) -> Result<Judgement, Failed>
    ensures judged { IsTrue F.tells → IfOk result (λ j. IsJudged (F.image flash.old) j) }
    ensures inside { IfOk result (λ j. IsJudgedInside (length (F.image flash.old)) j) }
    ensures reads { F.reads flash.new ≤ F.reads flash.old + 4000 * pages_of (F.image flash.old) }
    ensures frame { OnlyReads F.image F.lent F.reads F.faults flash.old flash.new result }
{
    flash.sectors();
    let mut table = Table::new();
    match check(flash, &mut table)? {
        Ok(()) => Ok(Judgement::Sound),
        Err(bad) => judge_broken(flash, bad, &mut table),
    }
}

// The same of an image that breaks a rule.
fn judge_broken<F: Flash>(
    flash: &mut F,
    bad: BadImage,
    table: &mut Table,
) -> Result<Judgement, Failed>
    ensures judged { IsTrue F.tells → broken_image (F.image flash.old) ≡ Some bad
        → IfOk result (λ j. IsJudged (F.image flash.old) j) }
    ensures inside { IfOk result (λ j. IsJudgedInside (length (F.image flash.old)) j) }
    ensures reads { F.reads flash.new ≤ F.reads flash.old + 2607 * pages_of (F.image flash.old) + 84 }
    ensures frame { OnlyReads F.image F.lent F.reads F.faults flash.old flash.new result }
{
    match search(flash, &bad, table)? {
        Some(trouble) => Ok(Judgement::Cut(trouble)),
        None => Ok(Judgement::Strange(bad)),
    }
}

// What a cut left, by the rule that is broken first.
fn search<F: Flash>(
    flash: &mut F,
    bad: &BadImage,
    table: &mut Table,
) -> Result<Option<Trouble>, Failed>
    ensures found { IsTrue F.tells → IfOk result (λ o. IfSome o (λ t. IsCutBy (F.image flash.old) t)) }
    ensures none { IsTrue F.tells → broken_image (F.image flash.old) ≡ Some bad.now
        → IfOk result (λ o. IfNone o (MendsToNone (F.image flash.old))) }
    ensures inside { IfOk result (λ o. IfSome o (λ t. IsTroubleInside (length (F.image flash.old)) t)) }
    ensures reads { F.reads flash.new ≤ F.reads flash.old + 2607 * pages_of (F.image flash.old) + 84 }
    ensures frame { OnlyReads F.image F.lent F.reads F.faults flash.old flash.new result }
{
    flash.sectors();
    let page = PageId(bad.place);
    match bad.rule {
        1 => search_head(flash, page, table),
        2 | 3 | 4 => search_for(flash, Guess::Erased, page, table),
        5 | 6 => search_for(flash, Guess::Replaced, page, table),
        7 | 8 | 9 => search_for(flash, Guess::Header, page, table),
        10 => search_for(flash, Guess::Nothing, page, table),
        12 => search_for(flash, Guess::Nothing, page, table),
        _ => Ok(None),
    }
}

// Where no unit may begin as it does: an extent under construction, a header that was being written,
// or a sector that was being erased.
fn search_head<F: Flash>(
    flash: &mut F,
    page: PageId,
    table: &mut Table,
) -> Result<Option<Trouble>, Failed>
    ensures found { IsTrue F.tells → IfOk result (λ o. IfSome o (λ t. IsCutBy (F.image flash.old) t)) }
    ensures none { IsTrue F.tells → IfOk result
        (λ o. IfNone o (IsHeadWrong (F.image flash.old) page.0)) }
    ensures inside { IfOk result (λ o. IfSome o (λ t. IsTroubleInside (length (F.image flash.old)) t)) }
    ensures reads { F.reads flash.new ≤ F.reads flash.old + 2607 * pages_of (F.image flash.old) + 84 }
    ensures frame { OnlyReads F.image F.lent F.reads F.faults flash.old flash.new result }
{
    if let Some(trouble) = search_for(flash, Guess::Header, page, table)? {
        return Ok(Some(trouble));
    }
    if let Some(trouble) = search_for(flash, Guess::TornHeader, page, table)? {
        return Ok(Some(trouble));
    }
    search_for(flash, Guess::Erased, page, table)
}

// What a cut left, where it is what is guessed.
fn search_for<F: Flash>(
    flash: &mut F,
    guess: Guess,
    page: PageId,
    table: &mut Table,
) -> Result<Option<Trouble>, Failed>
    ensures found { IsTrue F.tells → IfOk result (λ o. IfSome o (λ t. IsCutBy (F.image flash.old) t)) }
    ensures none { IsTrue F.tells → IfOk result
        (λ o. IfNone o (IsWrong (F.image flash.old) page.0 guess)) }
    ensures inside { IfOk result (λ o. IfSome o (λ t. IsTroubleInside (length (F.image flash.old)) t)) }
    ensures reads { F.reads flash.new ≤ F.reads flash.old + 869 * pages_of (F.image flash.old) + 28 }
    ensures frame { OnlyReads F.image F.lent F.reads F.faults flash.old flash.new result }
{
    match find(flash, guess, page)? {
        Some(under_way) => settle(flash, under_way, table),
        None => Ok(None),
    }
}
