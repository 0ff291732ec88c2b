ghost use Rattle.std.specs.Prelude.{◌≡◌, ◌≢◌, ℕ, ◌+◌, ◌*◌, ◌≤◌, ◌<◌, true, false, List, length, None, Some, IsTrue, IfNone, IfOk, IfSome};
ghost use Rattle.afl_base.specs.Keeping.{OnlyReads};
ghost use Rattle.coffee_cuts.specs.Cuts.{IsFound, Replacing as was_replacing};
ghost use Rattle.coffee_find.specs.Found.{HasPage, IsInFlash, meant};
ghost use Rattle.coffee_find.specs.Guesses.{MendsBy, Means};
ghost use Rattle.coffee_find.specs.Search.{AreTwins, HasNoFile, IsFileAt, IsFileIn, IsNoFile, IsWanted};
ghost use Rattle.coffee_find.specs.declared.trouble.UnderWay.TheVariants.{Replacing};
ghost use Rattle.coffee_layout.specs.Files.{Placed, is_file};
ghost use Rattle.coffee_layout.specs.Units.{pages_of};

use crate::trouble::{PlacedFile, UnderWay};
use crate::walks::onward;
use afl_base::{Failed, Flash, Name, PageId};
use coffee_header::Header;
use coffee_layout::{Unit, next_unit};

/// Two active files of one name, where there are any among the first 33: the one that is dropped and the
/// one that is kept. Where the image mends by a file that was being replaced, they are the extents of that.
pub(crate) fn find_replaced<F: Flash>(flash: &mut F) -> Result<Option<UnderWay>, Failed>
    ensures found { IsTrue F.tells → IfOk result
        (λ o. IfSome o (λ u. IsFound (F.image flash.old) (meant u))) }
    ensures all { IsTrue F.tells → IfOk result (λ o. (dropped kept : Placed)
        → MendsBy (F.image flash.old) (was_replacing dropped kept) → Means (was_replacing dropped kept) o) }
    ensures inside { IfOk result (λ o. IfSome o (λ u. IsInFlash (length (F.image flash.old)) u)) }
    ensures reads { F.reads flash.new ≤ F.reads flash.old + 66 * pages_of (F.image flash.old) }
    ensures frame { OnlyReads F.image F.lent F.reads F.faults flash.old flash.new result }
{
    let pages = 16 * flash.sectors();
    let mut from: u16 = 0;
    for _turn in 0..33u16 {
        let Some(file) = file_from(flash, from, &None)? else {
            return Ok(None);
        };
        if let Some(twin) = twin_of(flash, &file)? {
            return Ok(in_order(&file, &twin));
        }
        from = file.page.0 + 1;
    }
    Ok(None)
}

// The first active file after one that has its name.
fn twin_of<F: Flash>(flash: &mut F, file: &PlacedFile) -> Result<Option<PlacedFile>, Failed>
    requires page { HasPage (length (F.image flash.old)) file.now.page.0 }
    ensures file { IsTrue F.tells → IfOk result (λ r. IfSome r (λ f. IsFileIn (F.image flash.old) f)) }
    ensures behind { IfOk result (λ r. IfSome r (λ f. file.now.page.0 < f.page.0)) }
    ensures named { IfOk result (λ r. IfSome r (λ f. f.header.name ≡ file.now.header.name)) }
    ensures none { IsTrue F.tells → IfOk result (λ r. IfNone r
        ((to : ℕ) → HasNoFile (F.image flash.old) (file.now.page.0 + 1) to
        (Some file.now.header.name))) }
    ensures inside { IfOk result (λ r. IfSome r (λ f. HasPage (length (F.image flash.old)) f.page.0)) }
    ensures reads { F.reads flash.new ≤ F.reads flash.old + pages_of (F.image flash.old) }
    ensures frame { OnlyReads F.image F.lent F.reads F.faults flash.old flash.new result }
{
    flash.sectors();
    let name = Some(file.header.name);
    let twin = file_from(flash, file.page.0 + 1, &name)?;
    Ok(twin)
}

// The first active file from a page on, of a name if one is given.
fn file_from<F: Flash>(
    flash: &mut F,
    from: u16,
    name: &Option<Name>,
) -> Result<Option<PlacedFile>, Failed>
    ensures file { IsTrue F.tells → IfOk result (λ r. IfSome r (λ f. IsFileIn (F.image flash.old) f)) }
    ensures from { IfOk result (λ r. IfSome r (λ f. from ≤ f.page.0)) }
    ensures named { IfOk result (λ r. IfSome r (λ f. IsWanted name.now f.header.name)) }
    ensures first { IsTrue F.tells → IfOk result
        (λ r. IfSome r (λ f. HasNoFile (F.image flash.old) from f.page.0 name.now)) }
    ensures none { IsTrue F.tells → IfOk result
        (λ r. IfNone r ((to : ℕ) → HasNoFile (F.image flash.old) from to name.now)) }
    ensures inside { IfOk result (λ r. IfSome r (λ f. HasPage (length (F.image flash.old)) f.page.0)) }
    ensures reads { F.reads flash.new ≤ F.reads flash.old + pages_of (F.image flash.old) }
    ensures frame { OnlyReads F.image F.lent F.reads F.faults flash.old flash.new result }
{
    let pages = 16 * flash.sectors();
    let mut at: u16 = 0;
    while at < pages {
        let Some(unit) = next_unit(flash, PageId(at))? else {
            return Ok(None);
        };
        if let Some(file) = wanted_file(at, &unit, from, name) {
            return Ok(Some(file));
        }
        let Some(next) = onward(at, &unit, pages) else {
            return Ok(None);
        };
        at = next;
    }
    Ok(None)
}

// The file that a unit is, where it is an active one that is looked for.
fn wanted_file(page: u16, unit: &Unit, from: u16, name: &Option<Name>) -> Option<PlacedFile>
    ensures file { IfSome result (λ f. IsFileAt unit.now page f) }
    ensures from { IfSome result (λ f. from ≤ page) }
    ensures named { IfSome result (λ f. IsWanted name.now f.header.name) }
    ensures none { IfNone result (IsNoFile unit.now page from name.now) }
{
    match unit {
        Unit::Free => None,
        Unit::Isolated => None,
        Unit::Extent(header) => if from <= page
            && is_file(header)
            && is_wanted(&header.name, name)
        {
            Some(PlacedFile {
                page: PageId(page),
                header: *header,
            })
        } else {
            None
        },
    }
}

// Whether an extent with this header is an active file.
fn is_file(header: &Header) -> bool
    ensures { (page : ℕ) → result ≡ is_file (record { page = page; header = header.now }) }
{
    header.flags == 3 || header.flags == 11
}

// Whether a name is the one that is looked for.
fn is_wanted(name: &Name, wanted: &Option<Name>) -> bool
    ensures yes { result ≡ true → IsWanted wanted.now name.now }
    ensures no { result ≡ false → IsWanted wanted.now name.now → ⊥ }
{
    match wanted {
        None => true,
        Some(wanted) => *name == *wanted,
    }
}

// Which of two files of one name is dropped, where the first stands before the second.
fn in_order(first: &PlacedFile, second: &PlacedFile) -> Option<UnderWay>
    ensures found { IfSome result (λ u. (image : List ℕ) → AreTwins image first.now second.now
        → IsFound image (meant u)) }
    ensures all { (image : List ℕ) (pages : ℕ) (dropped kept : Placed) → length image ≡ 256 * pages
        → AreTwins image first.now second.now → MendsBy image (was_replacing dropped kept)
        → Means (was_replacing dropped kept) result }
    ensures inside { IfSome result (λ u. (size : ℕ) → HasPage size first.now.page.0
        → HasPage size second.now.page.0 → IsInFlash size u) }
{
    if is_first_kept(&first.header, &second.header) {
        replacing(second, first)
    } else {
        replacing(first, second)
    }
}

// Whether the first of two files is the one to keep: the second has no log, and the first has one, or
// more pages.
fn is_first_kept(first: &Header, second: &Header) -> bool
    ensures yes { result ≡ true → (second.now.log_page ≡ 0)
        × (first.now.log_page ≡ 0 → second.now.max_pages < first.now.max_pages) }
    ensures no { result ≡ false → second.now.log_page ≡ 0
        → (first.now.log_page ≡ 0) × (first.now.max_pages ≤ second.now.max_pages) }
{
    if second.log_page != 0 {
        return false;
    }
    if first.log_page != 0 {
        return true;
    }
    second.max_pages < first.max_pages
}

// The file that is dropped has no log.
fn replacing(dropped: &PlacedFile, kept: &PlacedFile) -> Option<UnderWay>
    ensures found { IfSome result (λ u. (u ≡ Replacing dropped.now kept.now)
        × (dropped.now.header.flags ≡ 3) × (dropped.now.header.log_page ≡ 0)) }
    ensures none { IfNone result (dropped.now.header.flags ≡ 3 → dropped.now.header.log_page ≢ 0) }
{
    if dropped.header.flags != 3 {
        return None;
    }
    if dropped.header.log_page != 0 {
        return None;
    }
    Some(UnderWay::Replacing {
        dropped: *dropped,
        kept: *kept,
    })
}
