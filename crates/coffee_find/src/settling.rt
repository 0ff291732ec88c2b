ghost use Rattle.std.specs.Prelude.{◌≡◌, ◌≢◌, ◌⊎◌, ℕ, ◌+◌, ◌*◌, ◌≤◌, true, false, length, Some, None, IsTrue, IfNone, IfOk, IfSome};
ghost use Rattle.afl_base.specs.Keeping.{OnlyReads};
ghost use Rattle.afl_base.specs.Image.{zeros_at};
ghost use Rattle.coffee_cuts.specs.Cuts.{IsActiveAt, IsSettled, settled};
ghost use Rattle.coffee_find.specs.Found.{HasPage, HasRecord, IsSoundBut, IsInFlash, IsTroubleInside, meant, without_record};
ghost use Rattle.coffee_find.specs.Search.{HasFlags, HasTorn, IsNextRecord, IsTornAtMost, IsVerdict, MissesNone};
ghost use Rattle.coffee_layout.specs.Rules.{broken_image};
ghost use Rattle.coffee_layout.specs.Units.{is_active_flags, pages_of};
ghost use Rattle.flash_views.specs.Views.{FitsImage, overlaid};

use crate::behind::is_superseded;
use crate::overlays::overlay_of;
use crate::trouble::{TornRecord, Trouble, UnderWay};
use crate::walks::begun;
use afl_base::{Failed, Flash, PageId, SECTOR_SIZE};
use coffee_layout::{Table, Unit, check, read_table, records_used};
use flash_views::{Handed, Overlay, View};

// What is said of an image.
#[derive(Clone, Copy)]
pub(crate) enum Verdict {
    Sound,
    // It breaks a rule, and a record may be torn.
    Torn(TornRecord),
    // It breaks a rule.
    Broken,
}

// Judges an image, and says which record may be torn where rule 12 is the first that is broken, or 10.
pub(crate) fn judged<F: Flash>(flash: &mut F, table: &mut Table) -> Result<Verdict, Failed>
    ensures verdict { IsTrue F.tells → IfOk result (λ v. IsVerdict (F.image flash.old) v) }
    ensures misses { IsTrue F.tells → IfOk result (λ v. MissesNone (F.image flash.old) v) }
    ensures inside { IfOk result (λ v. HasTorn (length (F.image flash.old)) v) }
    ensures reads { F.reads flash.new ≤ F.reads flash.old + 401 * pages_of (F.image flash.old) + 1 }
    ensures frame { OnlyReads F.image F.lent F.reads F.faults flash.old flash.new result }
{
    flash.sectors();
    match check(flash, table)? {
        Ok(()) => Ok(Verdict::Sound),
        Err(bad) => if is_of_record(bad.rule) {
            torn_record(flash, PageId(bad.place))
        } else {
            Ok(Verdict::Broken)
        },
    }
}

// Whether a rule is one that is broken by a torn record, or by one that supersedes such a one.
fn is_of_record(rule: u8) -> bool
    ensures yes { result ≡ true → (rule ≡ 12) ⊎ (rule ≡ 10) }
    ensures no { result ≡ false → (rule ≢ 12) × (rule ≢ 10) }
{
    rule == 12 || rule == 10
}

// The next record of the active log that begins at a page.
fn torn_record<F: Flash>(flash: &mut F, log: PageId) -> Result<Verdict, Failed>
    ensures verdict { IsTrue F.tells → IfOk result (λ v. IsVerdict (F.image flash.old) v) }
    ensures misses { IsTrue F.tells → IsTornAtMost (F.image flash.old) log.0
        → IfOk result (λ v. MissesNone (F.image flash.old) v) }
    ensures inside { IfOk result (λ v. HasTorn (length (F.image flash.old)) v) }
    ensures reads { F.reads flash.new ≤ F.reads flash.old + pages_of (F.image flash.old) + 1 }
    ensures frame { OnlyReads F.image F.lent F.reads F.faults flash.old flash.new result }
{
    flash.sectors();
    if !is_active_at(flash, log, 19)? {
        return Ok(Verdict::Broken);
    }
    let size = SECTOR_SIZE as u32 * u32::from(flash.sectors());
    let mut table = [0; 60];
    read_table(flash, log.0, &mut table)?;
    let used = records_used(&table) as u32;
    let page = 256 * u32::from(log.0);
    if is_full(used) || size < page + 4096 {
        return Ok(Verdict::Broken);
    }
    let place = page + 96 + 128 * used;
    let used = used as u16;
    Ok(Verdict::Torn(TornRecord { log, used, place }))
}

// Whether a log with this many records in use has none left.
fn is_full(used: u32) -> bool
    ensures yes { result ≡ true → used ≡ 30 }
    ensures no { result ≡ false → used ≢ 30 }
{
    used == 30
}

// Whether an active extent with these flags begins at a page.
fn is_active_at<F: Flash>(flash: &mut F, page: PageId, flags: u8) -> Result<bool, Failed>
    requires active { is_active_flags flags ≡ true }
    ensures active { IsTrue F.tells → IfOk result
        (λ r. r ≡ true → IsActiveAt (F.image flash.old) page.0 flags) }
    ensures none { IsTrue F.tells → IfOk result
        (λ r. r ≡ false → IsActiveAt (F.image flash.old) page.0 flags → ⊥) }
    ensures inside { IfOk result (λ r. r ≡ true → HasPage (length (F.image flash.old)) page.0) }
    ensures reads { F.reads flash.new ≤ F.reads flash.old + pages_of (F.image flash.old) }
    ensures frame { OnlyReads F.image F.lent F.reads F.faults flash.old flash.new result }
{
    match begun(flash, page)? {
        Some(unit) => Ok(has_flags(&unit, flags)),
        None => Ok(false),
    }
}

// Whether a unit is an extent with these flags.
fn has_flags(unit: &Unit, flags: u8) -> bool
    ensures yes { result ≡ true → HasFlags unit.now flags }
    ensures no { result ≡ false → HasFlags unit.now flags → ⊥ }
{
    match unit {
        Unit::Free => false,
        Unit::Isolated => false,
        Unit::Extent(header) => header.flags == flags,
    }
}

// Judges what an image is once what was under way is settled, without a torn record.
fn settled_verdict<F: Flash>(
    flash: &mut F,
    under_way: &UnderWay,
    torn: &Option<TornRecord>,
    table: &mut Table,
) -> Result<Verdict, Failed>
    requires lies { IsInFlash (length (F.image flash.old)) under_way.now }
    requires torn { HasRecord (length (F.image flash.old)) torn.now }
    ensures verdict { IsTrue F.tells → IfOk result
        (λ v. IsVerdict (without_record (settled (F.image flash.old) (meant under_way.now)) torn.now) v) }
    ensures misses { IsTrue F.tells → IfOk result
        (λ v. MissesNone (without_record (settled (F.image flash.old) (meant under_way.now)) torn.now) v) }
    ensures inside { IfOk result (λ v. HasTorn (length (F.image flash.old)) v) }
    ensures reads { F.reads flash.new ≤ F.reads flash.old + 401 * pages_of (F.image flash.old) + 1 }
    ensures frame { OnlyReads F.image F.lent F.reads F.faults flash.old flash.new result }
{
    let mut found = Ok(Verdict::Broken);
    let overlay = overlay_of(under_way, torn);
    let _handed = settled_through(Handed { flash }, overlay, table, &mut found);
    found
}

// The same through a view.
fn settled_through<F: Flash>(
    flash: F,
    overlay: Overlay,
    table: &mut Table,
    found: &mut Result<Verdict, Failed>,
) -> F
    requires inside { FitsImage (length (F.image flash)) overlay }
    ensures verdict { IsTrue F.tells → IfOk found.new (λ v. IsVerdict (overlaid (F.image flash) overlay) v) }
    ensures misses { IsTrue F.tells → IfOk found.new (λ v. MissesNone (overlaid (F.image flash) overlay) v) }
    ensures inside { IfOk found.new (λ v. HasTorn (length (F.image flash)) v) }
    ensures reads { F.reads result ≤ F.reads flash + 401 * pages_of (F.image flash) + 1 }
    ensures frame { OnlyReads F.image F.lent F.reads F.faults flash result found.new }
{
    let mut view = View::new(flash, overlay);
    *found = judged(&mut view, table);
    view.into_flash()
}

/// What a cut left of an image in which this was under way: None where the image is not sound once
/// that is settled, a torn record aside.
pub(crate) fn settle<F: Flash>(
    flash: &mut F,
    under_way: UnderWay,
    table: &mut Table,
) -> Result<Option<Trouble>, Failed>
    requires lies { IsInFlash (length (F.image flash.old)) under_way }
    ensures settles { IsTrue F.tells → IfOk result (λ o. IfSome o
        (λ t. (t.under_way ≡ under_way) × IsSoundBut (settled (F.image flash.old) (meant under_way)) t.torn)) }
    ensures none { IsTrue F.tells → IfOk result (λ o. IfNone o
        (IsSettled (settled (F.image flash.old) (meant under_way)) → ⊥)) }
    ensures inside { IfOk result (λ o. IfSome o (λ t. IsTroubleInside (length (F.image flash.old)) t)) }
    ensures reads { F.reads flash.new ≤ F.reads flash.old + 802 * pages_of (F.image flash.old) + 10 }
    ensures frame { OnlyReads F.image F.lent F.reads F.faults flash.old flash.new result }
{
    let none = None;
    match settled_verdict(flash, &under_way, &none, table)? {
        Verdict::Sound => {
            let torn = None;
            Ok(Some(Trouble { under_way, torn }))
        }
        Verdict::Torn(record) => {
            if is_torn(flash, &under_way, &record, table)? {
                let torn = Some(record);
                Ok(Some(Trouble { under_way, torn }))
            } else {
                Ok(None)
            }
        }
        Verdict::Broken => Ok(None),
    }
}

// Whether a record is torn, of an image that is sound but for it.
fn is_torn<F: Flash>(
    flash: &mut F,
    under_way: &UnderWay,
    torn: &TornRecord,
    table: &mut Table,
) -> Result<bool, Failed>
    requires lies { IsInFlash (length (F.image flash.old)) under_way.now }
    requires inside { HasRecord (length (F.image flash.old)) (Some torn.now) }
    ensures yes { IsTrue F.tells → IsNextRecord (settled (F.image flash.old) (meant under_way.now)) torn.now
        → IfOk result (λ r. r ≡ true → IsSoundBut (settled (F.image flash.old) (meant under_way.now)) (Some torn.now)) }
    ensures no { IsTrue F.tells → IsNextRecord (settled (F.image flash.old) (meant under_way.now)) torn.now
        → IsTornAtMost (settled (F.image flash.old) (meant under_way.now)) torn.now.log.0
        → IfOk result (λ r. r ≡ false → IsSettled (settled (F.image flash.old) (meant under_way.now)) → ⊥) }
    ensures reads { F.reads flash.new ≤ F.reads flash.old + 401 * pages_of (F.image flash.old) + 9 }
    ensures frame { OnlyReads F.image F.lent F.reads F.faults flash.old flash.new result }
{
    flash.sectors();
    if torn.used < 29 {
        is_superseded(flash, under_way, torn, table)
    } else {
        is_last_torn(flash, under_way, torn, table)
    }
}

// Whether the image is sound but for the last record of a log.
fn is_last_torn<F: Flash>(
    flash: &mut F,
    under_way: &UnderWay,
    torn: &TornRecord,
    table: &mut Table,
) -> Result<bool, Failed>
    requires lies { IsInFlash (length (F.image flash.old)) under_way.now }
    requires inside { HasRecord (length (F.image flash.old)) (Some torn.now) }
    requires last { 29 ≤ torn.now.used }
    ensures yes { IsTrue F.tells → IfOk result (λ r. r ≡ true
        → broken_image (zeros_at (settled (F.image flash.old) (meant under_way.now)) torn.now.place 128) ≡ None) }
    ensures no { IsTrue F.tells → IfOk result (λ r. r ≡ false
        → broken_image (zeros_at (settled (F.image flash.old) (meant under_way.now)) torn.now.place 128) ≡ None → ⊥) }
    ensures reads { F.reads flash.new ≤ F.reads flash.old + 401 * pages_of (F.image flash.old) + 1 }
    ensures frame { OnlyReads F.image F.lent F.reads F.faults flash.old flash.new result }
{
    let record = Some(*torn);
    match settled_verdict(flash, under_way, &record, table)? {
        Verdict::Sound => Ok(true),
        Verdict::Torn(_) | Verdict::Broken => Ok(false),
    }
}
