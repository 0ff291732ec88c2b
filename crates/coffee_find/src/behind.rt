ghost use Rattle.std.specs.Prelude.{◌≡◌, ◌≢◌, ℕ, ◌+◌, ◌*◌, ◌≤◌, ◌<◌, true, false, List, length, slice_index, slice_range, Some, None, IsTrue, IfNone, IfOk, IfSome};
ghost use Rattle.std.specs.List.{All, Contains};
ghost use Rattle.afl_base.specs.Keeping.{OnlyReads};
ghost use Rattle.coffee_cuts.specs.Cuts.{IsSettled, settled};
ghost use Rattle.coffee_find.specs.Found.{HasRecord, IsInFlash, IsSupersededAt, meant, without_record};
ghost use Rattle.coffee_find.specs.Search.{HasOtherFrom, IsBegunOf, IsFirstRegion, IsNextRecord, IsTornAtMost, NamesNone};
ghost use Rattle.coffee_layout.specs.FileBytes.{number_in, record_place, table_of};
ghost use Rattle.coffee_layout.specs.Files.{listed};
ghost use Rattle.coffee_layout.specs.Rules.{broken_image};
ghost use Rattle.coffee_layout.specs.Units.{pages_of};
ghost use Rattle.flash_views.specs.Views.{FitsImage, overlaid};

use crate::overlays::overlay_of;
use crate::trouble::{TornRecord, UnderWay};
use afl_base::{Failed, Flash, PageId, get_u16};
use coffee_layout::{FileAt, Table, check, read_table};
use coffee_log::read_file;
use flash_range::read_range;
use flash_views::{Handed, Overlay, View};

/// Whether a torn record may be superseded by the one behind it, or is being superseded.
pub(crate) fn is_superseded<F: Flash>(
    flash: &mut F,
    under_way: &UnderWay,
    torn: &TornRecord,
    table: &mut Table,
) -> Result<bool, Failed>
    requires lies { IsInFlash (length (F.image flash.old)) under_way.now }
    requires inside { HasRecord (length (F.image flash.old)) (Some torn.now) }
    requires low { torn.now.used < 29 }
    ensures yes { IsTrue F.tells → IsNextRecord (settled (F.image flash.old) (meant under_way.now)) torn.now
        → IfOk result (λ r. r ≡ true → IsSupersededAt (settled (F.image flash.old) (meant under_way.now)) torn.now) }
    ensures no { IsTrue F.tells → IsNextRecord (settled (F.image flash.old) (meant under_way.now)) torn.now
        → IsTornAtMost (settled (F.image flash.old) (meant under_way.now)) torn.now.log.0
        → IfOk result (λ r. r ≡ false → IsSettled (settled (F.image flash.old) (meant under_way.now)) → ⊥) }
    ensures reads { F.reads flash.new ≤ F.reads flash.old + 401 * pages_of (F.image flash.old) + 9 }
    ensures frame { OnlyReads F.image F.lent F.reads F.faults flash.old flash.new result }
{
    flash.sectors();
    let mut region = [0; 128];
    let Some(file) = region_of(flash, under_way, torn, table, &mut region)? else {
        return Ok(false);
    };
    let mut bytes = [0; 128];
    let number = behind_of(flash, under_way, torn, &mut bytes)?;
    Ok(is_begun(&bytes, &region, number, file.size))
}

// The file of a log and its first region, without a torn record, once what was under way is settled.
fn region_of<F: Flash>(
    flash: &mut F,
    under_way: &UnderWay,
    torn: &TornRecord,
    table: &mut Table,
    into: &mut [u8; 128],
) -> Result<Option<FileAt>, Failed>
    requires lies { IsInFlash (length (F.image flash.old)) under_way.now }
    requires inside { HasRecord (length (F.image flash.old)) (Some torn.now) }
    ensures region { IsTrue F.tells → IfOk result (λ o. IfSome o (λ f. IsFirstRegion
        (without_record (settled (F.image flash.old) (meant under_way.now)) (Some torn.now)) torn.now.log f into.new)) }
    ensures none { IsTrue F.tells → IfOk result (λ o. IfNone o (NamesNone
        (without_record (settled (F.image flash.old) (meant under_way.now)) (Some torn.now)) torn.now.log)) }
    ensures reads { F.reads flash.new ≤ F.reads flash.old + 400 * pages_of (F.image flash.old) + 3 }
    ensures frame { OnlyReads F.image F.lent F.reads F.faults flash.old flash.new result }
{
    let mut found = Ok(None);
    let record = Some(*torn);
    let overlay = overlay_of(under_way, &record);
    let _handed = region_through(Handed { flash }, overlay, torn.log, table, into, &mut found);
    found
}

// What stands behind a torn record, and the number of that, once what was under way is settled.
fn behind_of<F: Flash>(
    flash: &mut F,
    under_way: &UnderWay,
    torn: &TornRecord,
    into: &mut [u8; 128],
) -> Result<u16, Failed>
    requires lies { IsInFlash (length (F.image flash.old)) under_way.now }
    requires inside { HasRecord (length (F.image flash.old)) (Some torn.now) }
    requires low { torn.now.used < 29 }
    ensures bytes { IsTrue F.tells → IfOk result (λ n. into.new ≡ slice_range
        (settled (F.image flash.old) (meant under_way.now)) (torn.now.place + 128) (torn.now.place + 256)) }
    ensures number { IsTrue F.tells → IfOk result (λ n. n ≡ number_in
        (table_of (settled (F.image flash.old) (meant under_way.now)) torn.now.log.0) (torn.now.used + 1)) }
    ensures reads { F.reads flash.new ≤ F.reads flash.old + 4 }
    ensures frame { OnlyReads F.image F.lent F.reads F.faults flash.old flash.new result }
{
    let mut number = Ok(0);
    let none = None;
    let overlay = overlay_of(under_way, &none);
    let _handed = record_through(Handed { flash }, overlay, torn, into, &mut number);
    number
}

// The file of a log and its first region, of what a view reads.
fn region_through<F: Flash>(
    flash: F,
    overlay: Overlay,
    log: PageId,
    table: &mut Table,
    into: &mut [u8; 128],
    found: &mut Result<Option<FileAt>, Failed>,
) -> F
    requires inside { FitsImage (length (F.image flash)) overlay }
    ensures region { IsTrue F.tells → IfOk found.new (λ o. IfSome o
        (λ f. IsFirstRegion (overlaid (F.image flash) overlay) log f into.new)) }
    ensures none { IsTrue F.tells → IfOk found.new (λ o. IfNone o (NamesNone (overlaid (F.image flash) overlay) log)) }
    ensures reads { F.reads result ≤ F.reads flash + 400 * pages_of (F.image flash) + 3 }
    ensures frame { OnlyReads F.image F.lent F.reads F.faults flash result found.new }
{
    let mut view = View::new(flash, overlay);
    *found = first_region(&mut view, log, table, into);
    view.into_flash()
}

// The file of a log and its first region. `None` comes only where the image is not sound, or no file has
// the log.
fn first_region<F: Flash>(
    flash: &mut F,
    log: PageId,
    table: &mut Table,
    into: &mut [u8; 128],
) -> Result<Option<FileAt>, Failed>
    ensures region { IsTrue F.tells → IfOk result (λ o. IfSome o
        (λ f. IsFirstRegion (F.image flash.old) log f into.new)) }
    ensures none { IsTrue F.tells → IfOk result (λ o. IfNone o (NamesNone (F.image flash.old) log)) }
    ensures reads { F.reads flash.new ≤ F.reads flash.old + 400 * pages_of (F.image flash.old) + 3 }
    ensures frame { OnlyReads F.image F.lent F.reads F.faults flash.old flash.new result }
{
    flash.sectors();
    let Ok(()) = check(flash, table)? else {
        return Ok(None);
    };
    match file_of_log(table, log) {
        None => Ok(None),
        Some(file) => {
            read_file(flash, file.page, file.log, 0, into)?;
            Ok(Some(file))
        }
    }
}

// The first file in a table that has the log.
fn file_of_log(table: &[FileAt], log: PageId) -> Option<FileAt>
    ensures listed { IfSome result (λ e. Contains table.now e) }
    ensures log { IfSome result (λ e. e.log ≡ Some log) }
    ensures none { result ≡ None → All (λ e. e.log ≢ Some log) table.now }
{
    for file in table {
        if file.log == Some(log) {
            return Some(*file);
        }
    }
    None
}

// The bytes behind a torn record and the number of that, of what a view reads.
fn record_through<F: Flash>(
    flash: F,
    overlay: Overlay,
    torn: &TornRecord,
    into: &mut [u8; 128],
    number: &mut Result<u16, Failed>,
) -> F
    requires inside { FitsImage (length (F.image flash)) overlay }
    requires record { HasRecord (length (F.image flash)) (Some torn.now) }
    requires low { torn.now.used < 29 }
    ensures bytes { IsTrue F.tells → IfOk number.new (λ n. into.new
        ≡ slice_range (overlaid (F.image flash) overlay) (torn.now.place + 128) (torn.now.place + 256)) }
    ensures number { IsTrue F.tells → IfOk number.new (λ n. n
        ≡ number_in (table_of (overlaid (F.image flash) overlay) torn.now.log.0) (torn.now.used + 1)) }
    ensures reads { F.reads result ≤ F.reads flash + 4 }
    ensures frame { OnlyReads F.image F.lent F.reads F.faults flash result number.new }
{
    let mut view = View::new(flash, overlay);
    *number = record_behind(&mut view, torn, into);
    view.into_flash()
}

// The bytes behind a torn record, and the number of that.
fn record_behind<F: Flash>(
    flash: &mut F,
    torn: &TornRecord,
    into: &mut [u8; 128],
) -> Result<u16, Failed>
    requires record { HasRecord (length (F.image flash.old)) (Some torn.now) }
    requires low { torn.now.used < 29 }
    ensures bytes { IsTrue F.tells → IfOk result (λ n. into.new
        ≡ slice_range (F.image flash.old) (torn.now.place + 128) (torn.now.place + 256)) }
    ensures number { IsTrue F.tells → IfOk result (λ n. n
        ≡ number_in (table_of (F.image flash.old) torn.now.log.0) (torn.now.used + 1)) }
    ensures reads { F.reads flash.new ≤ F.reads flash.old + 4 }
    ensures frame { OnlyReads F.image F.lent F.reads F.faults flash.old flash.new result }
{
    flash.sectors();
    read_range(flash, torn.place + 128, into)?;
    let mut numbers = [0; 60];
    read_table(flash, torn.log.0, &mut numbers)?;
    Ok(get_u16(&numbers, 2 * usize::from(torn.used) + 2))
}

// Whether the bytes behind a torn record are a front part of a file's first region and zeros, with a
// number that goes with that.
fn is_begun(bytes: &[u8; 128], region: &[u8; 128], number: u16, size: u32) -> bool
    ensures yes { result ≡ true → IsBegunOf bytes.now region.now number size }
    ensures no { result ≡ false → IsBegunOf bytes.now region.now number size → ⊥ }
{
    let done = same_front(bytes, region);
    if number == 0 {
        is_zero_from(bytes, done)
    } else {
        number == 1 && done == 128 && 1 <= size
    }
}

// How many bytes two lists have in common from the front.
fn same_front(bytes: &[u8], region: &[u8]) -> usize
    requires bytes { length bytes.now ≡ 128 }
    requires region { length region.now ≡ 128 }
    ensures most { result ≤ 128 }
    ensures same { (k : ℕ) → k < result → slice_index bytes.now k ≡ slice_index region.now k }
    ensures differs { result < 128 → slice_index bytes.now result ≢ slice_index region.now result }
{
    let mut done = 0;
    while done < 128 {
        if bytes[done] != region[done] {
            return done;
        }
        done += 1;
    }
    done
}

// Whether all bytes from one on are zero.
fn is_zero_from(bytes: &[u8], from: usize) -> bool
    requires bytes { length bytes.now ≡ 128 }
    requires from { from ≤ 128 }
    ensures yes { result ≡ true → (k : ℕ) → from ≤ k → k < 128 → slice_index bytes.now k ≡ 0 }
    ensures no { result ≡ false → HasOtherFrom bytes.now from }
{
    let mut at = from;
    while at < 128 {
        if bytes[at] != 0 {
            return false;
        }
        at += 1;
    }
    true
}
