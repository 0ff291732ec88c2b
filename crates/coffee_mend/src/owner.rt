ghost use Rattle.std.specs.Prelude.{◌≡◌, ◌≢◌, ◌*◌, true, false, None, Some, length, IsTrue, IfOk, IfSome};
ghost use Rattle.std.specs.List.{All, Contains};
ghost use Rattle.afl_base.specs.Keeping.{OnlyReads};
ghost use Rattle.coffee_cuts.specs.Cuts.{IsActiveAt};
ghost use Rattle.coffee_find.specs.Found.{HasRecord, without_record};
ghost use Rattle.coffee_find.specs.Search.{IsFirstRegion};
ghost use Rattle.coffee_layout.specs.Files.{FitsIn};
ghost use Rattle.coffee_layout.specs.Rules.{broken_image};
ghost use Rattle.coffee_layout.specs.Units.{pages_of};
ghost use Rattle.coffee_merge.specs.Holding.{has_shape};
ghost use Rattle.flash_views.specs.Views.{FitsImage, overlaid};

use afl_base::{Failed, Flash, Kind, PageId};
use coffee_find::{TornRecord, UnderWay, overlay_of};
use coffee_layout::{FileAt, Table, check, is_doubling};
use coffee_log::read_file;
use flash_views::{Handed, Overlay, View};

/// The file of a log and its first region, in the image without a torn record. `None` comes only where that
/// image is not sound, or the log is not active in it.
pub(crate) fn owner_beside<F: Flash>(
    flash: &mut F,
    torn: &TornRecord,
    into: &mut [u8; 128],
) -> Result<Option<FileAt>, Failed>
    requires inside { HasRecord (length (F.image flash.old)) (Some torn.now) }
    ensures owner { IsTrue F.tells → IfOk result (λ o. IfSome o (λ f. IsFirstRegion
        (without_record (F.image flash.old) (Some torn.now)) torn.now.log f into.new)) }
    ensures known { IsTrue F.tells → broken_image (without_record (F.image flash.old) (Some torn.now)) ≡ None
        → IsActiveAt (without_record (F.image flash.old) (Some torn.now)) torn.now.log.0 19
        → IfOk result (λ o. o ≢ None) }
    ensures fits { IfOk result (λ o. IfSome o (FitsIn (pages_of (F.image flash.old)))) }
    ensures shape { IfOk result (λ o. IfSome o (λ e. has_shape e.kind e.pages ≡ true)) }
    ensures frame { OnlyReads F.image F.lent F.reads F.faults flash.old flash.new result }
{
    let mut found = Ok(None);
    let record = Some(*torn);
    let overlay = overlay_of(&UnderWay::Nothing, &record);
    let _handed = owner_through(Handed { flash }, overlay, torn.log, into, &mut found);
    found
}

// The same through a view.
fn owner_through<F: Flash>(
    flash: F,
    overlay: Overlay,
    log: PageId,
    into: &mut [u8; 128],
    found: &mut Result<Option<FileAt>, Failed>,
) -> F
    requires inside { FitsImage (length (F.image flash)) overlay }
    ensures owner { IsTrue F.tells → IfOk found.new (λ o. IfSome o
        (λ f. IsFirstRegion (overlaid (F.image flash) overlay) log f into.new)) }
    ensures known { IsTrue F.tells → broken_image (overlaid (F.image flash) overlay) ≡ None
        → IsActiveAt (overlaid (F.image flash) overlay) log.0 19 → IfOk found.new (λ o. o ≢ None) }
    ensures fits { IfOk found.new (λ o. IfSome o (FitsIn (pages_of (overlaid (F.image flash) overlay)))) }
    ensures shape { IfOk found.new (λ o. IfSome o (λ e. has_shape e.kind e.pages ≡ true)) }
    ensures frame { OnlyReads F.image F.lent F.reads F.faults flash result found.new }
{
    let mut view = View::new(flash, overlay);
    *found = owner(&mut view, log, into);
    view.into_flash()
}

// The file of a log and its first region.
fn owner<F: Flash>(
    flash: &mut F,
    log: PageId,
    into: &mut [u8; 128],
) -> Result<Option<FileAt>, Failed>
    ensures owner { IsTrue F.tells → IfOk result (λ o. IfSome o
        (λ f. IsFirstRegion (F.image flash.old) log f into.new)) }
    ensures known { IsTrue F.tells → broken_image (F.image flash.old) ≡ None
        → IsActiveAt (F.image flash.old) log.0 19 → IfOk result (λ o. o ≢ None) }
    ensures fits { IfOk result (λ o. IfSome o (FitsIn (pages_of (F.image flash.old)))) }
    ensures shape { IfOk result (λ o. IfSome o (λ e. has_shape e.kind e.pages ≡ true)) }
    ensures frame { OnlyReads F.image F.lent F.reads F.faults flash.old flash.new result }
{
    flash.sectors();
    let mut table = Table::new();
    let Ok(()) = check(flash, &mut table)? else {
        return Ok(None);
    };
    match file_of_log(&table, log) {
        None => Ok(None),
        Some(file) => {
            read_file(flash, file.page, file.log, 0, into)?;
            Ok(Some(file))
        }
    }
}

// The first file in a table that has the log, and the pages of its kind.
fn file_of_log(table: &[FileAt], log: PageId) -> Option<FileAt>
    ensures listed { IfSome result (λ e. Contains table.now e) }
    ensures log { IfSome result (λ e. e.log ≡ Some log) }
    ensures shape { IfSome result (λ e. has_shape e.kind e.pages ≡ true) }
    ensures none { result ≡ None
        → All (λ e. e.log ≡ Some log → has_shape e.kind e.pages ≡ false) table.now }
{
    for file in table {
        if file.log == Some(log) && has_shape(file) {
            return Some(*file);
        }
    }
    None
}

// Whether the pages of a file are those of its kind: 16 * 2^j, or 1 to 15.
fn has_shape(at: &FileAt) -> bool
    ensures { result ≡ has_shape at.now.kind at.now.pages }
{
    match at.kind {
        Kind::Doubling => is_doubling(at.pages),
        Kind::Fixed(n) => n == at.pages && 1 <= n && n <= 15,
    }
}
