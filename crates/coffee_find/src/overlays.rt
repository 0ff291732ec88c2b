ghost use Rattle.std.specs.Prelude.{◌≡◌, ℕ, ◌+◌, ◌*◌, ◌≤◌, ◌<◌, List, Some};
ghost use Rattle.coffee_cuts.specs.Cuts.{settled};
ghost use Rattle.coffee_find.specs.Found.{HasRecord, IsInFlash, meant, without_record};
ghost use Rattle.coffee_layout.specs.FileBytes.{record_place};
ghost use Rattle.flash_views.specs.Views.{FitsImage, blanked, cleared, overlaid};
ghost use Rattle.flash_views.specs.declared.overlay.Two.{Two as TwoRecords};

use crate::trouble::{TornRecord, UnderWay};
use afl_base::PageId;
use flash_views::{Mark, Overlay, Two};

/// The writes that settle what was under way, and zeros in the place of a torn record besides, and of the
/// one behind it.
pub fn overlay_of(under_way: &UnderWay, torn: &Option<TornRecord>) -> Overlay
    ensures settled { (image : List ℕ)
        → overlaid image result ≡ without_record (settled image (meant under_way.now)) torn.now }
    ensures inside { (size : ℕ) → IsInFlash size under_way.now → HasRecord size torn.now → FitsImage size result }
{
    match torn {
        None => overlay_with(under_way, None, None),
        Some(torn) => if torn.used < 29 {
            overlay_with(under_way, None, Some(two_of(torn)))
        } else {
            overlay_with(under_way, Some(torn.place), None)
        },
    }
}

// The torn record and the one behind it, with the number of that.
fn two_of(torn: &TornRecord) -> Two
    requires few { torn.now.used < 29 }
    ensures records { result.records ≡ record_place torn.now.log.0 torn.now.used }
    ensures number { result.number ≡ 256 * torn.now.log.0 + 34 + 2 * torn.now.used }
{
    let page = 256 * u32::from(torn.log.0);
    let used = u32::from(torn.used);
    Two {
        records: page + 96 + 128 * used,
        number: page + 34 + 2 * used,
    }
}

// The same with what is zero.
fn overlay_with(under_way: &UnderWay, blank: Option<u32>, two: Option<Two>) -> Overlay
    ensures settled { (image : List ℕ)
        → overlaid image result ≡ cleared (blanked (settled image (meant under_way.now)) blank) two }
    ensures inside { (size : ℕ) → IsInFlash size under_way.now
        → ((p : ℕ) → blank ≡ Some p → p + 128 ≤ size)
        → ((t : TwoRecords) → two ≡ Some t → t.records + 256 ≤ size)
        → ((t : TwoRecords) → two ≡ Some t → t.number + 2 ≤ size) → FitsImage size result }
{
    let mut overlay = Overlay::nothing();
    overlay.blank = blank;
    overlay.two = two;
    match under_way {
        UnderWay::Nothing => {}
        UnderWay::Beginning { page } => overlay.first = mark(*page, 34),
        UnderWay::Building { page } => overlay.first = mark(*page, 5),
        UnderWay::Erasing { sector, page: _ } => overlay.sector = Some(*sector),
        UnderWay::Unnamed { log } => overlay.first = mark(*log, 4),
        UnderWay::Naming { page } => overlay.first = mark(*page, 8),
        UnderWay::Replacing { dropped, kept: _ } => overlay.first = mark(dropped.page, 4),
    }
    overlay
}

// Bits more in the header at a page.
fn mark(page: PageId, bits: u8) -> Option<Mark>
    ensures { result ≡ Some (record { page = page; bits = bits }) }
{
    Some(Mark { page, bits })
}
