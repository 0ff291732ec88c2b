ghost use Rattle.std.specs.Prelude.{◌≡◌, ℕ, ◌+◌, ◌*◌, ◌≤◌, List, [], ◌∷◌, length, Some};
ghost use Rattle.afl_base.specs.Image.{or_at, zeros_at};
ghost use Rattle.afl_base.specs.declared.ids.SectorId.{SectorId as Sector};
ghost use Rattle.flash_views.specs.declared.overlay.Two.{Two as TwoRecords};
ghost use Rattle.flash_views.specs.Views.{FitsImage, StandAt, blanked, cleared, emptied, with_mark, overlaid};

use crate::overlay::{Mark, Overlay, Two};
use afl_base::{SECTOR_SIZE, SectorId};

// Each function here is given the bytes that stand in an image from `place` on, and makes of them what
// stands there once the image is changed.

// All that is laid over an image.
pub(crate) fn put_over(overlay: &Overlay, place: usize, into: &mut [u8])
    requires fits { place + length into.old ≤ 16777216 }
    ensures over { (image : List ℕ) → FitsImage (length image) overlay.now
        → StandAt image place into.old → StandAt (overlaid image overlay.now) place into.new }
{
    put_mark(overlay.first, place, into);
    put_mark(overlay.second, place, into);
    put_sector(overlay.sector, place, into);
    put_blank(overlay.blank, place, into);
    put_two(overlay.two, place, into);
}

// A mark.
fn put_mark(mark: Option<Mark>, place: usize, into: &mut [u8])
    ensures over { (image : List ℕ) → StandAt image place into.old
        → StandAt (with_mark image mark) place into.new }
{
    if let Some(mark) = mark {
        put_bits(256 * usize::from(mark.page.0) + 9, mark.bits, place, into);
    }
}

// A sector that is erased.
fn put_sector(sector: Option<SectorId>, place: usize, into: &mut [u8])
    requires fits { place + length into.old ≤ 16777216 }
    ensures over { (image : List ℕ) → ((s : Sector) → sector ≡ Some s → 4096 * s.0 + 4096 ≤ length image)
        → StandAt image place into.old → StandAt (emptied image sector) place into.new }
{
    if let Some(sector) = sector {
        put_zeros(
            SECTOR_SIZE * usize::from(sector.0),
            SECTOR_SIZE,
            place,
            into,
        );
    }
}

// 128 bytes that are zero.
fn put_blank(blank: Option<u32>, place: usize, into: &mut [u8])
    requires fits { place + length into.old ≤ 16777216 }
    ensures over { (image : List ℕ) → ((p : ℕ) → blank ≡ Some p → p + 128 ≤ length image)
        → StandAt image place into.old → StandAt (blanked image blank) place into.new }
{
    if let Some(blank) = blank {
        put_zeros(blank as usize, 128, place, into);
    }
}

// Two records and a number that are zero.
fn put_two(two: Option<Two>, place: usize, into: &mut [u8])
    requires fits { place + length into.old ≤ 16777216 }
    ensures over { (image : List ℕ) → ((t : TwoRecords) → two ≡ Some t → t.records + 256 ≤ length image)
        → ((t : TwoRecords) → two ≡ Some t → t.number + 2 ≤ length image)
        → StandAt image place into.old → StandAt (cleared image two) place into.new }
{
    if let Some(two) = two {
        put_zeros(two.records as usize, 256, place, into);
        put_zeros(two.number as usize, 2, place, into);
    }
}

// Bits more in one byte.
fn put_bits(byte: usize, bits: u8, place: usize, into: &mut [u8])
    ensures over { (image : List ℕ) → StandAt image place into.old
        → StandAt (or_at image byte (bits ∷ [])) place into.new }
{
    if byte >= place && byte - place < into.len() {
        into[byte - place] |= bits;
    }
}

// This many bytes that are zero.
fn put_zeros(from: usize, count: usize, place: usize, into: &mut [u8])
    requires fits { place + length into.old ≤ 16777216 }
    ensures over { (image : List ℕ) → from + count ≤ length image
        → StandAt image place into.old → StandAt (zeros_at image from count) place into.new }
{
    for i in 0..into.len() {
        let byte = place + i;
        if byte >= from && byte - from < count {
            into[i] = 0;
        }
    }
}
