ghost use Rattle.std.specs.Prelude.{◌≡◌, ℕ, Bool, ◌+◌, ◌*◌, ◌/◌, ◌≤◌, ◌<◌, true, false, not, ◌&&◌, ◌∷◌, [], length, replicate, List, IsTrue, IfOk, OnOk, OnErr, if◌then◌else◌};
ghost use Rattle.afl_base.specs.Keeping.{ChangesFlash, Programs};
ghost use Rattle.afl_base.specs.Cuts.{IsCutErase};
ghost use Rattle.afl_base.specs.Image.{or_at, page_bytes};
ghost use Rattle.coffee_layout.specs.Marks.{is_taken};
ghost use Rattle.coffee_layout.specs.Tiling.{IsTiled};
ghost use Rattle.coffee_layout.specs.Units.{pages_of};
ghost use Rattle.coffee_layout.specs.declared.unit.Unit.{Unit};
ghost use Rattle.coffee_space.specs.Collection.{IsCollected, number_taken, touches};
ghost use Rattle.coffee_space.specs.Cutting.{IsCutCollection};
ghost use Rattle.coffee_space.specs.Sectors.{taken_in};
ghost use Rattle.coffee_space.specs.Steps.{Erases, ErasesSome, Isolates, IsolatesSome, IsolatesSomeUnit, IsolatesUnit, StaysOrIsolated};

use crate::marking::{Sectors, mark_sectors};
use crate::part::Part;
use afl_base::{Failed, Flash, PageId, SectorId};
use coffee_layout::unit_in;

/// Erases the sectors that have a page in use and no active page, and answers their number. Each page
/// that a unit has outside of them, where it has another inside, is isolated: the pages after its
/// header before the sectors are erased, from the last to the first, and its header after. So as long
/// as a page of an extent has bytes and is not isolated, its header stands. On an image
/// that the rules 1 to 4 do not allow it may do nothing and answer 0. After `Failed` the image is
/// between the two, where failures are cuts; else a page or a sector of it may hold anything.
pub fn collect<F: Flash>(flash: &mut F) -> Result<u16, Failed>
    ensures collected { IsTrue F.tells → OnOk result
        ((building : ℕ → Bool) (us : List Unit) → IsTiled building (F.image flash.old) us
        → IsCollected building (F.image flash.old) (F.image flash.new) us) }
    ensures number { IsTrue F.tells → IfOk result
        (λ n. (building : ℕ → Bool) (us : List Unit) → IsTiled building (F.image flash.old) us
        → n ≡ number_taken (is_taken us) (length (F.image flash.old) / 4096)) }
    ensures reads { F.reads flash.new ≤ F.reads flash.old + 3 * pages_of (F.image flash.old) }
    ensures cut { IsTrue F.tells → IsTrue F.cuts → OnErr result
        ((building : ℕ → Bool) (us : List Unit) → IsTiled building (F.image flash.old) us
        → IsCutCollection building (F.image flash.old) (F.image flash.new) us) }
    ensures frame { ChangesFlash F.image F.lent F.reads F.faults flash.old flash.new result }
{
    let sectors = match mark_sectors(flash)? {
        Some(sectors) => sectors,
        None => return Ok(0),
    };
    isolate(flash, &sectors, Part::Behind)?;
    let erased = erase(flash, &sectors)?;
    isolate(flash, &sectors, Part::Header)?;
    Ok(erased)
}

// Isolates the pages of a part outside of the taken sectors that belong to a unit with a page inside,
// in rising order.
fn isolate<F: Flash>(flash: &mut F, sectors: &Sectors, part: Part) -> Result<(), Failed>
    ensures isolated { IsTrue F.tells → OnOk result
        ((building : ℕ → Bool) (us : List Unit) → IsTiled building (F.image flash.old) us
        → Isolates (taken_in sectors.now.used.bits sectors.now.active.bits) part
        (F.image flash.old) (F.image flash.new) us) }
    ensures cut { IsTrue F.tells → IsTrue F.cuts → OnErr result
        ((building : ℕ → Bool) (us : List Unit) → IsTiled building (F.image flash.old) us
        → IsolatesSome (taken_in sectors.now.used.bits sectors.now.active.bits) part
        (F.image flash.old) (F.image flash.new) us) }
    ensures reads { F.reads flash.new ≤ F.reads flash.old + pages_of (F.image flash.old) }
    ensures frame { ChangesFlash F.image F.lent F.reads F.faults flash.old flash.new result }
{
    let all = 16 * flash.sectors();
    let mut page: u16 = 0;
    while page < all {
        let unit = match unit_in(flash, page, all)? {
            Some(unit) => unit,
            None => return Ok(()),
        };
        isolate_unit(flash, sectors, part, page, unit.pages())?;
        page = unit.behind(page);
    }
    Ok(())
}

// The same for the pages of one unit.
fn isolate_unit<F: Flash>(
    flash: &mut F,
    sectors: &Sectors,
    part: Part,
    page: u16,
    pages: u16,
) -> Result<(), Failed>
    requires inside { 256 * (page + pages) ≤ length (F.image flash.old) }
    ensures isolated { IsTrue F.tells → OnOk result
        (IsolatesUnit (taken_in sectors.now.used.bits sectors.now.active.bits) part
        (F.image flash.old) (F.image flash.new) page pages) }
    ensures cut { IsTrue F.tells → IsTrue F.cuts → OnErr result
        (IsolatesSomeUnit (taken_in sectors.now.used.bits sectors.now.active.bits) part
        (F.image flash.old) (F.image flash.new) page pages) }
    ensures frame { Programs F.image F.lent F.reads F.faults flash.old flash.new result }
{
    flash.sectors();
    let cut = is_cut(sectors, page, pages);
    let mut done: u16 = 0;
    while done < pages {
        let meant = cut && part.has(done);
        isolate_page(
            flash,
            meant && !sectors.takes((page + done) / 16),
            page + done,
        )?;
        done += 1;
    }
    Ok(())
}

// Whether one of the pages lies in a taken sector.
fn is_cut(sectors: &Sectors, page: u16, pages: u16) -> bool
    requires inside { page + pages ≤ 65520 }
    ensures { result ≡ touches (taken_in sectors.now.used.bits sectors.now.active.bits) page pages }
{
    let mut at = page;
    let mut left = pages;
    while 0 < left {
        if sectors.takes(at / 16) {
            return true;
        }
        at += 1;
        left -= 1;
    }
    false
}

// Programs the mark of an isolated page, where it is wanted.
fn isolate_page<F: Flash>(flash: &mut F, wanted: bool, page: u16) -> Result<(), Failed>
    requires page { 256 * page + 256 ≤ length (F.image flash.old) }
    ensures isolated { IsTrue F.tells → OnOk result
        (wanted ≡ true
        → page_bytes (F.image flash.new) page ≡ or_at (page_bytes (F.image flash.old) page) 9 (34 ∷ [])) }
    ensures unwanted { IsTrue F.tells → OnOk result
        (wanted ≡ false → page_bytes (F.image flash.new) page ≡ page_bytes (F.image flash.old) page) }
    ensures others { IsTrue F.tells
        → (q : ℕ) → (q ≡ page → ⊥) → page_bytes (F.image flash.new) q ≡ page_bytes (F.image flash.old) q }
    ensures cut { IsTrue F.tells → IsTrue F.cuts → OnErr result
        (StaysOrIsolated wanted (F.image flash.old) (F.image flash.new) page) }
    ensures frame { Programs F.image F.lent F.reads F.faults flash.old flash.new result }
{
    if !wanted {
        return Ok(());
    }
    flash.program(PageId(page), 9, &[34])?;
    Ok(())
}

// Erases the taken sectors from the last to the first, and answers their number.
fn erase<F: Flash>(flash: &mut F, sectors: &Sectors) -> Result<u16, Failed>
    ensures erased { IsTrue F.tells → OnOk result
        (Erases (taken_in sectors.now.used.bits sectors.now.active.bits) (F.image flash.old) (F.image flash.new)) }
    ensures cut { IsTrue F.tells → IsTrue F.cuts → OnErr result
        (ErasesSome (taken_in sectors.now.used.bits sectors.now.active.bits) (F.image flash.old) (F.image flash.new)) }
    ensures number { IfOk result
        (λ n. n ≡ number_taken (taken_in sectors.now.used.bits sectors.now.active.bits) (length (F.image flash.old) / 4096)) }
    ensures frame { Programs F.image F.lent F.reads F.faults flash.old flash.new result }
{
    let mut sector = flash.sectors();
    let mut number: u16 = 0;
    while 0 < sector {
        sector -= 1;
        number += erase_sector(flash, sectors.takes(sector), sector)?;
    }
    Ok(number)
}

// Erases a sector where that is wanted, and answers whether it did, as 1 or 0.
fn erase_sector<F: Flash>(flash: &mut F, wanted: bool, sector: u16) -> Result<u16, Failed>
    requires sector { 4096 * sector + 4096 ≤ length (F.image flash.old) }
    ensures number { IfOk result (λ n. n ≡ (if wanted then 1 else 0)) }
    ensures erased { IsTrue F.tells → OnOk result
        (wanted ≡ true → (q : ℕ) → q / 16 ≡ sector → page_bytes (F.image flash.new) q ≡ replicate 256 0) }
    ensures unwanted { IsTrue F.tells → OnOk result (wanted ≡ false → F.image flash.new ≡ F.image flash.old) }
    ensures others { IsTrue F.tells → OnOk result
        ((q : ℕ)
        → (q / 16 ≡ sector → ⊥) → page_bytes (F.image flash.new) q ≡ page_bytes (F.image flash.old) q) }
    ensures cut { IsTrue F.tells → IsTrue F.cuts → OnErr result
        ((wanted ≡ true) × IsCutErase (F.image flash.old) (F.image flash.new) sector) }
    ensures frame { Programs F.image F.lent F.reads F.faults flash.old flash.new result }
{
    if !wanted {
        return Ok(0);
    }
    flash.erase(SectorId(sector))?;
    Ok(1)
}
