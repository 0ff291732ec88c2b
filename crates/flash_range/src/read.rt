ghost use Rattle.std.specs.Prelude.{◌≡◌, ℕ, ◌+◌, ◌-◌, ◌%◌, ◌^◌, ◌≤◌, ◌<◌, min, length, slice_index, slice_range, IsTrue, OnOk, IfOk};
ghost use Rattle.afl_base.specs.Keeping.{OnlyReads};
ghost use Rattle.flash_range.specs.Range.{pages_touched};

use afl_base::{Failed, Flash, PageId};

/// Fills `into` with the bytes of the flash from `place` on. The image stays, after `Failed` too.
/// Each page that the range touches is read once.
pub fn read_range<F: Flash>(flash: &mut F, place: u32, into: &mut [u8]) -> Result<(), Failed>
    requires range { place + length into.old ≤ length (F.image flash.old) }
    ensures bytes { IsTrue F.tells → OnOk result
        (into.new ≡ slice_range (F.image flash.old) place (place + length into.old)) }
    ensures reads { F.reads flash.new ≤ F.reads flash.old + pages_touched place (length into.old) }
    ensures counted { OnOk result
        (min (F.reads flash.old + pages_touched place (length into.old)) (2 ^ 64 - 1) ≤ F.reads flash.new) }
    ensures frame { OnlyReads F.image F.lent F.reads F.faults flash.old flash.new result }
{
    // What the number of sectors promises bounds the place, so that it fits a page number.
    flash.sectors();
    let mut done = 0;
    while done < into.len() {
        done += read_piece(flash, place + done as u32, &mut into[done..])?;
    }
    Ok(())
}

// Fills a front part of `into`, up to the end of the page at most, and answers its length.
fn read_piece<F: Flash>(flash: &mut F, place: u32, into: &mut [u8]) -> Result<usize, Failed>
    requires some { 1 ≤ length into.old }
    requires range { place + length into.old ≤ length (F.image flash.old) }
    ensures piece { IfOk result (λ n. n ≡ min (length into.old) (256 - place % 256)) }
    ensures bytes { IsTrue F.tells → IfOk result
        (λ n. (k : ℕ) → k < n → slice_index into.new k ≡ slice_index (F.image flash.old) (place + k)) }
    ensures reads { F.reads flash.new ≤ F.reads flash.old + 1 }
    ensures counted { min (F.reads flash.old + 1) (2 ^ 64 - 1) ≤ F.reads flash.new }
    ensures frame { OnlyReads F.image F.lent F.reads F.faults flash.old flash.new result }
{
    flash.sectors();
    let at = (place % 256) as u16;
    let n = into.len().min(256 - usize::from(at));
    flash.read(PageId((place / 256) as u16), at, &mut into[..n])?;
    Ok(n)
}
