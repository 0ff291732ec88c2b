ghost use Rattle.std.specs.Prelude.{◌≡◌, ℕ, ◌+◌, ◌-◌, ◌%◌, ◌≤◌, min, length, take, IsTrue, OnErr, OnOk, IfOk};
ghost use Rattle.afl_base.specs.Keeping.{Programs};
ghost use Rattle.afl_base.specs.Image.{or_at, page_bytes};
ghost use Rattle.flash_range.specs.Range.{IsCutRange, PageOutside};

use afl_base::{Failed, Flash, PageId};

/// Makes each byte of the flash from `place` on `old OR given`. After `Failed` the pages that the
/// range touches may hold anything, and all other pages stay.
pub fn program_range<F: Flash>(flash: &mut F, place: u32, bytes: &[u8]) -> Result<(), Failed>
    requires range { place + length bytes.now ≤ length (F.image flash.old) }
    ensures programmed { IsTrue F.tells → OnOk result
        (F.image flash.new ≡ or_at (F.image flash.old) place bytes.now) }
    ensures other_pages { IsTrue F.tells → (p : ℕ) → PageOutside place (length bytes.now) p
        → page_bytes (F.image flash.new) p ≡ page_bytes (F.image flash.old) p }
    ensures cut { IsTrue F.tells → IsTrue F.cuts → OnErr result
        (IsCutRange (F.image flash.old) (F.image flash.new) place bytes.now) }
    ensures frame { Programs F.image F.lent F.reads F.faults flash.old flash.new result }
{
    // What the number of sectors promises bounds the place, so that it fits a page number.
    flash.sectors();
    let mut done = 0;
    while done < bytes.len() {
        done += program_piece(flash, place + done as u32, &bytes[done..])?;
    }
    Ok(())
}

// Programs a front part of `bytes`, up to the end of the page at most, and answers its length.
fn program_piece<F: Flash>(flash: &mut F, place: u32, bytes: &[u8]) -> Result<usize, Failed>
    requires some { 1 ≤ length bytes.now }
    requires range { place + length bytes.now ≤ length (F.image flash.old) }
    ensures piece { IfOk result (λ n. n ≡ min (length bytes.now) (256 - place % 256)) }
    ensures programmed { IsTrue F.tells → IfOk result
        (λ n. F.image flash.new ≡ or_at (F.image flash.old) place (take n bytes.now)) }
    ensures other_pages { IsTrue F.tells → (p : ℕ) → PageOutside place (length bytes.now) p
        → page_bytes (F.image flash.new) p ≡ page_bytes (F.image flash.old) p }
    ensures cut { IsTrue F.tells → IsTrue F.cuts → OnErr result
        (IsCutRange (F.image flash.old) (F.image flash.new) place bytes.now) }
    ensures frame { Programs F.image F.lent F.reads F.faults flash.old flash.new result }
{
    flash.sectors();
    let at = (place % 256) as u16;
    let n = bytes.len().min(256 - usize::from(at));
    flash.program(PageId((place / 256) as u16), at, &bytes[..n])?;
    Ok(n)
}
