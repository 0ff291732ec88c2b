ghost use Rattle.std.specs.Prelude.{◌≡◌, ◌≤◌, ◌<◌, ◌+◌, ◌*◌, ℕ, true, false, Some, bit_or, length, slice_index, slice_range, IsTrue, IfNone, IfOk, IfSome, OnErr, OnOk};
ghost use Rattle.afl_base.specs.Image.{zeros_at};
ghost use Rattle.afl_base.specs.Keeping.{ChangesFlash, OnlyReads, Programs};
ghost use Rattle.coffee_find.specs.Found.{HasRecord};
ghost use Rattle.coffee_layout.specs.FileBytes.{file_byte};
ghost use Rattle.coffee_layout.specs.Files.{FitsIn};
ghost use Rattle.coffee_layout.specs.Units.{pages_of};
ghost use Rattle.coffee_log.specs.Logs.{IsCutRecord, IsLog, PutsRecord};
ghost use Rattle.coffee_mend.specs.Completed.{HasAllBits, IsFirstWith, IsRegion, LackBits, record_at, regions_below};
ghost use Rattle.coffee_mend.specs.Mended.{IsSoundAs, MendsLike};
ghost use Rattle.coffee_mend.specs.Superseding.{IsTornOf};

use afl_base::{Failed, Flash, put_u16};
use coffee_find::TornRecord;
use coffee_layout::FileAt;
use coffee_log::read_file;
use flash_range::{program_range, read_range};

/// Completes a torn record as one that changes nothing: it gets the bytes of the first region of its file that
/// has all its bits, and then the number of that. Answers whether there is one.
pub(crate) fn complete<F: Flash>(
    flash: &mut F,
    torn: &TornRecord,
    file: &FileAt,
) -> Result<bool, Failed>
    requires torn { HasRecord (length (F.image flash.old)) (Some torn.now) }
    requires fits { FitsIn (pages_of (F.image flash.old)) file.now }
    ensures completed { IsTrue F.tells → IsTornOf (F.image flash.old) torn.now file.now
        → IfOk result (λ done. done ≡ true → IsSoundAs (F.image flash.old) (F.image flash.new)) }
    ensures none { IsTrue F.tells → IfOk result (λ done. done ≡ false
        → LackBits (F.image flash.old) torn.now.place file.now (regions_below file.now.size)) }
    ensures same { IfOk result (λ done. done ≡ false → F.image flash.new ≡ F.image flash.old) }
    ensures cut { IsTrue F.tells → IsTrue F.cuts → IsTornOf (F.image flash.old) torn.now file.now
        → OnErr result (MendsLike (F.image flash.old) (F.image flash.new)) }
    ensures frame { ChangesFlash F.image F.lent F.reads F.faults flash.old flash.new result }
{
    flash.sectors();
    let mut bytes = [0; 128];
    match find_region(flash, torn, file, &mut bytes)? {
        None => Ok(false),
        Some(region) => {
            fill_record(flash, torn, region, &bytes)?;
            Ok(true)
        }
    }
}

// The first region of a file that begins below its size and has all bits of a torn record.
fn find_region<F: Flash>(
    flash: &mut F,
    torn: &TornRecord,
    file: &FileAt,
    into: &mut [u8; 128],
) -> Result<Option<u16>, Failed>
    requires torn { HasRecord (length (F.image flash.old)) (Some torn.now) }
    requires fits { FitsIn (pages_of (F.image flash.old)) file.now }
    ensures number { IfOk result (λ o. IfSome o (λ r. r < 65535)) }
    ensures found { IsTrue F.tells → IfOk result (λ o. IfSome o
        (λ r. IsFirstWith (F.image flash.old) torn.now.place file.now r into.new)) }
    ensures none { IsTrue F.tells → IfOk result (λ o. IfNone o
        (LackBits (F.image flash.old) torn.now.place file.now (regions_below file.now.size))) }
    ensures frame { OnlyReads F.image F.lent F.reads F.faults flash.old flash.new result }
{
    flash.sectors();
    let mut record = [0; 128];
    read_range(flash, torn.place, &mut record)?;
    let regions = regions_of(file);
    let mut region = 0;
    while region < regions {
        load_region(flash, file, region, into)?;
        if has_all_bits(into, &record) {
            return Ok(Some(region));
        }
        region += 1;
    }
    Ok(None)
}

// How many regions of a file begin below its size. The number of a record has two bytes.
fn regions_of(file: &FileAt) -> u16
    requires size { file.now.size < 16777216 }
    ensures regions { result ≡ regions_below file.now.size }
{
    ((file.size + 127) / 128).min(65535) as u16
}

// The bytes of a region of a file, with zeros behind the end of its extent.
fn load_region<F: Flash>(
    flash: &mut F,
    file: &FileAt,
    region: u16,
    into: &mut [u8; 128],
) -> Result<(), Failed>
    requires fits { FitsIn (pages_of (F.image flash.old)) file.now }
    requires begins { 128 * region < file.now.size }
    ensures region { IsTrue F.tells → OnOk result (IsRegion (F.image flash.old) file.now region into.new) }
    ensures frame { OnlyReads F.image F.lent F.reads F.faults flash.old flash.new result }
{
    flash.sectors();
    let at = 128 * u32::from(region);
    let len = (256 * u32::from(file.pages) - 32 - at).min(128);
    let mut bytes = [0; 128];
    load_front(flash, file, at, len, &mut bytes)?;
    *into = bytes;
    Ok(())
}

// Fills the first `len` bytes of a buffer with the content of a file from one on.
fn load_front<F: Flash>(
    flash: &mut F,
    file: &FileAt,
    at: u32,
    len: u32,
    buffer: &mut [u8; 128],
) -> Result<(), Failed>
    requires fits { FitsIn (pages_of (F.image flash.old)) file.now }
    requires len { len ≤ 128 }
    requires placed { at + len + 32 ≤ 256 * file.now.pages }
    ensures bytes { IsTrue F.tells → OnOk result ((k : ℕ) → k < len
        → slice_index buffer.new k ≡ file_byte (F.image flash.old) file.now.page.0 file.now.log (at + k)) }
    ensures behind { (k : ℕ) → len ≤ k → slice_index buffer.new k ≡ slice_index buffer.old k }
    ensures frame { OnlyReads F.image F.lent F.reads F.faults flash.old flash.new result }
{
    flash.sectors();
    read_file(flash, file.page, file.log, at, &mut buffer[..len as usize])?;
    Ok(())
}

// Whether bytes have all bits of a record.
fn has_all_bits(bytes: &[u8], torn: &[u8]) -> bool
    requires bytes { length bytes.now ≡ 128 }
    requires torn { length torn.now ≡ 128 }
    ensures yes { result ≡ true → HasAllBits bytes.now torn.now }
    ensures no { result ≡ false → HasAllBits bytes.now torn.now → ⊥ }
{
    let mut at = 0;
    while at < 128 {
        if torn[at] | bytes[at] != bytes[at] {
            return false;
        }
        at += 1;
    }
    true
}

// Programs bytes into a torn record, and then its number.
fn fill_record<F: Flash>(
    flash: &mut F,
    torn: &TornRecord,
    region: u16,
    bytes: &[u8; 128],
) -> Result<(), Failed>
    requires torn { HasRecord (length (F.image flash.old)) (Some torn.now) }
    requires region { region < 65535 }
    ensures filled { IsTrue F.tells → OnOk result
        (IsLog (zeros_at (F.image flash.old) torn.now.place 128) torn.now.log.0 torn.now.used
        → HasAllBits bytes.now (record_at (F.image flash.old) torn.now.place)
        → PutsRecord (zeros_at (F.image flash.old) torn.now.place 128) (F.image flash.new) torn.now.log.0 torn.now.used region bytes.now) }
    ensures cut { IsTrue F.tells → IsTrue F.cuts → OnErr result
        (IsLog (zeros_at (F.image flash.old) torn.now.place 128) torn.now.log.0 torn.now.used
        → HasAllBits bytes.now (record_at (F.image flash.old) torn.now.place)
        → IsCutRecord (zeros_at (F.image flash.old) torn.now.place 128) (F.image flash.new) torn.now.log torn.now.used region bytes.now) }
    ensures frame { Programs F.image F.lent F.reads F.faults flash.old flash.new result }
{
    flash.sectors();
    let mut number = [0; 2];
    put_u16(&mut number, 0, region + 1);
    let page = 256 * u32::from(torn.log.0);
    program_range(flash, torn.place, bytes)?;
    program_range(flash, page + 32 + 2 * u32::from(torn.used), &number)?;
    Ok(())
}
