ghost use Rattle.std.specs.Prelude.{◌≡◌, ◌≢◌, ◌⊎◌, ◌≤◌, ◌<◌, true, false, Err, None, Ok, Some, length, IsTrue, IfErr, OnOk};
ghost use Rattle.afl_base.specs.declared.kind.FileError.TheVariants.{Failed as FaultOfFile, Space as LackOfSpace};
ghost use Rattle.coffee_find.specs.Found.{HasRecord, IsCutBy, IsSoundBut, IsTroubleInside, without_record};
ghost use Rattle.coffee_find.specs.Search.{IsFirstRegion};
ghost use Rattle.coffee_layout.specs.Files.{FitsIn};
ghost use Rattle.coffee_layout.specs.Units.{pages_of};
ghost use Rattle.coffee_mend.specs.Completed.{AwaitsCopy, LackBits, WantsCopy, regions_below};
ghost use Rattle.coffee_mend.specs.Mended.{IsCrowded, IsFailure, IsMended, IsSoundAs, IsTornAs, MendAlike, MendsFlash, MendsLike, OnFlashFailed, OnLacking};
ghost use Rattle.coffee_mend.specs.Superseding.{IsTornOf};
ghost use Rattle.coffee_mend.specs.declared.mending.MendError.TheVariants.{Unsettled as StrangeImage};
ghost use Rattle.coffee_merge.specs.Holding.{has_shape};

use crate::completing::complete;
use crate::joining::join_file;
use crate::owner::owner_beside;
use crate::settling::settle;
use crate::superseding::supersede;
use afl_base::{Failed, FileError, Flash};
use coffee_find::{TornRecord, Trouble};
use coffee_layout::FileAt;

/// Why an image was not mended.
#[derive(Clone, Copy, PartialEq, Eq, Debug)]
pub enum MendError {
    /// No extent of `need` pages is available for the file whose record is torn.
    Space { need: u16 },
    /// The flash failed, and its count of faults rose.
    Failed,
    /// The image is not what was found in it, as on a flash that answers otherwise at each read. It never
    /// comes where the flash tells its bytes.
    Unsettled,
}

/// Repairs what a cut left of an image: it is sound then, and has just the files that it mends to. It
/// asks for pages only where a record is torn that can be neither superseded nor completed: the thirtieth of
/// its log or one of an empty file, of which no region has all bits of the record. Where the flash fails, in
/// whichever write, the image that is left mends to the same files.
pub fn mend<F: Flash>(flash: &mut F, trouble: &Trouble) -> Result<(), MendError>
    requires inside { IsTroubleInside (length (F.image flash.old)) trouble.now }
    ensures mended { IsTrue F.tells → IsCutBy (F.image flash.old) trouble.now
        → OnOk result (IsMended (F.image flash.old) (F.image flash.new)) }
    ensures space { IsTrue F.tells → IsCutBy (F.image flash.old) trouble.now
        → IfErr result (λ e. OnLacking e (λ need. IsCrowded (F.image flash.old) (F.image flash.new) need)) }
    ensures wanted { IsTrue F.tells → IsCutBy (F.image flash.old) trouble.now → IfErr result
        (λ e. OnLacking e (λ need. AwaitsCopy (F.image flash.old) (F.image flash.new) trouble.now)) }
    ensures settles { IsTrue F.tells → IsCutBy (F.image flash.old) trouble.now
        → result ≢ Err StrangeImage }
    ensures failures { trouble.now.torn ≡ None → IfErr result (λ e. IsFailure e) }
    ensures cut { IsTrue F.tells → IsTrue F.cuts → IsCutBy (F.image flash.old) trouble.now
        → IfErr result (λ e. OnFlashFailed e (MendAlike (F.image flash.old) (F.image flash.new))) }
    ensures frame { MendsFlash F.image F.lent F.reads F.faults flash.old flash.new result }
{
    flash.sectors();
    let Ok(()) = settle(flash, &trouble.under_way) else {
        return Err(MendError::Failed);
    };
    match trouble.torn {
        None => Ok(()),
        Some(torn) => mend_torn(flash, &torn),
    }
}

// Puts right an image that is sound but for a torn record.
fn mend_torn<F: Flash>(flash: &mut F, torn: &TornRecord) -> Result<(), MendError>
    requires torn { HasRecord (length (F.image flash.old)) (Some torn.now) }
    ensures mended { IsTrue F.tells → IsSoundBut (F.image flash.old) (Some torn.now)
        → OnOk result (IsSoundAs (F.image flash.old) (F.image flash.new)) }
    ensures space { IsTrue F.tells → IsSoundBut (F.image flash.old) (Some torn.now)
        → IfErr result (λ e. OnLacking e (λ need.
        IsTornAs (F.image flash.old) (F.image flash.new) torn.now.log.0 torn.now.place need)) }
    ensures wanted { IsTrue F.tells → IsSoundBut (F.image flash.old) (Some torn.now)
        → IfErr result (λ e. OnLacking e (λ need. WantsCopy (F.image flash.old) torn.now)) }
    ensures settles { IsTrue F.tells → IsSoundBut (F.image flash.old) (Some torn.now)
        → result ≢ Err StrangeImage }
    ensures cut { IsTrue F.tells → IsTrue F.cuts → IsSoundBut (F.image flash.old) (Some torn.now)
        → IfErr result (λ e. OnFlashFailed e (MendsLike (F.image flash.old) (F.image flash.new))) }
    ensures frame { MendsFlash F.image F.lent F.reads F.faults flash.old flash.new result }
{
    flash.sectors();
    let mut region = [0; 128];
    match owner_beside(flash, torn, &mut region) {
        Err(Failed) => Err(MendError::Failed),
        Ok(None) => Err(MendError::Unsettled),
        Ok(Some(file)) => if can_be_superseded(torn, &file) {
            supersede_torn(flash, torn, &region, &file)
        } else {
            complete_or_join(flash, torn, &file)
        },
    }
}

// Whether a torn record can be superseded: it is not the last of its log, and its file has a first region.
fn can_be_superseded(torn: &TornRecord, file: &FileAt) -> bool
    requires few { torn.now.used < 30 }
    ensures low { result ≡ true → torn.now.used < 29 }
    ensures some { result ≡ true → 1 ≤ file.now.size }
    ensures neither { result ≡ false → (torn.now.used ≡ 29) ⊎ (file.now.size ≡ 0) }
{
    torn.used < 29 && 1 <= file.size
}

// Supersedes a torn record that is not the last of its log.
fn supersede_torn<F: Flash>(
    flash: &mut F,
    torn: &TornRecord,
    region: &[u8; 128],
    file: &FileAt,
) -> Result<(), MendError>
    requires torn { HasRecord (length (F.image flash.old)) (Some torn.now) }
    requires low { torn.now.used < 29 }
    requires some { 1 ≤ file.now.size }
    ensures mended { IsTrue F.tells → IsSoundBut (F.image flash.old) (Some torn.now)
        → IsFirstRegion (without_record (F.image flash.old) (Some torn.now)) torn.now.log file.now region.now
        → OnOk result (IsSoundAs (F.image flash.old) (F.image flash.new)) }
    ensures failures { IfErr result (λ e. IsFailure e) }
    ensures cut { IsTrue F.tells → IsTrue F.cuts → IsSoundBut (F.image flash.old) (Some torn.now)
        → IsFirstRegion (without_record (F.image flash.old) (Some torn.now)) torn.now.log file.now region.now
        → IfErr result (λ e. OnFlashFailed e (MendsLike (F.image flash.old) (F.image flash.new))) }
    ensures frame { MendsFlash F.image F.lent F.reads F.faults flash.old flash.new result }
{
    flash.sectors();
    match supersede(flash, torn, region) {
        Err(Failed) => Err(MendError::Failed),
        Ok(()) => Ok(()),
    }
}

// Completes a torn record as one that changes nothing, or else puts its file together with its log.
fn complete_or_join<F: Flash>(
    flash: &mut F,
    torn: &TornRecord,
    file: &FileAt,
) -> Result<(), MendError>
    requires torn { HasRecord (length (F.image flash.old)) (Some torn.now) }
    requires fits { FitsIn (pages_of (F.image flash.old)) file.now }
    requires shape { has_shape file.now.kind file.now.pages ≡ true }
    ensures joined { IsTrue F.tells → IsTornOf (F.image flash.old) torn.now file.now
        → OnOk result (IsSoundAs (F.image flash.old) (F.image flash.new)) }
    ensures space { IsTrue F.tells → IsTornOf (F.image flash.old) torn.now file.now
        → IfErr result (λ e. OnLacking e (λ need.
        IsTornAs (F.image flash.old) (F.image flash.new) torn.now.log.0 torn.now.place need)) }
    ensures tried { IsTrue F.tells → IfErr result (λ e. OnLacking e (λ need.
        LackBits (F.image flash.old) torn.now.place file.now (regions_below file.now.size))) }
    ensures settles { result ≢ Err StrangeImage }
    ensures cut { IsTrue F.tells → IsTrue F.cuts → IsTornOf (F.image flash.old) torn.now file.now
        → IfErr result (λ e. OnFlashFailed e (MendsLike (F.image flash.old) (F.image flash.new))) }
    ensures frame { MendsFlash F.image F.lent F.reads F.faults flash.old flash.new result }
{
    match complete(flash, torn, file) {
        Err(Failed) => Err(MendError::Failed),
        Ok(true) => Ok(()),
        Ok(false) => join_torn(flash, torn, file),
    }
}

// Puts a file together with its log, of which a record is torn.
fn join_torn<F: Flash>(flash: &mut F, torn: &TornRecord, file: &FileAt) -> Result<(), MendError>
    requires torn { HasRecord (length (F.image flash.old)) (Some torn.now) }
    requires fits { FitsIn (pages_of (F.image flash.old)) file.now }
    requires shape { has_shape file.now.kind file.now.pages ≡ true }
    ensures joined { IsTrue F.tells → IsTornOf (F.image flash.old) torn.now file.now
        → OnOk result (IsSoundAs (F.image flash.old) (F.image flash.new)) }
    ensures space { IsTrue F.tells → IsTornOf (F.image flash.old) torn.now file.now
        → IfErr result (λ e. OnLacking e (λ need.
        IsTornAs (F.image flash.old) (F.image flash.new) torn.now.log.0 torn.now.place need)) }
    ensures settles { result ≢ Err StrangeImage }
    ensures cut { IsTrue F.tells → IsTrue F.cuts → IsTornOf (F.image flash.old) torn.now file.now
        → IfErr result (λ e. OnFlashFailed e (MendsLike (F.image flash.old) (F.image flash.new))) }
    ensures frame { MendsFlash F.image F.lent F.reads F.faults flash.old flash.new result }
{
    flash.sectors();
    came_of(join_file(flash, file, torn.log))
}

// What joining came to.
fn came_of(done: Result<(), FileError>) -> Result<(), MendError>
    ensures joined { OnOk result (done ≡ Ok tt) }
    ensures lacking { IfErr result (λ e. OnLacking e (λ need. done ≡ Err (LackOfSpace need))) }
    ensures failed { IfErr result (λ e. OnFlashFailed e (done ≡ Err FaultOfFile)) }
    ensures known { result ≢ Err StrangeImage }
{
    match done {
        Ok(()) => Ok(()),
        Err(FileError::Space { need }) => Err(MendError::Space { need }),
        Err(FileError::Failed) => Err(MendError::Failed),
    }
}
