ghost use Rattle.std.specs.Prelude.{◌≡◌, ◌≤◌, ◌*◌, [], Err, IfErr, IsTrue, None, OnOk, length, ℕ};
ghost use Rattle.afl_base.specs.Causes.{Rose};
ghost use Rattle.afl_base.specs.Files.{AreDistinct};
ghost use Rattle.coffee_layout.specs.Rules.{broken_image};
ghost use Rattle.coffee_volume.specs.Mounting.{mounted_state};
ghost use Rattle.run_repair.specs.Mends.{IsHindered, IsRestored, MendsButLacks, MendsPutRight, OnFault, OnSpaceless, StillMends, StillMendsButLacks};
ghost use Rattle.run_repair.specs.declared.came.Hindrance.TheVariants.{Failed as FaultOfFlash};
ghost use Rattle.image_model.specs.Images.{files_of_image};
ghost use Rattle.stored.specs.CutTables.{IsCutTable};
ghost use Rattle.stored.specs.Mended.{mended_base};
ghost use Rattle.stored_mend.specs.Reported.{IsReported};

use crate::came::Hindrance;
use afl_base::{FileError, FileId, Files, Flash};
use coffee_volume::{Unlisted, Volume, list};
use flash_views::Handed;
use image_model::sound_files_are_a_sound_image;
use stored_mend::{Report, mend_database};

/// Repairs the database of an image whose files are sound. Where it is interrupted, by a cut or since pages are lacking, the
/// image still mends to that database, put right.
#[inline(never)]
pub fn mend_image<F: Flash>(flash: &mut F, report: &mut Report) -> Result<(), Hindrance>
    ensures restored { IsTrue F.tells → broken_image (F.image flash.old) ≡ None
        → IsCutTable (files_of_image (F.image flash.old))
        → OnOk result (IsRestored (files_of_image (F.image flash.old)) (F.image flash.new)) }
    ensures hindered { IsTrue F.tells → broken_image (F.image flash.old) ≡ None
        → IfErr result IsHindered }
    ensures space { IsTrue F.tells → broken_image (F.image flash.old) ≡ None
        → IsCutTable (files_of_image (F.image flash.old))
        → IfErr result (λ why. OnSpaceless why (StillMendsButLacks (F.image flash.old) (F.image flash.new))) }
    ensures unbroken { IsTrue F.tells → broken_image (F.image flash.old) ≡ None
        → IsCutTable (files_of_image (F.image flash.old))
        → IfErr result (λ why. OnSpaceless why (λ need. broken_image (F.image flash.new) ≡ None)) }
    ensures cut { IsTrue F.tells → IsTrue F.cuts → broken_image (F.image flash.old) ≡ None
        → IsCutTable (files_of_image (F.image flash.old))
        → IfErr result (λ why. OnFault why (StillMends (F.image flash.old) (F.image flash.new))) }
    ensures size { length (F.image flash.new) ≡ length (F.image flash.old) }
    ensures lent { F.lent flash.new ≡ F.lent flash.old }
    ensures later { F.faults flash.old ≤ F.faults flash.new }
    ensures cause { result ≡ Err FaultOfFlash → Rose (F.faults flash.old) (F.faults flash.new) }
    ensures reported { IsTrue F.tells → broken_image (F.image flash.old) ≡ None
        → IsCutTable (files_of_image (F.image flash.old)) → OnOk result (report.old.mended ≡ [] → IsReported
        (files_of_image (F.image flash.old)) (files_of_image (F.image flash.new)) report.new.mended) }
{
    flash.sectors();
    let listed = match list(flash) {
        Ok(listed) => listed,
        Err(Unlisted::Bad(bad)) => return Err(Hindrance::Unsettled(bad)),
        Err(Unlisted::Failed) => return Err(Hindrance::Failed),
    };
    let mut volume = Volume::over(Handed { flash }, listed);
    mend_volume(&mut volume, report)
}

// The same of the files of a volume that was just listed.
fn mend_volume<F: Flash>(volume: &mut Volume<F>, report: &mut Report) -> Result<(), Hindrance>
    requires idle { (⟦<Volume<F> as Files>⟧.state volume.old).draft ≡ None }
    ensures restored { let files = ⟦<Volume<F> as Files>⟧ in IsTrue (files.state volume.old).tells
        → IsCutTable (files.state volume.old).files
        → OnOk result (IsRestored (files.state volume.old).files (files.state volume.new).store) }
    ensures hindered { IfErr result IsHindered }
    ensures space { let files = ⟦<Volume<F> as Files>⟧ in IsTrue (files.state volume.old).tells
        → IsCutTable (files.state volume.old).files → IfErr result (λ why. OnSpaceless why
        (MendsButLacks (mended_base (files.state volume.old).files) (files.state volume.new).store)) }
    ensures unbroken { let files = ⟦<Volume<F> as Files>⟧ in IsTrue (files.state volume.old).tells
        → IsCutTable (files.state volume.old).files
        → IfErr result (λ why. OnSpaceless why (λ need. broken_image (files.state volume.new).store ≡ None)) }
    ensures cut { let files = ⟦<Volume<F> as Files>⟧ in IsTrue F.cuts → IsTrue (files.state volume.old).tells
        → IsCutTable (files.state volume.old).files → IfErr result (λ why. OnFault why
        (MendsPutRight (mended_base (files.state volume.old).files) (files.state volume.new).store)) }
    ensures size { let files = ⟦<Volume<F> as Files>⟧ in
        length (files.state volume.new).store ≡ length (files.state volume.old).store }
    ensures lent { ⟦<Volume<F> as Files>⟧.lent volume.new ≡ ⟦<Volume<F> as Files>⟧.lent volume.old }
    ensures later { ⟦<Volume<F> as Files>⟧.faults volume.old ≤ ⟦<Volume<F> as Files>⟧.faults volume.new }
    ensures cause { result ≡ Err FaultOfFlash
        → Rose (⟦<Volume<F> as Files>⟧.faults volume.old) (⟦<Volume<F> as Files>⟧.faults volume.new) }
    ensures reported { let files = ⟦<Volume<F> as Files>⟧ in IsTrue (files.state volume.old).tells
        → IsCutTable (files.state volume.old).files → OnOk result (report.old.mended ≡ [] → IsReported
        (files.state volume.old).files (files_of_image (files.state volume.new).store) report.new.mended) }
{
    match mend_database(volume, report) {
        Ok(()) => {
            sound_files_are_a_sound_image(volume);
            tell_places(volume);
            volume.ends();
            Ok(())
        }
        Err(FileError::Space { need }) => {
            volume.ends();
            Err(Hindrance::Spaceless { need })
        }
        Err(FileError::Failed) => Err(Hindrance::Failed),
    }
}

// A table of files has 32 places, and no two files have one name.
fn tell_places<V: Files>(files: &V)
    ensures places { length (V.state files.now).files ≡ 32 }
    ensures distinct { AreDistinct (V.state files.now).files }
{
    match FileId::new(0) {
        Some(id) => {
            files.live(id);
        }
        None => unreachable!(),
    }
}
