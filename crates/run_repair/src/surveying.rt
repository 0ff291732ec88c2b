ghost use Rattle.std.specs.Prelude.{◌≡◌, IfOk, IsTrue, None, length};
ghost use Rattle.afl_base.specs.Causes.{HasCause};
ghost use Rattle.afl_base.specs.Keeping.{OnlyReads};
ghost use Rattle.coffee_find.specs.Found.{IsCutBy, IsTroubleInside};
ghost use Rattle.coffee_layout.specs.Rules.{broken_image};
ghost use Rattle.run_repair.specs.Findings.{IsSurveyed, erased_sector, settled_image};
ghost use Rattle.run_repair.specs.Surveys.{AreSurveyed};
ghost use Rattle.image_model.specs.Images.{files_of_image};

use crate::room::finds_room;
use afl_base::{Failed, Files, Flash, SectorId};
use catalog::catalog_file;
use coffee_find::{Trouble, UnderWay, overlay_of};
use coffee_volume::{Unlisted, Volume, list};
use flash_views::{Handed, View};
use stored_mend::Report;
use stored_survey::{foretell, may_be_cut};

/// Whether the database of an image is one that a cut can have left, as it reads once what was found in its files is settled.
/// Nothing is written, where it fails too.
pub fn survey_image<F: Flash>(flash: &mut F, trouble: &Trouble) -> Result<bool, Failed>
    requires inside { IsTroubleInside (length (F.image flash.old)) trouble.now }
    ensures surveyed { IsTrue F.tells → IsCutBy (F.image flash.old) trouble.now → IfOk result
        (IsSurveyed (settled_image (F.image flash.old) trouble.now) (erased_sector trouble.now.under_way)) }
    ensures same { F.image flash.new ≡ F.image flash.old }
    ensures lent { F.lent flash.new ≡ F.lent flash.old }
    ensures cause { HasCause (F.faults flash.old) (F.faults flash.new) result }
{
    let mut surveyed = Err(Failed);
    let _handed = survey_settled(Handed { flash }, trouble, &mut surveyed);
    surveyed
}

// The same through a view.
#[inline(never)]
fn survey_settled<F: Flash>(flash: F, trouble: &Trouble, surveyed: &mut Result<bool, Failed>) -> F
    requires inside { IsTroubleInside (length (F.image flash)) trouble.now }
    ensures surveyed { IsTrue F.tells → IsCutBy (F.image flash) trouble.now → IfOk surveyed.new
        (IsSurveyed (settled_image (F.image flash) trouble.now) (erased_sector trouble.now.under_way)) }
    ensures same { F.image result ≡ F.image flash }
    ensures lent { F.lent result ≡ F.lent flash }
    ensures cause { HasCause (F.faults flash) (F.faults result) surveyed.new }
{
    flash.sectors();
    let overlay = overlay_of(&trouble.under_way, &trouble.torn);
    let erased = erased_sector(&trouble.under_way);
    let mut view = View::new(flash, overlay);
    *surveyed = survey_view(&mut view, erased);
    view.into_flash()
}

/// Adds to a report what a repair would repair in the database of an image, of which `survey_image` tells that a cut can
/// have left it. Nothing is written, where it fails too.
pub fn foretell_image<F: Flash>(
    flash: &mut F,
    trouble: &Trouble,
    report: &mut Report,
) -> Result<(), Failed>
    requires inside { IsTroubleInside (length (F.image flash.old)) trouble.now }
    ensures same { F.image flash.new ≡ F.image flash.old }
    ensures lent { F.lent flash.new ≡ F.lent flash.old }
    ensures cause { HasCause (F.faults flash.old) (F.faults flash.new) result }
{
    let mut foretold = Err(Failed);
    let _handed = foretell_settled(Handed { flash }, trouble, report, &mut foretold);
    foretold
}

// The same through a view.
#[inline(never)]
fn foretell_settled<F: Flash>(
    flash: F,
    trouble: &Trouble,
    report: &mut Report,
    foretold: &mut Result<(), Failed>,
) -> F
    requires inside { IsTroubleInside (length (F.image flash)) trouble.now }
    ensures same { F.image result ≡ F.image flash }
    ensures lent { F.lent result ≡ F.lent flash }
    ensures cause { HasCause (F.faults flash) (F.faults result) foretold.new }
{
    let overlay = overlay_of(&trouble.under_way, &trouble.torn);
    let mut view = View::new(flash, overlay);
    *foretold = foretell_view(&mut view, report);
    view.into_flash()
}

// The same of an image as it reads now.
fn foretell_view<F: Flash>(flash: &mut F, report: &mut Report) -> Result<(), Failed>
    ensures same { F.image flash.new ≡ F.image flash.old }
    ensures lent { F.lent flash.new ≡ F.lent flash.old }
    ensures cause { HasCause (F.faults flash.old) (F.faults flash.new) result }
{
    let listed = match list(flash) {
        Ok(listed) => listed,
        Err(Unlisted::Bad(_)) => return Ok(()),
        Err(Unlisted::Failed) => return Err(Failed),
    };
    let mut volume = Volume::over(Handed { flash }, listed);
    foretell(&mut volume, report)
}

// The sector that was being erased.
fn erased_sector(under_way: &UnderWay) -> Option<SectorId>
    ensures { result ≡ erased_sector under_way.now }
{
    match under_way {
        UnderWay::Erasing { sector, page: _ } => Some(*sector),
        _ => None,
    }
}

// The same of an image as it reads now. Where there is no catalog, a sector is erased only for one that finds no free pages.
fn survey_view<F: Flash>(flash: &mut F, erased: Option<SectorId>) -> Result<bool, Failed>
    ensures surveyed { IsTrue F.tells → broken_image (F.image flash.old) ≡ None
        → IfOk result (IsSurveyed (F.image flash.old) erased) }
    ensures same { F.image flash.new ≡ F.image flash.old }
    ensures lent { F.lent flash.new ≡ F.lent flash.old }
    ensures cause { HasCause (F.faults flash.old) (F.faults flash.new) result }
{
    match survey_files(flash)? {
        Surveyed::Strange => Ok(false),
        Surveyed::Cut => Ok(true),
        Surveyed::WithoutCatalog => {
            let in_vain = finds_room(flash, erased)?;
            Ok(!in_vain)
        }
    }
}

// What is found of the files.
#[derive(Clone, Copy, PartialEq, Eq)]
pub(crate) enum Surveyed {
    // No cut leaves such files.
    Strange,
    // A cut can have left them, and there is no catalog.
    WithoutCatalog,
    // A cut can have left them.
    Cut,
}

fn survey_files<F: Flash>(flash: &mut F) -> Result<Surveyed, Failed>
    ensures surveyed { IsTrue F.tells → broken_image (F.image flash.old) ≡ None
        → IfOk result (AreSurveyed (files_of_image (F.image flash.old))) }
    ensures same { F.image flash.new ≡ F.image flash.old }
    ensures lent { F.lent flash.new ≡ F.lent flash.old }
    ensures cause { HasCause (F.faults flash.old) (F.faults flash.new) result }
{
    let listed = match list(flash) {
        Ok(listed) => listed,
        Err(Unlisted::Bad(_)) => return Ok(Surveyed::Strange),
        Err(Unlisted::Failed) => return Err(Failed),
    };
    let mut volume = Volume::over(Handed { flash }, listed);
    survey(&mut volume)
}

fn survey<V: Files>(files: &mut V) -> Result<Surveyed, Failed>
    ensures surveyed { IsTrue (V.state files.old).tells
        → IfOk result (AreSurveyed (V.state files.old).files) }
    ensures frame { OnlyReads V.state V.lent V.reads V.faults files.old files.new result }
{
    if !may_be_cut(files)? {
        return Ok(Surveyed::Strange);
    }
    Ok(match files.find(catalog_file()) {
        Some(_) => Surveyed::Cut,
        None => Surveyed::WithoutCatalog,
    })
}
