ghost use Rattle.std.specs.Prelude.{◌≡◌, ◌≤◌, [], Err, IfErr, IsTrue, OnOk, length};
ghost use Rattle.afl_base.specs.Causes.{Rose};
ghost use Rattle.coffee_find.specs.Found.{IsCutBy, IsTroubleInside};
ghost use Rattle.coffee_mend.specs.Completed.{AwaitsCopy};
ghost use Rattle.coffee_mend.specs.Mended.{IsCrowded, IsMended};
ghost use Rattle.run_repair.specs.Findings.{IsLeftByCut};
ghost use Rattle.run_repair.specs.GivenUp.{IsCopyNeeded, IsSettledTo, NeedsPages};
ghost use Rattle.run_repair.specs.Mends.{IsHindered, OnFault, OnSpaceless, StaysOrMends, StillMends, StillMendsButLacks};
ghost use Rattle.run_repair.specs.Repairs.{IsRepairStatus, IsToldOf, Leaves, Repairs};
ghost use Rattle.image_model.specs.Images.{IsSound};
ghost use Rattle.run_repair.specs.declared.came.Hindrance.TheVariants.{Failed as FaultOfFlash};

use crate::came::{Came, Hindrance};
use crate::finding::{Finding, find_out};
use crate::giving_up::give_up_tree;
use crate::judging::judge_image;
use crate::lines::say;
use crate::mending::mend_image;
use afl_base::{Flash, Sink};
use coffee_find::Trouble;
use coffee_layout::BadImage;
use coffee_mend::{MendError, mend};
use image_model::sound_image_breaks_no_rule;
use stored_mend::Report;

/// Repairs an image that a power cut left, and answers the status that the program ends with.
///
/// | status | comes |
/// |---|---|
/// | 0 | the image was sound: `sound` was written, and it is as it was; or it was not, and is now, and stands for the database that it mended to, in which a relation may have one removed row more, and an index that had a tree may be gone: a line was written for each thing that was changed in its database, and for no other, and `repaired` |
/// | 3 | no extent of N pages is available for what must be repaired, and `no space N` was written; the image still mends to that database, put right, so that another repair can end this one; the pages are for the database, or to copy a file of which a record is torn, and which is empty or no tree to give up |
/// | 4 | only where the flash counted a fault; where its failures are cuts, the image is as it was, or still mends to that database, put right |
/// | 5 | only where the sink counted a fault |
/// | 6 | the image is not sound, and no cut leaves such a one: it is as it was, and `no image RULE PLACE` was written |
pub fn repair<F: Flash, K: Sink>(out: &mut K, flash: &mut F) -> u8
    ensures only { IsRepairStatus result }
    ensures told { IsTrue F.tells
        → Repairs result (F.image flash.old) (F.image flash.new) (K.held out.old) (K.held out.new) }
    ensures cut { IsTrue F.tells → IsTrue F.cuts → result ≡ 4
        → StaysOrMends (F.image flash.old) (F.image flash.new) }
    ensures needed { IsTrue F.tells → result ≡ 3 → NeedsPages (F.image flash.old) (F.image flash.new) }
    ensures flash { result ≡ 4 → Rose (F.faults flash.old) (F.faults flash.new) }
    ensures sink { result ≡ 5 → Rose (K.faults out.old) (K.faults out.new) }
    ensures size { length (F.image flash.new) ≡ length (F.image flash.old) }
    ensures lent { F.lent flash.new ≡ F.lent flash.old }
    ensures sink_lent { K.lent out.new ≡ K.lent out.old }
{
    let mut report = Report::new();
    let came = put_right(flash, &mut report);
    say(out, &report, came)
}

// What a repair comes to. What is wrong is found by reading alone, before anything is written.
fn put_right<F: Flash>(flash: &mut F, report: &mut Report) -> Result<Came, Hindrance>
    ensures leaves { IsTrue F.tells → Leaves (F.image flash.old) (F.image flash.new) result }
    ensures cut { IsTrue F.tells → IsTrue F.cuts
        → IfErr result (λ why. OnFault why (StaysOrMends (F.image flash.old) (F.image flash.new))) }
    ensures needed { IsTrue F.tells
        → IfErr result (λ why. OnSpaceless why (λ need. NeedsPages (F.image flash.old) (F.image flash.new))) }
    ensures size { length (F.image flash.new) ≡ length (F.image flash.old) }
    ensures lent { F.lent flash.new ≡ F.lent flash.old }
    ensures cause { result ≡ Err FaultOfFlash → Rose (F.faults flash.old) (F.faults flash.new) }
    ensures reported { IsTrue F.tells → report.old.mended ≡ []
        → IsToldOf (F.image flash.old) (F.image flash.new) report.new.mended result }
{
    match find_out(flash)? {
        Finding::Sound => Ok(Came::Sound),
        Finding::Strange(bad) => Ok(Came::Strange(bad)),
        Finding::Cut { trouble, bad } => put_cut_right(flash, &trouble, bad, report),
    }
}

// Repairs an image of whose files a cut left this, and which breaks this rule first: first the files, and then the
// database in them.
fn put_cut_right<F: Flash>(
    flash: &mut F,
    trouble: &Trouble,
    bad: BadImage,
    report: &mut Report,
) -> Result<Came, Hindrance>
    requires inside { IsTroubleInside (length (F.image flash.old)) trouble.now }
    ensures leaves { IsTrue F.tells → (IsSound (F.image flash.old) → ⊥)
        → IsLeftByCut (F.image flash.old) trouble.now
        → Leaves (F.image flash.old) (F.image flash.new) result }
    ensures cut { IsTrue F.tells → IsTrue F.cuts → IsLeftByCut (F.image flash.old) trouble.now
        → IfErr result (λ why. OnFault why (StillMends (F.image flash.old) (F.image flash.new))) }
    ensures needed { IsTrue F.tells → IsLeftByCut (F.image flash.old) trouble.now
        → IfErr result (λ why. OnSpaceless why (λ need. NeedsPages (F.image flash.old) (F.image flash.new))) }
    ensures size { length (F.image flash.new) ≡ length (F.image flash.old) }
    ensures lent { F.lent flash.new ≡ F.lent flash.old }
    ensures cause { result ≡ Err FaultOfFlash → Rose (F.faults flash.old) (F.faults flash.new) }
    ensures reported { IsTrue F.tells → IsLeftByCut (F.image flash.old) trouble.now → report.old.mended ≡ []
        → IsToldOf (F.image flash.old) (F.image flash.new) report.new.mended result }
{
    sound_image_breaks_no_rule();
    flash.sectors();
    settle_files(flash, trouble, bad)?;
    mend_image(flash, report)?;
    match judge_image(flash)? {
        Ok(()) => Ok(Came::Repaired),
        Err(bad) => Err(Hindrance::Unsettled(bad)),
    }
}

// Repairs what a cut left of the files of an image that breaks this rule first. Where the pages are lacking to put a tree
// together with its log, it is given up.
fn settle_files<F: Flash>(flash: &mut F, trouble: &Trouble, bad: BadImage) -> Result<(), Hindrance>
    requires inside { IsTroubleInside (length (F.image flash.old)) trouble.now }
    ensures settled { IsTrue F.tells → IsLeftByCut (F.image flash.old) trouble.now
        → OnOk result (IsSettledTo (F.image flash.old) (F.image flash.new)) }
    ensures hindered { IsTrue F.tells → IsCutBy (F.image flash.old) trouble.now
        → IfErr result IsHindered }
    ensures space { IsTrue F.tells → IsLeftByCut (F.image flash.old) trouble.now
        → IfErr result (λ why. OnSpaceless why (StillMendsButLacks (F.image flash.old) (F.image flash.new))) }
    ensures needed { IsTrue F.tells → IsCutBy (F.image flash.old) trouble.now → IfErr result
        (λ why. OnSpaceless why (λ need. IsCopyNeeded (F.image flash.old) (F.image flash.new) trouble.now)) }
    ensures cut { IsTrue F.tells → IsTrue F.cuts → IsLeftByCut (F.image flash.old) trouble.now
        → IfErr result (λ why. OnFault why (StillMends (F.image flash.old) (F.image flash.new))) }
    ensures size { length (F.image flash.new) ≡ length (F.image flash.old) }
    ensures lent { F.lent flash.new ≡ F.lent flash.old }
    ensures later { F.faults flash.old ≤ F.faults flash.new }
    ensures cause { result ≡ Err FaultOfFlash → Rose (F.faults flash.old) (F.faults flash.new) }
{
    flash.sectors();
    match mend_files(flash, trouble, bad) {
        Ok(()) => Ok(()),
        Err(Hindrance::Spaceless { need }) => {
            if give_up_tree(flash, trouble)? {
                Ok(())
            } else {
                Err(Hindrance::Spaceless { need })
            }
        }
        Err(Hindrance::Unsettled(bad)) => Err(Hindrance::Unsettled(bad)),
        Err(Hindrance::Failed) => Err(Hindrance::Failed),
    }
}

// Repairs what a cut left of the files of an image that breaks this rule first.
fn mend_files<F: Flash>(flash: &mut F, trouble: &Trouble, bad: BadImage) -> Result<(), Hindrance>
    requires inside { IsTroubleInside (length (F.image flash.old)) trouble.now }
    ensures mended { IsTrue F.tells → IsCutBy (F.image flash.old) trouble.now
        → OnOk result (IsMended (F.image flash.old) (F.image flash.new)) }
    ensures hindered { IsTrue F.tells → IsCutBy (F.image flash.old) trouble.now
        → IfErr result IsHindered }
    ensures space { IsTrue F.tells → IsCutBy (F.image flash.old) trouble.now
        → IfErr result (λ why. OnSpaceless why (IsCrowded (F.image flash.old) (F.image flash.new))) }
    ensures wanted { IsTrue F.tells → IsCutBy (F.image flash.old) trouble.now → IfErr result
        (λ why. OnSpaceless why (λ need. AwaitsCopy (F.image flash.old) (F.image flash.new) trouble.now)) }
    ensures cut { IsTrue F.tells → IsTrue F.cuts → IsLeftByCut (F.image flash.old) trouble.now
        → IfErr result (λ why. OnFault why (StillMends (F.image flash.old) (F.image flash.new))) }
    ensures size { length (F.image flash.new) ≡ length (F.image flash.old) }
    ensures lent { F.lent flash.new ≡ F.lent flash.old }
    ensures later { F.faults flash.old ≤ F.faults flash.new }
    ensures cause { result ≡ Err FaultOfFlash → Rose (F.faults flash.old) (F.faults flash.new) }
{
    flash.sectors();
    match mend(flash, trouble) {
        Ok(()) => Ok(()),
        Err(MendError::Space { need }) => Err(Hindrance::Spaceless { need }),
        Err(MendError::Failed) => Err(Hindrance::Failed),
        Err(MendError::Unsettled) => Err(Hindrance::Unsettled(bad)),
    }
}
