ghost use Rattle.std.specs.Prelude.{◌≡◌, IfErr, IfOk, IsTrue, None, OnOk};
ghost use Rattle.afl_base.specs.Causes.{HasCause};
ghost use Rattle.afl_base.specs.Keeping.{OnlyReads};
ghost use Rattle.image_model.specs.Images.{IsFirstBroken, IsSound};
ghost use Rattle.stored.specs.Sound.{BreaksFirst, IsSoundTable};

use afl_base::{Failed, Files, Flash};
use coffee_layout::BadImage;
use coffee_volume::{Unlisted, Volume, list};
use flash_views::Handed;
use index_set::HashTables;
use session_start::{nothing_held, open_database};

/// Judges an image by all twenty rules. Nothing is written, where it fails too. The inner error comes exactly where the
/// image is not sound, and names its first broken rule and that rule's first place.
#[inline(never)]
pub fn judge_image<F: Flash>(flash: &mut F) -> Result<Result<(), BadImage>, Failed>
    ensures sound { IsTrue F.tells → IfOk result (λ r. OnOk r (IsSound (F.image flash.old))) }
    ensures bad { IsTrue F.tells → IfOk result (λ r. IfErr r (λ bad. IsFirstBroken (F.image flash.old) bad.rule bad.place)) }
    ensures same { F.image flash.new ≡ F.image flash.old }
    ensures lent { F.lent flash.new ≡ F.lent flash.old }
    ensures cause { HasCause (F.faults flash.old) (F.faults flash.new) result }
{
    let listed = match list(flash) {
        Ok(listed) => listed,
        Err(Unlisted::Bad(bad)) => return Ok(Err(bad)),
        Err(Unlisted::Failed) => return Err(Failed),
    };
    let mut volume = Volume::over(Handed { flash }, listed);
    judge_database(&mut volume)
}

// Judges the database in files, by the rules 14 to 20.
fn judge_database<V: Files>(files: &mut V) -> Result<Result<(), BadImage>, Failed>
    requires idle { (V.state files.old).draft ≡ None }
    ensures sound { IsTrue (V.state files.old).tells → IfOk result (λ r.
        OnOk r (IsSoundTable (V.state files.old).files)) }
    ensures bad { IsTrue (V.state files.old).tells → IfOk result (λ r. IfErr r (λ bad.
        BreaksFirst (V.state files.old).files bad.rule bad.place)) }
    ensures frame { OnlyReads V.state V.lent V.reads V.faults files.old files.new result }
{
    let mut tables = HashTables::new();
    let mut held = nothing_held();
    match open_database(files, &mut tables, &mut held) {
        Ok(Ok(())) => Ok(Ok(())),
        Ok(Err(broken)) => Ok(Err(BadImage {
            rule: broken.rule,
            place: broken.place,
        })),
        Err(Failed) => Err(Failed),
    }
}
