ghost use Rattle.std.specs.Prelude.{◌≡◌, ◌⊎◌, IsTrue, length};
ghost use Rattle.afl_base.specs.Causes.{Rose};
ghost use Rattle.run_collect.specs.Collects.{BreaksCollectionOff, Collects, IsCollectStatus};
ghost use Rattle.run_collect.specs.Comes.{BreaksCollectionBy, CollectsTo};
ghost use Rattle.run_collect.specs.declared.came.Came.TheVariants.{Failed as FaultOfFlash};
ghost use Rattle.image_model.specs.Images.{IsSound};

use crate::came::Came;
use crate::lines::say;
use afl_base::{Failed, Flash, Sink};
use coffee_cuts::torn_collections_mend;
use image_model::sound_image_breaks_no_rule;
use run_repair::judge_image;

/// Erases each sector that has a page in use and none that is active, as a command does that finds no free pages, and
/// writes `sectors erased N`. The database stays. So as long as free pages are found nothing is to be collected, and a
/// node chooses when its flash is busy for that long.
///
/// | status | comes |
/// |---|---|
/// | 0 | the sectors were erased, and their number was written |
/// | 4, 5 | only where the flash, the sink counted a fault |
/// | 6 | the image is not sound: `no image RULE PLACE` was written, and it is as it was |
pub fn collect<F: Flash, K: Sink>(out: &mut K, flash: &mut F) -> u8
    ensures only { IsCollectStatus result }
    ensures told { IsTrue F.tells
        → Collects result (F.image flash.old) (F.image flash.new) (K.held out.old) (K.held out.new) }
    ensures broken_off { IsTrue F.tells → IsTrue F.cuts → result ≡ 4
        → BreaksCollectionOff (F.image flash.old) (F.image flash.new) }
    ensures unsound { IsTrue F.tells → (IsSound (F.image flash.old) → ⊥)
        → (result ≡ 4) ⊎ (result ≡ 5) ⊎ (result ≡ 6) }
    ensures no_fault { IsTrue F.tells → IsSound (F.image flash.old)
        → (Rose (F.faults flash.old) (F.faults flash.new) → ⊥)
        → (Rose (K.faults out.old) (K.faults out.new) → ⊥) → result ≡ 0 }
    ensures flash { result ≡ 4 → Rose (F.faults flash.old) (F.faults flash.new) }
    ensures sink { result ≡ 5 → Rose (K.faults out.old) (K.faults out.new) }
    ensures size { length (F.image flash.new) ≡ length (F.image flash.old) }
    ensures lent { F.lent flash.new ≡ F.lent flash.old }
    ensures sink_lent { K.lent out.new ≡ K.lent out.old }
{
    sound_image_breaks_no_rule();
    let came = come(flash);
    say(out, came)
}

// What a collection comes to. The image is judged by reading alone, before anything is written.
fn come<F: Flash>(flash: &mut F) -> Came
    ensures comes { IsTrue F.tells → CollectsTo (F.image flash.old) (F.image flash.new) result }
    ensures broken { IsTrue F.tells → IsTrue F.cuts → BreaksCollectionBy (F.image flash.old) (F.image flash.new) result }
    ensures size { length (F.image flash.new) ≡ length (F.image flash.old) }
    ensures lent { F.lent flash.new ≡ F.lent flash.old }
    ensures cause { result ≡ FaultOfFlash → Rose (F.faults flash.old) (F.faults flash.new) }
{
    torn_collections_mend();
    flash.sectors();
    match judge_image(flash) {
        Ok(Ok(())) => {}
        Ok(Err(bad)) => return Came::Refused(bad),
        Err(Failed) => return Came::Failed,
    }
    match coffee_space::collect(flash) {
        Ok(erased) => Came::Collected { erased },
        Err(Failed) => Came::Failed,
    }
}
