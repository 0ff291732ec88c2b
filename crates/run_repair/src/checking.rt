ghost use Rattle.std.specs.Prelude.{◌≡◌, Err, IsTrue};
ghost use Rattle.afl_base.specs.Causes.{HasCause, Rose};
ghost use Rattle.run_repair.specs.Checks.{Checks, Finds, IsCheckStatus};

use crate::finding::{Finding, find_out};
use crate::surveying::foretell_image;
use crate::verdicts::{Verdict, say_verdict};
use afl_base::{Failed, Flash, Sink};
use stored_mend::Report;

/// Tells whether an image is sound, and what `repair` would repair where it is not, and answers the status that
/// the program ends with. It reads alone.
///
/// | status | comes |
/// |---|---|
/// | 0 | the image is sound: `sound` was written; or it is not, and `repair` would write: a line was written for each thing that it would repair in its database where the flash has room, and `to be repaired` |
/// | 4, 5 | only where the flash, the sink counted a fault |
/// | 6 | the image is not sound, and no cut leaves such a one: `no image RULE PLACE` was written |
pub fn check<F: Flash, K: Sink>(out: &mut K, flash: &mut F) -> u8
    ensures only { IsCheckStatus result }
    ensures told { IsTrue F.tells → Checks result (F.image flash.old) (K.held out.old) (K.held out.new) }
    ensures same { F.image flash.new ≡ F.image flash.old }
    ensures flash { result ≡ 4 → Rose (F.faults flash.old) (F.faults flash.new) }
    ensures sink { result ≡ 5 → Rose (K.faults out.old) (K.faults out.new) }
    ensures lent { F.lent flash.new ≡ F.lent flash.old }
    ensures sink_lent { K.lent out.new ≡ K.lent out.old }
{
    let mut report = Report::new();
    let verdict = judge_and_foretell(flash, &mut report);
    say_verdict(out, &report, verdict)
}

// What a check comes to. What a repair would repair is added to the report.
fn judge_and_foretell<F: Flash>(flash: &mut F, report: &mut Report) -> Result<Verdict, Failed>
    ensures finds { IsTrue F.tells → Finds (F.image flash.old) result }
    ensures same { F.image flash.new ≡ F.image flash.old }
    ensures lent { F.lent flash.new ≡ F.lent flash.old }
    ensures cause { HasCause (F.faults flash.old) (F.faults flash.new) result }
{
    match find_out(flash)? {
        Finding::Sound => Ok(Verdict::Sound),
        Finding::Strange(bad) => Ok(Verdict::Strange(bad)),
        Finding::Cut { trouble, bad: _ } => {
            foretell_image(flash, &trouble, report)?;
            Ok(Verdict::ToBeRepaired)
        }
    }
}
