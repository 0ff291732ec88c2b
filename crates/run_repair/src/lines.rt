ghost use Rattle.std.specs.Prelude.{◌≡◌, ◌++◌, codes, Err, OnErr, OnOk};
ghost use Rattle.std.specs.Io.KnownBytes.{append_known};
ghost use Rattle.afl_base.specs.Causes.{HasCause, Rose};
ghost use Rattle.afl_base.specs.Keeping.{Sends};
ghost use Rattle.db_model.specs.ReplyText.{line};
ghost use Rattle.reply_text.specs.WroteLess.{WroteLess};
ghost use Rattle.run_model.specs.Runs.{image_line};
ghost use Rattle.stored_mend.specs.Report.{report_text};
ghost use Rattle.run_repair.specs.Repairs.{IsRepairStatus, IsSaid, said, status_after};
ghost use Rattle.run_repair.specs.declared.came.Hindrance.TheVariants.{Failed as FaultOfFlash};

use crate::came::{Came, Hindrance};
use afl_base::{Failed, Sink};
use coffee_layout::BadImage;
use db_model::Refusal;
use reply_text::{write_all, write_refusal};
use run_entries::write_image_line;
use stored_mend::{Report, write_report};

/// Says what a repair came to, and answers the status.
pub fn say<K: Sink>(out: &mut K, report: &Report, came: Result<Came, Hindrance>) -> u8
    ensures says { IsSaid result report.now.mended came (K.held out.old) (K.held out.new) }
    ensures only { IsRepairStatus result }
    ensures fault { result ≡ 4 → came ≡ Err FaultOfFlash }
    ensures rose { result ≡ 5 → Rose (K.faults out.old) (K.faults out.new) }
    ensures lent { K.lent out.new ≡ K.lent out.old }
{
    match write_came(out, report, came) {
        Ok(()) => status(came),
        Err(Failed) => 5,
    }
}

fn write_came<K: Sink>(
    out: &mut K,
    report: &Report,
    came: Result<Came, Hindrance>,
) -> Result<(), Failed>
    ensures written { let all = said report.now.mended came in
        OnOk result (K.held out.new ≡ append_known (K.held out.old) all) }
    ensures failed { let all = said report.now.mended came in
        OnErr result (WroteLess (K.held out.old) (K.held out.new) all) }
    ensures lent { K.lent out.new ≡ K.lent out.old }
    ensures cause { HasCause (K.faults out.old) (K.faults out.new) result }
{
    match came {
        Ok(Came::Sound) => write_all(out, b"sound\n"),
        Ok(Came::Repaired) => write_repaired(out, report),
        Ok(Came::Strange(bad)) => write_broken(out, bad),
        Err(Hindrance::Spaceless { need }) => write_refusal(out, &Refusal::Space { need }),
        Err(Hindrance::Unsettled(bad)) => write_broken(out, bad),
        Err(Hindrance::Failed) => Ok(()),
    }
}

// The lines of a report, and that the image is repaired.
#[tactic(auto, using(reply_text::proofs::Pieces::less_front, reply_text::proofs::Pieces::less_behind))]
fn write_repaired<K: Sink>(out: &mut K, report: &Report) -> Result<(), Failed>
    ensures written { let all = report_text report.now.mended ++ line (codes "repaired") in
        OnOk result (K.held out.new ≡ append_known (K.held out.old) all) }
    ensures failed { let all = report_text report.now.mended ++ line (codes "repaired") in
        OnErr result (WroteLess (K.held out.old) (K.held out.new) all) }
    ensures frame { Sends K.lent K.faults out.old out.new result }
{
    write_report(out, report)?;
    write_all(out, b"repaired\n")
}

/// Writes the line of an image that is not sound.
pub fn write_broken<K: Sink>(out: &mut K, bad: BadImage) -> Result<(), Failed>
    ensures written { let all = image_line bad.rule bad.place in
        OnOk result (K.held out.new ≡ append_known (K.held out.old) all) }
    ensures failed { let all = image_line bad.rule bad.place in
        OnErr result (WroteLess (K.held out.old) (K.held out.new) all) }
    ensures lent { K.lent out.new ≡ K.lent out.old }
    ensures cause { HasCause (K.faults out.old) (K.faults out.new) result }
{
    write_image_line(out, bad.rule, bad.place)
}

fn status(came: Result<Came, Hindrance>) -> u8
    ensures { result ≡ status_after came }
{
    match came {
        Ok(Came::Sound) | Ok(Came::Repaired) => 0,
        Ok(Came::Strange(_)) | Err(Hindrance::Unsettled(_)) => 6,
        Err(Hindrance::Spaceless { need: _ }) => 3,
        Err(Hindrance::Failed) => 4,
    }
}
