ghost use Rattle.std.specs.Prelude.{◌≡◌, ◌++◌, codes, is_err, true, OnErr, OnOk};
ghost use Rattle.std.specs.Io.KnownBytes.{append_known};
ghost use Rattle.afl_base.specs.Causes.{HasCause, Rose};
ghost use Rattle.afl_base.specs.Keeping.{Sends};
ghost use Rattle.db_model.specs.ReplyText.{line};
ghost use Rattle.reply_text.specs.WroteLess.{WroteLess};
ghost use Rattle.stored_mend.specs.Report.{report_text};
ghost use Rattle.run_repair.specs.Checks.{IsCheckStatus, IsCheckSaid, check_status, check_text};

use crate::lines::write_broken;
use afl_base::{Failed, Sink};
use coffee_layout::BadImage;
use reply_text::write_all;
use stored_mend::{Report, write_report};

/// What a check came to.
#[derive(Clone, Copy, PartialEq, Eq, Debug)]
pub enum Verdict {
    /// The image is sound.
    Sound,
    /// It is not, and a repair would write.
    ToBeRepaired,
    /// No cut leaves such an image, of which this is the first broken rule.
    Strange(BadImage),
}

/// Says what a check came to, and answers the status.
pub fn say_verdict<K: Sink>(out: &mut K, report: &Report, came: Result<Verdict, Failed>) -> u8
    ensures says { IsCheckSaid result report.now.mended came (K.held out.old) (K.held out.new) }
    ensures only { IsCheckStatus result }
    ensures fault { result ≡ 4 → is_err came ≡ true }
    ensures rose { result ≡ 5 → Rose (K.faults out.old) (K.faults out.new) }
    ensures lent { K.lent out.new ≡ K.lent out.old }
{
    match write_verdict(out, report, came) {
        Ok(()) => status(came),
        Err(Failed) => 5,
    }
}

fn write_verdict<K: Sink>(
    out: &mut K,
    report: &Report,
    came: Result<Verdict, Failed>,
) -> Result<(), Failed>
    ensures written { let all = check_text report.now.mended came in
        OnOk result (K.held out.new ≡ append_known (K.held out.old) all) }
    ensures failed { let all = check_text report.now.mended came in
        OnErr result (WroteLess (K.held out.old) (K.held out.new) all) }
    ensures lent { K.lent out.new ≡ K.lent out.old }
    ensures cause { HasCause (K.faults out.old) (K.faults out.new) result }
{
    match came {
        Ok(Verdict::Sound) => write_all(out, b"sound\n"),
        Ok(Verdict::ToBeRepaired) => write_foretold(out, report),
        Ok(Verdict::Strange(bad)) => write_broken(out, bad),
        Err(Failed) => Ok(()),
    }
}

// The lines of a report, and that the image must be repaired.
#[tactic(auto, using(reply_text::proofs::Pieces::less_front, reply_text::proofs::Pieces::less_behind))]
fn write_foretold<K: Sink>(out: &mut K, report: &Report) -> Result<(), Failed>
    ensures written { let all = report_text report.now.mended ++ line (codes "to be repaired") in
        OnOk result (K.held out.new ≡ append_known (K.held out.old) all) }
    ensures failed { let all = report_text report.now.mended ++ line (codes "to be repaired") in
        OnErr result (WroteLess (K.held out.old) (K.held out.new) all) }
    ensures frame { Sends K.lent K.faults out.old out.new result }
{
    write_report(out, report)?;
    write_to_be_repaired(out)
}

fn write_to_be_repaired<K: Sink>(out: &mut K) -> Result<(), Failed>
    ensures written { let all = line (codes "to be repaired") in
        OnOk result (K.held out.new ≡ append_known (K.held out.old) all) }
    ensures failed { let all = line (codes "to be repaired") in
        OnErr result (WroteLess (K.held out.old) (K.held out.new) all) }
    ensures frame { Sends K.lent K.faults out.old out.new result }
{
    write_all(out, b"to be repaired\n")
}

fn status(came: Result<Verdict, Failed>) -> u8
    ensures { result ≡ check_status came }
{
    match came {
        Ok(Verdict::Sound) | Ok(Verdict::ToBeRepaired) => 0,
        Ok(Verdict::Strange(_)) => 6,
        Err(Failed) => 4,
    }
}
