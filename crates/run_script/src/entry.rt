//! One entry of a script.

#![tactic(auto)]

ghost use Rattle.std.specs.Prelude.{◌≡◌, ◌≤◌, ◌∷◌, [], false, true, ℕ, List, Result, Ok, IfErr, IsErrOf, IsTrue, OnErr, OnOk, length};
ghost use Rattle.std.specs.Io.KnownBytes.{append_known};
ghost use Rattle.afl_base.specs.Causes.{Rose};
ghost use Rattle.db_model.specs.declared.commands.Command.{Command as AnyCommand};
ghost use Rattle.db_model.specs.declared.refusals.Refusal.{Refusal as AnyRefusal};
ghost use Rattle.db_model.specs.Reading.{IsReader};
ghost use Rattle.db_model.specs.ReplyText.{refusal_text};
ghost use Rattle.db_model.specs.Cond.{IsCondition};
ghost use Rattle.db_model.specs.Script.{Bytes};
ghost use Rattle.db_model.specs.Spelling.{nodes_of};
ghost use Rattle.run_input.specs.declared.ending.Ending.TheVariants as Ending;
ghost use Rattle.reply_text.specs.WroteLess.{WroteLess};
ghost use Rattle.run_entries.specs.Carried.{Carried, HaltsIn, ChangesOrHalts, standing_of, limits_of};
ghost use Rattle.run_model.specs.Scripts.{script_talk};

use afl_base::{Failed, Fault, Files, Sink};
use antelope_engine::{Session, Step};
use aql_parse::{parse, readings_are_unique};
use db_model::{Command, Refusal};
use reply_text::write_refusal;
use run_input::Ending;

/// Writes why an entry is refused.
pub fn refuse<K: Sink>(out: &mut K, refusal: &Refusal) -> Result<(), Ending>
    ensures written { OnOk result
        (K.held out.new ≡ append_known (K.held out.old) (refusal_text refusal.now)) }
    ensures failed { OnErr result (WroteLess (K.held out.old) (K.held out.new) (refusal_text refusal.now)) }
    ensures sink { IfErr result (λ halt. halt ≡ Ending.Sink) }
    ensures rose { OnErr result (Rose (K.faults out.old) (K.faults out.new)) }
    ensures later { K.faults out.old ≤ K.faults out.new }
    ensures lent { K.lent out.new ≡ K.lent out.old }
{
    match write_refusal(out, refusal) {
        Ok(()) => Ok(()),
        Err(Failed) => Err(Ending::Sink),
    }
}

/// Carries out the bytes of a command, which are read into `command`, and writes the reply.
pub fn carry_out<V: Files, K: Sink>(
    session: &mut Session<V>,
    command: &mut Command,
    bytes: &[u8],
    out: &mut K,
) -> Result<(), Ending>
    requires running { session.old.stopped ≡ false }
    requires short { length bytes.now ≤ 512 }
    ensures carried { IsTrue (V.state session.old.files).tells → OnOk result (
        (read : List ℕ → Result AnyCommand AnyRefusal) → IsReader read
        → Carried (script_talk read) (Bytes bytes.now ∷ []) (standing_of V.state V.reads session.old (K.held out.old))
        (standing_of V.state V.reads session.new (K.held out.new))) }
    ensures halts { IsTrue (V.state session.old.files).tells → IfErr result (λ halt.
        (read : List ℕ → Result AnyCommand AnyRefusal) → IsReader read
        → HaltsIn (script_talk read) (limits_of V.Files session.new) (Bytes bytes.now ∷ [])
        (standing_of V.state V.reads session.old (K.held out.old))
        (standing_of V.state V.reads session.new (K.held out.new)) halt) }
    ensures running { OnOk result (session.new.stopped ≡ false) }
    ensures lost { session.old.lost ≡ false → session.new.lost ≡ true → IsErrOf result Ending.Flash }
    ensures frame { ChangesOrHalts V.Files K.Sink session.old.files session.new.files
        out.old out.new result }
{
    readings_are_unique();
    match parse(bytes, command) {
        Ok(()) => execute(session, command, out),
        Err(refusal) => {
            refuse(out, &refusal)?;
            Ok(())
        }
    }
}

// Carries out a command, and writes its reply or that there is no space for it.
#[tactic(auto, using(session_model::proofs::WellFormed::well_formed))]
fn execute<V: Files, K: Sink>(
    session: &mut Session<V>,
    command: &Command,
    out: &mut K,
) -> Result<(), Ending>
    requires running { session.old.stopped ≡ false }
    requires condition { IsCondition (nodes_of command.now) }
    ensures carried { IsTrue (V.state session.old.files).tells → OnOk result (
        (read : List ℕ → Result AnyCommand AnyRefusal) (bytes : List ℕ) → read bytes ≡ Ok command.now
        → Carried (script_talk read) (Bytes bytes ∷ []) (standing_of V.state V.reads session.old (K.held out.old))
        (standing_of V.state V.reads session.new (K.held out.new))) }
    ensures halts { IsTrue (V.state session.old.files).tells → IfErr result (λ halt.
        (read : List ℕ → Result AnyCommand AnyRefusal) (bytes : List ℕ) → read bytes ≡ Ok command.now
        → HaltsIn (script_talk read) (limits_of V.Files session.new) (Bytes bytes ∷ [])
        (standing_of V.state V.reads session.old (K.held out.old))
        (standing_of V.state V.reads session.new (K.held out.new)) halt) }
    ensures running { OnOk result (session.new.stopped ≡ false) }
    ensures lost { session.old.lost ≡ false → session.new.lost ≡ true → IsErrOf result Ending.Flash }
    ensures frame { ChangesOrHalts V.Files K.Sink session.old.files session.new.files
        out.old out.new result }
{
    match session.exec(command, out) {
        Ok(Step::Done(_)) => Ok(()),
        Ok(Step::NoSpace { need }) => {
            refuse(out, &Refusal::Space { need })?;
            Err(Ending::Space)
        }
        Err(Fault::Flash) => Err(Ending::Flash),
        Err(Fault::Sink) => Err(Ending::Sink),
    }
}
