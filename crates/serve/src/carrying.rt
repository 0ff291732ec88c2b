//! A client's command is carried out.

#![tactic(auto)]

ghost use Rattle.std.specs.Prelude.{◌≡◌, ◌≤◌, ◌∷◌, [], false, true, ℕ, List, Result, IfErr, IsErrOf, IsTrue, OnOk, length};
ghost use Rattle.run_entries.specs.Carried.{Carried, HaltsIn, ChangesOrHalts, standing_of, limits_of};
ghost use Rattle.db_model.specs.declared.commands.Command.{Command as AnyCommand};
ghost use Rattle.db_model.specs.declared.refusals.Refusal.{Refusal as AnyRefusal};
ghost use Rattle.db_model.specs.Reading.{IsReader};
ghost use Rattle.run_input.specs.declared.ending.Ending.TheVariants as Ending;
ghost use Rattle.run_frames.specs.Frames.{Asked, is_client};
ghost use Rattle.run_frames.specs.Served.{serve_talk};

use crate::asking::answer;
use crate::replies::refuse;
use afl_base::{Failed, Fault, Files, Sink};
use antelope_engine::{Session, Step};
use db_model::{Command, Refusal};
use run_input::Ending;

/// Answers a client's command, or writes that there is no space for it.
pub fn carry_out<V: Files, K: Sink>(
    session: &mut Session<V>,
    command: &mut Command,
    client: u8,
    bytes: &[u8],
    out: &mut K,
) -> Result<(), Ending>
    requires running { session.old.stopped ≡ false }
    requires client { IsTrue (is_client client) }
    requires short { length bytes.now ≤ 512 }
    ensures carried { IsTrue (V.state session.old.files).tells → OnOk result (
        (read : List ℕ → Result AnyCommand AnyRefusal) → IsReader read
        → Carried (serve_talk read) (Asked client bytes.now ∷ []) (standing_of V.state V.reads session.old (K.held out.old))
        (standing_of V.state V.reads session.new (K.held out.new))) }
    ensures halts { IsTrue (V.state session.old.files).tells → IfErr result (λ halt.
        (read : List ℕ → Result AnyCommand AnyRefusal) → IsReader read
        → HaltsIn (serve_talk read) (limits_of V.Files session.new) (Asked client bytes.now ∷ [])
        (standing_of V.state V.reads session.old (K.held out.old))
        (standing_of V.state V.reads session.new (K.held out.new)) halt) }
    ensures running { OnOk result (session.new.stopped ≡ false) }
    ensures lost { session.old.lost ≡ false → session.new.lost ≡ true → IsErrOf result Ending.Flash }
    ensures frame { ChangesOrHalts V.Files K.Sink session.old.files session.new.files
        out.old out.new result }
{
    match answer(session, command, client, bytes, out) {
        Ok(Step::Done(_)) => Ok(()),
        Ok(Step::NoSpace { need }) => match refuse(out, client, &Refusal::Space { need }) {
            Ok(()) => Err(Ending::Space),
            Err(Failed) => Err(Ending::Sink),
        },
        Err(Fault::Flash) => Err(Ending::Flash),
        Err(Fault::Sink) => Err(Ending::Sink),
    }
}
