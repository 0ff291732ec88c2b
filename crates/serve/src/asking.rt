//! The reply frame to a client's command.

#![tactic(auto)]

ghost use Rattle.std.specs.Prelude.{◌≡◌, ◌≤◌, false, true, ℕ, List, Result, Ok, Some, IsErrOf, IsTrue, OnOk, length};
ghost use Rattle.run_entries.specs.Carried.{standing_of, limits_of};
ghost use Rattle.antelope_engine.specs.Seen.{WhereNoSpace};
ghost use Rattle.db_model.specs.declared.commands.Command.{Command as AnyCommand};
ghost use Rattle.db_model.specs.declared.refusals.Refusal.{Refusal as AnyRefusal};
ghost use Rattle.db_model.specs.Cond.{IsCondition};
ghost use Rattle.db_model.specs.Reading.{IsReader};
ghost use Rattle.db_model.specs.Spelling.{nodes_of};
ghost use Rattle.serve.specs.Answered.{Answered};
ghost use Rattle.serve.specs.Front.{fronted};
ghost use Rattle.run_frames.specs.Frames.{Asked, is_client};
ghost use Rattle.run_frames.specs.Served.{heard, serve_talk};
ghost use Rattle.afl_base.specs.declared.fault.Fault.TheVariants.{Flash};
ghost use Rattle.session_model.specs.Carried.{ChangesAndSends};
ghost use Rattle.session_model.specs.Steps.{HasFaultCause};

use crate::framed::{Begun, Framed};
use crate::hearing::hear;
use crate::replies::refuse;
use afl_base::{Failed, Fault, Files, Sink};
use antelope_engine::{Outcome, Session, Step};
use db_model::Command;
use std::marker::{Brand, PhantomData};

/// Carries out what a client asks for in these bytes, which are read into `command`, and writes the reply
/// frame; where there is no space, nothing is written and nothing is changed.
///
/// # Errors
///
/// `Fault::Sink` leaves a proper prefix of the reply frame, and `Fault::Flash` a part of it. Each comes only
/// where that object counted a fault.
pub fn answer<V: Files, K: Sink>(
    session: &mut Session<V>,
    command: &mut Command,
    client: u8,
    bytes: &[u8],
    out: &mut K,
) -> Result<Step, Fault>
    requires running { session.old.stopped ≡ false }
    requires client { IsTrue (is_client client) }
    requires short { length bytes.now ≤ 512 }
    ensures answered { IsTrue (V.state session.old.files).tells
        → (read : List ℕ → Result AnyCommand AnyRefusal) → IsReader read
        → Answered (serve_talk read) (Asked client bytes.now)
        (limits_of V.Files session.new) result
        (standing_of V.state V.reads session.old (K.held out.old))
        (standing_of V.state V.reads session.new (K.held out.new)) }
    ensures silent { WhereNoSpace result (λ need. K.held out.new ≡ K.held out.old) }
    ensures lacks { WhereNoSpace result (λ need. V.lacks session.new.files need) }
    ensures running { OnOk result (session.new.stopped ≡ false) }
    ensures lost { session.old.lost ≡ false → session.new.lost ≡ true → IsErrOf result Flash }
    ensures frame { ChangesAndSends V.Files K.Sink session.old.files session.new.files
        out.old out.new result }
{
    match hear(client, bytes, command) {
        Ok(()) => reply(session, client, command, out),
        Err(refusal) => match refuse(out, client, &refusal) {
            Ok(()) => Ok(Step::Done(Outcome::Refused)),
            Err(Failed) => Err(Fault::Sink),
        },
    }
}

// Carries out a command, and writes the reply frame.
fn reply<V: Files, K: Sink>(
    session: &mut Session<V>,
    client: u8,
    command: &Command,
    out: &mut K,
) -> Result<Step, Fault>
    requires running { session.old.stopped ≡ false }
    requires condition { IsCondition (nodes_of command.now) }
    ensures answered { IsTrue (V.state session.old.files).tells
        → (read : List ℕ → Result AnyCommand AnyRefusal) (bytes : List ℕ)
        → heard read (Asked client bytes) ≡ Ok command.now
        → Answered (serve_talk read) (Asked client bytes)
        (limits_of V.Files session.new) result
        (standing_of V.state V.reads session.old (K.held out.old))
        (standing_of V.state V.reads session.new (K.held out.new)) }
    ensures silent { WhereNoSpace result (λ need. K.held out.new ≡ K.held out.old) }
    ensures lacks { WhereNoSpace result (λ need. V.lacks session.new.files need) }
    ensures running { OnOk result (session.new.stopped ≡ false) }
    ensures lost { session.old.lost ≡ false → session.new.lost ≡ true → IsErrOf result Flash }
    ensures frame { ChangesAndSends V.Files K.Sink session.old.files session.new.files
        out.old out.new result }
{
    reply_since::<V, K, Brand>(session, client, command, out)
}

// The same through the sink that puts the client first, from now on.
#[tactic(auto, using(session_model::proofs::WellFormed::well_formed))]
fn reply_since<V: Files, K: Sink, B: Begun>(
    session: &mut Session<V>,
    client: u8,
    command: &Command,
    out: &mut K,
) -> Result<Step, Fault>
    requires begun { B.start ≡ Some (fronted (K.held out.old) (K.faults out.old) (Some client) false) }
    requires running { session.old.stopped ≡ false }
    requires condition { IsCondition (nodes_of command.now) }
    ensures answered { IsTrue (V.state session.old.files).tells
        → (read : List ℕ → Result AnyCommand AnyRefusal) (bytes : List ℕ)
        → heard read (Asked client bytes) ≡ Ok command.now
        → Answered (serve_talk read) (Asked client bytes)
        (limits_of V.Files session.new) result
        (standing_of V.state V.reads session.old (K.held out.old))
        (standing_of V.state V.reads session.new (K.held out.new)) }
    ensures silent { WhereNoSpace result (λ need. K.held out.new ≡ K.held out.old) }
    ensures lacks { WhereNoSpace result (λ need. V.lacks session.new.files need) }
    ensures running { OnOk result (session.new.stopped ≡ false) }
    ensures lost { session.old.lost ≡ false → session.new.lost ≡ true → IsErrOf result Flash }
    ensures frame { ChangesAndSends V.Files K.Sink session.old.files session.new.files
        out.old out.new result }
{
    let mut framed = Framed {
        out,
        front: Some(client),
        failed: false,
        begun: PhantomData::<B>,
    };
    match session.exec(command, &mut framed) {
        Ok(Step::Done(outcome)) => match framed.finish() {
            Ok(()) => Ok(Step::Done(outcome)),
            Err(Failed) => Err(Fault::Sink),
        },
        Ok(Step::NoSpace { need }) => Ok(Step::NoSpace { need }),
        Err(Fault::Flash) => Err(Fault::Flash),
        Err(Fault::Sink) => Err(Fault::Sink),
    }
}
