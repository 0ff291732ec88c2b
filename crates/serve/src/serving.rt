//! A line of frames that comes byte by byte.

#![tactic(auto)]

ghost use Rattle.std.specs.Prelude.{◌≡◌, ◌⊎◌, ◌≤◌, ◌∷◌, [], false, true, ℕ, List, Result, IfErr, IsErrOf, IsTrue, OnOk, length};
ghost use Rattle.run_entries.specs.Carried.{Carried, ChangesOrHalts, HaltsIn, HasHaltCause, standing_of, limits_of};
ghost use Rattle.run_entries.specs.Taking.{EndsInput, HaltsAtLast, HaltsInBytes, HasOne, TakesBytes, running};
ghost use Rattle.db_model.specs.declared.commands.Command.{Command as AnyCommand};
ghost use Rattle.db_model.specs.declared.refusals.Refusal.{Refusal as AnyRefusal};
ghost use Rattle.db_model.specs.Reading.{IsReader};
ghost use Rattle.run_input.specs.declared.ending.Ending.TheVariants as Ending;
ghost use Rattle.serve.specs.Gathers.{GathersPart, HasFrame, told};
ghost use Rattle.serve.specs.Input.{frame_input};
ghost use Rattle.run_frames.specs.Frames.{Frame, frame_cut};
ghost use Rattle.run_frames.specs.Served.{serve_talk};

use crate::carrying::carry_out;
use crate::decoder::Decoder;
use crate::fed::Fed;
use crate::replies::refuse;
use afl_base::{Failed, Files, Sink};
use antelope_engine::Session;
use db_model::{Command, Refusal};
use run_input::{Ending, Taker};

/// What takes the bytes of a line and answers its frames over a session that is lent to it.
#[derive(Drop)]
pub struct Server<'a, V: Files> {
    pub session: &'a mut Session<V>,
    pub decoder: Decoder,
    // The command at hand.
    pub(crate) command: Command,
}

impl<'a, V: Files> Taker for Server<'a, V> {
    ghost use Rattle.std.specs.Prelude.{◌≡◌, ◌∷◌, []};
    ghost use Rattle.std.proofs.Common.{refl, ◌∙◌};
    ghost use Rattle.run_entries.proofs.SentReplies.{sent_behind, sent_reply};
    ghost use Rattle.run_entries.proofs.Taken.{halted_before, halted_behind, taken_more, taken_none};
    ghost use Rattle.run_entries.specs.Taking.{EndsInput, HaltsAtLast, HaltsInBytes, HasOne, TakesBytes, running};
    ghost use Rattle.serve.specs.Input.{frame_input, frame_some};
    ghost use Rattle.run_frames.proofs.Ending.{frame_parts};
    ghost use Rattle.run_frames.specs.Frames.{frame_cut, frame_line};

    ghost Takes = { λ a came b. TakesBytes frame_input V.Files
        (running a.0.session.now a.0.decoder a.1.held a.1.faults) came
        (running b.0.session.now b.0.decoder b.1.held b.1.faults) };

    ghost Ends = { λ a b. EndsInput frame_input V.Files
        (running a.0.session.now a.0.decoder a.1.held a.1.faults)
        (running b.0.session.now b.0.decoder b.1.held b.1.faults) };

    ghost Halts = { λ a came b halt. HaltsInBytes frame_input V.Files
        (running a.0.session.now a.0.decoder a.1.held a.1.faults) came
        (running b.0.session.now b.0.decoder b.1.held b.1.faults) halt };

    ghost HaltsAtEnd = { λ a b halt. HaltsAtLast frame_input V.Files
        (running a.0.session.now a.0.decoder a.1.held a.1.faults)
        (running b.0.session.now b.0.decoder b.1.held b.1.faults) halt };

    ghost HasReply = { λ a byte. HasOne frame_input a.decoder (λ q. frame_cut.ended q (byte ∷ [])) };

    ghost HasReplyAtEnd = { λ a. HasOne frame_input a.decoder (λ q. frame_cut.left q) };

    fn take<K: Sink>(&mut self, out: &mut K, byte: u8) -> Result<(), Ending> {
        take_byte(
            self.session,
            &mut self.command,
            &mut self.decoder,
            out,
            byte,
        )
    }

    fn take_plain(&mut self, _bytes: &[u8]) -> usize {
        0
    }

    fn end<K: Sink>(&mut self, out: &mut K) -> Result<(), Ending> {
        take_end(self.session, &self.decoder, out)
    }

    ghost stays = { λ a b. b.session.ghost_name ≡ a.session.ghost_name };

    ghost stayed = { λ a. refl };

    ghost stayed_on = { λ a b c e f. f ∙ e };

    ghost none = { λ a. taken_none frame_input V.Files frame_line frame_parts
        (running a.0.session.now a.0.decoder a.1.held a.1.faults) };

    ghost more = { λ a b c xs ys e f.
        taken_more frame_input V.Files frame_line frame_parts
        (running a.0.session.now a.0.decoder a.1.held a.1.faults) (running b.0.session.now b.0.decoder b.1.held b.1.faults)
        (running c.0.session.now c.0.decoder c.1.held c.1.faults) xs ys e f };

    ghost halts_behind = { λ a b c xs ys halt e f.
        halted_behind frame_input V.Files frame_line frame_parts
        (running a.0.session.now a.0.decoder a.1.held a.1.faults) (running b.0.session.now b.0.decoder b.1.held b.1.faults)
        (running c.0.session.now c.0.decoder c.1.held c.1.faults) xs ys halt e f };

    ghost halts_before = { λ a b xs ys halt e.
        halted_before frame_input V.Files frame_line frame_parts
        (running a.0.session.now a.0.decoder a.1.held a.1.faults) (running b.0.session.now b.0.decoder b.1.held b.1.faults)
        xs ys halt e };

    ghost sent = { λ a b now byte answered halt one takes halts went later sent.
        sent_behind frame_input V.Files frame_some
        (running a.0.session.now a.0.decoder a.1.held a.1.faults) (running b.0.session.now b.0.decoder b.1.held b.1.faults)
        now.held now.faults (byte ∷ []) answered halt one takes halts went later sent };

    ghost sent_at_end = { λ a b now answered halt one ends halts went later sent.
        sent_reply frame_input V.Files frame_some
        (running a.0.session.now a.0.decoder a.1.held a.1.faults) (running b.0.session.now b.0.decoder b.1.held b.1.faults)
        now.held now.faults frame_cut.left one went later answered halt ends halts sent };
}

// Takes one byte of a line.
fn take_byte<V: Files, K: Sink>(
    session: &mut Session<V>,
    command: &mut Command,
    decoder: &mut Decoder,
    out: &mut K,
    byte: u8,
) -> Result<(), Ending>
    ensures takes { OnOk result (TakesBytes frame_input V.Files
        (running session.old decoder.old (K.held out.old) (K.faults out.old)) (byte ∷ [])
        (running session.new decoder.new (K.held out.new) (K.faults out.new))) }
    ensures halts { IfErr result (λ halt. HaltsInBytes frame_input V.Files
        (running session.old decoder.old (K.held out.old) (K.faults out.old)) (byte ∷ [])
        (running session.new decoder.new (K.held out.new) (K.faults out.new)) halt) }
    ensures silent { (out.new ≡ out.old)
        ⊎ HasOne frame_input decoder.old (λ q. frame_cut.ended q (byte ∷ [])) }
    ensures lent { K.lent out.new ≡ K.lent out.old }
{
    if session.is_stopped() {
        return Err(Ending::Flash);
    }
    let fed = decoder.feed(byte);
    answer_fed(session, command, decoder, fed, out)?;
    Ok(())
}

// Takes the end of a line: bytes after the last END are no frame.
fn take_end<V: Files, K: Sink>(
    session: &mut Session<V>,
    decoder: &Decoder,
    out: &mut K,
) -> Result<(), Ending>
    ensures ends { OnOk result (EndsInput frame_input V.Files
        (running session.old decoder.now (K.held out.old) (K.faults out.old))
        (running session.new decoder.now (K.held out.new) (K.faults out.new))) }
    ensures halts { IfErr result (λ halt. HaltsAtLast frame_input V.Files
        (running session.old decoder.now (K.held out.old) (K.faults out.old))
        (running session.new decoder.now (K.held out.new) (K.faults out.new)) halt) }
    ensures silent { (out.new ≡ out.old) ⊎ HasOne frame_input decoder.now (λ q. frame_cut.left q) }
    ensures lent { K.lent out.new ≡ K.lent out.old }
{
    if session.is_stopped() {
        return Err(Ending::Flash);
    }
    if !decoder.is_begun() {
        return Ok(());
    }
    match refuse(out, 0, &Refusal::Unfinished) {
        Ok(()) => Ok(()),
        Err(Failed) => Err(Ending::Sink),
    }
}

// Answers the frame that the last byte ended, if it ended one.
fn answer_fed<V: Files, K: Sink>(
    session: &mut Session<V>,
    command: &mut Command,
    decoder: &Decoder,
    fed: Fed,
    out: &mut K,
) -> Result<(), Ending>
    requires running { session.old.stopped ≡ false }
    requires frame { fed ≡ Fed.Frame → HasFrame decoder.now }
    ensures carried { IsTrue (V.state session.old.files).tells → OnOk result (
        (read : List ℕ → Result AnyCommand AnyRefusal) → IsReader read
        → Carried (serve_talk read) (told fed decoder.now) (standing_of V.state V.reads session.old (K.held out.old))
        (standing_of V.state V.reads session.new (K.held out.new))) }
    ensures halts { IsTrue (V.state session.old.files).tells → IfErr result (λ halt.
        (read : List ℕ → Result AnyCommand AnyRefusal) → IsReader read
        → HaltsIn (serve_talk read) (limits_of V.Files session.new) (told fed decoder.now)
        (standing_of V.state V.reads session.old (K.held out.old))
        (standing_of V.state V.reads session.new (K.held out.new)) halt) }
    ensures running { OnOk result (session.new.stopped ≡ false) }
    ensures lost { session.old.lost ≡ false → session.new.lost ≡ true → IsErrOf result Ending.Flash }
    ensures silent { (out.new ≡ out.old) ⊎ ((frame : Frame) × (told fed decoder.now ≡ frame ∷ [])) }
    ensures frame { ChangesOrHalts V.Files K.Sink session.old.files session.new.files
        out.old out.new result }
{
    match fed {
        Fed::More => Ok(()),
        Fed::Frame => {
            let client = decoder.client();
            match carry_out(session, command, client, decoder.command(), out) {
                Ok(()) => Ok(()),
                Err(halt) => Err(halt),
            }
        }
        Fed::Bad => match refuse(out, 0, &Refusal::Frame) {
            Ok(()) => Ok(()),
            Err(Failed) => Err(Ending::Sink),
        },
        Fed::Long { client } => match refuse(out, client, &Refusal::Long) {
            Ok(()) => Ok(()),
            Err(Failed) => Err(Ending::Sink),
        },
    }
}
