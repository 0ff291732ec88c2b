//! A script that comes byte by byte.

#![tactic(auto)]

ghost use Rattle.std.specs.Prelude.{◌≡◌, ◌⊎◌, ◌≤◌, ◌∷◌, [], false, true, ℕ, List, Result, IfErr, IsErrOf, IsTrue, OnOk, length, take};
ghost use Rattle.db_model.specs.declared.commands.Command.{Command as AnyCommand};
ghost use Rattle.db_model.specs.declared.refusals.Refusal.{Refusal as AnyRefusal};
ghost use Rattle.db_model.specs.Reading.{IsReader};
ghost use Rattle.db_model.specs.Script.{ended, past_white, unended};
ghost use Rattle.run_input.specs.declared.ending.Ending.TheVariants as Ending;
ghost use Rattle.run_input.specs.Through.{Out};
ghost use Rattle.run_entries.specs.Carried.{Carried, ChangesOrHalts, HaltsIn, HasHaltCause, standing_of, limits_of};
ghost use Rattle.run_entries.specs.Taking.{EndsInput, HaltsAtLast, HaltsInBytes, HasOne, TakesBytes, running};
ghost use Rattle.run_model.specs.Scripts.{script_cut, script_talk};
ghost use Rattle.run_script.specs.Gathers.{AsksOne, GathersPiece};
ghost use Rattle.run_script.specs.Input.{KeepsPiece, script_input};

use crate::entry::{carry_out, refuse};
use crate::piece::Piece;
use afl_base::{Files, Sink};
use antelope_engine::Session;
use db_model::{Command, Refusal};
use run_input::{Ending, Taker};

/// What takes the bytes of a script and carries out its commands over a session that is lent to it.
#[derive(Drop)]
pub struct Runner<'a, V: Files> {
    pub session: &'a mut Session<V>,
    pub piece: Piece,
    // The command at hand.
    pub(crate) command: Command,
}

impl<'a, V: Files> Taker for Runner<'a, V> {
    ghost use Rattle.std.specs.Prelude.{◌≡◌, ◌∷◌, []};
    ghost use Rattle.std.proofs.Common.{refl, ◌∙◌};
    ghost use Rattle.run_entries.proofs.SentReplies.{sent_behind, sent_reply};
    ghost use Rattle.run_entries.proofs.Taken.{halted_before, halted_behind, taken_more, taken_none};
    ghost use Rattle.run_entries.specs.Taking.{EndsInput, HaltsAtLast, HaltsInBytes, HasOne, TakesBytes, running};
    ghost use Rattle.db_model.proofs.ReplyTexts.{text_some};
    ghost use Rattle.run_model.specs.Scripts.{script_cut, script_line};
    ghost use Rattle.run_script.specs.Input.{script_input};
    ghost use Rattle.run_model.proofs.Parts.{script_parts};

    ghost Takes = { λ a came b. TakesBytes script_input V.Files
        (running a.0.session.now a.0.piece a.1.held a.1.faults) came (running b.0.session.now b.0.piece b.1.held b.1.faults) };

    ghost Ends = { λ a b. EndsInput script_input V.Files
        (running a.0.session.now a.0.piece a.1.held a.1.faults) (running b.0.session.now b.0.piece b.1.held b.1.faults) };

    ghost Halts = { λ a came b halt. HaltsInBytes script_input V.Files
        (running a.0.session.now a.0.piece a.1.held a.1.faults) came
        (running b.0.session.now b.0.piece b.1.held b.1.faults) halt };

    ghost HaltsAtEnd = { λ a b halt. HaltsAtLast script_input V.Files
        (running a.0.session.now a.0.piece a.1.held a.1.faults) (running b.0.session.now b.0.piece b.1.held b.1.faults) halt };

    ghost HasReply = { λ a byte. HasOne script_input a.piece (λ q. script_cut.ended q (byte ∷ [])) };

    ghost HasReplyAtEnd = { λ a. HasOne script_input a.piece (λ q. script_cut.left q) };

    fn take<K: Sink>(&mut self, out: &mut K, byte: u8) -> Result<(), Ending> {
        take_byte(self.session, &mut self.command, &mut self.piece, out, byte)
    }

    fn take_plain(&mut self, bytes: &[u8]) -> usize {
        take_plain(self.session, &mut self.piece, bytes)
    }

    fn end<K: Sink>(&mut self, out: &mut K) -> Result<(), Ending> {
        take_end(self.session, &self.piece, out)
    }

    ghost stays = { λ a b. b.session.ghost_name ≡ a.session.ghost_name };

    ghost stayed = { λ a. refl };

    ghost stayed_on = { λ a b c e f. f ∙ e };

    ghost none = { λ a. taken_none script_input V.Files script_line script_parts
        (running a.0.session.now a.0.piece a.1.held a.1.faults) };

    ghost more = { λ a b c xs ys e f.
        taken_more script_input V.Files script_line script_parts
        (running a.0.session.now a.0.piece a.1.held a.1.faults) (running b.0.session.now b.0.piece b.1.held b.1.faults)
        (running c.0.session.now c.0.piece c.1.held c.1.faults) xs ys e f };

    ghost halts_behind = { λ a b c xs ys halt e f.
        halted_behind script_input V.Files script_line script_parts
        (running a.0.session.now a.0.piece a.1.held a.1.faults) (running b.0.session.now b.0.piece b.1.held b.1.faults)
        (running c.0.session.now c.0.piece c.1.held c.1.faults) xs ys halt e f };

    ghost halts_before = { λ a b xs ys halt e.
        halted_before script_input V.Files script_line script_parts
        (running a.0.session.now a.0.piece a.1.held a.1.faults) (running b.0.session.now b.0.piece b.1.held b.1.faults)
        xs ys halt e };

    ghost sent = { λ a b now byte answered halt one takes halts went later sent.
        sent_behind script_input V.Files (λ read entry reply. text_some reply)
        (running a.0.session.now a.0.piece a.1.held a.1.faults) (running b.0.session.now b.0.piece b.1.held b.1.faults)
        now.held now.faults (byte ∷ []) answered halt one takes halts went later sent };

    ghost sent_at_end = { λ a b now answered halt one ends halts went later sent.
        sent_reply script_input V.Files (λ read entry reply. text_some reply)
        (running a.0.session.now a.0.piece a.1.held a.1.faults) (running b.0.session.now b.0.piece b.1.held b.1.faults)
        now.held now.faults script_cut.left one went later answered halt ends halts sent };
}

// Takes one byte of a script.
fn take_byte<V: Files, K: Sink>(
    session: &mut Session<V>,
    command: &mut Command,
    piece: &mut Piece,
    out: &mut K,
    byte: u8,
) -> Result<(), Ending>
    ensures takes { OnOk result (TakesBytes script_input V.Files
        (running session.old piece.old (K.held out.old) (K.faults out.old)) (byte ∷ [])
        (running session.new piece.new (K.held out.new) (K.faults out.new))) }
    ensures halts { IfErr result (λ halt. HaltsInBytes script_input V.Files
        (running session.old piece.old (K.held out.old) (K.faults out.old)) (byte ∷ [])
        (running session.new piece.new (K.held out.new) (K.faults out.new)) halt) }
    ensures silent { (out.new ≡ out.old)
        ⊎ HasOne script_input piece.old (λ q. script_cut.ended q (byte ∷ [])) }
    ensures lent { K.lent out.new ≡ K.lent out.old }
{
    if session.is_stopped() {
        return Err(Ending::Flash);
    }
    if !piece.ends_at(byte) {
        piece.push(byte);
        return Ok(());
    }
    let answered = answer_ended(session, command, piece, out);
    piece.clear();
    answered?;
    Ok(())
}

// Takes the bytes in front that end no command.
fn take_plain<V: Files>(session: &Session<V>, piece: &mut Piece, bytes: &[u8]) -> usize
    ensures within { result ≤ length bytes.now }
    ensures takes { (out : Out) → TakesBytes script_input V.Files
        (running session.now piece.old out.held out.faults) (take result bytes.now)
        (running session.now piece.new out.held out.faults) }
{
    if session.is_stopped() {
        return 0;
    }
    piece.push_plain(bytes)
}

// Takes the end of a script.
fn take_end<V: Files, K: Sink>(
    session: &mut Session<V>,
    piece: &Piece,
    out: &mut K,
) -> Result<(), Ending>
    ensures ends { OnOk result (EndsInput script_input V.Files
        (running session.old piece.now (K.held out.old) (K.faults out.old))
        (running session.new piece.now (K.held out.new) (K.faults out.new))) }
    ensures halts { IfErr result (λ halt. HaltsAtLast script_input V.Files
        (running session.old piece.now (K.held out.old) (K.faults out.old))
        (running session.new piece.now (K.held out.new) (K.faults out.new)) halt) }
    ensures silent { (out.new ≡ out.old) ⊎ HasOne script_input piece.now (λ q. script_cut.left q) }
    ensures lent { K.lent out.new ≡ K.lent out.old }
{
    if session.is_stopped() {
        return Err(Ending::Flash);
    }
    answer_unended(session, piece, out)?;
    Ok(())
}

// Answers what a piece asks for that a `;` ends. White space alone asks for nothing.
fn answer_ended<V: Files, K: Sink>(
    session: &mut Session<V>,
    command: &mut Command,
    piece: &Piece,
    out: &mut K,
) -> Result<(), Ending>
    requires running { session.old.stopped ≡ false }
    ensures carried { IsTrue (V.state session.old.files).tells → OnOk result (
        (read : List ℕ → Result AnyCommand AnyRefusal) → IsReader read
        → (p : List ℕ) → GathersPiece p piece.now.bytes.items piece.now.long
        → Carried (script_talk read) (ended (past_white p)) (standing_of V.state V.reads session.old (K.held out.old))
        (standing_of V.state V.reads session.new (K.held out.new))) }
    ensures halts { IsTrue (V.state session.old.files).tells → IfErr result (λ halt.
        (read : List ℕ → Result AnyCommand AnyRefusal) → IsReader read
        → (p : List ℕ) → GathersPiece p piece.now.bytes.items piece.now.long
        → HaltsIn (script_talk read) (limits_of V.Files session.new) (ended (past_white p))
        (standing_of V.state V.reads session.old (K.held out.old))
        (standing_of V.state V.reads session.new (K.held out.new)) halt) }
    ensures running { OnOk result (session.new.stopped ≡ false) }
    ensures lost { session.old.lost ≡ false → session.new.lost ≡ true → IsErrOf result Ending.Flash }
    ensures silent { (out.new ≡ out.old)
        ⊎ AsksOne piece.now.bytes.items piece.now.long (λ p. ended (past_white p)) }
    ensures frame { ChangesOrHalts V.Files K.Sink session.old.files session.new.files
        out.old out.new result }
{
    if piece.long {
        refuse(out, &Refusal::Long)?;
        return Ok(());
    }
    if piece.bytes.is_empty() {
        return Ok(());
    }
    carry_out(session, command, piece.bytes.as_slice(), out)?;
    Ok(())
}

// Answers the last piece, which nothing ends.
fn answer_unended<V: Files, K: Sink>(
    session: &mut Session<V>,
    piece: &Piece,
    out: &mut K,
) -> Result<(), Ending>
    requires running { session.old.stopped ≡ false }
    ensures carried { IsTrue (V.state session.old.files).tells → OnOk result (
        (read : List ℕ → Result AnyCommand AnyRefusal) → IsReader read
        → (p : List ℕ) → GathersPiece p piece.now.bytes.items piece.now.long
        → Carried (script_talk read) (unended (past_white p)) (standing_of V.state V.reads session.old (K.held out.old))
        (standing_of V.state V.reads session.new (K.held out.new))) }
    ensures halts { IsTrue (V.state session.old.files).tells → IfErr result (λ halt.
        (read : List ℕ → Result AnyCommand AnyRefusal) → IsReader read
        → (p : List ℕ) → GathersPiece p piece.now.bytes.items piece.now.long
        → HaltsIn (script_talk read) (limits_of V.Files session.new) (unended (past_white p))
        (standing_of V.state V.reads session.old (K.held out.old))
        (standing_of V.state V.reads session.new (K.held out.new)) halt) }
    ensures same { session.new ≡ session.old }
    ensures silent { (out.new ≡ out.old)
        ⊎ AsksOne piece.now.bytes.items piece.now.long (λ p. unended (past_white p)) }
    ensures lent { K.lent out.new ≡ K.lent out.old }
    ensures cause { HasHaltCause (V.faults session.old.files) (V.faults session.new.files)
        (K.faults out.old) (K.faults out.new) result }
{
    if piece.bytes.is_empty() {
        return Ok(());
    }
    refuse(out, &Refusal::Unfinished)?;
    Ok(())
}
