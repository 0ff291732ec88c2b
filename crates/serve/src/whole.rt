//! A whole line of frames.

#![tactic(auto)]

ghost use Rattle.std.specs.Prelude.{◌≡◌, [], false, true, ℕ, List, Result, Err, IsTrue, length};
ghost use Rattle.run_entries.specs.Carried.{standing_of, limits_of};
ghost use Rattle.run_entries.specs.Went.{HasRunCause, Reaches, Went};
ghost use Rattle.db_model.specs.declared.commands.Command.{Command as AnyCommand};
ghost use Rattle.db_model.specs.declared.refusals.Refusal.{Refusal as AnyRefusal};
ghost use Rattle.db_model.specs.Reading.{IsReader};
ghost use Rattle.run_input.specs.declared.ending.Ending.TheVariants as Ending;
ghost use Rattle.run_input.specs.declared.ending.InputEnding.TheVariants as InputEnding;
ghost use Rattle.serve.specs.Gathers.{GathersPart};
ghost use Rattle.run_frames.specs.Frames.{frame_line};
ghost use Rattle.run_frames.specs.Served.{serve_talk};

use crate::decoder::Decoder;
use crate::serving::Server;
use afl_base::{Files, Sink, Source};
use antelope_engine::Session;
use db_model::Command;
use run_input::{InputEnding, take_through};

/// Answers the frames of a line to its end, or as far as it goes.
// Not inlined, so that what keeps the line's commands is on the stack of no other run.
#[inline(never)]
pub fn serve_line<V: Files, S: Source, K: Sink>(
    session: &mut Session<V>,
    line: &mut S,
    out: &mut K,
) -> Result<(), InputEnding>
    requires running { session.old.stopped ≡ false }
    ensures went { IsTrue (V.state session.old.files).tells
        → (read : List ℕ → Result AnyCommand AnyRefusal) → IsReader read
        → Went frame_line (serve_talk read) (standing_of V.state V.reads session.old (K.held out.old))
        (standing_of V.state V.reads session.new (K.held out.new)) (S.left line.old) (S.left line.new)
        (limits_of V.Files session.new) result }
    ensures reaches { Reaches result (S.left line.old) (S.left line.new) }
    ensures lost { session.old.lost ≡ false → session.new.lost ≡ true
        → result ≡ Err (InputEnding.Early Ending.Flash) }
    ensures store { length (V.state session.new.files).store ≡ length (V.state session.old.files).store }
    ensures borrows { V.lent session.new.files ≡ V.lent session.old.files }
    ensures lent { K.lent out.new ≡ K.lent out.old }
    ensures cause { HasRunCause (S.faults line.old) (S.faults line.new)
        (V.faults session.old.files) (V.faults session.new.files) (K.faults out.old) (K.faults out.new) result }
{
    let mut server = Server {
        session,
        decoder: Decoder::new(),
        command: Command::FetchCursor { number: 1 },
    };
    serve_through(&mut server, line, out)
}

// The same by what takes a line, to which the session is lent.
fn serve_through<'a, V: Files, S: Source, K: Sink>(
    server: &mut Server<'a, V>,
    line: &mut S,
    out: &mut K,
) -> Result<(), InputEnding>
    requires running { server.old.session.now.stopped ≡ false }
    requires none { GathersPart [] server.old.decoder }
    ensures went { IsTrue (V.state server.old.session.now.files).tells
        → (read : List ℕ → Result AnyCommand AnyRefusal) → IsReader read
        → Went frame_line (serve_talk read)
        (standing_of V.state V.reads server.old.session.now (K.held out.old))
        (standing_of V.state V.reads server.new.session.now (K.held out.new))
        (S.left line.old) (S.left line.new) (limits_of V.Files server.new.session.now) result }
    ensures reaches { Reaches result (S.left line.old) (S.left line.new) }
    ensures lost { server.old.session.now.lost ≡ false → server.new.session.now.lost ≡ true
        → result ≡ Err (InputEnding.Early Ending.Flash) }
    ensures store { let new = V.state server.new.session.now.files in
        length new.store ≡ length (V.state server.old.session.now.files).store }
    ensures session { server.new.session.ghost_name ≡ server.old.session.ghost_name }
    ensures borrows { V.lent server.new.session.now.files ≡ V.lent server.old.session.now.files }
    ensures lent { K.lent out.new ≡ K.lent out.old }
    ensures cause { HasRunCause (S.faults line.old) (S.faults line.new)
        (V.faults server.old.session.now.files) (V.faults server.new.session.now.files)
        (K.faults out.old) (K.faults out.new) result }
{
    take_through(line, server, out)
}
