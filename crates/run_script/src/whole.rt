//! A whole script.

#![tactic(auto)]

ghost use Rattle.std.specs.Prelude.{◌≡◌, [], false, true, ℕ, List, Result, Err, IsTrue, length};
ghost use Rattle.run_entries.specs.Carried.{standing_of, limits_of};
ghost use Rattle.run_entries.specs.Went.{HasRunCause, Reaches, Went};
ghost use Rattle.db_model.specs.declared.commands.Command.{Command as AnyCommand};
ghost use Rattle.db_model.specs.declared.refusals.Refusal.{Refusal as AnyRefusal};
ghost use Rattle.db_model.specs.Reading.{IsReader};
ghost use Rattle.run_input.specs.declared.ending.Ending.TheVariants as Ending;
ghost use Rattle.run_input.specs.declared.ending.InputEnding.TheVariants as InputEnding;
ghost use Rattle.run_model.specs.Scripts.{script_line, script_talk};
ghost use Rattle.run_script.specs.Input.{KeepsPiece};

use crate::piece::Piece;
use crate::running::Runner;
use afl_base::{Files, Sink, Source};
use antelope_engine::Session;
use db_model::Command;
use run_input::{InputEnding, take_through};

/// Carries out a script to its end, or as far as it goes.
// Not inlined, so that what keeps the script's commands is on the stack of no other run.
#[inline(never)]
pub fn answer_script<V: Files, S: Source, K: Sink>(
    session: &mut Session<V>,
    script: &mut S,
    out: &mut K,
) -> Result<(), InputEnding>
    requires running { session.old.stopped ≡ false }
    ensures went { IsTrue (V.state session.old.files).tells
        → (read : List ℕ → Result AnyCommand AnyRefusal) → IsReader read
        → Went script_line (script_talk read) (standing_of V.state V.reads session.old (K.held out.old))
        (standing_of V.state V.reads session.new (K.held out.new)) (S.left script.old) (S.left script.new)
        (limits_of V.Files session.new) result }
    ensures reaches { Reaches result (S.left script.old) (S.left script.new) }
    ensures lost { session.old.lost ≡ false → session.new.lost ≡ true
        → result ≡ Err (InputEnding.Early Ending.Flash) }
    ensures store { length (V.state session.new.files).store ≡ length (V.state session.old.files).store }
    ensures borrows { V.lent session.new.files ≡ V.lent session.old.files }
    ensures lent { K.lent out.new ≡ K.lent out.old }
    ensures cause { HasRunCause (S.faults script.old) (S.faults script.new)
        (V.faults session.old.files) (V.faults session.new.files) (K.faults out.old) (K.faults out.new) result }
{
    let mut runner = Runner {
        session,
        piece: Piece::new(),
        command: Command::FetchCursor { number: 0 },
    };
    run_through(&mut runner, script, out)
}

// The same by what takes a script, to which the session is lent.
fn run_through<'a, V: Files, S: Source, K: Sink>(
    runner: &mut Runner<'a, V>,
    script: &mut S,
    out: &mut K,
) -> Result<(), InputEnding>
    requires running { runner.old.session.now.stopped ≡ false }
    requires none { KeepsPiece (false, []) runner.old.piece }
    ensures went { IsTrue (V.state runner.old.session.now.files).tells
        → (read : List ℕ → Result AnyCommand AnyRefusal) → IsReader read
        → Went script_line (script_talk read)
        (standing_of V.state V.reads runner.old.session.now (K.held out.old))
        (standing_of V.state V.reads runner.new.session.now (K.held out.new))
        (S.left script.old) (S.left script.new) (limits_of V.Files runner.new.session.now) result }
    ensures reaches { Reaches result (S.left script.old) (S.left script.new) }
    ensures lost { runner.old.session.now.lost ≡ false → runner.new.session.now.lost ≡ true
        → result ≡ Err (InputEnding.Early Ending.Flash) }
    ensures store { let new = V.state runner.new.session.now.files in
        length new.store ≡ length (V.state runner.old.session.now.files).store }
    ensures session { runner.new.session.ghost_name ≡ runner.old.session.ghost_name }
    ensures borrows { V.lent runner.new.session.now.files ≡ V.lent runner.old.session.now.files }
    ensures lent { K.lent out.new ≡ K.lent out.old }
    ensures cause { HasRunCause (S.faults script.old) (S.faults script.new)
        (V.faults runner.old.session.now.files) (V.faults runner.new.session.now.files)
        (K.faults out.old) (K.faults out.new) result }
{
    take_through(script, runner, out)
}
