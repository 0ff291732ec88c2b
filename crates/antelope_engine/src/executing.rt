//! Commands with their replies, over the database of a session.

#![tactic(auto)]

ghost use Rattle.std.specs.Prelude.{MatchBool};
ghost use Rattle.db_model.specs.Sound.{IsSoundDatabase};
ghost use Rattle.session_model.specs.Carried.{Runs, Tells, database};
ghost use Rattle.session_model.specs.Queries.{IsWellFormed};
ghost use Rattle.antelope_engine.specs.Executed.{Executes};
ghost use Rattle.antelope_engine.specs.Writes.{WritesRows};

use crate::answering::{answer, write_answer};
use crate::writing::write;
use afl_base::{Failed, Fault, Files, Sink};
use db_model::Command;
use session_model::{Base, Step};

/// Carries out a command and writes its reply.
pub fn carry_out<V: Files, K: Sink>(
    base: &mut Base<V>,
    command: &Command,
    out: &mut K,
) -> Result<Step, Fault>
    requires running { Runs V.Files base.old }
    requires sound { Tells V.Files base.old → IsSoundDatabase (database V.Files base.old) }
    requires command { IsWellFormed command.now }
    ensures executed { Executes V.Files K.Sink command.now base.old base.new out.old out.new result }
{
    if writes_rows(command) {
        return match write(base, command, out) {
            Ok(came) => Ok(Step::Done(came)),
            Err(stop) => Err(stop),
        };
    }
    match answer(base, command) {
        Ok(answer) => match write_answer(out, &answer) {
            Ok(step) => Ok(step),
            Err(Failed) => Err(Fault::Sink),
        },
        Err(Failed) => Err(Fault::Flash),
    }
}

fn writes_rows(command: &Command) -> bool
    ensures { MatchBool result (WritesRows command.now) (WritesRows command.now → ⊥) }
{
    match command {
        Command::Ask(_) | Command::Aggregate { .. } | Command::FetchCursor { .. } => true,
        _ => false,
    }
}
