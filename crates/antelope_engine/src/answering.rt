//! The commands that answer in one line.

#![tactic(auto)]

ghost use Rattle.std.specs.Prelude.{◌≡◌, IfOk, OnErr};
ghost use Rattle.afl_base.specs.Keeping.{Sends};
ghost use Rattle.db_model.specs.Database.{Database};
ghost use Rattle.db_model.specs.ReplyText.{text};
ghost use Rattle.db_model.specs.Step.{replied};
ghost use Rattle.reply_text.specs.WroteLess.{WroteLess};
ghost use Rattle.session_model.specs.declared.answer.Answer.TheVariants.{NoSpace as IsNoSpace};
ghost use Rattle.session_model.specs.Answers.{Changed};
ghost use Rattle.session_model.specs.Carried.{Carries, Runs};
ghost use Rattle.session_model.specs.Queries.{IsWellFormed};
ghost use Rattle.session_model.specs.Steps.{Does, Made};
ghost use Rattle.antelope_engine.specs.Seen.{WhereNoSpace as OnNoSpaceLeft};
ghost use Rattle.antelope_engine.specs.Writes.{WritesRows};

use crate::changing::change;
use afl_base::{Failed, Files, Sink};
use db_model::Command;
use session_cursors::{close_cursor, open_cursor};
use session_model::{Answer, Base, Step, reply};

/// Carries out a command that writes no rows.
pub fn answer<V: Files>(base: &mut Base<V>, command: &Command) -> Result<Answer, Failed>
    requires running { Runs V.Files base.old }
    requires rows { WritesRows command.now → ⊥ }
    requires command { IsWellFormed command.now }
    ensures carried { Carries V.Files command.now base.old base.new result }
{
    match command {
        Command::OpenCursor { number, query } => open_cursor(base, number, query),
        Command::CloseCursor { number } => Ok(close_cursor(base, number)),
        _ => change(base, command),
    }
}

/// Writes the reply to such a command; nothing where there was no space.
pub fn write_answer<K: Sink>(out: &mut K, answer: &Answer) -> Result<Step, Failed>
    ensures done { IfOk result (λ step. (made : Made) (old new : Database)
        → Changed made old new answer.now
        → Does made old new step (K.held out.old) (K.held out.new)) }
    ensures failed { OnErr result ((made : Made) (old new : Database)
        → Changed made old new answer.now → (new ≡ (replied old made).0)
        × WroteLess (K.held out.old) (K.held out.new) (text (replied old made).1)) }
    ensures space { OnNoSpaceLeft result (λ need. answer.now ≡ IsNoSpace need) }
    ensures silent { OnNoSpaceLeft result (λ need. K.held out.new ≡ K.held out.old) }
    ensures frame { Sends K.lent K.faults out.old out.new result }
{
    match answer {
        Answer::NoSpace(need) => Ok(Step::NoSpace { need: *need }),
        _ => reply(out, answer),
    }
}
