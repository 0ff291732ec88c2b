//! The reply to a change.

#![tactic(auto)]

ghost use Rattle.std.specs.Prelude.{◌≡◌, IfOk, OnErr};
ghost use Rattle.afl_base.specs.Keeping.{Sends};
ghost use Rattle.db_model.specs.Database.{Database};
ghost use Rattle.db_model.specs.ReplyText.{text};
ghost use Rattle.db_model.specs.Step.{replied};
ghost use Rattle.reply_text.specs.WroteLess.{WroteLess};
ghost use Rattle.session_model.specs.Answers.{Changed};
ghost use Rattle.session_model.specs.Steps.{Does, Made};

use crate::answer::Answer;
use crate::step::{Outcome, Step};
use afl_base::{Failed, Sink};
use reply_text::{write_ok, write_refusal, write_rows};

/// Writes the reply to a change of the database; nothing where there was no space.
pub fn reply<K: Sink>(out: &mut K, answer: &Answer) -> Result<Step, Failed>
    ensures done { IfOk result (λ step. (made : Made) (old new : Database) → Changed made old new answer.now
        → Does made old new step (K.held out.old) (K.held out.new)) }
    ensures failed { OnErr result ((made : Made) (old new : Database) → Changed made old new answer.now
        → (new ≡ (replied old made).0) × WroteLess (K.held out.old) (K.held out.new) (text (replied old made).1)) }
    ensures frame { Sends K.lent K.faults out.old out.new result }
{
    match answer {
        Answer::NoSpace(need) => Ok(Step::NoSpace { need: *need }),
        Answer::Fine => {
            match write_ok(out) {
                Ok(()) => Ok(Step::Done(Outcome::Fine)),
                Err(Failed) => Err(Failed),
            }
        }
        Answer::Removed(count) => {
            match write_rows(out, u64::from(*count)) {
                Ok(()) => Ok(Step::Done(Outcome::Rows(u64::from(*count)))),
                Err(Failed) => Err(Failed),
            }
        }
        Answer::Refused(refusal) => {
            match write_refusal(out, refusal) {
                Ok(()) => Ok(Step::Done(Outcome::Refused)),
                Err(Failed) => Err(Failed),
            }
        }
    }
}
