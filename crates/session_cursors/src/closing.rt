//! CLOSE.

#![tactic(auto)]

ghost use Rattle.std.specs.Prelude.{◌≡◌, Ok};
ghost use Rattle.db_model.specs.declared.commands.Command.TheVariants as command;
ghost use Rattle.db_model.specs.Ahead.{aheads_after};
ghost use Rattle.session_model.specs.Carried.{Carries, Runs, aheads, database};
ghost use Rattle.session_model.specs.Steps.{Answers};

use crate::numbers::open_place;
use afl_base::Files;
use db_model::Refusal;
use session_model::{Answer, Base};

/// Closes a cursor, or says how it is refused.
pub fn close_cursor<V: Files>(base: &mut Base<V>, number: &i64) -> Answer
    requires running { Runs V.Files base.old }
    ensures carried { Carries V.Files (command.CloseCursor number.now) base.old base.new (Ok result) }
    ensures opens_only { base.new ≡ record base.old { opens = base.new.opens } }
    ensures done { Answers (command.CloseCursor number.now) (database V.Files base.old)
        (database V.Files base.new) result }
    ensures ahead { let db = database V.Files base.old in
        aheads V.Files base.new ≡ aheads_after db (aheads V.Files base.old) (command.CloseCursor number.now) }
{
    match open_place(&base.opens[..], number) {
        Some(place) => {
            base.opens[place] = None;
            Answer::Fine
        }
        None => Answer::Refused(Refusal::NoCursor),
    }
}
