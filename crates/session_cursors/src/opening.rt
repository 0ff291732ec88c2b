//! OPEN.

#![tactic(auto)]

ghost use Rattle.std.specs.Prelude.{◌≡◌};
ghost use Rattle.db_model.specs.declared.commands.Command.TheVariants as command;
ghost use Rattle.session_model.specs.Carried.{Carries, Runs};
ghost use Rattle.session_model.specs.Queries.{HasConditions};

use crate::beginning::Memory;
use crate::numbers::{is_open, place_of};
use crate::queries::open_query;
use afl_base::{Failed, Files};
use db_model::{Query, Refusal};
use session_model::{Answer, Base};

/// Opens a cursor on a query: what it will answer is fixed with that. Or says how it is refused.
// Not inlined, so that the cursors of which it is made are on the stack of no other command.
#[inline(never)]
pub fn open_cursor<V: Files>(
    base: &mut Base<V>,
    number: &i64,
    query: &Query,
) -> Result<Answer, Failed>
    requires running { Runs V.Files base.old }
    requires condition { HasConditions query.now }
    ensures carried { Carries V.Files (command.OpenCursor number.now query.now) base.old base.new result }
    ensures files_and_opens { base.new ≡ record base.old { files = base.new.files; opens = base.new.opens } }
{
    let place = match place_of(number) {
        Some(place) => place,
        None => return Ok(Answer::Refused(Refusal::NoCursor)),
    };
    if is_open(&base.opens[..], place) {
        return Ok(Answer::Refused(Refusal::CursorOpen));
    }
    let memory = Memory {
        tables: &base.tables,
        held: &base.held,
        opens: &base.opens[..],
    };
    match open_query(&mut base.files, &memory, query)? {
        Ok(opened) => {
            base.opens[place] = Some(opened);
            Ok(Answer::Fine)
        }
        Err(refusal) => Ok(Answer::Refused(refusal)),
    }
}
