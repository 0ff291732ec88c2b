//! The commands that write rows.

#![tactic(auto)]

ghost use Rattle.session_model.specs.Carried.{AnswersRows, Runs};
ghost use Rattle.session_model.specs.Queries.{IsWellFormed};
ghost use Rattle.antelope_engine.specs.Writes.{WritesRows};

use afl_base::{Fault, Files, Sink};
use db_model::Command;
use session_cursors::fetch_cursor;
use session_model::{Base, Outcome};
use session_queries::{aggregate, ask};

/// Carries out a command that writes each row as it is found.
// Not inlined, so that the cursors and rows of a query are on the stack of no other command.
#[inline(never)]
pub fn write<V: Files, K: Sink>(
    base: &mut Base<V>,
    command: &Command,
    out: &mut K,
) -> Result<Outcome, Fault>
    requires running { Runs V.Files base.old }
    requires rows { WritesRows command.now }
    requires command { IsWellFormed command.now }
    ensures written { AnswersRows V.Files K.Sink command.now base.old base.new out.old out.new result }
{
    match command {
        Command::Ask(query) => ask(base, query, out),
        Command::Aggregate {
            list,
            relation,
            condition,
        } => aggregate(base, list, relation, condition, out),
        Command::FetchCursor { number } => fetch_cursor(base, number, out),
        // No other command comes here.
        _ => unreachable!(),
    }
}
