//! FETCH.

#![tactic(auto)]

ghost use Rattle.std.specs.Prelude.{◌≡◌, ◌+◌, ◌≤◌, IfOk, IsErrOf, IsTrue, OnOk};
ghost use Rattle.afl_base.specs.Keeping.{OnlyReads};
ghost use Rattle.db_model.specs.declared.commands.Command.TheVariants as command;
ghost use Rattle.db_model.specs.Ahead.{aheads_after, cost_of};
ghost use Rattle.db_model.specs.Sound.{IsSoundDatabase};
ghost use Rattle.db_model.specs.Step.{step};
ghost use Rattle.afl_base.specs.declared.fault.Fault.TheVariants.{Flash};
ghost use Rattle.session_model.specs.Aheads.{aheads_of};
ghost use Rattle.session_model.specs.Carried.{AnswersRows, Runs};
ghost use Rattle.session_model.specs.Running.{IsRunning};
ghost use Rattle.session_model.specs.View.{view};
ghost use Rattle.session_cursors.specs.Fetched.{reply_fetched};

use crate::heads::fetch_open;
use crate::numbers::open_place;
use crate::replies::write_reply;
use afl_base::{Failed, Fault, Files, Sink};
use db_model::Tuple;
use index_set::HashTables;
use session_model::{Base, Held, Open, Outcome};

// Takes the next row of an open cursor: `Some` says whether there is one, `None` that there is no such cursor.
fn take_row<V: Files>(
    files: &mut V,
    tables: &HashTables,
    held: &Held,
    opens: &mut [Option<Open>],
    number: &i64,
    into: &mut Tuple,
) -> Result<Option<bool>, Failed>
    requires running { IsRunning (V.state files.old) tables.now held.now opens.old }
    ensures done { let db = view (V.state files.old).files held.now opens.old in
        let new = view (V.state files.new).files held.now opens.new in
        IsTrue (V.state files.old).tells → IfOk result (λ came.
        step db (command.FetchCursor number.now) ≡ (new, reply_fetched came into.new)) }
    ensures running { OnOk result (IsRunning (V.state files.new) tables.now held.now opens.new) }
    ensures aheads { let db = view (V.state files.old).files held.now opens.old in
        let aheads = aheads_of (V.state files.old).files opens.old in
        IsTrue (V.state files.old).tells → OnOk result (aheads_of (V.state files.new).files opens.new
        ≡ aheads_after db aheads (command.FetchCursor number.now)) }
    ensures reads { let db = view (V.state files.old).files held.now opens.old in
        let aheads = aheads_of (V.state files.old).files opens.old in
        IsTrue (V.state files.old).tells → IsSoundDatabase db → V.reads files.new
        ≤ V.reads files.old + cost_of db aheads (command.FetchCursor number.now) }
    ensures frame { OnlyReads V.state V.lent V.reads V.faults files.old files.new result }
{
    let place = match open_place(opens, number) {
        Some(place) => place,
        None => return Ok(None),
    };
    let mut opened = match opens[place].take() {
        Some(opened) => opened,
        None => return Ok(None),
    };
    let found = fetch_open(files, tables, &mut opened, into)?;
    opens[place] = Some(opened);
    Ok(Some(found))
}

/// Takes the next row of an open cursor, and writes it and `rows 1`; `rows 0` where none is to come; or the refusal.
// Not inlined, so that its row is on the stack of no other command.
#[inline(never)]
pub fn fetch_cursor<V: Files, K: Sink>(
    base: &mut Base<V>,
    number: &i64,
    out: &mut K,
) -> Result<Outcome, Fault>
    requires running { Runs V.Files base.old }
    ensures written { AnswersRows V.Files K.Sink (command.FetchCursor number.now) base.old base.new
        out.old out.new result }
    ensures files_and_opens { base.new ≡ record base.old { files = base.new.files; opens = base.new.opens } }
    ensures silent { IsErrOf result Flash → K.held out.new ≡ K.held out.old }
{
    let mut row = Tuple::new();
    let came = match take_row(
        &mut base.files,
        &base.tables,
        &base.held,
        &mut base.opens[..],
        number,
        &mut row,
    ) {
        Ok(came) => came,
        Err(Failed) => return Err(Fault::Flash),
    };
    match write_reply(out, came, &row) {
        Ok(outcome) => Ok(outcome),
        Err(Failed) => Err(Fault::Sink),
    }
}
