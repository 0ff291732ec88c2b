//! Passes over the rows that a cursor answers, with no buffer.

#![tactic(auto)]

ghost use Rattle.std.specs.Prelude.{◌≡◌, ◌+◌, ◌*◌, ◌≤◌, ℕ, List, OnOk, IsTrue, length, if◌then◌else◌};
ghost use Rattle.afl_base.specs.Keeping.{OnlyReads};
ghost use Rattle.db_model.specs.declared.values.Value.{Value};
ghost use Rattle.cursor.specs.Remaining.{MayRead, remaining};
ghost use Rattle.index_set.specs.Walks.{Fits, cost_ahead};
ghost use Rattle.tuple_file.specs.Tuples.{rows};
ghost use Rattle.session_plans.specs.Aggregates.{AllSuitFolds, medians};
ghost use Rattle.session_queries.specs.Folded.{AllStand, AreDone, AreFolded, AreFolding, HaveAggs, PushedFew};

use crate::folding::{end_all, push_all};
use crate::tally::Tally;
use afl_base::{Failed, Files};
use cursor::SelectCursor;
use db_model::Agg;
use index_set::{Candidates, HashTables};
use tuple_file::ROW_SIZE;

/// Passes over the rows that a cursor has still to answer, until no tally is open: 9 times at
/// most, and more than once for a median alone.
pub fn fold_all<V: Files>(
    files: &mut V,
    tables: &HashTables,
    cursor: &mut SelectCursor,
    items: &[(Agg, u8)],
    tallies: &mut [Tally],
) -> Result<(), Failed>
    requires may_read { MayRead (V.state files.old) cursor.old.tuples cursor.old.candidates }
    requires suit { AllSuitFolds cursor.old.tuples.schema.attributes items.now }
    requires many { length items.now ≤ length tallies.old }
    requires aggs { HaveAggs items.now tallies.old }
    requires fresh { PushedFew 0 items.now tallies.old }
    requires stand { AllStand 0 items.now tallies.old }
    ensures many { length tallies.new ≡ length tallies.old }
    ensures aggs { OnOk result (HaveAggs items.now tallies.new) }
    ensures done { OnOk result (AreDone items.now tallies.new) }
    ensures folded { let state = V.state files.old in let all = rows state.files cursor.old.tuples in
        IsTrue state.tells → OnOk result (Fits cursor.old.candidates state tables.now all
        → AreFolded items.now (remaining cursor.old all) tallies.old
        → AreFolded items.now (remaining cursor.old all) tallies.new) }
    ensures reads { let state = V.state files.old in let all = rows state.files cursor.old.tuples in
        IsTrue state.tells → Fits cursor.old.candidates state tables.now all
        → V.reads files.new ≤ V.reads files.old
        + (if medians items.now then 9 else 1) * cost_ahead cursor.old.candidates all }
    ensures frame { OnlyReads V.state V.lent V.reads V.faults files.old files.new result }
{
    let first = cursor.candidates;
    for _pass in 0..9u8 {
        restart(cursor, &first);
        fold_rows(files, tables, cursor, items, tallies)?;
        if !end_all(items, tallies) {
            return Ok(());
        }
    }
    Ok(())
}

// Puts a cursor where it stood once.
fn restart(cursor: &mut SelectCursor, first: &Candidates)
    ensures { cursor.new ≡ record cursor.old { candidates = first.now } }
{
    cursor.candidates = *first;
}

// One pass: pushes the values of all rows that the cursor has still to answer.
fn fold_rows<V: Files>(
    files: &mut V,
    tables: &HashTables,
    cursor: &mut SelectCursor,
    items: &[(Agg, u8)],
    tallies: &mut [Tally],
) -> Result<(), Failed>
    requires may_read { MayRead (V.state files.old) cursor.old.tuples cursor.old.candidates }
    requires suit { AllSuitFolds cursor.old.tuples.schema.attributes items.now }
    requires many { length items.now ≤ length tallies.old }
    requires aggs { HaveAggs items.now tallies.old }
    requires fresh { PushedFew 0 items.now tallies.old }
    ensures many { length tallies.new ≡ length tallies.old }
    ensures aggs { HaveAggs items.now tallies.new }
    ensures stand { (passes : ℕ) → AllStand passes items.now tallies.old
        → AllStand passes items.now tallies.new }
    ensures folded { let state = V.state files.old in let all = rows state.files cursor.old.tuples in
        IsTrue state.tells → OnOk result (Fits cursor.old.candidates state tables.now all
        → (whole : List (List Value)) → AreFolded items.now whole tallies.old
        → AreFolding items.now whole (remaining cursor.old all) tallies.new) }
    ensures tuples { cursor.new.tuples ≡ cursor.old.tuples }
    ensures code { cursor.new.code ≡ cursor.old.code }
    ensures reads { let state = V.state files.old in let all = rows state.files cursor.old.tuples in
        IsTrue state.tells → Fits cursor.old.candidates state tables.now all
        → V.reads files.new ≤ V.reads files.old + cost_ahead cursor.old.candidates all }
    ensures frame { OnlyReads V.state V.lent V.reads V.faults files.old files.new result }
{
    let mut bytes = [0; ROW_SIZE];
    let row = &mut bytes[..cursor.tuples.length()];
    'rows: loop {
        match cursor.next_bytes(files, tables, row) {
            Ok(Some(_)) => push_all(
                items,
                cursor.tuples.schema.attributes.as_slice(),
                row,
                tallies,
            ),
            Ok(None) => return Ok(()),
            Err(_) => return Err(Failed),
        }
    }
}
