//! SELECT of names: rows are written as they are read.

#![tactic(auto)]

ghost use Rattle.std.specs.Prelude.{◌≡◌, ◌+◌, ◌<◌, ◌≤◌, List, Ok, Err, Option, IfErr, IfOk, IsTrue, OnErr, OnOk, length, map};
ghost use Rattle.afl_base.specs.Files.{Table};
ghost use Rattle.db_model.specs.declared.commands.Query.TheVariants as query;
ghost use Rattle.db_model.specs.Answers.{selected};
ghost use Rattle.db_model.specs.Cond.{Cond, IsCondition, condition_of};
ghost use Rattle.db_model.specs.Cost.{chosen_cost, query_cost};
ghost use Rattle.db_model.specs.Plan.{ranges_of};
ghost use Rattle.db_model.specs.Row.{row_length};
ghost use Rattle.db_model.specs.Step.{Rows, answer_of};
ghost use Rattle.cursor.specs.Remaining.{MayRead};
ghost use Rattle.index_set.specs.Plans.{kinds};
ghost use Rattle.index_set.specs.Walks.{Fits, cost_ahead};
ghost use Rattle.lvm.specs.Code.{IsCodeOf};
ghost use Rattle.tuple_file.specs.Tuples.{rows};
ghost use Rattle.session_model.specs.declared.held.Open.{Open as AnyOpen};
ghost use Rattle.session_model.specs.Steps.{Replies};
ghost use Rattle.session_model.specs.Carried.{Recites};
ghost use Rattle.session_model.specs.View.{project, view};
ghost use Rattle.session_queries.specs.Finds.{HasEightSlots, IsRelationFound, IsReadableBy};
ghost use Rattle.session_queries.specs.Replies.{WroteNext, rows_left};

use crate::finding::{Found, find};
use crate::listed::write_listed;
use afl_base::{Fault, Files, Sink};
use cursor::{SelectCursor, none_begun};
use db_model::{Condition, Few, Ident, Idents, Refusal, Tuple};
use index_set::HashTables;
use lvm::Code;
use reply_text::write_rows;
use session_model::{Held, Outcome};
use session_plans::{SelectPlan, plan_select};
use tuple_file::ROW_SIZE;

/// A relation, and what a SELECT asks of it.
#[derive(Drop)]
pub struct Selecting {
    pub found: Found,
    pub plan: SelectPlan,
}

/// The relation of a SELECT and what is asked of it, or how it is refused.
// Not inlined, so that the copies of a plan are gone when rows are read.
#[inline(never)]
pub fn plan(
    held: &Held,
    list: &Idents,
    relation: &Ident,
    condition: &Condition,
) -> Result<Selecting, Refusal>
    requires slots { HasEightSlots held.now }
    requires condition { IsCondition condition.now }
    ensures found { IfOk result (λ s. IsRelationFound held.now relation.now s.found) }
    ensures code { IfOk result (λ s.
        IsCodeOf s.found.tuples.schema.attributes (condition_of condition.now) s.plan.code) }
    ensures rows { let tree = condition_of condition.now in IfOk result (λ s.
        (files : Table) (opens : List (Option AnyOpen)) → answer_of (view files held.now opens)
        (query.Select list.now relation.now condition.now) ≡ Ok (map (project s.plan.places)
        (selected s.found.tuples.schema.attributes tree (rows files s.found.tuples)))) }
    ensures cost { let tree = condition_of condition.now in IfOk result (λ s.
        (files : Table) (opens : List (Option AnyOpen)) → query_cost (view files held.now opens)
        (query.Select list.now relation.now condition.now) ≡ chosen_cost (kinds s.found.indexes)
        (ranges_of s.found.tuples.schema.attributes tree) (rows files s.found.tuples)) }
    ensures refused { IfErr result (λ refusal.
        (files : Table) (opens : List (Option AnyOpen)) → answer_of (view files held.now opens)
        (query.Select list.now relation.now condition.now) ≡ Err refusal) }
{
    let found = match find(held, relation) {
        Some(found) => found,
        None => return Err(Refusal::NoRelation),
    };
    let mut code = Code::none();
    match plan_select(list, condition, &found.tuples.schema, &mut code) {
        Ok(places) => Ok(Selecting {
            found,
            plan: SelectPlan { places, code },
        }),
        Err(refusal) => Err(refusal),
    }
}

/// Writes the rows that a SELECT asks for, and their number.
// Not inlined, so that its cursor is not on the stack while the next query is planned.
#[inline(never)]
pub fn select<V: Files, K: Sink>(
    files: &mut V,
    tables: &HashTables,
    selecting: Selecting,
    out: &mut K,
) -> Result<Outcome, Fault>
    requires ready { IsReadableBy (V.state files.old) tables.now selecting.found }
    ensures replies { let tuples = selecting.found.tuples in
        let all = rows (V.state files.old).files tuples in
        IsTrue (V.state files.old).tells → (condition : Option Cond)
        → IsCodeOf tuples.schema.attributes condition selecting.plan.code
        → Replies (Rows (map (project selecting.plan.places)
        (selected tuples.schema.attributes condition all))) result (K.held out.old) (K.held out.new) }
    ensures reads { let tuples = selecting.found.tuples in
        let all = rows (V.state files.old).files tuples in
        IsTrue (V.state files.old).tells → (condition : Option Cond)
        → IsCodeOf tuples.schema.attributes condition selecting.plan.code
        → V.reads files.new ≤ V.reads files.old
        + chosen_cost (kinds selecting.found.indexes) (ranges_of tuples.schema.attributes condition) all }
    ensures frame { Recites V.Files K.Sink files.old files.new out.old out.new result }
{
    let Selecting { found, plan } = selecting;
    let SelectPlan { places, code } = plan;
    let Found {
        tuples,
        indexes,
        ..
    } = found;
    let mut cursor = SelectCursor {
        tuples,
        code,
        candidates: none_begun(),
    };
    match cursor.begin(files, tables, &indexes) {
        Ok(()) => select_rows(files, tables, &mut cursor, &places, out),
        Err(_) => Err(Fault::Flash),
    }
}

// Writes the rows that a cursor has still to answer, and their number.
fn select_rows<V: Files, K: Sink>(
    files: &mut V,
    tables: &HashTables,
    cursor: &mut SelectCursor,
    places: &Few<u8, 8>,
    out: &mut K,
) -> Result<Outcome, Fault>
    requires may_read { MayRead (V.state files.old) cursor.old.tuples cursor.old.candidates }
    ensures replies { let state = V.state files.old in let all = rows state.files cursor.old.tuples in
        IsTrue state.tells → Fits cursor.old.candidates state tables.now all
        → Replies (Rows (rows_left places.now cursor.old all)) result (K.held out.old) (K.held out.new) }
    ensures reads { let state = V.state files.old in let all = rows state.files cursor.old.tuples in
        IsTrue state.tells → Fits cursor.old.candidates state tables.now all
        → V.reads files.new ≤ V.reads files.old + cost_ahead cursor.old.candidates all }
    ensures frame { Recites V.Files K.Sink files.old files.new out.old out.new result }
{
    let mut count = 0;
    let mut bytes = [0; ROW_SIZE];
    let row = &mut bytes[..cursor.tuples.length()];
    let mut tuple = Tuple::new();
    'rows: loop {
        match select_next(files, tables, cursor, places, row, &mut tuple, out) {
            Ok(found) => {
                if !found {
                    break;
                }
            }
            Err(stop) => return Err(stop),
        }
        count += 1;
    }
    match write_rows(out, count) {
        Ok(()) => Ok(Outcome::Rows(count)),
        Err(_) => Err(Fault::Sink),
    }
}

// Writes the next row, and answers false exactly where there is none. Its bytes stand in `row`, and
// what is listed of them in `tuple`; both are kept from row to row.
fn select_next<V: Files, K: Sink>(
    files: &mut V,
    tables: &HashTables,
    cursor: &mut SelectCursor,
    places: &Few<u8, 8>,
    row: &mut [u8],
    tuple: &mut Tuple,
    out: &mut K,
) -> Result<bool, Fault>
    requires may_read { MayRead (V.state files.old) cursor.old.tuples cursor.old.candidates }
    requires size { 0 < cursor.old.candidates.slots
        → length row.old ≡ row_length cursor.old.tuples.schema.attributes }
    ensures wrote { let state = V.state files.old in let all = rows state.files cursor.old.tuples in
        IsTrue state.tells → Fits cursor.old.candidates state tables.now all
        → WroteNext result (rows_left places.now cursor.old all) (rows_left places.now cursor.new all)
        (K.held out.old) (K.held out.new) }
    ensures fits { let state = V.state files.old in let all = rows state.files cursor.old.tuples in
        IsTrue state.tells → OnOk result (Fits cursor.old.candidates state tables.now all
        → Fits cursor.new.candidates state tables.now all) }
    ensures forward { IfOk result (λ found. IsTrue found
        → cursor.old.candidates.from < cursor.new.candidates.from) }
    ensures size { length row.new ≡ length row.old }
    ensures tuples { cursor.new.tuples ≡ cursor.old.tuples }
    ensures slots { cursor.new.candidates.slots ≡ cursor.old.candidates.slots }
    ensures may_read { MayRead (V.state files.old) cursor.new.tuples cursor.new.candidates }
    ensures reads { let state = V.state files.old in let all = rows state.files cursor.old.tuples in
        IsTrue state.tells → OnOk result (Fits cursor.old.candidates state tables.now all
        → V.reads files.new + cost_ahead cursor.new.candidates all
        ≤ V.reads files.old + cost_ahead cursor.old.candidates all) }
    ensures reads_err { let state = V.state files.old in
        let all = rows state.files cursor.old.tuples in
        IsTrue state.tells → OnErr result (Fits cursor.old.candidates state tables.now all
        → V.reads files.new ≤ V.reads files.old + cost_ahead cursor.old.candidates all) }
    ensures frame { Recites V.Files K.Sink files.old files.new out.old out.new result }
{
    match cursor.next_bytes(files, tables, row) {
        Ok(Some(_)) => {}
        Ok(None) => return Ok(false),
        Err(_) => return Err(Fault::Flash),
    }
    match write_listed(out, places, &cursor.tuples.schema.attributes, row, tuple) {
        Ok(()) => Ok(true),
        Err(_) => Err(Fault::Sink),
    }
}
