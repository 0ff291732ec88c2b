//! JOIN: pairs are written as they are found.

#![tactic(auto)]

ghost use Rattle.std.specs.Prelude.{◌≡◌, ◌+◌, ◌*◌, ◌≤◌, List, Ok, Err, Option, IfErr, IfOk, IsTrue, OnErr, OnOk, length, map};
ghost use Rattle.afl_base.specs.Files.{Table};
ghost use Rattle.db_model.specs.declared.commands.Query.TheVariants as query;
ghost use Rattle.db_model.specs.Cost.{query_cost, right_costs};
ghost use Rattle.db_model.specs.Step.{Rows, answer_of};
ghost use Rattle.cursor.specs.Blocks.{IsBlockOf, MayReadBy, cost_by_block};
ghost use Rattle.cursor.specs.Pairs.{FitsPairs, MayReadPairs, matching, pairs_left};
ghost use Rattle.index_set.specs.Plans.{kinds};
ghost use Rattle.tuple_file.specs.Tuples.{rows};
ghost use Rattle.session_model.specs.declared.held.Open.{Open as AnyOpen};
ghost use Rattle.session_model.specs.Steps.{Replies};
ghost use Rattle.session_model.specs.Carried.{Recites};
ghost use Rattle.session_model.specs.View.{project_pair, view};
ghost use Rattle.session_queries.specs.Finds.{HasEightSlots, IsRelationFound, IsReadableBy};
ghost use Rattle.session_queries.specs.Replies.{JoinsOn, WroteNext, WroteRows, joined_left};

use crate::finding::{Found, find};
use afl_base::{Fault, Files, Sink};
use cursor::{Block, JoinCursor};
use db_model::{Few, Ident, Idents, Refusal, Tuple};
use index_set::HashTables;
use reply_text::{write_row, write_rows};
use session_model::{Held, Outcome, Side, project_pair};
use session_plans::{JoinPlan, plan_join};

/// Two relations, and what a JOIN asks of them.
#[derive(Drop)]
pub struct Joining {
    pub left: Found,
    pub right: Found,
    pub plan: JoinPlan,
}

// By what tables pairs are found, and which of their values are written.
#[derive(Clone, Copy)]
struct Terms<'a> {
    tables: &'a HashTables,
    places: &'a Few<Side, 8>,
}

// The tuples of a pair.
#[derive(Drop)]
struct Pair {
    left: Tuple,
    right: Tuple,
}

/// The relations of a JOIN and what is asked of them, or how it is refused.
pub fn plan_pairs(
    held: &Held,
    left: &Ident,
    right: &Ident,
    on: &Ident,
    list: &Idents,
) -> Result<Joining, Refusal>
    requires slots { HasEightSlots held.now }
    ensures left { IfOk result (λ j. IsRelationFound held.now left.now j.left) }
    ensures right { IfOk result (λ j. IsRelationFound held.now right.now j.right) }
    ensures rows { IfOk result (λ j. (files : Table) (opens : List (Option AnyOpen))
        → answer_of (view files held.now opens) (query.Join left.now right.now on.now list.now)
        ≡ Ok (map (project_pair j.plan.places) (matching j.plan.left_on j.plan.right_on
        (rows files j.left.tuples) (rows files j.right.tuples)))) }
    ensures cost { IfOk result (λ j. (files : Table) (opens : List (Option AnyOpen))
        → let lefts = rows files j.left.tuples in let rights = rows files j.right.tuples in
        query_cost (view files held.now opens) (query.Join left.now right.now on.now list.now)
        ≡ 6 * (length lefts + length (matching j.plan.left_on j.plan.right_on lefts rights))
        + right_costs (kinds j.right.indexes) (j.plan.left_on, j.plan.right_on) rights lefts) }
    ensures refused { IfErr result (λ refusal. (files : Table) (opens : List (Option AnyOpen))
        → answer_of (view files held.now opens) (query.Join left.now right.now on.now list.now)
        ≡ Err refusal) }
{
    let left = match find(held, left) {
        Some(left) => left,
        None => return Err(Refusal::NoRelation),
    };
    let right = match find(held, right) {
        Some(right) => right,
        None => return Err(Refusal::NoRelation),
    };
    match plan_join(on, list, &left.tuples.schema, &right.tuples.schema) {
        Ok(plan) => Ok(Joining { left, right, plan }),
        Err(refusal) => Err(refusal),
    }
}

/// Writes the pairs that a JOIN asks for, and their number.
// Not inlined, so that its block, of 4 KB, is on the stack of no other query.
#[inline(never)]
pub fn join<V: Files, K: Sink>(
    files: &mut V,
    tables: &HashTables,
    joining: Joining,
    out: &mut K,
) -> Result<Outcome, Fault>
    requires left { IsReadableBy (V.state files.old) tables.now joining.left }
    requires right { IsReadableBy (V.state files.old) tables.now joining.right }
    ensures replies { let state = V.state files.old in let plan = joining.plan in
        let pairs = matching plan.left_on plan.right_on (rows state.files joining.left.tuples)
        (rows state.files joining.right.tuples) in
        IsTrue state.tells → Replies (Rows (map (project_pair plan.places) pairs)) result
        (K.held out.old) (K.held out.new) }
    ensures reads { let state = V.state files.old in let plan = joining.plan in
        let lefts = rows state.files joining.left.tuples in
        let rights = rows state.files joining.right.tuples in
        IsTrue state.tells → V.reads files.new ≤ V.reads files.old
        + (6 * (length lefts + length (matching plan.left_on plan.right_on lefts rights))
        + right_costs (kinds joining.right.indexes) (plan.left_on, plan.right_on) rights lefts) }
    ensures frame { Recites V.Files K.Sink files.old files.new out.old out.new result }
{
    match join_all(files, tables, joining, out) {
        Ok(count) => {
            let count = u64::from(count);
            match write_rows(out, count) {
                Ok(()) => Ok(Outcome::Rows(count)),
                Err(_) => Err(Fault::Sink),
            }
        }
        Err(stop) => Err(stop),
    }
}

// Writes the pairs that a JOIN asks for, and says how many there were.
fn join_all<V: Files, K: Sink>(
    files: &mut V,
    tables: &HashTables,
    joining: Joining,
    out: &mut K,
) -> Result<u32, Fault>
    requires left { IsReadableBy (V.state files.old) tables.now joining.left }
    requires right { IsReadableBy (V.state files.old) tables.now joining.right }
    ensures wrote { let state = V.state files.old in let plan = joining.plan in
        let pairs = matching plan.left_on plan.right_on (rows state.files joining.left.tuples)
        (rows state.files joining.right.tuples) in
        IsTrue state.tells → WroteRows result (map (project_pair plan.places) pairs)
        (K.held out.old) (K.held out.new) }
    ensures reads { let state = V.state files.old in let plan = joining.plan in
        let lefts = rows state.files joining.left.tuples in
        let rights = rows state.files joining.right.tuples in
        IsTrue state.tells → V.reads files.new ≤ V.reads files.old
        + (6 * (length lefts + length (matching plan.left_on plan.right_on lefts rights))
        + right_costs (kinds joining.right.indexes) (plan.left_on, plan.right_on) rights lefts) }
    ensures frame { Recites V.Files K.Sink files.old files.new out.old out.new result }
{
    let Joining { left, right, plan } = joining;
    let JoinPlan {
        places,
        left_on,
        right_on,
    } = plan;
    let mut cursor = JoinCursor::begin(
        files,
        left.tuples,
        right.tuples,
        right.indexes,
        left_on,
        right_on,
    );
    let mut block = Block::over(&cursor);
    join_rows(files, tables, &mut cursor, &mut block, &places, out)
}

// Writes the pairs that a cursor has still to answer, and says how many there were. No more than
// each left slot with each right slot are tried, whatever the files tell.
fn join_rows<V: Files, K: Sink>(
    files: &mut V,
    tables: &HashTables,
    cursor: &mut JoinCursor,
    block: &mut Block,
    places: &Few<Side, 8>,
    out: &mut K,
) -> Result<u32, Fault>
    requires may_read { MayReadPairs (V.state files.old) cursor.old }
    requires block { MayReadBy block.old cursor.old }
    ensures wrote { let state = V.state files.old in let lefts = rows state.files cursor.old.left in
        let rights = rows state.files cursor.old.right in
        IsTrue state.tells → FitsPairs cursor.old state tables.now
        → IsBlockOf block.old cursor.old lefts rights
        → length (pairs_left cursor.old lefts rights) ≤ cursor.old.left_slots * cursor.old.right_slots
        → WroteRows result (joined_left places.now cursor.old lefts rights)
        (K.held out.old) (K.held out.new) }
    ensures reads { let state = V.state files.old in let lefts = rows state.files cursor.old.left in
        let rights = rows state.files cursor.old.right in
        IsTrue state.tells → FitsPairs cursor.old state tables.now
        → IsBlockOf block.old cursor.old lefts rights
        → V.reads files.new ≤ V.reads files.old + cost_by_block block.old cursor.old lefts rights }
    ensures frame { Recites V.Files K.Sink files.old files.new out.old out.new result }
{
    let most = u32::from(cursor.left_slots) * u32::from(cursor.right_slots);
    let terms = Terms { tables, places };
    let mut pair = Pair {
        left: Tuple::new(),
        right: Tuple::new(),
    };
    for count in 0..most {
        match join_next(files, &terms, cursor, block, &mut pair, out) {
            Ok(found) => {
                if !found {
                    return Ok(count);
                }
            }
            Err(stop) => return Err(stop),
        }
    }
    Ok(most)
}

// Writes the next pair, and answers false exactly where there is none. Its tuples stand in `pair`,
// which is kept from pair to pair.
fn join_next<V: Files, K: Sink>(
    files: &mut V,
    terms: &Terms,
    cursor: &mut JoinCursor,
    block: &mut Block,
    pair: &mut Pair,
    out: &mut K,
) -> Result<bool, Fault>
    requires may_read { MayReadPairs (V.state files.old) cursor.old }
    requires block { MayReadBy block.old cursor.old }
    ensures wrote { let state = V.state files.old in let lefts = rows state.files cursor.old.left in
        let rights = rows state.files cursor.old.right in
        IsTrue state.tells → FitsPairs cursor.old state terms.now.tables.now
        → IsBlockOf block.old cursor.old lefts rights
        → WroteNext result (joined_left terms.now.places.now cursor.old lefts rights)
        (joined_left terms.now.places.now cursor.new lefts rights) (K.held out.old) (K.held out.new) }
    ensures goes_on { let state = V.state files.old in let lefts = rows state.files cursor.old.left in
        let rights = rows state.files cursor.old.right in let tables = terms.now.tables.now in
        IsTrue state.tells → OnOk result (FitsPairs cursor.old state tables
        → IsBlockOf block.old cursor.old lefts rights → JoinsOn block.old block.new
        cursor.old cursor.new state tables lefts rights (V.reads files.old) (V.reads files.new)) }
    ensures stands { OnOk result (cursor.new ≡ record cursor.old
        { at = cursor.new.at; from = cursor.new.from; inner = cursor.new.inner }) }
    ensures may_read { OnOk result (MayReadPairs (V.state files.old) cursor.new) }
    ensures block { OnOk result (MayReadBy block.new cursor.new) }
    ensures reads_err { let state = V.state files.old in
        let lefts = rows state.files cursor.old.left in
        let rights = rows state.files cursor.old.right in
        IsTrue state.tells → OnErr result (FitsPairs cursor.old state terms.now.tables.now
        → IsBlockOf block.old cursor.old lefts rights
        → V.reads files.new ≤ V.reads files.old + cost_by_block block.old cursor.old lefts rights) }
    ensures frame { Recites V.Files K.Sink files.old files.new out.old out.new result }
{
    match cursor.next_by_block(files, terms.tables, block, &mut pair.left, &mut pair.right) {
        Ok(true) => {}
        Ok(false) => return Ok(false),
        Err(_) => return Err(Fault::Flash),
    }
    let mut row = Tuple::new();
    project_pair(terms.places, &pair.left, &pair.right, &mut row);
    match write_row(out, &row) {
        Ok(()) => Ok(true),
        Err(_) => Err(Fault::Sink),
    }
}
