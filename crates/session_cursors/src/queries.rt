//! The cursor of a query, or how the query is refused.

#![tactic(auto)]

ghost use Rattle.std.specs.Prelude.{◌≡◌, ◌+◌, ◌<◌, ◌≤◌, Err, None, Some, IfErr, IfOk, IfSome, IsOk, IsTrue, MatchOption, OnErr, get_or, length};
ghost use Rattle.afl_base.specs.Keeping.{OnlyReads};
ghost use Rattle.db_model.specs.declared.commands.Query.TheVariants.{Select as OfSelect, Join as OfJoin};
ghost use Rattle.db_model.specs.Cond.{IsCondition};
ghost use Rattle.db_model.specs.Cost.{open_cost};
ghost use Rattle.db_model.specs.Step.{answer_of};
ghost use Rattle.session_model.specs.Cells.{cell_from};
ghost use Rattle.session_model.specs.Queries.{HasConditions};
ghost use Rattle.session_model.specs.Running.{IsCursorSlot, IsRunning};
ghost use Rattle.session_model.specs.View.{view};
ghost use Rattle.session_cursors.specs.Opened.{BeginsAnswer};

use crate::beginning::{Memory, Queried, begin_join, begin_select};
use afl_base::{Failed, Files};
use cursor::{SelectCursor, none_begun};
use db_model::{Condition, Few, Ident, Idents, Query, Refusal};
use lvm::Code;
use session_model::{Held, Open, OpenSelect, find_relation};
use session_plans::{plan_join, plan_select};

// The relation of a name.
fn named<'a>(held: &'a Held, name: &Ident) -> Option<Queried<'a>>
    requires { length held.now.relations ≡ 8 }
    ensures found { MatchOption result (cell_from name.now 0 held.now.relations ≡ None)
        (λ n. cell_from name.now 0 held.now.relations ≡ Some (n.slot, n.tuples.now)) }
    ensures there { IfSome result (λ n. get_or held.now.relations n.slot None ≡ Some n.tuples.now) }
{
    let k = find_relation(&held.relations, name)?;
    match &held.relations[k] {
        Some(tuples) => Some(Queried {
            slot: k as u16,
            tuples,
        }),
        None => None,
    }
}

// The cursor of a SELECT.
// Not inlined, so that the copies of a plan are on the stack of no JOIN.
#[inline(never)]
fn open_select<V: Files>(
    files: &mut V,
    memory: &Memory,
    list: &Idents,
    relation: &Ident,
    condition: &Condition,
) -> Result<Result<Open, Refusal>, Failed>
    requires running { IsRunning (V.state files.old) memory.now.tables.now memory.now.held.now memory.now.opens.now }
    requires condition { IsCondition condition.now }
    ensures begins { let db = view (V.state files.old).files memory.now.held.now memory.now.opens.now in
        let query = OfSelect list.now relation.now condition.now in
        IsTrue (V.state files.old).tells → IfOk result (λ came. IfOk came (λ o.
        BeginsAnswer db (V.state files.old).files query o)) }
    ensures refused { let db = view (V.state files.old).files memory.now.held.now memory.now.opens.now in
        let query = OfSelect list.now relation.now condition.now in
        IfOk result (λ came. IfErr came (λ refusal. answer_of db query ≡ Err refusal)) }
    ensures answered { let db = view (V.state files.old).files memory.now.held.now memory.now.opens.now in
        let query = OfSelect list.now relation.now condition.now in
        OnErr result (IsOk (answer_of db query)) }
    ensures waits { IfOk result (λ came. IfOk came (λ o.
        IsCursorSlot (V.state files.old) memory.now.held.now (Some o))) }
    ensures reads { let db = view (V.state files.old).files memory.now.held.now memory.now.opens.now in
        let query = OfSelect list.now relation.now condition.now in
        V.reads files.new ≤ V.reads files.old + open_cost db query }
    ensures unread { IfOk result (λ came. OnErr came (V.reads files.new ≡ V.reads files.old)) }
    ensures frame { OnlyReads V.state V.lent V.reads V.faults files.old files.new result }
{
    let queried = match named(memory.held, relation) {
        Some(queried) => queried,
        None => return Ok(Err(Refusal::NoRelation)),
    };
    let mut opened = OpenSelect {
        cursor: SelectCursor {
            tuples: queried.tuples.copy(),
            code: Code::none(),
            candidates: none_begun(),
        },
        places: Few::new(),
    };
    let code = &mut opened.cursor.code;
    match plan_select(list, condition, &queried.tuples.schema, code) {
        Ok(places) => opened.places = places,
        Err(refusal) => return Ok(Err(refusal)),
    }
    begin_select(files, memory, &queried, &mut opened)?;
    Ok(Ok(Open::Select(opened)))
}

// The cursor of a JOIN. It reads nothing.
// Not inlined, so that the copies of it are on the stack of no SELECT.
#[inline(never)]
fn open_join<V: Files>(
    files: &mut V,
    memory: &Memory,
    left: &Ident,
    right: &Ident,
    on: &Ident,
    list: &Idents,
) -> Result<Result<Open, Refusal>, Failed>
    requires running { IsRunning (V.state files.old) memory.now.tables.now memory.now.held.now memory.now.opens.now }
    ensures begins { let db = view (V.state files.old).files memory.now.held.now memory.now.opens.now in
        let query = OfJoin left.now right.now on.now list.now in
        IfOk result (λ came. IfOk came (λ o. BeginsAnswer db (V.state files.old).files query o)) }
    ensures refused { let db = view (V.state files.old).files memory.now.held.now memory.now.opens.now in
        let query = OfJoin left.now right.now on.now list.now in
        IfOk result (λ came. IfErr came (λ refusal. answer_of db query ≡ Err refusal)) }
    ensures waits { IfOk result (λ came. IfOk came (λ o.
        IsCursorSlot (V.state files.old) memory.now.held.now (Some o))) }
    ensures answered { let db = view (V.state files.old).files memory.now.held.now memory.now.opens.now in
        let query = OfJoin left.now right.now on.now list.now in
        OnErr result (IsOk (answer_of db query)) }
    ensures reads { let db = view (V.state files.old).files memory.now.held.now memory.now.opens.now in
        let query = OfJoin left.now right.now on.now list.now in
        V.reads files.new ≤ V.reads files.old + open_cost db query }
    ensures unread { IfOk result (λ came. OnErr came (V.reads files.new ≡ V.reads files.old)) }
    ensures frame { OnlyReads V.state V.lent V.reads V.faults files.old files.new result }
{
    let lefts = match named(memory.held, left) {
        Some(lefts) => lefts,
        None => return Ok(Err(Refusal::NoRelation)),
    };
    let rights = match named(memory.held, right) {
        Some(rights) => rights,
        None => return Ok(Err(Refusal::NoRelation)),
    };
    let plan = match plan_join(on, list, &lefts.tuples.schema, &rights.tuples.schema) {
        Ok(plan) => plan,
        Err(refusal) => return Ok(Err(refusal)),
    };
    let opened = begin_join(files, memory, &lefts, &rights, plan);
    Ok(Ok(Open::Join(opened)))
}

/// The cursor of a query.
// Not inlined, so that the copies of the answer are gone when the cursor is put into its place.
#[inline(never)]
pub(crate) fn open_query<V: Files>(
    files: &mut V,
    memory: &Memory,
    query: &Query,
) -> Result<Result<Open, Refusal>, Failed>
    requires running { IsRunning (V.state files.old) memory.now.tables.now memory.now.held.now memory.now.opens.now }
    requires condition { HasConditions query.now }
    ensures begins { let db = view (V.state files.old).files memory.now.held.now memory.now.opens.now in
        IsTrue (V.state files.old).tells → IfOk result (λ came. IfOk came (λ o.
        BeginsAnswer db (V.state files.old).files query.now o)) }
    ensures refused { let db = view (V.state files.old).files memory.now.held.now memory.now.opens.now in
        IfOk result (λ came. IfErr came (λ refusal. answer_of db query.now ≡ Err refusal)) }
    ensures answered { let db = view (V.state files.old).files memory.now.held.now memory.now.opens.now in
        OnErr result (IsOk (answer_of db query.now)) }
    ensures waits { IfOk result (λ came. IfOk came (λ o.
        IsCursorSlot (V.state files.old) memory.now.held.now (Some o))) }
    ensures reads { let db = view (V.state files.old).files memory.now.held.now memory.now.opens.now in
        V.reads files.new ≤ V.reads files.old + open_cost db query.now }
    ensures unread { IfOk result (λ came. OnErr came (V.reads files.new ≡ V.reads files.old)) }
    ensures frame { OnlyReads V.state V.lent V.reads V.faults files.old files.new result }
{
    match query {
        Query::Select {
            list,
            relation,
            condition,
        } => open_select(files, memory, list, relation, condition),
        Query::Join {
            left,
            right,
            on,
            list,
        } => open_join(files, memory, left, right, on, list),
    }
}
