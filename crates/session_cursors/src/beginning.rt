//! Cursors that begin over relations of the session.

#![tactic(auto)]

ghost use Rattle.std.specs.Prelude.{◌≡◌, ◌+◌, ◌≤◌, Some, None, IsTrue, OnOk, Option, get_or, map};
ghost use Rattle.afl_base.specs.Keeping.{OnlyReads};
ghost use Rattle.cursor.specs.Pairs.{matching};
ghost use Rattle.db_model.specs.Ahead as model;
ghost use Rattle.db_model.specs.Answers.{selected};
ghost use Rattle.db_model.specs.Cond.{Cond};
ghost use Rattle.db_model.specs.Cost.{begin_cost};
ghost use Rattle.db_model.specs.Plan.{plan as plan_of, ranges_of};
ghost use Rattle.index_set.specs.Plans.{kinds};
ghost use Rattle.lvm.specs.Code.{IsCodeOf};
ghost use Rattle.tuple_file.specs.Tuples.{rows, slots};
ghost use Rattle.session_model.specs.Aheads.{ahead_of_join, ahead_of_select};
ghost use Rattle.session_model.specs.Indexed.{infos_of};
ghost use Rattle.session_model.specs.Running.{IsRunning, IsWaiting, IsWaitingJoin};
ghost use Rattle.session_model.specs.View.{join_left, project, project_pair, relation_of_rows, select_left};

use afl_base::{Failed, Files};
use cursor::JoinCursor;
use index_set::HashTables;
use session_model::{Held, Open, OpenJoin, OpenSelect, indexes_of};
use session_plans::JoinPlan;
use tuple_file::Tuples;

/// What a session knows beside its files: the hash tables, what it holds of the catalog, and the cursors.
#[derive(Clone, Copy)]
pub(crate) struct Memory<'a> {
    pub(crate) tables: &'a HashTables,
    pub(crate) held: &'a Held,
    pub(crate) opens: &'a [Option<Open>],
}

/// A relation that a query reads: its slot, and its rows.
#[derive(Clone, Copy)]
pub(crate) struct Queried<'a> {
    pub(crate) slot: u16,
    pub(crate) tuples: &'a Tuples,
}

/// Begins a cursor over a relation in its place.
// Not inlined, so that what it needs is gone when the cursor is moved.
#[inline(never)]
pub(crate) fn begin_select<V: Files>(
    files: &mut V,
    memory: &Memory,
    queried: &Queried,
    opened: &mut OpenSelect,
) -> Result<(), Failed>
    requires running { IsRunning (V.state files.old) memory.now.tables.now memory.now.held.now memory.now.opens.now }
    requires there { get_or memory.now.held.now.relations queried.now.slot None ≡ Some queried.now.tuples.now }
    requires over { opened.old.cursor.tuples ≡ queried.now.tuples.now }
    ensures rows { let state = V.state files.old in let attributes = queried.now.tuples.now.schema.attributes in
        IsTrue state.tells → OnOk result (
        (condition : Option Cond) → IsCodeOf attributes condition opened.old.cursor.code → select_left state.files opened.new
        ≡ map (project opened.old.places) (selected attributes condition (rows state.files queried.now.tuples.now))) }
    ensures ahead { let state = V.state files.old in let attributes = queried.now.tuples.now.schema.attributes in
        let infos = infos_of queried.now.slot queried.now.tuples.now memory.now.held.now.indexes in
        IsTrue state.tells → OnOk result (
        (condition : Option Cond) → IsCodeOf attributes condition opened.old.cursor.code → ahead_of_select state.files opened.new
        ≡ model.select_ahead queried.now.tuples.now.schema.name (kinds infos) (ranges_of attributes condition)
        (relation_of_rows state.files queried.now.tuples.now) condition) }
    ensures tuples { OnOk result (opened.new.cursor.tuples ≡ queried.now.tuples.now) }
    ensures waits { OnOk result (IsWaiting (V.state files.old) memory.now.held.now opened.new.cursor) }
    ensures reads { let attributes = queried.now.tuples.now.schema.attributes in
        let infos = infos_of queried.now.slot queried.now.tuples.now memory.now.held.now.indexes in
        (condition : Option Cond) → IsCodeOf attributes condition opened.old.cursor.code
        → V.reads files.new ≤ V.reads files.old + begin_cost (slots (V.state files.old).files queried.now.tuples.now)
        (plan_of (kinds infos) (ranges_of attributes condition)) }
    ensures frame { OnlyReads V.state V.lent V.reads V.faults files.old files.new result }
{
    let indexes = indexes_of(&memory.held.indexes, queried.slot, queried.tuples);
    opened.cursor.begin(files, memory.tables, &indexes)?;
    Ok(())
}

/// Begins a cursor over two relations, with the places of a list and of the ON attribute. It reads nothing.
pub(crate) fn begin_join<V: Files>(
    files: &V,
    memory: &Memory,
    left: &Queried,
    right: &Queried,
    plan: JoinPlan,
) -> OpenJoin
    requires running { IsRunning (V.state files.now) memory.now.tables.now memory.now.held.now memory.now.opens.now }
    requires left { get_or memory.now.held.now.relations left.now.slot None ≡ Some left.now.tuples.now }
    requires right { get_or memory.now.held.now.relations right.now.slot None ≡ Some right.now.tuples.now }
    ensures rows { let files = (V.state files.now).files in join_left files result
        ≡ map (project_pair plan.places)
        (matching plan.left_on plan.right_on (rows files left.now.tuples.now) (rows files right.now.tuples.now)) }
    ensures ahead { let files = (V.state files.now).files in
        let infos = infos_of right.now.slot right.now.tuples.now memory.now.held.now.indexes in ahead_of_join files result
        ≡ model.join_ahead left.now.tuples.now.schema.name right.now.tuples.now.schema.name (plan.left_on, plan.right_on)
        (kinds infos) (rows files left.now.tuples.now) (rows files right.now.tuples.now) }
    ensures left { result.cursor.left ≡ left.now.tuples.now }
    ensures right { result.cursor.right ≡ right.now.tuples.now }
    ensures waits { IsWaitingJoin (V.state files.now) memory.now.held.now result.cursor }
{
    let indexes = indexes_of(&memory.held.indexes, right.slot, right.tuples);
    let cursor = JoinCursor::begin(
        files,
        left.tuples.copy(),
        right.tuples.copy(),
        indexes,
        plan.left_on,
        plan.right_on,
    );
    OpenJoin {
        cursor,
        places: plan.places,
    }
}
