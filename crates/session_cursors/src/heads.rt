//! One row of an open cursor.

#![tactic(auto)]

ghost use Rattle.std.specs.Prelude.{◌≡◌, ◌+◌, ◌≤◌, Some, IfOk, IsTrue, OnOk, drop, take};
ghost use Rattle.afl_base.specs.Keeping.{OnlyReads};
ghost use Rattle.db_model.specs.Ahead.{fetched};
ghost use Rattle.db_model.specs.Database.{Database};
ghost use Rattle.session_model.specs.declared.held.Held.{Held as AnyHeld};
ghost use Rattle.session_model.specs.declared.held.Open.TheVariants.{Select as OfSelect, Join as OfJoin};
ghost use Rattle.session_model.specs.Aheads.{ahead_in, ahead_of_join, ahead_of_select};
ghost use Rattle.session_model.specs.Running.{IsCursorSlot, IsWaiting, IsWaitingJoin};
ghost use Rattle.session_model.specs.View.{cursor_in, join_left, select_left};
ghost use Rattle.session_cursors.specs.Fetched.{CanFetch, CanJoin, CanSelect, FindsRows, fetch_price, one_or_none};

use afl_base::{Failed, Files};
use db_model::Tuple;
use index_set::HashTables;
use session_model::{Open, OpenJoin, OpenSelect, project, project_pair};

// The next row of a SELECT, which rests afterwards. After its last slot it reads nothing.
fn fetch_select<V: Files>(
    files: &mut V,
    tables: &HashTables,
    opened: &mut OpenSelect,
    into: &mut Tuple,
) -> Result<bool, Failed>
    requires can { CanSelect (V.state files.old) tables.now opened.old.cursor }
    ensures row { let state = V.state files.old in IsTrue state.tells → IfOk result (λ found.
        take 1 (select_left state.files opened.old) ≡ one_or_none found into.new) }
    ensures left { let state = V.state files.old in IsTrue state.tells → OnOk result
        (select_left state.files opened.new ≡ drop 1 (select_left state.files opened.old)) }
    ensures ahead { let state = V.state files.old in IsTrue state.tells → OnOk result
        (ahead_of_select state.files opened.new ≡ fetched (ahead_of_select state.files opened.old)) }
    ensures tuples { OnOk result (opened.new.cursor.tuples ≡ opened.old.cursor.tuples) }
    ensures waits { OnOk result ((held : AnyHeld) → IsWaiting (V.state files.old) held opened.old.cursor
        → IsWaiting (V.state files.old) held opened.new.cursor) }
    ensures reads { let state = V.state files.old in IsTrue state.tells → (db : Database)
        → FindsRows db state.files (OfSelect opened.old)
        → V.reads files.new ≤ V.reads files.old + fetch_price db state.files (OfSelect opened.old) }
    ensures frame { OnlyReads V.state V.lent V.reads V.faults files.old files.new result }
{
    if opened.cursor.candidates.slots <= opened.cursor.candidates.from {
        return Ok(false);
    }
    let mut tuple = Tuple::new();
    let found = opened.cursor.next(files, tables, &mut tuple)?;
    project(&opened.places, &tuple, into);
    opened.cursor.rest();
    Ok(found.is_some())
}

// The next row of a JOIN, which rests afterwards. Without right slots it has none, and reads nothing.
fn fetch_join<V: Files>(
    files: &mut V,
    tables: &HashTables,
    opened: &mut OpenJoin,
    into: &mut Tuple,
) -> Result<bool, Failed>
    requires can { CanJoin (V.state files.old) tables.now opened.old.cursor }
    ensures row { let state = V.state files.old in IsTrue state.tells → IfOk result (λ found.
        take 1 (join_left state.files opened.old) ≡ one_or_none found into.new) }
    ensures left { let state = V.state files.old in IsTrue state.tells → OnOk result
        (join_left state.files opened.new ≡ drop 1 (join_left state.files opened.old)) }
    ensures ahead { let state = V.state files.old in IsTrue state.tells → OnOk result
        (ahead_of_join state.files opened.new ≡ fetched (ahead_of_join state.files opened.old)) }
    ensures left_tuples { OnOk result (opened.new.cursor.left ≡ opened.old.cursor.left) }
    ensures right_tuples { OnOk result (opened.new.cursor.right ≡ opened.old.cursor.right) }
    ensures waits { OnOk result ((held : AnyHeld) → IsWaitingJoin (V.state files.old) held opened.old.cursor
        → IsWaitingJoin (V.state files.old) held opened.new.cursor) }
    ensures reads { let state = V.state files.old in IsTrue state.tells → (db : Database)
        → FindsRows db state.files (OfJoin opened.old)
        → V.reads files.new ≤ V.reads files.old + fetch_price db state.files (OfJoin opened.old) }
    ensures frame { OnlyReads V.state V.lent V.reads V.faults files.old files.new result }
{
    if opened.cursor.right_slots == 0 {
        opened.cursor.at = opened.cursor.left_slots;
        return Ok(false);
    }
    let mut left = Tuple::new();
    let mut right = Tuple::new();
    let found = opened.cursor.next(files, tables, &mut left, &mut right)?;
    project_pair(&opened.places, &left, &right, into);
    opened.cursor.rest();
    Ok(found)
}

/// The next row of an open cursor, which rests afterwards: false where none is to come.
pub(crate) fn fetch_open<V: Files>(
    files: &mut V,
    tables: &HashTables,
    opened: &mut Open,
    into: &mut Tuple,
) -> Result<bool, Failed>
    requires can { CanFetch (V.state files.old) tables.now opened.old }
    ensures row { let state = V.state files.old in IsTrue state.tells → IfOk result (λ found.
        take 1 (cursor_in state.files opened.old).rows ≡ one_or_none found into.new) }
    ensures left { let state = V.state files.old in IsTrue state.tells → OnOk result
        (cursor_in state.files opened.new ≡ record (cursor_in state.files opened.old)
        { rows = drop 1 (cursor_in state.files opened.old).rows }) }
    ensures ahead { let state = V.state files.old in IsTrue state.tells → OnOk result
        (ahead_in state.files opened.new ≡ fetched (ahead_in state.files opened.old)) }
    ensures waits { OnOk result ((held : AnyHeld) → IsCursorSlot (V.state files.old) held (Some opened.old)
        → IsCursorSlot (V.state files.old) held (Some opened.new)) }
    ensures reads { let state = V.state files.old in IsTrue state.tells → (db : Database)
        → FindsRows db state.files opened.old
        → V.reads files.new ≤ V.reads files.old + fetch_price db state.files opened.old }
    ensures frame { OnlyReads V.state V.lent V.reads V.faults files.old files.new result }
{
    match opened {
        Open::Select(select) => fetch_select(files, tables, select, into),
        Open::Join(join) => fetch_join(files, tables, join, into),
    }
}
