//! How many rows of a relation are live.

#![tactic(auto)]

ghost use Rattle.std.specs.Prelude.{◌≡◌, ◌+◌, ◌*◌, ◌<◌, ◌≤◌, true, false, IfOk, IsSome, IsTrue, OnErr, OnOk, length};
ghost use Rattle.afl_base.specs.Keeping.{OnlyReads};
ghost use Rattle.antelope_engine.specs.Reading.{relation_in_slot, row_in_slot};
ghost use Rattle.db_model.specs.Sound.{IsSoundDatabase};
ghost use Rattle.dump.specs.Unchanged.{IsAsBefore};
ghost use Rattle.run_look.specs.Text.{live_count, mark_of};
ghost use Rattle.space_model.specs.Enough.{rows_in};

use afl_base::{Failed, Files, RelationId, SlotNo};
use antelope_engine::Session;
use db_model::Tuple;

// How many rows of the relation in a slot are live. Each row is read once.
pub fn count_live<V: Files>(session: &mut Session<V>, id: RelationId) -> Result<u16, Failed>
    requires running { session.old.stopped ≡ false }
    requires used { IsSome (relation_in_slot session.old.database id) }
    ensures live { let db = session.old.database in
        IsTrue (V.state session.old.files).tells → IsSoundDatabase db
        → IfOk result (λ live. live ≡ live_count (rows_in db id)) }
    ensures few { IfOk result (λ live. live ≤ length (rows_in session.old.database id)) }
    ensures same { OnOk result (IsAsBefore V.state session.old session.new) }
    ensures lost { OnErr result ((session.new.stopped ≡ true) × (session.new.lost ≡ true)) }
    ensures reads { let slots = length (rows_in session.old.database id) in
        V.reads session.new.files ≤ V.reads session.old.files + 6 * slots }
    ensures frame { OnlyReads V.state V.lent V.reads V.faults session.old.files session.new.files result }
{
    let mut tuple = Tuple::new();
    let mut live = 0;
    for at in 0..session.slots(id) {
        let slot = match SlotNo::new(at) {
            Some(slot) => slot,
            None => return Ok(live),
        };
        live += mark(session, id, slot, &mut tuple)?;
    }
    Ok(live)
}

// 1 of a live row, and 0 of a removed one.
fn mark<V: Files>(
    session: &mut Session<V>,
    id: RelationId,
    slot: SlotNo,
    tuple: &mut Tuple,
) -> Result<u16, Failed>
    requires running { session.old.stopped ≡ false }
    requires slot { slot < length (rows_in session.old.database id) }
    ensures mark { IsTrue (V.state session.old.files).tells
        → IfOk result (λ mark. mark ≡ mark_of (row_in_slot session.old.database id slot)) }
    ensures one { IfOk result (λ mark. mark ≤ 1) }
    ensures same { OnOk result (IsAsBefore V.state session.old session.new) }
    ensures lost { OnErr result ((session.new.stopped ≡ true) × (session.new.lost ≡ true)) }
    ensures reads { V.reads session.new.files ≤ V.reads session.old.files + 6 }
    ensures frame { OnlyReads V.state V.lent V.reads V.faults session.old.files session.new.files result }
{
    match session.tuple(id, slot, tuple)? {
        true => Ok(1),
        false => Ok(0),
    }
}
