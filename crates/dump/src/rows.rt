//! The lines of rows.

#![tactic(auto)]

ghost use Rattle.std.specs.Prelude.{◌≡◌, ◌+◌, ◌*◌, ◌<◌, ◌≤◌, true, false, IsErrOf, IsSome, IsTrue, flat_map, length};
ghost use Rattle.db_model.specs.Sound.{IsSoundDatabase};
ghost use Rattle.antelope_engine.specs.Reading.{relation_in_slot, row_in_slot};
ghost use Rattle.afl_base.specs.declared.fault.Fault.TheVariants.{Flash};
ghost use Rattle.session_model.specs.Carried.{Recites};
ghost use Rattle.session_model.specs.Steps.{UnlessFlash};
ghost use Rattle.space_model.specs.Enough.{rows_in};
ghost use Rattle.dump.specs.Appends.{AppendsText};
ghost use Rattle.dump.specs.Parts.{row_lines};
ghost use Rattle.dump.specs.Unchanged.{IsAsBefore};

use crate::lines::write_row_line;
use afl_base::{Failed, Fault, Files, RelationId, Sink, SlotNo};
use antelope_engine::Session;
use db_model::{Ident, Tuple};

// Appends the lines that insert the live rows of the relation in a slot.
pub fn write_rows<V: Files, K: Sink>(
    session: &mut Session<V>,
    id: RelationId,
    relation: &Ident,
    out: &mut K,
) -> Result<(), Fault>
    requires running { session.old.stopped ≡ false }
    requires used { IsSome (relation_in_slot session.old.database id) }
    ensures wrote { let db = session.old.database in
        IsTrue (V.state session.old.files).tells → IsSoundDatabase db
        → AppendsText result (K.held out.old) (K.held out.new)
        (flat_map (row_lines relation.now) (rows_in db id)) }
    ensures same { UnlessFlash result (IsAsBefore V.state session.old session.new) }
    ensures lost { IsErrOf result Flash
        → (session.new.stopped ≡ true) × (session.new.lost ≡ true) }
    ensures reads { let slots = length (rows_in session.old.database id) in
        V.reads session.new.files ≤ V.reads session.old.files + 6 * slots }
    ensures frame { Recites V.Files K.Sink session.old.files session.new.files
        out.old out.new result }
{
    let mut tuple = Tuple::new();
    for at in 0..session.slots(id) {
        let slot = match SlotNo::new(at) {
            Some(slot) => slot,
            None => return Ok(()),
        };
        write_row(session, id, slot, relation, &mut tuple, out)?;
    }
    Ok(())
}

// Reads a row into `tuple`, and appends its line where it is live.
fn write_row<V: Files, K: Sink>(
    session: &mut Session<V>,
    id: RelationId,
    slot: SlotNo,
    relation: &Ident,
    tuple: &mut Tuple,
    out: &mut K,
) -> Result<(), Fault>
    requires running { session.old.stopped ≡ false }
    requires slot { slot < length (rows_in session.old.database id) }
    ensures wrote { let db = session.old.database in
        IsTrue (V.state session.old.files).tells → IsSoundDatabase db
        → AppendsText result (K.held out.old) (K.held out.new)
        (row_lines relation.now (row_in_slot db id slot)) }
    ensures same { UnlessFlash result (IsAsBefore V.state session.old session.new) }
    ensures lost { IsErrOf result Flash
        → (session.new.stopped ≡ true) × (session.new.lost ≡ true) }
    ensures reads { V.reads session.new.files ≤ V.reads session.old.files + 6 }
    ensures frame { Recites V.Files K.Sink session.old.files session.new.files
        out.old out.new result }
{
    match session.tuple(id, slot, tuple) {
        Ok(true) => match write_row_line(out, relation, tuple) {
            Ok(()) => Ok(()),
            Err(Failed) => Err(Fault::Sink),
        },
        Ok(false) => Ok(()),
        Err(Failed) => Err(Fault::Flash),
    }
}
