//! The lines of relations.

#![tactic(auto)]

ghost use Rattle.std.specs.Prelude.{◌≡◌, ◌+◌, ◌*◌, ◌<◌, ◌≤◌, true, false, IsErrOf, IsTrue, Some, flat_map, length};
ghost use Rattle.db_model.specs.Sound.{IsSoundDatabase};
ghost use Rattle.antelope_engine.specs.Reading.{relation_in_slot, schema_at};
ghost use Rattle.afl_base.specs.declared.fault.Fault.TheVariants.{Flash};
ghost use Rattle.session_model.specs.Carried.{Recites};
ghost use Rattle.session_model.specs.Steps.{UnlessFlash};
ghost use Rattle.space_model.specs.Enough.{rows_in};
ghost use Rattle.dump.specs.Appends.{AppendsText};
ghost use Rattle.dump.specs.Parts.{relation_lines, slots_of_all};
ghost use Rattle.dump.specs.Unchanged.{IsAsBefore};

use crate::rows::write_rows;
use crate::schemas::write_schema;
use crate::sent::write_used;
use afl_base::{Failed, Fault, Files, RelationId, Sink};
use antelope_engine::Session;
use db_model::Schema;

// Appends the lines of all relations, in slot order.
pub fn write_relations<V: Files, K: Sink>(
    session: &mut Session<V>,
    out: &mut K,
) -> Result<(), Fault>
    requires running { session.old.stopped ≡ false }
    ensures wrote { let db = session.old.database in
        IsTrue (V.state session.old.files).tells → IsSoundDatabase db
        → AppendsText result (K.held out.old) (K.held out.new)
        (flat_map relation_lines db.relations) }
    ensures same { UnlessFlash result (IsAsBefore V.state session.old session.new) }
    ensures lost { IsErrOf result Flash
        → (session.new.stopped ≡ true) × (session.new.lost ≡ true) }
    ensures reads { let slots = slots_of_all session.old.database.relations in
        V.reads session.new.files ≤ V.reads session.old.files + 6 * slots }
    ensures frame { Recites V.Files K.Sink session.old.files session.new.files
        out.old out.new result }
{
    for slot in 0..8u16 {
        write_relation(session, relation_id(slot), out)?;
    }
    Ok(())
}

fn relation_id(slot: u16) -> RelationId
    requires { slot < 8 }
    ensures { result ≡ slot }
{
    match RelationId::new(slot) {
        Some(id) => id,
        None => unreachable!(),
    }
}

// Appends the lines of the relation in a slot, none where the slot is unused.
fn write_relation<V: Files, K: Sink>(
    session: &mut Session<V>,
    id: RelationId,
    out: &mut K,
) -> Result<(), Fault>
    requires running { session.old.stopped ≡ false }
    ensures wrote { let db = session.old.database in
        IsTrue (V.state session.old.files).tells → IsSoundDatabase db
        → AppendsText result (K.held out.old) (K.held out.new)
        (relation_lines (relation_in_slot db id)) }
    ensures same { UnlessFlash result (IsAsBefore V.state session.old session.new) }
    ensures lost { IsErrOf result Flash
        → (session.new.stopped ≡ true) × (session.new.lost ≡ true) }
    ensures reads { let slots = length (rows_in session.old.database id) in
        V.reads session.new.files ≤ V.reads session.old.files + 6 * slots }
    ensures frame { Recites V.Files K.Sink session.old.files session.new.files
        out.old out.new result }
{
    match session.schema(id) {
        Some(schema) => write_used(session, id, &schema, out),
        None => Ok(()),
    }
}

// Appends the lines of a relation of this schema, in a slot.
pub fn write_lines<V: Files, K: Sink>(
    session: &mut Session<V>,
    id: RelationId,
    schema: &Schema,
    out: &mut K,
) -> Result<(), Fault>
    requires running { session.old.stopped ≡ false }
    requires schema { schema_at session.old.database id ≡ Some schema.now }
    ensures wrote { let db = session.old.database in
        IsTrue (V.state session.old.files).tells → IsSoundDatabase db
        → AppendsText result (K.held out.old) (K.held out.new)
        (relation_lines (relation_in_slot db id)) }
    ensures same { UnlessFlash result (IsAsBefore V.state session.old session.new) }
    ensures lost { IsErrOf result Flash
        → (session.new.stopped ≡ true) × (session.new.lost ≡ true) }
    ensures reads { let slots = length (rows_in session.old.database id) in
        V.reads session.new.files ≤ V.reads session.old.files + 6 * slots }
    ensures frame { Recites V.Files K.Sink session.old.files session.new.files
        out.old out.new result }
{
    match write_schema(out, schema) {
        Ok(()) => {}
        Err(Failed) => return Err(Fault::Sink),
    }
    write_rows(session, id, &schema.name, out)?;
    Ok(())
}
