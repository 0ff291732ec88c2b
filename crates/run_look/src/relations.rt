//! The lines of all relations.

#![tactic(auto)]

ghost use Rattle.std.specs.Prelude.{◌≡◌, ◌+◌, ◌*◌, ◌<◌, ◌≤◌, true, false, IsErrOf, IsTrue, Some, length};
ghost use Rattle.afl_base.specs.declared.fault.Fault.TheVariants.{Flash};
ghost use Rattle.antelope_engine.specs.Reading.{relation_in_slot, schema_at};
ghost use Rattle.db_model.specs.Sound.{IsSoundDatabase};
ghost use Rattle.db_model.specs.Step.{slots_limit};
ghost use Rattle.dump.specs.Appends.{AppendsText};
ghost use Rattle.dump.specs.Parts.{slots_of_all};
ghost use Rattle.dump.specs.Unchanged.{IsAsBefore};
ghost use Rattle.run_look.specs.Text.{relation_line, relation_texts, slot_text};
ghost use Rattle.session_model.specs.Carried.{Recites};
ghost use Rattle.session_model.specs.Steps.{UnlessFlash};
ghost use Rattle.space_model.specs.Enough.{rows_in};

use crate::lines::write_rows_line;
use crate::rows::count_live;
use afl_base::{Failed, Fault, Files, RelationId, Sink};
use antelope_engine::Session;
use db_model::Schema;

// Appends the lines of all relations, in slot order.
pub fn write_relations<V: Files, K: Sink>(
    session: &mut Session<V>,
    out: &mut K,
) -> Result<(), Fault>
    requires running { session.old.stopped ≡ false }
    ensures wrote { let db = session.old.database in
        IsTrue (V.state session.old.files).tells → IsSoundDatabase db
        → AppendsText result (K.held out.old) (K.held out.new) (relation_texts db) }
    ensures same { UnlessFlash result (IsAsBefore V.state session.old session.new) }
    ensures lost { IsErrOf result Flash
        → (session.new.stopped ≡ true) × (session.new.lost ≡ true) }
    ensures reads { let slots = slots_of_all session.old.database.relations in
        V.reads session.new.files ≤ V.reads session.old.files + 6 * slots }
    ensures frame { Recites V.Files K.Sink session.old.files session.new.files
        out.old out.new result }
{
    for slot in 0..8u16 {
        write_relation(session, relation_id(slot), out)?;
    }
    Ok(())
}

fn relation_id(slot: u16) -> RelationId
    requires { slot < 8 }
    ensures { result ≡ slot }
{
    match RelationId::new(slot) {
        Some(id) => id,
        None => unreachable!(),
    }
}

// Appends the line of the relation in a slot, none where the slot is unused.
fn write_relation<V: Files, K: Sink>(
    session: &mut Session<V>,
    id: RelationId,
    out: &mut K,
) -> Result<(), Fault>
    requires running { session.old.stopped ≡ false }
    ensures wrote { let db = session.old.database in
        IsTrue (V.state session.old.files).tells → IsSoundDatabase db
        → AppendsText result (K.held out.old) (K.held out.new)
        (slot_text (relation_line (slots_limit db.version)) (relation_in_slot db id)) }
    ensures same { UnlessFlash result (IsAsBefore V.state session.old session.new) }
    ensures lost { IsErrOf result Flash
        → (session.new.stopped ≡ true) × (session.new.lost ≡ true) }
    ensures reads { let slots = length (rows_in session.old.database id) in
        V.reads session.new.files ≤ V.reads session.old.files + 6 * slots }
    ensures frame { Recites V.Files K.Sink session.old.files session.new.files
        out.old out.new result }
{
    match session.schema(id) {
        Some(schema) => write_used(session, id, &schema, out),
        None => Ok(()),
    }
}

// Appends the line of a relation of this schema, in a slot. Its rows are counted before.
fn write_used<V: Files, K: Sink>(
    session: &mut Session<V>,
    id: RelationId,
    schema: &Schema,
    out: &mut K,
) -> Result<(), Fault>
    requires running { session.old.stopped ≡ false }
    requires schema { schema_at session.old.database id ≡ Some schema.now }
    ensures wrote { let db = session.old.database in
        IsTrue (V.state session.old.files).tells → IsSoundDatabase db
        → AppendsText result (K.held out.old) (K.held out.new)
        (slot_text (relation_line (slots_limit db.version)) (relation_in_slot db id)) }
    ensures same { UnlessFlash result (IsAsBefore V.state session.old session.new) }
    ensures lost { IsErrOf result Flash
        → (session.new.stopped ≡ true) × (session.new.lost ≡ true) }
    ensures reads { let slots = length (rows_in session.old.database id) in
        V.reads session.new.files ≤ V.reads session.old.files + 6 * slots }
    ensures frame { Recites V.Files K.Sink session.old.files session.new.files
        out.old out.new result }
{
    let slots = session.slots(id);
    let left = session.slots_limit().saturating_sub(slots);
    let live = match count_live(session, id) {
        Ok(live) => live,
        Err(Failed) => return Err(Fault::Flash),
    };
    match write_rows_line(out, schema, live, slots - live, left) {
        Ok(()) => Ok(()),
        Err(Failed) => Err(Fault::Sink),
    }
}
