//! Lines that go out in few calls.

#![tactic(auto)]

ghost use Rattle.std.specs.Prelude.{◌≡◌, ◌+◌, ◌*◌, ◌≤◌, [], true, false, IsErrOf, IsTrue, OnErr, OnOk, Some, length};
ghost use Rattle.afl_base.specs.Keeping.{Sends};
ghost use Rattle.std.specs.Io.KnownBytes.{append_known};
ghost use Rattle.antelope_engine.specs.Reading.{relation_in_slot, schema_at};
ghost use Rattle.db_model.specs.declared.commands.Command.TheVariants.{CreateIndex};
ghost use Rattle.db_model.specs.Sound.{IsSoundDatabase};
ghost use Rattle.dump.specs.Appends.{AppendsText};
ghost use Rattle.dump.specs.Parts.{relation_lines};
ghost use Rattle.dump.specs.Unchanged.{IsAsBefore};
ghost use Rattle.dump_model.specs.Script.{command_line};
ghost use Rattle.reply_text.specs.WroteLess.{WroteLess};
ghost use Rattle.afl_base.specs.declared.fault.Fault.TheVariants.{Flash};
ghost use Rattle.session_model.specs.Carried.{Recites};
ghost use Rattle.session_model.specs.Steps.{UnlessFlash};
ghost use Rattle.space_model.specs.Enough.{rows_in};

use crate::lines;
use crate::relations::write_lines;
use afl_base::{Failed, Fault, Files, RelationId, Sink};
use antelope_engine::Session;
use buffered_sink::{Buffered, Since, Waiting};
use db_model::{Ident, IndexKind, Schema};
use std::marker::{Brand, PhantomData};

// Appends the lines of a relation of this schema, in a slot.
pub fn write_used<V: Files, K: Sink>(
    session: &mut Session<V>,
    id: RelationId,
    schema: &Schema,
    out: &mut K,
) -> Result<(), Fault>
    requires running { session.old.stopped ≡ false }
    requires schema { schema_at session.old.database id ≡ Some schema.now }
    ensures wrote { let db = session.old.database in
        IsTrue (V.state session.old.files).tells → IsSoundDatabase db
        → AppendsText result (K.held out.old) (K.held out.new)
        (relation_lines (relation_in_slot db id)) }
    ensures same { UnlessFlash result (IsAsBefore V.state session.old session.new) }
    ensures lost { IsErrOf result Flash
        → (session.new.stopped ≡ true) × (session.new.lost ≡ true) }
    ensures reads { let slots = length (rows_in session.old.database id) in
        V.reads session.new.files ≤ V.reads session.old.files + 6 * slots }
    ensures frame { Recites V.Files K.Sink session.old.files session.new.files
        out.old out.new result }
{
    let mut waiting = Waiting::new();
    write_through::<V, K, Brand>(session, id, schema, out, &mut waiting)
}

// The same through a sink that gathers, from now on.
fn write_through<V: Files, K: Sink, N: Since>(
    session: &mut Session<V>,
    id: RelationId,
    schema: &Schema,
    out: &mut K,
    waiting: &mut Waiting,
) -> Result<(), Fault>
    requires now { N.held ≡ Some (K.held out.old) }
    requires none { waiting.old.bytes ≡ [] }
    requires running { session.old.stopped ≡ false }
    requires schema { schema_at session.old.database id ≡ Some schema.now }
    ensures wrote { let db = session.old.database in
        IsTrue (V.state session.old.files).tells → IsSoundDatabase db
        → AppendsText result (K.held out.old) (K.held out.new)
        (relation_lines (relation_in_slot db id)) }
    ensures same { UnlessFlash result (IsAsBefore V.state session.old session.new) }
    ensures lost { IsErrOf result Flash
        → (session.new.stopped ≡ true) × (session.new.lost ≡ true) }
    ensures reads { let slots = length (rows_in session.old.database id) in
        V.reads session.new.files ≤ V.reads session.old.files + 6 * slots }
    ensures frame { Recites V.Files K.Sink session.old.files session.new.files
        out.old out.new result }
{
    let mut gathered = Buffered {
        out,
        waiting,
        since: PhantomData::<N>,
    };
    match write_lines(session, id, schema, &mut gathered) {
        Ok(()) => match gathered.flush() {
            Ok(()) => Ok(()),
            Err(Failed) => Err(Fault::Sink),
        },
        Err(Fault::Flash) => {
            let _sent = gathered.flush();
            Err(Fault::Flash)
        }
        Err(Fault::Sink) => Err(Fault::Sink),
    }
}

// Appends the line that creates an index.
pub fn write_index_line<K: Sink>(
    out: &mut K,
    relation: &Ident,
    attribute: &Ident,
    kind: &IndexKind,
) -> Result<(), Failed>
    ensures written { let line = command_line (CreateIndex relation.now attribute.now kind.now) in
        OnOk result (K.held out.new ≡ append_known (K.held out.old) line) }
    ensures failed { let line = command_line (CreateIndex relation.now attribute.now kind.now) in
        OnErr result (WroteLess (K.held out.old) (K.held out.new) line) }
    ensures frame { Sends K.lent K.faults out.old out.new result }
{
    let mut waiting = Waiting::new();
    index_through::<K, Brand>(out, &mut waiting, relation, attribute, kind)
}

// The same through a sink that gathers, from now on.
fn index_through<K: Sink, N: Since>(
    out: &mut K,
    waiting: &mut Waiting,
    relation: &Ident,
    attribute: &Ident,
    kind: &IndexKind,
) -> Result<(), Failed>
    requires now { N.held ≡ Some (K.held out.old) }
    requires none { waiting.old.bytes ≡ [] }
    ensures written { let line = command_line (CreateIndex relation.now attribute.now kind.now) in
        OnOk result (K.held out.new ≡ append_known (K.held out.old) line) }
    ensures failed { let line = command_line (CreateIndex relation.now attribute.now kind.now) in
        OnErr result (WroteLess (K.held out.old) (K.held out.new) line) }
    ensures frame { Sends K.lent K.faults out.old out.new result }
{
    let mut gathered = Buffered {
        out,
        waiting,
        since: PhantomData::<N>,
    };
    lines::write_index_line(&mut gathered, relation, attribute, kind)?;
    gathered.flush()?;
    Ok(())
}
