//! The lines of all indexes.

#![tactic(auto)]

ghost use Rattle.std.specs.Prelude.{◌≡◌, ◌<◌, false, OnErr, OnOk};
ghost use Rattle.std.specs.Io.KnownBytes.{append_known};
ghost use Rattle.afl_base.specs.Keeping.{Sends};
ghost use Rattle.antelope_engine.specs.Reading.{index_in_slot};
ghost use Rattle.db_model.specs.Sound.{IsSoundDatabase};
ghost use Rattle.run_look.specs.Text.{index_placed_text, index_line_text, index_texts, slot_text};
ghost use Rattle.reply_text.specs.WroteLess.{WroteLess};

use crate::lines::write_index_line;
use afl_base::{Failed, Files, IndexId, Sink};
use antelope_engine::Session;
use db_model::{IndexKind, Schema};

// Appends the lines of all indexes, in slot order.
pub fn write_indexes<V: Files, K: Sink>(session: &Session<V>, out: &mut K) -> Result<(), Failed>
    requires running { session.now.stopped ≡ false }
    ensures written { let db = session.now.database in IsSoundDatabase db
        → OnOk result (K.held out.new ≡ append_known (K.held out.old) (index_texts db)) }
    ensures failed { let db = session.now.database in IsSoundDatabase db
        → OnErr result (WroteLess (K.held out.old) (K.held out.new) (index_texts db)) }
    ensures frame { Sends K.lent K.faults out.old out.new result }
{
    for slot in 0..8u16 {
        write_index(session, index_id(slot), out)?;
    }
    Ok(())
}

fn index_id(slot: u16) -> IndexId
    requires { slot < 8 }
    ensures { result ≡ slot }
{
    match IndexId::new(slot) {
        Some(id) => id,
        None => unreachable!(),
    }
}

// Appends the line of the index in a slot, none where the slot is unused.
fn write_index<V: Files, K: Sink>(
    session: &Session<V>,
    id: IndexId,
    out: &mut K,
) -> Result<(), Failed>
    requires running { session.now.stopped ≡ false }
    ensures written { let db = session.now.database in
        let line = slot_text (index_line_text db.relations) (index_in_slot db id) in
        OnOk result (K.held out.new ≡ append_known (K.held out.old) line) }
    ensures failed { let db = session.now.database in
        let line = slot_text (index_line_text db.relations) (index_in_slot db id) in
        OnErr result (WroteLess (K.held out.old) (K.held out.new) line) }
    ensures frame { Sends K.lent K.faults out.old out.new result }
{
    let index = match session.index(id) {
        Some(index) => index,
        None => return Ok(()),
    };
    match session.schema(index.relation) {
        Some(schema) => write_index_at(out, &schema, index.attribute, &index.kind),
        None => Ok(()),
    }
}

// Appends the line of an index on the attribute at a place, none where there is none.
fn write_index_at<K: Sink>(
    out: &mut K,
    schema: &Schema,
    place: u8,
    kind: &IndexKind,
) -> Result<(), Failed>
    ensures written { let line = index_placed_text schema.now place kind.now in
        OnOk result (K.held out.new ≡ append_known (K.held out.old) line) }
    ensures failed { let line = index_placed_text schema.now place kind.now in
        OnErr result (WroteLess (K.held out.old) (K.held out.new) line) }
    ensures frame { Sends K.lent K.faults out.old out.new result }
{
    match schema.attributes.as_slice().get(usize::from(place)) {
        Some(attribute) => write_index_line(out, &schema.name, &attribute.name, kind),
        None => Ok(()),
    }
}
