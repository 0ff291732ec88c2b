//! The lines of indexes.

#![tactic(auto)]

ghost use Rattle.std.specs.Prelude.{◌≡◌, ◌<◌, false, OnErr, OnOk, flat_map};
ghost use Rattle.afl_base.specs.Keeping.{Sends};
ghost use Rattle.std.specs.Io.KnownBytes.{append_known};
ghost use Rattle.db_model.specs.Sound.{IsSoundDatabase};
ghost use Rattle.antelope_engine.specs.Reading.{index_in_slot};
ghost use Rattle.dump.specs.Parts.{index_lines};
ghost use Rattle.reply_text.specs.WroteLess.{WroteLess};

use crate::sent::write_index_line;
use afl_base::{Failed, Files, IndexId, Sink};
use antelope_engine::Session;

// Appends the lines of all indexes, in slot order.
pub fn write_indexes<V: Files, K: Sink>(session: &Session<V>, out: &mut K) -> Result<(), Failed>
    requires running { session.now.stopped ≡ false }
    ensures written { let db = session.now.database in IsSoundDatabase db
        → OnOk result (K.held out.new ≡ append_known (K.held out.old)
        (flat_map (index_lines db.relations) db.indexes)) }
    ensures failed { let db = session.now.database in IsSoundDatabase db
        → OnErr result (WroteLess (K.held out.old) (K.held out.new)
        (flat_map (index_lines db.relations) db.indexes)) }
    ensures frame { Sends K.lent K.faults out.old out.new result }
{
    for slot in 0..8u16 {
        write_index(session, index_id(slot), out)?;
    }
    Ok(())
}

fn index_id(slot: u16) -> IndexId
    requires { slot < 8 }
    ensures { result ≡ slot }
{
    match IndexId::new(slot) {
        Some(id) => id,
        None => unreachable!(),
    }
}

// Appends the line of the index in a slot, none where the slot is unused.
fn write_index<V: Files, K: Sink>(
    session: &Session<V>,
    id: IndexId,
    out: &mut K,
) -> Result<(), Failed>
    requires running { session.now.stopped ≡ false }
    ensures written { let db = session.now.database in IsSoundDatabase db
        → OnOk result (K.held out.new ≡ append_known (K.held out.old)
        (index_lines db.relations (index_in_slot db id))) }
    ensures failed { let db = session.now.database in IsSoundDatabase db
        → OnErr result (WroteLess (K.held out.old) (K.held out.new)
        (index_lines db.relations (index_in_slot db id))) }
    ensures frame { Sends K.lent K.faults out.old out.new result }
{
    let index = match session.index(id) {
        Some(index) => index,
        None => return Ok(()),
    };
    let schema = match session.schema(index.relation) {
        Some(schema) => schema,
        None => return Ok(()),
    };
    match schema
        .attributes
        .as_slice()
        .get(usize::from(index.attribute))
    {
        Some(attribute) => write_index_line(out, &schema.name, &attribute.name, &index.kind),
        None => Ok(()),
    }
}
