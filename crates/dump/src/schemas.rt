//! The lines of a schema.

#![tactic(auto)]

ghost use Rattle.std.specs.Prelude.{◌≡◌, OnErr, OnOk};
ghost use Rattle.afl_base.specs.Keeping.{Sends};
ghost use Rattle.std.specs.Io.KnownBytes.{append_known};
ghost use Rattle.dump.specs.Parts.{attribute_lines, schema_lines};
ghost use Rattle.reply_text.specs.WroteLess.{WroteLess};

use crate::lines::{write_attribute_line, write_relation_line};
use afl_base::{Failed, Sink};
use db_model::{Attribute, Ident, Schema};

// Appends the lines that create a relation and its attributes.
pub fn write_schema<K: Sink>(out: &mut K, schema: &Schema) -> Result<(), Failed>
    ensures written { OnOk result
        (K.held out.new ≡ append_known (K.held out.old) (schema_lines schema.now)) }
    ensures failed { OnErr result
        (WroteLess (K.held out.old) (K.held out.new) (schema_lines schema.now)) }
    ensures frame { Sends K.lent K.faults out.old out.new result }
{
    write_relation_line(out, &schema.name)?;
    write_attributes(out, &schema.name, schema.attributes.as_slice())
}

fn write_attributes<K: Sink>(
    out: &mut K,
    relation: &Ident,
    attributes: &[Attribute],
) -> Result<(), Failed>
    ensures written { let all = attribute_lines relation.now attributes.now in
        OnOk result (K.held out.new ≡ append_known (K.held out.old) all) }
    ensures failed { let all = attribute_lines relation.now attributes.now in
        OnErr result (WroteLess (K.held out.old) (K.held out.new) all) }
    ensures frame { Sends K.lent K.faults out.old out.new result }
{
    for at in 0..attributes.len() {
        write_attribute_line(out, relation, &attributes[at])?;
    }
    Ok(())
}
