//! The lines of relations and indexes.

#![tactic(auto, using(reply_text::proofs::Pieces::less_front, reply_text::proofs::Pieces::less_behind, reply_text::proofs::Pieces::less_third))]

ghost use Rattle.std.specs.Prelude.{◌≡◌, ◌++◌, OnErr, OnOk};
ghost use Rattle.std.specs.Io.KnownBytes.{append_known};
ghost use Rattle.afl_base.specs.Keeping.{Sends};
ghost use Rattle.dump.specs.Parts.{comma_and_space};
ghost use Rattle.run_look.specs.Text.{attribute_text, index_text, list_text, rows_line, schema_text};
ghost use Rattle.reply_text.specs.WroteLess.{WroteLess};

use afl_base::{Failed, Sink};
use db_model::{Attribute, Ident, IndexKind, Schema};
use dump::{kind_text, write_comma, write_domain, write_three};
use reply_text::{write_all, write_count, write_line_of_counts};

// Appends the line of a relation with this many live and removed rows, and this many slots left.
pub fn write_rows_line<K: Sink>(
    out: &mut K,
    schema: &Schema,
    live: u16,
    removed: u16,
    left: u16,
) -> Result<(), Failed>
    ensures written { let line = rows_line schema.now live removed left in
        OnOk result (K.held out.new ≡ append_known (K.held out.old) line) }
    ensures failed { let line = rows_line schema.now live removed left in
        OnErr result (WroteLess (K.held out.old) (K.held out.new) line) }
    ensures frame { Sends K.lent K.faults out.old out.new result }
{
    write_schema(out, schema)?;
    write_count(out, b" rows ", u64::from(live))?;
    write_line_of_counts(
        out,
        b" removed ",
        u64::from(removed),
        b" slots left ",
        u64::from(left),
    )
}

fn write_schema<K: Sink>(out: &mut K, schema: &Schema) -> Result<(), Failed>
    ensures written { OnOk result
        (K.held out.new ≡ append_known (K.held out.old) (schema_text schema.now)) }
    ensures failed { OnErr result (WroteLess (K.held out.old) (K.held out.new) (schema_text schema.now)) }
    ensures frame { Sends K.lent K.faults out.old out.new result }
{
    write_three(out, b"relation ", schema.name.bytes(), b" (")?;
    write_attributes(out, schema.attributes.as_slice())?;
    write_all(out, b")")
}

fn write_attributes<K: Sink>(out: &mut K, attributes: &[Attribute]) -> Result<(), Failed>
    ensures written { let text = list_text attribute_text attributes.now in
        OnOk result (K.held out.new ≡ append_known (K.held out.old) text) }
    ensures failed { let text = list_text attribute_text attributes.now in
        OnErr result (WroteLess (K.held out.old) (K.held out.new) text) }
    ensures frame { Sends K.lent K.faults out.old out.new result }
{
    for at in 0..attributes.len() {
        write_attribute(out, at, &attributes[at])?;
    }
    Ok(())
}

// Appends the attribute at a place, with `, ` before it, unless it is the first.
fn write_attribute<K: Sink>(out: &mut K, at: usize, attribute: &Attribute) -> Result<(), Failed>
    ensures written { let text = comma_and_space at ++ attribute_text attribute.now in
        OnOk result (K.held out.new ≡ append_known (K.held out.old) text) }
    ensures failed { let text = comma_and_space at ++ attribute_text attribute.now in
        OnErr result (WroteLess (K.held out.old) (K.held out.new) text) }
    ensures frame { Sends K.lent K.faults out.old out.new result }
{
    write_comma(out, at)?;
    write_attribute_text(out, attribute)
}

fn write_attribute_text<K: Sink>(out: &mut K, attribute: &Attribute) -> Result<(), Failed>
    ensures written { OnOk result
        (K.held out.new ≡ append_known (K.held out.old) (attribute_text attribute.now)) }
    ensures failed { OnErr result (WroteLess (K.held out.old) (K.held out.new) (attribute_text attribute.now)) }
    ensures frame { Sends K.lent K.faults out.old out.new result }
{
    write_all(out, attribute.name.bytes())?;
    write_all(out, b" ")?;
    write_domain(out, &attribute.domain)
}

// Appends the line of an index.
pub fn write_index_line<K: Sink>(
    out: &mut K,
    relation: &Ident,
    attribute: &Ident,
    kind: &IndexKind,
) -> Result<(), Failed>
    ensures written { let line = index_text relation.now attribute.now kind.now in
        OnOk result (K.held out.new ≡ append_known (K.held out.old) line) }
    ensures failed { let line = index_text relation.now attribute.now kind.now in
        OnErr result (WroteLess (K.held out.old) (K.held out.new) line) }
    ensures frame { Sends K.lent K.faults out.old out.new result }
{
    write_three(out, b"index ", relation.bytes(), b".")?;
    write_all(out, attribute.bytes())?;
    write_three(out, b" ", kind_text(kind), b"\n")
}
