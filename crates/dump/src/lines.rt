//! The lines of a script.

#![tactic(auto)]

ghost use Rattle.std.specs.Prelude.{◌≡◌, OnErr, OnOk};
ghost use Rattle.afl_base.specs.Keeping.{Sends};
ghost use Rattle.std.specs.Io.KnownBytes.{append_known};
ghost use Rattle.db_model.specs.declared.commands.Command.TheVariants.{CreateRelation, CreateIndex};
ghost use Rattle.db_model.specs.Grammar.{kind_word};
ghost use Rattle.db_model.specs.Keywords.{keyword_text};
ghost use Rattle.dump_model.specs.Script.{attribute_command, command_line, domain_named, domain_text, row_command};
ghost use Rattle.reply_text.specs.WroteLess.{WroteLess};

use crate::pieces::{write_number_between, write_three};
use crate::values::write_values;
use afl_base::{Failed, Sink};
use db_model::{Attribute, Domain, Ident, IndexKind, Tuple};
use reply_text::write_all;

// Appends the line that creates a relation.
pub fn write_relation_line<K: Sink>(out: &mut K, relation: &Ident) -> Result<(), Failed>
    ensures written { let line = command_line (CreateRelation relation.now) in
        OnOk result (K.held out.new ≡ append_known (K.held out.old) line) }
    ensures failed { let line = command_line (CreateRelation relation.now) in
        OnErr result (WroteLess (K.held out.old) (K.held out.new) line) }
    ensures frame { Sends K.lent K.faults out.old out.new result }
{
    write_three(out, b"CREATE RELATION ", relation.bytes(), b";\n")
}

// Appends the line that creates an attribute.
pub fn write_attribute_line<K: Sink>(
    out: &mut K,
    relation: &Ident,
    attribute: &Attribute,
) -> Result<(), Failed>
    ensures written { let line = command_line (attribute_command relation.now attribute.now) in
        OnOk result (K.held out.new ≡ append_known (K.held out.old) line) }
    ensures failed { let line = command_line (attribute_command relation.now attribute.now) in
        OnErr result (WroteLess (K.held out.old) (K.held out.new) line) }
    ensures frame { Sends K.lent K.faults out.old out.new result }
{
    write_three(
        out,
        b"CREATE ATTRIBUTE ",
        attribute.name.bytes(),
        b" DOMAIN ",
    )?;
    write_domain(out, &attribute.domain)?;
    write_three(out, b" IN ", relation.bytes(), b";\n")
}

/// Appends a domain as AQL spells it. `Failed` leaves a proper prefix of it there.
pub fn write_domain<K: Sink>(out: &mut K, domain: &Domain) -> Result<(), Failed>
    ensures written { OnOk result (K.held out.new
        ≡ append_known (K.held out.old) (domain_text (domain_named domain.now))) }
    ensures failed { OnErr result
        (WroteLess (K.held out.old) (K.held out.new) (domain_text (domain_named domain.now))) }
    ensures frame { Sends K.lent K.faults out.old out.new result }
{
    match domain {
        Domain::Int => write_all(out, b"INT"),
        Domain::Long => write_all(out, b"LONG"),
        Domain::Time => write_all(out, b"TIME"),
        Domain::Str(n) => write_number_between(out, b"STRING(", u64::from(*n), b")"),
    }
}

// Appends the line that inserts a row.
pub fn write_row_line<K: Sink>(out: &mut K, relation: &Ident, tuple: &Tuple) -> Result<(), Failed>
    ensures written { let line = command_line (row_command relation.now tuple.now) in
        OnOk result (K.held out.new ≡ append_known (K.held out.old) line) }
    ensures failed { let line = command_line (row_command relation.now tuple.now) in
        OnErr result (WroteLess (K.held out.old) (K.held out.new) line) }
    ensures frame { Sends K.lent K.faults out.old out.new result }
{
    write_all(out, b"INSERT (")?;
    write_values(out, tuple)?;
    write_three(out, b") INTO ", relation.bytes(), b";\n")
}

// Appends the line that creates an index.
pub fn write_index_line<K: Sink>(
    out: &mut K,
    relation: &Ident,
    attribute: &Ident,
    kind: &IndexKind,
) -> Result<(), Failed>
    ensures written { let line = command_line (CreateIndex relation.now attribute.now kind.now) in
        OnOk result (K.held out.new ≡ append_known (K.held out.old) line) }
    ensures failed { let line = command_line (CreateIndex relation.now attribute.now kind.now) in
        OnErr result (WroteLess (K.held out.old) (K.held out.new) line) }
    ensures frame { Sends K.lent K.faults out.old out.new result }
{
    write_three(out, b"CREATE INDEX ", relation.bytes(), b".")?;
    write_all(out, attribute.bytes())?;
    write_three(out, b" TYPE ", kind_text(kind), b";\n")
}

/// The keyword of a kind of index.
pub fn kind_text(kind: &IndexKind) -> &'static [u8]
    ensures { result.now ≡ keyword_text (kind_word kind.now) }
{
    match kind {
        IndexKind::Inline => b"INLINE",
        IndexKind::MaxHeap => b"MAXHEAP",
        IndexKind::MemHash => b"MEMHASH",
    }
}
