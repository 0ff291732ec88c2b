//! The lines of a report.

#![tactic(auto)]

ghost use Rattle.std.specs.Prelude.{◌≡◌, OnErr, OnOk};
ghost use Rattle.afl_base.specs.Keeping.{Sends};
ghost use Rattle.std.specs.Io.KnownBytes.{append_known};
ghost use Rattle.reply_text.specs.WroteLess.{WroteLess};
ghost use Rattle.stored_mend.specs.Report.{mended_text, report_text};

use crate::pieces::{write_index, write_name, write_slot};
use crate::report::{Mended, Report};
use afl_base::{Failed, Sink};
use reply_text::write_all;

/// Appends a line for each thing that was repaired. `Failed` leaves a proper prefix of them there.
pub fn write_report<K: Sink>(out: &mut K, report: &Report) -> Result<(), Failed>
    ensures written { let all = report_text report.now.mended in
        OnOk result (K.held out.new ≡ append_known (K.held out.old) all) }
    ensures failed { let all = report_text report.now.mended in
        OnErr result (WroteLess (K.held out.old) (K.held out.new) all) }
    ensures frame { Sends K.lent K.faults out.old out.new result }
{
    write_lines(out, report.mended.as_slice())
}

fn write_lines<K: Sink>(out: &mut K, mended: &[Mended]) -> Result<(), Failed>
    ensures written { let all = report_text mended.now in
        OnOk result (K.held out.new ≡ append_known (K.held out.old) all) }
    ensures failed { let all = report_text mended.now in
        OnErr result (WroteLess (K.held out.old) (K.held out.new) all) }
    ensures frame { Sends K.lent K.faults out.old out.new result }
{
    for at in 0..mended.len() {
        write_mended(out, &mended[at])?;
    }
    Ok(())
}

// Appends the line of one thing.
fn write_mended<K: Sink>(out: &mut K, mended: &Mended) -> Result<(), Failed>
    ensures written { OnOk result
        (K.held out.new ≡ append_known (K.held out.old) (mended_text mended.now)) }
    ensures failed { OnErr result
        (WroteLess (K.held out.old) (K.held out.new) (mended_text mended.now)) }
    ensures frame { Sends K.lent K.faults out.old out.new result }
{
    match mended {
        Mended::Catalog => write_all(out, b"catalog taken back\n"),
        Mended::Mark => write_all(out, b"catalog mark written\n"),
        Mended::Relation(id) => write_slot(
            out,
            b"relation of slot ",
            u64::from(id.number()),
            b" removed\n",
        ),
        Mended::Attribute(name) => {
            write_name(out, b"attribute of ", name.bytes(), b" taken back\n")
        }
        Mended::Row(name) => write_name(out, b"row of ", name.bytes(), b" taken back\n"),
        Mended::Tree {
            relation,
            attribute,
        } => write_index(out, relation.bytes(), attribute.bytes(), b" built anew\n"),
        Mended::Index {
            relation,
            attribute,
        } => write_index(out, relation.bytes(), attribute.bytes(), b" taken back\n"),
        Mended::Stray(id) => write_slot(
            out,
            b"index of slot ",
            u64::from(id.number()),
            b" removed\n",
        ),
    }
}
