//! Lines of a few pieces.

#![tactic(auto, using(reply_text::proofs::Pieces::less_front, reply_text::proofs::Pieces::less_behind, reply_text::proofs::Pieces::less_third))]

ghost use Rattle.std.specs.Prelude.{◌≡◌, ◌++◌, decimal, OnErr, OnOk};
ghost use Rattle.afl_base.specs.Keeping.{Sends};
ghost use Rattle.std.specs.Io.KnownBytes.{append_known};
ghost use Rattle.reply_text.specs.WroteLess.{WroteLess};
ghost use Rattle.stored_mend.specs.Report.{index_report};

use afl_base::{Failed, Sink};
use reply_text::{write_all, write_count};

// Appends words, a name, and words after it.
pub fn write_name<K: Sink>(
    out: &mut K,
    first: &[u8],
    name: &[u8],
    last: &[u8],
) -> Result<(), Failed>
    ensures written { let all = first.now ++ name.now ++ last.now in
        OnOk result (K.held out.new ≡ append_known (K.held out.old) all) }
    ensures failed { let all = first.now ++ name.now ++ last.now in
        OnErr result (WroteLess (K.held out.old) (K.held out.new) all) }
    ensures frame { Sends K.lent K.faults out.old out.new result }
{
    write_all(out, first)?;
    write_all(out, name)?;
    write_all(out, last)
}

// Appends words, a number in decimal, and words after it.
pub fn write_slot<K: Sink>(out: &mut K, first: &[u8], slot: u64, last: &[u8]) -> Result<(), Failed>
    ensures written { let all = first.now ++ decimal slot ++ last.now in
        OnOk result (K.held out.new ≡ append_known (K.held out.old) all) }
    ensures failed { let all = first.now ++ decimal slot ++ last.now in
        OnErr result (WroteLess (K.held out.old) (K.held out.new) all) }
    ensures frame { Sends K.lent K.faults out.old out.new result }
{
    write_count(out, first, slot)?;
    write_all(out, last)
}

// Appends words, the names of a relation and an attribute with a point between them, and words behind.
pub fn write_index<K: Sink>(
    out: &mut K,
    relation: &[u8],
    attribute: &[u8],
    last: &[u8],
) -> Result<(), Failed>
    ensures written { let all = index_report relation.now attribute.now last.now in
        OnOk result (K.held out.new ≡ append_known (K.held out.old) all) }
    ensures failed { let all = index_report relation.now attribute.now last.now in
        OnErr result (WroteLess (K.held out.old) (K.held out.new) all) }
    ensures frame { Sends K.lent K.faults out.old out.new result }
{
    write_name(out, b"index on ", relation, b".")?;
    write_all(out, attribute)?;
    write_all(out, last)
}
