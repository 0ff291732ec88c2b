//! Texts of a few pieces.

#![tactic(auto, using(reply_text::proofs::Pieces::less_front, reply_text::proofs::Pieces::less_behind, reply_text::proofs::Pieces::less_third))]

ghost use Rattle.std.specs.Prelude.{◌≡◌, ◌++◌, decimal, OnErr, OnOk};
ghost use Rattle.afl_base.specs.Keeping.{Sends};
ghost use Rattle.std.specs.Io.KnownBytes.{append_known};
ghost use Rattle.reply_text.specs.WroteLess.{WroteLess};

use afl_base::{Failed, Sink};
use itoa::Buffer;
use reply_text::write_all;

/// Appends three pieces, one after the other. `Failed` leaves a proper prefix of them there.
pub fn write_three<K: Sink>(
    out: &mut K,
    first: &[u8],
    second: &[u8],
    third: &[u8],
) -> Result<(), Failed>
    ensures written { let all = first.now ++ second.now ++ third.now in
        OnOk result (K.held out.new ≡ append_known (K.held out.old) all) }
    ensures failed { let all = first.now ++ second.now ++ third.now in
        OnErr result (WroteLess (K.held out.old) (K.held out.new) all) }
    ensures frame { Sends K.lent K.faults out.old out.new result }
{
    write_all(out, first)?;
    write_all(out, second)?;
    write_all(out, third)
}

// Appends a number in decimal between two pieces.
pub fn write_number_between<K: Sink>(
    out: &mut K,
    first: &[u8],
    number: u64,
    third: &[u8],
) -> Result<(), Failed>
    ensures written { let all = first.now ++ decimal number ++ third.now in
        OnOk result (K.held out.new ≡ append_known (K.held out.old) all) }
    ensures failed { let all = first.now ++ decimal number ++ third.now in
        OnErr result (WroteLess (K.held out.old) (K.held out.new) all) }
    ensures frame { Sends K.lent K.faults out.old out.new result }
{
    let mut buffer = Buffer::new();
    write_three(out, first, buffer.format(number).as_bytes(), third)
}
