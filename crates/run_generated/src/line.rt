//! The line that sums up commands.

#![tactic(auto, using(reply_text::proofs::Pieces::less_front, reply_text::proofs::Pieces::less_behind, reply_text::proofs::Pieces::less_third))]

ghost use Rattle.std.specs.Prelude.{◌≡◌, ◌++◌, decimal, OnErr, OnOk};
ghost use Rattle.afl_base.specs.Keeping.{Sends};
ghost use Rattle.std.specs.Io.KnownBytes.{append_known};
ghost use Rattle.db_model.specs.declared.refusals.Refusal.TheVariants as no;
ghost use Rattle.db_model.specs.ReplyText.{refusal_text};
ghost use Rattle.db_model.specs.Workload.{tally_text};
ghost use Rattle.reply_text.specs.WroteLess.{WroteLess};

use crate::tally::Tally;
use afl_base::{Failed, Sink};
use db_model::Refusal;
use reply_text::{write_all, write_count, write_refusal};

/// Appends the line `commands C ok A rows B refused D`. `Failed` leaves a proper prefix of it there.
#[tactic(auto, using(crate::proofs::Lines::first_less, crate::proofs::Lines::second_less, crate::proofs::Lines::end_less))]
pub fn write_tally<K: Sink>(out: &mut K, tally: &Tally) -> Result<(), Failed>
    ensures written { OnOk result
        (K.held out.new ≡ append_known (K.held out.old) (tally_text tally.now)) }
    ensures failed { OnErr result
        (WroteLess (K.held out.old) (K.held out.new) (tally_text tally.now)) }
    ensures frame { Sends K.lent K.faults out.old out.new result }
{
    write_counts(
        out,
        b"commands ",
        u64::from(tally.commands),
        b" ok ",
        u64::from(tally.fine),
    )?;
    write_counts(
        out,
        b" rows ",
        tally.rows,
        b" refused ",
        u64::from(tally.refused),
    )?;
    write_all(out, b"\n")?;
    Ok(())
}

/// Appends the same line, and then the line `no space NEED`. `Failed` leaves a proper prefix of both
/// there.
pub fn write_no_space<K: Sink>(out: &mut K, tally: &Tally, need: u16) -> Result<(), Failed>
    ensures written { OnOk result (K.held out.new ≡ append_known (K.held out.old)
        (tally_text tally.now ++ refusal_text (no.Space need))) }
    ensures failed { OnErr result (WroteLess (K.held out.old) (K.held out.new)
        (tally_text tally.now ++ refusal_text (no.Space need))) }
    ensures frame { Sends K.lent K.faults out.old out.new result }
{
    write_tally(out, tally)?;
    write_refusal(out, &Refusal::Space { need })
}

// Two numbers in decimal, each behind its words.
fn write_counts<K: Sink>(
    out: &mut K,
    words: &[u8],
    count: u64,
    more_words: &[u8],
    more_count: u64,
) -> Result<(), Failed>
    ensures written { OnOk result (K.held out.new ≡ append_known (K.held out.old)
        ((words.now ++ decimal count) ++ (more_words.now ++ decimal more_count))) }
    ensures failed { OnErr result (WroteLess (K.held out.old) (K.held out.new)
        ((words.now ++ decimal count) ++ (more_words.now ++ decimal more_count))) }
    ensures frame { Sends K.lent K.faults out.old out.new result }
{
    write_count(out, words, count)?;
    write_count(out, more_words, more_count)
}
