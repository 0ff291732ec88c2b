//! The line of a plan.

#![tactic(auto)]

ghost use Rattle.std.specs.Prelude.{◌≡◌, OnErr, OnOk};
ghost use Rattle.afl_base.specs.Keeping.{Sends};
ghost use Rattle.std.specs.Io.KnownBytes.{append_known};
ghost use Rattle.reply_text.specs.WroteLess.{WroteLess};
ghost use Rattle.space_plan.specs.Lines.{plan_text};

use afl_base::{Failed, Sink};
use reply_text::write_line_of_counts;

/// Appends the line `sectors needed NEEDED present PRESENT`. `Failed` leaves a proper prefix of it there.
pub fn write_plan<K: Sink>(out: &mut K, needed: u32, present: u16) -> Result<(), Failed>
    ensures written { OnOk result
        (K.held out.new ≡ append_known (K.held out.old) (plan_text needed present)) }
    ensures failed { OnErr result
        (WroteLess (K.held out.old) (K.held out.new) (plan_text needed present)) }
    ensures frame { Sends K.lent K.faults out.old out.new result }
{
    write_line_of_counts(
        out,
        b"sectors needed ",
        u64::from(needed),
        b" present ",
        u64::from(present),
    )
}
