//! The line of an image that is not sound.

#![tactic(auto)]

ghost use Rattle.std.specs.Prelude.{◌≡◌, OnErr, OnOk};
ghost use Rattle.std.specs.Io.KnownBytes.{append_known};
ghost use Rattle.afl_base.specs.Causes.{HasCause};
ghost use Rattle.reply_text.specs.WroteLess.{WroteLess};
ghost use Rattle.run_model.specs.Runs.{image_line};

use afl_base::{Failed, Sink};
use reply_text::write_line_of_counts;

/// Appends the line `no image RULE PLACE`. `Failed` leaves a proper prefix of it there.
pub fn write_image_line<K: Sink>(out: &mut K, rule: u8, place: u16) -> Result<(), Failed>
    ensures written { OnOk result
        (K.held out.new ≡ append_known (K.held out.old) (image_line rule place)) }
    ensures failed { OnErr result (WroteLess (K.held out.old) (K.held out.new) (image_line rule place)) }
    ensures lent { K.lent out.new ≡ K.lent out.old }
    ensures cause { HasCause (K.faults out.old) (K.faults out.new) result }
{
    write_line_of_counts(out, b"no image ", u64::from(rule), b" ", u64::from(place))
}
