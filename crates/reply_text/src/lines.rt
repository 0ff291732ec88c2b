ghost use Rattle.std.specs.Prelude.{◌≡◌, OnErr, OnOk};
ghost use Rattle.afl_base.specs.Keeping.{Sends};
ghost use Rattle.std.specs.Io.KnownBytes.{append_known};
ghost use Rattle.db_model.specs.ReplyText.{count_text, ok_text};
ghost use Rattle.reply_text.specs.WroteLess.{WroteLess};

use crate::bytes::{write_line, write_line_with};
use afl_base::{Failed, Sink};

/// Appends the line `ok`. `Failed` leaves a proper prefix of it there.
#[tactic(auto, unfolding(db_model::specs::ReplyText::ok_text))]
pub fn write_ok<K: Sink>(out: &mut K) -> Result<(), Failed>
    ensures written { OnOk result (K.held out.new ≡ append_known (K.held out.old) ok_text) }
    ensures failed { OnErr result (WroteLess (K.held out.old) (K.held out.new) ok_text) }
    ensures frame { Sends K.lent K.faults out.old out.new result }
{
    write_line(out, b"ok")
}

/// Appends the line `rows COUNT`, which ends the rows of a reply. `Failed` leaves a proper prefix of it
/// there.
#[tactic(auto, unfolding(db_model::specs::ReplyText::count_text))]
pub fn write_rows<K: Sink>(out: &mut K, count: u64) -> Result<(), Failed>
    ensures written { OnOk result
        (K.held out.new ≡ append_known (K.held out.old) (count_text count)) }
    ensures failed { OnErr result (WroteLess (K.held out.old) (K.held out.new) (count_text count)) }
    ensures frame { Sends K.lent K.faults out.old out.new result }
{
    write_line_with(out, b"rows ", count)
}
