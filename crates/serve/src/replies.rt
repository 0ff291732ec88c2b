//! Reply frames.

#![tactic(auto)]

ghost use Rattle.std.specs.Prelude.{◌≡◌, ◌∷◌, ◌++◌, [], OnErr, OnOk};
ghost use Rattle.afl_base.specs.Keeping.{Sends};
ghost use Rattle.std.specs.Io.KnownBytes.{append_known};
ghost use Rattle.afl_base.specs.Causes.{HasCause};
ghost use Rattle.db_model.specs.ReplyText.{refusal_text};
ghost use Rattle.reply_text.specs.WroteLess.{WroteLess};

use afl_base::{Failed, Sink};
use db_model::Refusal;
use reply_text::{write_all, write_refusal};

/// The byte that ends a frame.
pub const END: u8 = 0xC0;

/// Writes the reply frame of a refusal. `Failed` leaves a proper prefix of it there.
pub fn refuse<K: Sink>(out: &mut K, client: u8, refusal: &Refusal) -> Result<(), Failed>
    ensures written { OnOk result (K.held out.new
        ≡ append_known (K.held out.old) (client ∷ refusal_text refusal.now ++ 192 ∷ [])) }
    ensures failed { OnErr result (WroteLess (K.held out.old) (K.held out.new)
        (client ∷ refusal_text refusal.now ++ 192 ∷ [])) }
    ensures frame { Sends K.lent K.faults out.old out.new result }
{
    write_all(out, &[client])?;
    write_refusal(out, refusal)?;
    write_all(out, &[END])?;
    Ok(())
}
