//! The reply to a FETCH.

#![tactic(auto)]

ghost use Rattle.std.specs.Prelude.{◌≡◌, ◌∷◌, [], IfOk, OnErr, OnOk};
ghost use Rattle.afl_base.specs.Keeping.{Sends};
ghost use Rattle.std.specs.Io.KnownBytes.{append_known};
ghost use Rattle.db_model.specs.ReplyText.{text};
ghost use Rattle.db_model.specs.Step.{Rows};
ghost use Rattle.reply_text.specs.WroteLess.{WroteLess};
ghost use Rattle.session_model.specs.Steps.{WritesReply};
ghost use Rattle.session_cursors.specs.Fetched.{reply_fetched};

use afl_base::{Failed, Sink};
use db_model::{Refusal, Tuple};
use reply_text::{write_refusal, write_row, write_rows};
use session_model::Outcome;

// Writes one row, and `rows 1`.
#[tactic(auto, using(crate::proofs::Texts::held_one, crate::proofs::Texts::less_row, crate::proofs::Texts::less_count))]
fn write_one<K: Sink>(out: &mut K, row: &Tuple) -> Result<(), Failed>
    ensures written { OnOk result
        (K.held out.new ≡ append_known (K.held out.old) (text (Rows (row.now ∷ [])))) }
    ensures failed { OnErr result
        (WroteLess (K.held out.old) (K.held out.new) (text (Rows (row.now ∷ [])))) }
    ensures frame { Sends K.lent K.faults out.old out.new result }
{
    write_row(out, row)?;
    write_rows(out, 1)
}

/// Writes the row, where there is one, and the number of rows; or that there is no such cursor.
pub(crate) fn write_reply<K: Sink>(
    out: &mut K,
    came: Option<bool>,
    row: &Tuple,
) -> Result<Outcome, Failed>
    ensures done { IfOk result (λ outcome.
        WritesReply (reply_fetched came row.now) outcome (K.held out.old) (K.held out.new)) }
    ensures failed { OnErr result
        (WroteLess (K.held out.old) (K.held out.new) (text (reply_fetched came row.now))) }
    ensures frame { Sends K.lent K.faults out.old out.new result }
{
    match came {
        None => {
            write_refusal(out, &Refusal::NoCursor)?;
            Ok(Outcome::Refused)
        }
        Some(true) => {
            write_one(out, row)?;
            Ok(Outcome::Rows(1))
        }
        Some(false) => {
            write_rows(out, 0)?;
            Ok(Outcome::Rows(0))
        }
    }
}
