//! The values of a row.

#![tactic(auto, using(reply_text::proofs::Pieces::less_front, reply_text::proofs::Pieces::less_behind, reply_text::proofs::Pieces::less_third))]

ghost use Rattle.std.specs.Prelude.{◌≡◌, ◌++◌, OnErr, OnOk};
ghost use Rattle.afl_base.specs.Keeping.{Sends};
ghost use Rattle.std.specs.Io.KnownBytes.{append_known};
ghost use Rattle.db_model.specs.ReplyText.{value_text};
ghost use Rattle.dump.specs.Parts.{comma_and_space};
ghost use Rattle.dump_model.specs.Script.{values_text};
ghost use Rattle.reply_text.specs.WroteLess.{WroteLess};

use crate::pieces::write_three;
use afl_base::{Failed, Sink};
use db_model::{Tuple, Value};
use reply_text::{write_all, write_signed};

// Appends the values of a row with `, ` between them.
pub fn write_values<K: Sink>(out: &mut K, tuple: &Tuple) -> Result<(), Failed>
    ensures written { OnOk result
        (K.held out.new ≡ append_known (K.held out.old) (values_text tuple.now)) }
    ensures failed { OnErr result
        (WroteLess (K.held out.old) (K.held out.new) (values_text tuple.now)) }
    ensures frame { Sends K.lent K.faults out.old out.new result }
{
    for (at, value) in tuple.as_slice().iter().enumerate() {
        write_value(out, at, value)?;
    }
    Ok(())
}

// Appends the value at a place, with `, ` before it, unless it is the first.
fn write_value<K: Sink>(out: &mut K, at: usize, value: &Value) -> Result<(), Failed>
    ensures written { let all = comma_and_space at ++ value_text value.now in
        OnOk result (K.held out.new ≡ append_known (K.held out.old) all) }
    ensures failed { let all = comma_and_space at ++ value_text value.now in
        OnErr result (WroteLess (K.held out.old) (K.held out.new) all) }
    ensures frame { Sends K.lent K.faults out.old out.new result }
{
    write_comma(out, at)?;
    match value {
        Value::Number(number) => write_signed(out, number),
        Value::Text(text) => write_three(out, b"'", text.bytes(), b"'"),
    }
}

/// Appends `, `, unless the place in the list is the first. `Failed` leaves a proper prefix of it there.
pub fn write_comma<K: Sink>(out: &mut K, at: usize) -> Result<(), Failed>
    ensures written { OnOk result
        (K.held out.new ≡ append_known (K.held out.old) (comma_and_space at)) }
    ensures failed { OnErr result (WroteLess (K.held out.old) (K.held out.new) (comma_and_space at)) }
    ensures frame { Sends K.lent K.faults out.old out.new result }
{
    if at == 0 {
        return Ok(());
    }
    write_all(out, b", ")
}
