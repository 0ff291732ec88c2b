#![tactic(auto, using(crate::proofs::Pieces::less_front, crate::proofs::Pieces::less_behind, crate::proofs::Pieces::less_third))]

ghost use Rattle.std.specs.Prelude.{◌≡◌, [], ◌∷◌, ◌++◌, OnErr, OnOk};
ghost use Rattle.afl_base.specs.Keeping.{Sends};
ghost use Rattle.std.specs.Io.KnownBytes.{append_known};
ghost use Rattle.db_model.specs.ReplyText.{number_text, numbers_text, row_text, value_text};
ghost use Rattle.reply_text.specs.Commas.{comma_before};
ghost use Rattle.reply_text.specs.Projected.{project, value_at};
ghost use Rattle.reply_text.specs.WroteLess.{WroteLess};

use crate::bytes::{write_all, write_byte, write_signed};
use afl_base::{Failed, Sink};
use db_model::{Tuple, Value};

/// Appends the line of a row: its values with `,` between them, a number in decimal, a text between
/// quotes. `Failed` leaves a proper prefix of it there.
pub fn write_row<K: Sink>(out: &mut K, tuple: &Tuple) -> Result<(), Failed>
    ensures written { OnOk result
        (K.held out.new ≡ append_known (K.held out.old) (row_text tuple.now)) }
    ensures failed { OnErr result
        (WroteLess (K.held out.old) (K.held out.new) (row_text tuple.now)) }
    ensures frame { Sends K.lent K.faults out.old out.new result }
{
    for (at, value) in tuple.as_slice().iter().enumerate() {
        write_field(out, at, value)?;
    }
    write_byte(out, b'\n')
}

/// Appends the line of the row of the values at these places of a tuple, 0 for one that it lacks. `Failed`
/// leaves a proper prefix of it there.
pub fn write_projected<K: Sink>(out: &mut K, places: &[u8], tuple: &Tuple) -> Result<(), Failed>
    ensures written { OnOk result
        (K.held out.new ≡ append_known (K.held out.old) (row_text (project places.now tuple.now))) }
    ensures failed { OnErr result
        (WroteLess (K.held out.old) (K.held out.new) (row_text (project places.now tuple.now))) }
    ensures frame { Sends K.lent K.faults out.old out.new result }
{
    for (at, place) in places.iter().enumerate() {
        write_value_at(out, at, *place, tuple)?;
    }
    write_byte(out, b'\n')
}

/// Appends the line of the answers of aggregates, with `,` between them and `-` for one that has no
/// value. `Failed` leaves a proper prefix of it there.
pub fn write_numbers<K: Sink>(out: &mut K, numbers: &[Option<i64>]) -> Result<(), Failed>
    ensures written { OnOk result
        (K.held out.new ≡ append_known (K.held out.old) (numbers_text numbers.now)) }
    ensures failed { OnErr result
        (WroteLess (K.held out.old) (K.held out.new) (numbers_text numbers.now)) }
    ensures frame { Sends K.lent K.faults out.old out.new result }
{
    for (at, number) in numbers.iter().enumerate() {
        write_aggregate(out, at, number)?;
    }
    write_byte(out, b'\n')
}

// A comma, unless the item at the place `at` is the first of its line.
fn write_comma<K: Sink>(out: &mut K, at: usize) -> Result<(), Failed>
    ensures written { OnOk result
        (K.held out.new ≡ append_known (K.held out.old) (comma_before at)) }
    ensures failed { OnErr result (WroteLess (K.held out.old) (K.held out.new) (comma_before at)) }
    ensures frame { Sends K.lent K.faults out.old out.new result }
{
    if at == 0 {
        return Ok(());
    }
    write_byte(out, b',')
}

// The value at a place of a tuple, 0 where it lacks it, at the place `at` of its line.
fn write_value_at<K: Sink>(out: &mut K, at: usize, place: u8, tuple: &Tuple) -> Result<(), Failed>
    ensures written { OnOk result (K.held out.new
        ≡ append_known (K.held out.old) (comma_before at ++ value_text (value_at tuple.now place))) }
    ensures failed { OnErr result (WroteLess (K.held out.old) (K.held out.new)
        (comma_before at ++ value_text (value_at tuple.now place))) }
    ensures frame { Sends K.lent K.faults out.old out.new result }
{
    match tuple.as_slice().get(place as usize) {
        Some(value) => write_field(out, at, value),
        None => write_field(out, at, &Value::Number(0)),
    }
}

// The value at the place `at` of its line.
fn write_field<K: Sink>(out: &mut K, at: usize, value: &Value) -> Result<(), Failed>
    ensures written { OnOk result
        (K.held out.new ≡ append_known (K.held out.old) (comma_before at ++ value_text value.now)) }
    ensures failed { OnErr result
        (WroteLess (K.held out.old) (K.held out.new) (comma_before at ++ value_text value.now)) }
    ensures frame { Sends K.lent K.faults out.old out.new result }
{
    write_comma(out, at)?;
    match value {
        Value::Number(number) => write_signed(out, number),
        Value::Text(text) => write_between(out, b'\'', text.bytes()),
    }
}

// The bytes between two such marks.
fn write_between<K: Sink>(out: &mut K, mark: u8, bytes: &[u8]) -> Result<(), Failed>
    ensures written { OnOk result
        (K.held out.new ≡ append_known (K.held out.old) (mark ∷ bytes.now ++ mark ∷ [])) }
    ensures failed { OnErr result
        (WroteLess (K.held out.old) (K.held out.new) (mark ∷ bytes.now ++ mark ∷ [])) }
    ensures frame { Sends K.lent K.faults out.old out.new result }
{
    write_byte(out, mark)?;
    write_all(out, bytes)?;
    write_byte(out, mark)
}

// The aggregate at the place `at` of its line.
fn write_aggregate<K: Sink>(out: &mut K, at: usize, number: &Option<i64>) -> Result<(), Failed>
    ensures written { OnOk result
        (K.held out.new ≡ append_known (K.held out.old) (comma_before at ++ number_text number.now)) }
    ensures failed { OnErr result
        (WroteLess (K.held out.old) (K.held out.new) (comma_before at ++ number_text number.now)) }
    ensures frame { Sends K.lent K.faults out.old out.new result }
{
    write_comma(out, at)?;
    match number {
        Some(number) => write_signed(out, number),
        None => write_byte(out, b'-'),
    }
}
