//! The values of a row that a SELECT lists.

#![tactic(auto)]

ghost use Rattle.std.specs.Prelude.{◌≡◌, ◌≤◌, OnErr, OnOk, length};
ghost use Rattle.afl_base.specs.Keeping.{Sends};
ghost use Rattle.std.specs.Io.KnownBytes.{append_known};
ghost use Rattle.db_model.specs.ReplyText.{row_text};
ghost use Rattle.db_model.specs.Row.{fields_length, tuple_of};
ghost use Rattle.reply_text.specs.WroteLess.{WroteLess};
ghost use Rattle.session_model.specs.View.{project};

use crate::folding::value_or_zero;
use afl_base::{Failed, Sink};
use db_model::{Attribute, Attributes, Few, Tuple};
use reply_text::{write_projected, write_row};
use tuple_file::get_tuple;

/// Writes the line of the values at these places of a row. Where they are at most half of its values, no
/// other is decoded. They are gathered in `tuple`.
pub(crate) fn write_listed<K: Sink>(
    out: &mut K,
    places: &Few<u8, 8>,
    attributes: &Attributes,
    row: &[u8],
    tuple: &mut Tuple,
) -> Result<(), Failed>
    requires fields { fields_length attributes.now ≤ length row.now }
    ensures written { OnOk result (K.held out.new
        ≡ append_known (K.held out.old) (row_text (project places.now (tuple_of attributes.now row.now)))) }
    ensures failed { OnErr result (WroteLess (K.held out.old) (K.held out.new)
        (row_text (project places.now (tuple_of attributes.now row.now)))) }
    ensures frame { Sends K.lent K.faults out.old out.new result }
{
    if 2 * places.as_slice().len() <= attributes.as_slice().len() {
        gather(places, attributes.as_slice(), row, tuple);
        return write_row(out, tuple);
    }
    get_tuple(attributes, row, tuple);
    write_projected(out, places.as_slice(), tuple)
}

// Puts the values at these places of a row into `into`.
fn gather(places: &Few<u8, 8>, attributes: &[Attribute], row: &[u8], into: &mut Tuple)
    requires fields { fields_length attributes.now ≤ length row.now }
    ensures { into.new ≡ project places.now (tuple_of attributes.now row.now) }
{
    into.clear();
    for place in places.as_slice() {
        into.push(value_or_zero(attributes, row, *place));
    }
}
