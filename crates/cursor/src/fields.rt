//! The values of a row, each decoded where it is asked for.

#![tactic(auto)]

ghost use Rattle.std.specs.Prelude.{◌≡◌, ◌≤◌, length};
ghost use Rattle.db_model.specs.Row.{fields_length, tuple_of};
ghost use Rattle.cursor.specs.Remaining.{passes_code};

use db_model::Attribute;
use lvm::{Code, Item, Values};
use tuple_file::{Field, field_at};

/// The bytes of a row of these attributes.
#[derive(Drop)]
struct Fields<'a> {
    attributes: &'a [Attribute],
    row: &'a [u8],
}

/// Whether a condition selects the tuple of a row. Of the row no more is decoded than it names.
pub fn selects_row<'a>(code: &Code, attributes: &'a [Attribute], row: &'a [u8]) -> bool
    requires { fields_length attributes.now ≤ length row.now }
    ensures { result ≡ passes_code code.now (tuple_of attributes.now row.now) }
{
    code.eval_on(&Fields { attributes, row })
}

impl<'b> Values for Fields<'b> {
    ghost use Rattle.std.specs.Prelude.{◌≤◌, length};
    ghost use Rattle.db_model.specs.Row.{fields_length, tuple_of};

    ghost values = { λ f. tuple_of f.attributes.now f.row.now };

    ghost readable = { λ f. fields_length f.attributes.now ≤ length f.row.now };

    fn item<'a>(&'a self, at: u8) -> Item<'a> {
        match field_at(self.attributes, self.row, at) {
            Some(Field::Number(number)) => Item::Number(number),
            Some(Field::Text(bytes)) => Item::Text(bytes),
            None => Item::Undefined,
        }
    }
}
