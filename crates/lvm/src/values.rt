//! Where the values of a tuple are read.

#![tactic(auto)]

use crate::item::{Item, item_at};
use db_model::Tuple;

/// The values of a tuple, each read where it is asked for.
pub trait Values {
    ghost use Rattle.std.specs.Prelude.{◌≡◌, List, slice_get};
    ghost use Rattle.db_model.specs.declared.values.Value.{Value};
    ghost use Rattle.lvm.specs.Evaluate.{item_of_value};
    ghost use Rattle.lvm.specs.Lent.{item_of};

    /// The values by the places of their attributes.
    ghost values: { Self → List Value };

    /// They can be read.
    ghost readable: { Self → Type 0 };

    /// The value at a place, undefined where there is none.
    fn item<'a>(&'a self, at: u8) -> Item<'a>
        requires { readable self.now }
        ensures { item_of result ≡ item_of_value (slice_get (values self.now) at) };
}

impl Values for Tuple {
    ghost use Rattle.std.specs.Prelude.{⊤};

    ghost values = { λ tuple. tuple };

    ghost readable = { λ _. ⊤ };

    fn item<'a>(&'a self, at: u8) -> Item<'a> {
        item_at(self, at)
    }
}
