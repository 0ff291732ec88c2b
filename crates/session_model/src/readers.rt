//! Which open cursors read a relation.

#![tactic(auto)]

ghost use Rattle.std.specs.Prelude.{◌≡◌, ◌≤◌, Option, map, length, option_map};
ghost use Rattle.afl_base.specs.Files.{Table};
ghost use Rattle.db_model.specs.Database.{reader_from};
ghost use Rattle.session_model.specs.Readers.{is_reader};
ghost use Rattle.session_model.specs.View.{cursor_in};

use crate::held::Open;
use db_model::Ident;

/// The number of the least open cursor whose query names the relation.
pub fn least_reader(opens: &[Option<Open>], name: &Ident) -> Option<u8>
    requires { length opens.now ≤ 4 }
    ensures { (files : Table)
        → result ≡ reader_from name.now 1 (map (option_map (cursor_in files)) opens.now) }
{
    for i in 0..opens.len() {
        if is_reader(&opens[i], name) {
            return Some(i as u8 + 1);
        }
    }
    None
}

// Whether a cursor is open here whose query names the relation.
fn is_reader(slot: &Option<Open>, name: &Ident) -> bool
    ensures { (files : Table)
        → result ≡ is_reader name.now (option_map (cursor_in files) slot.now) }
{
    match slot {
        None => false,
        Some(Open::Select(select)) => select.cursor.tuples.schema.name == *name,
        Some(Open::Join(join)) => {
            join.cursor.left.schema.name == *name || join.cursor.right.schema.name == *name
        }
    }
}
