//! Relations by name.

#![tactic(auto)]

ghost use Rattle.std.specs.Prelude.{◌≡◌, None, Some, IfNone, IfSome, get_or, length};
ghost use Rattle.session_model.specs.Cells.{cell_from};

use afl_base::RelationId;
use db_model::Ident;
use session_model::{Held, find_relation};
use tuple_file::Tuples;

/// The relation of that name: its slot, and its rows.
pub fn relation_named<'a>(held: &'a Held, name: &Ident) -> Option<(RelationId, &'a Tuples)>
    requires { length held.now.relations ≡ 8 }
    ensures cell { IfSome result (λ found.
        cell_from name.now 0 held.now.relations ≡ Some (found.0, found.1.now)) }
    ensures there { IfSome result (λ found.
        get_or held.now.relations found.0 None ≡ Some found.1.now) }
    ensures none { IfNone result (cell_from name.now 0 held.now.relations ≡ None) }
{
    let k = find_relation(&held.relations, name)?;
    let id = RelationId::new(k as u16)?;
    match &held.relations[k] {
        Some(tuples) => Some((id, tuples)),
        None => None,
    }
}
