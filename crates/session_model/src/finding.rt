//! Relations and their indexes by name and slot.

#![tactic(auto)]

ghost use Rattle.std.specs.Prelude.{◌≡◌, ◌<◌, ◌≤◌, None, Some, IfSome, IsSome, MatchOption, get_or, length};
ghost use Rattle.db_model.specs.Row.{row_length};
ghost use Rattle.tuple_file.specs.declared.tuples.Tuples.{Tuples as AnyTuples};
ghost use Rattle.session_model.specs.Cells.{cell_from, is_cell_named};
ghost use Rattle.session_model.specs.Indexed.{AreNumbers, infos_of};

use crate::held::Indexed;
use db_model::Ident;
use index_set::{IndexInfo, Indexes};
use tuple_file::Tuples;

fn is_named(slot: &Option<Tuples>, name: &Ident) -> bool
    ensures { result ≡ is_cell_named name.now slot.now }
{
    match slot {
        None => false,
        Some(tuples) => tuples.schema.name == *name,
    }
}

/// The slot of the relation of that name, `None` exactly where there is none.
pub fn find_relation(slots: &[Option<Tuples>], name: &Ident) -> Option<usize>
    requires { length slots.now ≡ 8 }
    ensures found { MatchOption result (cell_from name.now 0 slots.now ≡ None)
        (λ k. (t : AnyTuples) → get_or slots.now k None ≡ Some t → cell_from name.now 0 slots.now ≡ Some (k, t)) }
    ensures used { IfSome result (λ k. (k < 8) × IsSome (get_or slots.now k None)) }
{
    for i in 0..slots.len() {
        if is_named(&slots[i], name) {
            return Some(i);
        }
    }
    None
}

/// The indexes of the relation in a slot, in the order of their slots, with the columns of its rows.
pub fn indexes_of(slots: &[Option<Indexed>], relation: u16, tuples: &Tuples) -> Indexes
    requires eight { length slots.now ≡ 8 }
    requires short { row_length tuples.now.schema.attributes ≤ 128 }
    requires numbers { AreNumbers relation tuples.now slots.now }
    ensures { result ≡ infos_of relation tuples.now slots.now }
{
    let mut infos = Indexes::new();
    for i in 0..slots.len() {
        if let Some(index) = &slots[i] {
            if index.relation.number() == relation {
                infos.push(IndexInfo {
                    attribute: index.attribute,
                    column: tuples.column(index.attribute),
                    access: index.access,
                });
            }
        }
    }
    infos
}
