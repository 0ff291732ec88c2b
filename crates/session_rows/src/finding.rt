//! A relation in its slot.

#![tactic(auto)]

ghost use Rattle.std.specs.Prelude.{◌≡◌, ◌<◌, None, Some, IsSome, get_or, length};

use tuple_file::Tuples;

/// A relation that a command changes: its slot, and its rows.
#[derive(Clone, Copy)]
pub(crate) struct Target<'a> {
    pub(crate) slot: u16,
    pub(crate) tuples: &'a Tuples,
}

/// The relation in a slot that is used.
pub(crate) fn relation_at(slots: &[Option<Tuples>], k: usize) -> &Tuples
    requires used { IsSome (get_or slots.now k None) }
    requires inside { k < length slots.now }
    ensures { get_or slots.now k None ≡ Some result.now }
{
    match &slots[k] {
        Some(tuples) => tuples,
        None => unreachable!(),
    }
}
