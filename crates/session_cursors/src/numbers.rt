//! The numbers of cursors.

#![tactic(auto)]

ghost use Rattle.std.specs.Prelude.{◌≡◌, ◌<◌, Err, None, Some, IfSome, IsSome, get_or, is_some, length};
ghost use Rattle.afl_base.specs.Files.{Table};
ghost use Rattle.db_model.specs.declared.refusals.Refusal.TheVariants as no;
ghost use Rattle.db_model.specs.Database.{cursor_place};
ghost use Rattle.db_model.specs.Step.{open_cursor_of};
ghost use Rattle.session_model.specs.declared.held.Held.{Held as AnyHeld};
ghost use Rattle.session_model.specs.View.{view};

use session_model::Open;

/// The place of cursor 1, 2, 3 or 4.
pub(crate) fn place_of(number: &i64) -> Option<usize>
    ensures place { result ≡ cursor_place number.now }
    ensures few { IfSome result (λ place. place < 4) }
{
    match *number {
        1 => Some(0),
        2 => Some(1),
        3 => Some(2),
        4 => Some(3),
        _ => None,
    }
}

/// Whether a cursor is open at a place.
pub(crate) fn is_open(opens: &[Option<Open>], place: usize) -> bool
    requires { place < length opens.now }
    ensures { result ≡ is_some (get_or opens.now place None) }
{
    opens[place].is_some()
}

/// The place of the open cursor of that number.
pub(crate) fn open_place(opens: &[Option<Open>], number: &i64) -> Option<usize>
    requires four { length opens.now ≡ 4 }
    ensures refused { result ≡ None → (files : Table) (held : AnyHeld)
        → open_cursor_of (view files held opens.now) number.now ≡ Err no.NoCursor }
    ensures place { IfSome result (λ place. cursor_place number.now ≡ Some place) }
    ensures few { IfSome result (λ place. place < 4) }
    ensures there { IfSome result (λ place. IsSome (get_or opens.now place None)) }
{
    match place_of(number) {
        Some(place) => {
            if is_open(opens, place) {
                Some(place)
            } else {
                None
            }
        }
        None => None,
    }
}
