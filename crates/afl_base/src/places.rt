ghost use Rattle.std.specs.Prelude.{◌≡◌, ◌≢◌, ◌<◌, ℕ, IfNone, IfSome, MatchBool, None, Some, get_or, length, option_map};
ghost use Rattle.afl_base.specs.Places.{AreTaken, name_in};

use crate::ids::FileId;
use crate::name::Name;

/// What has the name of a file.
pub trait Named {
    ghost use Rattle.std.specs.Prelude.{◌≡◌, ℕ, List};

    // Its name.
    ghost named: { Self → List ℕ };

    fn name(&self) -> Name
        ensures { result ≡ named self.now };
}

/// The lowest of the 32 places at which something of this name stands, `None` exactly where there is
/// none.
pub fn find_in<P: Named>(table: &[Option<P>], name: &Name) -> Option<FileId>
    requires { length table.now ≡ 32 }
    ensures found { IfSome result (λ id. name_in P.named table.now id ≡ Some name.now) }
    ensures lowest { IfSome result (λ id. (k : ℕ) → k < id → name_in P.named table.now k ≢ Some name.now) }
    ensures none { IfNone result ((k : ℕ) → name_in P.named table.now k ≢ Some name.now) }
{
    for number in 0..32u16 {
        if has_name(&table[number as usize], name) {
            return Some(id_of(number));
        }
    }
    None
}

/// The lowest of the 32 places at which nothing stands.
pub fn free_in<P>(table: &[Option<P>]) -> FileId
    requires places { length table.now ≡ 32 }
    requires free { AreTaken table.now 32 → ⊥ }
    ensures free { get_or table.now result None ≡ None }
    ensures lowest { AreTaken table.now result }
{
    for number in 0..32u16 {
        if table[number as usize].is_none() {
            return id_of(number);
        }
    }
    unreachable!()
}

// Whether something of this name stands in a place.
fn has_name<P: Named>(place: &Option<P>, name: &Name) -> bool
    ensures { MatchBool result
        (option_map P.named place.now ≡ Some name.now)
        (option_map P.named place.now ≢ Some name.now) }
{
    match place {
        Some(held) => held.name() == *name,
        None => false,
    }
}

// The id of a number below 32.
fn id_of(number: u16) -> FileId
    requires { number < 32 }
    ensures { result ≡ number }
{
    match FileId::new(number) {
        Some(id) => id,
        None => unreachable!(),
    }
}
