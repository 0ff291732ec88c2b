//! Laws of places. Each function does nothing: its contract is the law.

#![tactic(auto)]

ghost use Rattle.std.specs.Prelude.{ℤ, ℕ, ◌≡◌, ◌≤◌, ◌++◌, List, length};
ghost use Rattle.afl_base.specs.Keys.{HasNone, IsFirstOf};

/// A place stays good through later inserts: what it led to it leads to still, and where it led to
/// nothing it leads to what was put in later.
#[tactic(auto, using(crate::proofs::Later::still_first, crate::proofs::Later::later_first, crate::proofs::Later::later_none))]
pub fn places_stay_good()
    ensures found { (key : ℤ) (keys more : List ℤ) (from slot : ℕ) → IsFirstOf key keys from slot
        → IsFirstOf key (keys ++ more) from slot }
    ensures later { (key : ℤ) (keys more : List ℤ) (from slot : ℕ) → HasNone key keys from
        → from ≤ length keys → IsFirstOf key (keys ++ more) (length keys) slot → IsFirstOf key (keys ++ more) from slot }
    ensures none { (key : ℤ) (keys more : List ℤ) (from : ℕ) → HasNone key keys from
        → HasNone key (keys ++ more) (length keys) → HasNone key (keys ++ more) from }
{}
