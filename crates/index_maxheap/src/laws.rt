//! A law of places.

#![tactic(auto)]

ghost use Rattle.std.specs.Prelude.{◌≤◌, ◌++◌, ℕ, ℤ, List, Option};
ghost use Rattle.index_tree.specs.Places.{KeepsNumbers};
ghost use Rattle.index_maxheap.specs.Searches.{IsPlaceOf};
ghost use Rattle.index_maxheap.specs.declared.places.Place.{Place as AnyPlace};

/// A place stays good while keys are inserted, for buckets keep their numbers. It stays good too for a
/// search from a later slot on.
pub fn places_stay_good()
    ensures inserts { (old new : List ℕ) (keys more : List ℤ) (key : ℤ) (from : ℕ) (place : Option AnyPlace)
        → KeepsNumbers old new → IsPlaceOf old keys key from place
        → IsPlaceOf new (keys ++ more) key from place }
    ensures again { (first then last : List ℕ) → KeepsNumbers first then → KeepsNumbers then last
        → KeepsNumbers first last }
    ensures later { (bytes : List ℕ) (keys : List ℤ) (key : ℤ) (from to : ℕ) (place : Option AnyPlace)
        → from ≤ to → IsPlaceOf bytes keys key from place → IsPlaceOf bytes keys key to place }
{}
