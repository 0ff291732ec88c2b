ghost use Rattle.std.specs.Prelude.{◌≡◌, ℕ, ◌*◌, Bool, List, length, None};
ghost use Rattle.coffee_layout.specs.Rules.{broken_image};
ghost use Rattle.coffee_layout.specs.Tiling.{IsCovered, IsTiled, broken_tiling, nowhere, units_of};
ghost use Rattle.coffee_layout.specs.Units.{pages_of};
ghost use Rattle.coffee_layout.specs.declared.unit.Unit.{Unit};

/// At most one list of units tiles an image: the list of its units. They tile it exactly where none
/// of the rules 1 to 4 is broken, and so in each sound image. At most one list of units covers an
/// image, also where the rules 3 and 4 are broken.
pub fn one_tiling()
    ensures one { (building other : ℕ → Bool) (image : List ℕ) (us vs : List Unit)
        → IsTiled building image us → IsTiled other image vs → us ≡ vs }
    ensures covered { (image : List ℕ) (us vs : List Unit)
        → IsCovered image us → IsCovered image vs → us ≡ vs }
    ensures covers { (building : ℕ → Bool) (image : List ℕ) (us : List Unit)
        → IsTiled building image us → IsCovered image us }
    ensures units { (building : ℕ → Bool) (image : List ℕ) (us : List Unit)
        → IsTiled building image us → units_of image ≡ us }
    ensures unbroken { (building : ℕ → Bool) (image : List ℕ) (us : List Unit)
        → IsTiled building image us → broken_tiling building image ≡ None }
    ensures tiled { (building : ℕ → Bool) (image : List ℕ) → 256 * pages_of image ≡ length image
        → broken_tiling building image ≡ None → IsTiled building image (units_of image) }
    ensures sound { (image : List ℕ) → 256 * pages_of image ≡ length image
        → broken_image image ≡ None → IsTiled nowhere image (units_of image) }
{}
