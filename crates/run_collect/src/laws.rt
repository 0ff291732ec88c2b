//! A law of collected images. The function does nothing: its contract is the law.

#![tactic(auto)]

ghost use Rattle.std.specs.Prelude.{◌≡◌, ◌*◌, ◌≤◌, ℕ, List, length};
ghost use Rattle.coffee_layout.specs.Files.{files_of};
ghost use Rattle.coffee_layout.specs.Tiling.{nowhere, units_of};
ghost use Rattle.coffee_space.specs.Collection.{IsCollected};
ghost use Rattle.coffee_space.specs.Cutting.{IsCutCollection};
ghost use Rattle.image_model.specs.Images.{IsSound, base};
ghost use Rattle.image_model.specs.Mending.{ImageMendsTo};

use coffee_cuts::torn_collections_mend;

/// A sound image that is collected is sound, has the same files in the same order, and stands for the same database.
/// And what a cut within the collection leaves of it mends to that database.
pub fn collected_images_keep_their_database()
    ensures sound { (old new : List ℕ) (sectors : ℕ) → length old ≡ 4096 * sectors → length new ≡ length old
        → IsSound old → IsCollected nowhere old new (units_of old) → IsSound new }
    ensures files { (old new : List ℕ) (sectors : ℕ) → length old ≡ 4096 * sectors → length new ≡ length old
        → IsSound old → IsCollected nowhere old new (units_of old) → files_of new ≡ files_of old }
    ensures base { (old new : List ℕ) (sectors : ℕ) → length old ≡ 4096 * sectors → length new ≡ length old
        → IsSound old → IsCollected nowhere old new (units_of old) → base new ≡ base old }
    ensures cut { (old new : List ℕ) (sectors : ℕ) → length old ≡ 4096 * sectors → sectors ≤ 4096
        → length new ≡ length old → IsSound old → IsCutCollection nowhere old new (units_of old)
        → ImageMendsTo new (λ db. db ≡ base old) }
{
    torn_collections_mend();
}
