//! Laws of repairs. Each function does nothing: its contract is the law.

#![tactic(auto)]

ghost use Rattle.std.specs.Prelude.{◌≡◌, ◌≢◌, ◌*◌, ℕ, suc, List, Option, length};
ghost use Rattle.coffee_mend.specs.Mended.{IsMended};
ghost use Rattle.db_model.specs.Database.{Database};
ghost use Rattle.run_repair.specs.Mends.{StaysOrMends};
ghost use Rattle.run_repair.specs.Outcomes.{AreInterrupted, IsPutRightTimes, RepairsTo};
ghost use Rattle.run_repair.specs.Repairs.{Repairs, database_in};
ghost use Rattle.image_model.specs.Images.{IsSound, base};
ghost use Rattle.image_model.specs.Mending.{ImageMendsTo, ImageReadsAs};
ghost use Rattle.stored_mend.specs.Mending.{IsPutRight};

/// A repair that ended with 0 leaves a sound image, which stands for the very database that the image mended to,
/// whichever that is, put right: a relation may have one row more, which is removed, and an index that had a tree may
/// be gone. And once its files are mended, they mend to that database.
pub fn repaired_images_stand_for_what_they_mended_to()
    ensures repaired { (old new : List ℕ) (held now : Option (List ℕ)) (db : Database) (sectors : ℕ)
        → length old ≡ 4096 * sectors → ImageReadsAs old (λ mended. mended ≡ db)
        → Repairs 0 old new held now → IsSound new × IsPutRight db (base new) }
    ensures mended { (old new : List ℕ) (db : Database) (sectors : ℕ) → length old ≡ 4096 * sectors
        → ImageReadsAs old (λ mended. mended ≡ db) → IsMended old new → database_in new ≡ db }
{}

/// A repair makes of an image that mends to a database, as one does that a cut run left: a sound image that stands for that
/// database, put right, with status 0; or one that still mends to it, put right, with 3, where it lacks pages, and with 4,
/// where the failures of its flash are cuts; or it leaves it as it was, with 6, where the database is the empty one.
pub fn cut_images_are_repaired()
    ensures { (status : ℕ) (old new : List ℕ) (held now : Option (List ℕ)) (db : Database) (sectors : ℕ)
        → length old ≡ 4096 * sectors → ImageMendsTo old (λ mended. mended ≡ db)
        → Repairs status old new held now → (status ≡ 4 → StaysOrMends old new) → status ≢ 5
        → RepairsTo status db old new }
{}

/// Repairs that were interrupted, however many, lose nothing: the image mends to the database that the first of them found,
/// put right as many times. And a repair of it that ends with 0 leaves a sound image, which stands for that database, put
/// right once more.
pub fn interrupted_repairs_lose_nothing()
    ensures mends { (repairs : ℕ) (old new : List ℕ) (db : Database) (sectors : ℕ) → length old ≡ 4096 * sectors
        → ImageMendsTo old (λ mended. mended ≡ db) → AreInterrupted repairs old new
        → ImageMendsTo new (λ now. IsPutRightTimes repairs db now) }
    ensures ended { (repairs : ℕ) (old left new : List ℕ) (held now : Option (List ℕ)) (db : Database) (sectors : ℕ)
        → length old ≡ 4096 * sectors → ImageMendsTo old (λ mended. mended ≡ db) → AreInterrupted repairs old left
        → Repairs 0 left new held now → IsSound new × IsPutRightTimes (suc repairs) db (base new) }
{}
