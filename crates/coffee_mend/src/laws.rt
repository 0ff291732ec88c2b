ghost use Rattle.std.specs.Prelude.{◌≡◌, ◌*◌, ℕ, List, length};
ghost use Rattle.std.specs.List.{Contains};
ghost use Rattle.coffee_cuts.specs.Cuts.{IsFound, IsSettled, MendsTo, UnderWay, settled};
ghost use Rattle.coffee_layout.specs.Files.{NamedFile, files_of};
ghost use Rattle.coffee_mend.specs.Mended.{IsMended, MendAlike};
ghost use Rattle.coffee_mend.specs.Settling.{IsCutSettling};

/// A cut in the write that settles what was under way, or in the two, leaves an image that mends to the same
/// files.
pub fn cut_settlings_mend()
    ensures { (old new : List ℕ) (under_way : UnderWay) → IsFound old under_way
        → IsSettled (settled old under_way)
        → IsCutSettling old new under_way → MendAlike old new }
{}

/// An image that is mended has the files that it mended to before, whichever mending is looked at, and also where
/// mending was cut and begun again.
pub fn mended_images_keep_their_files()
    ensures kept { (old new : List ℕ) (files : List NamedFile) (sectors : ℕ) → length old ≡ 4096 * sectors
        → MendsTo old files → IsMended old new → (f : NamedFile) → Contains files f → Contains (files_of new) f }
    ensures only { (old new : List ℕ) (files : List NamedFile) (sectors : ℕ) → length old ≡ 4096 * sectors
        → MendsTo old files → IsMended old new → (f : NamedFile) → Contains (files_of new) f → Contains files f }
    ensures alike { (first second third : List ℕ) (sectors : ℕ) → length second ≡ 4096 * sectors
        → MendAlike first second → MendAlike second third → MendAlike first third }
    ensures mended { (first second third : List ℕ) (sectors : ℕ) → length second ≡ 4096 * sectors
        → MendAlike first second → IsMended second third → IsMended first third }
{}
