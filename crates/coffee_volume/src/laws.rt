ghost use Rattle.std.specs.Prelude.{◌≡◌, ℕ, ◌+◌, ◌*◌, ◌≤◌, List, length, None};
ghost use Rattle.std.specs.List.{Contains};
ghost use Rattle.afl_base.specs.Files.{IsLive, Table, file_at};
ghost use Rattle.afl_base.specs.Shares.{gap_for, shares};
ghost use Rattle.coffee_cuts.specs.Cuts.{MendsTo};
ghost use Rattle.coffee_layout.specs.Files.{NamedFile, files_of};
ghost use Rattle.coffee_layout.specs.Marks.{IsCramped};
ghost use Rattle.coffee_layout.specs.Rules.{broken_image};
ghost use Rattle.coffee_layout.specs.Tiling.{units_of};
ghost use Rattle.coffee_volume.specs.Cuts.{MendsToFiles};
ghost use Rattle.coffee_volume.specs.Mounting.{mounted_state, roomless_file};

/// A sound image that is cramped has no more sectors than the files of its volume take, and one gap: what
/// a file takes follows from its kind and its size.
pub fn cramped_volume_is_small()
    ensures { (image : List ℕ) (n sectors : ℕ) → broken_image image ≡ None → length image ≡ 4096 * sectors
        → IsCramped (units_of image) n
        → sectors ≤ shares (gap_for n) (mounted_state image).files + gap_for n }
{}

/// An image of whole sectors mends to one set of files, under whatever ids: each file of a table that it mends to
/// is one of any other such table. And a sound image that has just the files that it mends to, as one has that was
/// mended, mends to the same tables.
pub fn images_mend_to_one_set_of_files()
    ensures one { (image : List ℕ) (files others : Table) (sectors : ℕ) → length image ≡ 4096 * sectors
        → MendsToFiles image files → MendsToFiles image others → (id : ℕ) → IsLive files id
        → (k : ℕ) × IsLive others k × (roomless_file (file_at others k) ≡ roomless_file (file_at files id)) }
    ensures mended { (old new : List ℕ) (files : Table) (named : List NamedFile) (sectors : ℕ) → length old ≡ 4096 * sectors
        → MendsToFiles old files → MendsTo old named → broken_image new ≡ None
        → ((f : NamedFile) → Contains named f → Contains (files_of new) f)
        → ((f : NamedFile) → Contains (files_of new) f → Contains named f) → MendsToFiles new files }
{}
