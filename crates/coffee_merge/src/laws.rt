ghost use Rattle.std.specs.Prelude.{◌≡◌, ◌≢◌, ◌≤◌, ℕ, ◌++◌, ◌+◌, ◌*◌, true, List, length, map, replicate, Some, None};
ghost use Rattle.std.specs.List.{Contains};
ghost use Rattle.std.specs.Option.{IfSome};
ghost use Rattle.afl_base.specs.Shares.{gap_for, shares};
ghost use Rattle.coffee_layout.specs.FileBytes.{file_bytes};
ghost use Rattle.coffee_layout.specs.Files.{NamedFile, files_of, listed};
ghost use Rattle.coffee_layout.specs.Marks.{IsCramped};
ghost use Rattle.coffee_layout.specs.Rules.{broken_image};
ghost use Rattle.coffee_layout.specs.Tiling.{units_of};
ghost use Rattle.coffee_layout.specs.Units.{pages_of};
ghost use Rattle.coffee_layout.specs.Walks.{has_few};
ghost use Rattle.coffee_layout.specs.declared.file.FileAt.{FileAt};
ghost use Rattle.coffee_merge.specs.Holding.{Entries, HoldsTable, IsIn, Moves, Stays};
ghost use Rattle.coffee_merge.specs.TableFiles.{SameFiles, file_of, stored_files};

/// The files of a sound image, in page order and with any number of free places after them, are a
/// table that holds it. There are at most 32, and a doubling one has at most twice the pages that its
/// size needs.
pub fn sound_table()
    ensures held { (image : List ℕ) (n : ℕ) → broken_image image ≡ None
        → 256 * pages_of image ≡ length image
        → HoldsTable image (map Some (listed image) ++ replicate n None) None }
    ensures few { (image : List ℕ) → broken_image image ≡ None → 256 * pages_of image ≡ length image
        → length (listed image) ≤ 32 }
    ensures sparing { (image : List ℕ) (n i : ℕ) (e : FileAt) → broken_image image ≡ None
        → 256 * pages_of image ≡ length image
        → IsIn (map Some (listed image) ++ replicate n None) i e → has_few e ≡ true }
{}

/// An image that a table of at most 32 places holds is sound where each doubling file has at most twice
/// the pages that its size needs. Else that rule, the last, is the first that is broken: where one file
/// alone has more, at its page.
pub fn held_image()
    ensures sound { (image : List ℕ) (table : Entries) → HoldsTable image table None → length table ≤ 32
        → ((i : ℕ) (e : FileAt) → IsIn table i e → has_few e ≡ true) → broken_image image ≡ None }
    ensures rule { (image : List ℕ) (table : Entries) → HoldsTable image table None → length table ≤ 32
        → IfSome (broken_image image) (λ bad. bad.rule ≡ 13) }
    ensures place { (image : List ℕ) (table : Entries) (page : ℕ)
        → HoldsTable image table None → length table ≤ 32
        → ((i : ℕ) (e : FileAt) → IsIn table i e → e.page.0 ≢ page → has_few e ≡ true)
        → IfSome (broken_image image) (λ bad. bad ≡ record { rule = 13; place = page }) }
{}

/// The files that an image stands for are those of each table that holds it, and their sizes are the
/// lengths of their bytes. No other entries are listed.
pub fn held_files()
    ensures each { (image : List ℕ) (table : Entries) (i : ℕ) (e : FileAt) → HoldsTable image table None
        → IsIn table i e → Contains (files_of image) (file_of image e) }
    ensures only { (image : List ℕ) (table : Entries) (f : NamedFile) → HoldsTable image table None
        → Contains (files_of image) f → (i : ℕ) × (e : FileAt) × IsIn table i e × (f ≡ file_of image e) }
    ensures size { (image : List ℕ) (table : Entries) (i : ℕ) (e : FileAt) → HoldsTable image table None
        → IsIn table i e → length (file_bytes image e.page.0 e.pages e.log) ≡ e.size }
    ensures listed { (image : List ℕ) (table : Entries) (e : FileAt) → HoldsTable image table None
        → Contains (listed image) e → (k : ℕ) × IsIn table k e }
{}

/// An image stands for the same files where all are held as they were, and where one has moved and keeps
/// its name, its kind and its size.
pub fn kept_files()
    ensures stays { (old new : List ℕ) (table : Entries) → HoldsTable old table None → Stays old new table
        → SameFiles old new }
    ensures moves { (old new : List ℕ) (table : Entries) (i : ℕ) (from to : FileAt)
        → HoldsTable old table None → IsIn table i from → Moves old new table i from to
        → to.name ≡ from.name → to.kind ≡ from.kind → to.size ≡ from.size → SameFiles old new }
{}

/// A sound image that is cramped has no more sectors than its files take, and one gap: what a file takes
/// follows from its kind and its size.
pub fn cramped_sectors()
    ensures { (image : List ℕ) (n sectors : ℕ) → broken_image image ≡ None → length image ≡ 4096 * sectors
        → IsCramped (units_of image) n → sectors ≤ shares (gap_for n) (stored_files image) + gap_for n }
{}
