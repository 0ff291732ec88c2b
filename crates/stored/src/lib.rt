//! A database as it is stored in files: which database a table of files stands for, and when it is sound.
//! The definitions are in `specs`; the functions here do nothing, and their contracts are laws of theirs.
#![tactic(auto)]

mod half;

ghost use Rattle.std.specs.Prelude.{◌≡◌, ◌+◌, ◌<◌, ◌≤◌, ℕ, None, length, replicate};
ghost use Rattle.afl_base.specs.Files.{AreDistinct, Table};
ghost use Rattle.afl_base.specs.Shares.{gap_for, shares};
ghost use Rattle.catalog.specs.Rules.{first_broken};
ghost use Rattle.db_model.specs.Database.{empty_database};
ghost use Rattle.db_model.specs.Sound.{IsSoundDatabase};
ghost use Rattle.space_model.specs.Enough.{enough};
ghost use Rattle.space_model.specs.FileNames.{size_in};
ghost use Rattle.space_model.specs.Wants.{IsStoreOf};
ghost use Rattle.stored.specs.Base.{base_of};
ghost use Rattle.stored.specs.CutTables.{IsCutTable};
ghost use Rattle.stored.specs.Files.{HasItsFiles};
ghost use Rattle.stored.specs.Same.{HaveSameFiles};
ghost use Rattle.stored.specs.Sound.{BreaksFirst, IsSoundTable};

pub use half::Half;

/// Which database files stand for, whether they are sound, and whether a cut can have left them, does not depend on their
/// order.
pub fn order_of_files_does_not_matter()
    ensures base { (old new : Table) → AreDistinct old → AreDistinct new → HaveSameFiles old new
        → base_of old ≡ base_of new }
    ensures sound { (old new : Table) → AreDistinct old → AreDistinct new → HaveSameFiles old new
        → length old ≡ 32 → IsSoundTable old → IsSoundTable new }
    ensures cut { (old new : Table) → AreDistinct old → AreDistinct new → HaveSameFiles old new
        → IsCutTable old → IsCutTable new }
{}

/// Sound files have no first broken rule.
pub fn sound_files_break_no_rule()
    ensures { (files : Table) (rule place : ℕ) → IsSoundTable files → BreaksFirst files rule place → ⊥ }
{}

/// A flash that has no more sectors than sound files take, with a gap after each extent, has fewer than
/// are enough for their database.
pub fn crowded_files_have_too_few_sectors()
    ensures { (files : Table) (n sectors : ℕ) → length files ≡ 32 → AreDistinct files → IsSoundTable files
        → sectors ≤ shares (gap_for n) files + gap_for n → sectors < enough (base_of files) n }
{}

/// Beside a sound catalog stand its own file, if there is one, the rows of each relation and the tree of
/// each index that has one, and no other file: at most 17.
pub fn sound_catalogs_have_their_files()
    ensures { (files : Table) → length files ≡ 32 → AreDistinct files
        → first_broken files ≡ None → HasItsFiles files }
{}

/// No files are sound, and stand for the empty database.
pub fn no_files_are_an_empty_database()
    ensures base { base_of (replicate 32 None) ≡ empty_database }
    ensures sound { IsSoundTable (replicate 32 None) }
{}

/// Sound files stand for a sound database.
pub fn sound_files_are_a_sound_database()
    ensures { (files : Table) → IsSoundTable files → IsSoundDatabase (base_of files) }
{}

/// Sound files have the sizes that their database says.
pub fn sound_files_have_their_sizes()
    ensures { (files : Table) → length files ≡ 32 → AreDistinct files → IsSoundTable files
        → IsStoreOf (size_in files) (base_of files) }
{}

/// Sound files are ones that a cut can have left: nothing is half done.
pub fn sound_files_are_ones_that_a_cut_can_have_left()
    ensures { (files : Table) → length files ≡ 32 → IsSoundTable files → IsCutTable files }
{}
