//! Laws of sound images. Each function does nothing: its contract is the law.

#![tactic(auto)]

ghost use Rattle.std.specs.Prelude.{◌≡◌, ◌≤◌, ℕ, ◌*◌, List, length, replicate};
ghost use Rattle.std.specs.List.{Contains};
ghost use Rattle.afl_base.specs.Files.{Table};
ghost use Rattle.coffee_cuts.specs.Cuts.{MendsTo};
ghost use Rattle.coffee_layout.specs.Files.{NamedFile, files_of};
ghost use Rattle.coffee_volume.specs.Cuts.{MendsToFiles};
ghost use Rattle.coffee_volume.specs.Mounting.{mounted_state};
ghost use Rattle.db_model.specs.declared.commands.Command.{Command};
ghost use Rattle.db_model.specs.Database.{Database, empty_database};
ghost use Rattle.session_model.specs.Wanted.{WantsOver};
ghost use Rattle.image_model.specs.Images.{IsFirstBroken, IsSound, base, files_of_image};
ghost use Rattle.image_model.specs.Mending.{ImageMendsTo, ImageReadsAs};
ghost use Rattle.space_model.specs.Enough.{most};
ghost use Rattle.space_model.specs.Wants.{AsksLittle};
ghost use Rattle.stored.specs.Base.{base_of};
ghost use Rattle.stored.specs.Mended.{mended_base};
ghost use Rattle.stored.specs.Sound.{IsSoundTable};

use crate::returned::tell_places;
use afl_base::{Files, Flash};
use coffee_volume::Volume;
use space_model::{commands_want_at_most, files_ask_for_few};
use stored::{sound_catalogs_have_their_files, sound_files_have_their_sizes};

/// The erased image is sound, and its database has no relation and no index.
#[tactic(auto, using(crate::proofs::Erased::erased_sound, crate::proofs::Erased::erased_base))]
pub fn erased_image_is_sound()
    ensures sound { (sectors : ℕ) → IsSound (replicate (4096 * sectors) 0) }
    ensures base { (sectors : ℕ) → base (replicate (4096 * sectors) 0) ≡ empty_database }
{}

/// A sound image has no first broken rule.
pub fn sound_image_breaks_no_rule()
    ensures { (image : List ℕ) (rule place : ℕ) → IsSound image → IsFirstBroken image rule place → ⊥ }
{}

/// No command needs an extent of more pages, of a volume whose files are a sound database, than are counted
/// for it.
pub fn volumes_are_asked_for_few<F: Flash>(volume: &Volume<F>)
    ensures { let files = (⟦<Volume<F> as Files>⟧.state volume.now).files in
        IsSoundTable files → (command : Command) (need : ℕ)
        → WantsOver (⟦<Volume<F> as Files>⟧.asks volume.now) files (base_of files) command need
        → need ≤ most (base_of files) command }
{
    volume.asks_for_little();
    little_is_wanted(volume);
}

// The same of any files that are asked for little.
fn little_is_wanted<V: Files>(files: &V)
    ensures { let table = (V.state files.now).files in
        AsksLittle table (V.asks files.now) → IsSoundTable table → (command : Command) (need : ℕ)
        → WantsOver (V.asks files.now) table (base_of table) command need
        → need ≤ most (base_of table) command }
{
    tell_places(files);
    files_ask_for_few(files);
    commands_want_at_most(files);
    sound_files_have_their_sizes();
    sound_catalogs_have_their_files();
}

/// The files of an image are those that a volume shows once it is mounted.
#[tactic(auto, using(crate::proofs::Mounted::mounted_files))]
pub fn mounted_files_are_the_images()
    ensures { (image : List ℕ) → (mounted_state image).files ≡ files_of_image image }
{}

/// An image of whole sectors mends to one database, whichever of the tables that it mends to is taken: of a sound
/// image that is the database that it stands for. And an image mends to the files of one that has just the files
/// that it mends to.
#[tactic(auto, using(crate::proofs::OneBase::sound_base))]
pub fn images_mend_to_one_database()
    ensures one { (image : List ℕ) (files others : Table) (sectors : ℕ) → length image ≡ 4096 * sectors
        → MendsToFiles image files → MendsToFiles image others → mended_base files ≡ mended_base others }
    ensures sound { (image : List ℕ) (db : Database) (sectors : ℕ) → length image ≡ 4096 * sectors
        → IsSound image → ImageReadsAs image (λ mended. mended ≡ db) → base image ≡ db }
    ensures own { (image : List ℕ) → IsSound image → mended_base (files_of_image image) ≡ base image }
    ensures itself { (image : List ℕ) (sectors : ℕ) → length image ≡ 4096 * sectors
        → IsSound image → ImageMendsTo image (λ mended. mended ≡ base image) }
    ensures files { (old new : List ℕ) (named : List NamedFile) → MendsTo old named
        → ((f : NamedFile) → Contains named f → Contains (files_of new) f)
        → ((f : NamedFile) → Contains (files_of new) f → Contains named f)
        → MendsToFiles old (files_of_image new) }
{}
