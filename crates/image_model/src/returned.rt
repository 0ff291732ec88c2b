//! The image that a volume stands on.

#![tactic(auto)]

ghost use Rattle.std.specs.Prelude.{◌≡◌, ◌≤◌, ℕ, None, IsTrue, length};
ghost use Rattle.afl_base.specs.Files.{AreDistinct};
ghost use Rattle.db_model.specs.declared.commands.Command.{Command};
ghost use Rattle.session_model.specs.Wanted.{WantsOver};
ghost use Rattle.space_model.specs.Enough.{most};
ghost use Rattle.image_model.specs.Images.{IsSound, base};
ghost use Rattle.image_model.specs.Lacking.{LacksFor};
ghost use Rattle.stored.specs.Base.{base_of};
ghost use Rattle.stored.specs.Sound.{IsSoundTable};

use afl_base::{FileId, Files, Flash};
use coffee_volume::Volume;

// A table of files has 32 places, and no two files have one name.
pub(crate) fn tell_places<V: Files>(files: &V)
    ensures places { length (V.state files.now).files ≡ 32 }
    ensures distinct { AreDistinct (V.state files.now).files }
{
    match FileId::new(0) {
        Some(id) => {
            files.live(id);
        }
        None => unreachable!(),
    }
}

/// A volume whose files are a sound database stands on a sound image of that database, and what a command wanted of the
/// files and lacked it lacks there.
pub fn sound_files_are_a_sound_image<F: Flash>(volume: &Volume<F>)
    ensures sound { let state = ⟦<Volume<F> as Files>⟧.state volume.now in
        IsTrue state.tells → state.draft ≡ None → IsSoundTable state.files → IsSound state.store }
    ensures base { let state = ⟦<Volume<F> as Files>⟧.state volume.now in
        IsTrue state.tells → state.draft ≡ None → IsSoundTable state.files
        → base state.store ≡ base_of state.files }
    ensures lacks { let state = ⟦<Volume<F> as Files>⟧.state volume.now in
        IsTrue state.tells → state.draft ≡ None → IsSoundTable state.files
        → (command : Command) (n : ℕ)
        → WantsOver (⟦<Volume<F> as Files>⟧.asks volume.now) state.files (base_of state.files) command n
        → n ≤ most (base_of state.files) command
        → ⟦<Volume<F> as Files>⟧.lacks volume.now n → LacksFor state.store command n }
{
    tell_places(volume);
    volume.ends();
}
