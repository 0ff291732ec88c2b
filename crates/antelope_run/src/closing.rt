//! From a session over an image of a flash back to the flash.

#![tactic(auto)]

ghost use Rattle.std.specs.Prelude.{◌≡◌, false, IsTrue};
ghost use Rattle.antelope_engine.specs.Commands.{LacksPages};
ghost use Rattle.antelope_run.specs.SessionImage.{IsImageOf};

use afl_base::{Files, Flash};
use antelope_engine::Session;
use coffee_volume::Volume;
use image_model::sound_files_are_a_sound_image;

/// Closes a session and hands back its flash. Unless its files failed, the image is sound and stands for its database.
pub fn close<F: Flash>(session: Session<Volume<F>>) -> F
    ensures image { F.image result ≡ (⟦<Volume<F> as Files>⟧.state session.files).store }
    ensures back { let files = ⟦<Volume<F> as Files>⟧ in
        IsTrue (files.state session.files).tells → session.lost ≡ false → IsImageOf session.database
        (LacksPages files.state files.asks files.lacks session) (F.image result) }
    ensures lent { F.lent result ≡ ⟦<Volume<F> as Files>⟧.lent session.files }
    ensures reads { F.reads result ≡ ⟦<Volume<F> as Files>⟧.reads session.files }
    ensures faults { F.faults result ≡ ⟦<Volume<F> as Files>⟧.faults session.files }
{
    sound_files_are_a_sound_image(session.files());
    session.close().unmount()
}
