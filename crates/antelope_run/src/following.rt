//! What follows once a session is closed.

#![tactic(auto)]

ghost use Rattle.std.specs.Prelude.{◌≡◌, ◌+◌, ◌≤◌, ◌⊎◌, true, false, None, Ok, IsTrue};
ghost use Rattle.antelope_run.specs.Does.{OnlyHalts, Wrote};
ghost use Rattle.antelope_run.specs.Follows.{Follows, WritesBehind, is_look};
ghost use Rattle.coffee_layout.specs.Rules.{broken_image};
ghost use Rattle.coffee_layout.specs.Units.{pages_of};
ghost use Rattle.run_look.specs.Text.{flash_line};

use crate::carrying::stopped;
use afl_base::{Flash, Sink};
use run_input::InputEnding;
use run_words::Form;

// Whether the words ask what stands on an image.
pub fn is_look(form: &Form) -> bool
    ensures { result ≡ is_look form.now }
{
    match form {
        Form::Look => true,
        Form::Run => false,
        Form::Gen { .. } => false,
        Form::Plan { .. } => false,
        Form::Serve => false,
        Form::Dump => false,
    }
}

// Writes the line of the flash, where the words ask what stands on it and the lines before were written.
pub fn tell_flash<F: Flash, K: Sink>(
    looks: bool,
    done: Result<(), InputEnding>,
    flash: &mut F,
    out: &mut K,
) -> Result<(), InputEnding>
    ensures others { looks ≡ false → (result ≡ done) × (flash.new ≡ flash.old) × (out.new ≡ out.old) }
    ensures wrote { let image = F.image flash.old in
        looks ≡ true → IsTrue F.tells → broken_image image ≡ None
        → WritesBehind (flash_line image) done result (K.held out.old) (K.held out.new) }
    ensures halts { (result ≡ done) ⊎ OnlyHalts result }
    ensures reads { F.reads flash.new ≤ F.reads flash.old + pages_of (F.image flash.old) }
    ensures frame { Follows F.Flash K.Sink flash.old flash.new out.old out.new done result }
{
    if !looks {
        return done;
    }
    match done {
        Ok(()) => write_line(flash, out),
        Err(ending) => Err(ending),
    }
}

fn write_line<F: Flash, K: Sink>(flash: &mut F, out: &mut K) -> Result<(), InputEnding>
    ensures wrote { let image = F.image flash.old in IsTrue F.tells → broken_image image ≡ None
        → Wrote (K.held out.old) (K.held out.new) (flash_line image) result }
    ensures halts { OnlyHalts result }
    ensures reads { F.reads flash.new ≤ F.reads flash.old + pages_of (F.image flash.old) }
    ensures frame { Follows F.Flash K.Sink flash.old flash.new out.old out.new (Ok tt) result }
{
    stopped(run_look::write_flash(flash, out))
}
