//! A whole run of the program.

#![tactic(auto)]

ghost use Rattle.std.specs.Prelude.{◌≡◌, ◌≢◌, ◌-◌, ◌⊎◌, ◌↔◌, None, Some, IsTrue};
ghost use Rattle.std.specs.Io.KnownBytes.{append_known};
ghost use Rattle.afl_base.specs.Causes.{Rose};
ghost use Rattle.reply_text.specs.WroteLess.{WroteLess};
ghost use Rattle.run_model.specs.Runs.{image_line, world};
ghost use Rattle.run_words.specs.declared.words.Form.{Form};
ghost use Rattle.run_words.specs.Words.{HasFewCommands, form_of};
ghost use Rattle.antelope_run.specs.Promise.{BorrowsTheSame, CausedBy, ComesTo, KeepsPromise, IsStatus, ReadsAtMost, TakenBy, TakesInput, status_by};
ghost use Rattle.run_model.specs.Moments.{counts_of, moment};
ghost use Rattle.antelope_run.specs.Steps.{BreaksBy, HasCameCause, OnOpened, OnUnopened, ReachesBy};
ghost use Rattle.antelope_run.specs.declared.came.Came.TheVariants as AnyCame;

use crate::came::Came;
use crate::carrying::carry_out;
use crate::closing::close;
use crate::following::{is_look, tell_flash};
use afl_base::{Failed, Flash, Sink, Source};
use antelope_engine::Session;
use coffee_volume::{MountError, Volume};
use flash_views::Handed;
use image_model::mounted_files_are_the_images;
use run_entries::write_image_line;
use run_input::{Ending, InputEnding};
use run_words::{Form, form};

/// Carries out what the words ask for, and answers the status that the program ends with, and the flash.
///
/// The image is judged first. Then an input is read to its end, and each command is read and carried out as
/// soon as it has come, so the input is never held in memory.
///
/// | status | comes |
/// |---|---|
/// | 0 | all was carried out, and all was written |
/// | 1 | exactly where `form` answers `None`; nothing was read or written |
/// | 2, 4, 5 | only where the input, the flash, the sink counted a fault |
/// | 3 | a command found no space, and `no space N` was written |
/// | 6 | only where the image is not sound, and always there but for faults; `no image RULE PLACE` was written |
/// | 8 | the input is longer than 16,777,216 bytes |
pub fn top<F: Flash, S: Source, K: Sink>(
    words: &[String],
    script: &mut S,
    out: &mut K,
    flash: F,
) -> (u8, F)
    ensures only { IsStatus result.0 }
    ensures words { (result.0 ≡ 1) ↔ (form_of words.now ≡ None) }
    ensures words_leave { result.0 ≡ 1
        → (script.new ≡ script.old) × (out.new ≡ out.old) × (result.1 ≡ flash) }
    ensures caused { CausedBy result.0 (counts_of F.Flash S.Source K.Sink flash script.old out.old)
        (counts_of F.Flash S.Source K.Sink result.1 script.new out.new) }
    ensures taken { (form : Form) → form_of words.now ≡ Some form
        → TakenBy S.left result.0 form script.old script.new }
    ensures kept { BorrowsTheSame F.Flash K.Sink flash result.1 out.old out.new }
    ensures runs { IsTrue F.tells → (form : Form) → form_of words.now ≡ Some form → KeepsPromise form F.cuts result.0
        (moment F.Flash S.Source K.Sink flash script.old out.old)
        (moment F.Flash S.Source K.Sink result.1 script.new out.new) }
{
    match form(words) {
        Some(form) => {
            let mut flash = flash;
            let status = carry(form, script, out, &mut flash);
            (status, flash)
        }
        None => (1, flash),
    }
}

/// Does what `top` does behind its words: carries out a form on a flash, and answers the status.
pub fn carry<F: Flash, S: Source, K: Sink>(
    form: Form,
    input: &mut S,
    out: &mut K,
    flash: &mut F,
) -> u8
    requires commands { HasFewCommands form }
    ensures only { IsStatus result × (result ≢ 1) }
    ensures caused { CausedBy result (counts_of F.Flash S.Source K.Sink flash.old input.old out.old)
        (counts_of F.Flash S.Source K.Sink flash.new input.new out.new) }
    ensures taken { TakenBy S.left result form input.old input.new }
    ensures kept { BorrowsTheSame F.Flash K.Sink flash.old flash.new out.old out.new }
    ensures runs { IsTrue F.tells → KeepsPromise form F.cuts result
        (moment F.Flash S.Source K.Sink flash.old input.old out.old)
        (moment F.Flash S.Source K.Sink flash.new input.new out.new) }
{
    let mut came = Came::Failed;
    let _handed = run_form(form, input, out, Handed { flash }, &mut came);
    status(came)
}

// The status that the program ends with.
fn status(came: Came) -> u8
    ensures { result ≡ status_by came }
{
    match came {
        Came::Opened(Ok(())) => 0,
        Came::Opened(Err(InputEnding::Input)) => 2,
        Came::Opened(Err(InputEnding::Early(Ending::Space))) => 3,
        Came::Opened(Err(InputEnding::Early(Ending::Flash))) | Came::Failed => 4,
        Came::Opened(Err(InputEnding::Early(Ending::Sink))) | Came::Unsaid => 5,
        Came::Refused => 6,
        Came::Opened(Err(InputEnding::Long)) => 8,
    }
}

// Carries out what a form asks for on a flash that comes back alone: so it is known to be the same one.
fn run_form<F: Flash, S: Source, K: Sink>(
    form: Form,
    input: &mut S,
    out: &mut K,
    flash: F,
    came: &mut Came,
) -> F
    requires commands { HasFewCommands form }
    ensures comes { IsTrue F.tells → ComesTo form
        (world (F.image flash) (S.left input.old) (K.held out.old))
        (world (F.image result) (S.left input.new) (K.held out.new)) came.new }
    ensures broken { IsTrue F.tells → IsTrue F.cuts → BreaksBy form
        (world (F.image flash) (S.left input.old) (K.held out.old))
        (world (F.image result) (S.left input.new) (K.held out.new)) came.new }
    ensures reaches { OnOpened came.new (λ done. ReachesBy form done (S.left input.old) (S.left input.new)) }
    ensures unread { OnUnopened came.new (input.new ≡ input.old) }
    ensures untouched { (TakesInput form → ⊥) → input.new ≡ input.old }
    ensures reads { let old = moment F.Flash S.Source K.Sink flash input.old out.old in IsTrue F.tells
        → ReadsAtMost form old.world (F.reads result - old.reads) }
    ensures kept { BorrowsTheSame F.Flash K.Sink flash result out.old out.new }
    ensures cause { HasCameCause (counts_of F.Flash S.Source K.Sink flash input.old out.old)
        (counts_of F.Flash S.Source K.Sink result input.new out.new) came.new }
{
    mounted_files_are_the_images();
    let sectors = flash.sectors();
    let volume = match Volume::mount(flash) {
        Ok(volume) => volume,
        Err(MountError::Bad { bad, flash }) => {
            *came = refuse(out, bad.rule, bad.place);
            return flash;
        }
        Err(MountError::Failed { flash }) => {
            *came = Came::Failed;
            return flash;
        }
    };
    // The session stays in its place until it is closed.
    let mut session = Session::new(volume);
    match session.begin() {
        Ok(Ok(())) => {
            let looks = is_look(&form);
            let done = carry_out(form, sectors, &mut session, input, out);
            let mut flash = close(session);
            *came = Came::Opened(tell_flash(looks, done, &mut flash, out));
            flash
        }
        Ok(Err(broken)) => {
            *came = refuse(out, broken.rule, broken.place);
            close(session)
        }
        Err(Failed) => {
            *came = Came::Failed;
            close(session)
        }
    }
}

// Writes the first broken rule of an image, and its place.
fn refuse<K: Sink>(out: &mut K, rule: u8, place: u16) -> Came
    ensures only { (result ≡ AnyCame.Refused) ⊎ (result ≡ AnyCame.Unsaid) }
    ensures written { result ≡ AnyCame.Refused
        → K.held out.new ≡ append_known (K.held out.old) (image_line rule place) }
    ensures unsaid { result ≡ AnyCame.Unsaid
        → WroteLess (K.held out.old) (K.held out.new) (image_line rule place) }
    ensures rose { result ≡ AnyCame.Unsaid → Rose (K.faults out.old) (K.faults out.new) }
    ensures lent { K.lent out.new ≡ K.lent out.old }
{
    match write_image_line(out, rule, place) {
        Ok(()) => Came::Refused,
        Err(Failed) => Came::Unsaid,
    }
}
