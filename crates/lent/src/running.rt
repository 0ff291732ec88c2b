ghost use Rattle.std.specs.Prelude.{◌≡◌, ◌≢◌, ◌↔◌, ◌⊎◌, ◌≤◌, [], Some, length, take};
ghost use Rattle.afl_sim.specs.Lengths.{IsImageLength};
ghost use Rattle.antelope_run.specs.Promise.{HasSpace, IsWithinLimit};
ghost use Rattle.run_model.specs.Runs.{world};
ghost use Rattle.run_words.specs.Words.{HasFewCommands};
ghost use Rattle.image_model.specs.Images.{IsSound};
ghost use Rattle.lent.specs.Memory.{IsLentStatus, LeavesMemory};

use crate::ended::Ended;
use crate::flash::LentFlash;
use crate::length::sectors_of;
use crate::sink::LentSink;
use crate::source::LentSource;
use antelope_run::carry;
use run_words::Form;

/// Carries out what a form asks for on the image in `image`, and puts the replies in front of `replies`.
///
/// | status | comes |
/// |---|---|
/// | 0, 3, 6, 8 | as those of `antelope_run::top` |
/// | 5 | only where `replies` is full |
/// | 10 | exactly where `image` is not 4 to 4,095 sectors long; nothing was read or written |
///
/// Memory does not fail, so 2 and 4 never come.
pub fn run_lent(form: Form, image: &mut [u8], input: &[u8], replies: &mut [u8]) -> Ended
    requires commands { HasFewCommands form }
    ensures only { IsLentStatus result.status }
    ensures size { (result.status ≢ 10) ↔ IsImageLength (length image.old) }
    ensures stays { result.status ≡ 10
        → (image.new ≡ image.old) × (replies.new ≡ replies.old) × (result.written ≡ 0) }
    ensures within { result.written ≤ length replies.new }
    ensures full { result.status ≡ 5 → result.written ≡ length replies.new }
    ensures told { result.status ≢ 10
        → LeavesMemory form image.old input.now result.status image.new (take result.written replies.new) }
    ensures unsound { (IsSound image.old → ⊥)
        → (result.status ≡ 5) ⊎ (result.status ≡ 6) ⊎ (result.status ≡ 10) }
    ensures no_fault { IsSound image.old → IsWithinLimit form (Some input.now)
        → result.written ≢ length replies.new
        → (result.status ≡ 0) ⊎ (result.status ≡ 3) ⊎ (result.status ≡ 10) }
    ensures suffices { IsSound image.old
        → HasSpace form (world image.old (Some input.now) (Some [])) → result.status ≢ 3 }
{
    let Some(sectors) = sectors_of(image.len()) else {
        return Ended::WRONG_LENGTH;
    };
    let mut source = LentSource {
        left: input,
        reads: 0,
    };
    let mut out = LentSink::new(replies);
    let mut flash = LentFlash::new(image, sectors);
    let status = carry(form, &mut source, &mut out, &mut flash);
    Ended {
        status,
        written: out.count,
    }
}
