ghost use Rattle.std.specs.Prelude.{◌≡◌, ◌≢◌, ◌↔◌, ◌⊎◌, ◌≤◌, [], IsTrue, Some, length, take};
ghost use Rattle.afl_base.specs.Causes.{Rose};
ghost use Rattle.afl_sim.specs.Lengths.{IsImageLength};
ghost use Rattle.run_repair.specs.Checks.{Checks, IsCheckStatus};
ghost use Rattle.lent.specs.Memory.{IsLentCheckStatus};

use crate::ended::Ended;
use crate::flash::LentFlash;
use crate::length::sectors_of;
use crate::sink::LentSink;
use run_repair::check;

/// Tells whether the image in `image` is sound, and what `repair_lent` would repair, and puts that in front of
/// `replies`. The image stays.
///
/// The statuses 0 and 6 are those of `run_repair::check`. 5 comes only where `replies` is full, and 10
/// exactly where `image` is not 4 to 4,095 sectors long; nothing was read or written then.
pub fn check_lent(image: &mut [u8], replies: &mut [u8]) -> Ended
    ensures only { IsLentCheckStatus result.status }
    ensures size { (result.status ≢ 10) ↔ IsImageLength (length image.old) }
    ensures same { image.new ≡ image.old }
    ensures stays { result.status ≡ 10 → (replies.new ≡ replies.old) × (result.written ≡ 0) }
    ensures within { result.written ≤ length replies.new }
    ensures full { result.status ≡ 5 → result.written ≡ length replies.new }
    ensures told { result.status ≢ 10
        → Checks result.status image.old (Some []) (Some (take result.written replies.new)) }
{
    let Some(sectors) = sectors_of(image.len()) else {
        return Ended::WRONG_LENGTH;
    };
    let mut out = LentSink::new(replies);
    let mut flash = LentFlash::new(image, sectors);
    let status = check(&mut out, &mut flash);
    Ended {
        status,
        written: out.count,
    }
}
