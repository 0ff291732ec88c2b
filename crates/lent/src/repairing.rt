ghost use Rattle.std.specs.Prelude.{◌≡◌, ◌≢◌, ◌↔◌, ◌⊎◌, ◌≤◌, [], IsTrue, Some, length, take};
ghost use Rattle.afl_base.specs.Causes.{Rose};
ghost use Rattle.afl_sim.specs.Lengths.{IsImageLength};
ghost use Rattle.run_repair.specs.Repairs.{IsRepairStatus, Repairs};
ghost use Rattle.lent.specs.Memory.{IsLentRepairStatus};

use crate::ended::Ended;
use crate::flash::LentFlash;
use crate::length::sectors_of;
use crate::sink::LentSink;
use run_repair::repair;

/// Puts the image in `image` right that a power cut left, and puts what is said of it in front of `replies`.
///
/// The statuses 0, 3 and 6 are those of `run_repair::repair`. 5 comes only where `replies` is full, and 10
/// exactly where `image` is not 4 to 4,095 sectors long; nothing was read or written then.
pub fn repair_lent(image: &mut [u8], replies: &mut [u8]) -> Ended
    ensures only { IsLentRepairStatus result.status }
    ensures size { (result.status ≢ 10) ↔ IsImageLength (length image.old) }
    ensures stays { result.status ≡ 10
        → (image.new ≡ image.old) × (replies.new ≡ replies.old) × (result.written ≡ 0) }
    ensures within { result.written ≤ length replies.new }
    ensures full { result.status ≡ 5 → result.written ≡ length replies.new }
    ensures told { result.status ≢ 10
        → Repairs result.status image.old image.new (Some []) (Some (take result.written replies.new)) }
{
    let Some(sectors) = sectors_of(image.len()) else {
        return Ended::WRONG_LENGTH;
    };
    let mut out = LentSink::new(replies);
    let mut flash = LentFlash::new(image, sectors);
    let status = repair(&mut out, &mut flash);
    Ended {
        status,
        written: out.count,
    }
}
