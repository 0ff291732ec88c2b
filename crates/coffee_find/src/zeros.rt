ghost use Rattle.std.specs.Prelude.{◌≡◌, ◌+◌, ◌*◌, ◌≤◌, true, length, IsTrue, IfOk, slice_range};
ghost use Rattle.afl_base.specs.Keeping.{OnlyReads};
ghost use Rattle.padded.specs.Zeros.{is_zeros};

use afl_base::{Failed, Flash, PageId};
use padded::is_zeros;

/// Whether the pages from one up to another are all zero.
pub(crate) fn are_zero<F: Flash>(flash: &mut F, from: u16, to: u16) -> Result<bool, Failed>
    requires order { from ≤ to }
    requires inside { 256 * to ≤ length (F.image flash.old) }
    ensures zero { IsTrue F.tells → IfOk result
        (λ r. r ≡ is_zeros (slice_range (F.image flash.old) (256 * from) (256 * to))) }
    ensures reads { F.reads flash.new + from ≤ F.reads flash.old + to }
    ensures frame { OnlyReads F.image F.lent F.reads F.faults flash.old flash.new result }
{
    for page in from..to {
        let mut bytes = [0; 256];
        flash.read(PageId(page), 0, &mut bytes)?;
        if !is_zeros(&bytes) {
            return Ok(false);
        }
    }
    Ok(true)
}
