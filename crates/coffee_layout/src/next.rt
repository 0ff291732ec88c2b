ghost use Rattle.std.specs.Prelude.{◌≡◌, ◌+◌, ◌*◌, ◌≤◌, ◌==◌, length, IsTrue, IfOk};
ghost use Rattle.afl_base.specs.Keeping.{OnlyReads};
ghost use Rattle.padded.specs.Zeros.{is_zeros};
ghost use Rattle.coffee_layout.specs.Units.{unit_at, unit_of};

use crate::unit::Unit;
use afl_base::{Failed, Flash, PageId};
use coffee_header::read_header;
use padded::is_zeros;

/// The unit that begins at `page`, None exactly where the page's first 32 bytes are no unit's. One
/// read; the image stays.
pub fn next_unit<F: Flash>(flash: &mut F, page: PageId) -> Result<Option<Unit>, Failed>
    requires page { 256 * page.0 + 256 ≤ length (F.image flash.old) }
    ensures unit { IsTrue F.tells → IfOk result (λ u. u ≡ unit_at (F.image flash.old) page.0) }
    ensures reads { F.reads flash.new ≤ F.reads flash.old + 1 }
    ensures frame { OnlyReads F.image F.lent F.reads F.faults flash.old flash.new result }
{
    let mut bytes = [0; 32];
    flash.read(page, 0, &mut bytes)?;
    Ok(unit_of(&bytes))
}

/// The unit that these 32 bytes begin, None where they begin none.
#[tactic(auto, unfolding(crate::specs::Units::unit_of))]
pub(crate) fn unit_of(bytes: &[u8; 32]) -> Option<Unit>
    ensures { result ≡ unit_of bytes.now }
{
    if is_zeros(bytes) {
        return Some(Unit::Free);
    }
    if bytes[9] & 34 == 34 {
        return Some(Unit::Isolated);
    }
    match read_header(bytes) {
        Some(header) => Some(Unit::Extent(header)),
        None => None,
    }
}
