ghost use Rattle.std.specs.Prelude.{◌+◌, ◌*◌, ◌<◌, ◌≤◌, ℕ, IsTrue, IfOk};
ghost use Rattle.afl_base.specs.Keeping.{OnlyReads};
ghost use Rattle.afl_base.specs.KeyColumn.{HasField, IsWidth, key_of};
ghost use Rattle.db_model.specs.Cost.{bits};
ghost use Rattle.index_inline.specs.Keys.{NeverFalls, keys_of};
ghost use Rattle.index_inline.specs.Span.{IsSpan};

use crate::halving::{end_between, narrowed};
use crate::piece::{look_near, slots_at_once};
use afl_base::{Failed, Files, KeyColumn};
use db_model::Range as Keys;

/// The first slot whose key is not below the range, and one past the last whose key is not above it;
/// both are the same where no key lies in the range. One halving serves both ends, and the keys of the
/// last few slots are read at once. Where the keys fall, or are not told, the slots are any.
#[tactic(auto, using(crate::proofs::Falls::rises))]
pub fn range<V: Files>(
    files: &mut V,
    column: &KeyColumn,
    slots: u16,
    within: &Keys,
) -> Result<(u16, u16), Failed>
    requires few { slots ≤ 32768 }
    requires width { IsWidth column.now.width }
    requires fields { (slot : ℕ) → slot < slots → HasField (V.state files.old) column.now slot }
    ensures span { IsTrue (V.state files.old).tells
        → NeverFalls (keys_of (V.state files.old) column.now slots) → IfOk result (λ r. IsSpan within.now (key_of (V.state files.old) column.now) slots r.0 r.1) }
    ensures order { IfOk result (λ r. r.0 ≤ r.1) }
    ensures end { IfOk result (λ r. r.1 ≤ slots) }
    ensures reads { V.reads files.new ≤ V.reads files.old + 6 * (2 * bits slots) }
    ensures frame { OnlyReads V.state V.lent V.reads V.faults files.old files.new result }
{
    let few = slots_at_once(column);
    let around = narrowed(files, column, slots, few, within)?;
    let near = look_near(files, column, around, few, within)?;
    let to = end_between(files, column, near.to, near.behind, within)?;
    Ok((near.from, to))
}
