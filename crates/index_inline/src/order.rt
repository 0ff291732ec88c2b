ghost use Rattle.std.specs.Prelude.{◌≡◌, ◌+◌, ◌*◌, ◌<◌, ◌≤◌, ℕ, IsTrue, IfOk};
ghost use Rattle.afl_base.specs.Keeping.{OnlyReads};
ghost use Rattle.afl_base.specs.KeyColumn.{HasField, IsWidth};
ghost use Rattle.db_model.specs.Step.{first_fall};
ghost use Rattle.index_inline.specs.Keys.{keys_of};

use afl_base::{Failed, Files, KeyColumn, SlotNo};

/// None exactly where the keys of the first slots do not fall, else the key before the first that
/// falls. Each key is read once.
pub fn ordered<V: Files>(
    files: &mut V,
    column: &KeyColumn,
    slots: u16,
) -> Result<Option<i64>, Failed>
    requires few { slots ≤ 32768 }
    requires width { IsWidth column.now.width }
    requires fields { (slot : ℕ) → slot < slots → HasField (V.state files.old) column.now slot }
    ensures ordered { let state = V.state files.old in IsTrue state.tells → IfOk result
        (λ fall. fall ≡ first_fall (keys_of state column.now slots)) }
    ensures reads { V.reads files.new ≤ V.reads files.old + 6 * slots }
    ensures frame { OnlyReads V.state V.lent V.reads V.faults files.old files.new result }
{
    let mut last = i64::MIN;
    for at in 0..slots {
        let Some(slot) = SlotNo::new(at) else {
            return Err(Failed);
        };
        let key = column.key64(files, slot)?;
        if key < last {
            return Ok(Some(last));
        }
        last = key;
    }
    Ok(None)
}
