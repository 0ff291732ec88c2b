//! Whether the files of relations hold rows.

#![tactic(auto)]

ghost use Rattle.std.specs.Prelude.{◌≡◌, ◌+◌, ◌*◌, ◌<◌, ◌≤◌, ◌⊎◌, ℕ, None, IfNone, IfOk, IfSome, IsTrue, MatchOption, get_or, length};
ghost use Rattle.afl_base.specs.Keeping.{OnlyReads};
ghost use Rattle.std.specs.Bool.{Decides};
ghost use Rattle.stored.specs.Sound.{IsFirst};
ghost use Rattle.tuple_file.specs.Tuples.{IsRowFile};
ghost use Rattle.session_start.specs.Judged.{AllEight, AreRowsOf, HasRows, HoldsFew, HoldsSlot};
ghost use Rattle.session_start.specs.Reads.{all_slots, slots_of_relation};

use afl_base::{Failed, Files};
use session_model::Held;
use tuple_file::Tuples;

/// The first relation whose file does not hold rows, as many as the version allows.
pub fn first_without_rows<V: Files>(files: &mut V, held: &Held) -> Result<Option<u16>, Failed>
    requires version { (held.now.version ≡ 1) ⊎ (held.now.version ≡ 2) }
    requires eight { length held.now.relations ≡ 8 }
    requires files { (k : ℕ) → k < 8
        → IfSome (get_or held.now.relations k None) (λ t. IsRowFile (V.state files.old).files t) }
    ensures rows { let Keeps = HasRows (V.state files.old).files held.now in
        IsTrue (V.state files.old).tells → IfOk result (λ slot.
        MatchOption slot (AllEight Keeps) (λ k. IsFirst Keeps k)) }
    ensures holds { IfOk result (λ slot. IfNone slot (AllEight (HoldsSlot (V.state files.old) held.now))) }
    ensures reads { V.reads files.new ≤ V.reads files.old
        + 6 * all_slots (V.state files.old).files held.now.relations }
    ensures frame { OnlyReads V.state V.lent V.reads V.faults files.old files.new result }
{
    for slot in 0..8u16 {
        let held_rows = holds_rows(files, &held.relations[slot as usize], held.version)?;
        if !held_rows {
            return Ok(Some(slot));
        }
    }
    Ok(None)
}

// Whether the file of a relation, if there is one, holds rows.
fn holds_rows<V: Files>(
    files: &mut V,
    relation: &Option<Tuples>,
    version: u8,
) -> Result<bool, Failed>
    requires version { (version ≡ 1) ⊎ (version ≡ 2) }
    requires file { IfSome relation.now (λ t. IsRowFile (V.state files.old).files t) }
    ensures rows { IsTrue (V.state files.old).tells → IfOk result (λ valid.
        Decides valid (AreRowsOf (V.state files.old).files version relation.now)) }
    ensures holds { IfOk result (λ valid. IsTrue valid → HoldsFew (V.state files.old) version relation.now) }
    ensures reads { V.reads files.new ≤ V.reads files.old
        + 6 * slots_of_relation (V.state files.old).files relation.now }
    ensures frame { OnlyReads V.state V.lent V.reads V.faults files.old files.new result }
{
    match relation {
        None => Ok(true),
        Some(tuples) => {
            let valid = tuples.valid(files, version)?;
            Ok(valid)
        }
    }
}
