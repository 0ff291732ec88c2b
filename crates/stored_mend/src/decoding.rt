//! What the slots of relations are read as behind a cut.

#![tactic(auto)]

ghost use Rattle.std.specs.Prelude.{◌≡◌, ◌≤◌, ◌+◌, ◌-◌, ◌*◌, ℕ, IfNone, IfSome, length, replicate};
ghost use Rattle.afl_base.specs.Fields.{put_at};
ghost use Rattle.db_model.specs.Catalog.{relation_slot_of};
ghost use Rattle.db_model.specs.Row.{row_length};
ghost use Rattle.stored.specs.CutTables.{IsSlot};
ghost use Rattle.stored.specs.declared.half.Half.{Half};
ghost use Rattle.stored_mend.specs.Slots.{IsReadSlot};

use afl_base::put_bytes;
use catalog::read_relation;
use db_model::Schema;

/// What a relation slot is read as, None where no cut leaves it. Without a name it was being emptied.
/// What stands after its attributes was to be one more, and is none.
pub fn mended_relation(slot: &[u8]) -> Option<Option<Schema>>
    requires { length slot.now ≡ 176 }
    ensures read { IfSome result (λ relation. relation ≡ relation_slot_of slot.now) }
    ensures formed { IfSome result (λ relation. IfSome relation (λ schema. IsReadSlot slot.now schema)) }
    ensures short { IfSome result (λ relation. IfSome relation (λ schema. row_length schema.attributes ≤ 128)) }
    ensures none { IfNone result ((half : Half) (version k : ℕ)
        → IsSlot half version k slot.now (relation_slot_of slot.now) → ⊥) }
{
    if slot[0] == 0 {
        return Some(None);
    }
    let count = slot[160] as usize;
    if count > 8 {
        return None;
    }
    let bytes = without_more(slot, count);
    read_relation(&bytes, 2)
}

// The slot with zeros behind so many attributes, up to their number.
fn without_more(slot: &[u8], count: usize) -> [u8; 176]
    requires length { length slot.now ≡ 176 }
    requires few { count ≤ 8 }
    ensures { result ≡ put_at slot.now (16 + 18 * count) (replicate (144 - 18 * count) 0) }
{
    let mut bytes = [0; 176];
    put_bytes(&mut bytes, 0, slot);
    let zeros = [0; 144];
    put_bytes(&mut bytes, 16 + 18 * count, &zeros[..144 - 18 * count]);
    bytes
}
