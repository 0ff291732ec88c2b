ghost use Rattle.std.specs.Prelude.{◌≡◌, ◌<◌, ◌≤◌, ◌+◌, ◌*◌, true, Some, None, IfErr, IfOk, IfSome, IsTrue, OnOk, length, slice_range};
ghost use Rattle.afl_base.specs.Keeping.{OnlyReads};
ghost use Rattle.std.specs.List.{list_any};
ghost use Rattle.afl_base.specs.Files.{IsLive, bytes_at};
ghost use Rattle.db_model.specs.Catalog.{catalog_of, version_of};
ghost use Rattle.catalog.specs.Formed.{AreSchemas, is_schema_slot};
ghost use Rattle.catalog.specs.Rules.{breaks_relation, first, has_name, is_named_among, sound_relation};

use crate::decode::read_relation;
use afl_base::{Failed, FileId, Files};
use db_model::{Ident, Schema};

// Reads the relation slots, or answers the first that is not of the catalog's form or has the name of one
// before it.
pub fn load_relations<V: Files>(
    files: &mut V,
    cat: FileId,
    version: u8,
    relations: &mut [Option<Schema>; 8],
) -> Result<Result<(), u16>, Failed>
    requires live { IsLive (V.state files.old).files cat }
    requires size { 1472 ≤ length (bytes_at (V.state files.old).files cat) }
    requires version { IsTrue (V.state files.old).tells
        → version ≡ version_of (bytes_at (V.state files.old).files cat) }
    ensures relations { IsTrue (V.state files.old).tells → IfOk result
        (λ r. OnOk r (relations.new ≡ (catalog_of (bytes_at (V.state files.old).files cat)).relations)) }
    ensures eight { IfOk result (λ r. OnOk r (length relations.new ≡ 8)) }
    ensures formed { IfOk result (λ r. OnOk r (AreSchemas version relations.new)) }
    ensures sound { IsTrue (V.state files.old).tells → IfOk result
        (λ r. OnOk r (first 8 (breaks_relation (bytes_at (V.state files.old).files cat)) ≡ None)) }
    ensures broken { IsTrue (V.state files.old).tells → IfOk result
        (λ r. IfErr r (λ slot. first 8 (breaks_relation (bytes_at (V.state files.old).files cat)) ≡ Some slot)) }
    ensures reads { V.reads files.new ≤ V.reads files.old + 72 }
    ensures frame { OnlyReads V.state V.lent V.reads V.faults files.old files.new result }
{
    for slot in 0..8u16 {
        match load_relation(files, cat, version, slot, &relations[..slot as usize])? {
            Some(relation) => relations[slot as usize] = relation,
            None => return Ok(Err(slot)),
        }
    }
    Ok(Ok(()))
}

// What a relation slot holds, None where it breaks the rule. `before` has the relations of the slots
// before it.
fn load_relation<V: Files>(
    files: &mut V,
    cat: FileId,
    version: u8,
    slot: u16,
    before: &[Option<Schema>],
) -> Result<Option<Option<Schema>>, Failed>
    requires live { IsLive (V.state files.old).files cat }
    requires size { 1472 ≤ length (bytes_at (V.state files.old).files cat) }
    requires slot { slot < 8 }
    ensures relation { IsTrue (V.state files.old).tells → IfOk result
        (λ r. r ≡ sound_relation version
        (slice_range (bytes_at (V.state files.old).files cat) (176 * slot) (176 * slot + 176)) before.now) }
    ensures formed { IfOk result (λ r. IfSome r (λ relation. is_schema_slot version relation ≡ true)) }
    ensures reads { V.reads files.new ≤ V.reads files.old + 9 }
    ensures frame { OnlyReads V.state V.lent V.reads V.faults files.old files.new result }
{
    let mut bytes = [0u8; 176];
    files.read(cat, 176 * u32::from(slot), &mut bytes)?;
    Ok(sound_relation(version, &bytes, before))
}

// What a slot holds, None where it breaks the rule.
fn sound_relation(version: u8, slot: &[u8], before: &[Option<Schema>]) -> Option<Option<Schema>>
    requires { length slot.now ≡ 176 }
    ensures { result ≡ sound_relation version slot.now before.now }
{
    let relation = read_relation(slot, version)?;
    if is_named_among(&relation, before) {
        return None;
    }
    Some(relation)
}

// Whether one of `slots` has the relation's name.
fn is_named_among(relation: &Option<Schema>, slots: &[Option<Schema>]) -> bool
    ensures { result ≡ is_named_among relation.now slots.now }
{
    match relation {
        Some(schema) => has_a_name(&schema.name, slots),
        None => false,
    }
}

fn has_a_name(name: &Ident, slots: &[Option<Schema>]) -> bool
    ensures { result ≡ list_any (has_name name.now) slots.now }
{
    for slot in slots {
        if has_name(name, slot) {
            return true;
        }
    }
    false
}

fn has_name(name: &Ident, slot: &Option<Schema>) -> bool
    ensures { result ≡ has_name name.now slot.now }
{
    match slot {
        Some(schema) => schema.name == *name,
        None => false,
    }
}
