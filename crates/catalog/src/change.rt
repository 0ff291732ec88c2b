ghost use Rattle.std.specs.Prelude.{◌≡◌, ◌+◌, ◌-◌, ◌*◌, ◌≤◌, OnErr, OnOk, Some, None, length, slice_index};
ghost use Rattle.afl_base.specs.CutFiles.{CutLeaves};
ghost use Rattle.afl_base.specs.Keeping.{Changes};
ghost use Rattle.afl_base.specs.Files.{Becomes, IsLive, bytes_at, file_at};
ghost use Rattle.afl_base.specs.Sparing.{SparesPages};
ghost use Rattle.db_model.specs.Catalog.{index_slot_bytes, relation_slot_bytes, with_slot};
ghost use Rattle.catalog.specs.CatalogFile.{IsCatalogSize, IsPrepared, MayReplace, PutsIndex, PutsRelation, index_in};
ghost use Rattle.space_model.specs.Wants.{room_for};

use crate::slots::{
    SIZE_OF_VERSION_1, SIZE_OF_VERSION_2, VERSION_MARK, first_catalog, index_slot, relation_slot,
    unused_slot,
};
use crate::types::IndexEntry;
use afl_base::{Failed, FileId, Files, IndexId, RelationId, regions};
use db_model::Schema;

/// What to prepare for a change of the `len` bytes from `at` on of a catalog of `size` bytes: how many
/// overwrites, and how many bytes to append. The first change of an empty catalog appends all of it,
/// and a change of version 1 appends the 8 bytes that make it version 2.
pub fn room_for(size: u32, at: u32, len: u32) -> (u16, u32)
    requires { at + len ≤ 1472 }
    ensures { result ≡ room_for size at len }
{
    let overwrites = regions(at, len as usize);
    match size {
        0 => (0, SIZE_OF_VERSION_2),
        SIZE_OF_VERSION_1 => (overwrites, 8),
        _ => (overwrites, 0),
    }
}

/// Puts the schema into a relation slot. All other slots stay, and no page that was free is taken. A
/// catalog that was empty or of version 1 is of version 2 afterwards. After `Failed` nothing is known
/// of the files but what a cut leaves.
pub fn put_relation<V: Files>(
    files: &mut V,
    cat: FileId,
    id: RelationId,
    schema: &Schema,
) -> Result<(), Failed>
    requires live { IsLive (V.state files.old).files cat }
    requires form { IsCatalogSize (length (bytes_at (V.state files.old).files cat)) }
    requires prepared { IsPrepared (file_at (V.state files.old).files cat) (176 * id) 176 }
    ensures put { OnOk result
        (PutsRelation (V.state files.old) (V.state files.new) cat id (Some schema.now)) }
    ensures spares { SparesPages V.is_free V.state files.old files.new result }
    ensures cut { CutLeaves V.cuts V.mends V.state files.old files.new (OnErr result)
        (λ after. MayReplace (V.state files.old) after cat (176 * id)
        (relation_slot_bytes (Some schema.now))) }
    ensures frame { Changes V.state V.lent V.reads V.faults files.old files.new result }
{
    replace(
        files,
        cat,
        176 * u32::from(id.number()),
        relation_slot(schema).as_slice(),
    )
}

/// Empties a relation slot. All other slots stay, and no page that was free is taken. A catalog that
/// was empty or of version 1 is of version 2 afterwards. After `Failed` nothing is known of the files
/// but what a cut leaves.
pub fn clear_relation<V: Files>(files: &mut V, cat: FileId, id: RelationId) -> Result<(), Failed>
    requires live { IsLive (V.state files.old).files cat }
    requires form { IsCatalogSize (length (bytes_at (V.state files.old).files cat)) }
    requires prepared { IsPrepared (file_at (V.state files.old).files cat) (176 * id) 176 }
    ensures cleared { OnOk result (PutsRelation (V.state files.old) (V.state files.new) cat id None) }
    ensures spares { SparesPages V.is_free V.state files.old files.new result }
    ensures cut { CutLeaves V.cuts V.mends V.state files.old files.new (OnErr result)
        (λ after. MayReplace (V.state files.old) after cat (176 * id) (relation_slot_bytes None)) }
    ensures frame { Changes V.state V.lent V.reads V.faults files.old files.new result }
{
    let slot: [u8; 176] = unused_slot();
    replace(files, cat, 176 * u32::from(id.number()), &slot)
}

/// Puts the entry into an index slot. All other slots stay, and no page that was free is taken. A
/// catalog that was empty or of version 1 is of version 2 afterwards. After `Failed` nothing is known
/// of the files but what a cut leaves.
pub fn put_index<V: Files>(
    files: &mut V,
    cat: FileId,
    id: IndexId,
    entry: &IndexEntry,
) -> Result<(), Failed>
    requires live { IsLive (V.state files.old).files cat }
    requires form { IsCatalogSize (length (bytes_at (V.state files.old).files cat)) }
    requires prepared { IsPrepared (file_at (V.state files.old).files cat) (1408 + 8 * id) 8 }
    ensures put { OnOk result
        (PutsIndex (V.state files.old) (V.state files.new) cat id (Some (index_in entry.now))) }
    ensures spares { SparesPages V.is_free V.state files.old files.new result }
    ensures cut { CutLeaves V.cuts V.mends V.state files.old files.new (OnErr result)
        (λ after. MayReplace (V.state files.old) after cat (1408 + 8 * id)
        (index_slot_bytes (Some (index_in entry.now)))) }
    ensures frame { Changes V.state V.lent V.reads V.faults files.old files.new result }
{
    replace(
        files,
        cat,
        1408 + 8 * u32::from(id.number()),
        &index_slot(entry),
    )
}

/// Empties an index slot. All other slots stay, and no page that was free is taken. A catalog that was
/// empty or of version 1 is of version 2 afterwards. After `Failed` nothing is known of the files but
/// what a cut leaves.
pub fn clear_index<V: Files>(files: &mut V, cat: FileId, id: IndexId) -> Result<(), Failed>
    requires live { IsLive (V.state files.old).files cat }
    requires form { IsCatalogSize (length (bytes_at (V.state files.old).files cat)) }
    requires prepared { IsPrepared (file_at (V.state files.old).files cat) (1408 + 8 * id) 8 }
    ensures cleared { OnOk result (PutsIndex (V.state files.old) (V.state files.new) cat id None) }
    ensures spares { SparesPages V.is_free V.state files.old files.new result }
    ensures cut { CutLeaves V.cuts V.mends V.state files.old files.new (OnErr result)
        (λ after. MayReplace (V.state files.old) after cat (1408 + 8 * id) (index_slot_bytes None)) }
    ensures frame { Changes V.state V.lent V.reads V.faults files.old files.new result }
{
    let slot: [u8; 8] = unused_slot();
    replace(files, cat, 1408 + 8 * u32::from(id.number()), &slot)
}

// Puts a slot, whose last byte is 1, in the place of the bytes from `at` on.
#[tactic(auto, using(afl_base::proofs::SparingLaws::takes_no_page_on))]
fn replace<V: Files>(files: &mut V, cat: FileId, at: u32, slot: &[u8]) -> Result<(), Failed>
    requires live { IsLive (V.state files.old).files cat }
    requires form { IsCatalogSize (length (bytes_at (V.state files.old).files cat)) }
    requires inside { at + length slot.now ≤ 1472 }
    requires some { 1 ≤ length slot.now }
    requires last { slice_index slot.now (length slot.now - 1) ≡ 1 }
    requires prepared { IsPrepared (file_at (V.state files.old).files cat) at (length slot.now) }
    ensures replaced { OnOk result (Becomes (V.state files.old) (V.state files.new) cat 1480
        (with_slot (bytes_at (V.state files.old).files cat) at slot.now)) }
    ensures spares { SparesPages V.is_free V.state files.old files.new result }
    ensures cut { CutLeaves V.cuts V.mends V.state files.old files.new (OnErr result)
        (λ after. MayReplace (V.state files.old) after cat at slot.now) }
    ensures frame { Changes V.state V.lent V.reads V.faults files.old files.new result }
{
    let size = files.size(cat);
    if size == 0 {
        files.append(cat, &first_catalog(at as usize, slot))?;
        return Ok(());
    }
    files.overwrite(cat, at, slot)?;
    if size == SIZE_OF_VERSION_2 {
        return Ok(());
    }
    files.append(cat, &VERSION_MARK)?;
    Ok(())
}
