//! The catalog, read slot by slot.

#![tactic(auto)]

ghost use Rattle.std.specs.Prelude.{◌≡◌, ◌==◌, ◌≤◌, ◌<◌, ◌*◌, ◌+◌, IfNone, IfOk, IfSome, IsTrue, if◌then◌else◌, length, slice_range};
ghost use Rattle.std.specs.List.{list_any};
ghost use Rattle.afl_base.specs.Keeping.{OnlyReads};
ghost use Rattle.db_model.specs.Catalog.{catalog_of};
ghost use Rattle.stored.specs.CutTables.{slot_bytes};
ghost use Rattle.stored.specs.Mended.{has_time, is_time_domain, whole_catalog};
ghost use Rattle.stored_mend.specs.Mending.{IsWholeCatalog};
ghost use Rattle.stored_survey.specs.Asked.{AreReadSlots, HasNoHalf, IsReadAs};

use afl_base::{Failed, FileId, Files};
use catalog::{Catalog, load_indexes};
use db_model::{Attribute, Domain, Schema};
use stored_mend::{SIZE_OF_VERSION_1, mended_relation};

/// The relations and indexes of a catalog that has all slots, as they are read: a slot without a name has
/// none, and an attribute behind their number is none. None where no cut leaves such slots.
pub fn read_catalog<V: Files>(files: &mut V, cat: FileId) -> Result<Option<Catalog>, Failed>
    requires whole { IsWholeCatalog (V.state files.old).files cat }
    ensures read { IsTrue (V.state files.old).tells → IfOk result
        (λ r. IfSome r (λ catalog. IsReadAs (V.state files.old).files catalog)) }
    ensures none { IsTrue (V.state files.old).tells → IfOk result
        (λ r. IfNone r (HasNoHalf (V.state files.old).files)) }
    ensures relations { IfOk result (λ r. IfSome r (λ catalog. length catalog.relations ≡ 8)) }
    ensures indexes { IfOk result (λ r. IfSome r (λ catalog. length catalog.indexes ≡ 8)) }
    ensures frame { OnlyReads V.state V.lent V.reads V.faults files.old files.new result }
{
    let read = read_relations(files, cat)?;
    match read {
        None => Ok(None),
        Some(relations) => {
            let loaded = load_indexes(files, cat, &relations)?;
            match loaded {
                Err(_) => Ok(None),
                Ok(indexes) => Ok(Some(Catalog {
                    version: version_of(files.size(cat), &relations),
                    relations,
                    indexes,
                })),
            }
        }
    }
}

fn read_relations<V: Files>(
    files: &mut V,
    cat: FileId,
) -> Result<Option<[Option<Schema>; 8]>, Failed>
    requires whole { IsWholeCatalog (V.state files.old).files cat }
    ensures read { IsTrue (V.state files.old).tells → IfOk result (λ r. IfSome r (λ relations.
        relations ≡ (catalog_of (whole_catalog (V.state files.old).files)).relations)) }
    ensures slots { IsTrue (V.state files.old).tells → IfOk result (λ r. IfSome r (λ relations.
        AreReadSlots (whole_catalog (V.state files.old).files) relations)) }
    ensures none { IsTrue (V.state files.old).tells → IfOk result
        (λ r. IfNone r (HasNoHalf (V.state files.old).files)) }
    ensures eight { IfOk result (λ r. IfSome r (λ relations. length relations ≡ 8)) }
    ensures frame { OnlyReads V.state V.lent V.reads V.faults files.old files.new result }
{
    let mut relations = [None, None, None, None, None, None, None, None];
    for slot in 0..8u16 {
        let bytes = relation_bytes(files, cat, slot)?;
        match mended_relation(&bytes) {
            Some(relation) => relations[slot as usize] = relation,
            None => return Ok(None),
        }
    }
    Ok(Some(relations))
}

/// The bytes of a relation slot.
pub fn relation_bytes<V: Files>(files: &mut V, cat: FileId, slot: u16) -> Result<[u8; 176], Failed>
    requires whole { IsWholeCatalog (V.state files.old).files cat }
    requires slot { slot < 8 }
    ensures bytes { IsTrue (V.state files.old).tells → IfOk result
        (λ bytes. bytes ≡ slot_bytes (V.state files.old).files slot) }
    ensures length { IfOk result (λ bytes. length bytes ≡ 176) }
    ensures frame { OnlyReads V.state V.lent V.reads V.faults files.old files.new result }
{
    let mut bytes = [0; 176];
    files.read(cat, 176 * u32::from(slot), &mut bytes)?;
    Ok(bytes)
}

// Version 2 also where a relation needs it and the mark is not there yet.
fn version_of(size: u32, relations: &[Option<Schema>]) -> u8
    requires size { 1472 ≤ size }
    ensures { result ≡ (if list_any has_time relations.now then 2 else if size == 1472 then 1 else 2) }
{
    if have_time(relations) {
        return 2;
    }
    if size == SIZE_OF_VERSION_1 { 1 } else { 2 }
}

// Whether one of some relations has an attribute that only version 2 has.
fn have_time(relations: &[Option<Schema>]) -> bool
    ensures { result ≡ list_any has_time relations.now }
{
    for relation in relations {
        if has_time(relation) {
            return true;
        }
    }
    false
}

/// Whether a relation has an attribute that only version 2 has.
pub fn has_time(relation: &Option<Schema>) -> bool
    ensures { result ≡ has_time relation.now }
{
    match relation {
        Some(schema) => has_a_time(schema.attributes.as_slice()),
        None => false,
    }
}

/// Whether one of some attributes is such a one.
pub fn has_a_time(attributes: &[Attribute]) -> bool
    ensures { result ≡ list_any (λ a. is_time_domain a.domain) attributes.now }
{
    for attribute in attributes {
        if is_time(attribute) {
            return true;
        }
    }
    false
}

/// Whether only version 2 has the attribute.
pub fn is_time(attribute: &Attribute) -> bool
    ensures { result ≡ is_time_domain attribute.now.domain }
{
    attribute.domain == Domain::Time
}
