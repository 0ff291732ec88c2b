ghost use Rattle.std.specs.Prelude.{◌≡◌, ◌<◌, ◌≤◌, ◌+◌, None, Some, IfErr, IfOk, IfSome, IsTrue, OnOk, ◌⊎◌, get_or, is_some, length};
ghost use Rattle.afl_base.specs.Keeping.{OnlyReads};
ghost use Rattle.afl_base.specs.Files.{IsLive, bytes_at, size_at};
ghost use Rattle.db_model.specs.Catalog.{catalog_of};
ghost use Rattle.catalog.specs.CatalogFile.{IsCatalogSize, indexes_in};
ghost use Rattle.catalog.specs.Catalogs.{catalog_slots};
ghost use Rattle.catalog.specs.Formed.{HasCatalogSize, IsFormed};
ghost use Rattle.catalog.specs.Rules.{breaks_files, broken_catalog, catalog_bytes_in, catalog_in, first, first_broken, is_stranger, is_tree, version_in};

use crate::indexes::load_indexes;
use crate::names::{catalog_file, first_stranger, is_there, rows_file, tree_file};
use crate::relations::load_relations;
use crate::slots::{SIZE_OF_VERSION_1, SIZE_OF_VERSION_2, VERSION_MARK};
use crate::types::{BadCatalog, Catalog, IndexEntry};
use afl_base::{Failed, FileId, Files, IndexId, RelationId};
use db_model::{IndexKind, Schema};

/// Reads the catalog into `catalog`, and judges it and the names and kinds of all files. The inner `Err`
/// comes exactly where one of the rules 14 to 18 is broken, and has the first with its place: nothing is
/// said of `catalog` then. The files stay. Over files that do not tell their bytes `catalog` is formed
/// and fits the names, kinds and sizes of files.
pub fn load<V: Files>(
    files: &mut V,
    catalog: &mut Catalog,
) -> Result<Result<(), BadCatalog>, Failed>
    ensures catalog { IsTrue (V.state files.old).tells → IfOk result
        (λ r. OnOk r (catalog_slots catalog.new ≡ catalog_in (V.state files.old).files)) }
    ensures sound { IsTrue (V.state files.old).tells → IfOk result
        (λ r. OnOk r (first_broken (V.state files.old).files ≡ None)) }
    ensures broken { IsTrue (V.state files.old).tells → IfOk result
        (λ r. IfErr r (λ bad. first_broken (V.state files.old).files ≡ Some (bad.rule, bad.place))) }
    ensures formed { IfOk result (λ r. OnOk r (IsFormed catalog.new)) }
    ensures size { IfOk result (λ r. OnOk r (HasCatalogSize (V.state files.old).files)) }
    ensures known { IfOk result (λ r. OnOk r (first 32 (is_stranger (V.state files.old).files) ≡ None)) }
    ensures matched { IfOk result (λ r. OnOk r (first 16
        (breaks_files (V.state files.old).files catalog.new.relations (indexes_in catalog.new.indexes)) ≡ None)) }
    ensures reads { V.reads files.new ≤ V.reads files.old + 99 }
    ensures frame { OnlyReads V.state V.lent V.reads V.faults files.old files.new result }
{
    match first_stranger(files) {
        Some(place) => return Ok(Err(BadCatalog { rule: 14, place })),
        None => {},
    }
    match read_catalog(files, catalog)? {
        Ok(()) => {}
        Err(bad) => return Ok(Err(bad)),
    }
    match first_unmatched(files, &catalog.relations, &catalog.indexes) {
        Some(place) => Ok(Err(BadCatalog { rule: 18, place })),
        None => Ok(Ok(())),
    }
}

// The catalog by itself: rules 15 to 17.
fn read_catalog<V: Files>(
    files: &mut V,
    catalog: &mut Catalog,
) -> Result<Result<(), BadCatalog>, Failed>
    ensures catalog { IsTrue (V.state files.old).tells → IfOk result
        (λ r. OnOk r (catalog_slots catalog.new ≡ catalog_in (V.state files.old).files)) }
    ensures sound { IsTrue (V.state files.old).tells → IfOk result
        (λ r. OnOk r (broken_catalog (catalog_bytes_in (V.state files.old).files) ≡ None)) }
    ensures broken { IsTrue (V.state files.old).tells → IfOk result
        (λ r. IfErr r (λ bad. broken_catalog (catalog_bytes_in (V.state files.old).files) ≡ Some (bad.rule, bad.place))) }
    ensures formed { IfOk result (λ r. OnOk r (IsFormed catalog.new)) }
    ensures size { IfOk result (λ r. OnOk r (HasCatalogSize (V.state files.old).files)) }
    ensures reads { V.reads files.new ≤ V.reads files.old + 99 }
    ensures frame { OnlyReads V.state V.lent V.reads V.faults files.old files.new result }
{
    match files.find(catalog_file()) {
        Some(cat) => read_file(files, cat, catalog),
        None => {
            catalog.clear();
            Ok(Ok(()))
        }
    }
}

fn read_file<V: Files>(
    files: &mut V,
    cat: FileId,
    catalog: &mut Catalog,
) -> Result<Result<(), BadCatalog>, Failed>
    requires { IsLive (V.state files.old).files cat }
    ensures catalog { IsTrue (V.state files.old).tells → IfOk result
        (λ r. OnOk r (catalog_slots catalog.new ≡ catalog_of (bytes_at (V.state files.old).files cat))) }
    ensures sound { IsTrue (V.state files.old).tells → IfOk result
        (λ r. OnOk r (broken_catalog (bytes_at (V.state files.old).files cat) ≡ None)) }
    ensures broken { IsTrue (V.state files.old).tells → IfOk result
        (λ r. IfErr r (λ bad. broken_catalog (bytes_at (V.state files.old).files cat) ≡ Some (bad.rule, bad.place))) }
    ensures formed { IfOk result (λ r. OnOk r (IsFormed catalog.new)) }
    ensures size { IfOk result (λ r. OnOk r (IsCatalogSize (size_at (V.state files.old).files cat))) }
    ensures reads { V.reads files.new ≤ V.reads files.old + 99 }
    ensures frame { OnlyReads V.state V.lent V.reads V.faults files.old files.new result }
{
    let version = match read_version(files, cat)? {
        Some(version) => version,
        None => return Ok(Err(BadCatalog { rule: 15, place: 0 })),
    };
    if files.size(cat) == 0 {
        catalog.clear();
        return Ok(Ok(()));
    }
    catalog.version = version;
    match load_relations(files, cat, version, &mut catalog.relations)? {
        Ok(()) => {}
        Err(place) => return Ok(Err(BadCatalog { rule: 16, place })),
    }
    match load_indexes(files, cat, &catalog.relations)? {
        Ok(indexes) => catalog.indexes = indexes,
        Err(place) => return Ok(Err(BadCatalog { rule: 17, place })),
    }
    Ok(Ok(()))
}

// The version, None where the file has no catalog's size or not the mark of its version.
fn read_version<V: Files>(files: &mut V, cat: FileId) -> Result<Option<u8>, Failed>
    requires { IsLive (V.state files.old).files cat }
    ensures version { IsTrue (V.state files.old).tells → IfOk result
        (λ version. version ≡ version_in (bytes_at (V.state files.old).files cat)) }
    ensures number { IfOk result (λ version. IfSome version (λ n. (n ≡ 1) ⊎ (n ≡ 2))) }
    ensures size { IfOk result
        (λ version. IfSome version (λ _. IsCatalogSize (length (bytes_at (V.state files.old).files cat)))) }
    ensures reads { V.reads files.new ≤ V.reads files.old + 3 }
    ensures frame { OnlyReads V.state V.lent V.reads V.faults files.old files.new result }
{
    match files.size(cat) {
        0 => Ok(Some(2)),
        SIZE_OF_VERSION_1 => Ok(Some(1)),
        SIZE_OF_VERSION_2 => {
            let mut mark = [0u8; 8];
            files.read(cat, SIZE_OF_VERSION_1, &mut mark)?;
            Ok((mark == VERSION_MARK).then_some(2))
        },
        _ => Ok(None),
    }
}

// The first slot whose file is there but should not be, or the other way round: a relation slot and its
// rows, or, 8 more, an index slot and its tree.
fn first_unmatched<V: Files>(
    files: &V,
    relations: &[Option<Schema>],
    indexes: &[Option<IndexEntry>],
) -> Option<u16>
    ensures { let table = (V.state files.now).files in
        result ≡ first 16 (breaks_files table relations.now (indexes_in indexes.now)) }
{
    for k in 0..16 {
        if is_unmatched(files, relations, indexes, k) {
            return Some(k);
        }
    }
    None
}

#[tactic(auto, unfolding(crate::specs::Rules::breaks_files))]
fn is_unmatched<V: Files>(
    files: &V,
    relations: &[Option<Schema>],
    indexes: &[Option<IndexEntry>],
    k: u16,
) -> bool
    requires { k < 16 }
    ensures { result ≡ breaks_files (V.state files.now).files relations.now (indexes_in indexes.now) k }
{
    if let Some(id) = RelationId::new(k) {
        return is_there(files, rows_file(id)) != is_used(relations, k);
    }
    match IndexId::new(k - 8) {
        Some(id) => is_there(files, tree_file(id)) != has_tree(indexes, k - 8),
        None => false,
    }
}

// Whether the relation slot is used.
fn is_used(relations: &[Option<Schema>], slot: u16) -> bool
    ensures { result ≡ is_some (get_or relations.now slot None) }
{
    matches!(relations.get(slot as usize), Some(Some(_)))
}

// Whether the index slot has an index with a tree.
fn has_tree(indexes: &[Option<IndexEntry>], slot: u16) -> bool
    ensures { result ≡ is_tree (get_or (indexes_in indexes.now) slot None) }
{
    match indexes.get(slot as usize) {
        Some(Some(entry)) => entry.kind == IndexKind::MaxHeap,
        _ => false,
    }
}
