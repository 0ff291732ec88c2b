//! What a session keeps of files, from the catalog that was read of them.

#![tactic(auto)]

ghost use Rattle.std.specs.Prelude.{◌≡◌, ◌<◌, ℕ, true, None, get_or, is_some, length, option_map, replicate, take};
ghost use Rattle.afl_base.specs.Files.{IsNamed};
ghost use Rattle.catalog.specs.CatalogFile.{index_in as index_of_entry, indexes_in};
ghost use Rattle.catalog.specs.Catalogs.{catalog_slots};
ghost use Rattle.catalog.specs.Formed.{HasCatalogSize, IsFormed};
ghost use Rattle.catalog.specs.Rules.{breaks_files, first, is_stranger, is_table, is_tree};
ghost use Rattle.db_model.specs.declared.schemas.IndexKind.TheVariants.{MaxHeap as OfHeap};
ghost use Rattle.index_set.specs.Plans.{access_kind};
ghost use Rattle.space_model.specs.FileNames.{is_there, rows_file, tree_file};
ghost use Rattle.session_start.specs.Found.{IsAccess, AreFilesFound, IsIndexHeld, IsRelationOf, slots_held, table_behind};

use afl_base::{FileId, Files, IndexId, Name, RelationId};
use catalog::{Catalog, IndexEntry, catalog_file, rows_file, tree_file};
use db_model::{Attributes, IndexKind, Schema};
use index_set::{Access, TableId};
use session_model::{Held, Indexed};
use tuple_file::Tuples;

/// Holds nothing: no relation and no index.
pub fn nothing_held() -> Held
    ensures relations { result.relations ≡ replicate 8 None }
    ensures indexes { result.indexes ≡ replicate 8 None }
{
    Held {
        version: 0,
        cat: None,
        relations: [None, None, None, None, None, None, None, None],
        indexes: [None; 8],
    }
}

/// Holds of files what a catalog has: each relation and each tree with its file.
pub fn hold<V: Files>(files: &V, catalog: &Catalog, held: &mut Held)
    requires formed { IsFormed catalog.now }
    requires size { HasCatalogSize (V.state files.now).files }
    requires known { first 32 (is_stranger (V.state files.now).files) ≡ None }
    requires matched { first 16 (breaks_files (V.state files.now).files catalog.now.relations
        (indexes_in catalog.now.indexes)) ≡ None }
    ensures found { AreFilesFound (V.state files.now) held.new }
    ensures catalog { slots_held held.new ≡ catalog_slots catalog.now }
{
    // A look at any place tells that there are 32, and that names are distinct.
    let _first_is_live = files.live(FileId::default());
    held.version = catalog.version;
    held.cat = files.find(catalog_file());
    hold_relations(files, &catalog.relations, &mut held.relations);
    held.indexes = hold_indexes(files, &catalog.indexes);
}

fn hold_relations<V: Files>(
    files: &V,
    schemas: &[Option<Schema>; 8],
    relations: &mut [Option<Tuples>; 8],
)
    requires matched { (k : ℕ) → k < 8
        → is_there (rows_file k) (V.state files.now).files ≡ is_some (get_or schemas.now k None) }
    ensures eight { length relations.new ≡ 8 }
    ensures relations { (k : ℕ) → k < 8
        → IsRelationOf (V.state files.now).files k (get_or schemas.now k None) (get_or relations.new k None) }
{
    for slot in 0..8u16 {
        relations[slot as usize] = hold_relation(files, slot, &schemas[slot as usize]);
    }
}

fn hold_relation<V: Files>(files: &V, slot: u16, schema: &Option<Schema>) -> Option<Tuples>
    requires slot { slot < 8 }
    requires matched { is_there (rows_file slot) (V.state files.now).files ≡ is_some schema.now }
    ensures relation { IsRelationOf (V.state files.now).files slot schema.now result }
{
    match schema {
        None => None,
        Some(schema) => Some(Tuples {
            file: file_of(files, rows_file(relation_id(slot))),
            schema: copy_of(schema),
        }),
    }
}

fn hold_indexes<V: Files>(files: &V, entries: &[Option<IndexEntry>; 8]) -> [Option<Indexed>; 8]
    requires matched { (i : ℕ) → i < 8
        → is_there (tree_file i) (V.state files.now).files
        ≡ is_tree (get_or (indexes_in entries.now) i None) }
    ensures eight { length result ≡ 8 }
    ensures indexes { (i : ℕ) → i < 8
        → IsIndexHeld (V.state files.now).files (take i (indexes_in entries.now)) i
        (get_or (indexes_in entries.now) i None) (get_or result i None) }
{
    let mut indexes = [None; 8];
    for slot in 0..8u16 {
        let place = slot as usize;
        indexes[place] = hold_index(files, slot, &entries[place], &entries[..place]);
    }
    indexes
}

// `before` has the entries of the slots before this one.
fn hold_index<V: Files>(
    files: &V,
    slot: u16,
    entry: &Option<IndexEntry>,
    before: &[Option<IndexEntry>],
) -> Option<Indexed>
    requires slot { slot < 8 }
    requires matched { is_there (tree_file slot) (V.state files.now).files
        ≡ is_tree (option_map index_of_entry entry.now) }
    ensures index { IsIndexHeld (V.state files.now).files (indexes_in before.now) slot
        (option_map index_of_entry entry.now) result }
{
    match entry {
        None => None,
        Some(entry) => Some(Indexed {
            relation: entry.relation,
            attribute: entry.attribute,
            access: access_of(files, slot, entry.kind, before),
        }),
    }
}

// By what an index of the kind finds its keys.
fn access_of<V: Files>(
    files: &V,
    slot: u16,
    kind: IndexKind,
    before: &[Option<IndexEntry>],
) -> Access
    requires slot { slot < 8 }
    requires tree { kind ≡ OfHeap → is_there (tree_file slot) (V.state files.now).files ≡ true }
    ensures kind { access_kind result ≡ kind }
    ensures access { IsAccess (V.state files.now).files (indexes_in before.now) slot result }
{
    match kind {
        IndexKind::Inline => Access::Order,
        IndexKind::MaxHeap => Access::Tree(file_of(files, tree_file(index_id(slot)))),
        IndexKind::MemHash => Access::Table(table_behind(before)),
    }
}

// The table of an index after some others.
fn table_behind(before: &[Option<IndexEntry>]) -> TableId
    ensures { result ≡ table_behind (indexes_in before.now) }
{
    for index in before {
        if is_table(index) {
            return TableId::Second;
        }
    }
    TableId::First
}

fn is_table(index: &Option<IndexEntry>) -> bool
    ensures { result ≡ is_table (option_map index_of_entry index.now) }
{
    match index {
        Some(entry) => entry.kind == IndexKind::MemHash,
        None => false,
    }
}

fn file_of<V: Files>(files: &V, name: Name) -> FileId
    requires there { is_there name (V.state files.now).files ≡ true }
    ensures named { IsNamed (V.state files.now).files result name }
{
    match files.find(name) {
        Some(id) => id,
        None => unreachable!(),
    }
}

fn relation_id(slot: u16) -> RelationId
    requires { slot < 8 }
    ensures { result ≡ slot }
{
    match RelationId::new(slot) {
        Some(id) => id,
        None => unreachable!(),
    }
}

fn index_id(slot: u16) -> IndexId
    requires { slot < 8 }
    ensures { result ≡ slot }
{
    match IndexId::new(slot) {
        Some(id) => id,
        None => unreachable!(),
    }
}

fn copy_of(schema: &Schema) -> Schema
    ensures { result ≡ schema.now }
{
    let mut attributes = Attributes::new();
    for attribute in schema.attributes.as_slice() {
        attributes.push(*attribute);
    }
    Schema {
        name: schema.name,
        attributes,
    }
}
