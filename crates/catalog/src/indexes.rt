ghost use Rattle.std.specs.Prelude.{◌≡◌, ◌<◌, ◌≤◌, ◌+◌, ◌*◌, Some, None, IfErr, IfNone, IfOk, IfSome, IsFalse, IsTrue, OnOk, get_or, length, option_map, slice_range, true};
ghost use Rattle.afl_base.specs.Keeping.{OnlyReads};
ghost use Rattle.std.specs.List.{list_any, slice_get};
ghost use Rattle.afl_base.specs.Files.{IsLive, bytes_at};
ghost use Rattle.db_model.specs.Catalog.{catalog_of, index_slot_of};
ghost use Rattle.db_model.specs.Step.{allows};
ghost use Rattle.catalog.specs.CatalogFile.{index_in, indexes_in};
ghost use Rattle.catalog.specs.Formed.{AreBehind};
ghost use Rattle.catalog.specs.Rules.{allows_at, breaks_index, first, how_many, is_behind, is_index_behind, is_same_place, is_table, is_surplus_table, sound_index, stands_on};

use crate::decode::read_index;
use crate::types::IndexEntry;
use afl_base::{Failed, FileId, Files};
use db_model::{Attribute, Domain, IndexKind, MOST_TABLES, Schema};

/// The index slots, or the first that is not of the catalog's form, stands on no attribute that its kind
/// allows, on one with an index before it, or is a hash table for which there is no memory.
pub fn load_indexes<V: Files>(
    files: &mut V,
    cat: FileId,
    relations: &[Option<Schema>],
) -> Result<Result<[Option<IndexEntry>; 8], u16>, Failed>
    requires live { IsLive (V.state files.old).files cat }
    requires size { 1472 ≤ length (bytes_at (V.state files.old).files cat) }
    requires relations { IsTrue (V.state files.old).tells → relations.now
        ≡ (catalog_of (bytes_at (V.state files.old).files cat)).relations }
    ensures indexes { IsTrue (V.state files.old).tells → IfOk result
        (λ r. IfOk r (λ indexes. indexes_in indexes ≡ (catalog_of (bytes_at (V.state files.old).files cat)).indexes)) }
    ensures eight { IfOk result (λ r. IfOk r (λ indexes. length indexes ≡ 8)) }
    ensures behind { IfOk result (λ r. IfOk r (λ indexes. AreBehind relations.now (indexes_in indexes))) }
    ensures sound { IsTrue (V.state files.old).tells → IfOk result
        (λ r. OnOk r (first 8 (breaks_index (bytes_at (V.state files.old).files cat)) ≡ None)) }
    ensures broken { IsTrue (V.state files.old).tells → IfOk result
        (λ r. IfErr r (λ slot. first 8 (breaks_index (bytes_at (V.state files.old).files cat)) ≡ Some slot)) }
    ensures reads { V.reads files.new ≤ V.reads files.old + 24 }
    ensures frame { OnlyReads V.state V.lent V.reads V.faults files.old files.new result }
{
    let mut indexes = [None; 8];
    for slot in 0..8u16 {
        match load_index(files, cat, slot, relations, &indexes[..slot as usize])? {
            Some(index) => indexes[slot as usize] = index,
            None => return Ok(Err(slot)),
        }
    }
    Ok(Ok(indexes))
}

// What an index slot holds, None where it breaks the rule. `before` has the indexes of the slots before
// it.
fn load_index<V: Files>(
    files: &mut V,
    cat: FileId,
    slot: u16,
    relations: &[Option<Schema>],
    before: &[Option<IndexEntry>],
) -> Result<Option<Option<IndexEntry>>, Failed>
    requires live { IsLive (V.state files.old).files cat }
    requires size { 1472 ≤ length (bytes_at (V.state files.old).files cat) }
    requires slot { slot < 8 }
    ensures index { IsTrue (V.state files.old).tells → IfOk result
        (λ r. option_map (option_map index_in) r ≡ sound_index
        (slice_range (bytes_at (V.state files.old).files cat) (1408 + 8 * slot) (1408 + 8 * slot + 8))
        relations.now (indexes_in before.now)) }
    ensures behind { IfOk result (λ r. IfSome r (λ index.
        is_behind relations.now (indexes_in before.now) (option_map index_in index) ≡ true)) }
    ensures reads { V.reads files.new ≤ V.reads files.old + 3 }
    ensures frame { OnlyReads V.state V.lent V.reads V.faults files.old files.new result }
{
    let mut bytes = [0u8; 8];
    files.read(cat, 1408 + 8 * u32::from(slot), &mut bytes)?;
    Ok(sound_index(&bytes, relations, before))
}

// What a slot holds, None where it breaks the rule.
fn sound_index(
    slot: &[u8],
    relations: &[Option<Schema>],
    before: &[Option<IndexEntry>],
) -> Option<Option<IndexEntry>>
    requires { length slot.now ≡ 8 }
    ensures { option_map (option_map index_in) result
        ≡ sound_index slot.now relations.now (indexes_in before.now) }
{
    let index = read_index(slot)?;
    if !is_behind(relations, before, &index) {
        return None;
    }
    Some(index)
}

// Whether the index, if there is one, may stand after those before it.
fn is_behind(
    relations: &[Option<Schema>],
    before: &[Option<IndexEntry>],
    index: &Option<IndexEntry>,
) -> bool
    ensures { result ≡ is_behind relations.now (indexes_in before.now) (option_map index_in index.now) }
{
    match index {
        Some(entry) => is_index_behind(relations, before, entry),
        None => true,
    }
}

fn is_index_behind(
    relations: &[Option<Schema>],
    before: &[Option<IndexEntry>],
    entry: &IndexEntry,
) -> bool
    ensures { result ≡ is_index_behind relations.now (indexes_in before.now) (index_in entry.now) }
{
    if !stands_on(relations, entry) {
        return false;
    }
    if is_doubled(before, entry) {
        return false;
    }
    !is_surplus_table(before, entry)
}

// Whether the index is a hash table more than there is memory for, after others.
fn is_surplus_table(before: &[Option<IndexEntry>], entry: &IndexEntry) -> bool
    ensures { result ≡ is_surplus_table (indexes_in before.now) (index_in entry.now) }
{
    is_table(&Some(*entry)) && hash_tables(before) >= usize::from(MOST_TABLES)
}

// Whether the index stands on an attribute of its relation, of a domain that its kind allows.
fn stands_on(relations: &[Option<Schema>], entry: &IndexEntry) -> bool
    ensures { result ≡ stands_on (index_in entry.now) (get_or relations.now entry.now.relation None) }
{
    match relations.get(entry.relation.number() as usize) {
        Some(Some(schema)) => allows_at(entry, schema.attributes.as_slice()),
        _ => false,
    }
}

fn allows_at(entry: &IndexEntry, attributes: &[Attribute]) -> bool
    ensures { result ≡ allows_at (index_in entry.now) attributes.now }
{
    match attributes.get(entry.attribute as usize) {
        Some(attribute) => allows(entry.kind, attribute.domain),
        None => false,
    }
}

// Whether an index of the kind may stand on an attribute of the domain.
fn allows(kind: IndexKind, domain: Domain) -> bool
    ensures { result ≡ allows kind domain }
{
    match domain {
        Domain::Int | Domain::Long => true,
        Domain::Time => kind == IndexKind::Inline,
        Domain::Str(_) => false,
    }
}

// Whether one of the indexes is on the attribute of this one.
fn is_doubled(indexes: &[Option<IndexEntry>], entry: &IndexEntry) -> bool
    ensures { result ≡ list_any (is_same_place (index_in entry.now)) (indexes_in indexes.now) }
{
    for index in indexes {
        if is_same_place(index, entry) {
            return true;
        }
    }
    false
}

fn is_same_place(index: &Option<IndexEntry>, entry: &IndexEntry) -> bool
    ensures { result ≡ is_same_place (index_in entry.now) (option_map index_in index.now) }
{
    match index {
        Some(other) => other.relation.number() == entry.relation.number()
            && other.attribute == entry.attribute,
        None => false,
    }
}

// How many of the indexes are hash tables.
fn hash_tables(indexes: &[Option<IndexEntry>]) -> usize
    ensures { result ≡ how_many is_table (indexes_in indexes.now) }
{
    let mut tables = 0;
    for index in indexes {
        if is_table(index) {
            tables += 1;
        }
    }
    tables
}

fn is_table(index: &Option<IndexEntry>) -> bool
    ensures { result ≡ is_table (option_map index_in index.now) }
{
    match index {
        Some(entry) => entry.kind == IndexKind::MemHash,
        None => false,
    }
}
