ghost use Rattle.std.specs.Prelude.{◌≡◌, ◌⊎◌, IsTrue, OnOk, None};
ghost use Rattle.afl_base.specs.Files.{IsLive, file_at, size_at};
ghost use Rattle.afl_base.specs.declared.kind.Kind.TheVariants.{Fixed};

use afl_base::{FileError, FileId, Files, IndexId, Kind, RelationId};
use afl_sim::PlainFiles;
use catalog::{
    BadCatalog, Catalog, IndexEntry, catalog_file, clear_relation, load, put_index, put_relation,
    room_for, rows_file,
};
use db_model::{Attribute, Attributes, Domain, Ident, IndexKind, Schema};
use test_steps::{appended, created, new_file, read_from, size_of};

// Whether a file is one of 6 pages, empty or as long as a catalog.
fn is_catalog<V: Files>(files: &V, cat: FileId) -> bool
    ensures live { IsTrue result → IsLive (V.state files.now).files cat }
    ensures kind { IsTrue result → (file_at (V.state files.now).files cat).kind ≡ Fixed 6 }
    ensures size { IsTrue result → (size_at (V.state files.now).files cat ≡ 0)
        ⊎ (size_at (V.state files.now).files cat ≡ 1472) ⊎ (size_at (V.state files.now).files cat ≡ 1480) }
{
    if !files.live(cat) || files.kind(cat) != Kind::Fixed(6) {
        return false;
    }
    match files.size(cat) {
        0 => true,
        1472 => true,
        1480 => true,
        _ => false,
    }
}

// Prepares and puts a relation, where the file is a catalog.
fn put<V: Files>(files: &mut V, cat: FileId, number: u16, schema: &Schema) -> Result<(), FileError>
    requires idle { (V.state files.old).draft ≡ None }
    ensures idle { OnOk result ((V.state files.new).draft ≡ None) }
{
    let Some(id) = RelationId::new(number) else {
        return Err(FileError::Failed);
    };
    if !is_catalog(files, cat) {
        return Err(FileError::Failed);
    }
    let (overwrites, bytes) = room_for(files.size(cat), 176 * u32::from(id.number()), 176);
    files.prepare(cat, overwrites, bytes)?;
    put_relation(files, cat, id, schema)?;
    Ok(())
}

// A schema with an attribute v for each of the first 8 domains.
fn schema(name: &[u8], domains: &[Domain]) -> Schema {
    let mut attributes = Attributes::new();
    for domain in domains {
        let at = attributes.len();
        if at < 8 {
            attributes.push(Attribute {
                name: Ident::new(&[b'v', b'0' + at as u8]).unwrap_or_default(),
                domain: *domain,
            });
        }
    }
    Schema {
        name: Ident::new(name).unwrap_or_default(),
        attributes,
    }
}

// An empty file for a catalog.
fn new_catalog<V: Files>(files: &mut V) -> Result<FileId, FileError>
    requires idle { (V.state files.old).draft ≡ None }
    ensures idle { OnOk result ((V.state files.new).draft ≡ None) }
{
    created(files, catalog_file(), Kind::Fixed(6))
}

// An empty file for the rows of a relation.
fn new_rows<V: Files>(files: &mut V, number: u16) -> Result<FileId, FileError>
    requires idle { (V.state files.old).draft ≡ None }
    ensures idle { OnOk result ((V.state files.new).draft ≡ None) }
{
    match RelationId::new(number) {
        Some(id) => created(files, rows_file(id), Kind::Doubling),
        None => Err(FileError::Failed),
    }
}

// The first rule that the files break.
fn broken<V: Files>(files: &mut V) -> Result<Option<BadCatalog>, FileError>
    requires idle { (V.state files.old).draft ≡ None }
    ensures idle { OnOk result ((V.state files.new).draft ≡ None) }
{
    match load(files, &mut Catalog::empty())? {
        Ok(()) => Ok(None),
        Err(bad) => Ok(Some(bad)),
    }
}

// Whether a catalog has this relation in a slot, with this many attributes.
fn has_relation(catalog: &Catalog, slot: usize, name: &[u8], attributes: usize) -> bool {
    if slot >= 8 {
        return false;
    }
    match &catalog.relations[slot] {
        Some(schema) => schema.name.bytes() == name
            && schema.attributes.as_slice().len() == attributes,
        None => false,
    }
}

fn is_first_of_version_2<V: Files>(files: &mut V) -> Result<bool, FileError>
    requires idle { (V.state files.old).draft ≡ None }
{
    let cat = new_catalog(files)?;
    put(files, cat, 0, &schema(b"n", &[Domain::Int, Domain::Time]))?;
    if size_of(files, cat) != 1480 {
        return Ok(false);
    }
    let mut end = [0; 9];
    read_from(files, cat, 1471, &mut end)?;
    if end != [1, 2, 0, 0, 0, 0, 0, 0, 1] {
        return Ok(false);
    }
    Ok(broken(files)? == Some(BadCatalog { rule: 18, place: 0 }))
}

#[test]
fn a_first_relation_makes_a_catalog_of_version_2(rt: HostRuntime) {
    let mut files: PlainFiles<4064> = PlainFiles::new();
    assert!(rt; is_first_of_version_2(&mut files) == Ok(true));
}

// A catalog of version 1 with the relation n, whose one attribute v is an INT.
fn version_1() -> [u8; 1472] {
    let mut bytes = [0; 1472];
    for slot in 0..8 {
        bytes[176 * slot + 175] = 1;
        bytes[1415 + 8 * slot] = 1;
    }
    bytes[0] = b'n';
    bytes[16] = b'v';
    bytes[32] = 1;
    bytes[160] = 1;
    bytes
}

// The file of a catalog of version 1.
fn old_catalog<V: Files>(files: &mut V) -> Result<FileId, FileError>
    requires idle { (V.state files.old).draft ≡ None }
    ensures idle { OnOk result ((V.state files.new).draft ≡ None) }
{
    let cat = new_catalog(files)?;
    appended(files, cat, &version_1())?;
    Ok(cat)
}

fn opens_version_1<V: Files>(files: &mut V) -> Result<bool, FileError>
    requires idle { (V.state files.old).draft ≡ None }
{
    old_catalog(files)?;
    new_file(files, b"T0", Kind::Doubling)?;
    let mut catalog = Catalog::empty();
    match load(files, &mut catalog)? {
        Ok(()) => Ok(catalog.version == 1 && has_relation(&catalog, 0, b"n", 1)),
        Err(_) => Ok(false),
    }
}

#[test]
fn a_catalog_of_version_1_opens(rt: HostRuntime) {
    let mut files: PlainFiles<4064> = PlainFiles::new();
    assert!(rt; opens_version_1(&mut files) == Ok(true));
}

// Whether bytes are those of version 1 but for slot 1 and for the mark of version 2 after them.
fn is_changed(whole: &[u8; 1480]) -> bool {
    let bytes = version_1();
    if whole[0..176] != bytes[0..176] || &whole[176..178] != b"m\0".as_slice() {
        return false;
    }
    whole[352..1472] == bytes[352..1472]
        && &whole[1472..1480] == [2, 0, 0, 0, 0, 0, 0, 1].as_slice()
}

fn changes_version_1<V: Files>(files: &mut V) -> Result<bool, FileError>
    requires idle { (V.state files.old).draft ≡ None }
{
    let cat = old_catalog(files)?;
    put(files, cat, 1, &schema(b"m", &[Domain::Str(3)]))?;
    let mut whole = [0; 1480];
    read_from(files, cat, 0, &mut whole)?;
    Ok(is_changed(&whole))
}

#[test]
fn a_change_makes_version_2_of_version_1(rt: HostRuntime) {
    let mut files: PlainFiles<4064> = PlainFiles::new();
    assert!(rt; changes_version_1(&mut files) == Ok(true));
}

// Puts relations of the names a to h and of 8 attributes into slots 0 to 7, with files for their rows.
fn put_eight<V: Files>(files: &mut V) -> Result<(), FileError>
    requires idle { (V.state files.old).draft ≡ None }
    ensures idle { OnOk result ((V.state files.new).draft ≡ None) }
{
    let cat = new_catalog(files)?;
    for k in 0..8u8 {
        let relation = schema(&[b'a' + k], &[Domain::Str(15); 8]);
        put(files, cat, u16::from(k), &relation)?;
        new_rows(files, u16::from(k))?;
    }
    Ok(())
}

fn has_eight(catalog: &Catalog) -> bool {
    for k in 0..8u8 {
        if !has_relation(catalog, usize::from(k), &[b'a' + k], 8) {
            return false;
        }
    }
    true
}

fn reads_eight<V: Files>(files: &mut V) -> Result<bool, FileError>
    requires idle { (V.state files.old).draft ≡ None }
{
    put_eight(files)?;
    let mut catalog = Catalog::empty();
    match load(files, &mut catalog)? {
        Ok(()) => Ok(has_eight(&catalog)),
        Err(_) => Ok(false),
    }
}

#[test]
fn eight_relations_of_eight_attributes_are_read_back(rt: HostRuntime) {
    let mut files: PlainFiles<4064> = PlainFiles::new();
    assert!(rt; reads_eight(&mut files) == Ok(true));
}

// Puts an index on the first attribute of the first relation.
fn put_first_index<V: Files>(files: &mut V, cat: FileId) -> Result<(), FileError>
    requires idle { (V.state files.old).draft ≡ None }
    ensures idle { OnOk result ((V.state files.new).draft ≡ None) }
{
    if !is_catalog(files, cat) || files.size(cat) != 1480 {
        return Err(FileError::Failed);
    }
    let entry = IndexEntry {
        kind: IndexKind::Inline,
        relation: RelationId::default(),
        attribute: 0,
    };
    files.prepare(cat, 3, 0)?;
    put_index(files, cat, IndexId::default(), &entry)?;
    Ok(())
}

fn clear_first<V: Files>(files: &mut V, cat: FileId) -> Result<(), FileError>
    requires idle { (V.state files.old).draft ≡ None }
    ensures idle { OnOk result ((V.state files.new).draft ≡ None) }
{
    if !is_catalog(files, cat) || files.size(cat) != 1480 {
        return Err(FileError::Failed);
    }
    files.prepare(cat, 3, 0)?;
    clear_relation(files, cat, RelationId::default())?;
    Ok(())
}

// Whether a relation without a file of rows is the first fault, and once it is cleared its index is.
fn clears<V: Files>(files: &mut V) -> Result<bool, FileError>
    requires idle { (V.state files.old).draft ≡ None }
{
    let cat = new_catalog(files)?;
    put(files, cat, 0, &schema(b"n", &[Domain::Int]))?;
    put_first_index(files, cat)?;
    if broken(files)? != Some(BadCatalog { rule: 18, place: 0 }) {
        return Ok(false);
    }
    clear_first(files, cat)?;
    Ok(broken(files)? == Some(BadCatalog { rule: 17, place: 0 }))
}

#[test]
fn what_is_cleared_is_gone(rt: HostRuntime) {
    let mut files: PlainFiles<4064> = PlainFiles::new();
    assert!(rt; clears(&mut files) == Ok(true));
}

fn finds_a_stranger<V: Files>(files: &mut V) -> Result<bool, FileError>
    requires idle { (V.state files.old).draft ≡ None }
{
    if broken(files)?.is_some() {
        return Ok(false);
    }
    let cat = new_catalog(files)?;
    appended(files, cat, &[1])?;
    if broken(files)? != Some(BadCatalog { rule: 15, place: 0 }) {
        return Ok(false);
    }
    new_file(files, b"Q0", Kind::Doubling)?;
    Ok(broken(files)? == Some(BadCatalog { rule: 14, place: 1 }))
}

#[test]
fn files_that_no_database_has_are_found_first(rt: HostRuntime) {
    let mut files: PlainFiles<4064> = PlainFiles::new();
    assert!(rt; finds_a_stranger(&mut files) == Ok(true));
}
