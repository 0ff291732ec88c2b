ghost use Rattle.std.specs.Prelude.{◌≡◌, ◌<◌, IsTrue};
ghost use Rattle.afl_base.specs.Files.{is_live};
ghost use Rattle.afl_base.specs.Names.{is_file_name};
ghost use Rattle.space_model.specs.FileNames.{catalog_file, is_there, rows_file, tree_file};
ghost use Rattle.catalog.specs.Rules.{first, is_numbered, is_of_database, is_stranger};

use afl_base::{FileId, Files, IndexId, Kind, Name, RelationId};

/// The name of the catalog's file.
pub fn catalog_file() -> Name
    ensures { result ≡ catalog_file }
{
    name_of(b"CAT")
}

/// The name of the file that has the rows of a relation.
pub fn rows_file(id: RelationId) -> Name
    ensures { result ≡ rows_file id }
{
    name_of(&[b'T', b'0' + id.number() as u8])
}

/// The name of the file that has the hash tree of an index.
pub fn tree_file(id: IndexId) -> Name
    ensures { result ≡ tree_file id }
{
    name_of(&[b'X', b'0' + id.number() as u8])
}

fn name_of(bytes: &[u8]) -> Name
    requires { IsTrue (is_file_name bytes.now) }
    ensures { result ≡ bytes.now }
{
    match Name::new(bytes) {
        Some(name) => name,
        None => unreachable!(),
    }
}

/// The first file that no database has.
pub fn first_stranger<V: Files>(files: &V) -> Option<u16>
    ensures { result ≡ first 32 (is_stranger (V.state files.now).files) }
{
    for k in 0..32 {
        if is_stranger(files, k) {
            return Some(k);
        }
    }
    None
}

// Whether a file is at this place of the table, and no database has such a file.
fn is_stranger<V: Files>(files: &V, k: u16) -> bool
    requires { k < 32 }
    ensures { result ≡ is_stranger (V.state files.now).files k }
{
    match FileId::new(k) {
        Some(id) => files.live(id) && !is_of_database(files.name(id).bytes(), files.kind(id)),
        None => false,
    }
}

fn is_of_database(name: &[u8], kind: Kind) -> bool
    ensures { result ≡ is_of_database name.now kind }
{
    match kind {
        Kind::Doubling => is_numbered(name),
        Kind::Fixed(pages) => pages == 6 && name == b"CAT".as_slice(),
    }
}

// T0 to T7 and X0 to X7.
fn is_numbered(name: &[u8]) -> bool
    ensures { result ≡ is_numbered name.now }
{
    match name {
        [letter, digit] => (*letter == b'T' || *letter == b'X') && (b'0'..=b'7').contains(digit),
        _ => false,
    }
}

// Whether there is a file of the name.
pub fn is_there<V: Files>(files: &V, name: Name) -> bool
    ensures { result ≡ is_there name (V.state files.now).files }
{
    files.find(name).is_some()
}
