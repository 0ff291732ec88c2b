//! A database in files: the relation r of a LONG k, three rows of it, and an index on r.k with a tree.

ghost use Rattle.std.specs.Prelude.{◌≡◌, None, OnOk};
ghost use Rattle.afl_base.specs.Files.{IsKind};

use afl_base::{FileError, Files, Kind};
use test_steps::{appended, new_file};

/// The bytes of a catalog of version 2 without relations and indexes.
pub fn no_relation() -> [u8; 1480] {
    let mut bytes = [0; 1480];
    for slot in 0..8 {
        bytes[176 * slot + 175] = 1;
        bytes[1415 + 8 * slot] = 1;
    }
    bytes[1472] = 2;
    bytes[1479] = 1;
    bytes
}

/// The bytes of a catalog of version 2 with the relation r, which has no attributes yet.
pub fn first_relation() -> [u8; 1480] {
    let mut bytes = no_relation();
    bytes[0] = b'r';
    bytes
}

/// The bytes of a catalog of version 2 with the relation r of an attribute k. Its domain has this code: 1
/// is INT, 2 LONG, 4 TIME.
pub fn one_relation(domain: u8) -> [u8; 1480] {
    let mut bytes = no_relation();
    bytes[0] = b'r';
    bytes[16] = b'k';
    bytes[32] = domain;
    bytes[160] = 1;
    bytes
}

/// The same with six attributes, INTs, and these bytes after them. A region ends four bytes after them.
pub fn six_attributes(behind: &[u8]) -> [u8; 1480] {
    let mut bytes = no_relation();
    bytes[0] = b'r';
    for place in 0..6 {
        bytes[16 + 18 * place] = b'a' + place as u8;
        bytes[32 + 18 * place] = 1;
    }
    bytes[160] = 6;
    for (at, byte) in behind.iter().enumerate() {
        if at < 18 {
            bytes[124 + at] = *byte;
        }
    }
    bytes
}

/// The same, whose slot was being emptied: it is zero up to where a region begins.
pub fn emptied_relation() -> [u8; 1480] {
    let mut bytes = one_relation(2);
    for at in 0..128 {
        bytes[at] = 0;
    }
    bytes
}

/// The slot of a relation with seven INTs that was being emptied: it is zero up to the fifth byte of the last
/// attribute, whose name goes on so.
pub fn emptied_up_to_a_name(shown: &[u8]) -> [u8; 1480] {
    let mut bytes = no_relation();
    for (at, byte) in shown.iter().enumerate() {
        if at < 12 {
            bytes[128 + at] = *byte;
        }
    }
    bytes[140] = 1;
    bytes[160] = 7;
    bytes
}

/// The same with a MAXHEAP index on r.k in slot 0.
pub fn one_index() -> [u8; 1480] {
    let mut bytes = one_relation(2);
    bytes[1408] = 2;
    bytes
}

/// Three rows of r with the keys 7, 5 and 7.
pub const ROWS: [u8; 15] = [7, 0, 0, 0, 1, 5, 0, 0, 0, 1, 7, 0, 0, 0, 3];

/// A new file of these bytes.
pub fn put_file<V: Files>(
    files: &mut V,
    name: &[u8],
    kind: Kind,
    bytes: &[u8],
) -> Result<(), FileError>
    requires idle { (V.state files.old).draft ≡ None }
    requires kind { IsKind kind }
    ensures idle { OnOk result ((V.state files.new).draft ≡ None) }
{
    let id = new_file(files, name, kind)?;
    if bytes.is_empty() {
        return Ok(());
    }
    appended(files, id, bytes)
}

/// The file of the catalog, of the first bytes of these.
pub fn put_catalog<V: Files>(files: &mut V, bytes: &[u8], size: usize) -> Result<(), FileError>
    requires idle { (V.state files.old).draft ≡ None }
    ensures idle { OnOk result ((V.state files.new).draft ≡ None) }
{
    if size > bytes.len() {
        return Err(FileError::Failed);
    }
    put_file(files, b"CAT", Kind::Fixed(6), &bytes[..size])
}

/// A file of rows or of a tree.
pub fn put_growing<V: Files>(files: &mut V, name: &[u8], bytes: &[u8]) -> Result<(), FileError>
    requires idle { (V.state files.old).draft ≡ None }
    ensures idle { OnOk result ((V.state files.new).draft ≡ None) }
{
    put_file(files, name, Kind::Doubling, bytes)
}
