ghost use Rattle.std.specs.Prelude.{◌≡◌, ◌+◌, ◌*◌, ◌≤◌, ℕ, IfOk, IsTrue, OnOk, None};
ghost use Rattle.afl_base.specs.Files.{IsKind, IsLive, file_at, size_at};
ghost use Rattle.afl_base.specs.declared.kind.Kind.TheVariants.{Fixed};

use crate::places::is_free;
use afl_base::{FileError, FileId, Files, Kind, Name};

/// A new file, where its name and a place for it are free.
pub fn created<V: Files>(files: &mut V, name: Name, kind: Kind) -> Result<FileId, FileError>
    requires idle { (V.state files.old).draft ≡ None }
    requires kind { IsKind kind }
    ensures live { IfOk result (λ id. IsLive (V.state files.new).files id) }
    ensures kind { IfOk result (λ id. (file_at (V.state files.new).files id).kind ≡ kind) }
    ensures empty { IfOk result (λ id. size_at (V.state files.new).files id ≡ 0) }
    ensures idle { OnOk result ((V.state files.new).draft ≡ None) }
{
    if !is_free(files, name) {
        return Err(FileError::Failed);
    }
    files.create(name, kind)
}

/// A new file of the name that these bytes are.
pub fn new_file<V: Files>(files: &mut V, name: &[u8], kind: Kind) -> Result<FileId, FileError>
    requires idle { (V.state files.old).draft ≡ None }
    requires kind { IsKind kind }
    ensures idle { OnOk result ((V.state files.new).draft ≡ None) }
{
    match Name::new(name) {
        Some(name) => created(files, name, kind),
        None => Err(FileError::Failed),
    }
}

// Whether a file of this kind and size may have this many bytes more.
fn holds_more(kind: Kind, size: u32, bytes: u32) -> bool
    ensures few { IsTrue result → bytes ≤ 4096 }
    ensures most { IsTrue result → size + bytes ≤ 4194304 }
    ensures fixed { (n : ℕ) → IsTrue result → kind ≡ Fixed n → size + bytes + 32 ≤ 256 * n }
{
    if bytes > 4096 || size > 4_190_208 {
        return false;
    }
    match kind {
        Kind::Doubling => true,
        Kind::Fixed(pages) => size + bytes + 32 <= 256 * u32::from(pages),
    }
}

/// Prepares for bytes and appends them, where the file is live and may have them.
pub fn appended<V: Files>(files: &mut V, id: FileId, bytes: &[u8]) -> Result<(), FileError>
    requires idle { (V.state files.old).draft ≡ None }
    ensures idle { OnOk result ((V.state files.new).draft ≡ None) }
{
    if !files.live(id) || bytes.is_empty() || bytes.len() > 4096 || bytes[bytes.len() - 1] == 0 {
        return Err(FileError::Failed);
    }
    if !holds_more(files.kind(id), files.size(id), bytes.len() as u32) {
        return Err(FileError::Failed);
    }
    files.prepare(id, 0, bytes.len() as u32)?;
    files.append(id, bytes)?;
    Ok(())
}

/// The size of a file, 0 of none.
pub fn size_of<V: Files>(files: &V, id: FileId) -> u32 {
    if files.live(id) { files.size(id) } else { 0 }
}

/// Reads bytes of a file, where it has them.
pub fn read_from<V: Files>(
    files: &mut V,
    id: FileId,
    at: u32,
    into: &mut [u8],
) -> Result<(), FileError>
    requires idle { (V.state files.old).draft ≡ None }
    ensures idle { OnOk result ((V.state files.new).draft ≡ None) }
{
    if !files.live(id) || into.len() > 4096 || at > 4_190_208 {
        return Err(FileError::Failed);
    }
    if at + into.len() as u32 > files.size(id) {
        return Err(FileError::Failed);
    }
    files.read(id, at, into)?;
    Ok(())
}
