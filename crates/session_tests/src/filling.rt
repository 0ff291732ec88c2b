//! Files that are made without a session, and what stands in them.

ghost use Rattle.std.specs.Prelude.{◌≡◌, ◌≢◌, ◌+◌, ◌-◌, ◌*◌, ◌<◌, ◌≤◌, ℕ, None, IsSome, IsTrue, length, slice_index};
ghost use Rattle.afl_base.specs.Files.{IsKind, used};

use afl_base::{FileId, Files, Kind, Name};

// Whether the last place for a file is free.
fn has_place<V: Files>(files: &V) -> bool
    ensures place { IsTrue result → used (V.state files.now).files < 32 }
{
    match FileId::new(31) {
        Some(last) => !files.live(last),
        None => false,
    }
}

/// A new file.
pub fn new_file<V: Files>(files: &mut V, name: &[u8], kind: Kind) -> Option<FileId>
    requires idle { (V.state files.old).draft ≡ None }
    requires kind { IsKind kind }
    ensures idle { IsSome result → (V.state files.new).draft ≡ None }
{
    let name = Name::new(name)?;
    if files.find(name).is_some() || !has_place(files) {
        return None;
    }
    match files.create(name, kind) {
        Ok(id) => Some(id),
        Err(_) => None,
    }
}

// Whether a file of the kind may have this many bytes.
fn holds(kind: Kind, size: u32) -> bool
    requires { size ≤ 4194304 }
    ensures { IsTrue result → (n : ℕ) → kind ≡ Kind.Fixed n → size + 32 ≤ 256 * n }
{
    match kind {
        Kind::Doubling => true,
        Kind::Fixed(n) => size + 32 <= 256 * u32::from(n),
    }
}

// Whether bytes may be put after those of a file of this many.
fn is_tail(kind: Kind, size: u32, tail: &[u8]) -> bool
    ensures some { IsTrue result → 1 ≤ length tail.now }
    ensures few { IsTrue result → length tail.now ≤ 4096 }
    ensures most { IsTrue result → size + length tail.now ≤ 4194304 }
    ensures fixed { IsTrue result → (n : ℕ) → kind ≡ Kind.Fixed n
        → size + length tail.now + 32 ≤ 256 * n }
    ensures last { IsTrue result → slice_index tail.now (length tail.now - 1) ≢ 0 }
{
    if tail.is_empty() || 4_096 < tail.len() || 4_194_304 < size {
        return false;
    }
    if tail[tail.len() - 1] == 0 {
        return false;
    }
    let total = size + tail.len() as u32;
    total <= 4_194_304 && holds(kind, total)
}

/// Puts bytes after those of a file, and answers whether they fit.
pub fn fill<V: Files>(files: &mut V, id: FileId, bytes: &[u8]) -> bool
    requires idle { (V.state files.old).draft ≡ None }
    ensures idle { IsTrue result → (V.state files.new).draft ≡ None }
{
    if !files.live(id) || !is_tail(files.kind(id), files.size(id), bytes) {
        return false;
    }
    match files.prepare(id, 0, bytes.len() as u32) {
        Ok(()) => files.append(id, bytes).is_ok(),
        Err(_) => false,
    }
}

/// The number of bytes of the file of a name.
pub fn size_of<V: Files>(files: &V, name: &[u8]) -> Option<u32> {
    match files.find(Name::new(name)?) {
        Some(id) if files.live(id) => Some(files.size(id)),
        _ => None,
    }
}
