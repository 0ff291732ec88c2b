//! Calls of `Files` by name. Each asks first for the conditions of what it calls, and answers false,
//! and does nothing, where one is not met.

ghost use Rattle.std.specs.Prelude.{◌≡◌, ◌≢◌, ◌+◌, ◌-◌, ◌*◌, ◌<◌, ◌≤◌, ℕ, true, false, IfOk, IfSome, IsTrue, None, OnOk, length};
ghost use Rattle.afl_base.specs.FileErrors.{OnSpace, UnlessFailed};
ghost use Rattle.afl_base.specs.Files.{IsKind, IsLive, IsNamed, IsUnnamed, file_at, is_live, size_at, used};
ghost use Rattle.afl_base.specs.Regions.{regions};
ghost use Rattle.volume_tests.specs.Counts.{EndsWell, HasFiles, IsPreparedFor, StaysLive};

use afl_base::{Failed, FileError, FileId, Files, Kind, Name, regions};

/// The number of live files.
pub fn live_files<V: Files>(files: &V) -> u16
    requires { length (V.state files.now).files ≡ 32 }
    ensures { result ≡ used (V.state files.now).files }
{
    let mut live = 0;
    for number in 0..32u16 {
        live += u16::from(is_live(files, number));
    }
    live
}

// Whether a place of the table holds a file.
fn is_live<V: Files>(files: &V, number: u16) -> bool
    requires { number < 32 }
    ensures { result ≡ is_live (V.state files.now).files number }
{
    match FileId::new(number) {
        Some(id) => files.live(id),
        None => false,
    }
}

/// Makes an empty file.
pub fn make<V: Files>(
    files: &mut V,
    used: &mut u16,
    name: Name,
    kind: Kind,
) -> Result<bool, FileError>
    requires { HasFiles (V.state files.old) used.old }
    ensures files { UnlessFailed result (HasFiles (V.state files.new) used.new) }
    ensures same { OnSpace result (λ _. used.new ≡ used.old) }
{
    if *used >= 32 || !is_kind(kind) {
        return Ok(false);
    }
    if files.find(name).is_some() {
        return Ok(false);
    }
    files.create(name, kind)?;
    *used += 1;
    Ok(true)
}

/// Takes a file away.
pub fn erase<V: Files>(files: &mut V, used: &mut u16, name: Name) -> Result<bool, FileError>
    requires { HasFiles (V.state files.old) used.old }
    ensures files { UnlessFailed result (HasFiles (V.state files.new) used.new) }
    ensures same { OnSpace result (λ _. used.new ≡ used.old) }
{
    let Some(id) = files.find(name) else {
        return Ok(false);
    };
    files.remove(id)?;
    *used -= 1;
    Ok(true)
}

/// Puts `bytes` in the place of those from `at` on, and then `tail` after the last byte, after one
/// `prepare` for both. Either may be empty.
pub fn change<V: Files>(
    files: &mut V,
    name: Name,
    at: u32,
    bytes: &[u8],
    tail: &[u8],
) -> Result<bool, FileError>
    requires { (V.state files.old).draft ≡ None }
    ensures idle { UnlessFailed result ((V.state files.new).draft ≡ None) }
    ensures used { UnlessFailed result (used (V.state files.new).files ≡ used (V.state files.old).files) }
{
    let Some(id) = prepared(files, name, at, bytes, tail)? else {
        return Ok(false);
    };
    overwrite(files, id, at, bytes)?;
    append(files, id, tail)?;
    Ok(true)
}

/// The same, with `tail` first.
pub fn change_behind<V: Files>(
    files: &mut V,
    name: Name,
    at: u32,
    bytes: &[u8],
    tail: &[u8],
) -> Result<bool, FileError>
    requires { (V.state files.old).draft ≡ None }
    ensures idle { UnlessFailed result ((V.state files.new).draft ≡ None) }
    ensures used { UnlessFailed result (used (V.state files.new).files ≡ used (V.state files.old).files) }
{
    let Some(id) = prepared(files, name, at, bytes, tail)? else {
        return Ok(false);
    };
    append(files, id, tail)?;
    overwrite(files, id, at, bytes)?;
    Ok(true)
}

// Prepares a file for `bytes` from `at` on and `tail` after the last byte.
fn prepared<V: Files>(
    files: &mut V,
    name: Name,
    at: u32,
    bytes: &[u8],
    tail: &[u8],
) -> Result<Option<FileId>, FileError>
    requires { (V.state files.old).draft ≡ None }
    ensures ready { IfOk result (λ place.
        IfSome place (λ id. IsPreparedFor (V.state files.new) id at bytes.now tail.now)) }
    ensures idle { UnlessFailed result ((V.state files.new).draft ≡ None) }
    ensures used { UnlessFailed result (used (V.state files.new).files ≡ used (V.state files.old).files) }
{
    let Some(id) = files.find(name) else {
        return Ok(None);
    };
    let size = files.size(id);
    if !lies_below(at, bytes, size) || !is_tail(files.kind(id), size, tail) {
        return Ok(None);
    }
    files.prepare(id, regions(at, bytes.len()), tail.len() as u32)?;
    Ok(Some(id))
}

fn overwrite<V: Files>(files: &mut V, id: FileId, at: u32, bytes: &[u8]) -> Result<(), Failed>
    requires live { IsLive (V.state files.old).files id }
    requires range { at + length bytes.now ≤ size_at (V.state files.old).files id }
    requires records { regions at (length bytes.now) ≤ (file_at (V.state files.old).files id).records }
    requires last { EndsWell bytes.now }
    ensures stays { OnOk result (StaysLive (V.state files.old) (V.state files.new) id) }
    ensures room { OnOk result ((file_at (V.state files.new).files id).room
        ≡ (file_at (V.state files.old).files id).room) }
{
    if bytes.is_empty() {
        return Ok(());
    }
    files.overwrite(id, at, bytes)?;
    Ok(())
}

fn append<V: Files>(files: &mut V, id: FileId, tail: &[u8]) -> Result<(), Failed>
    requires live { IsLive (V.state files.old).files id }
    requires room { length tail.now ≤ (file_at (V.state files.old).files id).room }
    requires last { EndsWell tail.now }
    ensures stays { OnOk result (StaysLive (V.state files.old) (V.state files.new) id) }
    ensures size { OnOk result (size_at (V.state files.new).files id
        ≡ size_at (V.state files.old).files id + length tail.now) }
    ensures records { OnOk result ((file_at (V.state files.new).files id).records
        ≡ (file_at (V.state files.old).files id).records) }
{
    if tail.is_empty() {
        return Ok(());
    }
    files.append(id, tail)?;
    Ok(())
}

/// Makes `bytes` those of a file, new or not, by a draft that is written in two parts.
pub fn replace<V: Files>(
    files: &mut V,
    used: &mut u16,
    name: Name,
    bytes: &[u8],
    cut: usize,
) -> Result<bool, FileError>
    requires { HasFiles (V.state files.old) used.old }
    ensures files { UnlessFailed result (HasFiles (V.state files.new) used.new) }
    ensures same { OnSpace result (λ _. used.new ≡ used.old) }
{
    if bytes.len() < cut || 4_194_304 < bytes.len() || ends_in_zero(bytes) {
        return Ok(false);
    }
    match files.find(name) {
        Some(id) => {
            if files.kind(id) != Kind::Doubling {
                return Ok(false);
            }
            draft(files, name, bytes, cut)?;
        }
        None => {
            if *used >= 32 {
                return Ok(false);
            }
            draft(files, name, bytes, cut)?;
            *used += 1;
        }
    }
    Ok(true)
}

/// Begins a draft of this many zeros for a new file, and writes `bytes` to its front.
pub fn begin_draft<V: Files>(
    files: &mut V,
    used: u16,
    name: Name,
    size: u32,
    bytes: &[u8],
) -> Result<bool, FileError>
    requires { HasFiles (V.state files.old) used }
{
    if used >= 32 || 4_194_304 < size || (size as usize) < bytes.len() {
        return Ok(false);
    }
    if files.find(name).is_some() {
        return Ok(false);
    }
    files.draft(name, size)?;
    files.draft_write(0, bytes)?;
    Ok(true)
}

// Puts a draft of `bytes`, written in two parts, in the place of a file or beside all others.
fn draft<V: Files>(files: &mut V, name: Name, bytes: &[u8], cut: usize) -> Result<(), FileError>
    requires idle { (V.state files.old).draft ≡ None }
    requires kind { (k : ℕ) → IsNamed (V.state files.old).files k name
        → (file_at (V.state files.old).files k).kind ≡ Kind.Doubling }
    requires place { IsUnnamed (V.state files.old).files name → used (V.state files.old).files < 32 }
    requires size { length bytes.now ≤ 4194304 }
    requires cut { cut ≤ length bytes.now }
    requires last { EndsWell bytes.now }
    ensures idle { UnlessFailed result ((V.state files.new).draft ≡ None) }
    ensures replaced { OnOk result ((k : ℕ) → IsNamed (V.state files.old).files k name
        → used (V.state files.new).files ≡ used (V.state files.old).files) }
    ensures added { OnOk result (IsUnnamed (V.state files.old).files name
        → used (V.state files.new).files ≡ used (V.state files.old).files + 1) }
    ensures kept { OnSpace result (λ _. used (V.state files.new).files ≡ used (V.state files.old).files) }
{
    files.draft(name, bytes.len() as u32)?;
    files.draft_write(0, &bytes[..cut])?;
    files.draft_write(cut as u32, &bytes[cut..])?;
    files.draft_commit()?;
    Ok(())
}

/// Fills `into` with the bytes of a file from `at` on.
pub fn fetch<V: Files>(
    files: &mut V,
    name: Name,
    at: u32,
    into: &mut [u8],
) -> Result<bool, FileError>
    ensures { UnlessFailed result (V.state files.new ≡ V.state files.old) }
{
    let Some(id) = files.find(name) else {
        return Ok(false);
    };
    let size = files.size(id) as usize;
    if size < into.len() || size - into.len() < at as usize {
        return Ok(false);
    }
    files.read(id, at, into)?;
    Ok(true)
}

/// The doubling file of the name.
pub fn doubling_file<V: Files>(files: &V, name: Name) -> Option<FileId>
    ensures live { IfSome result (λ id. IsLive (V.state files.now).files id) }
    ensures kind { IfSome result (λ id. (file_at (V.state files.now).files id).kind ≡ Kind.Doubling) }
{
    let id = files.find(name)?;
    match files.kind(id) {
        Kind::Doubling => Some(id),
        Kind::Fixed(_) => None,
    }
}

/// The name, the kind and the size of the file that is found by a name and live.
pub fn look<V: Files>(files: &V, name: Name) -> Option<(Name, Kind, u32)> {
    let id = files.find(name)?;
    if !files.live(id) {
        return None;
    }
    Some((files.name(id), files.kind(id), files.size(id)))
}

// Whether a file may have the kind.
fn is_kind(kind: Kind) -> bool
    ensures { IsTrue result → IsKind kind }
{
    match kind {
        Kind::Doubling => true,
        Kind::Fixed(n) => 1 <= n && n <= 15,
    }
}

// Whether `bytes` may be put at a place of a file of this many bytes, by one call.
fn lies_below(at: u32, bytes: &[u8], size: u32) -> bool
    ensures range { IsTrue result → at + length bytes.now ≤ size }
    ensures few { IsTrue result → length bytes.now ≤ 3584 }
    ensures last { IsTrue result → EndsWell bytes.now }
{
    if 3_584 < bytes.len() || size < at {
        return false;
    }
    bytes.len() <= (size - at) as usize && !ends_in_zero(bytes)
}

// Whether `tail` may be appended to a file of this many bytes.
fn is_tail(kind: Kind, size: u32, tail: &[u8]) -> bool
    ensures few { IsTrue result → length tail.now ≤ 4096 }
    ensures most { IsTrue result → size + length tail.now ≤ 4194304 }
    ensures fixed { IsTrue result → (n : ℕ) → kind ≡ Kind.Fixed n → size + length tail.now + 32 ≤ 256 * n }
    ensures last { IsTrue result → EndsWell tail.now }
{
    if 4_096 < tail.len() || ends_in_zero(tail) || 4_194_304 < size {
        return false;
    }
    let total = size + tail.len() as u32;
    total <= 4_194_304 && holds(kind, total)
}

// Whether a file of the kind may have this many bytes.
fn holds(kind: Kind, size: u32) -> bool
    requires { size ≤ 4194304 }
    ensures { IsTrue result → (n : ℕ) → kind ≡ Kind.Fixed n → size + 32 ≤ 256 * n }
{
    match kind {
        Kind::Doubling => true,
        Kind::Fixed(n) => size + 32 <= 256 * u32::from(n),
    }
}

// Whether the last of some bytes is zero.
fn ends_in_zero(bytes: &[u8]) -> bool
    ensures { result ≡ false → EndsWell bytes.now }
{
    if bytes.is_empty() {
        return false;
    }
    bytes[bytes.len() - 1] == 0
}
