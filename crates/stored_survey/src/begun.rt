//! A catalog that was being begun.

#![tactic(auto)]

ghost use Rattle.std.specs.Prelude.{◌≡◌, ◌⊎◌, ◌≤◌, ◌<◌, ◌+◌, ℕ, List, IfOk, IsTrue, false, length, slice_range, take};
ghost use Rattle.std.specs.Bool.{Decides};
ghost use Rattle.afl_base.specs.Files.{IsLive, IsNamed, bytes_at, size_at};
ghost use Rattle.afl_base.specs.Keeping.{OnlyReads};
ghost use Rattle.catalog.specs.Rules.{catalog_bytes_in, is_stranger};
ghost use Rattle.db_model.specs.Catalog.{catalog_bytes};
ghost use Rattle.db_model.specs.Names.{is_name};
ghost use Rattle.space_model.specs.FileNames.{rows_file, tree_file};
ghost use Rattle.stored.specs.CutTables.{IsBegun, first_catalog};
ghost use Rattle.stored_survey.specs.Parts.{HasNoMore, IsCatalogFront};

use crate::grown::name_begun;
use afl_base::{Failed, FileId, Files, IndexId, RelationId};
use catalog::{catalog_file, first_catalog, relation_slot, rows_file, tree_file};
use db_model::{Attributes, Ident, Schema};
use stored_mend::SIZE_OF_VERSION_1;

// How many bytes are read at a time.
const PIECE: u32 = 64;

/// Whether the first catalog was being begun: no file stands but `CAT`, which is empty or begins as a
/// catalog of one relation without attributes, and `T0`, which is empty. No catalog is whole, and no file
/// is a stranger's.
pub fn is_begun<V: Files>(files: &mut V) -> Result<bool, Failed>
    ensures begun { IsTrue (V.state files.old).tells
        → length (catalog_bytes_in (V.state files.old).files) < 1472
        → ((id : ℕ) → is_stranger (V.state files.old).files id ≡ false)
        → IfOk result (λ is. Decides is (IsBegun (V.state files.old).files)) }
    ensures frame { OnlyReads V.state V.lent V.reads V.faults files.old files.new result }
{
    if !has_no_more(files) {
        return Ok(false);
    }
    let Some(cat) = files.find(catalog_file()) else {
        return Ok(true);
    };
    let size = files.size(cat);
    if size == 0 {
        return Ok(true);
    }
    if size >= SIZE_OF_VERSION_1 {
        return Ok(false);
    }
    if !has_rows(files, 0) {
        return Ok(false);
    }
    begins_catalog(files, cat, size)
}

// Whether of the files of rows and trees none stands there, but that of the rows in slot 0, without
// bytes.
fn has_no_more<V: Files>(files: &V) -> bool
    ensures is { Decides result (HasNoMore (V.state files.now).files) }
{
    if !is_first_empty(files) {
        return false;
    }
    for slot in 0..8u16 {
        if has_tree(files, slot) {
            return false;
        }
        if slot > 0 && has_rows(files, slot) {
            return false;
        }
    }
    true
}

fn has_tree<V: Files>(files: &V, slot: u16) -> bool
    requires { slot < 8 }
    ensures is { Decides result ((id : ℕ) × IsNamed (V.state files.now).files id (tree_file slot)) }
{
    match IndexId::new(slot) {
        Some(id) => files.find(tree_file(id)).is_some(),
        None => unreachable!(),
    }
}

fn has_rows<V: Files>(files: &V, slot: u16) -> bool
    requires { slot < 8 }
    ensures is { Decides result ((id : ℕ) × IsNamed (V.state files.now).files id (rows_file slot)) }
{
    match RelationId::new(slot) {
        Some(id) => files.find(rows_file(id)).is_some(),
        None => unreachable!(),
    }
}

// Whether the rows in slot 0 are not there, or have no bytes.
fn is_first_empty<V: Files>(files: &V) -> bool
    ensures is { Decides result ((id : ℕ) → IsNamed (V.state files.now).files id (rows_file 0)
        → size_at (V.state files.now).files id ≡ 0) }
{
    let found = match RelationId::new(0) {
        Some(id) => files.find(rows_file(id)),
        None => unreachable!(),
    };
    match found {
        Some(file) => files.size(file) == 0,
        None => true,
    }
}

// Whether these are the first bytes of a catalog with a relation in slot 0 that has no attributes.
fn begins_catalog<V: Files>(files: &mut V, cat: FileId, size: u32) -> Result<bool, Failed>
    requires live { IsLive (V.state files.old).files cat }
    requires size { size ≡ size_at (V.state files.old).files cat }
    requires short { size < 1472 }
    ensures is { IsTrue (V.state files.old).tells → IfOk result (λ is. Decides is
        ((name : List ℕ) × IsCatalogFront (bytes_at (V.state files.old).files cat) name)) }
    ensures frame { OnlyReads V.state V.lent V.reads V.faults files.old files.new result }
{
    let mut bytes = [0; 16];
    let shown = &mut bytes[..at_most_16(size) as usize];
    files.read(cat, 0, shown)?;
    let Some(name) = name_begun(shown) else {
        return Ok(false);
    };
    let whole = catalog_of_one(name);
    begins_with(files, cat, size, &whole)
}

fn at_most_16(size: u32) -> u32
    ensures few { result ≤ 16 }
    ensures inside { result ≤ size }
    ensures all { (result ≡ 16) ⊎ (result ≡ size) }
{
    if size < 16 { size } else { 16 }
}

// The bytes of a catalog with a relation in slot 0 that has no attributes.
fn catalog_of_one(name: Ident) -> [u8; 1480]
    requires { IsTrue (is_name name) }
    ensures { result ≡ catalog_bytes (first_catalog name) }
{
    let schema = Schema {
        name,
        attributes: Attributes::new(),
    };
    first_catalog(0, relation_slot(&schema).as_slice())
}

// Whether these are the first bytes of a catalog.
fn begins_with<V: Files>(
    files: &mut V,
    cat: FileId,
    size: u32,
    whole: &[u8],
) -> Result<bool, Failed>
    requires live { IsLive (V.state files.old).files cat }
    requires size { size ≡ size_at (V.state files.old).files cat }
    requires inside { size ≤ length whole.now }
    ensures is { IsTrue (V.state files.old).tells → IfOk result (λ is. Decides is
        (bytes_at (V.state files.old).files cat ≡ take size whole.now)) }
    ensures frame { OnlyReads V.state V.lent V.reads V.faults files.old files.new result }
{
    let mut at = 0;
    while at < size {
        let count = (size - at).min(PIECE);
        if !has_piece(files, cat, at, count, whole)? {
            return Ok(false);
        }
        at += count;
    }
    Ok(true)
}

// Whether the same bytes stand at a place.
fn has_piece<V: Files>(
    files: &mut V,
    cat: FileId,
    at: u32,
    count: u32,
    whole: &[u8],
) -> Result<bool, Failed>
    requires live { IsLive (V.state files.old).files cat }
    requires few { count ≤ 64 }
    requires inside { at + count ≤ size_at (V.state files.old).files cat }
    requires there { at + count ≤ length whole.now }
    ensures is { IsTrue (V.state files.old).tells → IfOk result (λ is. Decides is
        (slice_range (bytes_at (V.state files.old).files cat) at (at + count)
        ≡ slice_range whole.now at (at + count))) }
    ensures frame { OnlyReads V.state V.lent V.reads V.faults files.old files.new result }
{
    let mut bytes = [0; PIECE as usize];
    let piece = &mut bytes[..count as usize];
    files.read(cat, at, piece)?;
    let from = at as usize;
    Ok(is_same(piece, &whole[from..from + count as usize]))
}

fn is_same(one: &[u8], other: &[u8]) -> bool
    ensures is { Decides result (one.now ≡ other.now) }
{
    one == other
}
