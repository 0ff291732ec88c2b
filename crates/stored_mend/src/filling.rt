//! The last row of a relation's file, filled to a removed row where it is there in part.

#![tactic(auto)]

ghost use Rattle.std.specs.Bool.{Decides};
ghost use Rattle.std.specs.Prelude.{◌≡◌, ◌≢◌, ◌+◌, ◌-◌, ◌/◌, ◌≤◌, ◌<◌, ◌++◌, IfNone, IfOk, IfSome, IsFalse, IsTrue, None, OnOk, drop, length, replicate, slice_index, slice_range, take, true};
ghost use Rattle.afl_base.specs.CutFiles.{AppendsFront, CutKeepsOrLeaves};
ghost use Rattle.afl_base.specs.FileErrors.{OnSpace, WhereFailed};
ghost use Rattle.afl_base.specs.Files.{Appends, IsLive, KeepsBytes, bytes_at, file_at, size_at};
ghost use Rattle.afl_base.specs.Keeping.{ChangesOrLacks, OnlyReads};
ghost use Rattle.afl_base.specs.declared.kind.Kind.TheVariants.{Doubling};
ghost use Rattle.catalog.specs.Catalogs.{catalog_slots};
ghost use Rattle.db_model.specs.Row.{fields_length, row_length, slots_in_bytes};
ghost use Rattle.db_model.specs.Step.{slots_limit};
ghost use Rattle.stored_mend.specs.Filled.{FillsPart, FillsRow, IsRemovedRow, part_of_row, row_before};
ghost use Rattle.stored_mend.specs.Rows.{whole_length, whole_rows};
ghost use Rattle.stored_mend.specs.RowsCut.{FillsInPart, FillsPartly};
ghost use Rattle.stored_mend.specs.Whole.{HasFilling, HasPart, IsFillable, IsTakenRow};
ghost use Rattle.tuple_file.specs.Tuples.{AreRows};

use crate::fields::fill_fields;
use crate::rows::is_row;
use crate::taking::all_take;
use afl_base::{Failed, FileError, FileId, Files, Kind, RelationId};
use catalog::Catalog;
use db_model::{Attributes, row_length};

// The most bytes of a row.
const ROW_SIZE: usize = 128;

// What stands of a row at the end of a relation's file: so many bytes.
#[derive(Clone, Copy)]
struct Tail {
    file: FileId,
    have: usize,
}

/// Fills a row that is there in part at the end of a relation's file to a removed row, by one append. It answers
/// whether it did: not where the part is the front of no row, where an index of the relation does not take the row,
/// or where a relation of the version has no slot more.
pub fn fill_row<V: Files>(
    files: &mut V,
    file: FileId,
    attributes: &Attributes,
    catalog: &Catalog,
    relation: RelationId,
) -> Result<bool, FileError>
    requires live { IsLive (V.state files.old).files file }
    requires idle { (V.state files.old).draft ≡ None }
    ensures may { let slots = catalog_slots catalog.now in IsTrue (V.state files.old).tells → IfOk result (λ filled.
        Decides filled (IsFillable slots relation attributes.now (file_at (V.state files.old).files file))) }
    ensures filled { IfOk result (λ filled. IsTrue filled
        → FillsRow (V.state files.old) (V.state files.new) file attributes.now) }
    ensures rows { IsTrue (V.state files.old).tells → IfOk result (λ filled. IsTrue filled
        → AreRows catalog.now.version attributes.now (whole_rows attributes.now (bytes_at (V.state files.old).files file))
        → AreRows catalog.now.version attributes.now (bytes_at (V.state files.new).files file)) }
    ensures stays { IfOk result (λ filled. IsFalse filled → V.state files.new ≡ V.state files.old) }
    ensures space { OnSpace result (λ _. KeepsBytes (V.state files.old) (V.state files.new) file) }
    ensures cut { let slots = catalog_slots catalog.now in
        CutKeepsOrLeaves V.cuts V.mends V.state files.old files.new (WhereFailed result)
        (λ after. FillsInPart slots relation attributes.now (V.state files.old) after file) }
    ensures frame { ChangesOrLacks V.state V.lent V.reads V.faults V.lacks files.old files.new result }
{
    match part_at_end(files, file, attributes, catalog.version) {
        Some(have) => {
            let filled = fill_part(files, Tail { file, have }, attributes, catalog, relation)?;
            Ok(filled)
        }
        None => Ok(false),
    }
}

/// Whether `fill_row` would fill a row at the end of the file, if it has room.
pub fn may_fill<V: Files>(
    files: &mut V,
    file: FileId,
    attributes: &Attributes,
    catalog: &Catalog,
    relation: RelationId,
) -> Result<bool, Failed>
    requires live { IsLive (V.state files.old).files file }
    ensures may { let slots = catalog_slots catalog.now in IsTrue (V.state files.old).tells → IfOk result (λ may.
        Decides may (IsFillable slots relation attributes.now (file_at (V.state files.old).files file))) }
    ensures frame { OnlyReads V.state V.lent V.reads V.faults files.old files.new result }
{
    match part_at_end(files, file, attributes, catalog.version) {
        Some(have) => {
            let mut bytes = [0; ROW_SIZE];
            let row = &mut bytes[..row_length(attributes)];
            removed_row(
                files,
                Tail { file, have },
                attributes,
                catalog,
                relation,
                row,
            )
        }
        None => Ok(false),
    }
}

// How many bytes of a row stand at the end of a file, None where none do, or where it can have no row more.
fn part_at_end<V: Files>(
    files: &V,
    file: FileId,
    attributes: &Attributes,
    version: u8,
) -> Option<usize>
    requires live { IsLive (V.state files.now).files file }
    ensures doubles { IfSome result (λ have. (file_at (V.state files.now).files file).kind ≡ Doubling) }
    ensures short { IfSome result (λ have. row_length attributes.now ≤ 128) }
    ensures some { IfSome result (λ have. 1 ≤ have) }
    ensures part { IfSome result (λ have. have < row_length attributes.now) }
    ensures have { IfSome result (λ have.
        whole_length attributes.now (bytes_at (V.state files.now).files file) + have
        ≡ size_at (V.state files.now).files file) }
    ensures few { IfSome result (λ have.
        slots_in_bytes attributes.now (bytes_at (V.state files.now).files file) < slots_limit version) }
    ensures none { IfNone result (HasPart version attributes.now (file_at (V.state files.now).files file) → ⊥) }
{
    let length = row_length(attributes);
    if length > ROW_SIZE || !has_slot(files, file, length as u32, version) {
        return None;
    }
    let have = (files.size(file) % length as u32) as usize;
    if have == 0 {
        return None;
    }
    Some(have)
}

// Fills a row of which a part stands at the end of a file, where it is the front of one that each index takes.
fn fill_part<V: Files>(
    files: &mut V,
    tail: Tail,
    attributes: &Attributes,
    catalog: &Catalog,
    relation: RelationId,
) -> Result<bool, FileError>
    requires live { IsLive (V.state files.old).files tail.file }
    requires idle { (V.state files.old).draft ≡ None }
    requires doubles { (file_at (V.state files.old).files tail.file).kind ≡ Doubling }
    requires short { row_length attributes.now ≤ 128 }
    requires have { whole_length attributes.now (bytes_at (V.state files.old).files tail.file) + tail.have
        ≡ size_at (V.state files.old).files tail.file }
    requires part { tail.have < row_length attributes.now }
    requires few { slots_in_bytes attributes.now (bytes_at (V.state files.old).files tail.file) < 32768 }
    ensures may { let bytes = bytes_at (V.state files.old).files tail.file in IsTrue (V.state files.old).tells
        → IfOk result (λ filled. Decides filled (HasFilling (catalog_slots catalog.now) relation attributes.now bytes)) }
    ensures filled { IfOk result (λ filled. IsTrue filled
        → FillsRow (V.state files.old) (V.state files.new) tail.file attributes.now) }
    ensures stays { IfOk result (λ filled. IsFalse filled → V.state files.new ≡ V.state files.old) }
    ensures space { OnSpace result (λ _. KeepsBytes (V.state files.old) (V.state files.new) tail.file) }
    ensures cut { let slots = catalog_slots catalog.now in
        CutKeepsOrLeaves V.cuts V.mends V.state files.old files.new (WhereFailed result)
        (λ after. FillsPartly slots relation attributes.now (V.state files.old) after tail.file) }
    ensures frame { ChangesOrLacks V.state V.lent V.reads V.faults V.lacks files.old files.new result }
{
    let mut bytes = [0; ROW_SIZE];
    let row = &mut bytes[..row_length(attributes)];
    if !removed_row(files, tail, attributes, catalog, relation, row)? {
        return Ok(false);
    }
    append_rest(files, tail, row)?;
    Ok(true)
}

// Whether a relation may have one more row behind its whole ones, in a file that doubles.
fn has_slot<V: Files>(files: &V, file: FileId, length: u32, version: u8) -> bool
    requires live { IsLive (V.state files.now).files file }
    requires some { 1 ≤ length }
    ensures doubles { IsTrue result → (file_at (V.state files.now).files file).kind ≡ Doubling }
    ensures few { IsTrue result → size_at (V.state files.now).files file / length < slots_limit version }
    ensures none { IsFalse result → (file_at (V.state files.now).files file).kind ≡ Doubling
        → size_at (V.state files.now).files file / length < slots_limit version → ⊥ }
{
    let slots = files.size(file) / length;
    files.kind(file) == Kind::Doubling && slots < slots_limit(version)
}

// Fills `row` with the removed row that a part at the end of a file is the front of, and answers whether it is one that
// each index takes.
fn removed_row<V: Files>(
    files: &mut V,
    tail: Tail,
    attributes: &Attributes,
    catalog: &Catalog,
    relation: RelationId,
    row: &mut [u8],
) -> Result<bool, Failed>
    requires live { IsLive (V.state files.old).files tail.file }
    requires size { length row.old ≡ row_length attributes.now }
    requires short { row_length attributes.now ≤ 128 }
    requires have { whole_length attributes.now (bytes_at (V.state files.old).files tail.file) + tail.have
        ≡ size_at (V.state files.old).files tail.file }
    requires part { tail.have < row_length attributes.now }
    ensures front { IsTrue (V.state files.old).tells → OnOk result
        (take tail.have row.new ≡ part_of_row attributes.now (bytes_at (V.state files.old).files tail.file)) }
    ensures fills { IsTrue (V.state files.old).tells → OnOk result (FillsPart attributes.now
        (row_before attributes.now (bytes_at (V.state files.old).files tail.file))
        (part_of_row attributes.now (bytes_at (V.state files.old).files tail.file)) row.new) }
    ensures marked { OnOk result (slice_index row.new (length row.new - 1) ≡ 3) }
    ensures removed { IfOk result (λ removed. IsTrue removed → IsRemovedRow attributes.now row.new) }
    ensures may { let bytes = bytes_at (V.state files.old).files tail.file in IsTrue (V.state files.old).tells
        → IfOk result (λ may. Decides may (HasFilling (catalog_slots catalog.now) relation attributes.now bytes)) }
    ensures size { length row.new ≡ length row.old }
    ensures frame { OnlyReads V.state V.lent V.reads V.faults files.old files.new result }
{
    let length = row.len();
    let size = files.size(tail.file);
    let whole = size - tail.have as u32;
    blank(row);
    read_front(files, tail.file, whole, tail.have, row)?;
    let mut last = [0; ROW_SIZE];
    let from = whole.saturating_sub(length as u32);
    let before = &mut last[..(whole - from) as usize];
    files.read(tail.file, from, before)?;
    fill_fields(attributes.as_slice(), before, row, tail.have);
    row[length - 1] = 3;
    let slots = size / length as u32;
    Ok(is_taken(attributes, catalog, relation, slots, before, row))
}

// Whether bytes with the mark of a removed row are one that each index takes.
fn is_taken(
    attributes: &Attributes,
    catalog: &Catalog,
    relation: RelationId,
    slots: u32,
    before: &[u8],
    row: &[u8],
) -> bool
    requires size { length row.now ≡ row_length attributes.now }
    requires before { 1 ≤ length before.now → fields_length attributes.now ≤ length before.now }
    requires marked { slice_index row.now (fields_length attributes.now) ≡ 3 }
    ensures { let indexes = (catalog_slots catalog.now).indexes in Decides result
        (IsTakenRow indexes relation attributes.now slots before.now row.now) }
{
    is_row(attributes, row)
        && all_take(
            &catalog.indexes,
            relation,
            attributes.as_slice(),
            slots,
            before,
            row,
        )
}

// Makes all bytes zero.
fn blank(bytes: &mut [u8])
    ensures zeros { bytes.new ≡ replicate (length bytes.old) 0 }
    ensures size { length bytes.new ≡ length bytes.old }
{
    bytes.fill(0);
}

// Reads so many bytes of a file from a place on into the front of others.
fn read_front<V: Files>(
    files: &mut V,
    file: FileId,
    at: u32,
    count: usize,
    into: &mut [u8],
) -> Result<(), Failed>
    requires live { IsLive (V.state files.old).files file }
    requires inside { at + count ≤ size_at (V.state files.old).files file }
    requires room { count ≤ length into.old }
    ensures read { IsTrue (V.state files.old).tells → OnOk result (into.new
        ≡ slice_range (bytes_at (V.state files.old).files file) at (at + count) ++ drop count into.old) }
    ensures size { length into.new ≡ length into.old }
    ensures frame { OnlyReads V.state V.lent V.reads V.faults files.old files.new result }
{
    let front = &mut into[..count];
    files.read(file, at, front)
}

// Appends the bytes of a row behind those that are there.
fn append_rest<V: Files>(files: &mut V, tail: Tail, row: &[u8]) -> Result<(), FileError>
    requires live { IsLive (V.state files.old).files tail.file }
    requires idle { (V.state files.old).draft ≡ None }
    requires doubles { (file_at (V.state files.old).files tail.file).kind ≡ Doubling }
    requires part { tail.have < length row.now }
    requires short { length row.now ≤ 128 }
    requires most { size_at (V.state files.old).files tail.file + length row.now ≤ 4194304 + tail.have }
    requires last { slice_index row.now (length row.now - 1) ≢ 0 }
    ensures appended { OnOk result
        (Appends (V.state files.old) (V.state files.new) tail.file (drop tail.have row.now)) }
    ensures space { OnSpace result (λ _. KeepsBytes (V.state files.old) (V.state files.new) tail.file) }
    ensures cut { CutKeepsOrLeaves V.cuts V.mends V.state files.old files.new (WhereFailed result)
        (λ after. AppendsFront (V.state files.old) after tail.file (drop tail.have row.now)) }
    ensures frame { ChangesOrLacks V.state V.lent V.reads V.faults V.lacks files.old files.new result }
{
    files.prepare(tail.file, 0, (row.len() - tail.have) as u32)?;
    files.append(tail.file, &row[tail.have..])?;
    Ok(())
}

// The most slots of a relation.
fn slots_limit(version: u8) -> u32
    ensures most { result ≡ slots_limit version }
{
    if version == 1 { 16_384 } else { 32_768 }
}
