//! Relations and their rows, beside what is half done.

#![tactic(auto)]

ghost use Rattle.std.specs.Prelude.{◌≡◌, ◌⊎◌, ◌%◌, ◌≤◌, ◌<◌, [], IfOk, IsTrue, None, Some, length};
ghost use Rattle.std.specs.Bool.{Decides};
ghost use Rattle.std.specs.List.{list_any};
ghost use Rattle.afl_base.specs.Files.{IsLive, bytes_at};
ghost use Rattle.afl_base.specs.Keeping.{OnlyReads};
ghost use Rattle.catalog.specs.Rules.{has_name};
ghost use Rattle.db_model.specs.Row.{row_length};
ghost use Rattle.db_model.specs.Step.{slots_limit};
ghost use Rattle.stored.specs.CutTables.{HoldsRowsOr, relation, slot_bytes};
ghost use Rattle.stored.specs.declared.half.Half.TheVariants.{AddingRow, Emptying, Growing, LoneRows};
ghost use Rattle.stored_mend.specs.Mending.{IsWholeCatalog};
ghost use Rattle.stored_mend.specs.Slots.{IsReadSlot};
ghost use Rattle.stored_survey.specs.Asked.{IsReadAs, IsSoundBeside};
ghost use Rattle.stored_survey.specs.Pieces.{IsUnusedBeside, IsUsedBeside};

use crate::emptied::{is_emptied_in_part, is_unused_slot};
use crate::grown::{ends_with_attributes, is_grown_in_part};
use crate::places::rows_at;
use crate::reading::relation_bytes;
use crate::rows::holds_rows;
use afl_base::{Failed, FileId, Files};
use catalog::Catalog;
use db_model::{Attributes, Ident, Schema, row_length};
use stored::Half;

/// Whether a relation slot and its rows are sound but for what is half done.
pub fn is_sound_relation<V: Files>(
    files: &mut V,
    cat: FileId,
    catalog: &Catalog,
    half: &Half,
    slot: u16,
) -> Result<bool, Failed>
    requires whole { IsWholeCatalog (V.state files.old).files cat }
    requires relations { length catalog.now.relations ≡ 8 }
    requires slot { slot < 8 }
    ensures sound { IsTrue (V.state files.old).tells → IsReadAs (V.state files.old).files catalog.now
        → IfOk result (λ is. Decides is (IsSoundBeside (V.state files.old).files half.now slot)) }
    ensures frame { OnlyReads V.state V.lent V.reads V.faults files.old files.new result }
{
    let bytes = relation_bytes(files, cat, slot)?;
    match &catalog.relations[slot as usize] {
        None => Ok(is_sound_free(files, &bytes, half, slot)),
        Some(schema) => {
            let sound = is_sound_used(files, catalog, &bytes, schema, half, slot)?;
            Ok(sound)
        }
    }
}

// The same of a slot without a relation, of these bytes.
fn is_sound_free<V: Files>(files: &V, bytes: &[u8], half: &Half, slot: u16) -> bool
    requires slot { slot < 8 }
    requires length { length bytes.now ≡ 176 }
    ensures { relation (V.state files.now).files slot ≡ None
        → bytes.now ≡ slot_bytes (V.state files.now).files slot
        → Decides result (IsSoundBeside (V.state files.now).files half.now slot) }
{
    match rows_at(files, slot) {
        Some(_) => is_sound_without(bytes, half, slot, true),
        None => is_sound_without(bytes, half, slot, false),
    }
}

// The same of the slot of a relation.
fn is_sound_used<V: Files>(
    files: &mut V,
    catalog: &Catalog,
    bytes: &[u8],
    schema: &Schema,
    half: &Half,
    slot: u16,
) -> Result<bool, Failed>
    requires relations { length catalog.now.relations ≡ 8 }
    requires slot { slot < 8 }
    requires length { length bytes.now ≡ 176 }
    ensures sound { IsTrue (V.state files.old).tells → IsReadAs (V.state files.old).files catalog.now
        → relation (V.state files.old).files slot ≡ Some schema.now
        → bytes.now ≡ slot_bytes (V.state files.old).files slot
        → IfOk result (λ is. Decides is (IsSoundBeside (V.state files.old).files half.now slot)) }
    ensures frame { OnlyReads V.state V.lent V.reads V.faults files.old files.new result }
{
    if has_a_name(&schema.name, &catalog.relations[..slot as usize]) {
        return Ok(false);
    }
    match rows_at(files, slot) {
        None => Ok(false),
        Some(file) => {
            if !is_sound_slot(bytes, half, slot, schema, files.size(file)) {
                return Ok(false);
            }
            let sound = has_sound_rows(files, file, schema, catalog.version, half, slot)?;
            Ok(sound)
        }
    }
}

// The same of a slot without a relation: it has no rows, unless they are left over.
fn is_sound_without(bytes: &[u8], half: &Half, slot: u16, has_rows: bool) -> bool
    requires length { length bytes.now ≡ 176 }
    requires slot { slot < 8 }
    ensures { Decides result (IsUnusedBeside half.now slot bytes.now has_rows) }
{
    if is_emptying(half, slot) {
        return has_rows && (is_unused_slot(bytes) || is_emptied_in_part(slot, bytes));
    }
    is_unused_slot(bytes) && (!has_rows || is_leaving_rows(half, slot))
}

// The same of the slot of a relation, whose file has so many bytes.
fn is_sound_slot(bytes: &[u8], half: &Half, slot: u16, schema: &Schema, size: u32) -> bool
    requires length { length bytes.now ≡ 176 }
    requires slot { slot < 8 }
    ensures { IsReadSlot bytes.now schema.now
        → Decides result (IsUsedBeside half.now slot bytes.now schema.now size) }
{
    if is_growing(half, slot) {
        return size == 0
            && (ends_with_attributes(bytes, schema) || is_grown_in_part(slot, bytes, schema));
    }
    ends_with_attributes(bytes, schema)
}

fn is_emptying(half: &Half, slot: u16) -> bool
    ensures { Decides result (half.now ≡ Emptying slot) }
{
    *half == Half::Emptying(slot)
}

fn is_leaving_rows(half: &Half, slot: u16) -> bool
    ensures { Decides result (half.now ≡ LoneRows slot) }
{
    *half == Half::LoneRows(slot)
}

fn is_growing(half: &Half, slot: u16) -> bool
    ensures { Decides result (half.now ≡ Growing slot) }
{
    *half == Half::Growing(slot)
}

fn is_adding_row(half: &Half, slot: u16) -> bool
    ensures { Decides result (half.now ≡ AddingRow slot) }
{
    *half == Half::AddingRow(slot)
}

// Whether one of the slots has the name.
fn has_a_name(name: &Ident, slots: &[Option<Schema>]) -> bool
    ensures { result ≡ list_any (has_name name.now) slots.now }
{
    for slot in slots {
        if has_name(name, slot) {
            return true;
        }
    }
    false
}

fn has_name(name: &Ident, slot: &Option<Schema>) -> bool
    ensures { result ≡ has_name name.now slot.now }
{
    match slot {
        Some(schema) => schema.name == *name,
        None => false,
    }
}

// Whether whole rows stand in a file, and a part of one more only where that is half done.
fn has_sound_rows<V: Files>(
    files: &mut V,
    file: FileId,
    schema: &Schema,
    version: u8,
    half: &Half,
    slot: u16,
) -> Result<bool, Failed>
    requires live { IsLive (V.state files.old).files file }
    ensures rows { let bytes = bytes_at (V.state files.old).files file in
        IsTrue (V.state files.old).tells → row_length schema.now.attributes ≤ 128 → IfOk result
        (λ sound. Decides sound (HoldsRowsOr half.now version slot schema.now.attributes bytes)) }
    ensures frame { OnlyReads V.state V.lent V.reads V.faults files.old files.new result }
{
    let length = row_length(&schema.attributes) as u32;
    let size = files.size(file);
    let slots = size / length;
    if length > 128 {
        return Ok(false);
    }
    if slots > most_slots(version) {
        return Ok(false);
    }
    if !may_have(&schema.attributes, size) {
        return Ok(false);
    }
    if !may_end(size, length, half, slot) {
        return Ok(false);
    }
    let held = holds_rows(files, file, &schema.attributes, slots)?;
    Ok(held)
}

// Whether rows of these attributes may have so many bytes: without attributes there are none.
fn may_have(attributes: &Attributes, size: u32) -> bool
    ensures { Decides result (attributes.now ≡ [] → size ≡ 0) }
{
    size == 0 || !attributes.is_empty()
}

// Whether so many bytes may be rows of a length: whole ones, or one of them was being appended.
fn may_end(size: u32, length: u32, half: &Half, slot: u16) -> bool
    requires { 1 ≤ length }
    ensures { Decides result ((size % length ≡ 0) ⊎ (half.now ≡ AddingRow slot)) }
{
    size % length == 0 || is_adding_row(half, slot)
}

// The rows that a relation has at most.
fn most_slots(version: u8) -> u32
    ensures value { result ≡ slots_limit version }
    ensures few { result ≤ 32768 }
{
    if version == 1 { 16_384 } else { 32_768 }
}
