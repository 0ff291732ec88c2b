//! The mark of version 2.

#![tactic(auto)]

ghost use Rattle.std.specs.Prelude.{◌≡◌, ◌⊎◌, ◌≤◌, ◌<◌, ◌+◌, [], IfOk, IsTrue, drop, length, take};
ghost use Rattle.std.specs.Bool.{Decides};
ghost use Rattle.afl_base.specs.Files.{size_at};
ghost use Rattle.afl_base.specs.Keeping.{OnlyReads};
ghost use Rattle.catalog.specs.Rules.{catalog_bytes_in};
ghost use Rattle.db_model.specs.Catalog.{version_mark};
ghost use Rattle.space_model.specs.FileNames.{bytes_named, rows_file};
ghost use Rattle.stored.specs.CutTables.{HasMark, IsBehindSlot};
ghost use Rattle.stored.specs.declared.half.Half.TheVariants.{Nothing};
ghost use Rattle.stored_mend.specs.Mending.{IsWholeCatalog};
ghost use Rattle.stored_survey.specs.Asked.{IsReadAs};
ghost use Rattle.stored_survey.specs.Pieces.{HasLastTime, IsLastTime, WantsMarkAlone};

use crate::finding::is_nothing;
use crate::places::rows_at;
use crate::reading::{has_a_time, has_time, is_time};
use afl_base::{Failed, FileId, Files};
use catalog::Catalog;
use db_model::Schema;
use stored::Half;
use stored_mend::{SIZE_OF_VERSION_1, VERSION_MARK};

/// Whether the catalog ends as it may beside what is half done: with its slots in version 1, and with the
/// mark in version 2, of which the last bytes may be missing.
pub fn ends_as_cut<V: Files>(
    files: &mut V,
    cat: FileId,
    catalog: &Catalog,
    half: &Half,
) -> Result<bool, Failed>
    requires whole { IsWholeCatalog (V.state files.old).files cat }
    requires relations { length catalog.now.relations ≡ 8 }
    ensures mark { IsTrue (V.state files.old).tells → IsReadAs (V.state files.old).files catalog.now
        → IfOk result (λ ends. Decides ends (HasMark (V.state files.old).files half.now)) }
    ensures frame { OnlyReads V.state V.lent V.reads V.faults files.old files.new result }
{
    let size = files.size(cat);
    if size == SIZE_OF_VERSION_1 {
        let may = may_lack_mark(files, catalog, half);
        return Ok(may);
    }
    if size > SIZE_OF_VERSION_1 + 8 {
        return Ok(false);
    }
    let count = (size - SIZE_OF_VERSION_1) as usize;
    if !may_have_front(half, count) {
        return Ok(false);
    }
    let front = has_front_of_mark(files, cat, count)?;
    Ok(front)
}

// Whether so many bytes of the mark may stand beside what is half done.
fn may_have_front(half: &Half, count: usize) -> bool
    requires { count ≤ 8 }
    ensures { Decides result (count < 8 → IsBehindSlot half.now) }
{
    count == 8 || comes_behind_slots(half)
}

// Whether so many bytes behind the slots are the first ones of the mark.
fn has_front_of_mark<V: Files>(files: &mut V, cat: FileId, count: usize) -> Result<bool, Failed>
    requires whole { IsWholeCatalog (V.state files.old).files cat }
    requires few { count ≤ 8 }
    requires size { size_at (V.state files.old).files cat ≡ 1472 + count }
    ensures front { IsTrue (V.state files.old).tells → IfOk result (λ is. Decides is
        (drop 1472 (catalog_bytes_in (V.state files.old).files) ≡ take count version_mark)) }
    ensures frame { OnlyReads V.state V.lent V.reads V.faults files.old files.new result }
{
    let mut bytes = [0; 8];
    let front = &mut bytes[..count];
    files.read(cat, SIZE_OF_VERSION_1, front)?;
    Ok(is_front_of_mark(front))
}

fn is_front_of_mark(front: &[u8]) -> bool
    requires { length front.now ≤ 8 }
    ensures { Decides result (front.now ≡ take (length front.now) version_mark) }
{
    front[..] == VERSION_MARK[..front.len()]
}

// Whether a catalog may have no mark: it is of version 1, or just that was to come.
fn may_lack_mark<V: Files>(files: &V, catalog: &Catalog, half: &Half) -> bool
    requires relations { length catalog.now.relations ≡ 8 }
    ensures { Decides result ((catalog.now.version ≡ 1)
        ⊎ (WantsMarkAlone (V.state files.now).files catalog.now.relations × (half.now ≡ Nothing))) }
{
    catalog.version == 1 || (is_nothing(half) && wants_mark_alone(files, catalog))
}

// Whether one relation alone has a TIME, just its last attribute, and has no rows.
fn wants_mark_alone<V: Files>(files: &V, catalog: &Catalog) -> bool
    requires relations { length catalog.now.relations ≡ 8 }
    ensures { Decides result (WantsMarkAlone (V.state files.now).files catalog.now.relations) }
{
    let mut found = false;
    for slot in 0..8u16 {
        let relation = &catalog.relations[slot as usize];
        if has_time(relation) {
            if found {
                return false;
            }
            if !wants_mark(files, slot, relation) {
                return false;
            }
            found = true;
        }
    }
    found
}

// Whether a relation has a TIME as its last attribute, no other, and no rows.
fn wants_mark<V: Files>(files: &V, slot: u16, relation: &Option<Schema>) -> bool
    requires slot { slot < 8 }
    ensures { Decides result (IsLastTime (V.state files.now).files slot relation.now) }
{
    match relation {
        Some(schema) => has_last_time(schema) && has_no_bytes(files, slot),
        None => false,
    }
}

// Whether of the attributes only the last one is a TIME.
fn has_last_time(schema: &Schema) -> bool
    ensures { Decides result (HasLastTime schema.now) }
{
    let attributes = schema.attributes.as_slice();
    match attributes.split_last() {
        Some((last, front)) => is_time(last) && !has_a_time(front),
        None => false,
    }
}

// Whether a relation slot has no rows.
fn has_no_bytes<V: Files>(files: &V, slot: u16) -> bool
    requires slot { slot < 8 }
    ensures { Decides result (bytes_named (rows_file slot) (V.state files.now).files ≡ []) }
{
    match rows_at(files, slot) {
        Some(file) => files.size(file) == 0,
        None => true,
    }
}

// Whether the mark may be there in part beside it: the mark is the last that a command writes into the
// catalog.
fn comes_behind_slots(half: &Half) -> bool
    ensures is { Decides result (IsBehindSlot half.now) }
{
    match half {
        Half::Nothing | Half::LoneRows(_) | Half::Treeless(_) | Half::LoneTree(_) => true,
        Half::Emptying(_) | Half::Growing(_) | Half::AddingRow(_) | Half::AddingKey(_) => false,
    }
}
