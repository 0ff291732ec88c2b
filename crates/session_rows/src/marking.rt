//! Rows that are removed: one by one, or all of them in one draft.

#![tactic(auto)]

ghost use Rattle.std.specs.Prelude.{◌≡◌, ◌≢◌, ◌<◌, ◌≤◌, [], ℕ, IsErrOf, IsTrue, None, OnErr, OnOk, Option, length, map};
ghost use Rattle.afl_base.specs.CutFiles.{CutLeaves, MendsToState};
ghost use Rattle.afl_base.specs.Keeping.{Changes, ChangesOrLacks};
ghost use Rattle.afl_base.specs.Asked.{asks_few};
ghost use Rattle.afl_base.specs.FileErrors.{OnSpace, WhereFailed};
ghost use Rattle.afl_base.specs.Files.{file_at, size_at};
ghost use Rattle.afl_base.specs.Fit.{fit};
ghost use Rattle.afl_base.specs.Frames.{Prepares};
ghost use Rattle.afl_base.specs.Sparing.{SparesPages, SparesWhere, WantsNothing};
ghost use Rattle.db_model.specs.Cond.{Cond};
ghost use Rattle.db_model.specs.Row.{fields_length, tuple_of};
ghost use Rattle.db_model.specs.Step.{removed_row};
ghost use Rattle.lvm.specs.Code.{IsCodeOf};
ghost use Rattle.cursor.specs.Remaining.{passes_code};
ghost use Rattle.tuple_file.specs.Tuples.{HoldsRows, rows, slots as slots_of};
ghost use Rattle.session_rows.specs.Changes.{ReplacesRows};
ghost use Rattle.session_rows.specs.CutRows.{MayMarkRows, MayRemove};
ghost use Rattle.session_rows.specs.Marking.{AreBelow, OfSelected, SelectsWithin, marked};
ghost use Rattle.session_rows.specs.Wanted.{WantsRemoval};

use crate::selecting::Selected;
use afl_base::{Failed, FileError, Files, SlotNo};
use cursor::selects_row;
use db_model::Few;
use lvm::Code;
use tuple_file::{Span, Tuples};

/// Removes the rows that were selected: up to 29 are marked one by one, and more are written anew in
/// one draft.
pub(crate) fn remove_selected<V: Files>(
    files: &mut V,
    tuples: &Tuples,
    code: &Code,
    selected: &Selected,
) -> Result<(), FileError>
    requires idle { (V.state files.old).draft ≡ None }
    requires holds { HoldsRows (V.state files.old) tuples.now }
    requires below { AreBelow (slots_of (V.state files.old).files tuples.now) selected.now.first }
    ensures rows { let all = rows (V.state files.old).files tuples.now in
        IsTrue (V.state files.old).tells → OnOk result (OfSelected code.now selected.now tuples.now all
        (λ condition. rows (V.state files.new).files tuples.now
        ≡ map (removed_row tuples.now.schema.attributes condition) all)) }
    ensures replaces { OnOk result
        (ReplacesRows (V.state files.old) (V.state files.new) tuples.now) }
    ensures space { OnSpace result (λ need.
        Prepares (V.state files.old) (V.state files.new) (λ id. id ≢ tuples.now.file)) }
    ensures wants { let asks = asks_few (V.asks files.new) (V.state files.new).files in
        let size = size_at (V.state files.new).files tuples.now.file in
        OnSpace result (WantsRemoval asks tuples.now.file selected.now.count (length selected.now.first) size) }
    ensures none { selected.now.count ≡ 0 → length selected.now.first ≡ 0
        → OnOk result (V.state files.new ≡ V.state files.old) }
    ensures spares { let size = size_at (V.state files.old).files tuples.now.file in
        let wants = WantsRemoval (V.asks files.old) tuples.now.file selected.now.count in
        SparesWhere V.is_free (WantsNothing (wants (length selected.now.first) size)) (V.state files.old) (V.state files.new) result }
    ensures cut { let all = rows (V.state files.old).files tuples.now in
        IsTrue V.cuts → IsTrue (V.state files.old).tells → WhereFailed result
        (OfSelected code.now selected.now tuples.now all (λ condition.
        MendsToState V.mends (V.state files.new).store
        (λ after. MayRemove (V.state files.old) after tuples.now condition))) }
    ensures frame { ChangesOrLacks V.state V.lent V.reads V.faults V.lacks files.old files.new result }
{
    if selected.count > 29 {
        rewrite_rows(files, tuples, code, &selected.span())?;
    } else {
        mark_slots(files, tuples, &selected.first)?;
    }
    Ok(())
}

// Removes the rows in some slots, for each of which a record is prepared; for none nothing is.
fn mark_slots<V: Files>(
    files: &mut V,
    tuples: &Tuples,
    slots: &Few<SlotNo, 29>,
) -> Result<(), FileError>
    requires idle { (V.state files.old).draft ≡ None }
    requires holds { HoldsRows (V.state files.old) tuples.now }
    requires below { AreBelow (slots_of (V.state files.old).files tuples.now) slots.now }
    ensures rows { let all = rows (V.state files.old).files tuples.now in
        IsTrue (V.state files.old).tells → OnOk result
        (rows (V.state files.new).files tuples.now ≡ marked slots.now all) }
    ensures replaces { OnOk result
        (ReplacesRows (V.state files.old) (V.state files.new) tuples.now) }
    ensures space { OnSpace result (λ need.
        Prepares (V.state files.old) (V.state files.new) (λ id. id ≢ tuples.now.file)) }
    ensures some { OnSpace result (λ need. 1 ≤ length slots.now) }
    ensures asked { let asks = asks_few (V.asks files.new) (V.state files.new).files in
        OnSpace result (λ need. asks tuples.now.file (length slots.now) 0 need) }
    ensures none { length slots.now ≡ 0 → OnOk result (V.state files.new ≡ V.state files.old) }
    ensures spares { let asks = V.asks files.old tuples.now.file (length slots.now) 0 in
        SparesWhere V.is_free ((need : ℕ) → 1 ≤ length slots.now → asks need → ⊥) (V.state files.old) (V.state files.new) result }
    ensures cut { CutLeaves V.cuts V.mends V.state files.old files.new (WhereFailed result)
        (λ after. MayMarkRows (V.state files.old) after tuples.now slots.now) }
    ensures frame { ChangesOrLacks V.state V.lent V.reads V.faults V.lacks files.old files.new result }
{
    if slots.is_empty() {
        return Ok(());
    }
    files.prepare(tuples.file, slots.len() as u16, 0)?;
    mark_rows(files, tuples, slots)?;
    Ok(())
}

// Removes the rows in some slots, for which as many records were prepared.
fn mark_rows<V: Files>(
    files: &mut V,
    tuples: &Tuples,
    slots: &Few<SlotNo, 29>,
) -> Result<(), Failed>
    requires holds { HoldsRows (V.state files.old) tuples.now }
    requires records { let file = file_at (V.state files.old).files tuples.now.file in
        length slots.now ≤ file.records }
    requires below { AreBelow (slots_of (V.state files.old).files tuples.now) slots.now }
    ensures rows { let all = rows (V.state files.old).files tuples.now in
        IsTrue (V.state files.old).tells → OnOk result
        (rows (V.state files.new).files tuples.now ≡ marked slots.now all) }
    ensures replaces { OnOk result
        (ReplacesRows (V.state files.old) (V.state files.new) tuples.now) }
    ensures spares { SparesPages V.is_free V.state files.old files.new result }
    ensures cut { CutLeaves V.cuts V.mends V.state files.old files.new (OnErr result)
        (λ after. MayMarkRows (V.state files.old) after tuples.now slots.now) }
    ensures frame { Changes V.state V.lent V.reads V.faults files.old files.new result }
{
    for slot in slots.as_slice() {
        tuples.mark(files, *slot)?;
    }
    Ok(())
}

// Removes the rows that a condition selects, by one draft. It is asked about those in some slots alone,
// outside of which it selects none.
fn rewrite_rows<V: Files>(
    files: &mut V,
    tuples: &Tuples,
    code: &Code,
    asked: &Span,
) -> Result<(), FileError>
    requires idle { (V.state files.old).draft ≡ None }
    requires holds { HoldsRows (V.state files.old) tuples.now }
    ensures rows { let attributes = tuples.now.schema.attributes in
        let all = rows (V.state files.old).files tuples.now in
        IsTrue (V.state files.old).tells → OnOk result ((condition : Option Cond)
        → IsCodeOf attributes condition code.now → SelectsWithin asked.now attributes condition all
        → rows (V.state files.new).files tuples.now ≡ map (removed_row attributes condition) all) }
    ensures replaces { OnOk result
        (ReplacesRows (V.state files.old) (V.state files.new) tuples.now) }
    ensures space { OnSpace result (λ need.
        Prepares (V.state files.old) (V.state files.new) (λ id. id ≢ tuples.now.file)) }
    ensures need { let size = size_at (V.state files.new).files tuples.now.file in
        OnSpace result (λ need. need ≡ fit size) }
    ensures cut { let attributes = tuples.now.schema.attributes in
        let all = rows (V.state files.old).files tuples.now in
        IsTrue V.cuts → IsTrue (V.state files.old).tells → IsErrOf result FileError.Failed
        → (condition : Option Cond) → IsCodeOf attributes condition code.now
        → SelectsWithin asked.now attributes condition all
        → MendsToState V.mends (V.state files.new).store
        (λ after. MayRemove (V.state files.old) after tuples.now condition) }
    ensures frame { ChangesOrLacks V.state V.lent V.reads V.faults V.lacks files.old files.new result }
{
    tuples.rewrite(
        files,
        asked,
        |row: &[u8]|
            requires { fields_length tuples.now.schema.attributes ≤ length row.now }
            ensures { let attributes = tuples.entry.now.schema.attributes in
                result ≡ passes_code code.entry.now (tuple_of attributes row.now) }
        { selects_row(code, tuples.schema.attributes.as_slice(), row) },
    )?;
    Ok(())
}
