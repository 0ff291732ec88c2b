//! The live rows among candidates whose tuples pass a test.

#![tactic(auto)]

ghost use Rattle.std.specs.Prelude.{None, ◌≡◌, ◌+◌, ◌<◌, ◌≤◌, ◌∷◌, [], true, IfNone, IfOk, IfSome, IsTrue, MatchOption, OnErr, OnOk, List, get_or, length};
ghost use Rattle.afl_base.specs.Keeping.{OnlyReads};
ghost use Rattle.db_model.specs.Row.{AllSuit, Row, no_row, row_length, tuple_of};
ghost use Rattle.index_set.specs.Walks.{Advances, Fits, ahead, cost_ahead};
ghost use Rattle.tuple_file.specs.Tuples.{HoldsRows, row, rows, slots};
ghost use Rattle.cursor.specs.Remaining.{MayRead, StepsToRow, cost_of_slots, is_live_and, passed_until};

use afl_base::{Failed, Files, SlotNo};
use db_model::{Attribute, Tuple};
use index_set::{Candidates, HashTables};
use tuple_file::{ROW_SIZE, Tuples, get_tuple, is_live, values_suit};

/// A test of tuples.
pub(crate) trait Test {
    ghost use Rattle.std.specs.Prelude.{◌≡◌, ◌≤◌, Bool, List, length};
    ghost use Rattle.db_model.specs.declared.values.Value.{Value};
    ghost use Rattle.db_model.specs.Row.{fields_length, tuple_of};

    /// Whether a tuple passes.
    ghost passes: { Self → List Value → Bool };

    /// Whether the tuple of a row passes. Of the row no more is decoded than is asked for.
    fn holds<'a>(&self, attributes: &'a [Attribute], row: &'a [u8]) -> bool
        requires { fields_length attributes.now ≤ length row.now }
        ensures { result ≡ passes self.now (tuple_of attributes.now row.now) };
}

// Whether the row in a slot is live and passes. Its bytes are read into `row`.
fn is_answer<V: Files, T: Test>(
    files: &mut V,
    tuples: &Tuples,
    slot: SlotNo,
    test: &T,
    row: &mut [u8],
) -> Result<bool, Failed>
    requires holds { HoldsRows (V.state files.old) tuples.now }
    requires slot { slot < slots (V.state files.old).files tuples.now }
    requires size { length row.old ≡ row_length tuples.now.schema.attributes }
    ensures answer { let state = V.state files.old in let all = rows state.files tuples.now in
        IsTrue state.tells → IfOk result (λ yes.
        yes ≡ is_live_and (T.passes test.now) (get_or all slot no_row)) }
    ensures row { let state = V.state files.old in let all = rows state.files tuples.now in
        IsTrue state.tells → IfOk result (λ yes. IsTrue yes
        → get_or all slot no_row
        ≡ record { tuple = tuple_of tuples.now.schema.attributes row.new; live = true }) }
    ensures suits { let attributes = tuples.now.schema.attributes in
        OnOk result (AllSuit attributes (tuple_of attributes row.new)) }
    ensures size { length row.new ≡ length row.old }
    ensures reads { V.reads files.new ≤ V.reads files.old + 6 }
    ensures frame { OnlyReads V.state V.lent V.reads V.faults files.old files.new result }
{
    tuples.row_bytes(files, slot, row)?;
    values_suit(&tuples.schema.attributes, row);
    if !is_live(row) {
        return Ok(false);
    }
    Ok(test.holds(tuples.schema.attributes.as_slice(), row))
}

/// The next slot of the candidates whose row is live and passes, `None` exactly after the last. Its
/// tuple stands in `into`. Each row is read once, and no other is decoded as a whole.
pub(crate) fn next_row<V: Files, T: Test>(
    files: &mut V,
    tables: &HashTables,
    tuples: &Tuples,
    candidates: &mut Candidates,
    test: &T,
    into: &mut Tuple,
) -> Result<Option<SlotNo>, Failed>
    requires may_read { MayRead (V.state files.old) tuples.now candidates.old }
    ensures steps { let state = V.state files.old in let all = rows state.files tuples.now in
        IsTrue state.tells → IfOk result (λ found. Fits candidates.old state tables.now all
        → StepsToRow found (T.passes test.now) candidates.old candidates.new state tables.now all
        (V.reads files.old) (V.reads files.new)) }
    ensures advances { IfOk result (λ found. Advances found candidates.old candidates.new) }
    ensures ended { IfOk result (λ found. IfNone found (candidates.new.from ≡ candidates.new.slots)) }
    ensures row { let state = V.state files.old in let all = rows state.files tuples.now in
        IsTrue state.tells → IfOk result (λ found. IfSome found (λ slot.
        get_or all slot no_row ≡ record { tuple = into.new; live = true })) }
    ensures suits { IfOk result (λ found. IfSome found (λ _.
        AllSuit tuples.now.schema.attributes into.new)) }
    ensures reads_err { let state = V.state files.old in let all = rows state.files tuples.now in
        IsTrue state.tells → OnErr result (Fits candidates.old state tables.now all
        → V.reads files.new ≤ V.reads files.old + cost_ahead candidates.old all) }
    ensures reads_failed { let state = V.state files.old in let all = rows state.files tuples.now in
        let slots = passed_until (T.passes test.now) all (ahead candidates.old all) in
        IsTrue state.tells → OnErr result (Fits candidates.old state tables.now all
        → V.reads files.new ≤ V.reads files.old + cost_of_slots candidates.old all (length slots)) }
    ensures frame { OnlyReads V.state V.lent V.reads V.faults files.old files.new result }
{
    let mut bytes = [0; ROW_SIZE];
    let row = &mut bytes[..tuples.length()];
    match next_bytes(files, tables, tuples, candidates, test, row)? {
        None => Ok(None),
        Some(slot) => {
            get_tuple(&tuples.schema.attributes, row, into);
            Ok(Some(slot))
        }
    }
}

/// The same, where the bytes of the row stand in `row`.
pub(crate) fn next_bytes<V: Files, T: Test>(
    files: &mut V,
    tables: &HashTables,
    tuples: &Tuples,
    candidates: &mut Candidates,
    test: &T,
    row: &mut [u8],
) -> Result<Option<SlotNo>, Failed>
    requires may_read { MayRead (V.state files.old) tuples.now candidates.old }
    requires size { 0 < candidates.old.slots
        → length row.old ≡ row_length tuples.now.schema.attributes }
    ensures steps { let state = V.state files.old in let all = rows state.files tuples.now in
        IsTrue state.tells → IfOk result (λ found. Fits candidates.old state tables.now all
        → StepsToRow found (T.passes test.now) candidates.old candidates.new state tables.now all
        (V.reads files.old) (V.reads files.new)) }
    ensures advances { IfOk result (λ found. Advances found candidates.old candidates.new) }
    ensures ended { IfOk result (λ found. IfNone found (candidates.new.from ≡ candidates.new.slots)) }
    ensures row { let state = V.state files.old in let all = rows state.files tuples.now in
        IsTrue state.tells → IfOk result (λ found. IfSome found (λ slot. get_or all slot no_row
        ≡ record { tuple = tuple_of tuples.now.schema.attributes row.new; live = true })) }
    ensures suits { let attributes = tuples.now.schema.attributes in
        IfOk result (λ found. IfSome found (λ _. AllSuit attributes (tuple_of attributes row.new))) }
    ensures whole { IfOk result (λ found. IfSome found (λ _.
        length row.new ≡ row_length tuples.now.schema.attributes)) }
    ensures size { length row.new ≡ length row.old }
    ensures reads_err { let state = V.state files.old in let all = rows state.files tuples.now in
        IsTrue state.tells → OnErr result (Fits candidates.old state tables.now all
        → V.reads files.new ≤ V.reads files.old + cost_ahead candidates.old all) }
    ensures reads_failed { let state = V.state files.old in let all = rows state.files tuples.now in
        let slots = passed_until (T.passes test.now) all (ahead candidates.old all) in
        IsTrue state.tells → OnErr result (Fits candidates.old state tables.now all
        → V.reads files.new ≤ V.reads files.old + cost_of_slots candidates.old all (length slots)) }
    ensures frame { OnlyReads V.state V.lent V.reads V.faults files.old files.new result }
{
    'slots: loop {
        match candidates.next(files, tables)? {
            None => return Ok(None),
            Some(slot) => {
                if is_answer(files, tuples, slot, test, row)? {
                    return Ok(Some(slot));
                }
            }
        }
    }
}
