//! The slots of the rows that a condition selects.

#![tactic(auto)]

ghost use Rattle.std.specs.Prelude.{◌≡◌, ◌+◌, ◌<◌, ◌≤◌, ◌∷◌, ℕ, List, IfOk, IsTrue, OnOk, get_or, length};
ghost use Rattle.afl_base.specs.Keeping.{OnlyReads};
ghost use Rattle.index_set.specs.Walks.{Fits};
ghost use Rattle.tuple_file.specs.Tuples.{rows};
ghost use Rattle.cursor.specs.Remaining.{MayRead, slots_to_answer};
ghost use Rattle.session_rows.specs.Marking.{AreBelow, IsMarkedFront, IsSelected};

use afl_base::{Failed, Files, SlotNo};
use cursor::SelectCursor;
use db_model::Few;
use index_set::HashTables;
use tuple_file::{ROW_SIZE, Span};

/// How many slots are selected, the first 29 of them, and one past the last.
#[derive(Drop)]
pub(crate) struct Selected {
    pub count: u16,
    pub first: Few<SlotNo, 29>,
    pub end: u16,
}

impl Selected {
    /// From the first slot that is selected to the last.
    pub(crate) fn span(&self) -> Span
        ensures first { result.first ≡ get_or self.now.first 0 0 }
        ensures end { result.end ≡ self.now.end }
    {
        let first = if self.first.is_empty() {
            0
        } else {
            self.first.get(0).number()
        };
        Span {
            first,
            end: self.end,
        }
    }

    // One more slot is selected.
    fn add(&mut self, slot: SlotNo)
        requires few { self.old.count < 65535 }
        ensures count { self.new.count ≡ self.old.count + 1 }
        ensures end { self.new.end ≡ slot + 1 }
        ensures front { (slots left : List ℕ) → self.old.end ≤ slot → IsMarkedFront self.old slots (slot ∷ left)
            → IsMarkedFront self.new slots left }
        ensures below { (n : ℕ) → AreBelow n self.old.first → slot < n → AreBelow n self.new.first }
        ensures more { length self.new.first ≤ length self.old.first + 1 }
    {
        self.count += 1;
        self.end = slot.number() + 1;
        if self.first.len() < 29 {
            self.first.push(slot);
        }
    }
}

/// Goes over the rows that remain of a cursor, once.
pub(crate) fn select_slots<V: Files>(
    files: &mut V,
    tables: &HashTables,
    cursor: &mut SelectCursor,
) -> Result<Selected, Failed>
    requires may_read { MayRead (V.state files.old) cursor.old.tuples cursor.old.candidates }
    ensures selected { let state = V.state files.old in
        let all = rows state.files cursor.old.tuples in
        IsTrue state.tells → IfOk result (λ selected.
        Fits cursor.old.candidates state tables.now all
        → IsSelected selected (slots_to_answer cursor.old all)) }
    ensures below { IfOk result (λ selected. AreBelow cursor.old.candidates.slots selected.first) }
    ensures few { IfOk result (λ selected. length selected.first ≤ selected.count) }
    ensures code { OnOk result (cursor.new.code ≡ cursor.old.code) }
    ensures frame { OnlyReads V.state V.lent V.reads V.faults files.old files.new result }
{
    let mut selected = Selected {
        count: 0,
        first: Few::new(),
        end: 0,
    };
    let mut bytes = [0; ROW_SIZE];
    let row = &mut bytes[..cursor.tuples.length()];
    'slots: loop {
        match cursor.next_bytes(files, tables, row)? {
            Some(slot) => selected.add(slot),
            None => break,
        }
    }
    Ok(selected)
}
