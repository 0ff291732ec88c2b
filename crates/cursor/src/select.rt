//! Cursors of one relation.

#![tactic(auto)]

ghost use Rattle.std.specs.Prelude.{None, ◌≡◌, ◌+◌, ◌<◌, ◌≤◌, ◌∷◌, [], IfNone, IfOk, IfSome, IsTrue, MatchOption, OnErr, OnOk, Option, List, length};
ghost use Rattle.afl_base.specs.Keeping.{OnlyReads};
ghost use Rattle.db_model.specs.declared.schemas.Attribute.{Attribute};
ghost use Rattle.db_model.specs.Ahead.{walk_of as walk_by};
ghost use Rattle.db_model.specs.Answers.{selected};
ghost use Rattle.db_model.specs.Cond.{Cond};
ghost use Rattle.db_model.specs.Cost.{begin_cost, chosen_cost};
ghost use Rattle.db_model.specs.Plan.{plan, ranges_of};
ghost use Rattle.db_model.specs.Row.{AllSuit, Row, row_length, tuple_of};
ghost use Rattle.index_set.specs.Complete.{AreIndexesOf, AreReadable};
ghost use Rattle.index_set.specs.Plans.{kinds};
ghost use Rattle.index_set.specs.Walks.{Advances, Fits, Waits, cost_ahead, walk_of_search};
ghost use Rattle.lvm.specs.Code.{IsCodeOf};
ghost use Rattle.tuple_file.specs.Tuples.{HoldsRows, rows, slots};
ghost use Rattle.cursor.specs.Remaining.{AreOnNumbers, BeginsBy, FailsRow, IsNewCursor, IsRowOf, MayRead, Yields, next_cost, remaining, slots_to_answer};

use crate::fields::selects_row;
use crate::walk::{Test, next_bytes, next_row};
use afl_base::{Failed, Files, SlotNo};
use db_model::{Attribute, Range, Tuple};
use index_set::{Candidates, HashTables, Indexes, Search};
use lvm::Code;
use tuple_file::Tuples;

/// The rows of a relation that satisfy a condition, one after the other. It lies where its owner puts it, and
/// begins there: its code alone takes 1.3 KB, of which no copy is on the stack then.
#[derive(Drop)]
pub struct SelectCursor {
    pub tuples: Tuples,
    pub code: Code,
    pub candidates: Candidates,
}

impl Test for Code {
    ghost use Rattle.cursor.specs.Remaining.{passes_code};

    ghost passes = { passes_code };

    fn holds<'a>(&self, attributes: &'a [Attribute], row: &'a [u8]) -> bool {
        selects_row(self, attributes, row)
    }
}

// The ranges of the attributes at the eight places.
fn ranges_of(code: &Code) -> [Range; 8]
    ensures { (attributes : List Attribute) (condition : Option Cond) → IsCodeOf attributes condition code.now
        → result ≡ ranges_of attributes condition }
{
    [
        code.derive(0),
        code.derive(1),
        code.derive(2),
        code.derive(3),
        code.derive(4),
        code.derive(5),
        code.derive(6),
        code.derive(7),
    ]
}

/// The candidates of a cursor that has not begun: none.
pub fn none_begun() -> Candidates
    ensures { result.slots ≡ 0 }
{
    Candidates {
        search: Search::Nothing,
        place: None,
        hint: None,
        from: 0,
        end: 0,
        slots: 0,
    }
}

impl SelectCursor {
    /// Begins over the slots that the relation has now. What is answered is fixed with that: the rows
    /// of these slots that the condition of the code selects.
    pub fn begin<V: Files>(
        &mut self,
        files: &mut V,
        tables: &HashTables,
        indexes: &Indexes,
    ) -> Result<(), Failed>
        requires holds { HoldsRows (V.state files.old) self.old.tuples }
        requires numbers { AreOnNumbers self.old.tuples.schema.attributes indexes.now }
        requires readable { let state = V.state files.old in
            AreReadable state (slots state.files self.old.tuples) indexes.now }
        ensures begins { let state = V.state files.old in let all = rows state.files self.old.tuples in
            let attributes = self.old.tuples.schema.attributes in IsTrue state.tells → OnOk result (
            (condition : Option Cond) → IsCodeOf attributes condition self.old.code
            → AreIndexesOf state tables.now all indexes.now
            → BeginsBy self.new attributes condition indexes.now all) }
        ensures walk { let attributes = self.old.tuples.schema.attributes in OnOk result (
            (condition : Option Cond) → IsCodeOf attributes condition self.old.code
            → walk_of_search self.new.candidates.search
            ≡ walk_by (kinds indexes.now) (plan (kinds indexes.now) (ranges_of attributes condition))) }
        ensures fits { let state = V.state files.old in let all = rows state.files self.old.tuples in
            IsTrue state.tells → OnOk result (
            AreIndexesOf state tables.now all indexes.now → Fits self.new.candidates state tables.now all) }
        ensures begun { let count = slots (V.state files.old).files self.old.tuples in
            OnOk result (IsNewCursor self.new self.old.tuples self.old.code count indexes.now) }
        ensures may_read { OnOk result (MayRead (V.state files.old) self.old.tuples self.new.candidates) }
        ensures reads { let state = V.state files.old in
            let attributes = self.old.tuples.schema.attributes in
            (condition : Option Cond) → IsCodeOf attributes condition self.old.code
            → V.reads files.new ≤ V.reads files.old + begin_cost (slots state.files self.old.tuples)
            (plan (kinds indexes.now) (ranges_of attributes condition)) }
        ensures frame { OnlyReads V.state V.lent V.reads V.faults files.old files.new result }
    {
        let ranges = ranges_of(&self.code);
        let slots = self.tuples.count(files);
        let candidates = Candidates::begin(files, tables, indexes, &ranges, slots)?;
        self.candidates = candidates;
        Ok(())
    }

    /// Holds where in a tree it stands for a hint alone: what remains is the same, and it goes on rightly
    /// whatever is inserted from now on.
    pub fn rest(&mut self)
        ensures rests { let stood = self.old.candidates.place in self.new
            ≡ record self.old { candidates = record self.old.candidates { place = None; hint = stood } } }
        ensures remaining { (all : List Row) → remaining self.new all ≡ remaining self.old all }
        ensures slots_left { (all : List Row) → slots_to_answer self.new all ≡ slots_to_answer self.old all }
        ensures waits { (all : List Row) → Waits self.old.candidates all
            → Waits self.new.candidates all }
    {
        let mut candidates = self.candidates;
        candidates.rest();
        self.candidates = candidates;
    }

    /// Puts the next tuple into `into` and answers its slot, `None` exactly after the last. Then it
    /// stands after all its slots, and answers `None` from now on.
    pub fn next<V: Files>(
        &mut self,
        files: &mut V,
        tables: &HashTables,
        into: &mut Tuple,
    ) -> Result<Option<SlotNo>, Failed>
        requires may_read { MayRead (V.state files.old) self.old.tuples self.old.candidates }
        ensures yields { let state = V.state files.old in let all = rows state.files self.old.tuples in
            IsTrue state.tells → IfOk result (λ found. Fits self.old.candidates state tables.now all
            → Yields found into.new self.old self.new state tables.now all (V.reads files.old) (V.reads files.new)) }
        ensures advances { IfOk result (λ found. Advances found self.old.candidates self.new.candidates) }
        ensures ended { IfOk result (λ found.
            IfNone found (self.new.candidates.from ≡ self.new.candidates.slots)) }
        ensures stands { self.new ≡ record self.old { candidates = self.new.candidates } }
        ensures unmoved { OnErr result (self.new ≡ self.old) }
        ensures suits { IfOk result (λ found. IfSome found (λ _.
            AllSuit self.old.tuples.schema.attributes into.new)) }
        ensures may_read { MayRead (V.state files.old) self.new.tuples self.new.candidates }
        ensures reads_err { let state = V.state files.old in
            let all = rows state.files self.old.tuples in
            IsTrue state.tells → OnErr result (Fits self.old.candidates state tables.now all
            → V.reads files.new ≤ V.reads files.old + cost_ahead self.old.candidates all) }
        ensures reads_failed { let state = V.state files.old in
            let all = rows state.files self.old.tuples in
            IsTrue state.tells → OnErr result (Fits self.old.candidates state tables.now all
            → V.reads files.new ≤ V.reads files.old + next_cost self.old all) }
        ensures frame { OnlyReads V.state V.lent V.reads V.faults files.old files.new result }
    {
        let mut candidates = self.candidates;
        let found = next_row(
            files,
            tables,
            &self.tuples,
            &mut candidates,
            &self.code,
            into,
        )?;
        self.candidates = candidates;
        Ok(found)
    }

    /// The same, where the bytes of the row stand in `row`, and its tuple is not decoded.
    pub fn next_bytes<V: Files>(
        &mut self,
        files: &mut V,
        tables: &HashTables,
        row: &mut [u8],
    ) -> Result<Option<SlotNo>, Failed>
        requires may_read { MayRead (V.state files.old) self.old.tuples self.old.candidates }
        requires size { 0 < self.old.candidates.slots
            → length row.old ≡ row_length self.old.tuples.schema.attributes }
        ensures yields { let state = V.state files.old in let all = rows state.files self.old.tuples in
            let tuple = tuple_of self.old.tuples.schema.attributes row.new in
            IsTrue state.tells → IfOk result (λ found. Fits self.old.candidates state tables.now all
            → Yields found tuple self.old self.new state tables.now all (V.reads files.old) (V.reads files.new)) }
        ensures advances { IfOk result (λ found. Advances found self.old.candidates self.new.candidates) }
        ensures ended { IfOk result (λ found.
            IfNone found (self.new.candidates.from ≡ self.new.candidates.slots)) }
        ensures stands { self.new ≡ record self.old { candidates = self.new.candidates } }
        ensures unmoved { OnErr result (self.new ≡ self.old) }
        ensures row { let attributes = self.old.tuples.schema.attributes in
            IfOk result (λ found. IfSome found (λ _. IsRowOf attributes row.new)) }
        ensures size { length row.new ≡ length row.old }
        ensures may_read { MayRead (V.state files.old) self.new.tuples self.new.candidates }
        ensures fails { let state = V.state files.old in let all = rows state.files self.old.tuples in
            IsTrue state.tells → OnErr result (Fits self.old.candidates state tables.now all
            → FailsRow self.old all (V.reads files.old) (V.reads files.new)) }
        ensures frame { OnlyReads V.state V.lent V.reads V.faults files.old files.new result }
    {
        let mut candidates = self.candidates;
        let found = next_bytes(
            files,
            tables,
            &self.tuples,
            &mut candidates,
            &self.code,
            row,
        )?;
        self.candidates = candidates;
        Ok(found)
    }
}
