//! The slots of a relation whose keys lie in the ranges of a condition, one after the other.

#![tactic(auto)]

ghost use Rattle.std.specs.Prelude.{None, ℤ, ◌≡◌, ◌≢◌, ◌+◌, ◌<◌, ◌≤◌, ◌∷◌, [], List, IfNone, IfOk, IfSome, IsFalse, IsTrue, OnOk, OnErr, MatchOption, length, max};
ghost use Rattle.afl_base.specs.Keeping.{OnlyReads};
ghost use Rattle.afl_base.specs.Files.{IsLive, State};
ghost use Rattle.db_model.specs.Ahead.{walk_of as walk_by};
ghost use Rattle.db_model.specs.Cost.{begin_cost, chosen_cost, keys_beside};
ghost use Rattle.db_model.specs.Plan.{plan};
ghost use Rattle.db_model.specs.Row.{Row};
ghost use Rattle.index_set.specs.Complete.{AreIndexesOf, AreReadable};
ghost use Rattle.index_set.specs.Plans.{kinds, slots_passed};
ghost use Rattle.index_set.specs.Tables.{Tables, entries};
ghost use Rattle.index_maxheap.specs.Searches.{walk_left};
ghost use Rattle.afl_base.specs.Keys.{IsFirstOf};
ghost use Rattle.index_set.specs.Walks.{Advances, BeginsWalk, FindsAhead, Fits, HasPlace, IsChosen, IsEnded, IsMoved, IsMovedBy, IsSafeBy, LacksKey, Steps, Waits, ahead, reads_ahead, reads_next, walk_of_search};

use crate::candidates::{Candidates, Search};
use crate::choices::{Plan, choose, range_of};
use crate::info::{Indexes, TableId};
use crate::tables::HashTables;
use afl_base::{Failed, FileId, Files, SlotNo};
use db_model::Range;
use index_inline::range as slots_within;
use index_maxheap::{Place, next as next_in};

// After all buckets of a path.
const BEHIND: Place = Place {
    bucket: 0,
    pair: 0,
    hop: 65535,
};

impl Candidates {
    /// Chooses an index by the ranges of the keys, and finds where to begin. It reads nothing but
    /// where the keys are in order.
    pub fn begin<V: Files>(
        files: &mut V,
        tables: &HashTables,
        indexes: &Indexes,
        ranges: &[Range; 8],
        slots: u16,
    ) -> Result<Candidates, Failed>
        requires few { slots ≤ 32768 }
        requires readable { AreReadable (V.state files.old) slots indexes.now }
        ensures begins { let state = V.state files.old in IsTrue state.tells → IfOk result (λ c.
            (all : List Row) → slots ≤ length all → AreIndexesOf state tables.now all indexes.now
            → BeginsWalk c slots indexes.now ranges.now state tables.now all) }
        ensures rests { IfOk result (λ c. c.place ≡ None) }
        ensures safe { IfOk result (λ c. IsSafeBy c.search (V.state files.old)) }
        ensures chosen { IfOk result (λ c. IsChosen c.search indexes.now) }
        ensures walk { IfOk result (λ c. walk_of_search c.search
            ≡ walk_by (kinds indexes.now) (plan (kinds indexes.now) ranges.now)) }
        ensures slots { IfOk result (λ c. c.slots ≡ slots) }
        ensures reads { let plan = plan (kinds indexes.now) ranges.now in
            V.reads files.new ≤ V.reads files.old + begin_cost slots plan }
        ensures frame { OnlyReads V.state V.lent V.reads V.faults files.old files.new result }
    {
        let plan = choose(indexes, ranges);
        match plan {
            Plan::Nothing => Ok(at_start(Search::Nothing, slots)),
            Plan::Scan => Ok(at_start(Search::Scan, slots)),
            Plan::Order { nth } => {
                let info = indexes.get(usize::from(nth));
                let range = range_of(ranges, info.attribute);
                let (from, end) = slots_within(files, &info.column, slots, &range)?;
                let search = Search::Order {
                    attribute: info.attribute,
                    range,
                };
                Ok(between(search, from, end, slots))
            }
            Plan::Tree { nth, file, key } => {
                let attribute = indexes.get(usize::from(nth)).attribute;
                Ok(at_start(
                    Search::Tree {
                        attribute,
                        file,
                        key,
                    },
                    slots,
                ))
            }
            Plan::Table { nth, table, key } => {
                let attribute = indexes.get(usize::from(nth)).attribute;
                Ok(at_start(
                    Search::Table {
                        attribute,
                        table,
                        key,
                    },
                    slots,
                ))
            }
        }
    }

    /// Holds where in a tree it stands for a hint alone. The slots to come are the same, and whatever is
    /// inserted from now on it goes on rightly.
    pub fn rest(&mut self)
        ensures rests { self.new ≡ record self.old { place = None; hint = self.old.place } }
        ensures ahead { (all : List Row) → ahead self.new all ≡ ahead self.old all }
        ensures waits { (all : List Row) → Waits self.old all → Waits self.new all }
        ensures fits { (state : State) (tables : Tables) (all : List Row) → Fits self.old state tables all
            → Fits self.new state tables all }
    {
        self.hint = self.place;
        self.place = None;
    }

    /// Passes the slots below one, where it rests. Nothing is asked of the hint where in a tree that is.
    pub fn skip(&mut self, from: u16, hint: Option<Place>)
        requires within { from ≤ self.old.slots }
        requires rests { self.old.place ≡ None }
        ensures from { self.new.from ≡ max self.old.from from }
        ensures rests { self.new.place ≡ None }
        ensures slots { self.new.slots ≡ self.old.slots }
        ensures search { self.new.search ≡ self.old.search }
        ensures fits { (state : State) (tables : Tables) (all : List Row) → Fits self.old state tables all
            → Fits self.new state tables all }
    {
        self.hint = hint;
        if self.from < from {
            self.from = from;
        }
        if self.end < from {
            self.end = from;
        }
    }

    /// The next slot, `None` exactly after the last. Then it stands after all its slots, and answers
    /// `None` from now on.
    pub fn next<V: Files>(
        &mut self,
        files: &mut V,
        tables: &HashTables,
    ) -> Result<Option<SlotNo>, Failed>
        requires safe { 0 < self.old.slots → IsSafeBy self.old.search (V.state files.old) }
        ensures steps { let state = V.state files.old in IsTrue state.tells → IfOk result (λ found.
            (all : List Row) → Fits self.old state tables.now all
            → Steps found self.old self.new state tables.now all (V.reads files.old) (V.reads files.new)) }
        ensures advances { IfOk result (λ found. Advances found self.old self.new) }
        ensures ended { IfOk result (λ found. IfNone found (self.new.from ≡ self.new.slots)) }
        ensures unmoved { OnErr result (self.new ≡ self.old) }
        ensures reads_err { let state = V.state files.old in IsTrue state.tells → OnErr result
            ((all : List Row) → Fits self.old state tables.now all
            → V.reads files.new ≤ V.reads files.old + reads_next self.old all) }
        ensures frame { OnlyReads V.state V.lent V.reads V.faults files.old files.new result }
    {
        match self.find(files, tables)? {
            None => {
                self.finish();
                Ok(None)
            }
            Some(slot) => Ok(Some(slot)),
        }
    }

    // Goes after all its slots.
    fn finish(&mut self)
        ensures { IsEnded self.old self.new }
    {
        self.from = self.slots;
        self.end = self.slots;
    }

    /// Whether no slot is left, told without a read. Of a tree it is not told.
    pub fn is_over(&self, tables: &HashTables) -> bool
        ensures over { IsTrue result → (state : State) (all : List Row) → Fits self.now state tables.now all
            → ahead self.now all ≡ [] }
        ensures more { IsFalse result → walk_of_search self.now.search ≡ None
            → (state : State) (all : List Row) → Fits self.now state tables.now all
            → ahead self.now all ≢ [] }
    {
        let mut peeked = *self;
        match self.search {
            Search::Nothing => true,
            Search::Scan => peeked.next_below(self.slots).is_none(),
            Search::Order { .. } => peeked.next_below(self.end).is_none(),
            Search::Tree { .. } => false,
            Search::Table { table, key, .. } => peeked.next_in_table(tables, table, &key).is_none(),
        }
    }

    // The next slot. Where there is none, it stands where it did.
    fn find<V: Files>(
        &mut self,
        files: &mut V,
        tables: &HashTables,
    ) -> Result<Option<SlotNo>, Failed>
        requires safe { 0 < self.old.slots → IsSafeBy self.old.search (V.state files.old) }
        ensures finds { let state = V.state files.old in IsTrue state.tells → IfOk result (λ found.
            (all : List Row) → Fits self.old state tables.now all
            → FindsAhead found self.old self.new state tables.now all) }
        ensures reads { let state = V.state files.old in IsTrue state.tells → OnOk result
            ((all : List Row) → Fits self.old state tables.now all
            → V.reads files.new + reads_ahead self.new all
            ≤ V.reads files.old + reads_ahead self.old all) }
        ensures advances { IfOk result (λ found. Advances found self.old self.new) }
        ensures unmoved { OnErr result (self.new ≡ self.old) }
        ensures reads_err { let state = V.state files.old in IsTrue state.tells → OnErr result
            ((all : List Row) → Fits self.old state tables.now all
            → V.reads files.new ≤ V.reads files.old + reads_next self.old all) }
        ensures frame { OnlyReads V.state V.lent V.reads V.faults files.old files.new result }
    {
        let search = self.search;
        match search {
            Search::Nothing => Ok(None),
            Search::Scan => Ok(self.next_below(self.slots)),
            Search::Order { .. } => Ok(self.next_below(self.end)),
            Search::Tree { file, key, .. } => self.next_in_tree(files, file, &key),
            Search::Table { table, key, .. } => Ok(self.next_in_table(tables, table, &key)),
        }
    }

    // The next slot, where it is below an end.
    fn next_below(&mut self, end: u16) -> Option<SlotNo>
        requires within { end ≤ self.old.slots }
        ensures next { let from = self.old.from in MatchOption result (end ≤ from)
            (λ slot. (slot ≡ from) × (slot < end)) }
        ensures moved { IsMoved result self.old self.new }
        ensures end { MatchOption result (self.new.end ≡ self.old.end) (λ slot. self.new.end ≡ end) }
    {
        if end <= self.from {
            return None;
        }
        let slot = SlotNo::new(self.from)?;
        self.from += 1;
        self.end = end;
        Some(slot)
    }

    // The next slot of a key, by a tree.
    fn next_in_tree<V: Files>(
        &mut self,
        files: &mut V,
        file: FileId,
        key: &i32,
    ) -> Result<Option<SlotNo>, Failed>
        requires live { 0 < self.old.slots → IsLive (V.state files.old).files file }
        ensures next { IsTrue (V.state files.old).tells → IfOk result (λ found.
            (keys : List ℤ) → HasPlace (V.state files.old) file key.now keys self.old → self.old.slots ≤ length keys
            → MatchOption found (LacksKey key.now keys self.old.from self.old.slots)
            (λ slot. IsFirstOf key.now keys self.old.from slot × HasPlace (V.state files.old) file key.now keys self.new)) }
        ensures moved { IfOk result (λ found. IsMovedBy found self.old self.new) }
        ensures unmoved { OnErr result (self.new ≡ self.old) }
        ensures unread { self.old.slots ≤ self.old.from → V.reads files.new ≡ V.reads files.old }
        ensures over { self.old.slots ≤ self.old.from → self.new ≡ self.old }
        ensures reads { IsTrue (V.state files.old).tells
            → (keys : List ℤ) → HasPlace (V.state files.old) file key.now keys self.old → self.old.slots ≤ length keys
            → IfOk result (λ found. MatchOption found
            (V.reads files.new + walk_left (keys_beside key.now keys) self.new.place
            ≤ V.reads files.old + walk_left (keys_beside key.now keys) self.old.place)
            (λ _. V.reads files.new + walk_left (keys_beside key.now keys) self.new.place
            ≤ V.reads files.old + walk_left (keys_beside key.now keys) self.old.place + 9)) }
        ensures reads_err { IsTrue (V.state files.old).tells
            → (keys : List ℤ) → HasPlace (V.state files.old) file key.now keys self.old
            → V.reads files.new ≤ V.reads files.old + walk_left (keys_beside key.now keys) self.old.place }
        ensures frame { OnlyReads V.state V.lent V.reads V.faults files.old files.new result }
    {
        if self.slots <= self.from {
            return Ok(None);
        }
        match next_in(files, file, key, self.place, self.hint, self.from)? {
            None => {
                self.place = Some(BEHIND);
                Ok(None)
            }
            Some(found) => {
                let slot = found.slot;
                if self.slots <= slot.number() {
                    self.place = Some(BEHIND);
                    return Ok(None);
                }
                self.place = Some(found.place);
                self.from = slot.number() + 1;
                self.end = self.slots;
                Ok(Some(slot))
            }
        }
    }

    // The next slot of a key, by a table.
    fn next_in_table(&mut self, tables: &HashTables, table: TableId, key: &i32) -> Option<SlotNo>
        ensures next { let keys = entries tables.now table in self.old.slots ≤ length keys
            → MatchOption result (LacksKey key.now keys self.old.from self.old.slots)
            (λ slot. IsFirstOf key.now keys self.old.from slot) }
        ensures moved { IsMovedBy result self.old self.new }
        ensures place { self.new.place ≡ self.old.place }
    {
        let slot = tables.next(table, key, self.from)?;
        if self.slots <= slot.number() {
            return None;
        }
        self.from = slot.number() + 1;
        self.end = self.slots;
        Some(slot)
    }
}

// A search of all slots, which has answered none.
fn at_start(search: Search, slots: u16) -> Candidates
    requires few { slots ≤ 32768 }
    ensures search { result.search ≡ search }
    ensures place { result.place ≡ None }
    ensures from { result.from ≡ 0 }
    ensures end { result.end ≡ slots }
    ensures slots { result.slots ≡ slots }
{
    between(search, 0, slots, slots)
}

// A search that has answered none of the slots from one on and below another.
fn between(search: Search, from: u16, end: u16, slots: u16) -> Candidates
    requires order { from ≤ end }
    requires within { end ≤ slots }
    requires few { slots ≤ 32768 }
    ensures search { result.search ≡ search }
    ensures place { result.place ≡ None }
    ensures from { result.from ≡ from }
    ensures end { result.end ≡ end }
    ensures slots { result.slots ≡ slots }
{
    Candidates {
        search,
        place: None,
        hint: None,
        from,
        end,
        slots,
    }
}
