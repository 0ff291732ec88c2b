//! A block of left rows of a join, for which the right rows are read once.

#![tactic(auto)]

ghost use Rattle.std.specs.Prelude.{None, ◌≡◌, ◌+◌, ◌*◌, ◌-◌, ◌<◌, ◌≤◌, ◌≢◌, ◌==◌, ℕ, ℤ, Some, IfNone, IfOk, IfSome, IsFalse, IsTrue, OnErr, OnOk, List, false, get_or, length, not, slice_get};
ghost use Rattle.std.specs.List.{list_all};
ghost use Rattle.afl_base.specs.Keeping.{OnlyReads};
ghost use Rattle.db_model.specs.Row.{Row, fields_length, no_row, row_length, tuple_of};
ghost use Rattle.tuple_file.specs.Column.{IsNumber};
ghost use Rattle.tuple_file.specs.Tuples.{HoldsRows, rows, slots};
ghost use Rattle.cursor.specs.Pairs.{HasLive, MayReadPairs, join_cost_ahead};
ghost use Rattle.cursor.specs.Blocks.{AreMarked, BeginsAt, FindsSlot, HasMet, HoldsLefts, IsBlockFor, IsBlockOf, IsSameBlock, LiesBetween, MayReadBy, WasRead, cost_by_block, number_held, number_of_row, number_of_value};

use crate::join::JoinCursor;
use crate::marks::{Marks, mark_of};
use afl_base::{Failed, Files, SlotNo};
use db_model::{Attribute, Domain, Tuple};
use index_set::IndexInfo;
use tuple_file::{Field, ROW_SIZE, Tuples, field_at, get_tuple, is_live, values_suit};

/// The numbers of up to 256 left rows, and for each the first and the last of the right slots read so
/// far that have the same.
#[derive(Drop)]
pub struct Block {
    /// Whether the join goes by blocks.
    pub serves: bool,
    /// The left slots from the first on, to the last and 1.
    pub begin: u16,
    pub end: u16,
    /// How many right rows were read for it.
    pub seen: u16,
    numbers: [i64; 256],
    live: [bool; 256],
    firsts: [u16; 256],
    // The last slot and 1: 0 where there is none.
    ends: [u16; 256],
    // Which left rows may have a number: a right row is compared with no others.
    marks: Marks,
}

// Takes a slot between the first and the end of a row.
fn widen(firsts: &mut [u16; 256], ends: &mut [u16; 256], nth: usize, slot: u16)
    requires row { nth < 256 }
    requires slot { slot < 32768 }
    ensures firsts { (k s : ℕ) → get_or firsts.old k 0 ≤ s → get_or firsts.new k 0 ≤ s }
    ensures ends { (k s : ℕ) → s < get_or ends.old k 0 → s < get_or ends.new k 0 }
    ensures first { get_or firsts.new nth 0 ≤ slot }
    ensures end { slot < get_or ends.new nth 0 }
    ensures firsts_size { length firsts.new ≡ 256 }
    ensures ends_size { length ends.new ≡ 256 }
{
    if slot < firsts[nth] {
        firsts[nth] = slot;
    }
    if ends[nth] <= slot {
        ends[nth] = slot + 1;
    }
}

// The number at a place of a row.
fn number_at(attributes: &[Attribute], row: &[u8], place: u8) -> Option<i64>
    requires { fields_length attributes.now ≤ length row.now }
    ensures { result ≡ number_of_value (slice_get (tuple_of attributes.now row.now) place) }
{
    match field_at(attributes, row, place) {
        Some(Field::Number(number)) => Some(number),
        Some(Field::Text(_)) => None,
        None => None,
    }
}

// The number at a place of the row in a slot, none where the row is removed. Its bytes are read into `row`.
pub(crate) fn number_in<V: Files>(
    files: &mut V,
    tuples: &Tuples,
    slot: u16,
    place: u8,
    row: &mut [u8],
) -> Result<Option<i64>, Failed>
    requires holds { HoldsRows (V.state files.old) tuples.now }
    requires slot { slot < slots (V.state files.old).files tuples.now }
    requires size { length row.old ≡ row_length tuples.now.schema.attributes }
    ensures number { let all = rows (V.state files.old).files tuples.now in
        IsTrue (V.state files.old).tells
        → IfOk result (λ found. found ≡ number_of_row place (get_or all slot no_row)) }
    ensures tuple { let all = rows (V.state files.old).files tuples.now in
        IsTrue (V.state files.old).tells → IfOk result (λ found. IfSome found (λ _.
        HasLive all slot (tuple_of tuples.now.schema.attributes row.new))) }
    ensures removed { let all = rows (V.state files.old).files tuples.now in
        IsTrue (V.state files.old).tells → IfOk result (λ found.
        IfNone found (IsNumber tuples.now.schema.attributes place
        → (get_or all slot no_row).live ≡ false)) }
    ensures size { length row.new ≡ length row.old }
    ensures reads { V.reads files.new ≤ V.reads files.old + 6 }
    ensures frame { OnlyReads V.state V.lent V.reads V.faults files.old files.new result }
{
    let slot = match SlotNo::new(slot) {
        Some(slot) => slot,
        None => return Ok(None),
    };
    tuples.row_bytes(files, slot, row)?;
    values_suit(&tuples.schema.attributes, row);
    if !is_live(row) {
        return Ok(None);
    }
    Ok(number_at(tuples.schema.attributes.as_slice(), row, place))
}

// Whether a place has numbers.
fn has_numbers(tuples: &Tuples, place: u8) -> bool
    ensures { IsTrue result → IsNumber tuples.now.schema.attributes place }
{
    match tuples.schema.attributes.as_slice().get(usize::from(place)) {
        Some(attribute) => match attribute.domain {
            Domain::Int => true,
            Domain::Long => true,
            Domain::Time => true,
            Domain::Str(_) => false,
        },
        None => false,
    }
}

// Whether no index is on the attribute at a place.
fn lacks_index(indexes: &[IndexInfo], place: u8) -> bool
    ensures { result ≡ list_all (λ info. not (info.attribute == place)) indexes.now }
{
    indexes.iter().all(|index| index.attribute != place)
}

impl Block {
    /// A block for a join that begins: it serves where the left rows have numbers, and the right side
    /// no index on its attribute.
    pub fn over(cursor: &JoinCursor) -> Block
        requires at { cursor.now.at ≡ 0 }
        requires from { cursor.now.from ≡ 0 }
        requires rests { cursor.now.inner ≡ None }
        ensures may_read { MayReadBy result cursor.now }
        ensures holds { (lefts rights : List Row) → IsBlockOf result cursor.now lefts rights }
        ensures cost { (lefts rights : List Row)
            → cost_by_block result cursor.now lefts rights ≡ join_cost_ahead cursor.now lefts rights }
    {
        let marks = Marks::none();
        let serves = has_numbers(&cursor.left, cursor.left_on)
            && lacks_index(cursor.right_indexes.as_slice(), cursor.right_on);
        Block {
            serves,
            begin: 0,
            end: 0,
            seen: 0,
            numbers: [0; 256],
            live: [false; 256],
            firsts: [0; 256],
            ends: [0; 256],
            marks,
        }
    }

    // Takes the number of the next left row, none where it is removed.
    fn push(&mut self, number: &Option<i64>)
        requires few { self.old.end < self.old.begin + 256 }
        requires fits { self.old.end < 65535 }
        requires order { self.old.begin ≤ self.old.end }
        ensures kept { self.new ≡ record self.old {
          end = self.old.end + 1;
          numbers = self.new.numbers;
          live = self.new.live;
          firsts = self.new.firsts;
          ends = self.new.ends;
          marks = self.new.marks;
        } }
        ensures marked { AreMarked self.old → AreMarked self.new }
        ensures own { number_held self.new (self.old.end - self.old.begin) ≡ number.now }
        ensures others { (nth : ℕ) → nth < self.old.end - self.old.begin
            → number_held self.new nth ≡ number_held self.old nth }
    {
        let nth = usize::from(self.end - self.begin);
        match number {
            Some(number) => {
                self.numbers[nth] = *number;
                self.live[nth] = true;
                self.marks.set(number, nth as u8);
            }
            None => self.live[nth] = false,
        }
        self.firsts[nth] = u16::MAX;
        self.ends[nth] = 0;
        self.end += 1;
    }

    // Notes a right slot for a row, where that has its number. A removed row is never asked for its slots.
    fn note(&mut self, nth: usize, number: &i64, slot: u16)
        requires row { nth < 256 }
        requires slot { slot < 32768 }
        ensures kept { self.new ≡ record self.old { firsts = self.new.firsts; ends = self.new.ends } }
        ensures widens { (k s : ℕ) → LiesBetween self.old k s → LiesBetween self.new k s }
        ensures notes { number_held self.old nth ≡ Some number.now → LiesBetween self.new nth slot }
    {
        if self.numbers[nth] == *number {
            widen(&mut self.firsts, &mut self.ends, nth, slot);
        }
    }

    // Notes a right slot for the rows with its number.
    fn meet(&mut self, number: &i64, slot: u16)
        requires few { self.old.end ≤ self.old.begin + 256 }
        requires slot { slot < 32768 }
        ensures kept { self.new ≡ record self.old { firsts = self.new.firsts; ends = self.new.ends } }
        ensures widens { (k s : ℕ) → LiesBetween self.old k s → LiesBetween self.new k s }
        ensures meets { AreMarked self.old → (k : ℕ) → k < self.old.end - self.old.begin
            → number_held self.old k ≡ Some number.now → LiesBetween self.new k slot }
    {
        let mark = mark_of(number);
        let first = self.marks.first(mark);
        let end = self.marks.end(mark);
        for nth in first..end {
            self.note(usize::from(nth), number, slot);
        }
    }

    // The same where the row has a number.
    fn meet_found(&mut self, found: &Option<i64>, slot: u16)
        requires few { self.old.end ≤ self.old.begin + 256 }
        requires slot { slot < 32768 }
        ensures kept { self.new ≡ record self.old { firsts = self.new.firsts; ends = self.new.ends } }
        ensures widens { (k s : ℕ) → LiesBetween self.old k s → LiesBetween self.new k s }
        ensures meets { AreMarked self.old → (k : ℕ) (number : ℤ) → k < self.old.end - self.old.begin
            → number_held self.old k ≡ Some number → found.now ≡ Some number
            → LiesBetween self.new k slot }
    {
        match found {
            Some(number) => self.meet(number, slot),
            None => {}
        }
    }

    // Notes a right row that was read, by its number.
    fn see(&mut self, found: &Option<i64>, slot: u16)
        requires few { self.old.end ≤ self.old.begin + 256 }
        requires slot { slot < 32768 }
        requires order { slot ≤ self.old.seen }
        ensures kept { IsSameBlock self.old self.new }
        ensures widens { (k s : ℕ) → LiesBetween self.old k s → LiesBetween self.new k s }
        ensures meets { AreMarked self.old → (k : ℕ) (number : ℤ) → k < self.old.end - self.old.begin
            → number_held self.old k ≡ Some number → found.now ≡ Some number
            → LiesBetween self.new k slot }
        ensures seen { slot < self.new.seen }
        ensures others { (s : ℕ) → s < self.new.seen → s ≢ slot → s < self.old.seen }
        ensures most { (n : ℕ) → self.old.seen ≤ n → slot < n → self.new.seen ≤ n }
    {
        self.meet_found(found, slot);
        if self.seen <= slot {
            self.seen = slot + 1;
        }
    }

    // The number of a left row, none where it is removed.
    fn held(&self, nth: usize) -> Option<i64>
        requires { nth < 256 }
        ensures { result ≡ number_held self.now nth }
    {
        if self.live[nth] {
            Some(self.numbers[nth])
        } else {
            None
        }
    }

    // Takes the left rows from where the join stands.
    pub(crate) fn fill<V: Files>(
        &mut self,
        files: &mut V,
        cursor: &JoinCursor,
    ) -> Result<(), Failed>
        requires may_read { MayReadPairs (V.state files.old) cursor.now }
        requires here { cursor.now.at < cursor.now.left_slots }
        ensures kept { OnOk result (self.new.serves ≡ self.old.serves) }
        ensures begins { OnOk result (BeginsAt self.new cursor.now) }
        ensures marked { OnOk result (AreMarked self.new) }
        ensures lefts { IsTrue (V.state files.old).tells → OnOk result (
            IsNumber cursor.now.left.schema.attributes cursor.now.left_on
            → HoldsLefts self.new cursor.now.left_on (rows (V.state files.old).files cursor.now.left)) }
        ensures reads { OnOk result (V.reads files.new + 6 * cursor.now.at
            ≤ V.reads files.old + 6 * self.new.end) }
        ensures reads_err { OnErr result (V.reads files.new + 6 * cursor.now.at
            ≤ V.reads files.old + 6 * cursor.now.left_slots) }
        ensures frame { OnlyReads V.state V.lent V.reads V.faults files.old files.new result }
    {
        let end = cursor.left_slots.min(cursor.at.saturating_add(256));
        self.begin = cursor.at;
        self.end = cursor.at;
        self.seen = 0;
        self.marks = Marks::none();
        let mut bytes = [0; ROW_SIZE];
        let row = &mut bytes[..cursor.left.length()];
        'rows: while self.end < end {
            let number = number_in(files, &cursor.left, self.end, cursor.left_on, row)?;
            self.push(&number);
        }
        Ok(())
    }

    // Reads a right row into `row`, and notes it for the left rows with its number.
    fn read<V: Files>(
        &mut self,
        files: &mut V,
        cursor: &JoinCursor,
        slot: u16,
        row: &mut [u8],
    ) -> Result<Option<i64>, Failed>
        requires may_read { MayReadPairs (V.state files.old) cursor.now }
        requires here { slot < cursor.now.right_slots }
        requires few { self.old.end ≤ self.old.begin + 256 }
        requires seen { slot ≤ self.old.seen }
        requires size { length row.old ≡ row_length cursor.now.right.schema.attributes }
        ensures kept { OnOk result (IsSameBlock self.old self.new) }
        ensures seen { OnOk result (slot < self.new.seen) }
        ensures within { OnOk result (self.old.seen ≤ cursor.now.right_slots
            → self.new.seen ≤ cursor.now.right_slots) }
        ensures number { let all = rows (V.state files.old).files cursor.now.right in
            IsTrue (V.state files.old).tells
            → IfOk result (λ found. found ≡ number_of_row cursor.now.right_on (get_or all slot no_row)) }
        ensures tuple { let all = rows (V.state files.old).files cursor.now.right in
            IsTrue (V.state files.old).tells → IfOk result (λ found. IfSome found (λ _.
            HasLive all slot (tuple_of cursor.now.right.schema.attributes row.new))) }
        ensures size { length row.new ≡ length row.old }
        ensures met { let all = rows (V.state files.old).files cursor.now.right in
            IsTrue (V.state files.old).tells → OnOk result (HasMet self.old cursor.now.right_on all
            → HasMet self.new cursor.now.right_on all) }
        ensures reads { V.reads files.new ≤ V.reads files.old + 6 }
        ensures frame { OnlyReads V.state V.lent V.reads V.faults files.old files.new result }
    {
        let found = number_in(files, &cursor.right, slot, cursor.right_on, row)?;
        self.see(&found, slot);
        Ok(found)
    }

    // The first right slot that may be a partner of a left row, from where the join stands.
    fn first_of(&self, cursor: &JoinCursor, nth: usize) -> u16
        requires row { nth < 256 }
        requires from { cursor.now.from ≤ self.now.seen }
        requires seen { self.now.seen ≤ cursor.now.right_slots }
        ensures order { cursor.now.from ≤ result }
        ensures seen { result ≤ self.now.seen }
        ensures before { (s : ℕ) → cursor.now.from ≤ s → s < result
            → (self.now.seen ≡ cursor.now.right_slots) × (s < get_or self.now.firsts nth 0) }
    {
        if self.seen < cursor.right_slots {
            return cursor.from;
        }
        cursor.from.max(self.firsts[nth].min(self.seen))
    }

    // The slot behind the last that may be one.
    fn end_of(&self, cursor: &JoinCursor, nth: usize) -> u16
        requires row { nth < 256 }
        requires seen { self.now.seen ≤ cursor.now.right_slots }
        ensures within { result ≤ cursor.now.right_slots }
        ensures behind { (s : ℕ) → result ≤ s → s < cursor.now.right_slots
            → (self.now.seen ≡ cursor.now.right_slots) × (get_or self.now.ends nth 0 ≤ s) }
    {
        if self.seen < cursor.right_slots {
            return cursor.right_slots;
        }
        cursor.right_slots.min(self.ends[nth])
    }

    // The next right slot for the left row at which the join stands, `None` exactly where there is none.
    // Its tuple stands in `right`. Each right row is read once for the first left row of a block, and for the
    // others no more than those from the first partner to the last.
    pub(crate) fn partner<V: Files>(
        &mut self,
        files: &mut V,
        cursor: &JoinCursor,
        right: &mut Tuple,
    ) -> Result<Option<SlotNo>, Failed>
        requires may_read { MayReadPairs (V.state files.old) cursor.now }
        requires block { IsBlockFor self.old cursor.now }
        requires inside { cursor.now.at < self.old.end }
        ensures kept { OnOk result (IsSameBlock self.old self.new) }
        ensures seen { IfOk result (λ found. IfSome found (λ slot. WasRead slot self.new cursor.now)) }
        ensures within { OnOk result (self.new.seen ≤ cursor.now.right_slots) }
        ensures finds { let all = rows (V.state files.old).files cursor.now.right in
            IsTrue (V.state files.old).tells → IfOk result (λ found.
            HasMet self.old cursor.now.right_on all
            → FindsSlot found (number_held self.old (cursor.now.at - self.old.begin))
            cursor.now.right_on all cursor.now.from cursor.now.right_slots) }
        ensures tuple { let all = rows (V.state files.old).files cursor.now.right in
            IsTrue (V.state files.old).tells
            → IfOk result (λ found. IfSome found (λ slot. HasLive all slot right.new)) }
        ensures met { let all = rows (V.state files.old).files cursor.now.right in
            IsTrue (V.state files.old).tells → OnOk result (HasMet self.old cursor.now.right_on all
            → HasMet self.new cursor.now.right_on all) }
        ensures unread { number_held self.old (cursor.now.at - self.old.begin) ≡ None
            → V.reads files.new ≤ V.reads files.old }
        ensures reads { V.reads files.new + 6 * cursor.now.from
            ≤ V.reads files.old + 6 * cursor.now.right_slots }
        ensures reads_some { IfOk result (λ found. IfSome found (λ slot.
            V.reads files.new + 6 * cursor.now.from ≤ V.reads files.old + 6 * (slot + 1))) }
        ensures frame { OnlyReads V.state V.lent V.reads V.faults files.old files.new result }
    {
        let nth = usize::from(cursor.at - self.begin);
        match self.held(nth) {
            Some(number) => self.partner_of(files, cursor, nth, &number, right),
            None => Ok(None),
        }
    }

    // The same for its number.
    fn partner_of<V: Files>(
        &mut self,
        files: &mut V,
        cursor: &JoinCursor,
        nth: usize,
        number: &i64,
        right: &mut Tuple,
    ) -> Result<Option<SlotNo>, Failed>
        requires may_read { MayReadPairs (V.state files.old) cursor.now }
        requires block { IsBlockFor self.old cursor.now }
        requires inside { cursor.now.at < self.old.end }
        requires row { nth ≡ cursor.now.at - self.old.begin }
        requires held { number_held self.old nth ≡ Some number.now }
        ensures kept { OnOk result (IsSameBlock self.old self.new) }
        ensures seen { IfOk result (λ found. IfSome found (λ slot. WasRead slot self.new cursor.now)) }
        ensures within { OnOk result (self.new.seen ≤ cursor.now.right_slots) }
        ensures finds { let all = rows (V.state files.old).files cursor.now.right in
            IsTrue (V.state files.old).tells → IfOk result (λ found.
            HasMet self.old cursor.now.right_on all
            → FindsSlot found (number_held self.old (cursor.now.at - self.old.begin))
            cursor.now.right_on all cursor.now.from cursor.now.right_slots) }
        ensures tuple { let all = rows (V.state files.old).files cursor.now.right in
            IsTrue (V.state files.old).tells
            → IfOk result (λ found. IfSome found (λ slot. HasLive all slot right.new)) }
        ensures met { let all = rows (V.state files.old).files cursor.now.right in
            IsTrue (V.state files.old).tells → OnOk result (HasMet self.old cursor.now.right_on all
            → HasMet self.new cursor.now.right_on all) }
        ensures reads { V.reads files.new + 6 * cursor.now.from
            ≤ V.reads files.old + 6 * cursor.now.right_slots }
        ensures reads_some { IfOk result (λ found. IfSome found (λ slot.
            V.reads files.new + 6 * cursor.now.from ≤ V.reads files.old + 6 * (slot + 1))) }
        ensures frame { OnlyReads V.state V.lent V.reads V.faults files.old files.new result }
    {
        let end = self.end_of(cursor, nth);
        let mut slot = self.first_of(cursor, nth);
        let mut bytes = [0; ROW_SIZE];
        let row = &mut bytes[..cursor.right.length()];
        'slots: while slot < end {
            let found = self.read(files, cursor, slot, row)?;
            if is_number(&found, number) {
                get_tuple(&cursor.right.schema.attributes, row, right);
                return Ok(SlotNo::new(slot));
            }
            slot += 1;
        }
        Ok(None)
    }
}

// Whether a number was found, and is this one.
fn is_number(found: &Option<i64>, number: &i64) -> bool
    ensures same { IsTrue result → found.now ≡ Some number.now }
    ensures other { IsFalse result → found.now ≡ Some number.now → ⊥ }
{
    match found {
        Some(found) => *found == *number,
        None => false,
    }
}
