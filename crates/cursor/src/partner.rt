//! The right side of a join: the rows that have the value of a left tuple.

#![tactic(auto)]

ghost use Rattle.std.specs.Prelude.{None, ◌≡◌, ◌==◌, ◌+◌, ◌-◌, ◌<◌, ◌≤◌, ◌∷◌, [], true, IfOk, IfSome, IsTrue, MatchOption, OnErr, get_or, option_map, slice_get, if◌then◌else◌};
ghost use Rattle.afl_base.specs.Keeping.{OnlyReads};
ghost use Rattle.db_model.specs.declared.schemas.Range.TheVariants.{Between};
ghost use Rattle.db_model.specs.Answers.{same_value};
ghost use Rattle.db_model.specs.Cost.{ranges_at};
ghost use Rattle.db_model.specs.Ranges.{everything};
ghost use Rattle.index_set.specs.Complete.{AreIndexesOf};
ghost use Rattle.index_set.specs.Walks.{Fits, IsSafeBy, ahead, cost_ahead};
ghost use Rattle.tuple_file.specs.Lent.{value_in};
ghost use Rattle.tuple_file.specs.Tuples.{rows};
ghost use Rattle.cursor.specs.Pairs.{FindsPartner, FitsInner, HasAhead, HasLive, MayReadRight, PaysRight, StandsBehind, belongs, inner_cost, partner_slots, right_side_cost};
ghost use Rattle.cursor.specs.Remaining.{passing};

use crate::walk::{Test, next_row};
use afl_base::{Failed, Files, SlotNo};
use db_model::{Attribute, Range, Tuple, Value};
use index_maxheap::Place;
use index_set::{Candidates, HashTables, Indexes};
use tuple_file::{Field, Tuples, field_at};

/// The value of a left tuple, and the place at which a right tuple has the same.
#[derive(Drop)]
pub(crate) struct Partner {
    pub(crate) value: Option<Value>,
    pub(crate) on: u8,
}

impl Test for Partner {
    ghost use Rattle.cursor.specs.Pairs.{belongs};

    ghost passes = { λ partner tuple. belongs partner.value partner.on tuple };

    fn holds<'a>(&self, attributes: &'a [Attribute], row: &'a [u8]) -> bool {
        same_value(&self.value, field_at(attributes, row, self.on))
    }
}

/// The value at a place of a tuple.
pub(crate) fn value_at(tuple: &Tuple, place: u8) -> Option<Value>
    ensures { result ≡ slice_get tuple.now place }
{
    match tuple.as_slice().get(usize::from(place)) {
        Some(value) => Some(*value),
        None => None,
    }
}

// Whether the value and that of a field are the same.
fn same_value(a: &Option<Value>, b: Option<Field<'_>>) -> bool
    ensures { result ≡ same_value a.now (option_map value_in b.entry) }
{
    match (a, b) {
        (Some(Value::Number(x)), Some(Field::Number(y))) => *x == y,
        (Some(Value::Text(x)), Some(Field::Text(y))) => x.bytes() == y,
        (Some(Value::Number(_)), Some(Field::Text(_))) => false,
        (Some(Value::Text(_)), Some(Field::Number(_))) => false,
        (Some(Value::Number(_)), None) => false,
        (Some(Value::Text(_)), None) => false,
        (None, _) => false,
    }
}

// The range of a place: the only number, where it is that of the value.
fn range_for(place: u8, on: u8, number: &i64) -> Range
    ensures { result ≡ (if place == on then Between number.now number.now else everything) }
{
    if place == on {
        Range::Between {
            lo: *number,
            hi: *number,
        }
    } else {
        EVERYTHING
    }
}

const EVERYTHING: Range = Range::Between {
    lo: i64::MIN,
    hi: i64::MAX,
};

// The ranges of the eight places.
fn ranges_for(partner: &Partner) -> [Range; 8]
    ensures { result ≡ ranges_at partner.now.on partner.now.value }
{
    let on = partner.on;
    match &partner.value {
        Some(Value::Number(z)) => [
            range_for(0, on, z),
            range_for(1, on, z),
            range_for(2, on, z),
            range_for(3, on, z),
            range_for(4, on, z),
            range_for(5, on, z),
            range_for(6, on, z),
            range_for(7, on, z),
        ],
        Some(Value::Text(_)) => [EVERYTHING; 8],
        None => [EVERYTHING; 8],
    }
}

// The candidates of the right side: those that stand, else such as begin at a slot, with a hint of where
// that is in a tree.
fn right_side<V: Files>(
    files: &mut V,
    tables: &HashTables,
    right: &Tuples,
    indexes: &Indexes,
    partner: &Partner,
    inner: &Option<Candidates>,
    hint: Option<Place>,
    from: u16,
    slots: u16,
) -> Result<Candidates, Failed>
    requires may_read { MayReadRight (V.state files.old) right.now indexes.now inner.now from slots }
    ensures safe { IfOk result (λ c. IsSafeBy c.search (V.state files.old)) }
    ensures slots { IfOk result (λ c. c.slots ≡ slots) }
    ensures fits { let state = V.state files.old in let all = rows state.files right.now in
        IsTrue state.tells → IfOk result (λ c. AreIndexesOf state tables.now all indexes.now
        → FitsInner inner.now state tables.now all → Fits c state tables.now all) }
    ensures ahead { let state = V.state files.old in let all = rows state.files right.now in
        let test = belongs partner.now.value partner.now.on in
        IsTrue state.tells → IfOk result (λ c. AreIndexesOf state tables.now all indexes.now
        → HasAhead inner.now test all from slots
        → passing test all (ahead c all) ≡ partner_slots test all from slots) }
    ensures reads { let state = V.state files.old in let all = rows state.files right.now in
        let cost = right_side_cost indexes.now partner.now.on partner.now.value all in
        IsTrue state.tells → IfOk result (λ c. AreIndexesOf state tables.now all indexes.now
        → V.reads files.new + cost_ahead c all ≤ V.reads files.old + inner_cost inner.now cost all) }
    ensures reads_err { let state = V.state files.old in let all = rows state.files right.now in
        let cost = right_side_cost indexes.now partner.now.on partner.now.value all in
        OnErr result (V.reads files.new ≤ V.reads files.old + inner_cost inner.now cost all) }
    ensures frame { OnlyReads V.state V.lent V.reads V.faults files.old files.new result }
{
    match inner {
        Some(inner) => Ok(*inner),
        None => {
            let ranges = ranges_for(partner);
            let mut begun = Candidates::begin(files, tables, indexes, &ranges, slots)?;
            begun.skip(from, hint);
            Ok(begun)
        }
    }
}

/// A right slot, and where the right side stands after it.
#[derive(Drop)]
pub(crate) struct Partnered {
    pub(crate) slot: SlotNo,
    pub(crate) inner: Candidates,
}

/// The next right slot of a value from a slot on, `None` exactly where there is none. Its tuple stands
/// in `into`.
pub(crate) fn next_partner<V: Files>(
    files: &mut V,
    tables: &HashTables,
    right: &Tuples,
    indexes: &Indexes,
    partner: &Partner,
    inner: &Option<Candidates>,
    hint: Option<Place>,
    from: u16,
    slots: u16,
    into: &mut Tuple,
) -> Result<Option<Partnered>, Failed>
    requires may_read { MayReadRight (V.state files.old) right.now indexes.now inner.now from slots }
    ensures finds { let state = V.state files.old in let all = rows state.files right.now in
        let test = belongs partner.now.value partner.now.on in
        IsTrue state.tells → IfOk result (λ found. AreIndexesOf state tables.now all indexes.now
        → FitsInner inner.now state tables.now all → HasAhead inner.now test all from slots
        → FindsPartner found test all from slots × StandsBehind found test state tables.now all slots) }
    ensures row { let state = V.state files.old in IsTrue state.tells → IfOk result (λ found.
        IfSome found (λ p. HasLive (rows state.files right.now) p.slot into.new)) }
    ensures below { IfOk result (λ found. IfSome found (λ p. p.slot < slots)) }
    ensures slots { IfOk result (λ found. IfSome found (λ p. p.inner.slots ≡ slots)) }
    ensures safe { IfOk result (λ found. IfSome found (λ p.
        IsSafeBy p.inner.search (V.state files.old))) }
    ensures reads { let state = V.state files.old in let all = rows state.files right.now in
        let cost = right_side_cost indexes.now partner.now.on partner.now.value all in
        IsTrue state.tells → IfOk result (λ found. AreIndexesOf state tables.now all indexes.now
        → FitsInner inner.now state tables.now all
        → PaysRight found all (V.reads files.old + inner_cost inner.now cost all) (V.reads files.new)) }
    ensures reads_err { let state = V.state files.old in let all = rows state.files right.now in
        let cost = right_side_cost indexes.now partner.now.on partner.now.value all in
        IsTrue state.tells → OnErr result (AreIndexesOf state tables.now all indexes.now
        → FitsInner inner.now state tables.now all
        → V.reads files.new ≤ V.reads files.old + inner_cost inner.now cost all) }
    ensures frame { OnlyReads V.state V.lent V.reads V.faults files.old files.new result }
{
    let mut stands = right_side(
        files, tables, right, indexes, partner, inner, hint, from, slots,
    )?;
    match next_row(files, tables, right, &mut stands, partner, into)? {
        None => Ok(None),
        Some(slot) => Ok(Some(Partnered {
            slot,
            inner: stands,
        })),
    }
}
