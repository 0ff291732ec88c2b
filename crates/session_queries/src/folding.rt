//! The folds of a list of aggregates.

#![tactic(auto)]

ghost use Rattle.std.specs.Prelude.{◌≡◌, ◌<◌, ◌≤◌, ◌||◌, ℕ, List, false, length, IsTrue};
ghost use Rattle.db_model.specs.declared.values.Value.{Value as AnyValue};
ghost use Rattle.db_model.specs.Row.{fields_length, tuple_of};
ghost use Rattle.aggregate.specs.Limits.{Suits};
ghost use Rattle.session_model.specs.View.{value_at};
ghost use Rattle.session_plans.specs.Aggregates.{answers, medians};
ghost use Rattle.session_queries.specs.Folded.{AreClosed, AreDone, AreFolded, EndsPass, HaveAggs, IsNew, TakesValue, item_at, tally_at};

use crate::tally::{Tally, end_pass, new_tally, push};
use db_model::{Agg, Attribute, Few, Value};
use tuple_file::value_at;

/// A tally for each aggregate, before its first pass.
pub fn new_tallies(items: &[(Agg, u8)]) -> [Tally; 8]
    requires few { length items.now ≤ 8 }
    ensures eight { length result ≡ 8 }
    ensures fresh { (i : ℕ) → i < length items.now → IsNew (item_at items.now i).0 (tally_at result i) }
{
    let mut tallies = [new_tally(Agg::Count); 8];
    for i in 0..items.len() {
        tallies[i] = new_tally(items[i].0);
    }
    tallies
}

/// Shows each tally the value of its attribute in a row. No other is decoded.
pub fn push_all(items: &[(Agg, u8)], attributes: &[Attribute], row: &[u8], tallies: &mut [Tally])
    requires fields { fields_length attributes.now ≤ length row.now }
    requires many { length items.now ≤ length tallies.old }
    requires suits { let tuple = tuple_of attributes.now row.now in (i : ℕ) → i < length items.now
        → Suits (tally_at tallies.old i).fold.agg (value_at tuple (item_at items.now i).1) }
    requires few { (i : ℕ) → i < length items.now
        → IsTrue (tally_at tallies.old i).is_open → (tally_at tallies.old i).fold.pushed < 32768 }
    ensures many { length tallies.new ≡ length tallies.old }
    ensures takes { let tuple = tuple_of attributes.now row.now in (i : ℕ) → i < length items.now
        → TakesValue (value_at tuple (item_at items.now i).1) (tally_at tallies.old i) (tally_at tallies.new i) }
{
    for i in 0..items.len() {
        push(&mut tallies[i], &value_or_zero(attributes, row, items[i].1));
    }
}

/// The value at a place of a row, 0 where it has none.
#[inline(always)]
pub fn value_or_zero(attributes: &[Attribute], row: &[u8], place: u8) -> Value
    requires { fields_length attributes.now ≤ length row.now }
    ensures { result ≡ value_at (tuple_of attributes.now row.now) place }
{
    match value_at(attributes, row, place) {
        Some(value) => value,
        None => Value::Number(0),
    }
}

/// Ends a pass of each tally, and answers whether one of them is still open.
pub fn end_all(items: &[(Agg, u8)], tallies: &mut [Tally]) -> bool
    requires many { length items.now ≤ length tallies.old }
    ensures many { length tallies.new ≡ length tallies.old }
    ensures ends { (i : ℕ) → i < length items.now
        → EndsPass (tally_at tallies.old i) (tally_at tallies.new i) }
    ensures closed { result ≡ false → AreClosed items.now tallies.new }
    ensures median { HaveAggs items.now tallies.old → IsTrue result → IsTrue (medians items.now) }
{
    let mut is_open = false;
    for i in 0..items.len() {
        end_pass(&mut tallies[i]);
        is_open = either(is_open, tallies[i].is_open);
    }
    is_open
}

fn either(a: bool, b: bool) -> bool
    ensures { result ≡ (a || b) }
{
    a || b
}

/// What the aggregates come to, where none needs another pass.
pub fn answers_of(items: &[(Agg, u8)], tallies: &[Tally]) -> Few<Option<i64>, 8>
    requires few { length items.now ≤ 8 }
    requires many { length items.now ≤ length tallies.now }
    ensures told { (all : List (List AnyValue)) → HaveAggs items.now tallies.now
        → AreFolded items.now all tallies.now → AreDone items.now tallies.now
        → result ≡ answers items.now all }
{
    let mut answers = Few::new();
    for i in 0..items.len() {
        let tally = tallies[i];
        answers.push(tally.fold.answer());
    }
    answers
}
