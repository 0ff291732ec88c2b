//! What is known of the values between two steps.

#![tactic(auto)]

ghost use Rattle.std.specs.Prelude.{◌≡◌, ◌≢◌, ◌+◌, ◌<◌, ◌≤◌, List, [], ◌∷◌, ◌++◌, IsTrue, IsFalse, length, ℕ, pos, ◌+ℤ◌, ◌≤ℤ◌, FitsSigned, IfSome};
ghost use Rattle.db_model.specs.declared.values.Value.{Value};
ghost use Rattle.db_model.specs.declared.commands.Agg.{Agg};
ghost use Rattle.db_model.specs.declared.commands.Agg.TheVariants.{Median};
ghost use Rattle.db_model.specs.Answers.{aggregate, numbers};
ghost use Rattle.aggregate.specs.Limits.{Suits, least_sum, greatest_sum};
ghost use Rattle.aggregate.specs.Folding.{IsSearch, IsSoundStage, IsSummary};
ghost use Rattle.aggregate.specs.Fold.{Knows, is_open, number_for, numbers_for};
ghost use Rattle.aggregate.specs.Summary.{Summarises};
ghost use Rattle.aggregate.specs.declared.stage.Stage.TheVariants.{Searching};
ghost use Rattle.std.specs.Int.{w64};

use crate::search::Search;
use crate::summary::Summary;
use db_model::{Agg, Value};

/// What is known so far.
#[derive(Clone, Copy)]
pub enum Stage {
    /// In the first pass: the summary of its numbers.
    Gathering(Summary),
    /// In a later pass of a median.
    Searching(Search),
    /// After the last pass: the answer.
    Done(Option<i64>),
}

impl Stage {
    /// Before the first value.
    pub fn new() -> Stage
        ensures wanted { IsTrue (is_open result) }
        ensures sound { (agg : Agg) → IsSoundStage agg 0 0 result }
        ensures told { (agg : Agg) (all : List Value) → Knows agg all [] result }
    {
        Stage::Gathering(Summary::new())
    }

    /// Whether a pass is wanted.
    pub fn is_open(self) -> bool
        ensures { result ≡ is_open self }
    {
        !matches!(self, Stage::Done(_))
    }

    /// The answer where no pass is wanted, else None.
    pub fn answer(self) -> Option<i64>
        ensures early { IsTrue (is_open self) → result ≡ None }
        ensures told { (agg : Agg) (all so_far : List Value)
            → Knows agg all so_far self
            → IsFalse (is_open self)
            → result ≡ aggregate agg all }
    {
        match self {
            Stage::Gathering(_) | Stage::Searching(_) => None,
            Stage::Done(answer) => answer,
        }
    }
}

/// The number that the aggregate looks at: none for COUNT.
pub fn number_for(agg: Agg, value: &Value) -> Option<i64>
    ensures some { Suits agg value.now → IfSome result (λ n. (least_sum agg ≤ℤ n) × (n ≤ℤ greatest_sum agg)) }
    ensures value { result ≡ number_for agg value.now }
{
    match (agg, value) {
        (Agg::Count, _) | (_, Value::Text(_)) => None,
        (_, Value::Number(number)) => Some(*number),
    }
}

/// What the first pass leaves to know.
pub fn after_first(agg: Agg, pushed: u32, summary: Summary) -> Stage
    requires { IsSummary agg pushed summary }
    ensures sound { IsSoundStage agg 1 0 result }
    ensures once { agg ≢ Median → IsFalse (is_open result) }
    ensures told { (all : List Value)
        → pushed ≡ length all
        → Summarises (numbers_for agg all) summary
        → Knows agg all [] result }
{
    match agg {
        Agg::Count => Stage::Done(Some(i64::from(pushed))),
        Agg::Sum => Stage::Done(Some(summary.sum)),
        Agg::Min => Stage::Done(summary.least),
        Agg::Max => Stage::Done(summary.greatest),
        Agg::Mean => Stage::Done(summary.mean()),
        Agg::Median => search_in(summary),
    }
}

// The search for the median, or the median where the numbers leave no choice.
fn search_in(summary: Summary) -> Stage
    requires { IsSummary Median summary.count summary }
    ensures sound { IsSoundStage Median 1 0 result }
    ensures told { (all : List Value) → Summarises (numbers all) summary → Knows Median all [] result }
{
    let (Some(least), Some(greatest)) = (summary.least, summary.greatest) else {
        return Stage::Done(None);
    };
    let span = (greatest - least) as u32;
    if span == 0 {
        return Stage::Done(Some(least));
    }
    Stage::Searching(Search {
        place: summary.count.saturating_sub(1) / 2,
        lo: least,
        span,
        counts: [0; 16],
    })
}

/// What a later pass leaves to know.
pub fn after_later(search: Search) -> Stage
    requires sixteen { length search.counts ≡ 16 }
    requires fits { FitsSigned w64 (search.lo +ℤ pos search.span) }
    ensures sound { (p n : ℕ) → IsSearch Median p n search → IsSoundStage Median (p + 1) 0 result }
    ensures told { (all : List Value) → Knows Median all all (Searching search) → Knows Median all [] result }
{
    let next = search.narrowed();
    if next.span == 0 {
        Stage::Done(Some(next.lo))
    } else {
        Stage::Searching(next)
    }
}
