//! What one pass finds out about its numbers.

#![tactic(auto)]

ghost use Rattle.std.specs.Prelude.{◌≡◌, ◌+◌, ◌<◌, ◌^◌, ℤ, pos, ◌+ℤ◌, ◌≤ℤ◌, List, [], ◌∷◌, ◌++◌, FitsSigned};
ghost use Rattle.std.specs.Int.{w64};
ghost use Rattle.db_model.specs.declared.commands.Agg.{Agg};
ghost use Rattle.aggregate.specs.Ends.{AreEnds};
ghost use Rattle.aggregate.specs.Ends as E;
ghost use Rattle.aggregate.specs.Limits.{least_sum, greatest_sum};
ghost use Rattle.aggregate.specs.Summary.{Summarises};
ghost use Rattle.db_model.specs.Answers as L;

/// How many numbers there are, their sum, and the least and the greatest of them.
#[derive(Clone, Copy)]
pub struct Summary {
    pub count: u32,
    pub sum: i64,
    pub least: Option<i64>,
    pub greatest: Option<i64>,
}

impl Summary {
    /// That of no number.
    pub fn new() -> Summary
        ensures { Summarises [] result }
    {
        Summary {
            count: 0,
            sum: 0,
            least: None,
            greatest: None,
        }
    }

    /// That of these numbers and one more.
    pub fn with(self, number: i64) -> Summary
        requires fits { FitsSigned w64 (self.sum +ℤ number) }
        requires few { self.count + 1 < 2 ^ 32 }
        ensures count { result.count ≡ self.count + 1 }
        ensures sum { result.sum ≡ self.sum +ℤ number }
        ensures ends { (agg : Agg)
            → least_sum agg ≤ℤ number
            → number ≤ℤ greatest_sum agg
            → AreEnds agg self.least self.greatest
            → AreEnds agg result.least result.greatest }
        ensures told { (ns : List ℤ) → Summarises ns self → Summarises (ns ++ number ∷ []) result }
    {
        Summary {
            count: self.count + 1,
            sum: self.sum + number,
            least: lesser(self.least, number),
            greatest: greater(self.greatest, number),
        }
    }

    /// The mean of the numbers, rounded toward zero, None for none.
    pub fn mean(self) -> Option<i64>
        ensures { (ns : List ℤ) → Summarises ns self → result ≡ L.mean ns }
    {
        if self.count == 0 {
            return None;
        }
        Some(self.sum / i64::from(self.count))
    }
}

// The lesser of a number and the least so far.
fn lesser(least: Option<i64>, number: i64) -> Option<i64>
    ensures value { result ≡ E.lesser least number }
    ensures told { (ns : List ℤ) → least ≡ L.least ns → result ≡ L.least (ns ++ number ∷ []) }
{
    match least {
        Some(other) => Some(other.min(number)),
        None => Some(number),
    }
}

// The greater of a number and the greatest so far.
fn greater(greatest: Option<i64>, number: i64) -> Option<i64>
    ensures value { result ≡ E.greater greatest number }
    ensures told { (ns : List ℤ) → greatest ≡ L.greatest ns → result ≡ L.greatest (ns ++ number ∷ []) }
{
    match greatest {
        Some(other) => Some(other.max(number)),
        None => Some(number),
    }
}
