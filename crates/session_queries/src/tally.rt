//! One aggregate's fold, and whether it needs another pass.

#![tactic(auto)]

ghost use Rattle.std.specs.Prelude.{◌<◌, IsTrue};
ghost use Rattle.aggregate.specs.Limits.{Suits};
ghost use Rattle.session_queries.specs.Folded.{EndsPass, IsNew, TakesValue};

use aggregate::Fold;
use db_model::{Agg, Value};

/// A fold, which takes values as long as it is open.
#[derive(Clone, Copy)]
pub struct Tally {
    pub fold: Fold,
    pub is_open: bool,
}

/// A tally before its first pass.
pub fn new_tally(agg: Agg) -> Tally
    ensures { IsNew agg result }
{
    Tally {
        fold: Fold::new(agg),
        is_open: true,
    }
}

/// Shows it a value, which it takes where it is open.
pub fn push(tally: &mut Tally, value: &Value)
    requires suits { Suits tally.old.fold.agg value.now }
    requires few { IsTrue tally.old.is_open → tally.old.fold.pushed < 32768 }
    ensures { TakesValue value.now tally.old tally.new }
{
    if tally.is_open {
        tally.fold.push(value);
    }
}

/// Ends a pass, and closes it where it needs no other.
pub fn end_pass(tally: &mut Tally)
    ensures { EndsPass tally.old tally.new }
{
    if tally.is_open {
        tally.is_open = tally.fold.end_pass();
    }
}
