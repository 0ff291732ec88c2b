//! One aggregate of a stream of values.

#![tactic(auto)]

ghost use Rattle.std.specs.Prelude.{◌≡◌, ◌≢◌, ◌+◌, ◌<◌, ◌≤◌, List, [], ◌∷◌, ◌++◌, IsTrue, IsFalse, if◌then◌else◌};
ghost use Rattle.db_model.specs.declared.values.Value.{Value};
ghost use Rattle.db_model.specs.declared.commands.Agg.TheVariants.{Count, Median};
ghost use Rattle.db_model.specs.Answers.{aggregate};
ghost use Rattle.aggregate.specs.Limits.{Suits};
ghost use Rattle.aggregate.specs.Fold.{Folds, wants_pass};

use crate::stage::{Stage, after_first, after_later, number_for};
use db_model::{Agg, Value};
use std::marker::Model;

/// One aggregate of the values of an attribute, found in passes over them.
///
/// Contracts see the aggregate, how many passes were wanted and have ended, how many values were
/// pushed in this pass, and what is known so far.
#[derive(Clone, Copy)]
pub struct Fold {
    agg: Agg,
    passes: u8,
    pushed: u32,
    stage: Stage,
}

impl Model for Fold {
    ghost use Rattle.aggregate.specs.Folding.{Folding, IsRightStage};

    ghost Value = { Folding };

    ghost view = { λ f.
        record { agg = f.agg; passes = f.passes; pushed = f.pushed; stage = f.stage } };

    ghost invariant = { λ f. IsRightStage f.agg f.passes f.pushed f.stage };

    ghost inverse = { λ f.
        record { agg = f.agg; passes = f.passes; pushed = f.pushed; stage = f.stage } };
}

impl Fold {
    /// A fold before its first pass.
    pub fn new(agg: Agg) -> Fold
        ensures agg { result.agg ≡ agg }
        ensures passes { result.passes ≡ 0 }
        ensures pushed { result.pushed ≡ 0 }
        ensures wanted { IsTrue (wants_pass result) }
        ensures told { (all : List Value) → Folds all [] result }
    {
        Fold {
            agg,
            passes: 0,
            pushed: 0,
            stage: Stage::new(),
        }
    }

    /// Takes the next value of this pass, which has at most 32,768. After the last pass that is
    /// wanted the answer stays.
    pub fn push(&mut self, value: &Value)
        requires suits { Suits self.old.agg value.now }
        requires few { self.old.pushed < 32768 }
        ensures agg { self.new.agg ≡ self.old.agg }
        ensures passes { self.new.passes ≡ self.old.passes }
        ensures pushed { self.new.pushed ≡ self.old.pushed + 1 }
        ensures wanted { wants_pass self.new ≡ wants_pass self.old }
        ensures told { (all so_far : List Value)
            → Folds all so_far self.old
            → Folds all (so_far ++ value.now ∷ []) self.new }
    {
        self.pushed += 1;
        let Some(number) = number_for(self.agg, value) else {
            return;
        };
        match &mut self.stage {
            Stage::Gathering(summary) => *summary = summary.with(number),
            Stage::Searching(search) => search.take(number),
            Stage::Done(_) => {}
        }
    }

    /// Ends this pass, and says whether another one over the same values is wanted. An aggregate
    /// other than MEDIAN needs one pass, and MEDIAN at most 9.
    pub fn end_pass(&mut self) -> bool
        ensures agg { self.new.agg ≡ self.old.agg }
        ensures passes { self.new.passes
            ≡ (if wants_pass self.old then self.old.passes + 1 else self.old.passes) }
        ensures pushed { self.new.pushed ≡ 0 }
        ensures wanted { result ≡ wants_pass self.new }
        ensures once { self.old.agg ≢ Median → IsFalse result }
        ensures few { IsTrue result → self.new.passes < 9 }
        ensures told { (all : List Value) → Folds all all self.old → Folds all [] self.new }
    {
        match self.stage {
            Stage::Gathering(summary) => {
                self.stage = after_first(self.agg, self.pushed, summary);
                self.passes += 1;
            }
            Stage::Searching(search) => {
                self.stage = after_later(search);
                self.passes += 1;
            }
            Stage::Done(_) => {}
        }
        self.pushed = 0;
        self.stage.is_open()
    }

    /// The aggregate, None where it has no value or a pass is still wanted.
    pub fn answer(&self) -> Option<i64>
        ensures early { IsTrue (wants_pass self.now) → result ≡ None }
        ensures told { (all so_far : List Value)
            → Folds all so_far self.now
            → IsFalse (wants_pass self.now)
            → result ≡ aggregate self.now.agg all }
    {
        self.stage.answer()
    }
}

impl Default for Fold {
    ghost is_default = { λ fold. (fold.agg ≡ Count) × (fold.pushed ≡ 0) };

    fn default() -> Fold {
        Fold::new(Agg::Count)
    }
}
