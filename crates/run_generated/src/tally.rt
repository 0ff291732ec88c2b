//! What commands came to.

#![tactic(auto)]

ghost use Rattle.std.specs.Prelude.{◌≡◌, ◌+◌, ◌^◌, ◌<◌};
ghost use Rattle.db_model.specs.Step.{Reply};
ghost use Rattle.db_model.specs.Workload.{counted, nothing};
ghost use Rattle.session_model.specs.Steps.{outcome_of};

use session_model::Outcome;
use std::marker::Model;

/// How many commands were replied to, how many by `ok`, the sum of the numbers in `rows` lines, and
/// how many were refused.
#[derive(Drop)]
pub struct Tally {
    pub commands: u32,
    pub fine: u32,
    pub rows: u64,
    pub refused: u32,
}

impl Model for Tally {
    ghost use Rattle.std.specs.Prelude.{◌≤◌};
    ghost use Rattle.db_model.specs.Workload.{Tally};

    ghost Value = { Tally };

    ghost view = { λ s. record { commands = s.commands; fine = s.fine; rows = s.rows; refused = s.refused } };

    ghost invariant = { λ s. (s.fine ≤ s.commands) × (s.refused ≤ s.commands) };
}

impl Tally {
    /// Of no command.
    pub fn new() -> Tally
        ensures { result ≡ nothing }
    {
        Tally {
            commands: 0,
            fine: 0,
            rows: 0,
            refused: 0,
        }
    }

    /// Counts one more command by what it came to. A sum of rows past the greatest number stands still
    /// there.
    pub fn count(&mut self, outcome: &Outcome)
        requires few { self.old.commands < 100000 }
        ensures counted { (reply : Reply) → outcome_of reply ≡ outcome.now
            → (counted self.old reply).rows < 2 ^ 64 → self.new ≡ counted self.old reply }
        ensures commands { self.new.commands ≡ self.old.commands + 1 }
    {
        self.commands += 1;
        match outcome {
            Outcome::Fine => self.fine += 1,
            Outcome::Rows(rows) => self.rows = self.rows.saturating_add(*rows),
            Outcome::Refused => self.refused += 1,
        }
    }
}
