//! Generated commands are carried out, and their replies counted.

#![tactic(auto)]

ghost use Rattle.std.specs.Prelude.{◌≡◌, ◌≤◌, false, true, IsErrOf, IsTrue, OnOk, length};
ghost use Rattle.afl_base.specs.Causes.{Rose};
ghost use Rattle.run_entries.specs.Carried.{limits_of};
ghost use Rattle.db_model.specs.Workload.{first_commands, nothing};
ghost use Rattle.run_generated.specs.declared.counting.Failure.TheVariants.{Flash};
ghost use Rattle.run_generated.specs.Counted.{BreaksAtCommand, Counted, CountedUntil, OnSpaceFailure};

use crate::discard::Discard;
use crate::tally::Tally;
use afl_base::{Fault, Files};
use antelope_engine::{Session, Step};
use db_model::Command;
use workload::nth_command;

/// Why no further command was carried out.
#[derive(Clone, Copy, Debug, PartialEq, Eq)]
pub enum Failure {
    /// There was no room for an extent of this many pages.
    NoSpace { need: u16 },
    Flash,
}

/// Carries out the first `count` commands of a seed, and counts the replies.
pub fn carry_out<V: Files>(
    session: &mut Session<V>,
    seed: u32,
    count: u32,
    tally: &mut Tally,
) -> Result<(), Failure>
    requires running { session.old.stopped ≡ false }
    requires few { count ≤ 100000 }
    requires none { tally.old ≡ nothing }
    ensures done { IsTrue (V.state session.old.files).tells → OnOk result
        (Counted (first_commands seed count) session.old.database session.new.database tally.new) }
    ensures space { IsTrue (V.state session.old.files).tells → OnSpaceFailure result (λ need.
        CountedUntil (limits_of V.Files session.new) (first_commands seed count)
        session.old.database session.new.database tally.new need) }
    ensures broken { IsTrue (V.state session.old.files).tells → IsErrOf result Flash → BreaksAtCommand
        (limits_of V.Files session.new) (first_commands seed count) session.old.database }
    ensures running { OnOk result (session.new.stopped ≡ false) }
    ensures lost { session.old.lost ≡ false → session.new.lost ≡ true → IsErrOf result Flash }
    ensures tells { session.new.lost ≡ false
        → (V.state session.new.files).tells ≡ (V.state session.old.files).tells }
    ensures store { let old = V.state session.old.files in
        length (V.state session.new.files).store ≡ length old.store }
    ensures lent { V.lent session.new.files ≡ V.lent session.old.files }
    ensures later { V.faults session.old.files ≤ V.faults session.new.files }
    ensures flash { IsErrOf result Flash
        → Rose (V.faults session.old.files) (V.faults session.new.files) }
{
    let mut command = Command::FetchCursor { number: 0 };
    let mut replies = Discard {};
    for k in 0..count {
        nth_command(seed, k, &mut command);
        match session.exec(&command, &mut replies) {
            Ok(Step::Done(outcome)) => tally.count(&outcome),
            Ok(Step::NoSpace { need }) => return Err(Failure::NoSpace { need }),
            Err(Fault::Flash) => return Err(Failure::Flash),
            // The sink never fails.
            Err(Fault::Sink) => unreachable!(),
        }
    }
    Ok(())
}
