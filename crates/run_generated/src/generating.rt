//! A run of generated commands.

#![tactic(auto)]

ghost use Rattle.std.specs.Prelude.{◌≡◌, ◌≤◌, false, true, IfErr, IsErrOf, IsTrue, OnOk};
ghost use Rattle.run_entries.specs.Carried.{ChangesOrHalts, limits_of};
ghost use Rattle.db_model.specs.Workload.{first_commands};
ghost use Rattle.run_input.specs.declared.ending.Ending.TheVariants as Ending;
ghost use Rattle.run_generated.specs.Summed.{StopsCommands, SummedUp};

use crate::counting::{Failure, carry_out};
use crate::line::{write_no_space, write_tally};
use crate::tally::Tally;
use afl_base::{Failed, Files, Sink};
use antelope_engine::Session;
use run_input::Ending;

/// Carries out the first `count` commands of a seed, 1 to 100,000. Their replies are counted and not
/// written; after all of them comes one line, `commands C ok A rows B refused D`.
///
/// # Errors
///
/// `Space` comes at the first command for which there is no space: the line over the commands that
/// were replied to was written, and `no space N`. Nothing was written at `Flash`, and at `Sink` a
/// proper prefix.
pub fn generate<V: Files, K: Sink>(
    session: &mut Session<V>,
    seed: u32,
    count: u32,
    out: &mut K,
) -> Result<(), Ending>
    requires running { session.old.stopped ≡ false }
    requires few { count ≤ 100000 }
    ensures carried { IsTrue (V.state session.old.files).tells → OnOk result
        (SummedUp (first_commands seed count) session.old.database session.new.database
        (K.held out.old) (K.held out.new)) }
    ensures halts { IsTrue (V.state session.old.files).tells → IfErr result (λ halt.
        StopsCommands (limits_of V.Files session.new) (first_commands seed count)
        session.old.database session.new.database (K.held out.old) (K.held out.new) halt) }
    ensures silent { IsErrOf result Ending.Flash → K.held out.new ≡ K.held out.old }
    ensures running { OnOk result (session.new.stopped ≡ false) }
    ensures lost { session.old.lost ≡ false → session.new.lost ≡ true
        → IsErrOf result Ending.Flash }
    ensures tells { session.new.lost ≡ false
        → (V.state session.new.files).tells ≡ (V.state session.old.files).tells }
    ensures frame { ChangesOrHalts V.Files K.Sink session.old.files session.new.files
        out.old out.new result }
{
    let mut tally = Tally::new();
    match carry_out(session, seed, count, &mut tally) {
        Ok(()) => match write_tally(out, &tally) {
            Ok(()) => Ok(()),
            Err(Failed) => Err(Ending::Sink),
        },
        Err(Failure::NoSpace { need }) => match write_no_space(out, &tally, need) {
            Ok(()) => Err(Ending::Space),
            Err(Failed) => Err(Ending::Sink),
        },
        Err(Failure::Flash) => Err(Ending::Flash),
    }
}
