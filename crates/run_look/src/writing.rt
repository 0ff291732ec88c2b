//! The lines of a session's database.

#![tactic(auto)]

ghost use Rattle.std.specs.Prelude.{◌≡◌, ◌+◌, ◌*◌, ◌≤◌, true, false, IsErrOf, IsTrue};
ghost use Rattle.afl_base.specs.declared.fault.Fault.TheVariants.{Flash};
ghost use Rattle.dump.specs.Appends.{AppendsText};
ghost use Rattle.dump.specs.Parts.{slots_of_all};
ghost use Rattle.dump.specs.Unchanged.{IsAsBefore};
ghost use Rattle.run_look.specs.Text.{database_lines};
ghost use Rattle.session_model.specs.Carried.{Recites};
ghost use Rattle.session_model.specs.Steps.{UnlessFlash};

use crate::indexes::write_indexes;
use crate::relations::write_relations;
use afl_base::{Failed, Fault, Files, Sink};
use antelope_engine::Session;

/// Appends a line for each relation of a session's database, and then one for each index, in slot order.
/// Each row is read once. The session stays as it is.
///
/// # Errors
///
/// `Fault::Sink` leaves a proper prefix of the lines in the sink. `Fault::Flash` leaves a prefix of them,
/// and stops the session.
#[tactic(auto, using(crate::proofs::Whole::relations_cut))]
pub fn write_database<V: Files, K: Sink>(session: &mut Session<V>, out: &mut K) -> Result<(), Fault>
    requires running { session.old.stopped ≡ false }
    ensures wrote { let db = session.old.database in
        IsTrue (V.state session.old.files).tells
        → AppendsText result (K.held out.old) (K.held out.new) (database_lines db) }
    ensures same { UnlessFlash result (IsAsBefore V.state session.old session.new) }
    ensures lost { IsErrOf result Flash
        → (session.new.stopped ≡ true) × (session.new.lost ≡ true) }
    ensures reads { let slots = slots_of_all session.old.database.relations in
        V.reads session.new.files ≤ V.reads session.old.files + 6 * slots }
    ensures frame { Recites V.Files K.Sink session.old.files session.new.files
        out.old out.new result }
{
    session.database_is_sound();
    write_relations(session, out)?;
    match write_indexes(session, out) {
        Ok(()) => Ok(()),
        Err(Failed) => Err(Fault::Sink),
    }
}
