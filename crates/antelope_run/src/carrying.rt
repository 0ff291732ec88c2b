//! What the words ask for, over a session.

#![tactic(auto)]

ghost use Rattle.std.specs.Prelude.{◌≡◌, ◌≤◌, ◌+◌, ◌*◌, false, true, ℕ, Err, IsTrue, Some, length};
ghost use Rattle.run_entries.specs.Carried.{limits_of, standing_of};
ghost use Rattle.run_entries.specs.Went.{HasRunCause};
ghost use Rattle.db_model.specs.Workload.{first_commands};
ghost use Rattle.dump.specs.Parts.{slots_of_all};
ghost use Rattle.dump_model.specs.Script.{script};
ghost use Rattle.run_look.specs.Text.{database_lines};
ghost use Rattle.run_input.specs.declared.ending.Ending.TheVariants as Ending;
ghost use Rattle.run_input.specs.declared.ending.InputEnding.TheVariants as InputEnding;
ghost use Rattle.space_plan.specs.Lines.{plan_reply};
ghost use Rattle.run_words.specs.declared.words.Form.TheVariants as Form;
ghost use Rattle.antelope_run.specs.Does.{CarriedReads, DoesForm, Generates, LeavesInput, OnlyTells, TellsOn, WritesText, halted, stopped};
ghost use Rattle.antelope_run.specs.Promise.{TakesInput};
ghost use Rattle.antelope_run.specs.Steps.{ReachesBy};
ghost use Rattle.run_words.specs.Words.{HasFewCommands};

use afl_base::{Failed, Fault, Files, Sink, Source};
use antelope_engine::Session;
use run_generated::generate;
use run_input::{Ending, InputEnding};
use run_script::answer_script;
use run_words::Form;
use serve::serve_line;
use space_plan::FurtherRows;

/// Carries out what a form asks for on a flash of this many sectors.
// Not inlined, since its caller would keep a second session on its stack.
#[inline(never)]
pub fn carry_out<V: Files, S: Source, K: Sink>(
    form: Form,
    sectors: u16,
    session: &mut Session<V>,
    input: &mut S,
    out: &mut K,
) -> Result<(), InputEnding>
    requires running { session.old.stopped ≡ false }
    requires commands { HasFewCommands form }
    ensures does { IsTrue (V.state session.old.files).tells → session.old.lost ≡ false
        → DoesForm (standing_of V.state V.reads session.old (K.held out.old))
        (standing_of V.state V.reads session.new (K.held out.new)) sectors (S.left input.old) (S.left input.new)
        (limits_of V.Files session.new) form result }
    ensures reaches { ReachesBy form result (S.left input.old) (S.left input.new) }
    ensures lost { session.old.lost ≡ false → session.new.lost ≡ true
        → result ≡ Err (InputEnding.Early Ending.Flash) }
    ensures store { length (V.state session.new.files).store ≡ length (V.state session.old.files).store }
    ensures reads { IsTrue (V.state session.old.files).tells → CarriedReads form
        (standing_of V.state V.reads session.old (K.held out.old)) (S.left input.old) (V.reads session.new.files) }
    ensures same { OnlyTells form
        → (V.state session.new.files).store ≡ (V.state session.old.files).store }
    ensures unread { (TakesInput form → ⊥) → input.new ≡ input.old }
    ensures borrows { V.lent session.new.files ≡ V.lent session.old.files }
    ensures lent { K.lent out.new ≡ K.lent out.old }
    ensures later { OnlyTells form → K.faults out.old ≤ K.faults out.new }
    ensures cause { HasRunCause (S.faults input.old) (S.faults input.new)
        (V.faults session.old.files) (V.faults session.new.files) (K.faults out.old) (K.faults out.new) result }
{
    match form {
        Form::Run => answer_script(session, input, out),
        Form::Serve => serve_line(session, input, out),
        Form::Gen { seed, count } => generate_all(session, seed, count, out),
        Form::Plan { rows } => plan(session, &rows, sectors, out),
        Form::Dump => dump_all(session, out),
        Form::Look => look_all(session, out),
    }
}

// Carries out generated commands.
fn generate_all<V: Files, K: Sink>(
    session: &mut Session<V>,
    seed: u32,
    count: u32,
    out: &mut K,
) -> Result<(), InputEnding>
    requires running { session.old.stopped ≡ false }
    requires few { count ≤ 100000 }
    ensures does { let old = standing_of V.state V.reads session.old (K.held out.old) in
        let new = standing_of V.state V.reads session.new (K.held out.new) in
        IsTrue (V.state session.old.files).tells → session.old.lost ≡ false → TellsOn old new result × Generates old new
        (limits_of V.Files session.new) (first_commands seed count) result }
    ensures lost { session.old.lost ≡ false → session.new.lost ≡ true
        → result ≡ Err (InputEnding.Early Ending.Flash) }
    ensures frame { LeavesInput V.Files K.Sink session.old session.new out.old out.new result }
{
    halted(generate(session, seed, count, out))
}

fn halted(done: Result<(), Ending>) -> Result<(), InputEnding>
    ensures { result ≡ halted done }
{
    match done {
        Ok(()) => Ok(()),
        Err(halt) => Err(InputEnding::Early(halt)),
    }
}

// Writes how many sectors are planned for this many rows more, and how many there are, or that a relation is
// not there.
fn plan<V: Files, K: Sink>(
    session: &mut Session<V>,
    rows: &FurtherRows,
    sectors: u16,
    out: &mut K,
) -> Result<(), InputEnding>
    requires running { session.old.stopped ≡ false }
    ensures does { let old = standing_of V.state V.reads session.old (K.held out.old) in
        let new = standing_of V.state V.reads session.new (K.held out.new) in
        IsTrue (V.state session.old.files).tells → TellsOn old new result
        × WritesText old new (plan_reply session.old.database rows.now sectors) result }
    ensures same { session.new ≡ session.old }
    ensures later { K.faults out.old ≤ K.faults out.new }
    ensures frame { LeavesInput V.Files K.Sink session.old session.new out.old out.new result }
{
    match space_plan::write(session, rows, sectors, out) {
        Ok(()) => Ok(()),
        Err(Failed) => Err(InputEnding::Early(Ending::Sink)),
    }
}

// Writes the database as a script.
fn dump_all<V: Files, K: Sink>(session: &mut Session<V>, out: &mut K) -> Result<(), InputEnding>
    requires running { session.old.stopped ≡ false }
    ensures does { let old = standing_of V.state V.reads session.old (K.held out.old) in
        let new = standing_of V.state V.reads session.new (K.held out.new) in
        IsTrue (V.state session.old.files).tells
        → TellsOn old new result × WritesText old new (script session.old.database) result }
    ensures files { V.state session.new.files ≡ V.state session.old.files }
    ensures reads { let slots = slots_of_all session.old.database.relations in
        V.reads session.new.files ≤ V.reads session.old.files + 6 * slots }
    ensures lost { session.old.lost ≡ false → session.new.lost ≡ true
        → result ≡ Err (InputEnding.Early Ending.Flash) }
    ensures later { K.faults out.old ≤ K.faults out.new }
    ensures frame { LeavesInput V.Files K.Sink session.old session.new out.old out.new result }
{
    stopped(dump::write(session, out))
}

// Writes a line for each relation and each index of the database.
fn look_all<V: Files, K: Sink>(session: &mut Session<V>, out: &mut K) -> Result<(), InputEnding>
    requires running { session.old.stopped ≡ false }
    ensures does { let old = standing_of V.state V.reads session.old (K.held out.old) in
        let new = standing_of V.state V.reads session.new (K.held out.new) in
        IsTrue (V.state session.old.files).tells
        → TellsOn old new result × WritesText old new (database_lines session.old.database) result }
    ensures files { V.state session.new.files ≡ V.state session.old.files }
    ensures reads { let slots = slots_of_all session.old.database.relations in
        V.reads session.new.files ≤ V.reads session.old.files + 6 * slots }
    ensures lost { session.old.lost ≡ false → session.new.lost ≡ true
        → result ≡ Err (InputEnding.Early Ending.Flash) }
    ensures later { K.faults out.old ≤ K.faults out.new }
    ensures frame { LeavesInput V.Files K.Sink session.old session.new out.old out.new result }
{
    stopped(run_look::write_database(session, out))
}

pub fn stopped(done: Result<(), Fault>) -> Result<(), InputEnding>
    ensures { result ≡ stopped done }
{
    match done {
        Ok(()) => Ok(()),
        Err(Fault::Sink) => Err(InputEnding::Early(Ending::Sink)),
        Err(Fault::Flash) => Err(InputEnding::Early(Ending::Flash)),
    }
}
