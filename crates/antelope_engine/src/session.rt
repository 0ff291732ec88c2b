//! A session.

#![tactic(auto)]

ghost use Rattle.std.specs.Prelude.{◌≡◌, ◌+◌, ◌*◌, ◌≤◌, None, true, false, IsTrue, IfErr, IfOk, IsErrOf, OnErr, OnOk, length, map, replicate};
ghost use Rattle.std.specs.List.{range_with_len};
ghost use Rattle.afl_base.specs.Keeping.{OnlyReads};
ghost use Rattle.afl_base.specs.Sparing.{TakesNoPage};
ghost use Rattle.db_model.specs.Ahead.{cost_of, no_cursors};
ghost use Rattle.db_model.specs.Cost.{sum};
ghost use Rattle.db_model.specs.ReplyText.{text};
ghost use Rattle.db_model.specs.RunCost.{slots_opened};
ghost use Rattle.db_model.specs.Sound.{BringsNames, IsSoundDatabase};
ghost use Rattle.db_model.specs.Step.{Reads, outcome, step};
ghost use Rattle.reply_text.specs.WroteLess.{WroteLess};
ghost use Rattle.afl_base.specs.declared.fault.Fault.TheVariants.{Flash, Sink as OfSink};
ghost use Rattle.session_model.specs.Queries.{IsWellFormed};
ghost use Rattle.session_model.specs.Carried.{ChangesAndSends};
ghost use Rattle.session_model.specs.Steps.{Does};
ghost use Rattle.session_model.specs.Wanted.{WantsNone};
ghost use Rattle.stored.specs.Base.{base_of};
ghost use Rattle.stored.specs.Sound.{BreaksFirst, IsSoundTable};
ghost use Rattle.db_model.specs.Database.{bare};
ghost use Rattle.antelope_engine.specs.Commands.{GoesOn, IsBrokenOff, LacksPages, LeavesFiles, StopsAtFault};
ghost use Rattle.antelope_engine.specs.Seen.{WhereDone, WhereNoSpace, is_flash};
ghost use Rattle.antelope_engine.specs.Started.{HasStartCause, OnBroken, UnlessBegun, files_after, files_left};

use crate::executing::carry_out;
use crate::start_error::StartError;
use afl_base::{Failed, Fault, Files, Sink};
use db_model::Command;
use index_set::HashTables;
use session_model::{Base, Open, Step};
use session_start::{BrokenRule, nothing_held, open_database};
use std::marker::Model;

/// A database in files, with at most four open cursors. Contracts see the files, the database, what
/// its cursors have ahead, and whether it was stopped and whether its files failed.
#[derive(Drop)]
pub struct Session<V: Files> {
    pub(crate) base: Base<V>,
    pub(crate) stopped: bool,
    pub(crate) lost: bool,
}

impl<V: Files> Model for Session<V> {
    ghost use Rattle.antelope_engine.specs.Seen.{IsSession, Seen};
    ghost use Rattle.session_model.specs.Carried.{aheads as aheads_in, database as database_of};

    ghost Value = { Seen V };

    ghost view = { λ s. record {
      files = s.base.files;
      database = database_of V.Files s.base;
      aheads = aheads_in V.Files s.base;
      stopped = s.stopped;
      lost = s.lost;
    } };

    ghost invariant = { λ s. IsSession V.Files s.base s.stopped s.lost };
}

impl<V: Files> Session<V> {
    /// Judges the files and opens the database that they hold, with no cursor open.
    ///
    /// # Errors
    ///
    /// `Bad` comes exactly where one of the rules 14 to 20 is broken, and names the first with its
    /// place.
    pub fn start(files: V) -> Result<Session<V>, StartError<V>>
        requires idle { (V.state files).draft ≡ None }
        ensures sound { IsTrue (V.state files).tells
            → OnOk result (IsSoundTable (V.state files).files) }
        ensures base { IsTrue (V.state files).tells → IfOk result (λ s.
            s.database ≡ base_of (V.state files).files) }
        ensures bad { IsTrue (V.state files).tells → IfErr result (λ e. OnBroken e (λ broken.
            BreaksFirst (V.state files).files broken.rule broken.place)) }
        ensures same { IfOk result (λ s. V.state s.files ≡ V.state files) }
        ensures returned { IfErr result (λ e. OnBroken e (λ _.
            V.state (files_left e) ≡ V.state files)) }
        ensures running { IfOk result (λ s. (s.stopped ≡ false) × (s.lost ≡ false)) }
        ensures aheads { IfOk result (λ s. s.aheads ≡ no_cursors) }
        ensures reads { let base = base_of (V.state files).files in
            IsTrue (V.state files).tells → V.reads (files_after result) ≤ V.reads files
            + 1024 + 16384 + 16 * sum (map (slots_opened base) (range_with_len 0 8)) }
        ensures store { let after = V.state (files_after result) in
            length after.store ≡ length (V.state files).store }
        ensures cause { HasStartCause (V.faults files) (V.faults (files_after result)) result }
    {
        let mut session = Session::new(files);
        match session.begin() {
            Ok(Ok(())) => Ok(session),
            Ok(Err(broken)) => {
                let files = session.base.files;
                Err(StartError::Bad { broken, files })
            }
            Err(Failed) => {
                let files = session.base.files;
                Err(StartError::Failed { files })
            }
        }
    }

    /// A session over files that nobody has judged yet: it is stopped until it is begun.
    // Not inlined, since its caller would keep the parts of which it is made on its stack.
    #[inline(never)]
    pub fn new(files: V) -> Session<V>
        ensures files { result.files ≡ files }
        ensures stopped { (result.stopped ≡ true) × (result.lost ≡ true) }
    {
        Session {
            base: Base {
                files,
                tables: HashTables::new(),
                held: nothing_held(),
                opens: none_open(),
            },
            stopped: true,
            lost: true,
        }
    }

    /// Judges the files and opens the database that they hold in the place of what was opened, with no cursor
    /// open. Where a rule is broken or a file failed the session is stopped.
    ///
    /// # Errors
    ///
    /// The inner error comes exactly where one of the rules 14 to 20 is broken, and names the first with its
    /// place.
    #[inline(never)]
    pub fn begin(&mut self) -> Result<Result<(), BrokenRule>, Failed>
        requires idle { (V.state self.old.files).draft ≡ None }
        ensures sound { IsTrue (V.state self.old.files).tells → IfOk result (λ r.
            OnOk r (IsSoundTable (V.state self.old.files).files)) }
        ensures base { IsTrue (V.state self.old.files).tells → IfOk result (λ r.
            OnOk r (self.new.database ≡ base_of (V.state self.old.files).files)) }
        ensures bad { IsTrue (V.state self.old.files).tells → IfOk result (λ r. IfErr r (λ broken.
            BreaksFirst (V.state self.old.files).files broken.rule broken.place)) }
        ensures running { IfOk result (λ r. OnOk r ((self.new.stopped ≡ false) × (self.new.lost ≡ false))) }
        ensures stopped { UnlessBegun result (self.new.stopped ≡ true) }
        ensures aheads { IfOk result (λ r. OnOk r (self.new.aheads ≡ no_cursors)) }
        ensures reads { let base = base_of (V.state self.old.files).files in
            IsTrue (V.state self.old.files).tells → V.reads self.new.files ≤ V.reads self.old.files
            + 1024 + 16384 + 16 * sum (map (slots_opened base) (range_with_len 0 8)) }
        ensures frame { OnlyReads V.state V.lent V.reads V.faults self.old.files self.new.files result }
    {
        self.stopped = true;
        self.lost = true;
        match open_database(
            &mut self.base.files,
            &mut self.base.tables,
            &mut self.base.held,
        ) {
            Ok(Ok(())) => {
                self.base.opens = none_open();
                self.stopped = false;
                self.lost = false;
                Ok(Ok(()))
            }
            Ok(Err(broken)) => Ok(Err(broken)),
            Err(Failed) => Err(Failed),
        }
    }

    /// Carries out a command and writes its reply. Where there is no space for it, which is no
    /// error, nothing is changed or written. A command that needs no extent takes no page that was free.
    ///
    /// # Errors
    ///
    /// `Flash` comes only where a file failed: a part of the reply is written, and nothing where the
    /// command changes more than a cursor. Where failures are cuts, what the files are kept in mends to
    /// a database between that before the command and that after it; else no more is said of the files.
    /// `Sink` comes only where the reply could not be written to its end: the command
    /// is carried out. After either the session is stopped.
    pub fn exec<K: Sink>(&mut self, command: &Command, out: &mut K) -> Result<Step, Fault>
        requires running { self.old.stopped ≡ false }
        requires command { IsWellFormed command.now }
        ensures done { IsTrue (V.state self.old.files).tells → IfOk result (λ came.
            Does (outcome self.old.database command.now) self.old.database self.new.database came
            (K.held out.old) (K.held out.new)) }
        ensures sink { IsTrue (V.state self.old.files).tells → IsErrOf result OfSink
            → (self.new.database ≡ (step self.old.database command.now).0)
            × WroteLess (K.held out.old) (K.held out.new)
            (text (step self.old.database command.now).1) }
        ensures flash { IsTrue (V.state self.old.files).tells → IsErrOf result Flash
            → IsBrokenOff V.Files K.Sink command.now self.old.database self.new.files out.old out.new }
        ensures space { IsTrue (V.state self.old.files).tells → WhereNoSpace result (λ need.
            LacksPages V.state V.asks V.lacks self.new command.now need) }
        ensures spares { let old = V.state self.old.files in IsTrue old.tells
            → WantsNone (V.asks self.old.files) old.files self.old.database command.now
            → WhereDone result (TakesNoPage V.is_free old.store (V.state self.new.files).store) }
        ensures silent { WhereNoSpace result (λ need.
            V.lacks self.new.files need × (K.held out.new ≡ K.held out.old)) }
        ensures goes_on { self.new.lost ≡ false → GoesOn V.state command.now self.old self.new }
        ensures reads { IsTrue (V.state self.old.files).tells → Reads command.now
            → V.reads self.new.files
            ≤ V.reads self.old.files + cost_of self.old.database self.old.aheads command.now }
        ensures stops { StopsAtFault result self.new }
        ensures leaves { LeavesFiles V.state command.now result self.old.files self.new.files }
        ensures frame { ChangesAndSends V.Files K.Sink self.old.files self.new.files out.old out.new result }
    {
        hold_names(command);
        match carry_out(&mut self.base, command, out) {
            Ok(step) => Ok(step),
            Err(stop) => {
                self.stopped = true;
                self.lost = is_flash(&stop);
                Err(stop)
            }
        }
    }

    /// Whether `exec` answered a stop, after which it may not be called.
    pub fn is_stopped(&self) -> bool
        ensures { result ≡ self.now.stopped }
    {
        self.stopped
    }

    /// As long as its files did not fail its database is sound, and as long as it may go on they did
    /// not. This does nothing, and says it.
    pub fn database_is_sound(&self)
        ensures sound { IsTrue (V.state self.now.files).tells → self.now.lost ≡ false
            → IsSoundDatabase self.now.database }
        ensures going { self.now.stopped ≡ false → self.now.lost ≡ false }
    {
        let _lost = self.lost;
    }

    /// The files. Wherever they did not fail, they are sound and stand for the database without its cursors.
    pub fn files(&self) -> &V
        ensures files { result.now ≡ self.now.files }
        ensures sound { IsTrue (V.state self.now.files).tells → self.now.lost ≡ false
            → IsSoundTable (V.state self.now.files).files }
        ensures base { IsTrue (V.state self.now.files).tells → self.now.lost ≡ false
            → base_of (V.state self.now.files).files ≡ bare self.now.database }
        ensures idle { self.now.lost ≡ false → (V.state self.now.files).draft ≡ None }
    {
        &self.base.files
    }

    /// Hands the files back.
    pub fn close(self) -> V
        ensures files { result ≡ self.files }
    {
        self.base.files
    }
}

// No cursor is open.
fn none_open() -> [Option<Open>; 4]
    ensures { result ≡ replicate 4 None }
{
    [None, None, None, None]
}

fn is_flash(stop: &Fault) -> bool
    ensures { result ≡ is_flash stop.now }
{
    matches!(stop, Fault::Flash)
}

// The names that a command brings are NAMEs, as each `Ident` is.
fn hold_names(command: &Command)
    ensures { BringsNames command.now }
{
    match command {
        Command::CreateRelation { name } | Command::CreateAttribute { name, .. } => {
            let _name = name.bytes();
        }
        _ => {}
    }
}
