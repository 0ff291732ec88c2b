ghost use Rattle.std.specs.Prelude.{◌≡◌, ◌≢◌, ◌+◌, ◌*◌, ◌≤◌, ◌==◌, not, true, None, Some, IsErrOf, IsTrue, IfOk};
ghost use Rattle.afl_base.specs.Keeping.{ChangesFlashOrLacks};
ghost use Rattle.afl_base.specs.FileErrors.{OnSpace};
ghost use Rattle.coffee_layout.specs.Files.{FitsIn};
ghost use Rattle.coffee_layout.specs.Units.{pages_of};
ghost use Rattle.coffee_merge.specs.Holding.{has_shape};
ghost use Rattle.coffee_merge.specs.Outcomes.{LeavesAll};
ghost use Rattle.coffee_merge.specs.Torn.{BreaksOff};
ghost use Rattle.coffee_volume.specs.Lowest.{TakesStep};
ghost use Rattle.coffee_volume.specs.Rooms.{has_too_few, lacks_log, own_record, records_needed};
ghost use Rattle.coffee_volume.specs.Steps.{IsAfter, MayTake, WhereHeld, WhereStands, need_of, step_for};

use afl_base::{FileError, Flash};
use coffee_layout::FileAt;
use coffee_merge::{add_log, grow, merge};

/// What `prepare` may do with a file.
#[derive(Clone, Copy)]
pub(crate) enum Step {
    /// Move it into twice the pages.
    Grow,
    /// Put it and its log together.
    Merge,
    /// Give it a log.
    Log,
}

/// The first step that the file needs: where the bytes do not fit, it is grown, and else, where its log
/// has too few free records, merged.
pub(crate) fn step_for(at: &FileAt, overwrites: u16, bytes: u32) -> Option<Step>
    requires overwrites { overwrites ≤ 29 }
    requires bytes { at.now.size + bytes ≤ 4194304 }
    ensures { result ≡ step_for at.now overwrites bytes }
{
    if 256 * u32::from(at.pages) < at.size + bytes + 32 {
        return Some(Step::Grow);
    }
    if has_too_few(at, records_needed(at, overwrites, bytes)) {
        return Some(Step::Merge);
    }
    None
}

/// Whether the file needs a log and has none.
pub(crate) fn lacks_log(at: &FileAt, overwrites: u16, bytes: u32) -> bool
    requires { overwrites ≤ 29 }
    ensures { result ≡ lacks_log at.now.log (records_needed at.now.log overwrites bytes) }
{
    match at.log {
        Some(_) => false,
        None => records_needed(at, overwrites, bytes) != 0,
    }
}

/// Takes a step with a file, and answers its entry afterwards. All files keep their bytes. `Space` comes
/// only where the image is then cramped, and leaves all files. Of the pages that were free, only those of
/// the file and of its log are taken.
pub(crate) fn take_step<F: Flash>(
    flash: &mut F,
    file: &FileAt,
    step: Step,
) -> Result<FileAt, FileError>
    requires fits { FitsIn (pages_of (F.image flash.old)) file.now }
    requires shape { has_shape file.now.kind file.now.pages ≡ true }
    requires may { MayTake step file.now }
    ensures moved { IsTrue F.tells → IfOk result (λ to. WhereStands (F.image flash.old) file.now
        (λ table i. TakesStep step (F.image flash.old) (F.image flash.new) table i file.now to)) }
    ensures after { IfOk result (λ to. IsAfter step file.now to) }
    ensures left { IsTrue F.tells → OnSpace result (λ need. WhereHeld (F.image flash.old)
        (λ table. LeavesAll (F.image flash.old) (F.image flash.new) table need)) }
    ensures need { OnSpace result (λ need. need ≡ need_of step file.now) }
    ensures inside { IfOk result (λ to. FitsIn (pages_of (F.image flash.new)) to) }
    ensures cut { IsTrue F.tells → IsTrue F.cuts → IsErrOf result FileError.Failed
        → WhereStands (F.image flash.old) file.now
        (λ table _. BreaksOff (F.image flash.old) (F.image flash.new) table) }
    ensures frame { ChangesFlashOrLacks F.image F.lent F.reads F.faults flash.old flash.new result }
{
    match step {
        Step::Grow => grow(flash, file),
        Step::Merge => merge(flash, file),
        Step::Log => log(flash, file),
    }
}

// Gives a file a log, and answers its entry.
fn log<F: Flash>(flash: &mut F, file: &FileAt) -> Result<FileAt, FileError>
    requires fits { FitsIn (pages_of (F.image flash.old)) file.now }
    requires none { file.now.log ≡ None }
    ensures moved { IsTrue F.tells → IfOk result (λ to. WhereStands (F.image flash.old) file.now
        (λ table i. TakesStep Step.Log (F.image flash.old) (F.image flash.new) table i file.now to)) }
    ensures after { IfOk result (λ to. IsAfter Step.Log file.now to) }
    ensures left { IsTrue F.tells → OnSpace result (λ need. WhereHeld (F.image flash.old)
        (λ table. LeavesAll (F.image flash.old) (F.image flash.new) table need)) }
    ensures need { OnSpace result (λ need. need ≡ 16) }
    ensures inside { IfOk result (λ to. FitsIn (pages_of (F.image flash.new)) to) }
    ensures cut { IsTrue F.tells → IsTrue F.cuts → IsErrOf result FileError.Failed
        → WhereStands (F.image flash.old) file.now
        (λ table _. BreaksOff (F.image flash.old) (F.image flash.new) table) }
    ensures frame { ChangesFlashOrLacks F.image F.lent F.reads F.faults flash.old flash.new result }
{
    let log = add_log(flash, file)?;
    Ok(FileAt {
        log: Some(log),
        ..*file
    })
}

// The records that this many overwrites and bytes need: one for the bytes, where the file has a log or is
// to get one.
fn records_needed(at: &FileAt, overwrites: u16, bytes: u32) -> u16
    requires { overwrites ≤ 29 }
    ensures value { result ≡ records_needed at.now.log overwrites bytes }
    ensures few { result ≤ 30 }
{
    if bytes == 0 {
        return overwrites;
    }
    if overwrites == 0 {
        return own_record(at);
    }
    overwrites + 1
}

// The record that the bytes of an append may take.
fn own_record(at: &FileAt) -> u16
    ensures { result ≡ own_record at.now.log }
{
    match at.log {
        Some(_) => 1,
        None => 0,
    }
}

// Whether the log of a file has fewer free records.
fn has_too_few(at: &FileAt, needed: u16) -> bool
    requires { needed ≤ 30 }
    ensures { result ≡ has_too_few at.now.log at.now.used needed }
{
    match at.log {
        None => false,
        Some(_) => 30 < u16::from(at.used) + needed,
    }
}
