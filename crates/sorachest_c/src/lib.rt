//! Sorachest for C: calls over memory that the caller lends, of which nothing is kept from one to the next.
#![tactic(auto)]

ghost use Rattle.std.specs.Prelude.{[]};
ghost use Rattle.space_plan.specs.declared.further.FurtherRows.TheVariants.{Each};
ghost use Rattle.run_words.specs.declared.words.Form.TheVariants as Form;
ghost use Rattle.lent.specs.Memory.{ChecksInMemory, CollectsInMemory, RepairsInMemory, RunsInMemory};

use lent::{Ended, check_lent, collect_lent, repair_lent, run_lent};
use run_words::Form;
use space_plan::FurtherRows;

/// Carries out a script.
#[unsafe(no_mangle)]
pub extern "C" fn sorachest_run(image: &mut [u8], script: &[u8], replies: &mut [u8]) -> Ended
    ensures { RunsInMemory Form.Run image.old script.now result.status result.written image.new replies.new }
{
    run_lent(Form::Run, image, script, replies)
}

/// Answers the frames of up to four clients on one line.
#[unsafe(no_mangle)]
pub extern "C" fn sorachest_serve(image: &mut [u8], line: &[u8], replies: &mut [u8]) -> Ended
    ensures { RunsInMemory Form.Serve image.old line.now result.status result.written image.new replies.new }
{
    run_lent(Form::Serve, image, line, replies)
}

/// Writes the database as a script.
#[unsafe(no_mangle)]
pub extern "C" fn sorachest_dump(image: &mut [u8], replies: &mut [u8]) -> Ended
    ensures { RunsInMemory Form.Dump image.old [] result.status result.written image.new replies.new }
{
    run_lent(Form::Dump, image, b"", replies)
}

/// Writes how many sectors are enough for this many more rows in each relation.
#[unsafe(no_mangle)]
pub extern "C" fn sorachest_plan(image: &mut [u8], rows: u16, replies: &mut [u8]) -> Ended
    ensures { RunsInMemory (Form.Plan (Each rows)) image.old []
        result.status result.written image.new replies.new }
{
    let rows = FurtherRows::Each(rows);
    run_lent(Form::Plan { rows }, image, b"", replies)
}

/// Writes what is on the image.
#[unsafe(no_mangle)]
pub extern "C" fn sorachest_look(image: &mut [u8], replies: &mut [u8]) -> Ended
    ensures { RunsInMemory Form.Look image.old [] result.status result.written image.new replies.new }
{
    run_lent(Form::Look, image, b"", replies)
}

/// Writes what a repair would change.
#[unsafe(no_mangle)]
pub extern "C" fn sorachest_check(image: &mut [u8], replies: &mut [u8]) -> Ended
    ensures { ChecksInMemory image.old result.status result.written image.new replies.new }
{
    check_lent(image, replies)
}

/// Repairs what a power cut left.
#[unsafe(no_mangle)]
pub extern "C" fn sorachest_repair(image: &mut [u8], replies: &mut [u8]) -> Ended
    ensures { RepairsInMemory image.old result.status result.written image.new replies.new }
{
    repair_lent(image, replies)
}

/// Erases the sectors that a collection takes.
#[unsafe(no_mangle)]
pub extern "C" fn sorachest_collect(image: &mut [u8], replies: &mut [u8]) -> Ended
    ensures { CollectsInMemory image.old result.status result.written image.new replies.new }
{
    collect_lent(image, replies)
}
