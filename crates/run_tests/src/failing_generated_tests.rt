//! Runs of generated commands in which one call fails.

use crate::cases::show;
use crate::failing_flash_tests::calls_that_fail;
use crate::faults::{NO_FAULTS, call_failing, sink_fails};
use crate::running::{FEW, erased, none_is_wrong, run};
use std::alloc::Global;
use std::test::Fail;

const WORDS: &[&str] = &["gen", "image", "1", "64"];

const LINE: &[u8] = b"commands 64 ok 63 rows 1 refused 0\n";

// Whether this many generated commands over an erased image are counted by just this line.
fn counts(alloc: Global, commands: &str, line: &[u8]) -> bool {
    let mut image = erased(alloc, FEW);
    let words = &["gen", "image", "1", commands];
    call_failing(alloc, words, b"", NO_FAULTS, image.as_mut_slice()).is(0, line)
}

#[test]
fn generated_commands_are_counted(rt: HostRuntime) -> Result<(), Fail> {
    show(counts(rt.alloc(), "64", LINE), "64 commands are counted")?;
    let four = counts(rt.alloc(), "4", b"commands 4 ok 4 rows 0 refused 0\n");
    show(four, "four commands are counted")
}

// The first call of the sink that fails and does not end the commands as it must, or 0 where the first
// whose failure ends nothing does not come: a part of the line is written, and all commands are carried
// out, of which 59 insert a row.
fn first_wrong(alloc: Global) -> Option<u64> {
    for at in 1..1_000u64 {
        let mut image = erased(alloc, FEW);
        let ended = call_failing(alloc, WORDS, b"", sink_fails(at), image.as_mut_slice());
        if ended.is(0, LINE) {
            return None;
        }
        let after = run(alloc, b"SELECT COUNT(v) FROM w;", image.as_mut_slice());
        if !ended.is_cut_off(5, LINE) || !after.is(0, b"59\nrows 1\n") {
            return Some(at);
        }
    }
    Some(0)
}

#[test]
fn a_call_of_the_sink_that_fails_ends_the_line(rt: HostRuntime) -> Result<(), Fail> {
    none_is_wrong(first_wrong(rt.alloc()))
}

#[test]
fn a_call_of_the_flash_that_fails_ends_the_commands(rt: HostRuntime) -> Result<(), Fail> {
    let calls = calls_that_fail(rt.alloc(), WORDS, b"", LINE, b"");
    none_is_wrong(calls.wrong)?;
    show(
        64 < calls.failed && calls.failed < 99_999,
        "the run ends, and not at its first calls",
    )
}
