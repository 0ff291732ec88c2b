//! The first fault of the words, the script, the flash or the sink decides how a run ends.

use crate::cases::show;
use crate::faults::{Faults, NO_FAULTS, call_failing, flash_fails, script_fails, sink_fails};
use crate::running::{FEW, RUN, erased, is_erased, runs};
use crate::strangers::put;
use std::alloc::{AllocError, Global};
use std::test::Fail;

const MAKES: &[u8] = b"CREATE RELATION n;CREATE ATTRIBUTE v DOMAIN INT IN n;";

// Whether a script over an image ends with just this status and this text.
fn ends(
    alloc: Global,
    script: &[u8],
    faults: Faults,
    image: &mut [u8],
    status: u8,
    text: &[u8],
) -> bool {
    call_failing(alloc, RUN, script, faults, image).is(status, text)
}

// Whether two wrong arguments leave an image.
fn two_words_leave_all(alloc: Global) -> bool {
    let mut image = erased(alloc, FEW);
    let ended = call_failing(alloc, &["run", "a"], MAKES, NO_FAULTS, image.as_mut_slice());
    ended.is(1, b"") && is_erased(alloc, image.as_slice())
}

#[test]
fn words_of_no_form_leave_all(rt: HostRuntime) -> Result<(), Fail> {
    show(two_words_leave_all(rt.alloc()), "the image stays")
}

// Whether the first call of the flash and of the script may fail, and no bytes are left.
fn first_calls_fail(alloc: Global, image: &mut [u8]) -> bool {
    ends(alloc, MAKES, flash_fails(1), image, 4, b"")
        && ends(alloc, MAKES, script_fails(1), image, 2, b"")
        && is_erased(alloc, image)
}

// Whether the first call of the sink may fail: the relation is there, and has no attribute.
fn first_reply_fails(alloc: Global, image: &mut [u8]) -> bool {
    let asks = b"SELECT v FROM n;INSERT (1) INTO n;";
    ends(alloc, MAKES, sink_fails(1), image, 5, b"")
        && runs(alloc, asks, image, b"no attribute 1\nno value 1\n")
}

#[test]
fn the_first_call_of_each_may_fail(rt: HostRuntime) -> Result<(), Fail> {
    let mut image = erased(rt.alloc(), FEW);
    let calls = first_calls_fail(rt.alloc(), image.as_mut_slice());
    let reply = first_reply_fails(rt.alloc(), image.as_mut_slice());
    show(calls && reply, "each first call fails")
}

// Whether a script ends with this status after its first row, which is left.
fn leaves_one_row(alloc: Global, script: &[u8], faults: Faults, status: u8) -> bool {
    let mut image = erased(alloc, FEW);
    let all = image.as_mut_slice();
    ends(alloc, script, faults, all, status, b"ok\nok\nok\n")
        && runs(alloc, b"SELECT COUNT(v) FROM n;", all, b"1\nrows 1\n")
}

const ONE_ROW_AND_A_HALF: &[u8] = b"CREATE RELATION n;CREATE ATTRIBUTE v DOMAIN INT IN n;\
    INSERT (1) INTO n; SEL";

#[test]
fn a_script_that_fails_leaves_what_came_whole(rt: HostRuntime) -> Result<(), Fail> {
    let left = leaves_one_row(rt.alloc(), ONE_ROW_AND_A_HALF, script_fails(2), 2);
    show(left, "one row is left")
}

fn of_bytes(alloc: Global, byte: u8, bytes: usize) -> Result<Vec<u8>, AllocError> {
    vec![in alloc; byte; bytes]
}

// A script of this many bytes, which begins with these and is filled up with another.
fn filled(alloc: Global, front: &[u8], byte: u8, bytes: usize) -> Vec<u8> {
    match of_bytes(alloc, byte, bytes) {
        Ok(mut script) => {
            put(script.as_mut_slice(), 0, front);
            script
        }
        Err(_) => Vec::new(alloc),
    }
}

// Whether a script of this many spaces ends with this status and no reply, and leaves an erased image.
fn spaces_end_with(alloc: Global, bytes: usize, status: u8) -> bool {
    let mut image = erased(alloc, FEW);
    let script = filled(alloc, b"", b' ', bytes);
    let all = image.as_mut_slice();
    script.len() == bytes
        && ends(alloc, script.as_slice(), NO_FAULTS, all, status, b"")
        && is_erased(alloc, all)
}

#[test]
fn a_script_has_at_most_16777216_bytes(rt: HostRuntime) -> Result<(), Fail> {
    show(
        spaces_end_with(rt.alloc(), 16_777_216, 0),
        "so many are read",
    )?;
    show(
        spaces_end_with(rt.alloc(), 16_777_217, 8),
        "one more is too many",
    )
}

const ONE_ROW: &[u8] = b"CREATE RELATION n;CREATE ATTRIBUTE v DOMAIN INT IN n;INSERT (1) INTO n;";

#[test]
fn a_long_script_leaves_what_came_whole(rt: HostRuntime) -> Result<(), Fail> {
    let script = filled(rt.alloc(), ONE_ROW, b'x', 16_777_217);
    let left = leaves_one_row(rt.alloc(), script.as_slice(), NO_FAULTS, 8);
    show(left, "one row is left")
}
