//! Runs in which one call of the flash fails.

use crate::cases::show;
use crate::faults::{call_failing, flash_fails};
use crate::running::{FEW, RUN, erased, is_judged, none_is_wrong};
use crate::scripts::{replies, script};
use std::alloc::Global;
use std::test::Fail;

/// How many calls of the flash fail before the first whose failure ends nothing; or the first failure that
/// ends otherwise than it must.
#[derive(Clone, Copy)]
pub struct Calls {
    pub failed: u64,
    pub wrong: Option<u64>,
}

/// Lets one call of the flash after the other fail, while words with a script, which else has these
/// replies, are called. A run that fails has written a part of `told`, and leaves an image that is sound
/// or not, as a run on it says.
pub fn calls_that_fail(
    alloc: Global,
    words: &[&str],
    script: &[u8],
    replies: &[u8],
    told: &[u8],
) -> Calls {
    let mut failed = 0u64;
    for at in 1..100_000u64 {
        let mut image = erased(alloc, FEW);
        let ended = call_failing(alloc, words, script, flash_fails(at), image.as_mut_slice());
        if ended.is(0, replies) {
            return Calls {
                failed,
                wrong: None,
            };
        }
        if !ended.is_front(4, told) || !is_judged(alloc, image.as_mut_slice()) {
            return Calls {
                failed,
                wrong: Some(at),
            };
        }
        failed = at;
    }
    Calls {
        failed,
        wrong: None,
    }
}

#[test]
fn a_call_of_the_flash_that_fails_ends_the_run(rt: HostRuntime) -> Result<(), Fail> {
    let script = script(rt.alloc());
    let replies = replies(rt.alloc());
    let calls = calls_that_fail(
        rt.alloc(),
        RUN,
        script.as_slice(),
        replies.as_slice(),
        replies.as_slice(),
    );
    none_is_wrong(calls.wrong)?;
    show(
        99 < calls.failed && calls.failed < 99_999,
        "the run ends, and not at its first calls",
    )
}
