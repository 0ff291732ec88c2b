//! Runs in which one call of the sink fails, or its room ends.

use crate::cases::show;
use crate::faults::{call_failing, sink_fails, with_room};
use crate::running::{Ended, FEW, RUN, copied, erased, none_is_wrong, runs, text};
use crate::scripts::{count, lines, replies, rows_after, script};
use crate::strangers::set;
use std::alloc::Global;
use std::test::Fail;
use test_steps::Part;

const COUNT: &[u8] = b"SELECT COUNT(v) FROM n;";

// Whether an image has the rows of all commands up to the one after this many replies.
fn has_rows_after(alloc: Global, replies: u16, image: &mut [u8]) -> bool {
    let commands = replies.saturating_add(1);
    if commands == 1 {
        return runs(alloc, COUNT, image, b"no attribute 1\n");
    }
    runs(
        alloc,
        COUNT,
        image,
        count(alloc, rows_after(commands)).as_slice(),
    )
}

// Whether a run ended because of its sink, with a part of the replies, and left the rows of all commands
// up to the one whose reply was cut off.
fn is_cut_off(alloc: Global, ended: &Ended, replies: &[u8], image: &mut [u8]) -> bool {
    ended.is_cut_off(5, replies) && has_rows_after(alloc, lines(ended.written.as_slice()), image)
}

// The first call of the sink that fails and does not cut off the run, or 0 where the first whose failure
// ends nothing does not come.
fn first_wrong_call(alloc: Global, script: &[u8], replies: &[u8]) -> Option<u64> {
    for at in 1..10_000u64 {
        let mut image = erased(alloc, FEW);
        let ended = call_failing(alloc, RUN, script, sink_fails(at), image.as_mut_slice());
        if ended.is(0, replies) {
            return None;
        }
        if !is_cut_off(alloc, &ended, replies, image.as_mut_slice()) {
            return Some(at);
        }
    }
    Some(0)
}

#[test]
fn a_call_of_the_sink_that_fails_ends_the_run(rt: HostRuntime) -> Result<(), Fail> {
    let script = script(rt.alloc());
    let replies = replies(rt.alloc());
    none_is_wrong(first_wrong_call(rt.alloc(), script.as_slice(), replies.as_slice()))
}

// The first number of bytes of room, fewer than the replies have, that a run does not fill before it is
// cut off.
fn first_wrong_room(alloc: Global, script: &[u8], replies: &[u8]) -> Option<u64> {
    for bytes in 0..replies.len() {
        let mut image = erased(alloc, FEW);
        let ended = call_failing(alloc, RUN, script, with_room(bytes), image.as_mut_slice());
        let fits = ended.written.len() == bytes;
        if !fits || !is_cut_off(alloc, &ended, replies, image.as_mut_slice()) {
            return Some(bytes as u64);
        }
    }
    None
}

#[test]
fn a_sink_whose_room_ends_has_all_that_fits(rt: HostRuntime) -> Result<(), Fail> {
    let script = script(rt.alloc());
    let replies = replies(rt.alloc());
    show(!replies.is_empty(), "there are replies")?;
    none_is_wrong(first_wrong_room(rt.alloc(), script.as_slice(), replies.as_slice()))
}

// Whether a run on an image that breaks the first rule writes the front of the line that fits into the
// room, and leaves the image.
fn refuses_into(alloc: Global, bytes: usize) -> bool {
    let mut image = erased(alloc, FEW);
    set(image.as_mut_slice(), 9, 1);
    let before = copied(alloc, image.as_slice());
    let script = b"CREATE RELATION n;";
    let ended = call_failing(alloc, RUN, script, with_room(bytes), image.as_mut_slice());
    ended.written.len() == bytes
        && ended.is_front(5, b"no image 1 0\n")
        && image.as_slice() == before.as_slice()
}

#[test]
fn a_broken_rule_is_written_as_far_as_there_is_room(rt: HostRuntime) -> Result<(), Fail> {
    for bytes in 0..13usize {
        show(refuses_into(rt.alloc(), bytes), "what fits is written")?;
    }
    Ok(())
}

// 900 rows of a LONG, of which four sectors hold 812.
const FULL: &[Part] = &[
    Part::Once("CREATE RELATION n;CREATE ATTRIBUTE v DOMAIN LONG IN n;"),
    Part::Often("INSERT (1) INTO n;", 900),
];

const FULL_REPLIES: &[Part] = &[Part::Often("ok\n", 814), Part::Once("no space 32\n")];

// Whether the run of a script that finds no space writes what fits into the room, and leaves the rows
// before.
fn halts_into(alloc: Global, script: &[u8], replies: &[u8], bytes: usize, status: u8) -> bool {
    let mut image = erased(alloc, 4);
    let ended = call_failing(alloc, RUN, script, with_room(bytes), image.as_mut_slice());
    ended.written.len() == bytes
        && ended.is_front(status, replies)
        && runs(alloc, COUNT, image.as_mut_slice(), b"812\nrows 1\n")
}

// Whether this holds of each room from 2,442 bytes on that has no place for the 2,454 bytes of all
// replies, and of that which has.
fn all_halt(alloc: Global, script: &[u8], replies: &[u8]) -> bool {
    for bytes in 2_442..2_454usize {
        if !halts_into(alloc, script, replies, bytes, 5) {
            return false;
        }
    }
    replies.len() == 2_454 && halts_into(alloc, script, replies, 2_454, 3)
}

#[test]
fn the_refusal_for_want_of_space_is_written_as_far_as_there_is_room(
    rt: HostRuntime,
) -> Result<(), Fail> {
    let script = text(rt.alloc(), FULL);
    let replies = text(rt.alloc(), FULL_REPLIES);
    show(
        all_halt(rt.alloc(), script.as_slice(), replies.as_slice()),
        "what fits is written",
    )
}
