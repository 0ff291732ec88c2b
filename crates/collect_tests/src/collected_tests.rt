//! Which sectors go.

use crate::running::{Calls, call, collect_unsaid, copied, erased};
use std::alloc::Global;
use std::test::Fail;

// `CAT` in the pages 0 to 5, `T0` in 6 to 21, the log of `CAT` in 22 to 37, and `T1` in 38 to 53, which then is removed.
const REMOVED: &[u8] = b"CREATE RELATION a;CREATE RELATION b;REMOVE RELATION b;";

const BEFORE: &[u8] = b"relation a () rows 0 removed 0 slots left 32768\n\
    flash sectors 8 pages free 74 in files 22 in logs 16 to be collected 16\n";

// Of T1 ten pages lie in the sector 2 beside the log's, and six in the sector 3, which they alone use.
const AFTER: &[u8] = b"relation a () rows 0 removed 0 slots left 32768\n\
    flash sectors 8 pages free 80 in files 22 in logs 16 to be collected 10\n";

fn made(alloc: Global) -> Vec<u8> {
    let mut image = erased(alloc, 8);
    call(alloc, Calls::Run, REMOVED, image.as_mut_slice());
    image
}

fn is_looked_at(alloc: Global, image: &mut [u8], lines: &[u8]) -> bool {
    call(alloc, Calls::Look, b"", image).is(0, lines)
}

fn show(holds: bool, shows: &'static str) -> Result<(), Fail> {
    if holds { Ok(()) } else { Err(Fail::new(shows)) }
}

// Whether the bytes from one place up to another are those that they were.
fn stay(old: &[u8], new: &[u8], from: usize, to: usize) -> bool {
    match (old.get(from..to), new.get(from..to)) {
        (Some(then), Some(now)) => then == now,
        _ => false,
    }
}

#[test]
fn a_sector_that_only_a_removed_file_uses_goes(rt: HostRuntime) -> Result<(), Fail> {
    let mut image = made(rt.alloc());
    let before = copied(rt.alloc(), image.as_slice());
    show(
        is_looked_at(rt.alloc(), image.as_mut_slice(), BEFORE),
        "as made",
    )?;
    let ended = call(rt.alloc(), Calls::Collect, b"", image.as_mut_slice());
    show(ended.is(0, b"sectors erased 1\n"), "one sector goes")?;
    show(
        is_looked_at(rt.alloc(), image.as_mut_slice(), AFTER),
        "six pages are free",
    )?;
    let gone = image
        .as_slice()
        .iter()
        .skip(4_096 * 3)
        .all(|byte| *byte == 0);
    let stays = stay(before.as_slice(), image.as_slice(), 0, 256 * 38);
    show(
        gone && stays,
        "the sector is zero, and what is active stays",
    )
}

#[test]
fn a_collected_image_has_nothing_to_erase(rt: HostRuntime) -> Result<(), Fail> {
    let mut image = made(rt.alloc());
    call(rt.alloc(), Calls::Collect, b"", image.as_mut_slice());
    let before = copied(rt.alloc(), image.as_slice());
    let ended = call(rt.alloc(), Calls::Collect, b"", image.as_mut_slice());
    let same = before.as_slice() == image.as_slice();
    show(
        same && ended.is(0, b"sectors erased 0\n"),
        "a second one erases nothing",
    )
}

#[test]
fn an_erased_image_has_nothing_to_erase(rt: HostRuntime) -> Result<(), Fail> {
    let mut image = erased(rt.alloc(), 4);
    let ended = call(rt.alloc(), Calls::Collect, b"", image.as_mut_slice());
    show(ended.is(0, b"sectors erased 0\n"), "nothing is erased")
}

#[test]
fn an_image_that_is_not_sound_stays(rt: HostRuntime) -> Result<(), Fail> {
    let mut image = made(rt.alloc());
    // A free page that is not zero.
    if let Some(byte) = image.as_mut_slice().get_mut(256 * 60 + 40) {
        *byte = 1;
    }
    let before = copied(rt.alloc(), image.as_slice());
    let ended = call(rt.alloc(), Calls::Collect, b"", image.as_mut_slice());
    let same = before.as_slice() == image.as_slice();
    show(
        same && ended.is(6, b"no image 3 60\n"),
        "the broken rule is told",
    )
}

#[test]
fn a_number_that_is_not_said_is_a_fault_of_the_sink(rt: HostRuntime) -> Result<(), Fail> {
    let mut image = made(rt.alloc());
    let ended = collect_unsaid(rt.alloc(), image.as_mut_slice(), 1);
    show(ended.is(5, b""), "nothing was said")?;
    show(
        is_looked_at(rt.alloc(), image.as_mut_slice(), AFTER),
        "it was collected",
    )
}
