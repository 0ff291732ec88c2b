//! How often a run reads.

use crate::cases::show;
use crate::running::{MANY, erased, run, text};
use crate::samples::{BY_MINUTE, THE_TEN, day};
use std::alloc::Global;
use std::test::Fail;
use test_steps::Part;

// How often a run reads that makes a sensor's day over an erased image, and asks this many times after the
// same ten minutes, where it has status 0 and ends with their replies.
fn reads(alloc: Global, index: &str, times: u16) -> Option<u64> {
    let script = day(alloc, index, times);
    let replies = text(alloc, &[Part::Often(THE_TEN, times)]);
    let ended = run(alloc, script.as_slice(), erased(alloc, MANY).as_mut_slice());
    if ended.status == 0 && ended.written.as_slice().ends_with(replies.as_slice()) {
        Some(ended.reads)
    } else {
        None
    }
}

// How many reads four questions more make.
fn reads_more(alloc: Global, index: &str) -> Option<u64> {
    let once = reads(alloc, index, 1)?;
    let often = reads(alloc, index, 5)?;
    often.checked_sub(once)
}

// Whether four questions more make no fewer and no more reads than these.
fn reads_between(alloc: Global, index: &str, least: u64, most: u64) -> bool {
    match reads_more(alloc, index) {
        Some(more) => least <= more && more <= most,
        None => false,
    }
}

#[test]
fn a_query_that_is_repeated_reads_its_rows_anew(rt: HostRuntime) -> Result<(), Fail> {
    show(
        reads_between(rt.alloc(), BY_MINUTE, 4, 792),
        "few reads more",
    )
}

#[test]
fn a_scan_that_is_repeated_reads_all_pages_anew(rt: HostRuntime) -> Result<(), Fail> {
    // The rows lie in 51 pages, and a read is of one page.
    show(
        reads_between(rt.alloc(), "", 200, u64::MAX),
        "many reads more",
    )
}
