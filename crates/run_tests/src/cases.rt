//! Scripts with their replies, a row each, and what is told where a run gives others.

use crate::running::{MANY, erased, run, text};
use std::alloc::Global;
use std::test::Fail;
use test_steps::Part;

/// A script, its replies, and what they show.
#[derive(Drop)]
pub struct Case {
    pub shows: &'static str,
    pub script: &'static [Part],
    pub replies: &'static [Part],
}

/// Fails a test unless this holds.
pub fn show(holds: bool, shows: &'static str) -> Result<(), Fail> {
    if holds { Ok(()) } else { Err(Fail::new(shows)) }
}

// What a case that is wrong was to show, or none is.
fn none_is_wrong(wrong: Option<&'static str>) -> Result<(), Fail> {
    match wrong {
        None => Ok(()),
        Some(shows) => Err(Fail::new(shows)),
    }
}

// Whether the replies of a script over an image are just those of the case, and its status is 0.
fn is_told(alloc: Global, case: &Case, image: &mut [u8]) -> bool {
    let script = text(alloc, case.script);
    let replies = text(alloc, case.replies);
    run(alloc, script.as_slice(), image).is(0, replies.as_slice())
}

fn first_wrong(alloc: Global, cases: &[Case]) -> Option<&'static str> {
    for case in cases {
        if !is_told(alloc, case, erased(alloc, MANY).as_mut_slice()) {
            return Some(case.shows);
        }
    }
    None
}

/// Carries out each script over an erased image of 256 sectors.
pub fn expect_each(alloc: Global, cases: &[Case]) -> Result<(), Fail> {
    none_is_wrong(first_wrong(alloc, cases))
}

fn first_wrong_in_turn(alloc: Global, cases: &[Case], image: &mut [u8]) -> Option<&'static str> {
    for case in cases {
        if !is_told(alloc, case, image) {
            return Some(case.shows);
        }
    }
    None
}

/// Carries out each script over what the ones before it left of an image.
pub fn expect_in_turn(alloc: Global, cases: &[Case], image: &mut [u8]) -> Result<(), Fail> {
    none_is_wrong(first_wrong_in_turn(alloc, cases, image))
}

/// Carries out a script over an image. Its replies are just those of the case, and its status is 0.
pub fn expect_on(alloc: Global, case: &Case, image: &mut [u8]) -> Result<(), Fail> {
    show(is_told(alloc, case, image), case.shows)
}
