//! Scripts with their replies, a row each, and what is told where a session gives others.

ghost use Rattle.std.specs.Prelude.{◌≡◌, None};

use crate::arrays::{text, zeros};
use crate::told::{told, volume_over};
use afl_base::Files;
use afl_sim::PlainFiles;
use std::alloc::Global;
use std::test::Fail;
use test_steps::Part;

/// The bytes of 256 sectors.
pub const LARGE: usize = 1_048_576;

/// A script, its replies, and what they show.
#[derive(Drop)]
pub struct Case {
    pub shows: &'static str,
    pub script: &'static [Part],
    pub replies: &'static [Part],
}

/// Fails a test unless this holds.
pub fn show(holds: bool, shows: &'static str) -> Result<(), Fail> {
    if holds { Ok(()) } else { Err(Fail::new(shows)) }
}

// What a case that is wrong was to show, or none is.
fn none_is_wrong(wrong: Option<&'static str>) -> Result<(), Fail> {
    match wrong {
        None => Ok(()),
        Some(shows) => Err(Fail::new(shows)),
    }
}

/// Carries out each script over files in memory and over a flash, of which there is nothing before.
pub fn expect_each(alloc: Global, cases: &[Case]) -> Result<(), Fail> {
    none_is_wrong(first_wrong(alloc, cases))
}

fn first_wrong(alloc: Global, cases: &[Case]) -> Option<&'static str> {
    for case in cases {
        if !is_told(alloc, PlainFiles::<4064>::new(), case)
            || !is_told_on_flash(alloc, 262_144, case)
        {
            return Some(case.shows);
        }
    }
    None
}

/// Carries out each script over an erased flash of this many bytes.
pub fn expect_each_on_flash(alloc: Global, bytes: usize, cases: &[Case]) -> Result<(), Fail> {
    none_is_wrong(first_wrong_on_flash(alloc, bytes, cases))
}

fn first_wrong_on_flash(alloc: Global, bytes: usize, cases: &[Case]) -> Option<&'static str> {
    for case in cases {
        if !is_told_on_flash(alloc, bytes, case) {
            return Some(case.shows);
        }
    }
    None
}

// Whether a script over an erased flash of this many bytes has the replies of the case.
fn is_told_on_flash(alloc: Global, bytes: usize, case: &Case) -> bool {
    match volume_over(zeros(alloc, bytes).as_mut_slice()) {
        Some(volume) => is_told(alloc, volume, case),
        None => false,
    }
}

fn is_told<V: Files + Drop>(alloc: Global, files: V, case: &Case) -> bool
    requires { (V.state files).draft ≡ None }
{
    let script = text(alloc, case.script);
    let replies = text(alloc, case.replies);
    match told(alloc, files, script.as_slice()) {
        Some((written, _)) => written.as_slice() == replies.as_slice(),
        None => false,
    }
}
