//! Stories that are run, cut and repaired.

use crate::cutting::{Tally, Trouble, Wrong, cut_everywhere};
use crate::old::version_1;
use crate::running::{NO_CUT, erased, run};
use crate::stories::{Asked, Story, tell};
use std::alloc::{AllocError, Global};
use std::test::Fail;
use test_steps::{Part, joined};

/// What is asked for and cut, over a flash on which a script was carried out.
#[derive(Drop)]
pub struct Case {
    /// Whether the flash has a catalog of version 1.
    pub old: bool,
    pub sectors: usize,
    /// Carried out first, and not cut.
    pub before: &'static [Part],
    pub asks: Asks,
    /// How often each write is cut.
    pub times: u32,
    /// Of this many repairs one is cut at each of its writes.
    pub one_in: u32,
}

/// What is asked for.
#[derive(Clone, Copy, Drop)]
pub enum Asks {
    Script(&'static [Part]),
    Frames(&'static [Part]),
    Generated(&'static str, usize),
}

/// Fails a test unless this holds.
pub fn show(holds: bool, shows: &'static str) -> Result<(), Fail> {
    if holds { Ok(()) } else { Err(Fail::new(shows)) }
}

fn asked(alloc: Global, asks: Asks) -> Result<Asked, AllocError> {
    Ok(match asks {
        Asks::Script(parts) => Asked::Script(joined(alloc, parts)?),
        Asks::Frames(parts) => Asked::Frames(framed(alloc, joined(alloc, parts)?.as_slice())?),
        Asks::Generated(seed, count) => Asked::Generated { seed, count },
    })
}

// The commands of a script, each with its `;`, as frames of four clients in turn.
fn framed(alloc: Global, script: &[u8]) -> Result<Vec<u8>, AllocError> {
    let mut frames = Vec::new(alloc);
    let mut client = 1u8;
    let mut begins = true;
    for byte in script {
        if begins {
            frames.push(client)?;
            client = client % 4 + 1;
        }
        begins = *byte == b';';
        frames.push(if begins { 0xc0 } else { *byte })?;
    }
    Ok(frames)
}

fn told(alloc: Global, case: &Case) -> Result<Story, AllocError> {
    let mut image = if case.old {
        version_1(alloc, case.sectors)
    } else {
        erased(alloc, case.sectors)
    };
    let before = joined(alloc, case.before)?;
    run(alloc, before.as_slice(), image.as_mut_slice(), NO_CUT);
    tell(alloc, image.as_slice(), asked(alloc, case.asks)?)
}

// Cuts a story everywhere. Where there is no memory for it, none is repaired.
fn cut(alloc: Global, case: &Case, seed: u32) -> Tally {
    match told(alloc, case) {
        Ok(story) => cut_everywhere(alloc, &story, case.times, case.one_in, seed),
        Err(_) => Tally {
            images: 0,
            wrong: None,
        },
    }
}

/// Cuts each story at each write. All is repaired, of this many images at least: half of what there are, so that a
/// run with fewer writes is no failure.
pub fn all_are_put_right(alloc: Global, cases: &[Case], least: u64) -> Result<(), Fail> {
    let mut images = 0u64;
    let mut seed = 0u32;
    for (at, case) in cases.iter().enumerate() {
        let tally = cut(alloc, case, seed);
        seed = seed.wrapping_add(1);
        none_is_wrong(at as u64, tally.wrong)?;
        images = images.saturating_add(tally.images);
    }
    if images < least {
        return Err(Fail::new(images));
    }
    Ok(())
}

// Tells the case, how much of which write was done, and what is wrong after it, in the digits of one number.
fn none_is_wrong(case: u64, wrong: Option<Wrong>) -> Result<(), Fail> {
    match wrong {
        None => Ok(()),
        Some(wrong) => {
            let place = case
                .saturating_mul(1_000_000)
                .saturating_add(wrong.cut.writes);
            let place = place
                .saturating_mul(10_000)
                .saturating_add(wrong.cut.front as u64);
            let place = place
                .saturating_mul(10_000)
                .saturating_add(number_of(wrong.what));
            Err(Fail::new(place))
        }
    }
}

fn number_of(what: Trouble) -> u64 {
    match what {
        Trouble::Run(status) => 1_000 + u64::from(status),
        Trouble::Repair(status) => 2_000 + u64::from(status),
        Trouble::CutRepair(status) => 3_000 + u64::from(status),
        Trouble::Database => 4_000,
        Trouble::Check(status) => 5_000 + u64::from(status),
    }
}
