//! Whole scripts over a flash whose reads answer noise.

use crate::cases::show;
use crate::faults::{NO_FAULTS, call_on};
use crate::noise::{Noise, NoisyFlash, Random};
use crate::running::{FEW, RUN, erased, none_is_wrong, run};
use crate::scripts::whole_script;
use afl_sim::MemFlash;
use std::alloc::Global;
use std::test::Fail;

// The noise of a seed: from the first read on, or from a later one, in each read or in some.
fn noise_of(seed: u32) -> Noise {
    let mut random = Random::new(seed);
    let quiet = match seed % 4 {
        0 => 0,
        1 => random.next() % 1_024,
        _ => random.next() % 4_096,
    };
    let one_in = match random.next() % 4 {
        0 => 1,
        1 => 8,
        2 => 64,
        _ => 512,
    };
    Noise::new(seed, quiet, one_in)
}

// The status of a script on an image over noise, which is one of a run without a fault, or 255.
fn status_over(alloc: Global, script: &[u8], noise: Noise, image: &mut [u8]) -> u8 {
    let Some(flash) = MemFlash::new(image) else {
        return 255;
    };
    let ended = call_on(alloc, RUN, script, NO_FAULTS, NoisyFlash::new(flash, noise));
    match ended.status {
        6 if ended.is_refused() => 6,
        0 | 3 => ended.status,
        _ => 255,
    }
}

// The status of a script over the noise of a seed. A second run over the image that is left, without
// noise, is refused or carried out, or it is 255.
fn status_of(alloc: Global, script: &[u8], seed: u32) -> u8 {
    let mut image = erased(alloc, FEW);
    let status = status_over(alloc, script, noise_of(seed), image.as_mut_slice());
    match run(alloc, b"SELECT v FROM n;", image.as_mut_slice()).status {
        0 | 6 => status,
        _ => 255,
    }
}

// What this many seeds come to: whether a script was carried out to its end, and one refused, and the first
// seed that is wrong.
#[derive(Clone, Copy)]
struct Seeds {
    carried_out: bool,
    refused: bool,
    wrong: Option<u64>,
}

fn tried(alloc: Global, seeds: u32) -> Seeds {
    let script = whole_script(alloc);
    let mut carried_out = false;
    let mut refused = false;
    let mut wrong = None;
    for seed in 0..seeds {
        match status_of(alloc, script.as_slice(), seed) {
            0 => carried_out = true,
            6 => refused = true,
            3 => {}
            _ => wrong = Some(u64::from(seed)),
        }
    }
    Seeds {
        carried_out,
        refused,
        wrong,
    }
}

#[test]
fn a_script_over_noise_ends_without_a_fault(rt: HostRuntime) -> Result<(), Fail> {
    let seeds = tried(rt.alloc(), 1_000);
    none_is_wrong(seeds.wrong)?;
    // Noise comes early enough to be refused, and late enough to be met by commands.
    show(
        seeds.carried_out && seeds.refused,
        "noise comes early and late",
    )
}
