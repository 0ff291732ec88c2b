ghost use Rattle.std.specs.Prelude.{◌≡◌, None, IfSome, length};
ghost use Rattle.volume_tests.specs.Counts.{HasFiles};

use crate::calls::live_files;
use crate::mounted::mounted;
use crate::random::Random;
use crate::walk::{are_same, walk};
use afl_base::{Files, Flash};
use afl_sim::{MemFlash, PlainFiles};
use std::test::Fail;

#[test]
fn a_long_walk_leaves_the_files_that_arrays_have(rt: HostRuntime) -> Result<(), Fail> {
    let mut image = vec![in rt.alloc(); 0u8; 262_144]?;
    // The walk is long enough to fill the flash.
    assert!(rt; lacks_at_times(&mut image));
    Ok(())
}

// Whether a walk over a flash leaves the files that arrays have, and lacks space at times.
fn lacks_at_times(image: &mut [u8]) -> bool {
    let mut others: PlainFiles<16_352> = PlainFiles::new();
    match MemFlash::new(image) {
        Some(flash) => match rounds(flash, &mut others, 10, 800) {
            Some(spaces) => spaces > 0,
            None => false,
        },
        None => false,
    }
}

// Walks from no file on, and mounts the flash anew after each round of this many steps. It answers how
// often space was lacking, and nothing where the files differ.
fn rounds<F: Flash + Drop, W: Files>(
    flash: F,
    others: &mut W,
    rounds: u16,
    steps: u16,
) -> Option<u16>
    requires { HasFiles (W.state others.old) 0 }
{
    let mut random = Random::new(1);
    let mut used = 0;
    let mut spaces = 0u16;
    let mut flash = flash;
    for turn in 0..rounds {
        let (back, more) = round(flash, others, &mut used, &mut random, steps)?;
        flash = back;
        spaces = spaces.saturating_add(more);
    }
    round(flash, others, &mut used, &mut random, 0)?;
    Some(spaces)
}

// One round, before and after which the files are the same.
fn round<F: Flash + Drop, W: Files>(
    flash: F,
    others: &mut W,
    used: &mut u16,
    random: &mut Random,
    steps: u16,
) -> Option<(F, u16)>
    requires { HasFiles (W.state others.old) used.old }
    ensures { IfSome result (λ _. HasFiles (W.state others.new) used.new) }
{
    let mut volume = mounted(flash)?;
    let spaces = walk_between(&mut volume, others, used, random, steps)?;
    Some((volume.unmount(), spaces))
}

// A walk before and after which the files are the same.
fn walk_between<V: Files, W: Files>(
    files: &mut V,
    others: &mut W,
    used: &mut u16,
    random: &mut Random,
    steps: u16,
) -> Option<u16>
    requires idle { (V.state files.old).draft ≡ None }
    requires places { length (V.state files.old).files ≡ 32 }
    requires others { HasFiles (W.state others.old) used.old }
    ensures { IfSome result (λ _. HasFiles (W.state others.new) used.new) }
{
    if live_files(files) != *used || are_same(files, others) != Ok(true) {
        return None;
    }
    let spaces = walk(files, others, used, random, steps)?;
    if are_same(files, others) != Ok(true) {
        return None;
    }
    Some(spaces)
}
