//! Files after power cuts: calls of files are cut at each of their writes and in part, and what they leave is mended, by
//! mending that is cut itself. The files are then those before the call or after it, or a front part of its bytes is in them.

use crate::acts::{Answer, run};
use crate::calls::{fetch, look};
use crate::mending::{Came, mended};
use crate::mounted::{mounted, named};
use crate::random::Random;
use crate::steps::Step;
use afl_base::{Files, Kind, Name};
use afl_sim::{CutFlash, MemFlash};
use std::alloc::{AllocError, Global};
use std::test::Fail;

// The letters of the files.
const LETTERS: &[u8] = b"ABCD";

// The bytes of the file of a name, None where there is none or none can be read.
fn bytes_of<V: Files>(
    alloc: Global,
    files: &mut V,
    name: Name,
) -> Result<Option<Vec<u8>>, AllocError> {
    let Some((_, _, size)) = look(files, name) else {
        return Ok(None);
    };
    let mut bytes = vec![in alloc; 0u8; size as usize]?;
    match fetch(files, name, 0, bytes.as_mut_slice()) {
        Ok(true) => Ok(Some(bytes)),
        _ => Ok(None),
    }
}

// The bytes of each file of an image in memory.
fn contents(alloc: Global, image: &mut [u8]) -> Result<Vec<Option<Vec<u8>>>, AllocError> {
    let mut all = Vec::new(alloc);
    let Some(flash) = MemFlash::new(image) else {
        return Ok(all);
    };
    let Some(mut volume) = mounted(flash) else {
        return Ok(all);
    };
    for letter in LETTERS {
        all.push(bytes_of(alloc, &mut volume, named(&[*letter]))?)?;
    }
    Ok(all)
}

fn common_front(a: &[u8], b: &[u8]) -> usize {
    let mut many = 0usize;
    for (x, y) in a.iter().zip(b) {
        if *x != *y {
            return many;
        }
        many = many.saturating_add(1);
    }
    many
}

fn common_end(a: &[u8], b: &[u8]) -> usize {
    let mut many = 0usize;
    for (x, y) in a.iter().rev().zip(b.iter().rev()) {
        if *x != *y {
            return many;
        }
        many = many.saturating_add(1);
    }
    many
}

// Whether a file begins like the one after a call, and goes on like the one before it.
fn is_between(now: &[u8], before: &[u8], after: &[u8]) -> bool {
    let both = common_front(now, after).saturating_add(common_end(now, before));
    before.len() <= now.len() && now.len() <= after.len() && now.len() <= both
}

// Whether a file may be so after a call that was cut.
fn may_be(now: &Option<Vec<u8>>, before: &Option<Vec<u8>>, after: &Option<Vec<u8>>) -> bool {
    match (now, before, after) {
        (None, None, _) => true,
        (None, _, None) => true,
        (Some(now), Some(before), Some(after)) => {
            let now = now.as_slice();
            now == before.as_slice()
                || now == after.as_slice()
                || is_between(now, before.as_slice(), after.as_slice())
        }
        (Some(now), Some(before), None) => now.as_slice() == before.as_slice(),
        (Some(now), None, Some(after)) => now.as_slice() == after.as_slice(),
        _ => false,
    }
}

// What stands before a call and after it, and how many images were mended.
#[derive(Drop)]
struct Case {
    before: Vec<Option<Vec<u8>>>,
    after: Vec<Option<Vec<u8>>>,
    images: u64,
}

impl Case {
    // Mends a copy of an image. Whether the files are then some that may be.
    fn is_mended(&mut self, alloc: Global, image: &[u8]) -> Result<bool, AllocError> {
        self.images = self.images.saturating_add(1);
        let mut image = Vec::from_slice(alloc, image)?;
        let came = match MemFlash::new(image.as_mut_slice()) {
            Some(mut flash) => mended(&mut flash),
            None => Came::Strange,
        };
        if came != Came::Mended {
            // A file whose record is torn may find no space, and is not lost.
            return Ok(came == Came::Spaceless);
        }
        let now = contents(alloc, image.as_mut_slice())?;
        let mut all = now.len() == LETTERS.len();
        for ((now, before), after) in now.iter().zip(self.before.iter()).zip(self.after.iter()) {
            all = all && may_be(now, before, after);
        }
        Ok(all)
    }

    // The same, and of mending that is cut at each of its writes, and goes on.
    fn is_mended_by_parts(
        &mut self,
        alloc: Global,
        image: &[u8],
        random: &mut Random,
    ) -> Result<bool, AllocError> {
        if !self.is_mended(alloc, image)? {
            return Ok(false);
        }
        for writes in 0..1_000u64 {
            let mut part = Vec::from_slice(alloc, image)?;
            let came = match CutFlash::new(part.as_mut_slice(), writes, front(random)) {
                Some(mut flash) => mended(&mut flash),
                None => Came::Strange,
            };
            if came != Came::Failed {
                return Ok(came == Came::Mended || came == Came::Spaceless);
            }
            if !self.is_mended(alloc, part.as_slice())? {
                return Ok(false);
            }
        }
        Ok(false)
    }
}

// How many bytes are done of a write that is cut.
fn front(random: &mut Random) -> usize {
    match random.below(4) {
        0 => random.below(34) as usize,
        1 => random.below(256) as usize,
        2 => random.below(4_096) as usize,
        _ => 4_096,
    }
}

// Takes steps on a flash whose power goes after this many writes.
fn cut(image: &mut [u8], steps: &[Step], writes: u64, front: usize) -> Answer {
    match CutFlash::new(image, writes, front) {
        Some(flash) => run(flash, steps).1,
        None => Answer::Undone,
    }
}

// Cuts steps at each of their writes, this many times each. How many images were mended, None where one was not.
fn cut_everywhere(
    alloc: Global,
    image: &mut Vec<u8>,
    steps: &[Step],
    times: u32,
    random: &mut Random,
) -> Result<Option<u64>, AllocError> {
    let old = Vec::from_slice(alloc, image.as_slice())?;
    let before = contents(alloc, image.as_mut_slice())?;
    if cut(image.as_mut_slice(), steps, u64::MAX, 0) != Answer::Done {
        return Ok(None);
    }
    let after = contents(alloc, image.as_mut_slice())?;
    let mut case = Case {
        before,
        after,
        images: 0,
    };
    for writes in 0..10_000u64 {
        for _ in 0..times {
            let mut left = Vec::from_slice(alloc, old.as_slice())?;
            match cut(left.as_mut_slice(), steps, writes, front(random)) {
                Answer::Done => return Ok(Some(case.images)),
                Answer::Failed => {}
                _ => return Ok(None),
            }
            if !case.is_mended_by_parts(alloc, left.as_slice(), random)? {
                return Ok(None);
            }
        }
    }
    Ok(None)
}

// Whether there is no space for steps.
fn lacks_space(alloc: Global, image: &[u8], steps: &[Step]) -> Result<bool, AllocError> {
    let mut image = Vec::from_slice(alloc, image)?;
    let answer = cut(image.as_mut_slice(), steps, u64::MAX, 0);
    Ok(matches!(answer, Answer::Space(_)))
}

// Cuts each step at each of its writes over an erased flash of this many sectors, up to the first for which there is no space.
fn cut_all(
    alloc: Global,
    sectors: usize,
    steps: &[Step],
    times: u32,
) -> Result<Option<u64>, AllocError> {
    let mut image = vec![in alloc; 0u8; sectors.saturating_mul(4_096)]?;
    let mut random = Random::new(3);
    let mut images = 0u64;
    for at in 0..steps.len() {
        let one = &steps[at..at + 1];
        if lacks_space(alloc, image.as_slice(), one)? {
            return Ok(Some(images));
        }
        match cut_everywhere(alloc, &mut image, one, times, &mut random)? {
            Some(more) => images = images.saturating_add(more),
            None => return Ok(None),
        }
    }
    Ok(Some(images))
}

// All kinds of calls, after which extents, logs and obsolete pages lie in all sectors.
fn steps_are_mended(alloc: Global, sectors: usize, times: u32) -> Result<Option<u64>, AllocError> {
    let (a, b, c) = (named(b"A"), named(b"B"), named(b"C"));
    let steps = [
        Step::Make(a, Kind::Doubling),
        Step::Append(a, &[7; 300], 1),
        Step::Make(b, Kind::Fixed(6)),
        Step::Append(b, &[5; 100], 1),
        Step::Overwrite(a, 100, &[9; 150]),
        Step::Append(a, &[8; 200], 1),
        Step::Overwrite(b, 10, &[3; 20]),
        Step::Replace(c, &[6; 700], 300),
        Step::Overwrite(a, 0, &[1; 400]),
        Step::Overwrite(a, 3, &[2; 450]),
        Step::Overwrite(a, 1, &[4; 499]),
        Step::Overwrite(a, 2, &[5; 498]),
        Step::Overwrite(a, 4, &[6; 480]),
        Step::Overwrite(a, 5, &[7; 490]),
        Step::Append(b, &[2; 300], 1),
        Step::Replace(a, &[3; 900], 128),
        Step::Erase(c),
        Step::Overwrite(b, 60, &[8; 300]),
        Step::Append(a, &[9; 3_300], 1),
        Step::Erase(b),
        Step::Overwrite(a, 4_000, &[1; 140]),
        Step::Replace(a, &[], 0),
        Step::Erase(a),
    ];
    cut_all(alloc, sectors, &steps, times)
}

// Whether this many images at least were mended.
fn are_many(images: Option<u64>, least: u64) -> bool {
    match images {
        Some(images) => least <= images,
        None => false,
    }
}

#[test]
fn files_are_mended_behind_cuts(rt: HostRuntime) -> Result<(), Fail> {
    let images = steps_are_mended(rt.alloc(), 16, 12)?;
    assert!(rt; are_many(images, 2_000));
    Ok(())
}

#[test]
fn files_on_few_sectors_are_mended_behind_cuts(rt: HostRuntime) -> Result<(), Fail> {
    let images = steps_are_mended(rt.alloc(), 9, 12)?;
    assert!(rt; are_many(images, 2_000));
    Ok(())
}

#[test]
fn files_on_four_sectors_are_mended_behind_cuts(rt: HostRuntime) -> Result<(), Fail> {
    let images = steps_are_mended(rt.alloc(), 4, 12)?;
    assert!(rt; are_many(images, 250));
    Ok(())
}
