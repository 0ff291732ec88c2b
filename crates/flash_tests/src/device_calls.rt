//! Calls of a flash, one after the other, each beside what it has to answer.

use afl_base::{Failed, Flash, PageId, SectorId};
use afl_sim::{FaultFlash, FileFlash, MemFlash};
use arrayvec::ArrayVec;
use std::fs::File;

/// The bytes of four sectors.
pub const SIZE: usize = 16384;

/// A call of a flash.
#[derive(Clone, Copy)]
pub enum Call {
    /// Asks for the number of sectors.
    Sectors,
    /// Programs two bytes of a page from a place on.
    Program(u16, u16, [u8; 2]),
    /// Erases a sector.
    Erase(u16),
    /// Reads three bytes of a page from a place on.
    Read(u16, u16),
}

/// What a call answers.
#[derive(Clone, Copy, PartialEq, Eq, Debug)]
pub enum Answer {
    Sectors(u16),
    Done,
    Bytes([u8; 3]),
    Failed,
    /// The flash has no such place, so nothing was called.
    Nowhere,
}

/// The bytes of an erased flash.
pub fn erased() -> [u8; SIZE] {
    [0; SIZE]
}

/// The number of the first call that answers otherwise than it has to, and its answer.
pub fn first_other<F: Flash>(flash: &mut F, calls: &[(Call, Answer)]) -> Option<(usize, Answer)> {
    for (i, (call, wanted)) in calls.iter().enumerate() {
        let given = answer_to(flash, *call);
        if given != *wanted {
            return Some((i, given));
        }
    }
    None
}

/// The same of a flash of this many bytes in a file.
pub fn first_other_in(
    file: Option<File>,
    length: u64,
    calls: &[(Call, Answer)],
) -> Option<(usize, Answer)> {
    match flash_in(file, length) {
        Some(mut flash) => first_other(&mut flash, calls),
        None => Some((0, Answer::Nowhere)),
    }
}

/// A flash of this many bytes in a file.
pub fn flash_in(file: Option<File>, length: u64) -> Option<FileFlash<File>> {
    FileFlash::new(file?, length)
}

/// What a call answers, where the flash has the place.
pub fn answer_to<F: Flash>(flash: &mut F, call: Call) -> Answer {
    match call {
        Call::Sectors => Answer::Sectors(flash.sectors()),
        Call::Program(page, at, bytes) => program(flash, page, at, bytes),
        Call::Erase(sector) => erase(flash, sector),
        Call::Read(page, at) => read(flash, page, at),
    }
}

fn program<F: Flash>(flash: &mut F, page: u16, at: u16, bytes: [u8; 2]) -> Answer {
    if page / 16 >= flash.sectors() || at > 254 {
        return Answer::Nowhere;
    }
    match flash.program(PageId(page), at, &bytes) {
        Ok(()) => Answer::Done,
        Err(Failed) => Answer::Failed,
    }
}

fn erase<F: Flash>(flash: &mut F, sector: u16) -> Answer {
    if sector >= flash.sectors() {
        return Answer::Nowhere;
    }
    match flash.erase(SectorId(sector)) {
        Ok(()) => Answer::Done,
        Err(Failed) => Answer::Failed,
    }
}

fn read<F: Flash>(flash: &mut F, page: u16, at: u16) -> Answer {
    if page / 16 >= flash.sectors() || at > 253 {
        return Answer::Nowhere;
    }
    let mut into = [9; 3];
    match flash.read(PageId(page), at, &mut into) {
        Ok(()) => Answer::Bytes(into),
        Err(Failed) => Answer::Failed,
    }
}

/// The place and the value of the byte that is not zero, where there is just one.
pub fn only_byte(bytes: &[u8]) -> Option<(usize, u8)> {
    let mut found = None;
    for (at, byte) in bytes.iter().enumerate() {
        if *byte != 0 {
            if found.is_some() {
                return None;
            }
            found = Some((at, *byte));
        }
    }
    found
}

/// The first other answer of a flash in memory whose calls of these numbers fail.
pub fn first_other_of(
    image: &mut [u8; SIZE],
    fails: &[u64],
    calls: &[(Call, Answer)],
) -> Option<(usize, Answer)> {
    match failing(image, fails) {
        Some(mut flash) => first_other(&mut flash, calls),
        None => Some((0, Answer::Nowhere)),
    }
}

/// A flash in memory whose calls of these numbers fail.
pub fn failing<'a>(image: &'a mut [u8; SIZE], calls: &[u64]) -> Option<FaultFlash<MemFlash<'a>>> {
    let mut fails = ArrayVec::new();
    for call in calls.iter() {
        if fails.is_full() {
            return None;
        }
        fails.push(*call);
    }
    let all = &mut image[..];
    Some(FaultFlash::new(MemFlash::new(all)?, fails))
}
