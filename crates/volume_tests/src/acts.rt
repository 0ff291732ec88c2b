//! What is done with a flash and seen on it. Each answers a plain value.

use crate::calls::{begin_draft, live_files};
use crate::mounted::{SIZE, memory};
use crate::steps::{Step, take_all};
use afl_base::{Failed, FileError, Files, Flash, Name, PageId};
use coffee_layout::{BadImage, FileAt, Table, Unit, check, next_unit};
use coffee_space::collect;
use coffee_volume::{MountError, Volume};

/// What steps come to.
#[derive(Clone, Copy, PartialEq, Eq, Debug)]
pub enum Answer {
    Done,
    /// A step was not done.
    Undone,
    Space(u16),
    Failed,
    Bad(BadImage),
}

/// The flash after some steps over its files, and what they came to: up to the first that is not done.
pub fn run<F: Flash + Drop>(flash: F, steps: &[Step]) -> (F, Answer) {
    match Volume::mount(flash) {
        Ok(mut volume) => {
            let mut used = live_files(&volume);
            let answer = answer_of(take_all(&mut volume, &mut used, steps));
            (volume.unmount(), answer)
        }
        Err(MountError::Bad { bad, flash }) => (flash, Answer::Bad(bad)),
        Err(MountError::Failed { flash }) => (flash, Answer::Failed),
    }
}

/// What calls of files come to that answer whether all were done.
pub fn answer_of(done: Result<bool, FileError>) -> Answer {
    match done {
        Ok(true) => Answer::Done,
        Ok(false) => Answer::Undone,
        Err(FileError::Space { need }) => Answer::Space(need),
        Err(FileError::Failed) => Answer::Failed,
    }
}

/// The flash on which a draft of the name was begun and written, which is no file yet.
pub fn drafted<F: Flash + Drop>(flash: F, name: Name) -> (F, Answer) {
    match Volume::mount(flash) {
        Ok(mut volume) => {
            let used = live_files(&volume);
            let begun = begin_draft(&mut volume, used, name, 9, &[1; 9]);
            let answer = if volume.find(name).is_none() {
                answer_of(begun)
            } else {
                Answer::Undone
            };
            (volume.unmount(), answer)
        }
        Err(MountError::Bad { bad, flash }) => (flash, Answer::Bad(bad)),
        Err(MountError::Failed { flash }) => (flash, Answer::Failed),
    }
}

/// What some steps over the files of a flash in memory come to.
pub fn run_in(image: &mut [u8; SIZE], steps: &[Step]) -> Answer {
    match memory(image) {
        Some(flash) => run(flash, steps).1,
        None => Answer::Failed,
    }
}

/// The only file of an image that keeps its rules.
pub fn only_file<F: Flash>(flash: &mut F) -> Option<FileAt> {
    let table = listed(flash)?;
    if table.len() != 1 {
        return None;
    }
    Some(table[0])
}

/// The two files of an image that keeps its rules, and has no others.
pub fn two_files<F: Flash>(flash: &mut F) -> Option<(FileAt, FileAt)> {
    let table = listed(flash)?;
    if table.len() != 2 {
        return None;
    }
    Some((table[0], table[1]))
}

// The files of an image that keeps its rules, as they lie.
fn listed<F: Flash>(flash: &mut F) -> Option<Table> {
    let mut table = Table::new();
    match check(flash, &mut table) {
        Ok(Ok(())) => Some(table),
        _ => None,
    }
}

/// The first of some pages that is not free.
pub fn first_not_free<F: Flash>(flash: &mut F, from: u16, to: u16) -> Option<u16> {
    first_other(flash, from, to, &Unit::Free)
}

/// The first of some pages that is not isolated.
pub fn first_not_isolated<F: Flash>(flash: &mut F, from: u16, to: u16) -> Option<u16> {
    first_other(flash, from, to, &Unit::Isolated)
}

// The first of some pages at which no such unit begins.
fn first_other<F: Flash>(flash: &mut F, from: u16, to: u16, unit: &Unit) -> Option<u16> {
    for page in from..to {
        if unit_at(flash, page) != Some(*unit) {
            return Some(page);
        }
    }
    None
}

/// Whether an obsolete file without a log begins at a page.
pub fn is_obsolete<F: Flash>(flash: &mut F, page: u16) -> bool {
    match unit_at(flash, page) {
        Some(Unit::Extent(header)) => header.flags == 7,
        _ => false,
    }
}

// The unit that begins at a page, where the flash has that page and can be read.
fn unit_at<F: Flash>(flash: &mut F, page: u16) -> Option<Unit> {
    if flash.sectors() <= page / 16 {
        return None;
    }
    match next_unit(flash, PageId(page)) {
        Ok(unit) => unit,
        Err(Failed) => None,
    }
}

/// How many sectors a collection erased.
pub fn collected<F: Flash>(flash: &mut F) -> Option<u16> {
    match collect(flash) {
        Ok(sectors) => Some(sectors),
        Err(Failed) => None,
    }
}
