//! Calls over the image of two files, one after the other, each beside what it has to answer. Each fails,
//! too, where the flash lacks what it asks for.

use crate::image::{file, named};
use afl_base::{Failed, FileError, Flash, Kind, PageId, regions};
use coffee_layout::{FileAt, Unit, next_unit};
use coffee_log::{append_file, log_put, log_region, log_used, overwrite_file, read_file};
use coffee_space::{collect, find_run, obtain};
use flash_range::{program_range, read_range};

/// The first page of the log of `CAT`.
const LOG: PageId = PageId(22);

/// A call over a flash.
#[derive(Clone, Copy)]
pub enum Call<'a> {
    /// The number of records in use.
    Used,
    /// The record of a region.
    Record(u16),
    /// Adds a fifth record, of the region 5.
    PutFifth(&'a [u8; 128]),
    /// Overwrites bytes of `CAT`, which has room for 1,504, by records after the fourth.
    Overwrite(u16, &'a [u8; 4]),
    /// Appends bytes to `CAT`.
    AppendToCat(&'a [u8; 32]),
    /// Appends bytes to `T0`.
    AppendToT0(&'a [u8; 2]),
    /// Reads bytes of `CAT`, which has room for 1,504, where these stand.
    ReadCat(u16, &'a [u8]),
    /// Reads bytes of `T0`, which has room for 4,064, where these stand.
    ReadT0(u16, &'a [u8; 4]),
    /// Reads bytes of the flash, where these stand.
    Read(u16, &'a [u8]),
    /// Has free pages from one to another.
    Free(u16, u16),
    /// Has isolated pages from one to another.
    Isolated(u16, u16),
    /// Has the file `A` of six pages at page 0.
    KeepsA,
    /// Collects, and counts the sectors that it erased.
    Collect,
    /// A run of free pages, at least one.
    Run(u16),
    /// Space for pages, at least one.
    Space(u16),
}

/// What a call answers.
#[derive(Clone, Copy, PartialEq, Eq, Debug)]
pub enum Answer {
    Done,
    Number(u16),
    None,
    /// Other bytes stand there.
    Differs,
    /// Such a unit does not begin at this page.
    Not(u16),
    Space(u16),
    Failed,
}

/// The number of the first call that answers otherwise than it has to, and its answer.
pub fn first_other<F: Flash>(flash: &mut F, calls: &[(Call, Answer)]) -> Option<(usize, Answer)> {
    for (i, (call, wanted)) in calls.iter().enumerate() {
        let given = answer_to(flash, *call);
        if given != *wanted {
            return Some((i, given));
        }
    }
    None
}

fn answer_to<F: Flash>(flash: &mut F, call: Call) -> Answer {
    if flash.sectors() != 4 {
        return Answer::Failed;
    }
    match call {
        Call::Used => used(flash),
        Call::Record(region) => record(flash, region),
        Call::PutFifth(bytes) => put_fifth(flash, bytes),
        Call::Overwrite(at, bytes) => overwrite(flash, at, bytes),
        Call::AppendToCat(bytes) => append_to_cat(flash, bytes),
        Call::AppendToT0(bytes) => append_to_t0(flash, bytes),
        Call::ReadCat(at, bytes) => read_cat(flash, at, bytes),
        Call::ReadT0(at, bytes) => read_t0(flash, at, bytes),
        Call::Read(place, bytes) => read(flash, place, bytes),
        Call::Free(from, to) => units(flash, from, to, &Unit::Free),
        Call::Isolated(from, to) => units(flash, from, to, &Unit::Isolated),
        Call::KeepsA => keeps_a(flash),
        Call::Collect => number(collect(flash)),
        Call::Run(pages) => run(flash, pages),
        Call::Space(pages) => space(flash, pages),
    }
}

fn done(answer: Result<(), Failed>) -> Answer {
    match answer {
        Ok(()) => Answer::Done,
        Err(Failed) => Answer::Failed,
    }
}

// What a read answers where these bytes should be read, and those were.
fn same(answer: Result<(), Failed>, bytes: &[u8], read: &[u8]) -> Answer {
    match answer {
        Ok(()) => {
            if bytes == read {
                Answer::Done
            } else {
                Answer::Differs
            }
        }
        Err(Failed) => Answer::Failed,
    }
}

fn number(answer: Result<u16, Failed>) -> Answer {
    match answer {
        Ok(number) => Answer::Number(number),
        Err(Failed) => Answer::Failed,
    }
}

fn record_number(answer: Result<u8, Failed>) -> Answer {
    match answer {
        Ok(number) => Answer::Number(u16::from(number)),
        Err(Failed) => Answer::Failed,
    }
}

fn used<F: Flash>(flash: &mut F) -> Answer {
    if flash.sectors() < 4 {
        return Answer::Failed;
    }
    record_number(log_used(flash, LOG))
}

fn record<F: Flash>(flash: &mut F, region: u16) -> Answer {
    if flash.sectors() < 4 {
        return Answer::Failed;
    }
    match log_region(flash, LOG, region) {
        Ok(Some(number)) => Answer::Number(u16::from(number)),
        Ok(None) => Answer::None,
        Err(Failed) => Answer::Failed,
    }
}

fn put_fifth<F: Flash>(flash: &mut F, bytes: &[u8; 128]) -> Answer {
    if flash.sectors() < 4 {
        return Answer::Failed;
    }
    done(log_put(flash, LOG, 4, 5, bytes))
}

fn overwrite<F: Flash>(flash: &mut F, at: u16, bytes: &[u8; 4]) -> Answer {
    let at = u32::from(at);
    if flash.sectors() < 4 || regions(at, 4) > 26 || at > 1_500 {
        return Answer::Failed;
    }
    // It has four records in its log.
    let cat = FileAt {
        name: named(b"CAT"),
        kind: Kind::Fixed(6),
        page: PageId(0),
        pages: 6,
        size: 1_472,
        log: Some(LOG),
        used: 4,
    };
    record_number(overwrite_file(flash, &cat, LOG, at, bytes))
}

fn append_to_cat<F: Flash>(flash: &mut F, bytes: &[u8; 32]) -> Answer {
    if flash.sectors() < 4 {
        return Answer::Failed;
    }
    let cat = FileAt {
        name: named(b"CAT"),
        kind: Kind::Fixed(6),
        page: PageId(0),
        pages: 6,
        size: 1_472,
        log: Some(LOG),
        used: 4,
    };
    record_number(append_file(flash, &cat, bytes))
}

fn append_to_t0<F: Flash>(flash: &mut F, bytes: &[u8; 2]) -> Answer {
    if flash.sectors() < 4 {
        return Answer::Failed;
    }
    let t0 = FileAt {
        name: named(b"T0"),
        kind: Kind::Doubling,
        page: PageId(6),
        pages: 16,
        size: 10,
        log: None,
        used: 0,
    };
    record_number(append_file(flash, &t0, bytes))
}

fn read_cat<F: Flash>(flash: &mut F, at: u16, bytes: &[u8]) -> Answer {
    if flash.sectors() < 4 || bytes.len() > 302 || usize::from(at) > 1_504 - bytes.len() {
        return Answer::Failed;
    }
    let mut into = [9; 302];
    let read = &mut into[..bytes.len()];
    let answer = read_file(flash, PageId(0), Some(LOG), u32::from(at), read);
    same(answer, bytes, read)
}

fn read_t0<F: Flash>(flash: &mut F, at: u16, bytes: &[u8; 4]) -> Answer {
    if flash.sectors() < 4 || at > 4_060 {
        return Answer::Failed;
    }
    let mut into = [9; 4];
    let answer = read_file(flash, PageId(6), None, u32::from(at), &mut into);
    same(answer, bytes, &into)
}

/// Programs bytes of the flash.
pub fn program<F: Flash>(flash: &mut F, place: u16, bytes: &[u8; 300]) -> Answer {
    if flash.sectors() < 4 || place > 15_000 {
        return Answer::Failed;
    }
    done(program_range(flash, u32::from(place), bytes))
}

/// Reads bytes of the flash, where these stand.
pub fn read<F: Flash>(flash: &mut F, place: u16, bytes: &[u8]) -> Answer {
    if flash.sectors() < 4 || bytes.len() > 302 || place > 15_000 {
        return Answer::Failed;
    }
    let mut into = [9; 302];
    let read = &mut into[..bytes.len()];
    let answer = read_range(flash, u32::from(place), read);
    same(answer, bytes, read)
}

fn units<F: Flash>(flash: &mut F, from: u16, to: u16, wanted: &Unit) -> Answer {
    for page in from..to {
        if unit_at(flash, page) != Some(*wanted) {
            return Answer::Not(page);
        }
    }
    Answer::Done
}

fn keeps_a<F: Flash>(flash: &mut F) -> Answer {
    let a = Unit::Extent(file(0, 6, true, named(b"A")));
    units(flash, 0, 1, &a)
}

// The unit that begins at a page, where the flash has that page and can be read.
fn unit_at<F: Flash>(flash: &mut F, page: u16) -> Option<Unit> {
    if flash.sectors() <= page / 16 {
        return None;
    }
    match next_unit(flash, PageId(page)) {
        Ok(unit) => unit,
        Err(Failed) => None,
    }
}

fn run<F: Flash>(flash: &mut F, pages: u16) -> Answer {
    if pages == 0 {
        return Answer::None;
    }
    match find_run(flash, pages) {
        Ok(Some(page)) => Answer::Number(page.0),
        Ok(None) => Answer::None,
        Err(Failed) => Answer::Failed,
    }
}

fn space<F: Flash>(flash: &mut F, pages: u16) -> Answer {
    if pages == 0 {
        return Answer::None;
    }
    match obtain(flash, pages) {
        Ok(page) => Answer::Number(page.0),
        Err(FileError::Space { need }) => Answer::Space(need),
        Err(FileError::Failed) => Answer::Failed,
    }
}
