//! A flash that counts what it is told to do.

use afl_base::{Failed, Flash, PageId, SectorId};
use std::cell::Cell;

/// What a flash has counted.
#[derive(Drop)]
pub struct Counts {
    /// The sectors that were erased.
    pub erased: Cell<u32>,
    /// The extents of files and logs that were given up: into the header of each the flag 4 was
    /// programmed.
    pub given_up: Cell<u32>,
}

impl Counts {
    pub fn new() -> Counts {
        Counts {
            erased: Cell::new(0),
            given_up: Cell::new(0),
        }
    }
}

/// A flash around another one. What it counts can be read while it is in use.
#[derive(Drop)]
pub struct CountingFlash<'a, F: Flash + Drop> {
    inner: F,
    counts: &'a Counts,
}

impl<'a, F: Flash + Drop> CountingFlash<'a, F> {
    pub fn new(inner: F, counts: &'a Counts) -> CountingFlash<'a, F> {
        CountingFlash { inner, counts }
    }
}

impl<F: Flash + Drop> Flash for CountingFlash<'_, F> {
    ghost tells = { F.tells };

    ghost cuts = { F.cuts };

    ghost image = { λ f. F.image f.inner };

    ghost faults = { λ f. F.faults f.inner };

    ghost reads = { λ f. F.reads f.inner };

    ghost lent = { λ f. F.lent f.inner };

    fn sectors(&self) -> u16 {
        self.inner.sectors()
    }

    fn read(&mut self, page: PageId, at: u16, into: &mut [u8]) -> Result<(), Failed> {
        self.inner.read(page, at, into)?;
        Ok(())
    }

    fn program(&mut self, page: PageId, at: u16, bytes: &[u8]) -> Result<(), Failed> {
        if at == 9 && bytes.len() == 1 && bytes[0] == 4 {
            count_one(&self.counts.given_up);
        }
        self.inner.program(page, at, bytes)?;
        Ok(())
    }

    fn erase(&mut self, sector: SectorId) -> Result<(), Failed> {
        count_one(&self.counts.erased);
        self.inner.erase(sector)?;
        Ok(())
    }
}

fn count_one(count: &Cell<u32>) {
    count.set(count.get().saturating_add(1));
}
