//! A flash that tells nothing.

use afl_base::{Failed, Flash, PageId, SectorId};

/// A row of numbers that its first one decides.
#[derive(Drop)]
pub struct Random {
    state: u32,
}

impl Random {
    pub fn new(seed: u32) -> Random {
        Random { state: seed }
    }

    /// The next number, up to 65,535.
    pub fn next(&mut self) -> u32 {
        self.state = self
            .state
            .wrapping_mul(1_664_525)
            .wrapping_add(1_013_904_223);
        self.state >> 16
    }
}

/// What becomes of the bytes that are read. The first reads are left as they are; of the others one in
/// some answers noise.
#[derive(Drop)]
pub struct Noise {
    random: Random,
    quiet: u32,
    one_in: u32,
}

impl Noise {
    pub fn new(seed: u32, quiet: u32, one_in: u32) -> Noise {
        Noise {
            random: Random::new(seed),
            quiet,
            one_in,
        }
    }

    fn spoil(&mut self, bytes: &mut [u8]) {
        if self.quiet > 0 {
            self.quiet -= 1;
            return;
        }
        if self.one_in > 0 && self.random.next() % self.one_in != 0 {
            return;
        }
        match self.random.next() % 4 {
            0 => self.fill(bytes),
            1 => self.change_one(bytes),
            2 => repeat(bytes, 0),
            _ => self.repeat_one(bytes),
        }
    }

    // All bytes are noise.
    fn fill(&mut self, bytes: &mut [u8]) {
        for byte in bytes.iter_mut() {
            *byte = (self.random.next() % 256) as u8;
        }
    }

    // One byte is another, often a small number.
    fn change_one(&mut self, bytes: &mut [u8]) {
        let len = bytes.len();
        let byte = self.random.next();
        let at = self.random.next() as usize;
        if len > 0 {
            bytes[at % len] = if byte % 2 == 0 {
                (byte / 2 % 8) as u8
            } else {
                (byte / 2 % 256) as u8
            };
        }
    }

    // All bytes are the same.
    fn repeat_one(&mut self, bytes: &mut [u8]) {
        let byte = (self.random.next() % 256) as u8;
        repeat(bytes, byte);
    }
}

fn repeat(bytes: &mut [u8], value: u8) {
    for byte in bytes.iter_mut() {
        *byte = value;
    }
}

/// A flash around another one. What it reads is partly noise, and it counts no fault for that.
#[derive(Drop)]
pub struct NoisyFlash<F: Flash + Drop> {
    inner: F,
    noise: Noise,
}

impl<F: Flash + Drop> NoisyFlash<F> {
    pub fn new(inner: F, noise: Noise) -> NoisyFlash<F> {
        NoisyFlash { inner, noise }
    }
}

impl<F: Flash + Drop> Flash for NoisyFlash<F> {
    ghost use Rattle.std.specs.Prelude.{false};

    ghost tells = { false };

    ghost cuts = { F.cuts };

    ghost image = { λ f. F.image f.inner };

    ghost faults = { λ f. F.faults f.inner };

    ghost reads = { λ f. F.reads f.inner };

    ghost lent = { λ f. F.lent f.inner };

    fn sectors(&self) -> u16 {
        self.inner.sectors()
    }

    fn read(&mut self, page: PageId, at: u16, into: &mut [u8]) -> Result<(), Failed> {
        self.inner.read(page, at, into)?;
        self.noise.spoil(into);
        Ok(())
    }

    fn program(&mut self, page: PageId, at: u16, bytes: &[u8]) -> Result<(), Failed> {
        self.inner.program(page, at, bytes)?;
        Ok(())
    }

    fn erase(&mut self, sector: SectorId) -> Result<(), Failed> {
        self.inner.erase(sector)?;
        Ok(())
    }
}
