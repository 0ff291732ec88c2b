//! A source that gives one byte a read.

use afl_base::{Failed, Source};

/// A source in which one byte comes at a time, as over a slow line.
#[derive(Drop)]
pub struct OneByte<S: Source + Drop> {
    inner: S,
}

impl<S: Source + Drop> OneByte<S> {
    pub fn new(inner: S) -> OneByte<S> {
        OneByte { inner }
    }
}

impl<S: Source + Drop> Source for OneByte<S> {
    ghost left = { λ s. S.left s.inner };

    ghost faults = { λ s. S.faults s.inner };

    ghost reads = { λ s. S.reads s.inner };

    fn read(&mut self, into: &mut [u8]) -> Result<usize, Failed> {
        self.inner.read(&mut into[..1])
    }
}
