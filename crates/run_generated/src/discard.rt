use afl_base::{Failed, Sink};

/// A sink for replies that nobody reads: it takes every byte and keeps none.
#[derive(Drop)]
pub struct Discard {}

impl Sink for Discard {
    ghost use Rattle.std.specs.Prelude.{None, []};

    ghost held = { λ s. None };

    ghost faults = { λ s. 0 };

    ghost lent = { λ s. [] };

    fn write(&mut self, bytes: &[u8]) -> Result<usize, Failed> {
        Ok(bytes.len())
    }
}
