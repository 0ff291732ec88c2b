use afl_base::{Failed, Source};

/// A source of bytes that are lent. It never fails.
#[derive(Drop)]
pub struct LentSource<'a> {
    /// The bytes that are still to come.
    pub left: &'a [u8],
    /// How often it was read, up to the last number of a u64.
    pub reads: u64,
}

impl Source for LentSource<'_> {
    ghost use Rattle.std.specs.Prelude.{Some};

    ghost left = { λ s. Some s.left.now };

    ghost faults = { λ s. 0 };

    ghost reads = { λ s. s.reads };

    fn read(&mut self, into: &mut [u8]) -> Result<usize, Failed> {
        self.reads = self.reads.saturating_add(1);
        let n = into.len().min(self.left.len());
        into[..n].copy_from_slice(&self.left[..n]);
        self.left = &self.left[n..];
        Ok(n)
    }
}
