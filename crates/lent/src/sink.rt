ghost use Rattle.std.specs.Prelude.{◌≡◌, ◌≢◌, ◌≤◌, length};

use afl_base::{Failed, Sink};

/// A sink that puts the bytes of replies one after another into memory that is lent. It fails where
/// no room is left, and only there.
#[derive(Drop)]
pub struct LentSink<'a> {
    /// The memory.
    pub bytes: &'a mut [u8],
    /// How many bytes in front of it are written.
    pub count: usize,
    /// How many calls failed, up to the last number of a u64.
    pub faults: u64,
    ghost within: { count ≤ length bytes.now },
    ghost full: { faults ≢ 0 → count ≡ length bytes.now },
}

impl<'a> LentSink<'a> {
    ghost use Rattle.std.specs.Prelude.{◌≡◌};

    /// A sink that holds nothing.
    pub fn new(room: &'a mut [u8]) -> LentSink<'a>
        ensures same_reference { result.bytes.ghost_name ≡ room.entry.ghost_name }
        ensures bytes { result.bytes.now ≡ room.entry.now }
        ensures count { result.count ≡ 0 }
        ensures faults { result.faults ≡ 0 }
    {
        LentSink {
            bytes: room,
            count: 0,
            faults: 0,
        }
    }
}

impl Sink for LentSink<'_> {
    ghost use Rattle.std.specs.Prelude.{Some, take, ◌∷◌, []};

    ghost held = { λ s. Some (take s.count s.bytes.now) };

    ghost faults = { λ s. s.faults };

    ghost lent = { λ s. s.bytes.ghost_name ∷ [] };

    fn write(&mut self, bytes: &[u8]) -> Result<usize, Failed> {
        let room = self.bytes.len() - self.count;
        if room == 0 {
            self.faults = self.faults.saturating_add(1);
            return Err(Failed);
        }
        let n = bytes.len().min(room);
        let end = self.count + n;
        self.bytes[self.count..end].copy_from_slice(&bytes[..n]);
        self.count = end;
        Ok(n)
    }
}
