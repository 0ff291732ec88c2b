ghost use Rattle.std.specs.Prelude.{◌<◌};

/// A row of numbers that its first one decides.
#[derive(Drop)]
pub struct Random {
    state: u32,
}

impl Random {
    pub fn new(seed: u32) -> Random {
        Random { state: seed }
    }

    /// The next number, below `end`.
    pub fn below(&mut self, end: u32) -> u32
        requires { 0 < end }
        ensures { result < end }
    {
        self.state = self
            .state
            .wrapping_mul(1_664_525)
            .wrapping_add(1_013_904_223);
        (self.state >> 8) % end
    }

    /// A byte, which is zero in one of four.
    pub fn byte(&mut self) -> u8 {
        self.state = self
            .state
            .wrapping_mul(1_664_525)
            .wrapping_add(1_013_904_223);
        let bits = self.state >> 16;
        if bits % 4 == 0 {
            0
        } else {
            (bits / 4 % 256) as u8
        }
    }

    /// Fills `bytes`; the last is not zero.
    pub fn fill(&mut self, bytes: &mut [u8]) {
        for byte in bytes.iter_mut() {
            *byte = self.byte();
        }
        let len = bytes.len();
        if len > 0 {
            bytes[len - 1] |= 1;
        }
    }
}
