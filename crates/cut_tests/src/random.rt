//! Numbers that a seed decides.

/// A row of numbers that its first one decides.
#[derive(Drop)]
pub struct Random {
    state: u32,
}

impl Random {
    pub fn new(seed: u32) -> Random {
        Random { state: seed }
    }

    /// The next number, up to 65,535.
    pub fn next(&mut self) -> u32 {
        self.state = self
            .state
            .wrapping_mul(1_664_525)
            .wrapping_add(1_013_904_223);
        self.state >> 16
    }

    /// Whether one of this many is met.
    pub fn is_one_in(&mut self, many: u32) -> bool {
        many > 0 && self.next() % many == 0
    }

    /// How many bytes are done of a write that is cut: often up to a place in a header or a record, or all.
    pub fn front(&mut self) -> usize {
        let number = self.next() as usize;
        match number % 8 {
            0 => 0,
            1 | 2 => number / 8 % 34,
            3 => number / 8 % 256,
            4 => number / 8 % 4_096,
            5 => 256 * (number / 8 % 16) + number / 128 % 34,
            _ => 4_096,
        }
    }
}
