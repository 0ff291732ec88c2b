/// What a call came to: its status, and how many bytes of replies it put in front of the room for them. It
/// lies in memory as C's struct of the same fields does.
#[repr(C)]
#[derive(Clone, Copy, PartialEq, Eq, Debug)]
pub struct Ended {
    pub status: u8,
    pub written: usize,
}

impl Ended {
    /// The image is not 4 to 4,095 sectors long.
    pub const WRONG_LENGTH: Ended = Ended {
        status: 10,
        written: 0,
    };
}
