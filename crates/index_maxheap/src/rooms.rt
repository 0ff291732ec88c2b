//! Where an insert writes, and what it needs.

/// Where the pair of an insert goes.
#[derive(Clone, Copy, Debug, PartialEq, Eq)]
pub enum End {
    /// To this place of the file, in a bucket that is there.
    Pair { at: u32 },
    /// Into a new bucket at the end of the file, whose number goes to this place.
    Bucket { at: u32 },
    /// The file is no tree by its size, or its bytes are not told.
    Nowhere,
}

/// What an insert needs: regions to overwrite, bytes to append, and where it writes.
#[derive(Clone, Copy, Debug, PartialEq, Eq)]
pub struct Room {
    pub overwrites: u16,
    pub bytes: u32,
    pub end: End,
}

impl Default for Room {
    fn default() -> Room {
        Room {
            overwrites: 0,
            bytes: 0,
            end: End::Nowhere,
        }
    }
}
