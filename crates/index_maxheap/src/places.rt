//! Places in a tree.

use afl_base::SlotNo;

/// A place on the path of a key: the number of a bucket, a pair of it, and how many buckets of the path
/// lie before it, where these are fewer than four; in a chain it may say four for more.
#[derive(Clone, Copy, Debug, PartialEq, Eq)]
pub struct Place {
    pub bucket: u16,
    pub pair: u8,
    pub hop: u16,
}

/// A slot of a key, and the place after it.
#[derive(Clone, Copy, Debug, PartialEq, Eq)]
pub struct Found {
    pub slot: SlotNo,
    pub place: Place,
}
