use crate::ids::FileId;

/// Where a number attribute stands in a file of rows: row number `i` begins at byte `i * row` and has
/// its field of `width` bytes, 2, 4 or 8, from byte `at` of the row on.
#[derive(Clone, Copy, PartialEq, Eq, Debug)]
pub struct KeyColumn {
    pub file: FileId,
    /// The length of a row in bytes.
    pub row: u8,
    pub at: u8,
    pub width: u8,
}
