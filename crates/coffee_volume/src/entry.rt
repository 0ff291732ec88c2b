use afl_base::{Name, Named};
use coffee_layout::FileAt;

/// An active file, and the room that is left of what was prepared.
#[derive(Clone, Copy)]
pub(crate) struct Entry {
    pub(crate) at: FileAt,
    /// The records of its log that may be overwritten into, at most 29.
    pub(crate) records: u16,
    /// The bytes that may be appended, at most 4,096.
    pub(crate) room: u32,
}

/// The entries of the files, each in its place.
pub(crate) type EntryTable = [Option<Entry>; 32];

impl Named for Entry {
    ghost named = { λ e. e.at.name };

    fn name(&self) -> Name {
        self.at.name
    }
}
