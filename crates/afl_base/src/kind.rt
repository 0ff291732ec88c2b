use crate::failed::Failed;

/// How a file grows.
#[derive(Clone, Copy, PartialEq, Eq, Debug)]
pub enum Kind {
    /// From 16 pages to twice as many, as often as needed.
    Doubling,
    /// Never: it keeps this number of pages, 1 to 15.
    Fixed(u16),
}

/// Why a call of `Files` that asks for space did not do its work.
#[derive(Clone, Copy, PartialEq, Eq, Debug)]
pub enum FileError {
    /// There was no room for an extent of this many pages. All files are as before.
    Space { need: u16 },
    /// The store underneath failed: see `Failed`.
    Failed,
}

impl From<Failed> for FileError {
    ghost use Rattle.std.specs.Prelude.{◌≡◌};
    ghost use Rattle.afl_base.specs.declared.kind.FileError.TheVariants.{Failed as file_failed};

    ghost from_gives = { λ failed error. error ≡ file_failed };

    fn from(_failed: Failed) -> FileError {
        FileError::Failed
    }
}
