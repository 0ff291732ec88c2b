use afl_base::{Kind, Name, PageId};
use arrayvec::ArrayVec;

/// An active file, as it stands on the flash.
#[derive(Clone, Copy, PartialEq, Eq, Debug)]
pub struct FileAt {
    pub name: Name,
    pub kind: Kind,
    /// The first page of its extent.
    pub page: PageId,
    /// The pages of its extent.
    pub pages: u16,
    /// Its bytes, up to and with the last that is not zero, the log taken into account.
    pub size: u32,
    /// The first page of its log.
    pub log: Option<PageId>,
    /// The records of the log that are in use, 0 to 30.
    pub used: u8,
}

impl Default for FileAt {
    fn default() -> FileAt {
        FileAt {
            name: Name::default(),
            kind: Kind::Doubling,
            page: PageId(0),
            pages: 16,
            size: 0,
            log: None,
            used: 0,
        }
    }
}

/// The active files of an image, at most 32, in page order.
pub type Table = ArrayVec<FileAt, 32>;
