use afl_base::{PageId, SectorId};
use coffee_header::Header;
use coffee_layout::BadImage;

/// An active file, by the first page of its extent and its header.
#[derive(Clone, Copy, PartialEq, Eq, Debug)]
pub struct PlacedFile {
    pub page: PageId,
    pub header: Header,
}

/// What was under way when a run ended.
#[derive(Clone, Copy, PartialEq, Eq, Debug)]
pub enum UnderWay {
    /// Nothing was.
    Nothing,
    /// The header of an extent was being written into a page that was free.
    Beginning {
        page: PageId,
    },
    /// An extent was under construction.
    Building {
        page: PageId,
    },
    /// A sector was being erased, whose first unit begins at `page`.
    Erasing {
        sector: SectorId,
        page: PageId,
    },
    /// A log stood that no file names.
    Unnamed {
        log: PageId,
    },
    /// The page of its log was in a file's header, and the flag was not.
    Naming {
        page: PageId,
    },
    /// A file was active in its old extent and in a new one: of the two one is dropped, and one is kept.
    Replacing {
        dropped: PlacedFile,
        kept: PlacedFile,
    },
}

/// A record that was being written into a log, and has no number yet: the last of the log, or one that the
/// record behind it may supersede.
#[derive(Clone, Copy, PartialEq, Eq, Debug)]
pub struct TornRecord {
    /// The first page of the log.
    pub log: PageId,
    /// How many records of the log are in use before it, 0 to 29.
    pub used: u16,
    /// Where the 128 bytes of the record begin in the image.
    pub place: u32,
}

/// What a cut left of an image.
#[derive(Clone, Copy, PartialEq, Eq, Debug)]
pub struct Trouble {
    pub under_way: UnderWay,
    pub torn: Option<TornRecord>,
}

/// What an image is.
#[derive(Clone, Copy, PartialEq, Eq, Debug)]
pub enum Judgement {
    /// It keeps the rules 1 to 13.
    Sound,
    /// It is one that a cut can have left.
    Cut(Trouble),
    /// No cut leaves such an image. The first rule that it breaks, and where.
    Strange(BadImage),
}
