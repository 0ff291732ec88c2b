ghost use Rattle.std.specs.Prelude.{◌≡◌, None};

use afl_base::{PageId, SectorId};

/// Bits that are programmed at byte 9 of a page, where the flags of a header stand.
#[derive(Clone, Copy, PartialEq, Eq, Debug)]
pub struct Mark {
    pub page: PageId,
    pub bits: u8,
}

/// Where the 256 bytes of two records of a log begin, and the 2 bytes of a number, counted from the front of
/// the flash.
#[derive(Clone, Copy, PartialEq, Eq, Debug)]
pub struct Two {
    pub records: u32,
    pub number: u32,
}

/// Writes that a flash reads as if they had been done: up to two marks, then a sector that is erased,
/// then 128 bytes that are zero again, then two records and a number that are.
#[derive(Clone, Copy, PartialEq, Eq, Debug)]
pub struct Overlay {
    pub first: Option<Mark>,
    pub second: Option<Mark>,
    pub sector: Option<SectorId>,
    /// Where the 128 bytes begin, counted from the front of the flash.
    pub blank: Option<u32>,
    pub two: Option<Two>,
}

impl Overlay {
    /// No write.
    pub fn nothing() -> Overlay
        ensures { result ≡ record { first = None; second = None; sector = None; blank = None; two = None } }
    {
        Overlay {
            first: None,
            second: None,
            sector: None,
            blank: None,
            two: None,
        }
    }
}
