/// The bytes of a page of a flash.
pub const PAGE_SIZE: usize = 256;

/// The bytes of a sector of a flash, which is erased as a whole.
pub const SECTOR_SIZE: usize = 4_096;

/// The most slots of a relation.
pub const MOST_SLOTS: u16 = 32_768;
