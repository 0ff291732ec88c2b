ghost use Rattle.std.specs.Prelude.{◌≡◌, ◌<◌, if◌then◌else◌, nat_lt};

use std::marker::Model;

/// A page of the flash: 256 bytes, numbered from 0, below 16 times the number of sectors.
#[derive(Clone, Copy, PartialEq, Eq, PartialOrd, Ord, Debug)]
pub struct PageId(pub u16);

/// A sector of the flash: 16 pages, numbered from 0. Sector `s` has the pages `16 * s` to `16 * s + 15`.
#[derive(Clone, Copy, PartialEq, Eq, PartialOrd, Ord, Debug)]
pub struct SectorId(pub u16);

/// A place of the table of files, 0 to 31.
#[derive(Clone, Copy, PartialEq, Eq, PartialOrd, Ord, Default, Debug)]
pub struct FileId {
    number: u16,
}

impl Model for FileId {
    ghost use Rattle.std.specs.Prelude.{ℕ, ◌<◌};

    ghost Value = { ℕ };

    ghost view = { λ id. id.number };

    ghost invariant = { λ id. id.number < 32 };

    ghost inverse = { λ n. record { number = n } };
}

impl FileId {
    /// The place of this number, None exactly where it is 32 or more.
    pub fn new(n: u16) -> Option<FileId>
        ensures { result ≡ (if nat_lt n 32 then Some n else None) }
    {
        if n < 32 {
            Some(FileId { number: n })
        } else {
            None
        }
    }

    /// Its number, below 32.
    pub fn number(&self) -> u16
        ensures value { result ≡ self.now }
        ensures below { result < 32 }
    {
        self.number
    }
}

/// A relation slot of the catalog, 0 to 7.
#[derive(Clone, Copy, PartialEq, Eq, PartialOrd, Ord, Default, Debug)]
pub struct RelationId {
    number: u16,
}

impl Model for RelationId {
    ghost use Rattle.std.specs.Prelude.{ℕ, ◌<◌};

    ghost Value = { ℕ };

    ghost view = { λ id. id.number };

    ghost invariant = { λ id. id.number < 8 };

    ghost inverse = { λ n. record { number = n } };
}

impl RelationId {
    /// The slot of this number, None exactly where it is 8 or more.
    pub fn new(n: u16) -> Option<RelationId>
        ensures { result ≡ (if nat_lt n 8 then Some n else None) }
    {
        if n < 8 {
            Some(RelationId { number: n })
        } else {
            None
        }
    }

    /// Its number, below 8.
    pub fn number(&self) -> u16
        ensures value { result ≡ self.now }
        ensures below { result < 8 }
    {
        self.number
    }
}

/// An index slot of the catalog, 0 to 7.
#[derive(Clone, Copy, PartialEq, Eq, PartialOrd, Ord, Default, Debug)]
pub struct IndexId {
    number: u16,
}

impl Model for IndexId {
    ghost use Rattle.std.specs.Prelude.{ℕ, ◌<◌};

    ghost Value = { ℕ };

    ghost view = { λ id. id.number };

    ghost invariant = { λ id. id.number < 8 };

    ghost inverse = { λ n. record { number = n } };
}

impl IndexId {
    /// The slot of this number, None exactly where it is 8 or more.
    pub fn new(n: u16) -> Option<IndexId>
        ensures { result ≡ (if nat_lt n 8 then Some n else None) }
    {
        if n < 8 {
            Some(IndexId { number: n })
        } else {
            None
        }
    }

    /// Its number, below 8.
    pub fn number(&self) -> u16
        ensures value { result ≡ self.now }
        ensures below { result < 8 }
    {
        self.number
    }
}

/// A row of a relation, 0 to 32,767.
#[derive(Clone, Copy, PartialEq, Eq, PartialOrd, Ord, Default, Debug)]
pub struct SlotNo {
    number: u16,
}

impl Model for SlotNo {
    ghost use Rattle.std.specs.Prelude.{ℕ, ◌<◌};

    ghost Value = { ℕ };

    ghost view = { λ id. id.number };

    ghost invariant = { λ id. id.number < 32768 };

    ghost inverse = { λ n. record { number = n } };
}

impl SlotNo {
    /// The row of this number, None exactly where it is 32768 or more.
    pub fn new(n: u16) -> Option<SlotNo>
        ensures { result ≡ (if nat_lt n 32768 then Some n else None) }
    {
        if n < 32768 {
            Some(SlotNo { number: n })
        } else {
            None
        }
    }

    /// Its number, below 32768.
    pub fn number(&self) -> u16
        ensures value { result ≡ self.now }
        ensures below { result < 32768 }
    {
        self.number
    }
}
