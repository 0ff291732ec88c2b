ghost use Rattle.std.specs.Prelude.{◌≡◌, ℕ, ◌+◌, ◌*◌, ◌≤◌, ◌<◌};
ghost use Rattle.coffee_layout.specs.Units.{behind, is_active, is_free, size_of};

use coffee_header::Header;

/// What begins at a page of the flash.
#[derive(Clone, Copy, PartialEq, Eq, Debug)]
pub enum Unit {
    /// A page whose first 32 bytes are zero.
    Free,
    /// A page that collection has to leave until its sector is erased.
    Isolated,
    /// A file, a log, or what is left of one: this many pages as its header says.
    Extent(Header),
}

impl Unit {
    /// The pages of the unit: 1, or those of the extent.
    pub fn pages(&self) -> u16
        ensures { result ≡ size_of self.now }
    {
        match self {
            Unit::Free => 1,
            Unit::Isolated => 1,
            Unit::Extent(header) => header.max_pages,
        }
    }

    /// The page at which a walk over a tiled image goes on after the unit at `page`: after a free
    /// page that is the next sector, since all pages up to there are free.
    pub fn behind(&self, page: u16) -> u16
        requires some { 1 ≤ size_of self.now }
        requires inside { page + size_of self.now ≤ 65520 }
        ensures value { result ≡ behind page self.now }
        ensures onward { page < result }
        ensures within { (sectors : ℕ) → page + size_of self.now ≤ 16 * sectors → result ≤ 16 * sectors }
    {
        match self {
            Unit::Free => page + (16 - page % 16),
            Unit::Isolated => page + 1,
            Unit::Extent(header) => page + header.max_pages,
        }
    }

    /// Whether it is a free page.
    pub fn is_free(&self) -> bool
        ensures { result ≡ is_free self.now }
    {
        match self {
            Unit::Free => true,
            Unit::Isolated => false,
            Unit::Extent(_) => false,
        }
    }

    /// Whether it is an extent under construction, an active file or an active log.
    pub fn is_active(&self) -> bool
        ensures { result ≡ is_active self.now }
    {
        match self {
            Unit::Free => false,
            Unit::Isolated => false,
            Unit::Extent(header) => matches!(header.flags, 2 | 3 | 11 | 19),
        }
    }
}

/// The first broken rule of an image, and the page at which it is broken.
#[derive(Clone, Copy, PartialEq, Eq, Debug)]
pub struct BadImage {
    /// 1 to 13.
    pub rule: u8,
    /// The page of the unit, the file or the log that breaks the rule.
    pub place: u16,
}
