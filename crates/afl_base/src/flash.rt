use crate::failed::Failed;
use crate::ids::{PageId, SectorId};

/// A NOR flash of 4 to 4,095 sectors, each of 16 pages of 256 bytes. The erased byte is 0.
///
/// A type may tell its image, as memory does, or not, as a file does that others may write. What is
/// said of bytes holds where the image is told; every call is safe and returns on every flash. A call
/// that succeeds counts no fault.
pub trait Flash {
    ghost use Rattle.std.specs.Prelude.{◌≡◌, ◌≢◌, ℕ, ◌+◌, ◌*◌, ◌≤◌, Bool, List, length, slice_range, IsTrue, OnOk, OnErr};
    ghost use Rattle.afl_base.specs.Causes.{CountsOne};
    ghost use Rattle.afl_base.specs.Cuts.{IsCutErase, IsCutProgram};
    ghost use Rattle.afl_base.specs.Image.{or_at, zeros_at, page_bytes, sector_bytes};
    ghost use Rattle.afl_base.specs.Keeping.{OnlyReads, Programs};

    // Whether the image below is what the flash holds.
    ghost tells: { Bool };
    // Whether its failures are cuts: a call that failed did a front part of what was asked.
    ghost cuts: { Bool };
    // All bytes of the flash, page after page. Where it is not told, its length still is.
    ghost image: { Self → List ℕ };
    // How many calls failed, up to the last number of a u64.
    ghost faults: { Self → ℕ };
    // How often `read` was called, up to the last number of a u64.
    ghost reads: { Self → ℕ };
    // What it borrows, it holds on to: a flash in memory that is lent is the same memory after a call.
    ghost lent: { Self → List ℕ };

    /// The number of sectors, 4 to 4,095, which never changes.
    fn sectors(&self) -> u16
        ensures least { 4 ≤ result }
        ensures most { result ≤ 4095 }
        ensures size { length (image self.now) ≡ 4096 * result };

    /// Fills `into` with the bytes of `page` from byte `at` on. The image stays, after `Failed` too.
    fn read(&mut self, page: PageId, at: u16, into: &mut [u8]) -> Result<(), Failed>
        requires page { 256 * page.0 + 256 ≤ length (image self.old) }
        requires range { at + length into.old ≤ 256 }
        ensures bytes { IsTrue tells → OnOk result
            (into.new ≡ slice_range (image self.old) (256 * page.0 + at) (256 * page.0 + at + length into.old)) }
        ensures counted { CountsOne (reads self.old) (reads self.new) }
        ensures reads { reads self.new ≤ reads self.old + 1 }
        ensures frame { OnlyReads image lent reads faults self.old self.new result };

    /// Makes each byte of `page` from byte `at` on `old OR given`. After `Failed` that page may hold
    /// anything, and all other pages stay.
    fn program(&mut self, page: PageId, at: u16, bytes: &[u8]) -> Result<(), Failed>
        requires page { 256 * page.0 + 256 ≤ length (image self.old) }
        requires range { at + length bytes.now ≤ 256 }
        ensures programmed { IsTrue tells → OnOk result
            (image self.new ≡ or_at (image self.old) (256 * page.0 + at) bytes.now) }
        ensures page { IsTrue tells → OnOk result
            (page_bytes (image self.new) page.0 ≡ or_at (page_bytes (image self.old) page.0) at bytes.now) }
        ensures other_pages { IsTrue tells → (p : ℕ) → p ≢ page.0
            → page_bytes (image self.new) p ≡ page_bytes (image self.old) p }
        ensures cut { IsTrue tells → IsTrue cuts → OnErr result
            (IsCutProgram (image self.old) (image self.new) (256 * page.0 + at) bytes.now) }
        ensures faultless { OnOk result (faults self.new ≡ faults self.old) }
        ensures frame { Programs image lent reads faults self.old self.new result };

    /// Makes all 4,096 bytes of `sector` zero. After `Failed` that sector may hold anything, and all
    /// other sectors stay.
    fn erase(&mut self, sector: SectorId) -> Result<(), Failed>
        requires sector { 4096 * sector.0 + 4096 ≤ length (image self.old) }
        ensures erased { IsTrue tells → OnOk result
            (image self.new ≡ zeros_at (image self.old) (4096 * sector.0) 4096) }
        ensures other_sectors { IsTrue tells → (s : ℕ) → s ≢ sector.0
            → sector_bytes (image self.new) s ≡ sector_bytes (image self.old) s }
        ensures cut { IsTrue tells → IsTrue cuts → OnErr result
            (IsCutErase (image self.old) (image self.new) sector.0) }
        ensures faultless { OnOk result (faults self.new ≡ faults self.old) }
        ensures frame { Programs image lent reads faults self.old self.new result };
}
