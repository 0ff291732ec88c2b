use afl_base::{Failed, Flash, PageId, SectorId};

/// A flash that a `CachedFlash` stands on: it reads a sector at once, and it is programmed without
/// being read by a caller that knows what stands there.
pub trait Backing: Flash {
    ghost use Rattle.std.specs.Prelude.{◌≡◌, ◌≢◌, ℕ, ◌+◌, ◌*◌, ◌≤◌, length, IsTrue, OnErr, OnOk};
    ghost use Rattle.afl_base.specs.Causes.{CountsOne};
    ghost use Rattle.afl_base.specs.Cuts.{IsCutProgram};
    ghost use Rattle.afl_base.specs.Image.{or_at, page_bytes, sector_bytes};
    ghost use Rattle.afl_base.specs.Keeping.{OnlyReads, Programs};
    ghost use Rattle.afl_sim.specs.Caches.{Covers};

    /// Fills `into` with all bytes of `sector`. It counts as one read.
    fn read_sector(&mut self, sector: SectorId, into: &mut [u8]) -> Result<(), Failed>
        requires sector { 4096 * sector.0 + 4096 ≤ length (Self.image self.old) }
        requires whole { length into.old ≡ 4096 }
        ensures bytes { IsTrue Self.tells → OnOk result
            (into.new ≡ sector_bytes (Self.image self.old) sector.0) }
        ensures counted { CountsOne (Self.reads self.old) (Self.reads self.new) }
        ensures faultless { OnOk result (Self.faults self.new ≡ Self.faults self.old) }
        ensures frame { OnlyReads Self.image Self.lent Self.reads Self.faults self.old self.new result };

    /// Programs `bytes`, which contain each bit that stands there, as `program` does.
    fn overwrite(&mut self, page: PageId, at: u16, bytes: &[u8]) -> Result<(), Failed>
        requires page { 256 * page.0 + 256 ≤ length (Self.image self.old) }
        requires range { at + length bytes.now ≤ 256 }
        requires covers { IsTrue Self.tells → Covers (Self.image self.old) (256 * page.0 + at) bytes.now }
        ensures programmed { IsTrue Self.tells → OnOk result
            (Self.image self.new ≡ or_at (Self.image self.old) (256 * page.0 + at) bytes.now) }
        ensures other_pages { IsTrue Self.tells → (p : ℕ) → p ≢ page.0
            → page_bytes (Self.image self.new) p ≡ page_bytes (Self.image self.old) p }
        ensures cut { IsTrue Self.tells → IsTrue Self.cuts → OnErr result
            (IsCutProgram (Self.image self.old) (Self.image self.new) (256 * page.0 + at) bytes.now) }
        ensures faultless { OnOk result (Self.faults self.new ≡ Self.faults self.old) }
        ensures frame { Programs Self.image Self.lent Self.reads Self.faults self.old self.new result };
}
