ghost use Rattle.std.specs.Prelude.{◌≡◌, ◌*◌, ◌≤◌, length};

use afl_base::{Failed, Flash, PAGE_SIZE, PageId, SECTOR_SIZE, SectorId};
use afl_sim::{erase_bytes, program_bytes, read_bytes};

/// A flash in memory that is lent. It tells its image and never fails.
#[derive(Drop)]
pub struct LentFlash<'a> {
    /// The image.
    pub bytes: &'a mut [u8],
    /// How many sectors it has.
    pub sectors: u16,
    /// How often `read` was called, up to the last number of a u64.
    pub reads: u64,
    ghost least: { 4 ≤ sectors },
    ghost most: { sectors ≤ 4095 },
    ghost size: { length bytes.now ≡ 4096 * sectors },
}

impl<'a> LentFlash<'a> {
    ghost use Rattle.std.specs.Prelude.{◌≡◌, ◌*◌, ◌+◌, ◌≤◌, length, slice_range};

    /// Takes the bytes of an image of this many sectors as they stand.
    pub fn new(image: &'a mut [u8], sectors: u16) -> LentFlash<'a>
        requires least { 4 ≤ sectors }
        requires most { sectors ≤ 4095 }
        requires size { length image.now ≡ 4096 * sectors }
        ensures same_reference { result.bytes.ghost_name ≡ image.entry.ghost_name }
        ensures bytes { result.bytes.now ≡ image.entry.now }
    {
        LentFlash {
            bytes: image,
            sectors,
            reads: 0,
        }
    }

    fn copy_out(&self, at: usize, into: &mut [u8])
        requires { at + length into.old ≤ length self.now.bytes.now }
        ensures { into.new ≡ slice_range self.now.bytes.now at (at + length into.old) }
    {
        read_bytes(self.bytes, at, into);
    }
}

impl Flash for LentFlash<'_> {
    ghost use Rattle.std.specs.Prelude.{◌∷◌, [], true};

    ghost tells = { true };

    ghost cuts = { true };

    ghost image = { λ f. f.bytes.now };

    ghost faults = { λ f. 0 };

    ghost reads = { λ f. f.reads };

    ghost lent = { λ f. f.bytes.ghost_name ∷ [] };

    fn sectors(&self) -> u16 {
        self.sectors
    }

    fn read(&mut self, page: PageId, at: u16, into: &mut [u8]) -> Result<(), Failed> {
        self.reads = self.reads.saturating_add(1);
        self.copy_out(PAGE_SIZE * page.0 as usize + at as usize, into);
        Ok(())
    }

    #[tactic(auto, using(afl_base::proofs::Images::or_at_page, afl_base::proofs::Images::or_at_other_page))]
    fn program(&mut self, page: PageId, at: u16, bytes: &[u8]) -> Result<(), Failed> {
        program_bytes(self.bytes, PAGE_SIZE * page.0 as usize + at as usize, bytes);
        Ok(())
    }

    #[tactic(auto, using(afl_base::proofs::Images::erased_other_sector))]
    fn erase(&mut self, sector: SectorId) -> Result<(), Failed> {
        erase_bytes(self.bytes, SECTOR_SIZE * sector.0 as usize, SECTOR_SIZE);
        Ok(())
    }
}
