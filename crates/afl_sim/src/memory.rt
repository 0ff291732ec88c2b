use crate::backing::Backing;
use crate::bytes::{erase_bytes, program_bytes, read_bytes};
use afl_base::{Failed, Flash, PAGE_SIZE, PageId, SECTOR_SIZE, SectorId};
use std::marker::Model;

/// A flash in memory. It tells its image and never fails.
#[derive(Drop)]
pub struct MemFlash<'a> {
    bytes: &'a mut [u8],
    sectors: u16,
    reads: u64,
}

impl<'a> Model for MemFlash<'a> {
    ghost use Rattle.std.specs.Prelude.{◌≡◌, ◌*◌, ◌≤◌, length};
    ghost use Rattle.afl_sim.specs.Devices.{FlashInMemory};

    ghost Value = { FlashInMemory };

    ghost view = { λ f. record { image = f.bytes.now; lent = f.bytes.ghost_name; reads = f.reads } };

    ghost invariant = { λ f. (4 ≤ f.sectors) × (f.sectors ≤ 4095) × (length f.bytes.now ≡ 4096 * f.sectors) };
}

impl<'a> MemFlash<'a> {
    ghost use Rattle.std.specs.Prelude.{◌≡◌, ◌↔◌, ◌+◌, ◌≤◌, length, slice_range, IsSome, IfSome};
    ghost use Rattle.afl_sim.specs.Lengths.{IsImageLength};

    /// Takes the bytes `image` as they stand. `None` comes exactly where their number is not 4,096
    /// times a number of sectors from 4 to 4,095.
    pub fn new(image: &'a mut [u8]) -> Option<MemFlash<'a>>
        ensures variant { IsSome result ↔ IsImageLength (length image.entry.now) }
        ensures image { IfSome result (λ flash. flash.image ≡ image.entry.now) }
        ensures lent { IfSome result (λ flash. flash.lent ≡ image.entry.ghost_name) }
        ensures reads { IfSome result (λ flash. flash.reads ≡ 0) }
    {
        let sectors = image.len() / SECTOR_SIZE;
        if image.len() % SECTOR_SIZE != 0 || sectors < 4 || sectors > 4095 {
            return None;
        }
        Some(MemFlash {
            bytes: image,
            sectors: sectors as u16,
            reads: 0,
        })
    }

    /// How often `read` was called, up to the last number of a u64.
    pub fn reads(&self) -> u64
        ensures { result ≡ self.now.reads }
    {
        self.reads
    }

    fn copy_out(&self, at: usize, into: &mut [u8])
        requires { at + length into.old ≤ length self.now.image }
        ensures { into.new ≡ slice_range self.now.image at (at + length into.old) }
    {
        read_bytes(self.bytes, at, into);
    }
}

impl Flash for MemFlash<'_> {
    ghost use Rattle.std.specs.Prelude.{◌∷◌, [], true};

    ghost tells = { true };

    ghost cuts = { true };

    ghost image = { λ f. f.image };

    ghost faults = { λ f. 0 };

    ghost reads = { λ f. f.reads };

    ghost lent = { λ f. f.lent ∷ [] };

    fn sectors(&self) -> u16 {
        self.sectors
    }

    fn read(&mut self, page: PageId, at: u16, into: &mut [u8]) -> Result<(), Failed> {
        self.reads = self.reads.saturating_add(1);
        self.copy_out(PAGE_SIZE * page.0 as usize + at as usize, into);
        Ok(())
    }

    #[tactic(auto, using(afl_base::proofs::Images::or_at_page, afl_base::proofs::Images::or_at_other_page))]
    fn program(&mut self, page: PageId, at: u16, bytes: &[u8]) -> Result<(), Failed> {
        program_bytes(self.bytes, PAGE_SIZE * page.0 as usize + at as usize, bytes);
        Ok(())
    }

    #[tactic(auto, using(afl_base::proofs::Images::erased_other_sector))]
    fn erase(&mut self, sector: SectorId) -> Result<(), Failed> {
        erase_bytes(self.bytes, SECTOR_SIZE * sector.0 as usize, SECTOR_SIZE);
        Ok(())
    }
}

impl Backing for MemFlash<'_> {
    fn read_sector(&mut self, sector: SectorId, into: &mut [u8]) -> Result<(), Failed> {
        self.reads = self.reads.saturating_add(1);
        self.copy_out(SECTOR_SIZE * sector.0 as usize, into);
        Ok(())
    }

    fn overwrite(&mut self, page: PageId, at: u16, bytes: &[u8]) -> Result<(), Failed> {
        self.program(page, at, bytes)?;
        Ok(())
    }
}
