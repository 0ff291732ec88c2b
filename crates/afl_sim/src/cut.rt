ghost use Rattle.std.specs.Prelude.{◌≡◌, ◌≤◌};
ghost use Rattle.afl_sim.specs.Devices.{done_at_cut};

use crate::bytes::{erase_bytes, program_bytes, read_bytes};
use afl_base::{Failed, Flash, PAGE_SIZE, PageId, SECTOR_SIZE, SectorId};
use std::marker::Model;

// How many bytes of a write of `n` bytes are done in which the power goes.
fn done_at_cut(front: usize, n: usize) -> usize
    ensures done { result ≡ done_at_cut front n }
    ensures within { result ≤ n }
{
    if front < n {
        if 2 < n {
            return front;
        }
        return 0;
    }
    n
}

/// A flash in memory whose power goes. It tells its image.
///
/// This many writes are done; of the next one a front part is done, and it fails; and so do all calls
/// after it, which do nothing.
#[derive(Drop)]
pub struct CutFlash<'a> {
    bytes: &'a mut [u8],
    sectors: u16,
    writes: u64,
    front: usize,
    off: bool,
    reads: u64,
    faults: u64,
}

impl<'a> Model for CutFlash<'a> {
    ghost use Rattle.std.specs.Prelude.{◌≡◌, ◌*◌, ◌≤◌, length};
    ghost use Rattle.afl_sim.specs.Devices.{FlashWithCut};

    ghost Value = { FlashWithCut };

    ghost view = { λ f. record { image = f.bytes.now; lent = f.bytes.ghost_name; writes = f.writes; front = f.front; off = f.off; reads = f.reads; faults = f.faults } };

    ghost invariant = { λ f. (4 ≤ f.sectors) × (f.sectors ≤ 4095) × (length f.bytes.now ≡ 4096 * f.sectors) };
}

impl<'a> CutFlash<'a> {
    ghost use Rattle.std.specs.Prelude.{◌≡◌, ◌↔◌, ◌+◌, ◌≤◌, false, is_err, length, slice_range, IsSome, IfSome};
    ghost use Rattle.afl_sim.specs.Devices.{faults_counted, done_of, power, writes_left};
    ghost use Rattle.afl_sim.specs.Lengths.{IsImageLength};

    /// Takes the bytes `image` as they stand. `writes` writes are done, and of the next one `front`
    /// bytes. `None` comes exactly where the length is not that of an image.
    pub fn new(image: &'a mut [u8], writes: u64, front: usize) -> Option<CutFlash<'a>>
        ensures variant { IsSome result ↔ IsImageLength (length image.entry.now) }
        ensures image { IfSome result (λ flash. flash.image ≡ image.entry.now) }
        ensures lent { IfSome result (λ flash. flash.lent ≡ image.entry.ghost_name) }
        ensures writes { IfSome result (λ flash. flash.writes ≡ writes) }
        ensures front { IfSome result (λ flash. flash.front ≡ front) }
        ensures on { IfSome result (λ flash. flash.off ≡ false) }
    {
        let sectors = image.len() / SECTOR_SIZE;
        if image.len() % SECTOR_SIZE != 0 || sectors < 4 || sectors > 4095 {
            return None;
        }
        Some(CutFlash {
            bytes: image,
            sectors: sectors as u16,
            writes,
            front,
            off: false,
            reads: 0,
            faults: 0,
        })
    }

    // How many of the `n` bytes of a write are done, which is counted.
    fn begin(&mut self, n: usize) -> usize
        ensures done { result ≡ done_of self.old n }
        ensures within { result ≤ n }
        ensures counts { self.new ≡ record self.old { off = power self.old; writes = writes_left self.old } }
    {
        if self.off {
            return 0;
        }
        if self.writes > 0 {
            self.writes -= 1;
            return n;
        }
        self.off = true;
        done_at_cut(self.front, n)
    }

    // Fails where the power is gone.
    fn end(&mut self) -> Result<(), Failed>
        ensures fails { is_err result ≡ self.old.off }
        ensures counts { self.new ≡ record self.old { faults = faults_counted self.old.off self.old.faults } }
    {
        if self.off {
            self.faults = self.faults.saturating_add(1);
            return Err(Failed);
        }
        Ok(())
    }

    fn copy_out(&self, at: usize, into: &mut [u8])
        requires { at + length into.old ≤ length self.now.image }
        ensures { into.new ≡ slice_range self.now.image at (at + length into.old) }
    {
        read_bytes(self.bytes, at, into);
    }
}

impl Flash for CutFlash<'_> {
    ghost use Rattle.std.specs.Prelude.{◌≡◌, ◌≢◌, ℕ, ◌+◌, ◌*◌, ◌≤◌, true, length, take, IsTrue, OnErr, OnOk, ◌∷◌, []};
    ghost use Rattle.afl_base.specs.Cuts.{IsCutErase, IsCutProgram};
    ghost use Rattle.afl_base.specs.Image.{or_at, zeros_at, page_bytes, sector_bytes};
    ghost use Rattle.afl_sim.specs.Devices.{done_of, CountsWrite};
    ghost use Rattle.afl_base.specs.Keeping.{Programs};

    ghost tells = { true };

    ghost cuts = { true };

    ghost image = { λ f. f.image };

    ghost faults = { λ f. f.faults };

    ghost reads = { λ f. f.reads };

    ghost lent = { λ f. f.lent ∷ [] };

    fn sectors(&self) -> u16 {
        self.sectors
    }

    fn read(&mut self, page: PageId, at: u16, into: &mut [u8]) -> Result<(), Failed> {
        self.reads = self.reads.saturating_add(1);
        self.end()?;
        self.copy_out(PAGE_SIZE * page.0 as usize + at as usize, into);
        Ok(())
    }

    #[tactic(auto, using(crate::proofs::Cuts::part_page, crate::proofs::Cuts::part_other_page))]
    fn program(&mut self, page: PageId, at: u16, bytes: &[u8]) -> Result<(), Failed>
        requires page { 256 * page.0 + 256 ≤ length self.old.image }
        requires range { at + length bytes.now ≤ 256 }
        ensures programmed { IsTrue true → OnOk result
            (self.new.image ≡ or_at self.old.image (256 * page.0 + at) bytes.now) }
        ensures page { IsTrue true → OnOk result
            (page_bytes self.new.image page.0 ≡ or_at (page_bytes self.old.image page.0) at bytes.now) }
        ensures other_pages { IsTrue true → (p : ℕ) → p ≢ page.0
            → page_bytes self.new.image p ≡ page_bytes self.old.image p }
        ensures cut { IsTrue true → IsTrue true → OnErr result
            (IsCutProgram self.old.image self.new.image (256 * page.0 + at) bytes.now) }
        ensures faultless { OnOk result (self.new.faults ≡ self.old.faults) }
        ensures frame { let flash = ⟦<Self as Flash>⟧ in
            Programs flash.image flash.lent flash.reads flash.faults self.old self.new result }
        ensures counts { CountsWrite self.old self.new result }
        ensures done { self.new.image
            ≡ or_at self.old.image (256 * page.0 + at) (take (done_of self.old (length bytes.now)) bytes.now) }
    {
        let done = self.begin(bytes.len());
        program_bytes(
            self.bytes,
            PAGE_SIZE * page.0 as usize + at as usize,
            &bytes[..done],
        );
        self.end()?;
        Ok(())
    }

    #[tactic(auto, using(crate::proofs::Cuts::other_sector_stays))]
    fn erase(&mut self, sector: SectorId) -> Result<(), Failed>
        requires sector { 4096 * sector.0 + 4096 ≤ length self.old.image }
        ensures erased { IsTrue true → OnOk result
            (self.new.image ≡ zeros_at self.old.image (4096 * sector.0) 4096) }
        ensures other_sectors { IsTrue true → (s : ℕ) → s ≢ sector.0
            → sector_bytes self.new.image s ≡ sector_bytes self.old.image s }
        ensures cut { IsTrue true → IsTrue true → OnErr result
            (IsCutErase self.old.image self.new.image sector.0) }
        ensures faultless { OnOk result (self.new.faults ≡ self.old.faults) }
        ensures frame { let flash = ⟦<Self as Flash>⟧ in
            Programs flash.image flash.lent flash.reads flash.faults self.old self.new result }
        ensures counts { CountsWrite self.old self.new result }
        ensures done { self.new.image ≡ zeros_at self.old.image (4096 * sector.0) (done_of self.old 4096) }
    {
        let done = self.begin(SECTOR_SIZE);
        erase_bytes(self.bytes, SECTOR_SIZE * sector.0 as usize, done);
        self.end()?;
        Ok(())
    }
}
