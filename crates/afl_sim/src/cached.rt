use crate::backing::Backing;
use crate::bytes::{erase_bytes, program_bytes, read_bytes};
use afl_base::{Failed, Flash, PAGE_SIZE, PageId, SECTOR_SIZE, SectorId};
use std::marker::Model;

/// A flash that keeps each sector that it read of the flash inside, in memory that the caller lends.
///
/// It is the same flash: it tells what the flash inside tells, and fails only where that one counted a
/// fault. What is programmed or erased goes through at once. A sector that was read is not read inside
/// again, unless a call that failed left it unknown. Sectors for which no memory was lent are not kept.
#[derive(Drop)]
pub struct CachedFlash<'a, F: Backing + Drop> {
    inner: F,
    memory: &'a mut [u8],
    known: &'a mut [bool],
    reads: u64,
}

impl<'a, F: Backing + Drop> Model for CachedFlash<'a, F> {
    ghost use Rattle.afl_sim.specs.Caches.{FlashInCache, IsCache};

    ghost Value = { FlashInCache F };

    ghost view = { λ f. record { inner = f.inner; memory = f.memory.now; lent = f.memory.ghost_name; known = f.known.now; reads = f.reads } };

    ghost invariant = { λ f. IsCache F.tells (F.image f.inner) f.memory.now f.known.now };
}

impl<'a, F: Backing + Drop> CachedFlash<'a, F> {
    ghost use Rattle.std.specs.Prelude.{◌≡◌, ◌*◌, ◌+◌, ◌≤◌, false, length, replicate, slice_range, get_or};
    ghost use Rattle.afl_sim.specs.Caches.{kept_sectors};

    /// A flash over `inner` that keeps the first sectors of it: one for each 4,096 bytes of `memory` and
    /// each entry of `known`. What stands in both is of no account.
    pub fn new(inner: F, memory: &'a mut [u8], known: &'a mut [bool]) -> CachedFlash<'a, F>
        ensures inner { result.inner ≡ inner }
        ensures lent { result.lent ≡ memory.entry.ghost_name }
        ensures known { result.known ≡ replicate (kept_sectors (F.image inner)
            (length memory.entry.now) (length known.entry.now)) false }
        ensures reads { result.reads ≡ 0 }
    {
        let kept = known.len().min(memory.len() / SECTOR_SIZE);
        let kept = kept.min(usize::from(inner.sectors()));
        let known = &mut known[..kept];
        known.fill(false);
        CachedFlash {
            inner,
            memory,
            known,
            reads: 0,
        }
    }

    fn knows(&self, sector: u16) -> bool
        ensures { result ≡ get_or self.now.known sector false }
    {
        match self.known.get(usize::from(sector)) {
            Some(known) => *known,
            None => false,
        }
    }

    fn copy_out(&self, at: usize, into: &mut [u8])
        requires { at + length into.old ≤ length self.now.memory }
        ensures { into.new ≡ slice_range self.now.memory at (at + length into.old) }
    {
        read_bytes(self.memory, at, into);
    }
}

ghost use Rattle.std.specs.Prelude.{◌≡◌, ◌≢◌, ℕ, ◌+◌, ◌*◌, ◌/◌, ◌<◌, ◌≤◌, false, get_or, length, slice_range, set, true, IsOk, IsTrue, OnErr, OnOk};
ghost use Rattle.afl_base.specs.Causes.{CountsOne};
ghost use Rattle.afl_base.specs.Cuts.{IsCutErase, IsCutProgram};
ghost use Rattle.afl_base.specs.Image.{or_at, zeros_at, page_bytes, sector_bytes};
ghost use Rattle.afl_base.specs.Keeping.{OnlyReads, Programs};
ghost use Rattle.afl_sim.specs.Caches.{IsCache, IsKnown};

// Sees to it that a sector is known: one that is not is read into memory.
fn load<F: Backing>(
    inner: &mut F,
    memory: &mut [u8],
    known: &mut [bool],
    sector: u16,
) -> Result<(), Failed>
    requires cache { IsCache F.tells (F.image inner.old) memory.old known.old }
    requires kept { sector < length known.old }
    ensures cache { IsCache F.tells (F.image inner.new) memory.new known.new }
    ensures known { OnOk result (IsKnown known.new sector) }
    ensures once { IsKnown known.old sector → IsOk result × (inner.new ≡ inner.old) }
    ensures unknown { get_or known.old sector false ≡ false
        → CountsOne (F.reads inner.old) (F.reads inner.new) }
    ensures others { (s : ℕ) → IsKnown known.old s → IsKnown known.new s }
    ensures faultless { OnOk result (F.faults inner.new ≡ F.faults inner.old) }
    ensures frame { OnlyReads F.image F.lent F.reads F.faults inner.old inner.new result }
{
    let place = usize::from(sector);
    if !known[place] {
        read_into(inner, memory, sector)?;
        known[place] = true;
    }
    Ok(())
}

// Reads a sector into its place in memory.
fn read_into<F: Backing>(inner: &mut F, memory: &mut [u8], sector: u16) -> Result<(), Failed>
    requires sector { 4096 * sector + 4096 ≤ length (F.image inner.old) }
    requires room { 4096 * sector + 4096 ≤ length memory.old }
    ensures bytes { IsTrue F.tells → OnOk result
        (sector_bytes memory.new sector ≡ sector_bytes (F.image inner.old) sector) }
    ensures others { (s : ℕ) → s ≢ sector → sector_bytes memory.new s ≡ sector_bytes memory.old s }
    ensures size { length memory.new ≡ length memory.old }
    ensures counted { CountsOne (F.reads inner.old) (F.reads inner.new) }
    ensures faultless { OnOk result (F.faults inner.new ≡ F.faults inner.old) }
    ensures frame { OnlyReads F.image F.lent F.reads F.faults inner.old inner.new result }
{
    let start = SECTOR_SIZE * usize::from(sector);
    inner.read_sector(SectorId(sector), &mut memory[start..start + SECTOR_SIZE])?;
    Ok(())
}

// Programs a part of a page of a known sector, in memory and inside. After a failure the sector is
// not known.
fn store<F: Backing>(
    inner: &mut F,
    memory: &mut [u8],
    known: &mut [bool],
    page: PageId,
    at: u16,
    bytes: &[u8],
) -> Result<(), Failed>
    requires cache { IsCache F.tells (F.image inner.old) memory.old known.old }
    requires page { 256 * page.0 + 256 ≤ length (F.image inner.old) }
    requires range { at + length bytes.now ≤ 256 }
    requires known { IsKnown known.old (page.0 / 16) }
    ensures cache { IsCache F.tells (F.image inner.new) memory.new known.new }
    ensures known { OnOk result (known.new ≡ known.old) }
    ensures failed { OnErr result (known.new ≡ set known.old (page.0 / 16) false) }
    ensures programmed { IsTrue F.tells → OnOk result
        (F.image inner.new ≡ or_at (F.image inner.old) (256 * page.0 + at) bytes.now) }
    ensures other_pages { IsTrue F.tells → (p : ℕ) → p ≢ page.0
        → page_bytes (F.image inner.new) p ≡ page_bytes (F.image inner.old) p }
    ensures cut { IsTrue F.tells → IsTrue F.cuts → OnErr result
        (IsCutProgram (F.image inner.old) (F.image inner.new) (256 * page.0 + at) bytes.now) }
    ensures faultless { OnOk result (F.faults inner.new ≡ F.faults inner.old) }
    ensures frame { Programs F.image F.lent F.reads F.faults inner.old inner.new result }
{
    let place = PAGE_SIZE * usize::from(page.0) + usize::from(at);
    program_bytes(memory, place, bytes);
    match inner.overwrite(page, at, &memory[place..place + bytes.len()]) {
        Ok(()) => Ok(()),
        Err(failed) => {
            known[usize::from(page.0 / 16)] = false;
            Err(failed)
        }
    }
}

// Erases a sector inside, and then in memory. After a failure the sector is not known.
fn clear<F: Backing>(
    inner: &mut F,
    memory: &mut [u8],
    known: &mut [bool],
    sector: SectorId,
) -> Result<(), Failed>
    requires cache { IsCache F.tells (F.image inner.old) memory.old known.old }
    requires sector { 4096 * sector.0 + 4096 ≤ length (F.image inner.old) }
    requires kept { sector.0 < length known.old }
    ensures cache { IsCache F.tells (F.image inner.new) memory.new known.new }
    ensures known { OnOk result (known.new ≡ set known.old sector.0 true) }
    ensures failed { OnErr result (known.new ≡ set known.old sector.0 false) }
    ensures erased { IsTrue F.tells → OnOk result
        (F.image inner.new ≡ zeros_at (F.image inner.old) (4096 * sector.0) 4096) }
    ensures other_sectors { IsTrue F.tells → (s : ℕ) → s ≢ sector.0
        → sector_bytes (F.image inner.new) s ≡ sector_bytes (F.image inner.old) s }
    ensures cut { IsTrue F.tells → IsTrue F.cuts → OnErr result
        (IsCutErase (F.image inner.old) (F.image inner.new) sector.0) }
    ensures faultless { OnOk result (F.faults inner.new ≡ F.faults inner.old) }
    ensures frame { Programs F.image F.lent F.reads F.faults inner.old inner.new result }
{
    let place = usize::from(sector.0);
    known[place] = false;
    inner.erase(sector)?;
    erase_bytes(memory, SECTOR_SIZE * place, SECTOR_SIZE);
    known[place] = true;
    Ok(())
}

impl<F: Backing + Drop> Flash for CachedFlash<'_, F> {
    ghost use Rattle.std.specs.Prelude.{◌≡◌, ◌≢◌, ℕ, ◌+◌, ◌*◌, ◌/◌, ◌<◌, ◌≤◌, length, slice_range, IsOk, IsTrue, OnErr, OnOk, ◌∷◌, false, get_or};
    ghost use Rattle.afl_base.specs.Causes.{CountsOne};
    ghost use Rattle.afl_base.specs.Cuts.{IsCutErase, IsCutProgram};
    ghost use Rattle.afl_base.specs.Image.{or_at, zeros_at, page_bytes, sector_bytes};
    ghost use Rattle.afl_sim.specs.Caches.{IsKnown};
    ghost use Rattle.afl_base.specs.Keeping.{OnlyReads, Programs};

    ghost tells = { F.tells };

    ghost cuts = { F.cuts };

    ghost image = { λ f. F.image f.inner };

    ghost faults = { λ f. F.faults f.inner };

    ghost reads = { λ f. f.reads };

    ghost lent = { λ f. f.lent ∷ F.lent f.inner };

    fn sectors(&self) -> u16 {
        self.inner.sectors()
    }

    #[tactic(auto, using(crate::proofs::Caches::cache_read))]
    fn read(&mut self, page: PageId, at: u16, into: &mut [u8]) -> Result<(), Failed>
        requires page { 256 * page.0 + 256 ≤ length (F.image self.old.inner) }
        requires range { at + length into.old ≤ 256 }
        ensures bytes { IsTrue F.tells → OnOk result (into.new
            ≡ slice_range (F.image self.old.inner) (256 * page.0 + at) (256 * page.0 + at + length into.old)) }
        ensures counted { CountsOne self.old.reads self.new.reads }
        ensures reads { self.new.reads ≤ self.old.reads + 1 }
        ensures faultless { OnOk result (F.faults self.new.inner ≡ F.faults self.old.inner) }
        ensures frame { let flash = ⟦<Self as Flash>⟧ in
            OnlyReads flash.image flash.lent flash.reads flash.faults self.old self.new result }
        ensures once { IsKnown self.old.known (page.0 / 16)
            → IsOk result × (self.new.inner ≡ self.old.inner) }
        ensures unknown { get_or self.old.known (page.0 / 16) false ≡ false
            → CountsOne (F.reads self.old.inner) (F.reads self.new.inner) }
        ensures known { page.0 / 16 < length self.old.known
            → OnOk result (IsKnown self.new.known (page.0 / 16)) }
        ensures kept { (s : ℕ) → IsKnown self.old.known s → IsKnown self.new.known s }
    {
        self.reads = self.reads.saturating_add(1);
        let sector = page.0 / 16;
        if usize::from(sector) >= self.known.len() {
            self.inner.read(page, at, into)?;
            return Ok(());
        }
        load(&mut self.inner, self.memory, self.known, sector)?;
        self.copy_out(PAGE_SIZE * usize::from(page.0) + usize::from(at), into);
        Ok(())
    }

    #[tactic(auto, using(afl_base::proofs::Images::or_at_page, crate::proofs::Caches::cache_passed))]
    fn program(&mut self, page: PageId, at: u16, bytes: &[u8]) -> Result<(), Failed>
        requires page { 256 * page.0 + 256 ≤ length (F.image self.old.inner) }
        requires range { at + length bytes.now ≤ 256 }
        ensures programmed { IsTrue F.tells → OnOk result
            (F.image self.new.inner ≡ or_at (F.image self.old.inner) (256 * page.0 + at) bytes.now) }
        ensures page { IsTrue F.tells → OnOk result
            (page_bytes (F.image self.new.inner) page.0 ≡ or_at (page_bytes (F.image self.old.inner) page.0) at bytes.now) }
        ensures other_pages { IsTrue F.tells → (p : ℕ) → p ≢ page.0
            → page_bytes (F.image self.new.inner) p ≡ page_bytes (F.image self.old.inner) p }
        ensures cut { IsTrue F.tells → IsTrue F.cuts → OnErr result
            (IsCutProgram (F.image self.old.inner) (F.image self.new.inner) (256 * page.0 + at) bytes.now) }
        ensures faultless { OnOk result (F.faults self.new.inner ≡ F.faults self.old.inner) }
        ensures frame { let flash = ⟦<Self as Flash>⟧ in
            Programs flash.image flash.lent flash.reads flash.faults self.old self.new result }
        ensures unread { F.reads self.new.inner ≡ F.reads self.old.inner }
        ensures kept { OnOk result (self.new.known ≡ self.old.known) }
    {
        if !self.knows(page.0 / 16) {
            self.inner.program(page, at, bytes)?;
            return Ok(());
        }
        store(&mut self.inner, self.memory, self.known, page, at, bytes)?;
        Ok(())
    }

    fn erase(&mut self, sector: SectorId) -> Result<(), Failed>
        requires sector { 4096 * sector.0 + 4096 ≤ length (F.image self.old.inner) }
        ensures erased { IsTrue F.tells → OnOk result
            (F.image self.new.inner ≡ zeros_at (F.image self.old.inner) (4096 * sector.0) 4096) }
        ensures other_sectors { IsTrue F.tells → (s : ℕ) → s ≢ sector.0
            → sector_bytes (F.image self.new.inner) s ≡ sector_bytes (F.image self.old.inner) s }
        ensures cut { IsTrue F.tells → IsTrue F.cuts → OnErr result
            (IsCutErase (F.image self.old.inner) (F.image self.new.inner) sector.0) }
        ensures faultless { OnOk result (F.faults self.new.inner ≡ F.faults self.old.inner) }
        ensures frame { let flash = ⟦<Self as Flash>⟧ in
            Programs flash.image flash.lent flash.reads flash.faults self.old self.new result }
        ensures unread { F.reads self.new.inner ≡ F.reads self.old.inner }
        ensures kept { OnOk result ((s : ℕ) → IsKnown self.old.known s → IsKnown self.new.known s) }
    {
        if usize::from(sector.0) >= self.known.len() {
            self.inner.erase(sector)?;
            return Ok(());
        }
        clear(&mut self.inner, self.memory, self.known, sector)?;
        Ok(())
    }
}
