use crate::backing::Backing;
use afl_base::{Failed, Flash, PageId, SectorId};
use arrayvec::ArrayVec;
use std::marker::Model;

/// A flash around another one that fails on demand.
///
/// Its calls but `sectors` are numbered together, from 1 up to the last number of a u64. At the numbers
/// that it was given it answers `Failed`, and does not call the flash inside.
#[derive(Drop)]
pub struct FaultFlash<F: Flash + Drop> {
    inner: F,
    fails: ArrayVec<u64, 16>,
    calls: u64,
    reads: u64,
    faults: u64,
}

impl<F: Flash + Drop> Model for FaultFlash<F> {
    ghost use Rattle.afl_sim.specs.Devices.{FlashWithFaults};

    ghost Value = { FlashWithFaults F };

    ghost view = { λ f. record { inner = f.inner; fails = f.fails.items; calls = f.calls; reads = f.reads; faults = f.faults } };
}

impl<F: Flash + Drop> FaultFlash<F> {
    ghost use Rattle.std.specs.Prelude.{◌≡◌, is_err};
    ghost use Rattle.afl_sim.specs.Devices.{faults_counted, fails_now, number_of_call};

    /// A flash around `inner` that fails at the calls whose numbers stand in `fails`.
    pub fn new(inner: F, fails: ArrayVec<u64, 16>) -> FaultFlash<F>
        ensures inner { result.inner ≡ inner }
        ensures fails { result.fails ≡ fails.items }
        ensures calls { result.calls ≡ 0 }
        ensures reads { result.reads ≡ 0 }
        ensures faults { result.faults ≡ 0 }
    {
        FaultFlash {
            inner,
            fails,
            calls: 0,
            reads: 0,
            faults: 0,
        }
    }

    /// The flash inside.
    pub fn into_inner(self) -> F
        ensures { result ≡ self.inner }
    {
        let FaultFlash {
            inner,
            fails: _,
            calls: _,
            reads: _,
            faults: _,
        } = self;
        inner
    }

    // Counts the call to come, and answers `Failed` where it is one of those that fail.
    fn count_call(&mut self) -> Result<(), Failed>
        ensures fails { is_err result ≡ fails_now self.old.fails self.old.calls }
        ensures counts { self.new ≡ record self.old {
          calls = number_of_call self.old.calls;
          faults = faults_counted (is_err result) self.old.faults;
        } }
    {
        self.calls = self.calls.saturating_add(1);
        if self.fails.as_slice().contains(&self.calls) {
            self.faults = self.faults.saturating_add(1);
            return Err(Failed);
        }
        Ok(())
    }
}

impl<F: Flash + Drop> Flash for FaultFlash<F> {
    ghost use Rattle.std.specs.Prelude.{◌≡◌, ◌≢◌, ℕ, ◌+◌, ◌*◌, ◌-◌, ◌≤◌, length, slice_range, IsTrue, OnOk, OnErr};
    ghost use Rattle.afl_base.specs.Causes.{CountsOne};
    ghost use Rattle.afl_base.specs.Cuts.{IsCutErase, IsCutProgram};
    ghost use Rattle.afl_base.specs.Image.{or_at, zeros_at, page_bytes, sector_bytes};
    ghost use Rattle.afl_sim.specs.Devices.{all_faults, FailsOnDemand};
    ghost use Rattle.afl_base.specs.Keeping.{OnlyReads, Programs};

    ghost tells = { F.tells };

    ghost cuts = { F.cuts };

    ghost image = { λ f. F.image f.inner };

    ghost faults = { λ f. all_faults F.faults f };

    ghost reads = { λ f. f.reads };

    ghost lent = { λ f. F.lent f.inner };

    fn sectors(&self) -> u16 {
        self.inner.sectors()
    }

    fn read(&mut self, page: PageId, at: u16, into: &mut [u8]) -> Result<(), Failed>
        requires page { 256 * page.0 + 256 ≤ length (F.image self.old.inner) }
        requires range { at + length into.old ≤ 256 }
        ensures bytes { IsTrue F.tells → OnOk result (into.new
            ≡ slice_range (F.image self.old.inner) (256 * page.0 + at) (256 * page.0 + at + length into.old)) }
        ensures counted { CountsOne self.old.reads self.new.reads }
        ensures reads { self.new.reads ≤ self.old.reads + 1 }
        ensures faultless { OnOk result (all_faults F.faults self.new ≡ all_faults F.faults self.old) }
        ensures frame { let flash = ⟦<Self as Flash>⟧ in
            OnlyReads flash.image flash.lent flash.reads flash.faults self.old self.new result }
        ensures demand { FailsOnDemand F.faults self.old self.new result }
    {
        self.reads = self.reads.saturating_add(1);
        self.count_call()?;
        self.inner.read(page, at, into)?;
        Ok(())
    }

    #[tactic(auto, using(crate::proofs::Cuts::cut_before_program))]
    fn program(&mut self, page: PageId, at: u16, bytes: &[u8]) -> Result<(), Failed>
        requires page { 256 * page.0 + 256 ≤ length (F.image self.old.inner) }
        requires range { at + length bytes.now ≤ 256 }
        ensures programmed { IsTrue F.tells → OnOk result
            (F.image self.new.inner ≡ or_at (F.image self.old.inner) (256 * page.0 + at) bytes.now) }
        ensures page { IsTrue F.tells → OnOk result
            (page_bytes (F.image self.new.inner) page.0 ≡ or_at (page_bytes (F.image self.old.inner) page.0) at bytes.now) }
        ensures other_pages { IsTrue F.tells → (p : ℕ) → p ≢ page.0
            → page_bytes (F.image self.new.inner) p ≡ page_bytes (F.image self.old.inner) p }
        ensures cut { IsTrue F.tells → IsTrue F.cuts → OnErr result
            (IsCutProgram (F.image self.old.inner) (F.image self.new.inner) (256 * page.0 + at) bytes.now) }
        ensures faultless { OnOk result (all_faults F.faults self.new ≡ all_faults F.faults self.old) }
        ensures frame { let flash = ⟦<Self as Flash>⟧ in
            Programs flash.image flash.lent flash.reads flash.faults self.old self.new result }
        ensures demand { FailsOnDemand F.faults self.old self.new result }
    {
        self.count_call()?;
        self.inner.program(page, at, bytes)?;
        Ok(())
    }

    #[tactic(auto, using(crate::proofs::Cuts::cut_before_erase))]
    fn erase(&mut self, sector: SectorId) -> Result<(), Failed>
        requires sector { 4096 * sector.0 + 4096 ≤ length (F.image self.old.inner) }
        ensures erased { IsTrue F.tells → OnOk result
            (F.image self.new.inner ≡ zeros_at (F.image self.old.inner) (4096 * sector.0) 4096) }
        ensures other_sectors { IsTrue F.tells → (s : ℕ) → s ≢ sector.0
            → sector_bytes (F.image self.new.inner) s ≡ sector_bytes (F.image self.old.inner) s }
        ensures cut { IsTrue F.tells → IsTrue F.cuts → OnErr result
            (IsCutErase (F.image self.old.inner) (F.image self.new.inner) sector.0) }
        ensures faultless { OnOk result (all_faults F.faults self.new ≡ all_faults F.faults self.old) }
        ensures frame { let flash = ⟦<Self as Flash>⟧ in
            Programs flash.image flash.lent flash.reads flash.faults self.old self.new result }
        ensures demand { FailsOnDemand F.faults self.old self.new result }
    {
        self.count_call()?;
        self.inner.erase(sector)?;
        Ok(())
    }
}

impl<F: Backing + Drop> Backing for FaultFlash<F> {
    ghost use Rattle.std.specs.Prelude.{◌≡◌, ◌≢◌, ℕ, ◌+◌, ◌*◌, ◌≤◌, length, IsTrue, OnOk, OnErr};
    ghost use Rattle.afl_base.specs.Causes.{CountsOne};
    ghost use Rattle.afl_base.specs.Cuts.{IsCutProgram};
    ghost use Rattle.afl_base.specs.Image.{or_at, page_bytes, sector_bytes};
    ghost use Rattle.afl_sim.specs.Caches.{Covers};
    ghost use Rattle.afl_sim.specs.Devices.{all_faults, FailsOnDemand};
    ghost use Rattle.afl_base.specs.Keeping.{OnlyReads, Programs};

    fn read_sector(&mut self, sector: SectorId, into: &mut [u8]) -> Result<(), Failed>
        requires sector { 4096 * sector.0 + 4096 ≤ length (F.image self.old.inner) }
        requires whole { length into.old ≡ 4096 }
        ensures bytes { IsTrue F.tells → OnOk result
            (into.new ≡ sector_bytes (F.image self.old.inner) sector.0) }
        ensures counted { CountsOne self.old.reads self.new.reads }
        ensures faultless { OnOk result (all_faults F.faults self.new ≡ all_faults F.faults self.old) }
        ensures frame { let flash = ⟦<Self as Flash>⟧ in
            OnlyReads flash.image flash.lent flash.reads flash.faults self.old self.new result }
        ensures demand { FailsOnDemand F.faults self.old self.new result }
    {
        self.reads = self.reads.saturating_add(1);
        self.count_call()?;
        self.inner.read_sector(sector, into)?;
        Ok(())
    }

    #[tactic(auto, using(crate::proofs::Cuts::cut_before_program))]
    fn overwrite(&mut self, page: PageId, at: u16, bytes: &[u8]) -> Result<(), Failed>
        requires page { 256 * page.0 + 256 ≤ length (F.image self.old.inner) }
        requires range { at + length bytes.now ≤ 256 }
        requires covers { IsTrue F.tells → Covers (F.image self.old.inner) (256 * page.0 + at) bytes.now }
        ensures programmed { IsTrue F.tells → OnOk result
            (F.image self.new.inner ≡ or_at (F.image self.old.inner) (256 * page.0 + at) bytes.now) }
        ensures other_pages { IsTrue F.tells → (p : ℕ) → p ≢ page.0
            → page_bytes (F.image self.new.inner) p ≡ page_bytes (F.image self.old.inner) p }
        ensures cut { IsTrue F.tells → IsTrue F.cuts → OnErr result
            (IsCutProgram (F.image self.old.inner) (F.image self.new.inner) (256 * page.0 + at) bytes.now) }
        ensures faultless { OnOk result (all_faults F.faults self.new ≡ all_faults F.faults self.old) }
        ensures frame { let flash = ⟦<Self as Flash>⟧ in
            Programs flash.image flash.lent flash.reads flash.faults self.old self.new result }
        ensures demand { FailsOnDemand F.faults self.old self.new result }
    {
        self.count_call()?;
        self.inner.overwrite(page, at, bytes)?;
        Ok(())
    }
}
