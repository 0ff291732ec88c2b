use afl_base::{Failed, Flash, PageId, SectorId};

/// A flash that is borrowed, for those that take one by value.
#[derive(Drop)]
pub struct Handed<'a, F: Flash> {
    pub flash: &'a mut F,
}

impl<F: Flash> Handed<'_, F> {
    ghost use Rattle.std.specs.Prelude.{◌≡◌, ◌*◌, ◌≤◌, length};

    fn count(&self) -> u16
        ensures least { 4 ≤ result }
        ensures most { result ≤ 4095 }
        ensures size { length (F.image self.now.flash.now) ≡ 4096 * result }
    {
        self.flash.sectors()
    }
}

impl<F: Flash> Flash for Handed<'_, F> {
    ghost use Rattle.std.specs.Prelude.{◌∷◌};

    ghost tells = { F.tells };

    ghost cuts = { F.cuts };

    ghost image = { λ h. F.image h.flash.now };

    ghost faults = { λ h. F.faults h.flash.now };

    ghost reads = { λ h. F.reads h.flash.now };

    ghost lent = { λ h. h.flash.ghost_name ∷ F.lent h.flash.now };

    fn sectors(&self) -> u16 {
        self.count()
    }

    fn read(&mut self, page: PageId, at: u16, into: &mut [u8]) -> Result<(), Failed> {
        self.flash.read(page, at, into)?;
        Ok(())
    }

    fn program(&mut self, page: PageId, at: u16, bytes: &[u8]) -> Result<(), Failed> {
        self.flash.program(page, at, bytes)?;
        Ok(())
    }

    fn erase(&mut self, sector: SectorId) -> Result<(), Failed> {
        self.flash.erase(sector)?;
        Ok(())
    }
}
