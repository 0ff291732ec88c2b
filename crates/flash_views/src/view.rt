use crate::over::put_over;
use crate::overlay::Overlay;
use afl_base::{Failed, Flash, PAGE_SIZE, PageId, SectorId};
use std::marker::Model;

/// A flash that reads as the one inside would if the writes of an overlay had been done. It is never
/// written: a program or an erase fails and does nothing but to spoil a page, which can no longer be
/// read.
///
/// What it borrows is its overlay and the flash inside as it stands, byte for byte. So whoever gets a
/// view back from a call that keeps the image of its flash, and what that borrows, knows that no write
/// was refused, and has the flash as it was.
#[derive(Drop)]
pub struct View<F: Flash> {
    inner: F,
    overlay: Overlay,
    // The page at which a write was first refused.
    spoilt: Option<PageId>,
    refused: u64,
}

impl<F: Flash> Model for View<F> {
    ghost use Rattle.std.specs.Prelude.{length};
    ghost use Rattle.flash_views.specs.Views.{FlashInView, IsView};

    ghost Value = { FlashInView F };

    ghost view = { λ f. record { inner = f.inner; overlay = f.overlay; spoilt = f.spoilt; refused = f.refused } };

    ghost invariant = { λ f. IsView (length (F.image f.inner)) f.overlay f.spoilt f.refused };
}

impl<F: Flash> View<F> {
    ghost use Rattle.std.specs.Prelude.{◌≡◌, ℕ, ◌+◌, ◌*◌, ◌≤◌, List, ◌++◌, length, is_err, true, None, Some};
    ghost use Rattle.std.specs.Option.{option_or};
    ghost use Rattle.flash_views.specs.Views.{IsSameFlash, FitsImage, code, refusals_after, overlaid};
    ghost use Rattle.flash_views.specs.declared.overlay.Overlay.{Overlay as Laid};

    /// A view of `flash`, over which `overlay` is laid.
    pub fn new(flash: F, overlay: Overlay) -> View<F>
        requires inside { FitsImage (length (F.image flash)) overlay }
        ensures image { ⟦<Self as Flash>⟧.image result ≡ overlaid (F.image flash) overlay }
        ensures lent { ⟦<Self as Flash>⟧.lent result ≡ code overlay ++ (F.image flash ++ F.lent flash) }
        ensures reads { ⟦<Self as Flash>⟧.reads result ≡ F.reads flash }
        ensures faults { ⟦<Self as Flash>⟧.faults result ≡ F.faults flash }
    {
        View {
            inner: flash,
            overlay,
            spoilt: None,
            refused: 0,
        }
    }

    /// The flash inside. Where the view reads as a flash with an overlay, and borrows what a view of
    /// that does, it is as that flash, and each of its faults is one of the view.
    pub fn into_flash(self) -> F
        ensures reads { F.reads result ≡ ⟦<Self as Flash>⟧.reads self }
        ensures same { (flash : F) (overlay : Laid) → FitsImage (length (F.image flash)) overlay
            → ⟦<Self as Flash>⟧.image self ≡ overlaid (F.image flash) overlay
            → ⟦<Self as Flash>⟧.lent self ≡ code overlay ++ (F.image flash ++ F.lent flash)
            → IsSameFlash F.image F.lent flash result }
        ensures faults { (flash : F) (overlay : Laid) → FitsImage (length (F.image flash)) overlay
            → ⟦<Self as Flash>⟧.image self ≡ overlaid (F.image flash) overlay
            → ⟦<Self as Flash>⟧.lent self ≡ code overlay ++ (F.image flash ++ F.lent flash)
            → F.faults result ≡ ⟦<Self as Flash>⟧.faults self }
    {
        let View {
            inner,
            overlay: _,
            spoilt: _,
            refused: _,
        } = self;
        inner
    }

    // Fails, counts that, and spoils a page unless one is.
    fn refuse(&mut self, page: PageId) -> Result<(), Failed>
        requires page { 256 * page.0 + 256 ≤ length (F.image self.old.inner) }
        ensures fails { is_err result ≡ true }
        ensures counts { self.new
            ≡ record self.old { spoilt = option_or self.old.spoilt (Some page); refused = refusals_after self.old.refused } }
    {
        self.refused = self.refused.saturating_add(1);
        self.spoilt = self.spoilt.or(Some(page));
        Err(Failed)
    }
}

impl<F: Flash> Flash for View<F> {
    ghost use Rattle.std.specs.Prelude.{◌++◌, false};
    ghost use Rattle.flash_views.specs.Views.{faults_in_all, code, overlaid, spoilt};

    ghost tells = { F.tells };

    ghost cuts = { false };

    ghost image = { λ f. spoilt (overlaid (F.image f.inner) f.overlay) f.spoilt };

    ghost faults = { λ f. faults_in_all f.refused (F.faults f.inner) };

    ghost reads = { λ f. F.reads f.inner };

    ghost lent = { λ f. code f.overlay ++ (F.image f.inner ++ F.lent f.inner) };

    fn sectors(&self) -> u16 {
        self.inner.sectors()
    }

    fn read(&mut self, page: PageId, at: u16, into: &mut [u8]) -> Result<(), Failed> {
        self.inner.read(page, at, into)?;
        if self.spoilt.is_some() {
            self.refuse(page)?;
            return Ok(());
        }
        let place = PAGE_SIZE * page.0 as usize + at as usize;
        put_over(&self.overlay, place, into);
        Ok(())
    }

    fn program(&mut self, page: PageId, _at: u16, _bytes: &[u8]) -> Result<(), Failed> {
        self.inner.sectors();
        self.refuse(page)?;
        Ok(())
    }

    fn erase(&mut self, sector: SectorId) -> Result<(), Failed> {
        self.inner.sectors();
        self.refuse(PageId(16 * sector.0))?;
        Ok(())
    }
}
