ghost use Rattle.std.specs.Prelude.{◌≡◌, ◌+◌, ◌*◌, ◌/◌, ◌<◌, ◌≤◌, ℕ, false, max, Some, length, slice_range, IsTrue, OnOk};
ghost use Rattle.afl_base.specs.Files.{IsLive, IsNamed, IsUnnamed, bytes_at, file_at, size_at, used};
ghost use Rattle.afl_base.specs.Fit.{fit};
ghost use Rattle.afl_base.specs.Keeping.{OnlyReads};
ghost use Rattle.afl_base.specs.Regions.{regions};
ghost use Rattle.coffee_layout.specs.Units.{pages_of};
ghost use Rattle.coffee_layout.specs.declared.file.FileAt.{FileAt};
ghost use Rattle.coffee_merge.specs.Holding.{HoldsTable, IsStored};
ghost use Rattle.coffee_volume.specs.Volumes.{AreRegular, IsEntry, IsPending, IsRegular, file_seen, files_seen, places, roomless};
ghost use Rattle.coffee_volume.specs.Windows.{ShowsFile};

use crate::entry::{Entry, EntryTable};
use crate::window::Window;
use afl_base::{Failed, FileId, Files, Flash, Kind};
use coffee_layout::FileAt;

/// The files of a flash. It keeps 32 entries, one for each file, the part of a page that was read last,
/// and no heap.
///
/// Where the flash tells its image, the files are those that the image stands for, until a call
/// answers `Failed`. Afterwards nothing is known of them, and each call still is safe and returns.
#[derive(Drop)]
pub struct Volume<F: Flash> {
    pub(crate) flash: F,
    pub(crate) table: EntryTable,
    pub(crate) draft: Option<FileAt>,
    pub(crate) failed: bool,
    pub(crate) window: Window,

    ghost count: { length table ≡ 32 },
    ghost big: { length (F.image flash) ≤ 16773120 },
    ghost whole: { length (F.image flash) ≡ 4096 * (length (F.image flash) / 4096) },
    ghost regular: { AreRegular (pages_of (F.image flash)) table },
    ghost pending: { (d : FileAt) → draft ≡ Some d → IsPending (pages_of (F.image flash)) d },
    ghost space: { (d : FileAt) → draft ≡ Some d → IsUnnamed (files_seen false (F.image flash) table) d.name
        → used (files_seen false (F.image flash) table) < 32 },
    ghost told: { IsTrue F.tells → failed ≡ false → HoldsTable (F.image flash) (places table) draft },
    ghost shown: { IsTrue F.tells → ShowsFile (F.image flash) table window },
}

impl<F: Flash> Volume<F> {
    /// The file under a live id.
    pub(crate) fn entry(&self, id: FileId) -> Entry
        requires { IsLive (⟦<Self as Files>⟧.state self.now).files id }
        ensures entry { IsEntry self.now.table id result }
        ensures regular { IsRegular (pages_of (F.image self.now.flash)) result }
        ensures stored { IsTrue (⟦<Self as Files>⟧.state self.now).tells
            → IsStored (F.image self.now.flash) result.at }
        ensures file { file_at (⟦<Self as Files>⟧.state self.now).files id
            ≡ file_seen (⟦<Self as Files>⟧.state self.now).tells (F.image self.now.flash) result }
        ensures size { size_at (⟦<Self as Files>⟧.state self.now).files id ≡ result.at.size }
        ensures only { (k : ℕ) → IsNamed (⟦<Self as Files>⟧.state self.now).files k result.at.name → k ≡ id }
    {
        match self.table[id.number() as usize] {
            Some(entry) => entry,
            None => unreachable!(),
        }
    }

    /// Reads as `read` does, also what the window does not hold.
    // Not inlined, so that a read of what it holds saves no registers for this one.
    #[inline(never)]
    pub(crate) fn read_flash(&mut self, id: FileId, at: u32, into: &mut [u8]) -> Result<(), Failed>
        requires live { IsLive (⟦<Self as Files>⟧.state self.old).files id }
        requires range { at + length into.old ≤ size_at (⟦<Self as Files>⟧.state self.old).files id }
        ensures bytes { let files = (⟦<Self as Files>⟧.state self.old).files in
            IsTrue (⟦<Self as Files>⟧.state self.old).tells
            → OnOk result (into.new ≡ slice_range (bytes_at files id) at (at + length into.old)) }
        ensures reads { ⟦<Self as Files>⟧.reads self.new
            ≤ ⟦<Self as Files>⟧.reads self.old + 3 * regions at (length into.old) }
        ensures frame { let files = ⟦<Self as Files>⟧ in
            OnlyReads files.state files.lent files.reads files.faults self.old self.new result }
    {
        let file = self.entry(id).at;
        self.window.read(&mut self.flash, id, &file, at, into)?;
        Ok(())
    }

    /// What the files ask for is little: a growing one asks for at most twice the pages that its size needs,
    /// while at most 4,096 bytes more are prepared for, and one of 6 pages for at most 16.
    pub fn asks_for_little(&self)
        ensures growing { (id overwrites bytes need : ℕ) → IsLive (⟦<Self as Files>⟧.state self.now).files id
            → (file_at (⟦<Self as Files>⟧.state self.now).files id).kind ≡ Kind.Doubling
            → bytes ≤ 4096 → size_at (⟦<Self as Files>⟧.state self.now).files id ≤ 4194304
            → ⟦<Self as Files>⟧.asks self.now id overwrites bytes need
            → need ≤ max 16 (2 * fit (size_at (⟦<Self as Files>⟧.state self.now).files id)) }
        ensures fixed { (id overwrites bytes need : ℕ) → IsLive (⟦<Self as Files>⟧.state self.now).files id
            → (file_at (⟦<Self as Files>⟧.state self.now).files id).kind ≡ Kind.Fixed 6
            → ⟦<Self as Files>⟧.asks self.now id overwrites bytes need → need ≤ 16 }
    {}
}

/// The entry of a file without room.
pub(crate) fn entry_of(at: FileAt) -> Entry
    ensures { result ≡ roomless at }
{
    Entry {
        at,
        records: 0,
        room: 0,
    }
}
