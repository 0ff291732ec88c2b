ghost use Rattle.std.specs.Prelude.{◌≡◌, ℕ, ◌+◌, ◌*◌, ◌≤◌, None, Some, length, IsTrue, IfOk, IfErr, OnOk, MatchOption, MatchResult};
ghost use Rattle.std.specs.List.{All};
ghost use Rattle.afl_base.specs.Causes.{Rose};
ghost use Rattle.afl_base.specs.Files.{AreDistinct, IsLive, file_at};
ghost use Rattle.coffee_layout.specs.Files.{FitsIn};
ghost use Rattle.coffee_layout.specs.Marks.{IsCramped};
ghost use Rattle.coffee_layout.specs.Rules.{broken_image};
ghost use Rattle.coffee_layout.specs.Tiling.{units_of};
ghost use Rattle.coffee_layout.specs.Units.{pages_of};
ghost use Rattle.coffee_merge.specs.Holding.{has_shape};
ghost use Rattle.coffee_volume.specs.Asking.{AsksOf};
ghost use Rattle.coffee_volume.specs.Mounting.{HasEach, HasMountCause, HasOnly, HaveNoRoom, IsImageTable, KeepFileRules, MayBeListed, OnBrokenImage, OnBadImage, OnFlashFault, WhereIdle, flash_of, mounted_state, mounted_table};
ghost use Rattle.coffee_volume.specs.Volumes.{AreRegular, places};

use crate::entry::EntryTable;
use crate::volume::{Volume, entry_of};
use crate::window::Window;
use afl_base::{Files, Flash, Kind, find_in};
use coffee_layout::{BadImage, FileAt, check, has_few_pages, is_doubling};

/// Why a flash could not be mounted. It is handed back.
pub enum MountError<F> {
    /// The image breaks a rule of 1 to 13: the first one, with its first place.
    Bad { bad: BadImage, flash: F },
    /// The flash failed, and its count of faults rose.
    Failed { flash: F },
}

/// The files that an image lists.
#[derive(Drop)]
pub struct Listed {
    pub(crate) table: EntryTable,
}

/// Why there are no files.
#[derive(Drop)]
pub enum Unlisted {
    /// The image breaks a rule of 1 to 13: the first one, with its first place.
    Bad(BadImage),
    /// The flash failed, and its count of faults rose.
    Failed,
}

/// Judges the image and lists its files, whose ids are given in page order from 0. At most 448 reads for each
/// page of the flash. Nothing is written, where it fails too.
pub fn list<F: Flash>(flash: &mut F) -> Result<Listed, Unlisted>
    ensures sound { IsTrue F.tells → OnOk result (broken_image (F.image flash.old) ≡ None) }
    ensures listed { IfOk result (λ l. IsImageTable F.tells (F.image flash.old) l.table) }
    ensures bad { IsTrue F.tells
        → IfErr result (λ e. OnBrokenImage e (λ bad. broken_image (F.image flash.old) ≡ Some bad)) }
    ensures same { F.image flash.new ≡ F.image flash.old }
    ensures lent { F.lent flash.new ≡ F.lent flash.old }
    ensures reads { F.reads flash.new ≤ F.reads flash.old + 448 * pages_of (F.image flash.old) }
    ensures reads_later { F.reads flash.old ≤ F.reads flash.new }
    ensures later { F.faults flash.old ≤ F.faults flash.new }
    ensures cause { IfErr result (λ e. OnFlashFault e (Rose (F.faults flash.old) (F.faults flash.new))) }
{
    flash.sectors();
    let mut listed = coffee_layout::Table::new();
    match check(flash, &mut listed) {
        Ok(Ok(())) => {}
        Ok(Err(bad)) => return Err(Unlisted::Bad(bad)),
        Err(_) => return Err(Unlisted::Failed),
    }
    match table_of(&listed) {
        Ok(table) => Ok(Listed { table }),
        Err(bad) => Err(Unlisted::Bad(bad)),
    }
}

impl<F: Flash> Volume<F> {
    /// Judges the image and lists its files, whose ids are given in page order from 0. At most 448
    /// reads for each page of the flash. Nothing is written, where it fails too.
    #[inline(never)]
    pub fn mount(mut flash: F) -> Result<Volume<F>, MountError<F>>
        ensures sound { IsTrue F.tells → OnOk result (broken_image (F.image flash) ≡ None) }
        ensures files { IsTrue F.tells → IfOk result (λ v.
            ⟦<Self as Files>⟧.state v ≡ mounted_state (F.image flash)) }
        ensures bad { IsTrue F.tells
            → IfErr result (λ error. OnBadImage error (λ bad. broken_image (F.image flash) ≡ Some bad)) }
        ensures tells { IfOk result (λ v. (⟦<Self as Files>⟧.state v).tells ≡ F.tells) }
        ensures idle { IfOk result (λ v. (⟦<Self as Files>⟧.state v).draft ≡ None) }
        ensures rooms { IfOk result (λ v. HaveNoRoom (⟦<Self as Files>⟧.state v).files) }
        ensures places { IfOk result (λ v. length (⟦<Self as Files>⟧.state v).files ≡ 32) }
        ensures distinct { IfOk result (λ v. AreDistinct (⟦<Self as Files>⟧.state v).files) }
        ensures same { MatchResult result
            (λ v. (⟦<Self as Files>⟧.state v).store ≡ F.image flash)
            (λ error. F.image (flash_of error) ≡ F.image flash) }
        ensures lent { MatchResult result
            (λ v. ⟦<Self as Files>⟧.lent v ≡ F.lent flash)
            (λ error. F.lent (flash_of error) ≡ F.lent flash) }
        ensures reads { MatchResult result
            (λ v. ⟦<Self as Files>⟧.reads v ≤ F.reads flash + 448 * pages_of (F.image flash))
            (λ error. F.reads (flash_of error) ≤ F.reads flash + 448 * pages_of (F.image flash)) }
        ensures reads_later { MatchResult result
            (λ v. F.reads flash ≤ ⟦<Self as Files>⟧.reads v)
            (λ error. F.reads flash ≤ F.reads (flash_of error)) }
        ensures cause { MatchResult result
            (λ v. F.faults flash ≤ ⟦<Self as Files>⟧.faults v)
            (λ error. HasMountCause (F.faults flash) (F.faults (flash_of error)) error) }
    {
        flash.sectors();
        let mut listed = coffee_layout::Table::new();
        match check(&mut flash, &mut listed) {
            Ok(Ok(())) => {}
            Ok(Err(bad)) => return Err(MountError::Bad { bad, flash }),
            Err(_) => return Err(MountError::Failed { flash }),
        }
        match table_of(&listed) {
            Ok(table) => Ok(Volume {
                flash,
                table,
                draft: None,
                failed: false,
                window: Window::new(),
            }),
            Err(bad) => Err(MountError::Bad { bad, flash }),
        }
    }

    /// The files of a flash that were listed.
    pub fn over(flash: F, listed: Listed) -> Volume<F>
        requires listed { IsImageTable F.tells (F.image flash) listed.table }
        ensures files { IsTrue F.tells → ⟦<Self as Files>⟧.state result ≡ mounted_state (F.image flash) }
        ensures tells { (⟦<Self as Files>⟧.state result).tells ≡ F.tells }
        ensures idle { (⟦<Self as Files>⟧.state result).draft ≡ None }
        ensures rooms { HaveNoRoom (⟦<Self as Files>⟧.state result).files }
        ensures places { length (⟦<Self as Files>⟧.state result).files ≡ 32 }
        ensures distinct { AreDistinct (⟦<Self as Files>⟧.state result).files }
        ensures same { (⟦<Self as Files>⟧.state result).store ≡ F.image flash }
        ensures lent { ⟦<Self as Files>⟧.lent result ≡ F.lent flash }
        ensures reads { ⟦<Self as Files>⟧.reads result ≡ F.reads flash }
        ensures faults { ⟦<Self as Files>⟧.faults result ≡ F.faults flash }
    {
        flash.sectors();
        let Listed { table } = listed;
        Volume {
            flash,
            table,
            draft: None,
            failed: false,
            window: Window::new(),
        }
    }

    /// What the flash holds at the end: where no draft is begun and no call failed, the image keeps its
    /// rules, and its files are those of the volume.
    pub fn ends(&self)
        ensures sound { WhereIdle (⟦<Self as Files>⟧.state self.now)
            (broken_image (⟦<Self as Files>⟧.state self.now).store ≡ None) }
        ensures each { WhereIdle (⟦<Self as Files>⟧.state self.now)
            (HasEach (⟦<Self as Files>⟧.state self.now) (⟦<Self as Files>⟧.state self.now).store) }
        ensures only { WhereIdle (⟦<Self as Files>⟧.state self.now)
            (HasOnly (⟦<Self as Files>⟧.state self.now) (⟦<Self as Files>⟧.state self.now).store) }
        ensures asked { let state = ⟦<Self as Files>⟧.state self.now in
            WhereIdle state ((id overwrites bytes need : ℕ) → IsLive state.files id
            → ⟦<Self as Files>⟧.asks self.now id overwrites bytes need
            → AsksOf state.store (file_at state.files id).name overwrites bytes need) }
        ensures cramped { IsTrue (⟦<Self as Files>⟧.state self.now).tells
            → (n : ℕ) → ⟦<Self as Files>⟧.lacks self.now n
            → IsCramped (units_of (⟦<Self as Files>⟧.state self.now).store) n }
        ensures size { (n : ℕ) × (length (⟦<Self as Files>⟧.state self.now).store ≡ 4096 * n) }
    {
        self.flash.sectors();
    }

    /// Hands the flash back. A draft that was not committed is lost. Where none is begun and no call
    /// failed, the image keeps its rules, and its files are those of the volume.
    pub fn unmount(self) -> F
        ensures image { F.image result ≡ (⟦<Self as Files>⟧.state self).store }
        ensures lent { F.lent result ≡ ⟦<Self as Files>⟧.lent self }
        ensures reads { F.reads result ≡ ⟦<Self as Files>⟧.reads self }
        ensures faults { F.faults result ≡ ⟦<Self as Files>⟧.faults self }
        ensures sound { WhereIdle (⟦<Self as Files>⟧.state self) (broken_image (F.image result) ≡ None) }
        ensures each { WhereIdle (⟦<Self as Files>⟧.state self)
            (HasEach (⟦<Self as Files>⟧.state self) (F.image result)) }
        ensures only { WhereIdle (⟦<Self as Files>⟧.state self)
            (HasOnly (⟦<Self as Files>⟧.state self) (F.image result)) }
        ensures asked { WhereIdle (⟦<Self as Files>⟧.state self) ((id overwrites bytes need : ℕ)
            → IsLive (⟦<Self as Files>⟧.state self).files id
            → ⟦<Self as Files>⟧.asks self id overwrites bytes need
            → AsksOf (F.image result) (file_at (⟦<Self as Files>⟧.state self).files id).name overwrites bytes need) }
        ensures cramped { IsTrue (⟦<Self as Files>⟧.state self).tells
            → (n : ℕ) → ⟦<Self as Files>⟧.lacks self n → IsCramped (units_of (F.image result)) n }
    {
        let Volume {
            flash,
            table: _,
            draft: _,
            failed: _,
            window: _,
        } = self;
        flash
    }
}

// The entries of the files that were listed. On a flash that answers otherwise at each read they may
// break a rule all the same: then the answer is that rule, with its place.
fn table_of(listed: &[FileAt]) -> Result<EntryTable, BadImage>
    requires most { length listed.now ≤ 32 }
    ensures table { IfOk result (λ table. table ≡ mounted_table listed.now) }
    ensures regular { IfOk result (λ table.
        (pages : ℕ) → All (FitsIn pages) listed.now → AreRegular pages table) }
    ensures broken { IfErr result (λ _. KeepFileRules (places (mounted_table listed.now)) → ⊥) }
{
    let mut table = [None; 32];
    for (i, at) in listed.iter().enumerate() {
        if let Some(rule) = broken_by(&table, at) {
            return Err(BadImage {
                rule,
                place: at.page.0,
            });
        }
        table[i] = Some(entry_of(*at));
    }
    Ok(table)
}

// The first of the rules 6, 7 and 13 that a further file breaks.
fn broken_by(table: &EntryTable, at: &FileAt) -> Option<u8>
    ensures { MatchOption result (MayBeListed table.now at.now) (λ _. MayBeListed table.now at.now → ⊥) }
{
    if find_in(table, &at.name).is_some() {
        return Some(6);
    }
    if !has_shape(at) {
        return Some(7);
    }
    if !has_few_pages(at) {
        return Some(13);
    }
    None
}

// Whether the pages of a file are those of its kind: 16 * 2^j, or 1 to 15.
fn has_shape(at: &FileAt) -> bool
    ensures { result ≡ has_shape at.now.kind at.now.pages }
{
    match at.kind {
        Kind::Doubling => is_doubling(at.pages),
        Kind::Fixed(n) => n == at.pages && 1 <= n && n <= 15,
    }
}
