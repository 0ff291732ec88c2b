ghost use Rattle.std.specs.Prelude.{◌≡◌, ℕ, ◌+◌, ◌*◌, ◌≤◌, true, IsSome, Some, None};
ghost use Rattle.afl_base.specs.Files.{first_pages};
ghost use Rattle.coffee_layout.specs.declared.file.FileAt.{FileAt};

use crate::entry::Entry;
use crate::volume::Volume;
use afl_base::{Failed, FileError, FileId, Files, Flash, Kind, Name, find_in, fit, free_in};
use coffee_layout::FileAt;
use coffee_log::{append_file, overwrite_file};
use coffee_merge::{begin_extent, commit_extent, retire_file, write_extent};

impl<F: Flash> Files for Volume<F> {
    ghost use Rattle.std.specs.Prelude.{◌≡◌, ◌≢◌, ℕ, ◌+◌, ◌-◌, ◌*◌, ◌<◌, ◌≤◌, ◌&&◌, not, None, length, replicate, slice_index, slice_range, IfOk, IsSome, IsTrue, OnErr, OnOk};
    ghost use Rattle.afl_base.specs.Asked.{AreFewFor};
    ghost use Rattle.afl_base.specs.CutFiles.{AppendsFront, CutKeeps, CutKeepsOrLeaves, CutLeaves, OverwritesFront};
    ghost use Rattle.afl_base.specs.FileErrors.{OnSpace, UnlessFailed, WhereFailed};
    ghost use Rattle.afl_base.specs.Files.{Appends, Commits, Creates, Drafts, IsKind, IsLive, IsNamed, IsUnnamed, Keeps, KeepsBytes, Overwrites, Removes, WritesDraft, draft_in, file_at, first_pages, size_at, used};
    ghost use Rattle.afl_base.specs.Fit.{fit};
    ghost use Rattle.afl_base.specs.Keeping.{Changes, ChangesOrLacks};
    ghost use Rattle.afl_base.specs.Regions.{regions};
    ghost use Rattle.afl_base.specs.Sparing.{SparesPages, WantsNothing};
    ghost use Rattle.coffee_merge.specs.Holding.{is_free_at};
    ghost use Rattle.coffee_volume.specs.Choices.{AsksNothing, ProvidesPages};
    ghost use Rattle.coffee_volume.specs.Cuts.{MendsToFiles};
    ghost use Rattle.coffee_volume.specs.KeptTables.{kept_mend, seen_asks};
    ghost use Rattle.coffee_volume.specs.Lowest.{Looks, PlacesDraft, PlacesFile};
    ghost use Rattle.coffee_volume.specs.Taking.{KeepsUnits, TakesForDraft, TakesForFile, TakesNone};
    ghost use Rattle.coffee_volume.specs.Volumes.{Asks, Lacks, WhereTold, state_seen};

    ghost state = { λ v. state_seen (F.tells && not v.failed) (F.image v.flash) v.table v.draft };

    ghost faults = { λ v. F.faults v.flash };

    ghost reads = { λ v. F.reads v.flash };

    ghost lent = { λ v. F.lent v.flash };

    ghost lacks = { λ v n. Lacks (F.tells && not v.failed) (F.image v.flash) n };

    ghost asks = { λ v id w b n. Asks v.table id w b n };

    ghost is_free = { is_free_at };

    ghost cuts = { F.cuts };

    ghost mends = { λ store files. MendsToFiles store files };

    ghost mended = { λ v cuts tells. kept_mend F.tells v.failed (F.image v.flash) v.table v.draft
        v.count v.big v.whole v.regular v.told tells };

    ghost asks_seen = { λ old new same tells idle. seen_asks F.tells old.failed new.failed (F.image old.flash)
        (F.image new.flash) old.table new.table old.draft new.draft old.told new.told same tells idle };

    fn live(&self, id: FileId) -> bool {
        self.table[id.number() as usize].is_some()
    }

    fn find(&self, name: Name) -> Option<FileId> {
        find_in(&self.table, &name)
    }

    fn name(&self, id: FileId) -> Name {
        self.entry(id).at.name
    }

    fn kind(&self, id: FileId) -> Kind {
        self.entry(id).at.kind
    }

    fn size(&self, id: FileId) -> u32 {
        self.entry(id).at.size
    }

    fn read(&mut self, id: FileId, at: u32, into: &mut [u8]) -> Result<(), Failed> {
        if self.window.gives(id, at, into) {
            return Ok(());
        }
        self.read_flash(id, at, into)
    }

    /// Of the pages that were free, only those of the new file are taken.
    fn create(&mut self, name: Name, kind: Kind) -> Result<FileId, FileError>
        requires unnamed { IsUnnamed (⟦<Self as Files>⟧.state self.old).files name }
        requires place { used (⟦<Self as Files>⟧.state self.old).files < 32 }
        requires kind { IsKind kind }
        requires idle { (⟦<Self as Files>⟧.state self.old).draft ≡ None }
        ensures created { IfOk result (λ id.
            Creates (⟦<Self as Files>⟧.state self.old) (⟦<Self as Files>⟧.state self.new) id name kind) }
        ensures taken { IfOk result (λ _. WhereTold ⟦<Self as Files>⟧.state self.old self.new
            (TakesForFile name)) }
        ensures lowest { IfOk result (λ _. WhereTold ⟦<Self as Files>⟧.state self.old self.new
            (PlacesFile name (first_pages kind))) }
        ensures untaken { OnSpace result (λ _. WhereTold ⟦<Self as Files>⟧.state self.old self.new TakesNone) }
        ensures looked { OnSpace result (λ need. WhereTold ⟦<Self as Files>⟧.state self.old self.new
            (Looks need)) }
        ensures need { OnSpace result (λ need. need ≡ first_pages kind) }
        ensures kept { OnSpace result (λ _.
            Keeps (⟦<Self as Files>⟧.state self.old) (⟦<Self as Files>⟧.state self.new)) }
        ensures cut { let files = ⟦<Self as Files>⟧ in let old = files.state self.old in
            CutKeepsOrLeaves files.cuts files.mends files.state self.old self.new (WhereFailed result)
            (λ after. (id : ℕ) × Creates old after id name kind) }
        ensures frame { let files = ⟦<Self as Files>⟧ in
            ChangesOrLacks files.state files.lent files.reads files.faults files.lacks self.old self.new result }
    {
        let id = free_in(&self.table);
        let pages = first_pages(kind);
        let failed = self.failed;
        self.failed = true;
        self.window.clear();
        match begin_extent(&mut self.flash, &name, kind, pages) {
            Ok(page) => {
                commit_extent(&mut self.flash, page)?;
                self.table[id.number() as usize] = Some(Entry {
                    at: FileAt {
                        name,
                        kind,
                        page,
                        pages,
                        size: 0,
                        log: None,
                        used: 0,
                    },
                    records: 0,
                    room: 0,
                });
                self.failed = failed;
                Ok(id)
            }
            Err(FileError::Space { need }) => {
                self.failed = failed;
                Err(FileError::Space { need })
            }
            Err(FileError::Failed) => Err(FileError::Failed),
        }
    }

    /// No page that was free is taken.
    fn remove(&mut self, id: FileId) -> Result<(), Failed>
        requires live { IsLive (⟦<Self as Files>⟧.state self.old).files id }
        requires idle { (⟦<Self as Files>⟧.state self.old).draft ≡ None }
        ensures removed { OnOk result (
            Removes (⟦<Self as Files>⟧.state self.old) (⟦<Self as Files>⟧.state self.new) id) }
        ensures spares { let files = ⟦<Self as Files>⟧ in SparesPages is_free_at files.state self.old self.new result }
        ensures cut { let files = ⟦<Self as Files>⟧ in let old = files.state self.old in
            CutKeepsOrLeaves files.cuts files.mends files.state self.old self.new (OnErr result)
            (λ after. Removes old after id) }
        ensures frame { let files = ⟦<Self as Files>⟧ in
            Changes files.state files.lent files.reads files.faults self.old self.new result }
    {
        let file = self.entry(id).at;
        let failed = self.failed;
        self.failed = true;
        self.window.clear();
        retire_file(&mut self.flash, &file)?;
        self.table[id.number() as usize] = None;
        self.failed = failed;
        Ok(())
    }

    /// Of the pages that were free, only those of the file and of its log are taken. The image stays
    /// where no extent is asked for.
    fn prepare(&mut self, id: FileId, overwrites: u16, bytes: u32) -> Result<(), FileError>
        requires live { IsLive (⟦<Self as Files>⟧.state self.old).files id }
        requires idle { (⟦<Self as Files>⟧.state self.old).draft ≡ None }
        requires overwrites { overwrites ≤ 29 }
        requires bytes { bytes ≤ 4096 }
        requires most { size_at (⟦<Self as Files>⟧.state self.old).files id + bytes ≤ 4194304 }
        requires fixed { (n : ℕ)
            → (file_at (⟦<Self as Files>⟧.state self.old).files id).kind ≡ Kind.Fixed n
            → size_at (⟦<Self as Files>⟧.state self.old).files id + bytes + 32 ≤ 256 * n }
        ensures contents { UnlessFailed result (
            KeepsBytes (⟦<Self as Files>⟧.state self.old) (⟦<Self as Files>⟧.state self.new) id) }
        ensures records { OnOk result
            (overwrites ≤ (file_at (⟦<Self as Files>⟧.state self.new).files id).records) }
        ensures room { OnOk result (bytes ≤ (file_at (⟦<Self as Files>⟧.state self.new).files id).room) }
        ensures pages { let files = ⟦<Self as Files>⟧ in let file = file_at (files.state self.old).files id in
            ProvidesPages files.state file.name overwrites bytes self.old self.new result }
        ensures unasked { let files = ⟦<Self as Files>⟧ in
            WantsNothing (files.asks self.old id overwrites bytes)
            → AsksNothing files.state files.asks self.old self.new result }
        ensures few { OnSpace result (AreFewFor (file_at (⟦<Self as Files>⟧.state self.old).files id)) }
        ensures asked { OnSpace result (λ need. ⟦<Self as Files>⟧.asks self.new id overwrites bytes need) }
        ensures cut { let files = ⟦<Self as Files>⟧ in
            CutKeeps files.cuts files.mends files.state self.old self.new (WhereFailed result) }
        ensures frame { let files = ⟦<Self as Files>⟧ in
            ChangesOrLacks files.state files.lent files.reads files.faults files.lacks self.old self.new result }
    {
        self.reshape(id, overwrites, bytes)?;
        self.provide_log(id, overwrites, bytes)?;
        self.grant(id, overwrites, bytes);
        Ok(())
    }

    /// All units of the image stay, and so does each free page.
    fn overwrite(&mut self, id: FileId, at: u32, bytes: &[u8]) -> Result<(), Failed>
        requires live { IsLive (⟦<Self as Files>⟧.state self.old).files id }
        requires some { 1 ≤ length bytes.now }
        requires range { at + length bytes.now ≤ size_at (⟦<Self as Files>⟧.state self.old).files id }
        requires records { regions at (length bytes.now)
            ≤ (file_at (⟦<Self as Files>⟧.state self.old).files id).records }
        requires last { at + length bytes.now ≡ size_at (⟦<Self as Files>⟧.state self.old).files id
            → slice_index bytes.now (length bytes.now - 1) ≢ 0 }
        ensures overwritten { OnOk result (
            Overwrites (⟦<Self as Files>⟧.state self.old) (⟦<Self as Files>⟧.state self.new) id at bytes.now) }
        ensures records { OnOk result ((file_at (⟦<Self as Files>⟧.state self.new).files id).records
            + regions at (length bytes.now) ≡ (file_at (⟦<Self as Files>⟧.state self.old).files id).records) }
        ensures room { OnOk result ((file_at (⟦<Self as Files>⟧.state self.new).files id).room
            ≡ (file_at (⟦<Self as Files>⟧.state self.old).files id).room) }
        ensures units { OnOk result (WhereTold ⟦<Self as Files>⟧.state self.old self.new KeepsUnits) }
        ensures spares { let files = ⟦<Self as Files>⟧ in SparesPages is_free_at files.state self.old self.new result }
        ensures cut { let files = ⟦<Self as Files>⟧ in let old = files.state self.old in
            CutLeaves files.cuts files.mends files.state self.old self.new (OnErr result)
            (λ after. OverwritesFront old after id at bytes.now) }
        ensures frame { let files = ⟦<Self as Files>⟧ in
            Changes files.state files.lent files.reads files.faults self.old self.new result }
    {
        let entry = self.entry(id);
        let file = entry.at;
        let log = match file.log {
            Some(log) => log,
            None => unreachable!(),
        };
        let failed = self.failed;
        self.failed = true;
        self.window.clear();
        let used = overwrite_file(&mut self.flash, &file, log, at, bytes)?;
        let taken = u16::from(used - file.used);
        self.table[id.number() as usize] = Some(Entry {
            at: FileAt { used, ..file },
            records: entry.records - taken,
            room: entry.room,
        });
        self.failed = failed;
        Ok(())
    }

    /// All units of the image stay, and so does each free page.
    fn append(&mut self, id: FileId, bytes: &[u8]) -> Result<(), Failed>
        requires live { IsLive (⟦<Self as Files>⟧.state self.old).files id }
        requires some { 1 ≤ length bytes.now }
        requires room { length bytes.now ≤ (file_at (⟦<Self as Files>⟧.state self.old).files id).room }
        requires last { slice_index bytes.now (length bytes.now - 1) ≢ 0 }
        ensures appended { OnOk result (
            Appends (⟦<Self as Files>⟧.state self.old) (⟦<Self as Files>⟧.state self.new) id bytes.now) }
        ensures records { OnOk result ((file_at (⟦<Self as Files>⟧.state self.new).files id).records
            ≡ (file_at (⟦<Self as Files>⟧.state self.old).files id).records) }
        ensures room { OnOk result ((file_at (⟦<Self as Files>⟧.state self.new).files id).room ≡ 0) }
        ensures units { OnOk result (WhereTold ⟦<Self as Files>⟧.state self.old self.new KeepsUnits) }
        ensures spares { let files = ⟦<Self as Files>⟧ in SparesPages is_free_at files.state self.old self.new result }
        ensures cut { let files = ⟦<Self as Files>⟧ in let old = files.state self.old in
            CutLeaves files.cuts files.mends files.state self.old self.new (OnErr result)
            (λ after. AppendsFront old after id bytes.now) }
        ensures frame { let files = ⟦<Self as Files>⟧ in
            Changes files.state files.lent files.reads files.faults self.old self.new result }
    {
        let entry = self.entry(id);
        let file = entry.at;
        let failed = self.failed;
        self.failed = true;
        self.window.clear();
        let used = append_file(&mut self.flash, &file, bytes)?;
        let size = file.size + bytes.len() as u32;
        self.table[id.number() as usize] = Some(Entry {
            at: FileAt { size, used, ..file },
            records: entry.records,
            room: 0,
        });
        self.failed = failed;
        Ok(())
    }

    /// Of the pages that were free, only those of the draft are taken.
    fn draft(&mut self, name: Name, size: u32) -> Result<(), FileError>
        requires idle { (⟦<Self as Files>⟧.state self.old).draft ≡ None }
        requires size { size ≤ 4194304 }
        requires kind { (k : ℕ) → IsNamed (⟦<Self as Files>⟧.state self.old).files k name
            → (file_at (⟦<Self as Files>⟧.state self.old).files k).kind ≡ Kind.Doubling }
        requires place { IsUnnamed (⟦<Self as Files>⟧.state self.old).files name
            → used (⟦<Self as Files>⟧.state self.old).files < 32 }
        ensures begun { OnOk result (
            Drafts (⟦<Self as Files>⟧.state self.old) (⟦<Self as Files>⟧.state self.new) name size (replicate size 0)) }
        ensures taken { OnOk result (WhereTold ⟦<Self as Files>⟧.state self.old self.new (TakesForDraft name)) }
        ensures lowest { OnOk result (WhereTold ⟦<Self as Files>⟧.state self.old self.new
            (PlacesDraft name (fit size))) }
        ensures untaken { OnSpace result (λ _. WhereTold ⟦<Self as Files>⟧.state self.old self.new TakesNone) }
        ensures looked { OnSpace result (λ need. WhereTold ⟦<Self as Files>⟧.state self.old self.new
            (Looks need)) }
        ensures need { OnSpace result (λ need. need ≡ fit size) }
        ensures kept { OnSpace result (λ _.
            Keeps (⟦<Self as Files>⟧.state self.old) (⟦<Self as Files>⟧.state self.new)) }
        ensures cut { let files = ⟦<Self as Files>⟧ in
            CutKeeps files.cuts files.mends files.state self.old self.new (WhereFailed result) }
        ensures frame { let files = ⟦<Self as Files>⟧ in
            ChangesOrLacks files.state files.lent files.reads files.faults files.lacks self.old self.new result }
    {
        let pages = fit(size);
        let failed = self.failed;
        self.failed = true;
        self.window.clear();
        match begin_extent(&mut self.flash, &name, Kind::Doubling, pages) {
            Ok(page) => {
                self.draft = Some(FileAt {
                    name,
                    kind: Kind::Doubling,
                    page,
                    pages,
                    size,
                    log: None,
                    used: 0,
                });
                self.failed = failed;
                Ok(())
            }
            Err(FileError::Space { need }) => {
                self.failed = failed;
                Err(FileError::Space { need })
            }
            Err(FileError::Failed) => Err(FileError::Failed),
        }
    }

    /// No page that was free is taken.
    fn draft_write(&mut self, at: u32, bytes: &[u8]) -> Result<(), Failed>
        requires begun { IsSome (⟦<Self as Files>⟧.state self.old).draft }
        requires range { at + length bytes.now ≤ length (draft_in (⟦<Self as Files>⟧.state self.old)).bytes }
        requires zeros { IsTrue (⟦<Self as Files>⟧.state self.old).tells
            → slice_range (draft_in (⟦<Self as Files>⟧.state self.old)).bytes at (at + length bytes.now)
            ≡ replicate (length bytes.now) 0 }
        ensures written { OnOk result (
            WritesDraft (⟦<Self as Files>⟧.state self.old) (⟦<Self as Files>⟧.state self.new) at bytes.now) }
        ensures taken { OnOk result (WhereTold ⟦<Self as Files>⟧.state self.old self.new TakesNone) }
        ensures cut { let files = ⟦<Self as Files>⟧ in
            CutKeeps files.cuts files.mends files.state self.old self.new (OnErr result) }
        ensures frame { let files = ⟦<Self as Files>⟧ in
            Changes files.state files.lent files.reads files.faults self.old self.new result }
    {
        let draft = drafted(&self.draft);
        let failed = self.failed;
        self.failed = true;
        self.window.clear();
        write_extent(&mut self.flash, draft.page, draft.pages, at, bytes)?;
        self.failed = failed;
        Ok(())
    }

    /// No page that was free is taken.
    fn draft_commit(&mut self) -> Result<FileId, Failed>
        requires begun { IsSome (⟦<Self as Files>⟧.state self.old).draft }
        requires last { IsTrue (⟦<Self as Files>⟧.state self.old).tells
            → 1 ≤ length (draft_in (⟦<Self as Files>⟧.state self.old)).bytes
            → slice_index (draft_in (⟦<Self as Files>⟧.state self.old)).bytes
            (length (draft_in (⟦<Self as Files>⟧.state self.old)).bytes - 1) ≢ 0 }
        ensures committed { IfOk result (λ id.
            Commits (⟦<Self as Files>⟧.state self.old) (⟦<Self as Files>⟧.state self.new) id) }
        ensures taken { OnOk result (WhereTold ⟦<Self as Files>⟧.state self.old self.new TakesNone) }
        ensures cut { let files = ⟦<Self as Files>⟧ in let old = files.state self.old in
            CutKeepsOrLeaves files.cuts files.mends files.state self.old self.new (OnErr result)
            (λ after. (id : ℕ) × Commits old after id) }
        ensures frame { let files = ⟦<Self as Files>⟧ in
            Changes files.state files.lent files.reads files.faults self.old self.new result }
    {
        let draft = drafted(&self.draft);
        match find_in(&self.table, &draft.name) {
            Some(id) => {
                self.replace_by(id, draft)?;
                Ok(id)
            }
            None => {
                let id = free_in(&self.table);
                self.add(id, draft)?;
                Ok(id)
            }
        }
    }
}

// The pages of a new file.
fn first_pages(kind: Kind) -> u16
    ensures { result ≡ first_pages kind }
{
    match kind {
        Kind::Doubling => 16,
        Kind::Fixed(n) => n,
    }
}

// The draft that is begun.
fn drafted(draft: &Option<FileAt>) -> FileAt
    requires { IsSome draft.now }
    ensures { draft.now ≡ Some result }
{
    match draft {
        Some(draft) => *draft,
        None => unreachable!(),
    }
}
