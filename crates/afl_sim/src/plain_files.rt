ghost use Rattle.std.specs.Prelude.{◌≡◌, ◌<◌, ◌≤◌, ◌+◌, ◌*◌, IsSome, MatchBool, Some, length};
ghost use Rattle.afl_base.specs.Files.{IsUnnamed, used};
ghost use Rattle.afl_sim.specs.PlainFiles.{IsPlaceFor, plain_pages};

use crate::plain_file::PlainFile;
use afl_base::{
    Failed, FileError, FileId, Files, Kind, Name, Named, PAGE_SIZE, find_in, fit, free_in, regions,
};
use std::marker::Model;

/// At most 32 files of at most `CAP` bytes each, and a draft, in fixed arrays. It tells all bytes and
/// never fails.
///
/// A doubling file counts as `fit(size)` pages and a fixed one as its number of pages. An extent is
/// lacking where it has more bytes than `CAP`. Every room that is asked for is granted exactly.
#[derive(Drop)]
pub struct PlainFiles<const CAP: usize> {
    table: [Option<PlainFile<CAP>>; 32],
    draft: Option<PlainFile<CAP>>,
}

impl<const CAP: usize> Model for PlainFiles<CAP> {
    ghost use Rattle.afl_base.specs.Files.{State};
    ghost use Rattle.afl_sim.specs.PlainFiles.{ArePlain, plain_state};

    ghost Value = { State };

    ghost view = { λ f. plain_state f.table f.draft };

    ghost invariant = { λ f. ArePlain CAP f.table f.draft };
}

impl<const CAP: usize> PlainFiles<CAP> {
    ghost use Rattle.std.specs.Prelude.{◌≡◌, ◌≤◌, ℕ, None, Some, replicate};
    ghost use Rattle.afl_base.specs.Files.{IsLive, IsNamed, place};
    ghost use Rattle.afl_sim.specs.PlainFiles.{plain_state};

    /// No files.
    pub fn new() -> PlainFiles<CAP>
        requires least { 4064 ≤ CAP }
        requires most { CAP ≤ 16352 }
        ensures { result ≡ plain_state (replicate 32 None) None }
    {
        PlainFiles {
            table: [None; 32],
            draft: None,
        }
    }

    // The file under a live id.
    fn file(&self, id: FileId) -> PlainFile<CAP>
        requires { IsLive self.now.files id }
        ensures file { place self.now.files id ≡ Some result }
        ensures only { (k : ℕ) → IsNamed self.now.files k result.name → k ≡ id }
        ensures small { CAP ≤ 16352 }
    {
        match self.table[id.number() as usize] {
            Some(file) => file,
            None => unreachable!(),
        }
    }
}

// The draft that is begun.
fn drafted<const CAP: usize>(draft: &Option<PlainFile<CAP>>) -> PlainFile<CAP>
    requires { IsSome draft.now }
    ensures { draft.now ≡ Some result }
{
    match draft {
        Some(file) => *file,
        None => unreachable!(),
    }
}

// The place of the file of this name, else the lowest place that holds none.
fn place_for<const CAP: usize>(table: &[Option<PlainFile<CAP>>], name: &Name) -> FileId
    requires places { length table.now ≡ 32 }
    requires free { IsUnnamed table.now name.now → used table.now < 32 }
    ensures { IsPlaceFor table.now result name.now }
{
    if let Some(id) = find_in(table, name) {
        return id;
    }
    free_in(table)
}

// The pages that a file of this kind and size counts as.
fn pages(kind: Kind, size: u32) -> u16
    requires { size ≤ 8388576 }
    ensures { result ≡ plain_pages kind size }
{
    match kind {
        Kind::Doubling => fit(size),
        Kind::Fixed(n) => n,
    }
}

// Whether an extent of this many pages has more bytes than an array.
fn is_lacking(cap: usize, pages: u16) -> bool
    ensures { MatchBool result (cap + 32 < 256 * pages) (256 * pages ≤ cap + 32) }
{
    cap < (PAGE_SIZE * pages as usize).saturating_sub(32)
}

impl<const CAP: usize> Files for PlainFiles<CAP> {
    ghost use Rattle.std.specs.Prelude.{◌≡◌, ◌+◌, ◌*◌, ◌<◌, ◌≤◌, ℕ, ⊤, false, None, IsErrOf, IsTrue, OnOk, replicate, []};
    ghost use Rattle.std.proofs.Common.{subst};
    ghost use Rattle.afl_base.specs.Asked.{AreFewFor};
    ghost use Rattle.afl_base.specs.FileErrors.{OnSpace, UnlessFailed};
    ghost use Rattle.afl_base.specs.Files.{State, Drafts, IsLive, IsNamed, IsUnnamed, Keeps, KeepsBytes, file_at, size_at, used};
    ghost use Rattle.afl_base.specs.Fit.{fit};
    ghost use Rattle.afl_sim.specs.PlainFiles.{PlainLacks, asked_pages};
    ghost use Rattle.afl_base.specs.Keeping.{ChangesOrLacks};
    ghost use Rattle.afl_base.specs.Sparing.{StandsStill};

    ghost state = { λ f. f };

    ghost faults = { λ f. 0 };

    ghost reads = { λ f. 0 };

    ghost lent = { λ f. [] };

    ghost lacks = { λ f n. PlainLacks CAP n };

    ghost asks = { λ f id w b n. n ≡ asked_pages f.files id b };

    // It has no pages.
    ghost is_free = { λ store page. false };

    // It never fails, so nothing is ever to be mended.
    ghost cuts = { false };

    ghost mends = { λ store files. ⊤ };

    ghost mended = { λ f cuts tells. tt };

    ghost asks_seen = { λ old new same tells idle id w b n asked.
        subst (λ (f : State). n ≡ asked_pages f.files id b) same asked };

    fn live(&self, id: FileId) -> bool {
        self.table[id.number() as usize].is_some()
    }

    fn find(&self, name: Name) -> Option<FileId> {
        find_in(&self.table, &name)
    }

    fn name(&self, id: FileId) -> Name {
        self.file(id).name()
    }

    fn kind(&self, id: FileId) -> Kind {
        self.file(id).kind()
    }

    fn size(&self, id: FileId) -> u32 {
        self.file(id).size() as u32
    }

    fn read(&mut self, id: FileId, at: u32, into: &mut [u8]) -> Result<(), Failed> {
        self.file(id).read(at as usize, into);
        Ok(())
    }

    fn create(&mut self, name: Name, kind: Kind) -> Result<FileId, FileError> {
        let id = free_in(&self.table);
        self.table[id.number() as usize] = Some(PlainFile::new(name, kind, 0));
        Ok(id)
    }

    fn remove(&mut self, id: FileId) -> Result<(), Failed> {
        self.table[id.number() as usize] = None;
        Ok(())
    }

    /// `Space` comes exactly where an extent of this many pages as the file would count is lacking.
    fn prepare(&mut self, id: FileId, overwrites: u16, bytes: u32) -> Result<(), FileError>
        requires live { IsLive self.old.files id }
        requires idle { self.old.draft ≡ None }
        requires overwrites { overwrites ≤ 29 }
        requires bytes { bytes ≤ 4096 }
        requires most { size_at self.old.files id + bytes ≤ 4194304 }
        requires fixed { (n : ℕ) → (file_at self.old.files id).kind ≡ Kind.Fixed n
            → size_at self.old.files id + bytes + 32 ≤ 256 * n }
        ensures granted { OnOk result (256 * asked_pages self.old.files id bytes ≤ CAP + 32) }
        ensures contents { UnlessFailed result (KeepsBytes self.old self.new id) }
        ensures records { OnOk result (overwrites ≤ (file_at self.new.files id).records) }
        ensures room { OnOk result (bytes ≤ (file_at self.new.files id).room) }
        ensures granted_records { OnOk result ((file_at self.new.files id).records ≡ overwrites) }
        ensures granted_room { OnOk result ((file_at self.new.files id).room ≡ bytes) }
        ensures few { OnSpace result (AreFewFor (file_at self.old.files id)) }
        ensures asked { OnSpace result (λ need. need ≡ asked_pages self.new.files id bytes) }
        ensures unasked { ((n : ℕ) → n ≡ asked_pages self.old.files id bytes → ⊥)
            → OnSpace result (λ need. ⊥) }
        ensures still { let files = ⟦<Self as Files>⟧ in
            ((n : ℕ) → n ≡ asked_pages self.old.files id bytes → ⊥)
            → OnOk result (StandsStill files.state files.asks self.old self.new) }
        ensures kept { OnSpace result (λ need. self.new ≡ self.old) }
        ensures cut { let files = ⟦<Self as Files>⟧ in IsTrue files.cuts → IsTrue self.old.tells
            → IsErrOf result FileError.Failed → files.mends self.new.store self.old.files }
        ensures frame { let files = ⟦<Self as Files>⟧ in
            ChangesOrLacks files.state files.lent files.reads files.faults files.lacks self.old self.new result }
    {
        let mut file = self.file(id);
        let need = pages(file.kind(), file.size() as u32 + bytes);
        if is_lacking(CAP, need) {
            return Err(FileError::Space { need });
        }
        file.grant(overwrites, bytes as usize);
        self.table[id.number() as usize] = Some(file);
        Ok(())
    }

    fn overwrite(&mut self, id: FileId, at: u32, bytes: &[u8]) -> Result<(), Failed> {
        let mut file = self.file(id);
        file.overwrite(at as usize, bytes, regions(at, bytes.len()));
        self.table[id.number() as usize] = Some(file);
        Ok(())
    }

    fn append(&mut self, id: FileId, bytes: &[u8]) -> Result<(), Failed> {
        let mut file = self.file(id);
        file.append(bytes);
        self.table[id.number() as usize] = Some(file);
        Ok(())
    }

    /// `Space` comes exactly where an extent of `fit(size)` pages is lacking.
    fn draft(&mut self, name: Name, size: u32) -> Result<(), FileError>
        requires idle { self.old.draft ≡ None }
        requires size { size ≤ 4194304 }
        requires kind { (k : ℕ) → IsNamed self.old.files k name
            → (file_at self.old.files k).kind ≡ Kind.Doubling }
        requires place { IsUnnamed self.old.files name → used self.old.files < 32 }
        ensures granted { OnOk result (256 * fit size ≤ CAP + 32) }
        ensures begun { OnOk result (Drafts self.old self.new name size (replicate size 0)) }
        ensures need { OnSpace result (λ need. need ≡ fit size) }
        ensures kept { OnSpace result (λ _. Keeps self.old self.new) }
        ensures cut { let files = ⟦<Self as Files>⟧ in IsTrue files.cuts → IsTrue self.old.tells
            → IsErrOf result FileError.Failed → files.mends self.new.store self.old.files }
        ensures frame { let files = ⟦<Self as Files>⟧ in
            ChangesOrLacks files.state files.lent files.reads files.faults files.lacks self.old self.new result }
    {
        let need = fit(size);
        if is_lacking(CAP, need) {
            return Err(FileError::Space { need });
        }
        self.draft = Some(PlainFile::new(name, Kind::Doubling, size as usize));
        Ok(())
    }

    fn draft_write(&mut self, at: u32, bytes: &[u8]) -> Result<(), Failed> {
        let mut draft = drafted(&self.draft);
        draft.overwrite(at as usize, bytes, 0);
        self.draft = Some(draft);
        Ok(())
    }

    fn draft_commit(&mut self) -> Result<FileId, Failed> {
        let draft = drafted(&self.draft);
        let id = place_for(&self.table, &draft.name());
        self.table[id.number() as usize] = Some(draft);
        self.draft = None;
        Ok(id)
    }
}
