use crate::failed::Failed;
use crate::ids::FileId;
use crate::kind::{FileError, Kind};
use crate::name::Name;

/// At most 32 named files with a flat list of bytes each, and at most one draft.
///
/// A file has a room: how many of its regions of 128 bytes may be overwritten, and how many bytes may
/// be appended. `prepare` makes room, and is the only call on a file that can answer `Space`. A new
/// file has none. No call may make a file's last byte zero.
///
/// An object may tell the bytes of its files, as memory does, or not. What is said of bytes holds
/// where they are told; names, kinds, sizes and rooms are always known. `read` leaves all as it was,
/// on `Failed` too. Another call that answers `Failed` leaves nothing known but the counts, the length
/// of the storage, and what that borrows. Where its failures are cuts, the storage then
/// mends to the files as they were before the call, or to what the call might have made of them.
pub trait Files {
    ghost use Rattle.std.specs.Prelude.{◌≡◌, ◌≢◌, ℕ, ◌+◌, ◌*◌, ◌-◌, ◌<◌, ◌≤◌, Bool, List, None, length, replicate, slice_index, slice_range, IsTrue, IsSome, IfSome, IfNone, IfOk, OnErr, OnOk};
    ghost use Rattle.afl_base.specs.Asked.{AreFewFor};
    ghost use Rattle.afl_base.specs.CutFiles.{AppendsFront, CutKeeps, CutKeepsOrLeaves, CutLeaves, OverwritesFront};
    ghost use Rattle.afl_base.specs.FileErrors.{OnSpace, UnlessFailed, WhereFailed};
    ghost use Rattle.afl_base.specs.Files.{State, Table, AreDistinct, Appends, Commits, Creates, Drafts, IsKind, IsLive, IsNamed, IsUnnamed, Keeps, KeepsBytes, Overwrites, Removes, WritesDraft, bytes_at, draft_in, file_at, first_pages, is_live, size_at, used};
    ghost use Rattle.afl_base.specs.Fit.{fit};
    ghost use Rattle.afl_base.specs.Keeping.{Changes, ChangesOrLacks, OnlyReads};
    ghost use Rattle.afl_base.specs.Regions.{regions};
    ghost use Rattle.afl_base.specs.Sparing.{SparesPages, StandsStill, WantsNothing};

    // All files, the draft, whether bytes are told, and the bytes of the storage.
    ghost state: { Self → State };
    // How many calls failed, up to the last number of a u64.
    ghost faults: { Self → ℕ };
    // How much was read of what lies below.
    ghost reads: { Self → ℕ };
    // What it borrows, it holds on to.
    ghost lent: { Self → List ℕ };
    // There is no room for an extent of this many pages.
    ghost lacks: { Self → ℕ → Type 0 };
    // `prepare` of this file for this many overwrites and bytes needs an extent of this many pages.
    ghost asks: { Self → ℕ → ℕ → ℕ → ℕ → Type 0 };
    // Whether a page of the storage is free.
    ghost is_free: { List ℕ → ℕ → Bool };
    // Whether its failures are cuts: a call that failed did a front part of its writes.
    ghost cuts: { Bool };
    // Bytes that all is kept in mend to these files, whatever their ids and rooms.
    ghost mends: { List ℕ → Table → Type 0 };

    // Between calls they mend to the files that there are, also while a draft is begun.
    ghost mended: { (files : Self) → IsTrue cuts → IsTrue (state files).tells
        → mends (state files).store (state files).files };
    // What is asked for while no draft is begun is seen in the state, where bytes are told.
    ghost asks_seen: { (old new : Self) → state new ≡ state old → IsTrue (state old).tells
        → (state old).draft ≡ None → (id overwrites bytes need : ℕ)
        → asks new id overwrites bytes need → asks old id overwrites bytes need };

    /// Whether the place holds a file. There are 32 places, and no two files have one name.
    fn live(&self, id: FileId) -> bool
        ensures live { result ≡ is_live (state self.now).files id }
        ensures places { length (state self.now).files ≡ 32 }
        ensures distinct { AreDistinct (state self.now).files };

    /// The file of this name, `None` exactly where there is none. No two files have one name.
    fn find(&self, name: Name) -> Option<FileId>
        ensures found { IfSome result (λ id. IsNamed (state self.now).files id name) }
        ensures only { IfSome result (λ id. (k : ℕ) → IsNamed (state self.now).files k name → k ≡ id) }
        ensures none { IfNone result (IsUnnamed (state self.now).files name) };

    /// The file's name, which no other file has.
    fn name(&self, id: FileId) -> Name
        requires { IsLive (state self.now).files id }
        ensures name { result ≡ (file_at (state self.now).files id).name }
        ensures only { (k : ℕ) → IsNamed (state self.now).files k result → k ≡ id };

    fn kind(&self, id: FileId) -> Kind
        requires { IsLive (state self.now).files id }
        ensures { result ≡ (file_at (state self.now).files id).kind };

    /// The number of bytes of the file.
    fn size(&self, id: FileId) -> u32
        requires { IsLive (state self.now).files id }
        ensures { result ≡ size_at (state self.now).files id };

    /// Fills `into` with the bytes of the file from byte `at` on. The count of reads rises by at most
    /// 3 for each region of 128 bytes that is touched.
    fn read(&mut self, id: FileId, at: u32, into: &mut [u8]) -> Result<(), Failed>
        requires live { IsLive (state self.old).files id }
        requires range { at + length into.old ≤ size_at (state self.old).files id }
        ensures bytes { IsTrue (state self.old).tells → OnOk result
            (into.new ≡ slice_range (bytes_at (state self.old).files id) at (at + length into.old)) }
        ensures reads { reads self.new ≤ reads self.old + 3 * regions at (length into.old) }
        ensures frame { OnlyReads state lent reads faults self.old self.new result };

    /// Adds an empty file, in the lowest free place. `Space` has `need` 16 for a doubling file, and its
    /// number of pages for a fixed one.
    fn create(&mut self, name: Name, kind: Kind) -> Result<FileId, FileError>
        requires unnamed { IsUnnamed (state self.old).files name }
        requires place { used (state self.old).files < 32 }
        requires kind { IsKind kind }
        requires idle { (state self.old).draft ≡ None }
        ensures created { IfOk result (λ id. Creates (state self.old) (state self.new) id name kind) }
        ensures need { OnSpace result (λ need. need ≡ first_pages kind) }
        ensures kept { OnSpace result (λ _. Keeps (state self.old) (state self.new)) }
        ensures cut { CutKeepsOrLeaves cuts mends state self.old self.new (WhereFailed result)
            (λ after. (id : ℕ) × Creates (state self.old) after id name kind) }
        ensures frame { ChangesOrLacks state lent reads faults lacks self.old self.new result };

    /// Takes the file away. All others stay, and no page that was free is taken.
    fn remove(&mut self, id: FileId) -> Result<(), Failed>
        requires live { IsLive (state self.old).files id }
        requires idle { (state self.old).draft ≡ None }
        ensures removed { OnOk result (Removes (state self.old) (state self.new) id) }
        ensures spares { SparesPages is_free state self.old self.new result }
        ensures cut { CutKeepsOrLeaves cuts mends state self.old self.new (OnErr result)
            (λ after. Removes (state self.old) after id) }
        ensures frame { Changes state lent reads faults self.old self.new result };

    /// Makes room in the file for at most 29 overwrites of one region each and for `bytes` more bytes,
    /// at most 4,096, with which it has at most 4,194,304 and, of kind `Fixed(n)`, at most
    /// `256 * n - 32`. `Space` names the pages that are asked for and lacking: for a doubling file at
    /// most twice those that its bytes need, and for a fixed one at most 16. Where no extent is asked
    /// for when the call is made it never comes, and the storage stays. The file's bytes never
    /// change.
    fn prepare(&mut self, id: FileId, overwrites: u16, bytes: u32) -> Result<(), FileError>
        requires live { IsLive (state self.old).files id }
        requires idle { (state self.old).draft ≡ None }
        requires overwrites { overwrites ≤ 29 }
        requires bytes { bytes ≤ 4096 }
        requires most { size_at (state self.old).files id + bytes ≤ 4194304 }
        requires fixed { (n : ℕ) → (file_at (state self.old).files id).kind ≡ Kind.Fixed n
            → size_at (state self.old).files id + bytes + 32 ≤ 256 * n }
        ensures contents { UnlessFailed result (KeepsBytes (state self.old) (state self.new) id) }
        ensures records { OnOk result (overwrites ≤ (file_at (state self.new).files id).records) }
        ensures room { OnOk result (bytes ≤ (file_at (state self.new).files id).room) }
        ensures few { OnSpace result (AreFewFor (file_at (state self.old).files id)) }
        ensures asked { OnSpace result (λ need. asks self.new id overwrites bytes need) }
        ensures unasked { WantsNothing (asks self.old id overwrites bytes) → OnSpace result (λ need. ⊥) }
        ensures still { WantsNothing (asks self.old id overwrites bytes)
            → OnOk result (StandsStill state asks self.old self.new) }
        ensures cut { CutKeeps cuts mends state self.old self.new (WhereFailed result) }
        ensures frame { ChangesOrLacks state lent reads faults lacks self.old self.new result };

    /// Puts `bytes` in the place of those from byte `at` on. It takes one record of the room for each
    /// region that is touched. The file's last byte may not become zero. No page that was free is taken.
    fn overwrite(&mut self, id: FileId, at: u32, bytes: &[u8]) -> Result<(), Failed>
        requires live { IsLive (state self.old).files id }
        requires some { 1 ≤ length bytes.now }
        requires range { at + length bytes.now ≤ size_at (state self.old).files id }
        requires records { regions at (length bytes.now) ≤ (file_at (state self.old).files id).records }
        requires last { at + length bytes.now ≡ size_at (state self.old).files id
            → slice_index bytes.now (length bytes.now - 1) ≢ 0 }
        ensures overwritten { OnOk result (Overwrites (state self.old) (state self.new) id at bytes.now) }
        ensures spares { SparesPages is_free state self.old self.new result }
        ensures records { OnOk result
            ((file_at (state self.new).files id).records + regions at (length bytes.now)
            ≡ (file_at (state self.old).files id).records) }
        ensures room { OnOk result
            ((file_at (state self.new).files id).room ≡ (file_at (state self.old).files id).room) }
        ensures cut { CutLeaves cuts mends state self.old self.new (OnErr result)
            (λ after. OverwritesFront (state self.old) after id at bytes.now) }
        ensures frame { Changes state lent reads faults self.old self.new result };

    /// Adds `bytes`, whose last is not zero, to the end of the file. All room for bytes is used up by
    /// this, and the records stay. No page that was free is taken.
    fn append(&mut self, id: FileId, bytes: &[u8]) -> Result<(), Failed>
        requires live { IsLive (state self.old).files id }
        requires some { 1 ≤ length bytes.now }
        requires room { length bytes.now ≤ (file_at (state self.old).files id).room }
        requires last { slice_index bytes.now (length bytes.now - 1) ≢ 0 }
        ensures appended { OnOk result (Appends (state self.old) (state self.new) id bytes.now) }
        ensures spares { SparesPages is_free state self.old self.new result }
        ensures records { OnOk result
            ((file_at (state self.new).files id).records ≡ (file_at (state self.old).files id).records) }
        ensures room { OnOk result ((file_at (state self.new).files id).room ≡ 0) }
        ensures cut { CutLeaves cuts mends state self.old self.new (OnErr result)
            (λ after. AppendsFront (state self.old) after id bytes.now) }
        ensures frame { Changes state lent reads faults self.old self.new result };

    /// Begins a draft of `size` zero bytes, at most 4,194,304, for a doubling file of this name, new or
    /// not. `Space` has `need` `fit(size)`.
    fn draft(&mut self, name: Name, size: u32) -> Result<(), FileError>
        requires idle { (state self.old).draft ≡ None }
        requires size { size ≤ 4194304 }
        requires kind { (k : ℕ) → IsNamed (state self.old).files k name
            → (file_at (state self.old).files k).kind ≡ Kind.Doubling }
        requires place { IsUnnamed (state self.old).files name → used (state self.old).files < 32 }
        ensures begun { OnOk result (Drafts (state self.old) (state self.new) name size (replicate size 0)) }
        ensures need { OnSpace result (λ need. need ≡ fit size) }
        ensures kept { OnSpace result (λ _. Keeps (state self.old) (state self.new)) }
        ensures cut { CutKeeps cuts mends state self.old self.new (WhereFailed result) }
        ensures frame { ChangesOrLacks state lent reads faults lacks self.old self.new result };

    /// Puts `bytes` into the draft from byte `at` on, where it has zeros.
    fn draft_write(&mut self, at: u32, bytes: &[u8]) -> Result<(), Failed>
        requires begun { IsSome (state self.old).draft }
        requires range { at + length bytes.now ≤ length (draft_in (state self.old)).bytes }
        requires zeros { IsTrue (state self.old).tells
            → slice_range (draft_in (state self.old)).bytes at (at + length bytes.now) ≡ replicate (length bytes.now) 0 }
        ensures written { OnOk result (WritesDraft (state self.old) (state self.new) at bytes.now) }
        ensures cut { CutKeeps cuts mends state self.old self.new (OnErr result) }
        ensures frame { Changes state lent reads faults self.old self.new result };

    /// Makes the draft, empty or with a last byte that is not zero, the file of its name. A file that
    /// had the name keeps its place in the table. All other files stay.
    fn draft_commit(&mut self) -> Result<FileId, Failed>
        requires begun { IsSome (state self.old).draft }
        requires last { IsTrue (state self.old).tells → 1 ≤ length (draft_in (state self.old)).bytes
            → slice_index (draft_in (state self.old)).bytes (length (draft_in (state self.old)).bytes - 1) ≢ 0 }
        ensures committed { IfOk result (λ id. Commits (state self.old) (state self.new) id) }
        ensures cut { CutKeepsOrLeaves cuts mends state self.old self.new (OnErr result)
            (λ after. (id : ℕ) × Commits (state self.old) after id) }
        ensures frame { Changes state lent reads faults self.old self.new result };
}
