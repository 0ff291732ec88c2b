ghost use Rattle.std.specs.Prelude.{◌≡◌, ℕ, ◌+◌, ◌*◌, ◌≤◌, None, Some, OnOk};
ghost use Rattle.afl_base.specs.Asked.{AreFewFor};
ghost use Rattle.afl_base.specs.CutFiles.{CutKeeps};
ghost use Rattle.afl_base.specs.FileErrors.{OnSpace, UnlessFailed, WhereFailed};
ghost use Rattle.afl_base.specs.Files.{IsLive, KeepsBytes, file_at, size_at};
ghost use Rattle.afl_base.specs.Fit.{fit};
ghost use Rattle.afl_base.specs.Keeping.{ChangesOrLacks};
ghost use Rattle.coffee_volume.specs.Choices.{ChoosesPages, StepsNowhere};
ghost use Rattle.coffee_volume.specs.Lowest.{log_for};
ghost use Rattle.coffee_volume.specs.Rooms.{pages_asked};
ghost use Rattle.coffee_volume.specs.Steps.{IsAfter, MayTake, need_of, step_for};
ghost use Rattle.coffee_volume.specs.Taking.{LiesIn};
ghost use Rattle.coffee_volume.specs.Volumes.{AtEntry, FromTo, places};

use crate::entry::Entry;
use crate::step::{Step, lacks_log, step_for, take_step};
use crate::volume::Volume;
use afl_base::{FileError, FileId, Files, Flash, Kind};

impl<F: Flash> Volume<F> {
    // The first two steps of `prepare`: where the bytes do not fit, the file is grown, and else, where its
    // log has too few free records, merged.
    pub(crate) fn reshape(
        &mut self,
        id: FileId,
        overwrites: u16,
        bytes: u32,
    ) -> Result<(), FileError>
        requires live { IsLive (⟦<Self as Files>⟧.state self.old).files id }
        requires idle { self.old.draft ≡ None }
        requires overwrites { overwrites ≤ 29 }
        requires bytes { bytes ≤ 4096 }
        requires most { size_at (⟦<Self as Files>⟧.state self.old).files id + bytes ≤ 4194304 }
        requires fixed { (n : ℕ)
            → (file_at (⟦<Self as Files>⟧.state self.old).files id).kind ≡ Kind.Fixed n
            → size_at (⟦<Self as Files>⟧.state self.old).files id + bytes + 32 ≤ 256 * n }
        ensures contents { UnlessFailed result (
            KeepsBytes (⟦<Self as Files>⟧.state self.old) (⟦<Self as Files>⟧.state self.new) id) }
        ensures shaped { OnOk result (AtEntry self.new.table id (λ e. step_for e overwrites bytes ≡ None)) }
        ensures unasked { AtEntry self.old.table id (λ e. step_for e overwrites bytes ≡ None
            → StepsNowhere (F.image self.old.flash) (F.image self.new.flash) self.old.table self.new.table result) }
        ensures asked { OnSpace result (λ need. ⟦<Self as Files>⟧.asks self.new id overwrites bytes need) }
        ensures few { OnSpace result (AreFewFor (file_at (⟦<Self as Files>⟧.state self.old).files id)) }
        ensures chooses { ChoosesPages ⟦<Self as Files>⟧.state (λ e. step_for e overwrites bytes) id
            self.old.table self.new.table self.old self.new result }
        ensures cut { let files = ⟦<Self as Files>⟧ in
            CutKeeps files.cuts files.mends files.state self.old self.new (WhereFailed result) }
        ensures frame { let files = ⟦<Self as Files>⟧ in
            ChangesOrLacks files.state files.lent files.reads files.faults files.lacks self.old self.new result }
    {
        let at = self.entry(id).at;
        match step_for(&at, overwrites, bytes) {
            Some(step) => self.take(id, step),
            None => Ok(()),
        }
    }

    // The third step: a file that needs records and has no log gets one.
    pub(crate) fn provide_log(
        &mut self,
        id: FileId,
        overwrites: u16,
        bytes: u32,
    ) -> Result<(), FileError>
        requires live { IsLive (⟦<Self as Files>⟧.state self.old).files id }
        requires idle { self.old.draft ≡ None }
        requires overwrites { overwrites ≤ 29 }
        requires shaped { AtEntry self.old.table id (λ e. step_for e overwrites bytes ≡ None) }
        ensures contents { UnlessFailed result (
            KeepsBytes (⟦<Self as Files>⟧.state self.old) (⟦<Self as Files>⟧.state self.new) id) }
        ensures more { OnOk result (FromTo self.old.table self.new.table id
            (λ e d. (p : ℕ) → LiesIn e p → LiesIn d p)) }
        ensures kept { OnSpace result (λ _. self.new.table ≡ self.old.table) }
        ensures ready { OnOk result (AtEntry self.new.table id
            (λ e. pages_asked e overwrites bytes ≡ None)) }
        ensures unasked { AtEntry self.old.table id (λ e. pages_asked e overwrites bytes ≡ None
            → StepsNowhere (F.image self.old.flash) (F.image self.new.flash) self.old.table self.new.table result) }
        ensures asked { OnSpace result (λ need. ⟦<Self as Files>⟧.asks self.new id overwrites bytes need) }
        ensures need { OnSpace result (λ need. need ≡ 16) }
        ensures chooses { ChoosesPages ⟦<Self as Files>⟧.state (λ e. log_for e overwrites bytes) id
            self.old.table self.new.table self.old self.new result }
        ensures cut { let files = ⟦<Self as Files>⟧ in
            CutKeeps files.cuts files.mends files.state self.old self.new (WhereFailed result) }
        ensures frame { let files = ⟦<Self as Files>⟧ in
            ChangesOrLacks files.state files.lent files.reads files.faults files.lacks self.old self.new result }
    {
        let at = self.entry(id).at;
        if lacks_log(&at, overwrites, bytes) {
            return self.take(id, Step::Log);
        }
        Ok(())
    }

    // Takes a step with a file, which has no room then.
    fn take(&mut self, id: FileId, step: Step) -> Result<(), FileError>
        requires live { IsLive (⟦<Self as Files>⟧.state self.old).files id }
        requires idle { self.old.draft ≡ None }
        requires may { AtEntry self.old.table id (MayTake step) }
        ensures contents { UnlessFailed result (
            KeepsBytes (⟦<Self as Files>⟧.state self.old) (⟦<Self as Files>⟧.state self.new) id) }
        ensures after { OnOk result (FromTo self.old.table self.new.table id (IsAfter step)) }
        ensures kept { OnSpace result (λ _. self.new.table ≡ self.old.table) }
        ensures need { OnSpace result (λ need. AtEntry self.old.table id (λ e. need ≡ need_of step e)) }
        ensures chooses { ChoosesPages ⟦<Self as Files>⟧.state (λ _. Some step) id
            self.old.table self.new.table self.old self.new result }
        ensures cut { let files = ⟦<Self as Files>⟧ in
            CutKeeps files.cuts files.mends files.state self.old self.new (WhereFailed result) }
        ensures frame { let files = ⟦<Self as Files>⟧ in
            ChangesOrLacks files.state files.lent files.reads files.faults files.lacks self.old self.new result }
    {
        let at = self.entry(id).at;
        let failed = self.failed;
        self.failed = true;
        self.window.clear();
        match take_step(&mut self.flash, &at, step) {
            Ok(to) => {
                self.table[id.number() as usize] = Some(Entry {
                    at: to,
                    records: 0,
                    room: 0,
                });
                self.failed = failed;
                Ok(())
            }
            Err(FileError::Space { need }) => {
                self.failed = failed;
                Err(FileError::Space { need })
            }
            Err(FileError::Failed) => Err(FileError::Failed),
        }
    }

    // Grants what was prepared.
    pub(crate) fn grant(&mut self, id: FileId, records: u16, room: u32)
        requires live { IsLive (⟦<Self as Files>⟧.state self.old).files id }
        requires ready { AtEntry self.old.table id (λ e. pages_asked e records room ≡ None) }
        requires most { size_at (⟦<Self as Files>⟧.state self.old).files id + room ≤ 4194304 }
        ensures contents { let state = ⟦<Self as Files>⟧.state in
            KeepsBytes (state self.old) (state self.new) id }
        ensures records { (file_at (⟦<Self as Files>⟧.state self.new).files id).records ≡ records }
        ensures room { (file_at (⟦<Self as Files>⟧.state self.new).files id).room ≡ room }
        ensures places { places self.new.table ≡ places self.old.table }
        ensures flash { self.new.flash ≡ self.old.flash }
    {
        let entry = self.entry(id);
        self.window.clear();
        self.table[id.number() as usize] = Some(Entry {
            records,
            room,
            ..entry
        });
    }
}
