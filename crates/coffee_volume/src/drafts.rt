ghost use Rattle.std.specs.Prelude.{◌≡◌, ◌≢◌, ◌-◌, ◌≤◌, ℕ, Some, None, get_or, IsTrue, OnErr, OnOk};
ghost use Rattle.afl_base.specs.CutFiles.{CutKeepsOrLeaves};
ghost use Rattle.afl_base.specs.Files.{Commits};
ghost use Rattle.afl_base.specs.Keeping.{Changes};
ghost use Rattle.afl_base.specs.Places.{AreTaken};
ghost use Rattle.coffee_layout.specs.FileBytes.{file_byte};
ghost use Rattle.coffee_volume.specs.Taking.{TakesNone};
ghost use Rattle.coffee_volume.specs.Volumes.{WhereTold, entry_name};

use crate::entry::Entry;
use crate::volume::Volume;
use afl_base::{Failed, FileId, Files, Flash};
use coffee_layout::FileAt;
use coffee_merge::{commit_extent, replace_file};

impl<F: Flash> Volume<F> {
    // Makes the draft the file of a place that holds one of its name.
    pub(crate) fn replace_by(&mut self, id: FileId, draft: FileAt) -> Result<(), Failed>
        requires begun { self.old.draft ≡ Some draft }
        requires named { entry_name self.old.table id ≡ Some draft.name }
        requires last { IsTrue (⟦<Self as Files>⟧.state self.old).tells → 1 ≤ draft.size
            → file_byte (⟦<Self as Files>⟧.state self.old).store draft.page.0 None (draft.size - 1) ≢ 0 }
        ensures committed { OnOk result (
            Commits (⟦<Self as Files>⟧.state self.old) (⟦<Self as Files>⟧.state self.new) id) }
        ensures taken { OnOk result (WhereTold ⟦<Self as Files>⟧.state self.old self.new TakesNone) }
        ensures cut { let files = ⟦<Self as Files>⟧ in let old = files.state self.old in
            CutKeepsOrLeaves files.cuts files.mends files.state self.old self.new (OnErr result)
            (λ after. (id : ℕ) × Commits old after id) }
        ensures frame { let files = ⟦<Self as Files>⟧ in
            Changes files.state files.lent files.reads files.faults self.old self.new result }
    {
        let old = self.entry(id).at;
        let failed = self.failed;
        self.failed = true;
        self.window.clear();
        replace_file(&mut self.flash, draft.page, &old)?;
        self.table[id.number() as usize] = Some(Entry {
            at: draft,
            records: 0,
            room: 0,
        });
        self.draft = None;
        self.failed = failed;
        Ok(())
    }

    // Makes the draft the file of a free place.
    pub(crate) fn add(&mut self, id: FileId, draft: FileAt) -> Result<(), Failed>
        requires begun { self.old.draft ≡ Some draft }
        requires free { get_or self.old.table id None ≡ None }
        requires lowest { AreTaken self.old.table id }
        requires unnamed { (k : ℕ) → entry_name self.old.table k ≢ Some draft.name }
        requires last { IsTrue (⟦<Self as Files>⟧.state self.old).tells → 1 ≤ draft.size
            → file_byte (⟦<Self as Files>⟧.state self.old).store draft.page.0 None (draft.size - 1) ≢ 0 }
        ensures committed { OnOk result (
            Commits (⟦<Self as Files>⟧.state self.old) (⟦<Self as Files>⟧.state self.new) id) }
        ensures taken { OnOk result (WhereTold ⟦<Self as Files>⟧.state self.old self.new TakesNone) }
        ensures cut { let files = ⟦<Self as Files>⟧ in let old = files.state self.old in
            CutKeepsOrLeaves files.cuts files.mends files.state self.old self.new (OnErr result)
            (λ after. (id : ℕ) × Commits old after id) }
        ensures frame { let files = ⟦<Self as Files>⟧ in
            Changes files.state files.lent files.reads files.faults self.old self.new result }
    {
        let failed = self.failed;
        self.failed = true;
        self.window.clear();
        commit_extent(&mut self.flash, draft.page)?;
        self.table[id.number() as usize] = Some(Entry {
            at: draft,
            records: 0,
            room: 0,
        });
        self.draft = None;
        self.failed = failed;
        Ok(())
    }
}
