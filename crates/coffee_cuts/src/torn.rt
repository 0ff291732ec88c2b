//! Laws: what a call that broke off leaves of an image that holds a table mends to the files of the table.

ghost use Rattle.std.specs.Prelude.{◌≡◌, ◌≢◌, ◌+◌, ◌-◌, ◌*◌, ◌≤◌, ◌<◌, ◌⊎◌, List, length, None, Option, Some, set, slice_index, slice_index_or, take, true, ℕ};
ghost use Rattle.coffee_layout.specs.Walks.{has_few};
ghost use Rattle.coffee_layout.specs.declared.file.FileAt.{FileAt};
ghost use Rattle.coffee_log.specs.FileCuts.{IsFileCut};
ghost use Rattle.coffee_merge.specs.CutMarks.{IsCutObsolete, IsCutReplace, IsOneOf, KeepsHead};
ghost use Rattle.coffee_merge.specs.Flags.{flagged};
ghost use Rattle.coffee_merge.specs.Holding.{Entries, IsIn, IsNewName};
ghost use Rattle.coffee_merge.specs.Takes.{KeepsPagesBut};
ghost use Rattle.coffee_merge.specs.Torn.{BreaksOff, TearsCollection, TearsHeader, TearsLogHeader, TearsNaming, TearsReplacing};
ghost use Rattle.coffee_cuts.specs.Mending.{EndsRight, IsTable, MendsToPut, MendsToTable, as_file};

/// An image that holds a table mends to its files, also where a draft stands.
pub fn held_images_mend()
    ensures whole { (whole : List ℕ) (table : Entries) → IsTable whole table None
        → MendsToTable whole whole table }
    ensures drafted { (whole : List ℕ) (table : Entries) (d : FileAt) → IsTable whole table (Some d)
        → MendsToTable whole whole table }
{}

/// And so does one whose draft was written to, whatever stands in the draft now.
pub fn written_drafts_mend()
    ensures mends { (whole new : List ℕ) (table : Entries) (d : FileAt) → IsTable whole table (Some d)
        → length new ≡ length whole → KeepsHead whole new d.page.0
        → KeepsPagesBut whole new d.page.0 d.pages None → MendsToTable new whole table }
{}

/// The header of an extent under construction, or that of a log, stands in part in the first of the pages
/// that were free.
pub fn torn_headers_mend()
    ensures extent { (whole new : List ℕ) (table : Entries) → IsTable whole table None
        → TearsHeader whole new → MendsToTable new whole table }
    ensures log { (whole new : List ℕ) (table : Entries) → IsTable whole table None
        → TearsLogHeader whole new table → MendsToTable new whole table }
{}

/// A file names its new log in part or not yet: it has the same bytes with the log and without it.
pub fn torn_namings_mend()
    ensures mends { (whole new : List ℕ) (table : Entries) → IsTable whole table None
        → TearsNaming whole new table → MendsToTable new whole table }
{}

/// A draft that is a copy of a file takes its place in part: the two are one to users.
pub fn torn_replacings_mend()
    ensures mends { (whole new : List ℕ) (table : Entries) (draft : Option FileAt) → IsTable whole table draft
        → TearsReplacing whole new table draft → MendsToTable new whole table }
{}

/// A draft that is being made a file, a new one or in place of one that there was: the files before or those
/// afterwards.
pub fn torn_commits_mend()
    ensures added { (whole new : List ℕ) (table : Entries) (d : FileAt) (i : ℕ) → IsTable whole table (Some d)
        → has_few d ≡ true → EndsRight whole d → i < length table → slice_index_or table i None ≡ None
        → IsNewName table d.name → IsOneOf new whole (flagged whole d.page.0 1)
        → MendsToTable new whole table ⊎ MendsToTable new whole (set table i (Some (as_file d))) }
    ensures replaced { (whole new : List ℕ) (table : Entries) (d e : FileAt) (i : ℕ)
        → IsTable whole table (Some d) → IsIn table i e → e.name ≡ d.name → has_few d ≡ true → EndsRight whole d
        → IsCutReplace whole new d.page.0 e.page.0 e.log
        → MendsToTable new whole table ⊎ MendsToTable new whole (set table i (Some (as_file d))) }
{}

/// A file that is being removed is there with its bytes or not at all.
pub fn torn_removals_mend()
    ensures mends { (whole new : List ℕ) (table : Entries) (e : FileAt) (i : ℕ) → IsTable whole table None
        → IsIn table i e → IsCutObsolete whole new e.page.0 e.log
        → MendsToTable new whole table ⊎ MendsToTable new whole (set table i None) }
{}

/// An overwrite or an append that broke off has put a front part of its bytes into the file. A record that was
/// being written may be torn: then the image is sound but for that.
pub fn torn_contents_mend()
    ensures overwritten { (whole new : List ℕ) (table : Entries) (draft : Option FileAt) (i : ℕ) (e : FileAt)
        (at : ℕ) (bytes : List ℕ) → IsTable whole table draft → IsIn table i e → length new ≡ length whole → at + length bytes ≤ e.size
        → (at + length bytes ≡ e.size → slice_index bytes (length bytes - 1) ≢ 0)
        → (cut : IsFileCut whole new e.page.0 e.pages e.log e.size at bytes)
        → MendsToPut whole new table i e at (take cut.done bytes) }
    ensures appended { (whole new : List ℕ) (table : Entries) (draft : Option FileAt) (i : ℕ) (e : FileAt)
        (bytes : List ℕ) → IsTable whole table draft → IsIn table i e → length new ≡ length whole
        → e.size + length bytes + 32 ≤ 256 * e.pages
        → (cut : IsFileCut whole new e.page.0 e.pages e.log e.size e.size bytes)
        → MendsToPut whole new table i e e.size (take cut.done bytes) }
{}

/// A collection that broke off leaves the files, also where it did so in the middle of an erase.
pub fn torn_collections_mend()
    ensures mends { (whole new : List ℕ) (table : Entries) → IsTable whole table None
        → length new ≡ length whole → TearsCollection whole new → MendsToTable new whole table }
{}

/// What a call that broke off leaves mends to the files of the table, as they were before the call.
pub fn broken_off_files_mend()
    ensures mends { (old new : List ℕ) (table : Entries) → IsTable old table None → length new ≡ length old
        → BreaksOff old new table → MendsToTable new old table }
{}
