//! The rules 14 to 20 of an image, over any files.

#![tactic(auto)]

ghost use Rattle.std.specs.Prelude.{◌≡◌, ◌+◌, ◌*◌, ◌≤◌, None, IfErr, IfNone, IfOk, IsTrue, MatchOption, OnOk, map, replicate};
ghost use Rattle.afl_base.specs.Keeping.{OnlyReads};
ghost use Rattle.std.specs.List.{range_with_len};
ghost use Rattle.catalog.specs.Rules.{catalog_in, first_broken};
ghost use Rattle.db_model.specs.Cost.{sum};
ghost use Rattle.db_model.specs.RunCost.{slots_opened};
ghost use Rattle.session_model.specs.Running.{IsRunning};
ghost use Rattle.session_model.specs.View.{view};
ghost use Rattle.stored.specs.Base.{base_of};
ghost use Rattle.stored.specs.Sound.{BreaksFirst, IsSoundTable};
ghost use Rattle.session_start.specs.Found.{AreFilesFound, slots_held};
ghost use Rattle.session_start.specs.Judged.{BreaksHeld, IsReadyAll, KeepsListing};
ghost use Rattle.session_start.specs.Reads.{all_reads, all_slots};

use crate::holding::hold;
use crate::indexes::first_incomplete;
use crate::rows::first_without_rows;
use afl_base::{Failed, Files};
use catalog::{Catalog, load};
use index_set::HashTables;
use session_model::Held;

/// The first broken rule, 14 to 20, and its place: an id of a file, 0 for the catalog, a slot of a
/// relation or an index, or 8 more than the slot of an index whose tree is missing or too many.
#[derive(Clone, Copy, Debug, PartialEq, Eq)]
pub struct BrokenRule {
    pub rule: u8,
    pub place: u16,
}

/// Judges the files, and holds what is in them, with the hash tables filled. The files stay. Where a rule
/// is broken or a file failed nothing is said of `held`.
pub fn open_database<V: Files>(
    files: &mut V,
    tables: &mut HashTables,
    held: &mut Held,
) -> Result<Result<(), BrokenRule>, Failed>
    requires idle { (V.state files.old).draft ≡ None }
    ensures sound { IsTrue (V.state files.old).tells → IfOk result (λ r.
        OnOk r (IsSoundTable (V.state files.old).files)) }
    ensures base { let files_old = (V.state files.old).files in
        IsTrue (V.state files.old).tells → IfOk result (λ r. OnOk r
        (view files_old held.new (replicate 4 None) ≡ base_of files_old)) }
    ensures running { IfOk result (λ r. OnOk r
        (IsRunning (V.state files.old) tables.new held.new (replicate 4 None))) }
    ensures bad { IsTrue (V.state files.old).tells → IfOk result (λ r. IfErr r (λ broken.
        BreaksFirst (V.state files.old).files broken.rule broken.place)) }
    ensures reads { let base = base_of (V.state files.old).files in
        IsTrue (V.state files.old).tells → V.reads files.new ≤ V.reads files.old
        + 1024 + 16384 + 16 * sum (map (slots_opened base) (range_with_len 0 8)) }
    ensures frame { OnlyReads V.state V.lent V.reads V.faults files.old files.new result }
{
    match hold_catalog(files, held)? {
        Ok(()) => {}
        Err(broken) => return Ok(Err(broken)),
    }
    match first_broken_rule(files, tables, held)? {
        Some(broken) => Ok(Err(broken)),
        None => Ok(Ok(())),
    }
}

// Judges the catalog and the names and kinds of files by the rules 14 to 18, and holds what is in them.
// Not inlined, so that the catalog is not on the stack while rows and indexes are judged.
#[inline(never)]
fn hold_catalog<V: Files>(files: &mut V, held: &mut Held) -> Result<Result<(), BrokenRule>, Failed>
    ensures found { IfOk result (λ r. OnOk r (AreFilesFound (V.state files.old) held.new)) }
    ensures catalog { IsTrue (V.state files.old).tells → IfOk result
        (λ r. OnOk r (slots_held held.new ≡ catalog_in (V.state files.old).files)) }
    ensures sound { IsTrue (V.state files.old).tells → IfOk result
        (λ r. OnOk r (first_broken (V.state files.old).files ≡ None)) }
    ensures bad { IsTrue (V.state files.old).tells → IfOk result (λ r. IfErr r (λ broken.
        BreaksFirst (V.state files.old).files broken.rule broken.place)) }
    ensures reads { V.reads files.new ≤ V.reads files.old + 99 }
    ensures frame { OnlyReads V.state V.lent V.reads V.faults files.old files.new result }
{
    let mut catalog = Catalog::empty();
    match load(files, &mut catalog)? {
        Ok(()) => {}
        Err(bad) => return Ok(Err(BrokenRule {
            rule: bad.rule,
            place: bad.place,
        })),
    }
    hold(files, &catalog, held);
    Ok(Ok(()))
}

// The first broken rule of rows and indexes. The table of each index that has one is filled.
fn first_broken_rule<V: Files>(
    files: &mut V,
    tables: &mut HashTables,
    held: &Held,
) -> Result<Option<BrokenRule>, Failed>
    requires found { AreFilesFound (V.state files.old) held.now }
    ensures judged { let files_old = (V.state files.old).files in IsTrue (V.state files.old).tells
        → IfOk result (λ r. MatchOption r (KeepsListing files_old held.now) (λ broken.
        BreaksHeld files_old held.now broken.rule broken.place)) }
    ensures ready { IfOk result (λ r. IfNone r (IsReadyAll (V.state files.old) tables.new held.now)) }
    ensures reads { let files_old = (V.state files.old).files in V.reads files.new ≤ V.reads files.old
        + 6 * all_slots files_old held.now.relations + all_reads files_old held.now.relations held.now.indexes }
    ensures frame { OnlyReads V.state V.lent V.reads V.faults files.old files.new result }
{
    if let Some(place) = first_without_rows(files, held)? {
        return Ok(Some(BrokenRule { rule: 19, place }));
    }
    if let Some(place) = first_incomplete(files, tables, held)? {
        return Ok(Some(BrokenRule { rule: 20, place }));
    }
    Ok(None)
}
