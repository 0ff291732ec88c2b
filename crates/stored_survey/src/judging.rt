//! Whether files are ones that a cut can have left.

#![tactic(auto)]

ghost use Rattle.std.specs.Prelude.{◌≡◌, ◌≤◌, IfOk, IsTrue, length};
ghost use Rattle.std.specs.Bool.{Decides};
ghost use Rattle.afl_base.specs.Keeping.{OnlyReads};
ghost use Rattle.stored.specs.CutTables.{IsCutTable, IsHalfDone};
ghost use Rattle.stored_mend.specs.Mending.{IsWholeCatalog};
ghost use Rattle.stored_survey.specs.Asked.{AreKeptBeside, AreSoundBeside, IsReadAs};
ghost use Rattle.stored_survey.specs.Pieces.{HasNoStranger, IsSomeHalfDone};
ghost use Rattle.stored_survey.specs.Shown.{Shows};

use crate::begun::is_begun;
use crate::finding::find_half;
use crate::indexes::is_sound_index;
use crate::mark::ends_as_cut;
use crate::reading::read_catalog;
use crate::relations::is_sound_relation;
use afl_base::{Failed, FileId, Files};
use catalog::{Catalog, first_stranger};
use stored::Half;
use stored_mend::whole_catalog;

/// Whether the files are ones that a cut can have left, which `mend_database` repairs: one thing may be
/// half done, and all else keeps the rules 14 to 20. Sound files are such ones. The files stay.
pub fn may_be_cut<V: Files>(files: &mut V) -> Result<bool, Failed>
    ensures decides { IsTrue (V.state files.old).tells → IfOk result
        (λ may. Decides may (IsCutTable (V.state files.old).files)) }
    ensures frame { OnlyReads V.state V.lent V.reads V.faults files.old files.new result }
{
    if !has_no_stranger(files) {
        return Ok(false);
    }
    match whole_catalog(files) {
        None => {
            let begun = is_begun(files)?;
            Ok(begun)
        }
        Some(cat) => {
            let half = may_be_half_done(files, cat)?;
            Ok(half)
        }
    }
}

// Whether no file stands there that no database has.
fn has_no_stranger<V: Files>(files: &V) -> bool
    ensures { Decides result (HasNoStranger (V.state files.now).files) }
{
    // A look at any place tells that there are 32.
    let _first_is_live = files.live(FileId::default());
    match first_stranger(files) {
        Some(_) => false,
        None => true,
    }
}

// Whether of a catalog that has all slots, and its files, one thing may be half done.
fn may_be_half_done<V: Files>(files: &mut V, cat: FileId) -> Result<bool, Failed>
    requires whole { IsWholeCatalog (V.state files.old).files cat }
    ensures decides { IsTrue (V.state files.old).tells → IfOk result
        (λ may. Decides may (IsSomeHalfDone (V.state files.old).files)) }
    ensures frame { OnlyReads V.state V.lent V.reads V.faults files.old files.new result }
{
    let read = read_catalog(files, cat)?;
    match read {
        None => Ok(false),
        Some(catalog) => {
            let half = find_half(files, cat, &catalog)?;
            let done = is_half_done(files, cat, &catalog, &half)?;
            Ok(done)
        }
    }
}

// Whether all is sound but for this, which was found.
fn is_half_done<V: Files>(
    files: &mut V,
    cat: FileId,
    catalog: &Catalog,
    half: &Half,
) -> Result<bool, Failed>
    requires whole { IsWholeCatalog (V.state files.old).files cat }
    requires relations { length catalog.now.relations ≡ 8 }
    requires indexes { length catalog.now.indexes ≡ 8 }
    ensures done { IsTrue (V.state files.old).tells → IsReadAs (V.state files.old).files catalog.now
        → Shows (V.state files.old).files half.now
        → IfOk result (λ is. Decides is (IsHalfDone (V.state files.old).files half.now)) }
    ensures frame { OnlyReads V.state V.lent V.reads V.faults files.old files.new result }
{
    let ends = ends_as_cut(files, cat, catalog, half)?;
    if !ends {
        return Ok(false);
    }
    let relations = are_sound_relations(files, cat, catalog, half)?;
    if !relations {
        return Ok(false);
    }
    let indexes = are_sound_indexes(files, catalog, half)?;
    Ok(indexes)
}

// Whether all relations are sound but for this.
fn are_sound_relations<V: Files>(
    files: &mut V,
    cat: FileId,
    catalog: &Catalog,
    half: &Half,
) -> Result<bool, Failed>
    requires whole { IsWholeCatalog (V.state files.old).files cat }
    requires relations { length catalog.now.relations ≡ 8 }
    ensures sound { IsTrue (V.state files.old).tells → IsReadAs (V.state files.old).files catalog.now
        → IfOk result (λ are. Decides are (AreSoundBeside (V.state files.old).files half.now)) }
    ensures frame { OnlyReads V.state V.lent V.reads V.faults files.old files.new result }
{
    for slot in 0..8u16 {
        let sound = is_sound_relation(files, cat, catalog, half, slot)?;
        if !sound {
            return Ok(false);
        }
    }
    Ok(true)
}

// Whether all indexes are sound but for this, beside relations that are.
fn are_sound_indexes<V: Files>(
    files: &mut V,
    catalog: &Catalog,
    half: &Half,
) -> Result<bool, Failed>
    requires relations { length catalog.now.relations ≡ 8 }
    requires indexes { length catalog.now.indexes ≡ 8 }
    ensures sound { IsTrue (V.state files.old).tells → IsReadAs (V.state files.old).files catalog.now
        → AreSoundBeside (V.state files.old).files half.now
        → IfOk result (λ are. Decides are (AreKeptBeside (V.state files.old).files half.now)) }
    ensures frame { OnlyReads V.state V.lent V.reads V.faults files.old files.new result }
{
    for slot in 0..8u16 {
        let sound = is_sound_index(files, catalog, half, slot)?;
        if !sound {
            return Ok(false);
        }
    }
    Ok(true)
}
