//! All files of a database, repaired one after another.

#![tactic(auto)]

ghost use Rattle.std.specs.Prelude.{◌≡◌, ◌≢◌, [], IfNone, IfOk, IfSome, IsTrue, None, OnOk, length, ⊤};
ghost use Rattle.afl_base.specs.FileErrors.{OnSpace, WhereFailed};
ghost use Rattle.afl_base.specs.Keeping.{ChangesOrLacks, OnlyReads};
ghost use Rattle.catalog.specs.Catalogs.{catalog_slots};
ghost use Rattle.catalog.specs.Rules.{catalog_in, first_broken};
ghost use Rattle.stored.specs.CutTables.{IsCutTable};
ghost use Rattle.stored.specs.Mended.{mended_base, mended_catalog};
ghost use Rattle.stored.specs.Sound.{IsSoundTable};
ghost use Rattle.stored.specs.declared.half.Half.{Half};
ghost use Rattle.stored_mend.specs.Filled.{FillsIn, IsFilled};
ghost use Rattle.stored_mend.specs.Interrupted.{CutMends, IsCutState};
ghost use Rattle.stored_mend.specs.Listed.{IsListedTo, indexes_below, trees_below};
ghost use Rattle.stored_mend.specs.Mending.{IsPutRight, MendsAsBefore, PutsRight, StandsForMended};
ghost use Rattle.stored_mend.specs.Reported.{IsReported, Reports, ReportsInTurn};
ghost use Rattle.stored_mend.specs.Stages.{HasWholeRelations, IsCatalogSound, IsReadSound};
ghost use Rattle.stored_mend.specs.Trees.{LacksRoom};

use crate::catalogs::{complete_mark, mend_index, mend_relation, take_back_catalog};
use crate::contents::mend_rows;
use crate::report::Report;
use crate::strays::{remove_rows, remove_tree};
use crate::trees::mend_all_trees;
use afl_base::{Failed, FileError, Files};
use catalog::{Catalog, load};

/// Repairs files in which a cut left a part of a change, as `may_be_cut` tells, and reports what it did, with one line
/// for each thing that it changed and no other: they are sound then. It makes room before each change, and
/// `Space` has the pages that were lacking.
/// Where it is cut itself, or has no space, it leaves files that a cut can have left. They mend to the
/// database that the files mended to before it, put right as far as the repair came, so it can be begun
/// anew.
pub fn mend_database<V: Files>(files: &mut V, report: &mut Report) -> Result<(), FileError>
    requires idle { (V.state files.old).draft ≡ None }
    ensures idle { OnOk result ((V.state files.new).draft ≡ None) }
    ensures kept { OnOk result
        (PutsRight (LacksRoom V.state V.lacks) (V.state files.old) (V.state files.new)) }
    ensures sound { IsTrue (V.state files.old).tells → IsCutTable (V.state files.old).files
        → OnOk result (IsSoundTable (V.state files.new).files) }
    ensures stands { IsTrue (V.state files.old).tells → OnOk result
        (StandsForMended (V.state files.old).files (V.state files.new).files) }
    ensures cut { IsTrue (V.state files.old).tells → IsCutTable (V.state files.old).files
        → CutMends V.cuts V.mends V.state files.new (WhereFailed result)
        (λ db. IsPutRight (mended_base (V.state files.old).files) db) }
    ensures space { IsTrue (V.state files.old).tells → IsCutTable (V.state files.old).files
        → OnSpace result (λ _. IsCutState (V.state files.new)
        (λ db. IsPutRight (mended_base (V.state files.old).files) db)) }
    ensures frame { ChangesOrLacks V.state V.lent V.reads V.faults V.lacks files.old files.new result }
    ensures reported { IsTrue (V.state files.old).tells → IsCutTable (V.state files.old).files
        → OnOk result (report.old.mended ≡ [] → IsReported
        (V.state files.old).files (V.state files.new).files report.new.mended) }
{
    mend_listing(files, report)?;
    mend_listed(files, report)?;
    Ok(())
}

// Repairs the catalog, and removes the files that it does not ask for.
fn mend_listing<V: Files>(files: &mut V, report: &mut Report) -> Result<(), FileError>
    requires idle { (V.state files.old).draft ≡ None }
    ensures idle { OnOk result ((V.state files.new).draft ≡ None) }
    ensures kept { OnOk result (MendsAsBefore (V.state files.old) (V.state files.new)) }
    ensures listed { IsTrue (V.state files.old).tells → IsCutTable (V.state files.old).files
        → OnOk result ((half : Half) × IsCatalogSound (V.state files.new).files half) }
    ensures cut { IsTrue (V.state files.old).tells
        → IsCutTable (V.state files.old).files
        → CutMends V.cuts V.mends V.state files.new (WhereFailed result)
        (λ db. db ≡ mended_base (V.state files.old).files) }
    ensures space { IsTrue (V.state files.old).tells
        → IsCutTable (V.state files.old).files
        → OnSpace result (λ _. IsCutState (V.state files.new)
        (λ db. db ≡ mended_base (V.state files.old).files)) }
    ensures frame { ChangesOrLacks V.state V.lent V.reads V.faults V.lacks files.old files.new result }
    ensures reported { IsTrue (V.state files.old).tells → IsCutTable (V.state files.old).files
        → OnOk result (Reports 42 (V.state files.old) (V.state files.new) report.old.mended report.new.mended) }
{
    mend_catalog(files, report)?;
    remove_strays(files, report)?;
    Ok(())
}

// Repairs what the catalog asks for.
#[tactic(auto, using(crate::proofs::PutRight::right_same))]
fn mend_listed<V: Files>(files: &mut V, report: &mut Report) -> Result<(), FileError>
    requires idle { (V.state files.old).draft ≡ None }
    ensures kept { OnOk result
        (PutsRight (LacksRoom V.state V.lacks) (V.state files.old) (V.state files.new)) }
    ensures sound { IsTrue (V.state files.old).tells → (half : Half)
        → IsCatalogSound (V.state files.old).files half
        → OnOk result (IsSoundTable (V.state files.new).files) }
    ensures cut { IsTrue (V.state files.old).tells → (half : Half)
        → IsCatalogSound (V.state files.old).files half
        → CutMends V.cuts V.mends V.state files.new (WhereFailed result)
        (λ db. IsPutRight (mended_base (V.state files.old).files) db) }
    ensures space { IsTrue (V.state files.old).tells → (half : Half)
        → IsCatalogSound (V.state files.old).files half
        → OnSpace result (λ _. IsCutState (V.state files.new)
        (λ db. IsPutRight (mended_base (V.state files.old).files) db)) }
    ensures frame { ChangesOrLacks V.state V.lent V.reads V.faults V.lacks files.old files.new result }
    ensures reported { IsTrue (V.state files.old).tells → (half : Half)
        → IsCatalogSound (V.state files.old).files half → OnOk result
        (ReportsInTurn 8 (V.state files.old) (V.state files.new) report.old.mended report.new.mended) }
{
    let found = sound_catalog(files)?;
    match found {
        Some(catalog) => {
            mend_contents(files, &catalog, report)?;
            Ok(())
        }
        None => Ok(()),
    }
}

// The catalog, None where it breaks a rule.
fn sound_catalog<V: Files>(files: &mut V) -> Result<Option<Catalog>, Failed>
    ensures relations { IfOk result (λ r. IfSome r (λ catalog. length catalog.relations ≡ 8)) }
    ensures indexes { IfOk result (λ r. IfSome r (λ catalog. length catalog.indexes ≡ 8)) }
    ensures listed { IsTrue (V.state files.old).tells → IfOk result (λ r. IfSome r (λ catalog.
        catalog.relations ≡ (mended_catalog (V.state files.old).files).relations)) }
    ensures loaded { IsTrue (V.state files.old).tells → IfOk result (λ r. IfSome r (λ catalog.
        catalog_slots catalog ≡ catalog_in (V.state files.old).files)) }
    ensures broken { IsTrue (V.state files.old).tells
        → IfOk result (λ r. IfNone r (first_broken (V.state files.old).files ≢ None)) }
    ensures frame { OnlyReads V.state V.lent V.reads V.faults files.old files.new result }
{
    let mut catalog = Catalog::empty();
    match load(files, &mut catalog)? {
        Ok(()) => Ok(Some(catalog)),
        Err(_) => Ok(None),
    }
}

// Puts the file of the catalog right.
fn mend_catalog<V: Files>(files: &mut V, report: &mut Report) -> Result<(), FileError>
    requires idle { (V.state files.old).draft ≡ None }
    ensures idle { OnOk result ((V.state files.new).draft ≡ None) }
    ensures kept { OnOk result (MendsAsBefore (V.state files.old) (V.state files.new)) }
    ensures listed { IsTrue (V.state files.old).tells → IsCutTable (V.state files.old).files
        → OnOk result (IsListedTo (indexes_below 8) (V.state files.new).files) }
    ensures cut { IsTrue (V.state files.old).tells
        → IsCutTable (V.state files.old).files
        → CutMends V.cuts V.mends V.state files.new (WhereFailed result)
        (λ db. db ≡ mended_base (V.state files.old).files) }
    ensures space { IsTrue (V.state files.old).tells
        → IsCutTable (V.state files.old).files
        → OnSpace result (λ _. IsCutState (V.state files.new)
        (λ db. db ≡ mended_base (V.state files.old).files)) }
    ensures frame { ChangesOrLacks V.state V.lent V.reads V.faults V.lacks files.old files.new result }
    ensures reported { IsTrue (V.state files.old).tells → IsCutTable (V.state files.old).files
        → OnOk result (Reports 26 (V.state files.old) (V.state files.new) report.old.mended report.new.mended) }
{
    take_back_catalog(files, report)?;
    complete_mark(files, report)?;
    for slot in 0..8u16 {
        mend_relation(files, slot, report)?;
    }
    for slot in 0..8u16 {
        mend_index(files, slot, report)?;
    }
    Ok(())
}

// Removes the files that the catalog does not ask for.
fn remove_strays<V: Files>(files: &mut V, report: &mut Report) -> Result<(), FileError>
    requires idle { (V.state files.old).draft ≡ None }
    ensures idle { OnOk result ((V.state files.new).draft ≡ None) }
    ensures kept { OnOk result (MendsAsBefore (V.state files.old) (V.state files.new)) }
    ensures listed { IsTrue (V.state files.old).tells
        → IsListedTo (indexes_below 8) (V.state files.old).files
        → OnOk result (IsListedTo (trees_below 8) (V.state files.new).files) }
    ensures cut { IsTrue (V.state files.old).tells
        → IsListedTo (indexes_below 8) (V.state files.old).files
        → CutMends V.cuts V.mends V.state files.new (WhereFailed result)
        (λ db. db ≡ mended_base (V.state files.old).files) }
    ensures space { IsTrue (V.state files.old).tells
        → IsListedTo (indexes_below 8) (V.state files.old).files
        → OnSpace result (λ _. IsCutState (V.state files.new)
        (λ db. db ≡ mended_base (V.state files.old).files)) }
    ensures frame { ChangesOrLacks V.state V.lent V.reads V.faults V.lacks files.old files.new result }
    ensures reported { IsTrue (V.state files.old).tells
        → IsListedTo (indexes_below 8) (V.state files.old).files → OnOk result
        (Reports 16 (V.state files.old) (V.state files.new) report.old.mended report.new.mended) }
{
    for slot in 0..8u16 {
        remove_rows(files, slot, report)?;
    }
    for slot in 0..8u16 {
        remove_tree(files, slot, report)?;
    }
    Ok(())
}

// Repairs rows and trees.
fn mend_contents<V: Files>(
    files: &mut V,
    catalog: &Catalog,
    report: &mut Report,
) -> Result<(), FileError>
    requires relations { length catalog.now.relations ≡ 8 }
    requires indexes { length catalog.now.indexes ≡ 8 }
    requires listed { IsTrue (V.state files.old).tells
        → catalog.now.relations ≡ (mended_catalog (V.state files.old).files).relations }
    requires idle { (V.state files.old).draft ≡ None }
    ensures kept { OnOk result
        (PutsRight (LacksRoom V.state V.lacks) (V.state files.old) (V.state files.new)) }
    ensures sound { IsTrue (V.state files.old).tells
        → (half : Half) → IsReadSound (catalog_slots catalog.now) (V.state files.old).files half
        → OnOk result (IsSoundTable (V.state files.new).files) }
    ensures cut { IsTrue (V.state files.old).tells
        → (half : Half) → IsReadSound (catalog_slots catalog.now) (V.state files.old).files half
        → CutMends V.cuts V.mends V.state files.new (WhereFailed result)
        (λ db. IsPutRight (mended_base (V.state files.old).files) db) }
    ensures space { IsTrue (V.state files.old).tells
        → (half : Half) → IsReadSound (catalog_slots catalog.now) (V.state files.old).files half
        → OnSpace result (λ _. IsCutState (V.state files.new)
        (λ db. IsPutRight (mended_base (V.state files.old).files) db)) }
    ensures frame { ChangesOrLacks V.state V.lent V.reads V.faults V.lacks files.old files.new result }
    ensures reported { IsTrue (V.state files.old).tells
        → (half : Half) → IsReadSound (catalog_slots catalog.now) (V.state files.old).files half → OnOk result
        (ReportsInTurn 8 (V.state files.old) (V.state files.new) report.old.mended report.new.mended) }
{
    mend_all_rows(files, catalog, report)?;
    mend_all_trees(files, catalog, report)?;
    Ok(())
}

fn mend_all_rows<V: Files>(
    files: &mut V,
    catalog: &Catalog,
    report: &mut Report,
) -> Result<(), FileError>
    requires relations { length catalog.now.relations ≡ 8 }
    requires listed { IsTrue (V.state files.old).tells
        → catalog.now.relations ≡ (mended_catalog (V.state files.old).files).relations }
    requires idle { (V.state files.old).draft ≡ None }
    ensures kept { OnOk result (FillsIn (λ slot. ⊤) (V.state files.old) (V.state files.new)) }
    ensures whole { IsTrue (V.state files.old).tells
        → (half : Half) → IsReadSound (catalog_slots catalog.now) (V.state files.old).files half
        → OnOk result ((after : Half) × HasWholeRelations (V.state files.new).files after) }
    ensures cut { IsTrue (V.state files.old).tells
        → (half : Half) → IsReadSound (catalog_slots catalog.now) (V.state files.old).files half
        → CutMends V.cuts V.mends V.state files.new (WhereFailed result)
        (λ db. IsFilled (mended_base (V.state files.old).files) db) }
    ensures space { IsTrue (V.state files.old).tells
        → (half : Half) → IsReadSound (catalog_slots catalog.now) (V.state files.old).files half
        → OnSpace result (λ _. IsCutState (V.state files.new)
        (λ db. IsFilled (mended_base (V.state files.old).files) db)) }
    ensures frame { ChangesOrLacks V.state V.lent V.reads V.faults V.lacks files.old files.new result }
    ensures reported { IsTrue (V.state files.old).tells → OnOk result
        (Reports 8 (V.state files.old) (V.state files.new) report.old.mended report.new.mended) }
{
    for slot in 0..8u16 {
        mend_rows(files, slot, catalog, report)?;
    }
    Ok(())
}
