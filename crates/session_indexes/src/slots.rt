//! Index slots, in the catalog and in what a session holds.

#![tactic(auto)]

ghost use Rattle.std.specs.Prelude.{◌≡◌, ◌+◌, ◌*◌, None, Some, OnErr, OnOk, length};
ghost use Rattle.afl_base.specs.CutFiles.{CutKeeps, CutLeaves};
ghost use Rattle.afl_base.specs.Keeping.{Changes, ChangesOrLacks};
ghost use Rattle.afl_base.specs.FileErrors.{OnSpace, UnlessFailed, WhereFailed};
ghost use Rattle.afl_base.specs.Files.{KeepsBytes, file_at};
ghost use Rattle.afl_base.specs.Sparing.{SparesPages, SparesWhere, StandsStill};
ghost use Rattle.catalog.specs.CatalogFile.{IsPrepared, PutsIndex};
ghost use Rattle.session_model.specs.Frames.{AsksNoExtent, with_indexed};
ghost use Rattle.session_model.specs.Running.{HasCatalogFile};
ghost use Rattle.session_indexes.specs.Made.{AsksIndexSlot, index_for};
ghost use Rattle.session_indexes.specs.Parts.{MayPut};

use crate::sites::Site;
use afl_base::{Failed, FileError, FileId, Files, IndexId};
use catalog::{IndexEntry, clear_index, put_index};
use db_model::IndexKind;
use session_model::{Held, Indexed, prepare_catalog};

/// Makes room for a change of an index slot. No byte changes, and the storage stays where no
/// extent is asked for.
pub fn prepare_slot<V: Files>(files: &mut V, cat: FileId, slot: IndexId) -> Result<(), FileError>
    requires idle { (V.state files.old).draft ≡ None }
    requires catalog { HasCatalogFile (V.state files.old).files (Some cat) }
    ensures kept { UnlessFailed result (KeepsBytes (V.state files.old) (V.state files.new) cat) }
    ensures catalog { OnOk result (HasCatalogFile (V.state files.new).files (Some cat)) }
    ensures prepared { let file = file_at (V.state files.new).files cat in
        OnOk result (IsPrepared file (1408 + 8 * slot) 8) }
    ensures asked { OnSpace result (λ need.
        AsksIndexSlot (V.asks files.new) (V.state files.new) cat slot need) }
    ensures still { AsksNoExtent (V.asks files.old) (V.state files.old).files cat (1408 + 8 * slot) 8
        → OnOk result (StandsStill V.state V.asks files.old files.new) }
    ensures cut { CutKeeps V.cuts V.mends V.state files.old files.new (WhereFailed result) }
    ensures frame { ChangesOrLacks V.state V.lent V.reads V.faults V.lacks files.old files.new result }
{
    prepare_catalog(files, cat, 1408 + 8 * u32::from(slot.number()), 8)?;
    Ok(())
}

/// Puts an index of a kind into its slot of the catalog, for which room was made. All others stay.
pub fn put_site<V: Files>(
    files: &mut V,
    cat: FileId,
    site: &Site,
    kind: IndexKind,
) -> Result<(), Failed>
    requires catalog { HasCatalogFile (V.state files.old).files (Some cat) }
    requires prepared { let file = file_at (V.state files.old).files cat in
        IsPrepared file (1408 + 8 * site.now.slot) 8 }
    ensures put { let old = V.state files.old in let new = V.state files.new in
        OnOk result (PutsIndex old new cat site.now.slot (Some (index_for site.now kind))) }
    ensures spares { SparesPages V.is_free V.state files.old files.new result }
    ensures cut { let old = V.state files.old in
        CutLeaves V.cuts V.mends V.state files.old files.new (OnErr result)
        (λ after. MayPut old after cat site.now.slot (Some (index_for site.now kind))) }
    ensures frame { Changes V.state V.lent V.reads V.faults files.old files.new result }
{
    let entry = IndexEntry {
        kind,
        relation: site.relation,
        attribute: site.attribute,
    };
    put_index(files, cat, site.slot, &entry)?;
    Ok(())
}

/// Puts an index of a kind into its slot of the catalog. All others stay.
pub fn put_entry<V: Files>(
    files: &mut V,
    cat: FileId,
    site: &Site,
    kind: IndexKind,
) -> Result<(), FileError>
    requires idle { (V.state files.old).draft ≡ None }
    requires catalog { HasCatalogFile (V.state files.old).files (Some cat) }
    ensures put { let old = V.state files.old in let new = V.state files.new in
        OnOk result (PutsIndex old new cat site.now.slot (Some (index_for site.now kind))) }
    ensures space { let old = V.state files.old in let new = V.state files.new in
        OnSpace result (λ need. KeepsBytes old new cat) }
    ensures asked { OnSpace result (λ need.
        AsksIndexSlot (V.asks files.new) (V.state files.new) cat site.now.slot need) }
    ensures spares { let asks = AsksNoExtent (V.asks files.old) (V.state files.old).files cat in
        SparesWhere V.is_free (asks (1408 + 8 * site.now.slot) 8) (V.state files.old) (V.state files.new) result }
    ensures cut { let old = V.state files.old in
        CutLeaves V.cuts V.mends V.state files.old files.new (WhereFailed result)
        (λ after. MayPut old after cat site.now.slot (Some (index_for site.now kind))) }
    ensures frame { ChangesOrLacks V.state V.lent V.reads V.faults V.lacks files.old files.new result }
{
    prepare_slot(files, cat, site.slot)?;
    put_site(files, cat, site, kind)?;
    Ok(())
}

/// Empties an index slot of the catalog. All others stay.
pub fn clear_entry<V: Files>(files: &mut V, cat: FileId, slot: IndexId) -> Result<(), FileError>
    requires idle { (V.state files.old).draft ≡ None }
    requires catalog { HasCatalogFile (V.state files.old).files (Some cat) }
    ensures cleared { let old = V.state files.old in let new = V.state files.new in
        OnOk result (PutsIndex old new cat slot None) }
    ensures space { let old = V.state files.old in let new = V.state files.new in
        OnSpace result (λ need. KeepsBytes old new cat) }
    ensures asked { OnSpace result (λ need.
        AsksIndexSlot (V.asks files.new) (V.state files.new) cat slot need) }
    ensures spares { let asks = AsksNoExtent (V.asks files.old) (V.state files.old).files cat in
        SparesWhere V.is_free (asks (1408 + 8 * slot) 8) (V.state files.old) (V.state files.new) result }
    ensures cut { let old = V.state files.old in
        CutLeaves V.cuts V.mends V.state files.old files.new (WhereFailed result)
        (λ after. MayPut old after cat slot None) }
    ensures frame { ChangesOrLacks V.state V.lent V.reads V.faults V.lacks files.old files.new result }
{
    prepare_slot(files, cat, slot)?;
    clear_index(files, cat, slot)?;
    Ok(())
}

/// Holds an index in its slot, or none, from now on. The catalog is of version 2.
pub fn hold(held: &mut Held, slot: IndexId, index: Option<Indexed>)
    requires { length held.old.indexes ≡ 8 }
    ensures { held.new ≡ with_indexed held.old slot index }
{
    held.indexes[slot.number() as usize] = index;
    held.version = 2;
}
