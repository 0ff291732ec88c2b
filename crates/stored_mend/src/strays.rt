//! Files that the catalog does not ask for.

#![tactic(auto)]

ghost use Rattle.std.specs.Prelude.{◌≡◌, ◌<◌, ◌+◌, IfOk, IsTrue, None, OnErr, OnOk, slice_index};
ghost use Rattle.afl_base.specs.Keeping.{Changes, OnlyReads};
ghost use Rattle.stored.specs.Mended.{mended_base, whole_catalog};
ghost use Rattle.stored_mend.specs.Interrupted.{CutMends};
ghost use Rattle.stored_mend.specs.Listed.{IsListedTo, rows_below, trees_below};
ghost use Rattle.stored_mend.specs.Mending.{MendsAsBefore};
ghost use Rattle.stored_mend.specs.Reported.{Reports};

use crate::listing::whole_catalog;
use crate::report::{Mended, Report};
use afl_base::{Failed, Files, IndexId, RelationId};
use catalog::{rows_file, tree_file};

/// Removes the rows of a slot without a relation.
pub fn remove_rows<V: Files>(files: &mut V, slot: u16, report: &mut Report) -> Result<(), Failed>
    requires idle { (V.state files.old).draft ≡ None }
    requires slot { slot < 8 }
    ensures idle { OnOk result ((V.state files.new).draft ≡ None) }
    ensures kept { OnOk result (MendsAsBefore (V.state files.old) (V.state files.new)) }
    ensures listed { IsTrue (V.state files.old).tells
        → IsListedTo (rows_below slot) (V.state files.old).files
        → OnOk result (IsListedTo (rows_below (slot + 1)) (V.state files.new).files) }
    ensures cut { IsTrue (V.state files.old).tells
        → IsListedTo (rows_below slot) (V.state files.old).files
        → CutMends V.cuts V.mends V.state files.new (OnErr result)
        (λ db. db ≡ mended_base (V.state files.old).files) }
    ensures frame { Changes V.state V.lent V.reads V.faults files.old files.new result }
    ensures reported { IsTrue (V.state files.old).tells
        → IsListedTo (rows_below slot) (V.state files.old).files → OnOk result
        (Reports 1 (V.state files.old) (V.state files.new) report.old.mended report.new.mended) }
{
    let first = first_byte(files, 176 * u32::from(slot))?;
    let Some(id) = RelationId::new(slot) else {
        return Ok(());
    };
    let Some(file) = files.find(rows_file(id)) else {
        return Ok(());
    };
    if first != 0 {
        return Ok(());
    }
    files.remove(file)?;
    report.add(Mended::Relation(id));
    Ok(())
}

/// Removes the tree of a slot without an index that has one.
pub fn remove_tree<V: Files>(files: &mut V, slot: u16, report: &mut Report) -> Result<(), Failed>
    requires idle { (V.state files.old).draft ≡ None }
    requires slot { slot < 8 }
    ensures idle { OnOk result ((V.state files.new).draft ≡ None) }
    ensures kept { OnOk result (MendsAsBefore (V.state files.old) (V.state files.new)) }
    ensures listed { IsTrue (V.state files.old).tells
        → IsListedTo (trees_below slot) (V.state files.old).files
        → OnOk result (IsListedTo (trees_below (slot + 1)) (V.state files.new).files) }
    ensures cut { IsTrue (V.state files.old).tells
        → IsListedTo (trees_below slot) (V.state files.old).files
        → CutMends V.cuts V.mends V.state files.new (OnErr result)
        (λ db. db ≡ mended_base (V.state files.old).files) }
    ensures frame { Changes V.state V.lent V.reads V.faults files.old files.new result }
    ensures reported { IsTrue (V.state files.old).tells → OnOk result
        (Reports 1 (V.state files.old) (V.state files.new) report.old.mended report.new.mended) }
{
    let first = first_byte(files, 1_408 + 8 * u32::from(slot))?;
    let Some(id) = IndexId::new(slot) else {
        return Ok(());
    };
    let Some(file) = files.find(tree_file(id)) else {
        return Ok(());
    };
    if first == 2 {
        return Ok(());
    }
    files.remove(file)?;
    report.add(Mended::Stray(id));
    Ok(())
}

// The first byte of a slot of the catalog, 0 where there is no catalog.
fn first_byte<V: Files>(files: &mut V, at: u32) -> Result<u8, Failed>
    requires inside { at < 1472 }
    ensures byte { IsTrue (V.state files.old).tells → IfOk result (λ byte.
        byte ≡ slice_index (whole_catalog (V.state files.old).files) at) }
    ensures frame { OnlyReads V.state V.lent V.reads V.faults files.old files.new result }
{
    let Some(cat) = whole_catalog(files) else {
        return Ok(0);
    };
    let mut byte = [0];
    files.read(cat, at, &mut byte)?;
    Ok(byte[0])
}
