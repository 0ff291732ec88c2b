//! What is done between two answers.

ghost use Rattle.std.specs.Prelude.{◌≡◌, ◌+◌, ◌≤◌, ◌<◌, [], IfOk, None, OnOk};
ghost use Rattle.afl_base.specs.Files.{IsLive, KeepsBytes, file_at, size_at};
ghost use Rattle.afl_base.specs.declared.kind.Kind.TheVariants.{Doubling};
ghost use Rattle.index_set.specs.declared.info.TableId.{TableId as AnyTable};
ghost use Rattle.index_set.specs.Tables.{entries};
ghost use Rattle.database_tests.specs.Standing.{StandsOn, IsStanding, KeepsEachFile, Lengthens};

use crate::counting::Counts;
use crate::known::Known;
use crate::relation::{Relation, make_relation};
use crate::volumes::empty_file;
use afl_base::{Failed, FileId, Files, Name};
use index_set::HashTables;
use std::test::Fail;

/// Adds a row, merges the file of the rows and that of the tree with their logs, and makes files, grows
/// and removes them until a sector is erased.
#[tactic(auto, using(crate::proofs::Standing::goes_all, crate::proofs::Standing::goes_then, crate::proofs::Standing::stands_all))]
pub fn change_all<V: Files>(
    files: &mut V,
    tables: &mut HashTables,
    relation: &Relation,
    known: &mut Known,
    counts: &Counts,
) -> Result<(), Fail>
    requires stands { IsStanding (V.state files.old) tables.old relation.now.tuples relation.now.tree }
    ensures stands { OnOk result (
        IsStanding (V.state files.new) tables.new relation.now.tuples relation.now.tree) }
    ensures goes_on { OnOk result (
        StandsOn (V.state files.old) (V.state files.new) relation.now.tuples) }
{
    let erased = counts.erased.get();
    add_row(files, tables, relation, known)?;
    merge_both(files, tables, relation, counts)?;
    collect(files, counts, erased)?;
    Ok(())
}

/// A relation of 24 rows, which are known.
pub fn begin<V: Files>(
    files: &mut V,
    tables: &mut HashTables,
    known: &mut Known,
) -> Result<Relation, Fail>
    requires idle { (V.state files.old).draft ≡ None }
    requires empty { (table : AnyTable) → entries tables.old table ≡ [] }
    ensures stands { IfOk result (λ r.
        IsStanding (V.state files.new) tables.new r.tuples r.tree) }
{
    let relation = make_relation(files, tables)?;
    for row in 0..24u8 {
        add_row(files, tables, &relation, known)?;
    }
    Ok(relation)
}

// Adds a row to the relation and to what is known.
fn add_row<V: Files>(
    files: &mut V,
    tables: &mut HashTables,
    relation: &Relation,
    known: &mut Known,
) -> Result<(), Fail>
    requires stands { IsStanding (V.state files.old) tables.old relation.now.tuples relation.now.tree }
    ensures stands { OnOk result (
        IsStanding (V.state files.new) tables.new relation.now.tuples relation.now.tree) }
    ensures goes_on { OnOk result (
        StandsOn (V.state files.old) (V.state files.new) relation.now.tuples) }
{
    let tuple = known.add().ok_or("there is no place for a row")?;
    relation.insert(files, tables, &tuple)?;
    Ok(())
}

// Merges the file of the rows and that of the tree.
#[tactic(auto, using(crate::proofs::Standing::goes_kept, crate::proofs::Standing::goes_then, crate::proofs::Standing::stands_kept))]
fn merge_both<V: Files>(
    files: &mut V,
    tables: &HashTables,
    relation: &Relation,
    counts: &Counts,
) -> Result<(), Fail>
    requires stands { IsStanding (V.state files.old) tables.now relation.now.tuples relation.now.tree }
    ensures stands { OnOk result (
        IsStanding (V.state files.new) tables.now relation.now.tuples relation.now.tree) }
    ensures goes_on { OnOk result (
        StandsOn (V.state files.old) (V.state files.new) relation.now.tuples) }
{
    merge(files, counts, relation.tuples.file)?;
    merge(files, counts, relation.tree)?;
    Ok(())
}

// Merges a file with its log: a log has 30 records, and of two times 16 overwrites the last do not fit
// in. So at least two extents are given up.
#[tactic(auto, using(afl_base::proofs::FileLaws::becomes_then))]
fn merge<V: Files>(files: &mut V, counts: &Counts, id: FileId) -> Result<(), Fail>
    requires live { IsLive (V.state files.old).files id }
    requires kind { (file_at (V.state files.old).files id).kind ≡ Doubling }
    requires idle { (V.state files.old).draft ≡ None }
    ensures same { OnOk result (KeepsBytes (V.state files.old) (V.state files.new) id) }
{
    let before = counts.given_up.get();
    overwrite_some(files, id)?;
    overwrite_some(files, id)?;
    if counts.given_up.get().saturating_sub(before) < 2 {
        return Err(Fail::new("the file was not merged"));
    }
    Ok(())
}

// Puts 16 bytes in the place of the same.
#[tactic(auto, using(afl_base::proofs::FileLaws::becomes_then))]
fn overwrite_some<V: Files>(files: &mut V, id: FileId) -> Result<(), Fail>
    requires live { IsLive (V.state files.old).files id }
    requires kind { (file_at (V.state files.old).files id).kind ≡ Doubling }
    requires idle { (V.state files.old).draft ≡ None }
    ensures same { OnOk result (KeepsBytes (V.state files.old) (V.state files.new) id) }
{
    let size = files.size(id);
    if size < 480 || size > 100_000 {
        return Err(Fail::new("the file is short or long"));
    }
    files.prepare(id, 16, 0)?;
    for turn in 0..16u32 {
        overwrite_one(files, id, 29 * turn)?;
    }
    Ok(())
}

// Puts a byte in the place of the same.
fn overwrite_one<V: Files>(files: &mut V, id: FileId, at: u32) -> Result<(), Failed>
    requires live { IsLive (V.state files.old).files id }
    requires range { at + 1 < size_at (V.state files.old).files id }
    requires record { 1 ≤ (file_at (V.state files.old).files id).records }
    ensures same { OnOk result (KeepsBytes (V.state files.old) (V.state files.new) id) }
    ensures records { OnOk result ((file_at (V.state files.new).files id).records + 1
        ≡ (file_at (V.state files.old).files id).records) }
{
    let mut byte = [0];
    files.read(id, at, &mut byte)?;
    files.overwrite(id, at, &byte)?;
    Ok(())
}

// Makes files, grows and removes them until more sectors are erased than before.
#[tactic(auto, using(crate::proofs::Kept::keeps_same, crate::proofs::Kept::keeps_then))]
fn collect<V: Files>(files: &mut V, counts: &Counts, before: u32) -> Result<(), Fail>
    requires idle { (V.state files.old).draft ≡ None }
    ensures keeps { OnOk result (KeepsEachFile (V.state files.old) (V.state files.new)) }
{
    for turn in 0..40u8 {
        grow_another(files)?;
        if counts.erased.get() != before {
            return Ok(());
        }
    }
    Err(Fail::new("no sector was erased"))
}

// Makes a file, grows it past its first 16 pages, and removes it.
#[tactic(auto, using(crate::proofs::Kept::keeps_others))]
fn grow_another<V: Files>(files: &mut V) -> Result<(), Fail>
    requires idle { (V.state files.old).draft ≡ None }
    ensures keeps { OnOk result (KeepsEachFile (V.state files.old) (V.state files.new)) }
{
    let id = empty_file(files, Name::new(b"S").ok_or("name")?)?;
    for turn in 0..5u16 {
        append_some(files, id)?;
    }
    files.remove(id)?;
    Ok(())
}

// Adds 1,000 bytes to a file.
fn append_some<V: Files>(files: &mut V, id: FileId) -> Result<(), Fail>
    requires live { IsLive (V.state files.old).files id }
    requires kind { (file_at (V.state files.old).files id).kind ≡ Doubling }
    requires idle { (V.state files.old).draft ≡ None }
    requires short { size_at (V.state files.old).files id ≤ 100000 }
    ensures more { OnOk result (Lengthens (V.state files.old) (V.state files.new) id 1000) }
{
    let bytes = [7; 1_000];
    if bytes[999] != 7 {
        return Err(Fail::new("the bytes are others"));
    }
    files.prepare(id, 0, 1_000)?;
    files.append(id, &bytes)?;
    Ok(())
}
