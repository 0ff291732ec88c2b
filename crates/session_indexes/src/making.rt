//! Indexes of each kind, made for all rows of a relation.

#![tactic(auto)]

ghost use Rattle.std.specs.Prelude.{◌≡◌, ◌+◌, ◌*◌, List, Option, IfOk, IsTrue, OnErr};
ghost use Rattle.afl_base.specs.CutFiles.{CutKeepsOrLeaves};
ghost use Rattle.afl_base.specs.Keeping.{ChangesOrLacks, OnlyReads};
ghost use Rattle.afl_base.specs.FileErrors.{OnSpace, UnlessFailed, WhereFailed};
ghost use Rattle.afl_base.specs.Files.{KeepsBytes};
ghost use Rattle.afl_base.specs.Sparing.{SparesWhere};
ghost use Rattle.db_model.specs.Step.{first_fall, keys};
ghost use Rattle.db_model.specs.declared.schemas.IndexKind.TheVariants.{Inline, MaxHeap, MemHash};
ghost use Rattle.index_set.specs.Tables.{Tables as AnyTables};
ghost use Rattle.session_model.specs.Frames.{AsksNoExtent};
ghost use Rattle.session_model.specs.Indexed.{IsAllowedAt};
ghost use Rattle.session_model.specs.declared.held.Indexed.{Indexed as AnyIndexed};
ghost use Rattle.tuple_file.specs.Column.{IsNumber};
ghost use Rattle.tuple_file.specs.Tuples.{HoldsRows, rows};
ghost use Rattle.session_indexes.specs.Made.{AreElsewhere, AsksIndex, AsksIndexSlot, AsksNoIndex, HaveTables, IsMade, IsReadyFor};
ghost use Rattle.session_indexes.specs.Made.{IsTried, IsUnrefused, KeepsTaken, keys_at};
ghost use Rattle.session_indexes.specs.Parts.{IsMadeInPart};

use crate::sites::Site;
use crate::slots::put_entry;
use crate::tables::{free_table, is_crowded};
use crate::trees::add_tree;
use afl_base::{Failed, FileError, FileId, Files};
use db_model::{IndexKind, MOST_TABLES, Pool, Refusal};
use index_inline::ordered;
use index_set::{Access, HashTables, MOST_KEYS};
use session_model::{Held, Indexed};
use tuple_file::Tuples;

/// An index that is to be made: where it comes to stand, and its kind.
#[derive(Clone, Copy)]
pub struct NewIndex<'a> {
    pub site: &'a Site,
    pub kind: IndexKind,
}

// The key of an attribute before the first that falls.
fn fall<V: Files>(files: &mut V, tuples: &Tuples, attribute: u8) -> Result<Option<i64>, Failed>
    requires holds { HoldsRows (V.state files.old) tuples.now }
    requires number { IsNumber tuples.now.schema.attributes attribute }
    ensures fall { let old = V.state files.old in IsTrue old.tells → IfOk result (λ fall.
        fall ≡ first_fall (keys attribute (rows old.files tuples.now))) }
    ensures frame { OnlyReads V.state V.lent V.reads V.faults files.old files.new result }
{
    let column = tuples.column(attribute);
    let slots = tuples.count(files);
    let fall = ordered(files, &column, slots)?;
    Ok(fall)
}

// An index over keys that do not fall.
fn make_order<V: Files>(
    files: &mut V,
    cat: FileId,
    tuples: &Tuples,
    site: &Site,
) -> Result<Result<Access, Refusal>, FileError>
    requires ready { IsReadyFor (V.state files.old) cat tuples.now site.now }
    requires allowed { IsAllowedAt tuples.now.schema.attributes site.now.attribute Inline }
    ensures made { let old = V.state files.old in let new = V.state files.new in
        IfOk result (λ r. IfOk r (λ access. (tables : AnyTables) (xs : List (Option AnyIndexed))
        → IsMade Inline old new tables tables xs cat tuples.now site.now access)) }
    ensures tried { let old = V.state files.old in let ks = keys_at old tuples.now site.now in
        IsTrue old.tells → IfOk result (λ r.
        (xs : List (Option AnyIndexed)) → IsTried Inline xs ks r) }
    ensures unrefused { let old = V.state files.old in let ks = keys_at old tuples.now site.now in
        IsTrue old.tells → OnSpace result (λ need.
        (xs : List (Option AnyIndexed)) → IsUnrefused Inline xs ks) }
    ensures refused { IfOk result (λ r. OnErr r (V.state files.new ≡ V.state files.old)) }
    ensures space { let old = V.state files.old in let new = V.state files.new in
        OnSpace result (λ need. KeepsBytes old new cat) }
    ensures asked { OnSpace result (λ need.
        AsksIndexSlot (V.asks files.new) (V.state files.new) cat site.now.slot need) }
    ensures spares { let asks = AsksNoExtent (V.asks files.old) (V.state files.old).files cat in
        SparesWhere V.is_free (asks (1408 + 8 * site.now.slot) 8) (V.state files.old) (V.state files.new) result }
    ensures cut { let old = V.state files.old in
        CutKeepsOrLeaves V.cuts V.mends V.state files.old files.new (WhereFailed result)
        (λ after. (xs : List (Option AnyIndexed))
        → IsMadeInPart old after xs cat tuples.now site.now Inline) }
    ensures frame { ChangesOrLacks V.state V.lent V.reads V.faults V.lacks files.old files.new result }
{
    match fall(files, tuples, site.attribute) {
        Ok(None) => {}
        Ok(Some(last)) => return Ok(Err(Refusal::NotOrdered { last })),
        Err(Failed) => return Err(FileError::Failed),
    }
    put_entry(files, cat, site, IndexKind::Inline)?;
    Ok(Ok(Access::Order))
}

// An index with a hash tree of all keys.
fn make_tree<V: Files>(
    files: &mut V,
    cat: FileId,
    tuples: &Tuples,
    site: &Site,
) -> Result<Result<Access, Refusal>, FileError>
    requires ready { IsReadyFor (V.state files.old) cat tuples.now site.now }
    requires allowed { IsAllowedAt tuples.now.schema.attributes site.now.attribute MaxHeap }
    ensures made { let old = V.state files.old in let new = V.state files.new in
        IfOk result (λ r. IfOk r (λ access. (tables : AnyTables) (xs : List (Option AnyIndexed))
        → IsMade MaxHeap old new tables tables xs cat tuples.now site.now access)) }
    ensures tried { let ks = keys_at (V.state files.old) tuples.now site.now in
        IfOk result (λ r. (xs : List (Option AnyIndexed)) → IsTried MaxHeap xs ks r) }
    ensures unrefused { let ks = keys_at (V.state files.old) tuples.now site.now in
        OnSpace result (λ need. (xs : List (Option AnyIndexed)) → IsUnrefused MaxHeap xs ks) }
    ensures refused { IfOk result (λ r. OnErr r (V.state files.new ≡ V.state files.old)) }
    ensures space { let old = V.state files.old in let new = V.state files.new in
        OnSpace result (λ need. KeepsBytes old new cat) }
    ensures asked { let old = V.state files.old in let ks = keys_at old tuples.now site.now in
        IsTrue old.tells → OnSpace result (λ need.
        AsksIndex (V.asks files.new) (V.state files.new) cat site.now.slot MaxHeap ks need) }
    ensures cut { let old = V.state files.old in
        CutKeepsOrLeaves V.cuts V.mends V.state files.old files.new (WhereFailed result)
        (λ after. (xs : List (Option AnyIndexed))
        → IsMadeInPart old after xs cat tuples.now site.now MaxHeap) }
    ensures frame { ChangesOrLacks V.state V.lent V.reads V.faults V.lacks files.old files.new result }
{
    let file = add_tree(files, cat, tuples, site)?;
    Ok(Ok(Access::Tree(file)))
}

// An index with a hash table of all keys. A table that no index has is filled first.
fn make_table<V: Files>(
    files: &mut V,
    tables: &mut HashTables,
    indexes: &[Option<Indexed>],
    cat: FileId,
    tuples: &Tuples,
    site: &Site,
) -> Result<Result<Access, Refusal>, FileError>
    requires ready { IsReadyFor (V.state files.old) cat tuples.now site.now }
    requires allowed { IsAllowedAt tuples.now.schema.attributes site.now.attribute MemHash }
    requires apart { AreElsewhere indexes.now }
    requires tables { HaveTables indexes.now }
    ensures made { let old = V.state files.old in let new = V.state files.new in
        IfOk result (λ r. IfOk r (λ access.
        IsMade MemHash old new tables.old tables.new indexes.now cat tuples.now site.now access)) }
    ensures tried { let ks = keys_at (V.state files.old) tuples.now site.now in
        IfOk result (λ r. IsTried MemHash indexes.now ks r) }
    ensures unrefused { let ks = keys_at (V.state files.old) tuples.now site.now in
        OnSpace result (λ need. IsUnrefused MemHash indexes.now ks) }
    ensures refused { IfOk result (λ r. OnErr r (V.state files.new ≡ V.state files.old)) }
    ensures tables { UnlessFailed result (KeepsTaken tables.old tables.new indexes.now) }
    ensures space { let old = V.state files.old in let new = V.state files.new in
        OnSpace result (λ need. KeepsBytes old new cat) }
    ensures asked { OnSpace result (λ need.
        AsksIndexSlot (V.asks files.new) (V.state files.new) cat site.now.slot need) }
    ensures spares { let asks = AsksNoExtent (V.asks files.old) (V.state files.old).files cat in
        SparesWhere V.is_free (asks (1408 + 8 * site.now.slot) 8) (V.state files.old) (V.state files.new) result }
    ensures cut { let old = V.state files.old in
        CutKeepsOrLeaves V.cuts V.mends V.state files.old files.new (WhereFailed result)
        (λ after. IsMadeInPart old after indexes.now cat tuples.now site.now MemHash) }
    ensures frame { ChangesOrLacks V.state V.lent V.reads V.faults V.lacks files.old files.new result }
{
    let Some(table) = free_table(indexes) else {
        return Ok(Err(Refusal::Full {
            pool: Pool::HashTables,
            limit: MOST_TABLES,
        }));
    };
    let slots = tuples.count(files);
    if is_crowded(slots) {
        return Ok(Err(Refusal::Full {
            pool: Pool::HashEntries,
            limit: MOST_KEYS,
        }));
    }
    let column = tuples.column(site.attribute);
    let Ok(()) = tables.fill(files, table, &column, slots) else {
        return Err(FileError::Failed);
    };
    match put_entry(files, cat, site, IndexKind::MemHash) {
        Ok(()) => Ok(Ok(Access::Table(table))),
        Err(FileError::Space { need }) => Err(FileError::Space { need }),
        Err(FileError::Failed) => Err(FileError::Failed),
    }
}

/// Makes an index of a kind for all rows of a relation, or answers what of its kind refuses it.
pub fn make_index<V: Files>(
    files: &mut V,
    tables: &mut HashTables,
    held: &Held,
    cat: FileId,
    tuples: &Tuples,
    index: &NewIndex,
) -> Result<Result<Access, Refusal>, FileError>
    requires ready { IsReadyFor (V.state files.old) cat tuples.now index.now.site.now }
    requires allowed { IsAllowedAt tuples.now.schema.attributes index.now.site.now.attribute index.now.kind }
    requires apart { AreElsewhere held.now.indexes }
    requires tables { HaveTables held.now.indexes }
    ensures made { let old = V.state files.old in let new = V.state files.new in
        IfOk result (λ r. IfOk r (λ access.
        IsMade index.now.kind old new tables.old tables.new held.now.indexes cat tuples.now index.now.site.now access)) }
    ensures tried { let old = V.state files.old in let ks = keys_at old tuples.now index.now.site.now in
        IsTrue old.tells → IfOk result (λ r. IsTried index.now.kind held.now.indexes ks r) }
    ensures unrefused { let old = V.state files.old in let ks = keys_at old tuples.now index.now.site.now in
        IsTrue old.tells → OnSpace result (λ need. IsUnrefused index.now.kind held.now.indexes ks) }
    ensures refused { IfOk result (λ r. OnErr r (V.state files.new ≡ V.state files.old)) }
    ensures tables { UnlessFailed result (KeepsTaken tables.old tables.new held.now.indexes) }
    ensures space { let old = V.state files.old in let new = V.state files.new in
        OnSpace result (λ need. KeepsBytes old new cat) }
    ensures asked { let old = V.state files.old in let ks = keys_at old tuples.now index.now.site.now in
        IsTrue old.tells → OnSpace result (λ need.
        AsksIndex (V.asks files.new) (V.state files.new) cat index.now.site.now.slot index.now.kind ks need) }
    ensures spares { let asks = AsksNoIndex (V.asks files.old) (V.state files.old) cat in
        SparesWhere V.is_free (asks index.now.site.now.slot index.now.kind) (V.state files.old) (V.state files.new) result }
    ensures cut { let old = V.state files.old in
        CutKeepsOrLeaves V.cuts V.mends V.state files.old files.new (WhereFailed result)
        (λ after. IsMadeInPart old after held.now.indexes cat tuples.now index.now.site.now index.now.kind) }
    ensures frame { ChangesOrLacks V.state V.lent V.reads V.faults V.lacks files.old files.new result }
{
    match index.kind {
        IndexKind::Inline => make_order(files, cat, tuples, index.site),
        IndexKind::MaxHeap => make_tree(files, cat, tuples, index.site),
        IndexKind::MemHash => make_table(files, tables, &held.indexes, cat, tuples, index.site),
    }
}
