//! A relation with three indexes: in order, in a tree, in a table.

ghost use Rattle.std.specs.Prelude.{◌≡◌, ◌<◌, ◌≤◌, [], List, IfOk, IfSome, None, OnOk};
ghost use Rattle.afl_base.specs.Files.{IsLive, file_at, place};
ghost use Rattle.db_model.specs.Row.{row_length};
ghost use Rattle.afl_base.specs.declared.kind.Kind.TheVariants.{Doubling};
ghost use Rattle.index_set.specs.declared.info.TableId.TheVariants.{First};
ghost use Rattle.index_set.specs.Tables.{entries};
ghost use Rattle.tuple_file.specs.Tuples.{HoldsRows, slots};
ghost use Rattle.database_tests.specs.Standing.{AreOurs, StandsOn, IsOurs, IsStanding, KeepsEachFile, three_indexes};

use crate::volumes::empty_file;
use afl_base::{FileId, Files, Name, SlotNo};
use db_model::{Attribute, Attributes, Domain, Ident, Schema, Tuple};
use index_set::{Access, HashTables, IndexInfo, Indexes, TableId, insert_all, prepare_all};
use std::test::Fail;
use test_steps::is_free;
use tuple_file::Tuples;

/// Rows of 20 bytes: k INT, l INT, r INT, s STRING(13). The keys of l are in a tree, those of r in the
/// first hash table, and those of k do not fall.
#[derive(Drop)]
pub struct Relation {
    pub tuples: Tuples,
    pub tree: FileId,
}

impl Relation {
    /// The three indexes.
    pub fn indexes(&self) -> Indexes
        requires ours { AreOurs self.now.tuples.schema.attributes }
        requires short { row_length self.now.tuples.schema.attributes ≤ 128 }
        ensures indexes { result ≡ three_indexes self.now.tuples self.now.tree }
    {
        let mut list = Indexes::new();
        list.push(IndexInfo {
            attribute: 0,
            column: self.tuples.column(0),
            access: Access::Order,
        });
        list.push(IndexInfo {
            attribute: 1,
            column: self.tuples.column(1),
            access: Access::Tree(self.tree),
        });
        list.push(IndexInfo {
            attribute: 2,
            column: self.tuples.column(2),
            access: Access::Table(TableId::First),
        });
        list
    }

    /// Adds a row, and its keys to all indexes.
    pub fn insert<V: Files>(
        &self,
        files: &mut V,
        tables: &mut HashTables,
        tuple: &Tuple,
    ) -> Result<(), Fail>
        requires stands { IsStanding (V.state files.old) tables.old self.now.tuples self.now.tree }
        requires tuple { IsOurs tuple.now }
        ensures stands { OnOk result (
            IsStanding (V.state files.new) tables.new self.now.tuples self.now.tree) }
        ensures goes_on { OnOk result (
            StandsOn (V.state files.old) (V.state files.new) self.now.tuples) }
    {
        let indexes = self.indexes();
        let slot = next_slot(files, &self.tuples)?;
        if slot.number() >= 600 {
            return Err(Fail::new("there are too many rows"));
        }
        files.prepare(self.tuples.file, 0, 20)?;
        let rooms = prepare_all(files, tables, &indexes, tuple, slot)?;
        self.tuples.append(files, tuple)?;
        insert_all(files, tables, &indexes, &rooms, tuple, slot)?;
        Ok(())
    }
}

// The slot after the last row.
fn next_slot<V: Files>(files: &V, tuples: &Tuples) -> Result<SlotNo, Fail>
    requires { HoldsRows (V.state files.now) tuples.now }
    ensures next { IfOk result (λ slot. slot ≡ slots (V.state files.now).files tuples.now) }
{
    match SlotNo::new(tuples.count(files)) {
        Some(slot) => Ok(slot),
        None => Err(Fail::new("no slot")),
    }
}

fn attribute(name: &[u8], domain: Domain) -> Option<Attribute>
    ensures { IfSome result (λ a. a.domain ≡ domain) }
{
    Some(Attribute {
        name: Ident::new(name)?,
        domain,
    })
}

fn schema() -> Option<Schema>
    ensures { IfSome result (λ schema. AreOurs schema.attributes) }
{
    let mut attributes = Attributes::new();
    attributes.push(attribute(b"k", Domain::Int)?);
    attributes.push(attribute(b"l", Domain::Int)?);
    attributes.push(attribute(b"r", Domain::Int)?);
    attributes.push(attribute(b"s", Domain::Str(13))?);
    Some(Schema {
        name: Ident::new(b"t")?,
        attributes,
    })
}

/// A relation without rows, beside tables without keys.
pub fn make_relation<V: Files>(files: &mut V, tables: &HashTables) -> Result<Relation, Fail>
    requires idle { (V.state files.old).draft ≡ None }
    requires empty { entries tables.now First ≡ [] }
    ensures stands { IfOk result (λ r.
        IsStanding (V.state files.new) tables.now r.tuples r.tree) }
{
    let file = empty_file(files, Name::new(b"T0").ok_or("name")?)?;
    let tuples = Tuples {
        file,
        schema: schema().ok_or("name")?,
    };
    let tree = empty_tree(files, Name::new(b"X0").ok_or("name")?)?;
    if !tuples.valid(files, 2)? || tuples.count(files) != 0 {
        return Err(Fail::new("the file is not empty"));
    }
    Ok(Relation { tuples, tree })
}

// A new file with the tree of no key.
fn empty_tree<V: Files>(files: &mut V, name: Name) -> Result<FileId, Fail>
    requires idle { (V.state files.old).draft ≡ None }
    ensures live { IfOk result (λ id. IsLive (V.state files.new).files id) }
    ensures kind { IfOk result (λ id. (file_at (V.state files.new).files id).kind ≡ Doubling) }
    ensures new { IfOk result (λ id. place (V.state files.old).files id ≡ None) }
    ensures keeps { OnOk result (KeepsEachFile (V.state files.old) (V.state files.new)) }
{
    if !is_free(files, name) {
        return Err(Fail::new("there is no place for a file"));
    }
    files.draft(name, 683)?;
    files.draft_write(682, &[1])?;
    Ok(files.draft_commit()?)
}
