//! CREATE ATTRIBUTE.

#![tactic(auto)]

ghost use Rattle.std.specs.Prelude.{◌≡◌, ◌*◌, ◌<◌, ℕ, List, Option, [], Err, IfErr, IfOk, IfSome, IsErrOf, IsSome, IsTrue, None, Ok, OnOk, Some, get_or, length};
ghost use Rattle.afl_base.specs.CutFiles.{CutLeaves};
ghost use Rattle.afl_base.specs.Keeping.{ChangesOrLacks};
ghost use Rattle.afl_base.specs.FileErrors.{OnSpace, WhereFailed};
ghost use Rattle.afl_base.specs.Files.{KeepsBytes};
ghost use Rattle.afl_base.specs.Sparing.{SparesWhere};
ghost use Rattle.catalog.specs.CatalogFile.{PutsRelation};
ghost use Rattle.db_model.specs.declared.commands.Command.TheVariants as command;
ghost use Rattle.db_model.specs.Catalog.{IsDomain};
ghost use Rattle.db_model.specs.Database.{Database, Relation, with_relation};
ghost use Rattle.db_model.specs.Names.{is_name};
ghost use Rattle.db_model.specs.Sound.{IsSoundDatabase};
ghost use Rattle.db_model.specs.Row.{Row};
ghost use Rattle.db_model.specs.Step.{Fine, add_attribute, domain_asked};
ghost use Rattle.db_model.specs.Typing.{is_attribute};
ghost use Rattle.session_model.specs.Carried.{Carries, IsEither, Runs};
ghost use Rattle.session_model.specs.Frames.{AsksNoExtent};
ghost use Rattle.session_model.specs.Running.{HasCatalogFile, IsRunning};
ghost use Rattle.session_model.specs.View.{view};
ghost use Rattle.session_relations.specs.Changes.{AsksRelationSlot, Grows, IsLonger, MayPutSlot, Shows, changed_at};
ghost use Rattle.stored.specs.Mends.{MendsToDatabase};
ghost use Rattle.tuple_file.specs.declared.tuples.Tuples.{Tuples as AnyTuples};
ghost use Rattle.tuple_file.specs.Tuples.{HoldsRows, rows};

use crate::finding::{Place, find_place};
use afl_base::{Failed, FileError, Files};
use catalog::put_relation;
use db_model::{Attribute, Domain, DomainAsked, Ident, Pool, Refusal, Schema, row_length};
use index_set::HashTables;
use session_model::{Answer, Base, Held, Open, prepare_catalog};
use tuple_file::Tuples;

/// Puts an attribute after the others of a relation that has no slots.
// Not inlined, so that its schemas are on the stack of no other command.
#[inline(never)]
pub fn create_attribute<V: Files>(
    base: &mut Base<V>,
    name: &Ident,
    domain: &DomainAsked,
    relation: &Ident,
) -> Result<Answer, Failed>
    requires running { Runs V.Files base.old }
    ensures carried { Carries V.Files (command.CreateAttribute name.now domain.now relation.now)
        base.old base.new result }
{
    let at = match find_place(&base.held, relation) {
        Some(at) => at,
        None => return Ok(Answer::Refused(Refusal::NoRelation)),
    };
    let grown = match grown_at(&base.files, &base.held, &at, name, domain) {
        Ok(grown) => grown,
        Err(refusal) => return Ok(Answer::Refused(refusal)),
    };
    match grow_relation(
        &mut base.files,
        &base.tables,
        &mut base.held,
        &base.opens[..],
        &at,
        grown,
    ) {
        Ok(()) => Ok(Answer::Fine),
        Err(FileError::Space { need }) => Ok(Answer::NoSpace(need)),
        Err(FileError::Failed) => Err(Failed),
    }
}

// The relation in a slot with one attribute more, or why there is to be none.
fn grown_at<V: Files>(
    files: &V,
    held: &Held,
    at: &Place,
    name: &Ident,
    domain: &DomainAsked,
) -> Result<Tuples, Refusal>
    requires eight { length held.now.relations ≡ 8 }
    requires there { IsSome (get_or held.now.relations at.now.slot None) }
    requires holds { (t : AnyTuples) → get_or held.now.relations at.now.slot None ≡ Some t
        → HoldsRows (V.state files.now) t }
    ensures grows { IfOk result (λ grown.
        Grows (V.state files.now).files held.now at.now.slot grown) }
    ensures made { IfOk result (λ grown. (db : Database) (t : AnyTuples)
        → get_or held.now.relations at.now.slot None ≡ Some t
        → add_attribute name.now domain.now at.now.slot db
        (record { schema = t.schema; rows = rows (V.state files.now).files t })
        ≡ Ok (record { schema = grown.schema; rows = [] }, Fine)) }
    ensures named { OnOk result (IsTrue (is_name name.now)) }
    ensures refused { IfErr result (λ refusal. (db : Database) (t : AnyTuples)
        → get_or held.now.relations at.now.slot None ≡ Some t
        → add_attribute name.now domain.now at.now.slot db
        (record { schema = t.schema; rows = rows (V.state files.now).files t }) ≡ Err refusal) }
{
    match &held.relations[at.slot.number() as usize] {
        Some(tuples) => Ok(with_attribute(tuples, tuples.count(files), name, domain)?),
        None => Err(Refusal::NoRelation),
    }
}

// A relation of this many slots with one attribute more, or why there is to be none.
fn with_attribute(
    tuples: &Tuples,
    slots: u16,
    name: &Ident,
    domain: &DomainAsked,
) -> Result<Tuples, Refusal>
    ensures longer { IfOk result (λ grown. IsLonger tuples.now grown) }
    ensures empty { OnOk result (slots ≡ 0) }
    ensures named { OnOk result (IsTrue (is_name name.now)) }
    ensures made { IfOk result (λ grown. (slot : ℕ) (db : Database) (rows : List Row)
        → length rows ≡ slots
        → add_attribute name.now domain.now slot db
        (record { schema = tuples.now.schema; rows = rows })
        ≡ Ok (record { schema = grown.schema; rows = rows }, Fine)) }
    ensures refused { IfErr result (λ refusal. (slot : ℕ) (db : Database) (rows : List Row)
        → length rows ≡ slots
        → add_attribute name.now domain.now slot db
        (record { schema = tuples.now.schema; rows = rows }) ≡ Err refusal) }
{
    if is_attribute(tuples.schema.attributes.as_slice(), name) {
        return Err(Refusal::Exists);
    }
    let Some(domain) = domain_asked(domain) else {
        return Err(Refusal::Domain);
    };
    if slots > 0 {
        return Err(Refusal::NotEmpty);
    }
    if tuples.schema.attributes.len() >= 8 {
        return Err(Refusal::Full {
            pool: Pool::Attributes,
            limit: 8,
        });
    }
    // its bytes are those of a NAME
    let _bytes = name.bytes();
    let mut grown = tuples.copy();
    grown.schema.attributes.push(Attribute {
        name: *name,
        domain,
    });
    if row_length(&grown.schema.attributes) > 128 {
        return Err(Refusal::Full {
            pool: Pool::RowBytes,
            limit: 128,
        });
    }
    Ok(grown)
}

// Whether one of the attributes has the name.
fn is_attribute(attributes: &[Attribute], name: &Ident) -> bool
    ensures { result ≡ is_attribute attributes.now name.now }
{
    for attribute in attributes {
        if attribute.name == *name {
            return true;
        }
    }
    false
}

// The domain that is asked for; a STRING has 1 to 32 bytes.
fn domain_asked(asked: &DomainAsked) -> Option<Domain>
    ensures domain { result ≡ domain_asked asked.now }
    ensures good { IfSome result IsDomain }
{
    match asked {
        DomainAsked::Int => Some(Domain::Int),
        DomainAsked::Long => Some(Domain::Long),
        DomainAsked::Time => Some(Domain::Time),
        DomainAsked::Str(n) => {
            if 1 <= *n && *n <= 32 {
                Some(Domain::Str(*n as u8))
            } else {
                None
            }
        }
    }
}

// Puts a relation with one attribute more into its slot.
fn grow_relation<V: Files>(
    files: &mut V,
    tables: &HashTables,
    held: &mut Held,
    opens: &[Option<Open>],
    at: &Place,
    grown: Tuples,
) -> Result<(), FileError>
    requires running { IsRunning (V.state files.old) tables.now held.old opens.now }
    requires cat { held.old.cat ≡ Some at.now.cat }
    requires grows { Grows (V.state files.old).files held.old at.now.slot grown }
    ensures made { let old = view (V.state files.old).files held.old opens.now in OnOk result
        (Shows (V.state files.old) (V.state files.new) tables.now held.new opens.now
        (changed_at old at.now.slot (Some (record { schema = grown.schema; rows = [] })))) }
    ensures kept { OnSpace result (λ _.
        Shows (V.state files.old) (V.state files.new) tables.now held.new opens.now
        (view (V.state files.old).files held.old opens.now)) }
    ensures held { OnSpace result (λ _. held.new ≡ held.old) }
    ensures asked { OnSpace result (λ need.
        AsksRelationSlot (V.asks files.new) (V.state files.new).files at.now.cat at.now.slot need) }
    ensures spares { let asks = AsksNoExtent (V.asks files.old) (V.state files.old).files at.now.cat in
        SparesWhere V.is_free (asks (176 * at.now.slot) 176) (V.state files.old) (V.state files.new) result }
    ensures cut { let old = view (V.state files.old).files held.old opens.now in
        let now : Relation = record { schema = grown.schema; rows = [] } in IsTrue V.cuts
        → IsTrue (V.state files.old).tells → IsSoundDatabase old
        → IsSoundDatabase (changed_at old at.now.slot (Some now)) → IsErrOf result FileError.Failed
        → MendsToDatabase V.mends (V.state files.new).store
        (IsEither old (with_relation old at.now.slot (Some now))) }
    ensures frame { ChangesOrLacks V.state V.lent V.reads V.faults V.lacks files.old files.new result }
{
    put_slot(files, at, &grown.schema)?;
    held.relations[at.slot.number() as usize] = Some(grown);
    held.version = 2;
    Ok(())
}

// Puts a schema into its slot of the catalog, where there is room for it.
fn put_slot<V: Files>(files: &mut V, at: &Place, schema: &Schema) -> Result<(), FileError>
    requires idle { (V.state files.old).draft ≡ None }
    requires catalog { HasCatalogFile (V.state files.old).files (Some at.now.cat) }
    ensures put { OnOk result
        (PutsRelation (V.state files.old) (V.state files.new) at.now.cat at.now.slot
        (Some schema.now)) }
    ensures kept { OnSpace result (λ _.
        KeepsBytes (V.state files.old) (V.state files.new) at.now.cat) }
    ensures asked { OnSpace result (λ need.
        AsksRelationSlot (V.asks files.new) (V.state files.new).files at.now.cat at.now.slot need) }
    ensures spares { let asks = AsksNoExtent (V.asks files.old) (V.state files.old).files at.now.cat in
        SparesWhere V.is_free (asks (176 * at.now.slot) 176) (V.state files.old) (V.state files.new) result }
    ensures cut { CutLeaves V.cuts V.mends V.state files.old files.new (WhereFailed result)
        (λ after. MayPutSlot (V.state files.old) after at.now.cat at.now.slot (Some schema.now)) }
    ensures frame { ChangesOrLacks V.state V.lent V.reads V.faults V.lacks files.old files.new result }
{
    prepare_catalog(files, at.cat, 176 * u32::from(at.slot.number()), 176)?;
    put_relation(files, at.cat, at.slot, schema)?;
    Ok(())
}
