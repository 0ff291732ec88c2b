//! REMOVE INDEX.

#![tactic(auto)]

ghost use Rattle.std.specs.Prelude.{◌≡◌, ◌+◌, ◌*◌, Err, IfErr, IfOk, None, OnOk, Some, length};
ghost use Rattle.afl_base.specs.CutFiles.{CutLeaves};
ghost use Rattle.afl_base.specs.Keeping.{ChangesOrLacks};
ghost use Rattle.afl_base.specs.FileErrors.{OnSpace, WhereFailed};
ghost use Rattle.afl_base.specs.Files.{KeepsBytes, Table};
ghost use Rattle.afl_base.specs.Sparing.{SparesWhere};
ghost use Rattle.db_model.specs.Step.{remove_index};
ghost use Rattle.db_model.specs.declared.commands.Command.TheVariants as command;
ghost use Rattle.session_model.specs.Cells.{cell_from};
ghost use Rattle.session_model.specs.Carried.{Carries, Runs};
ghost use Rattle.session_model.specs.Frames.{AsksNoExtent};
ghost use Rattle.session_model.specs.Running.{HasCatalogFile, HasFile};
ghost use Rattle.session_model.specs.View.{view};
ghost use Rattle.session_indexes.specs.Made.{AsksIndexSlot};
ghost use Rattle.session_indexes.specs.Parts.{MayTakeIndexSlot};
ghost use Rattle.session_indexes.specs.Removed.{IsRemovable, IsTaken};

use crate::relations::relation_named;
use crate::sites::{place_of, slot_of};
use crate::slots::{clear_entry, hold};
use afl_base::{Failed, FileError, FileId, Files, IndexId, RelationId};
use db_model::{Ident, Refusal};
use index_set::{Access, HashTables};
use session_model::{Answer, Base, Held, Open, least_reader};
use tuple_file::Tuples;

/// An index in its slot, and by what it finds the slots of a key.
#[derive(Clone, Copy)]
pub struct Standing {
    pub slot: IndexId,
    pub access: Access,
}

// The index on an attribute, where no cursor reads the relation, or what refuses that it goes.
fn index_on(
    held: &Held,
    opens: &[Option<Open>],
    id: RelationId,
    tuples: &Tuples,
    relation: &Ident,
    attribute: &Ident,
) -> Result<Standing, Refusal>
    requires eight { length held.now.indexes ≡ 8 }
    requires four { length opens.now ≡ 4 }
    ensures stands { IfOk result (λ standing.
        IsRemovable held.now opens.now relation.now attribute.now id tuples.now standing) }
    ensures refused { IfErr result (λ refusal. (files : Table)
        → cell_from relation.now 0 held.now.relations ≡ Some (id, tuples.now)
        → remove_index (view files held.now opens.now) relation.now attribute.now ≡ Err refusal) }
{
    let Some(place) = place_of(&tuples.schema.attributes, attribute) else {
        return Err(Refusal::NoAttribute { nth: 1 });
    };
    let Some(slot) = slot_of(&held.indexes, id, place) else {
        return Err(Refusal::NoIndex);
    };
    if let Some(cursor) = least_reader(opens, relation) {
        return Err(Refusal::InUse { cursor });
    }
    match &held.indexes[slot.number() as usize] {
        Some(index) => Ok(Standing {
            slot,
            access: index.access,
        }),
        None => Err(Refusal::NoIndex),
    }
}

// Takes an index of the catalog away, and its tree's file, where it has one.
fn take_index<V: Files>(
    files: &mut V,
    cat: FileId,
    slot: IndexId,
    access: Access,
) -> Result<(), FileError>
    requires idle { (V.state files.old).draft ≡ None }
    requires catalog { HasCatalogFile (V.state files.old).files (Some cat) }
    requires file { HasFile (V.state files.old).files slot access }
    ensures taken { OnOk result (IsTaken (V.state files.old) (V.state files.new) cat slot) }
    ensures space { let old = V.state files.old in let new = V.state files.new in
        OnSpace result (λ need. KeepsBytes old new cat) }
    ensures asked { OnSpace result (λ need.
        AsksIndexSlot (V.asks files.new) (V.state files.new) cat slot need) }
    ensures spares { let asks = AsksNoExtent (V.asks files.old) (V.state files.old).files cat in
        SparesWhere V.is_free (asks (1408 + 8 * slot) 8) (V.state files.old) (V.state files.new) result }
    ensures cut { let old = V.state files.old in
        CutLeaves V.cuts V.mends V.state files.old files.new (WhereFailed result)
        (λ after. MayTakeIndexSlot old after cat slot) }
    ensures frame { ChangesOrLacks V.state V.lent V.reads V.faults V.lacks files.old files.new result }
{
    match clear_entry(files, cat, slot) {
        Ok(()) => {}
        Err(FileError::Space { need }) => return Err(FileError::Space { need }),
        Err(FileError::Failed) => return Err(FileError::Failed),
    }
    match access {
        Access::Tree(file) => {
            let Ok(()) = files.remove(file) else {
                return Err(FileError::Failed);
            };
            Ok(())
        }
        Access::Order => Ok(()),
        Access::Table(_) => Ok(()),
    }
}

/// Takes an index away: its slot first, and then its file, where it has one.
// Not inlined, so that what it keeps is on the stack of no other command.
#[inline(never)]
pub fn remove_index<V: Files>(
    base: &mut Base<V>,
    relation: &Ident,
    attribute: &Ident,
) -> Result<Answer, Failed>
    requires running { Runs V.Files base.old }
    ensures carried { Carries V.Files (command.RemoveIndex relation.now attribute.now)
        base.old base.new result }
{
    let cat = base.held.cat;
    let Some(found) = relation_named(&base.held, relation) else {
        return Ok(Answer::Refused(Refusal::NoRelation));
    };
    let standing = match index_on(
        &base.held,
        &base.opens[..],
        found.0,
        found.1,
        relation,
        attribute,
    ) {
        Ok(standing) => standing,
        Err(refusal) => return Ok(Answer::Refused(refusal)),
    };
    // A relation without a catalog can be only where files do not tell their bytes.
    let Some(cat) = cat else {
        return Ok(Answer::Refused(Refusal::NoRelation));
    };
    match take_index(&mut base.files, cat, standing.slot, standing.access) {
        Ok(()) => {
            hold(&mut base.held, standing.slot, None);
            Ok(Answer::Fine)
        }
        Err(FileError::Space { need }) => Ok(Answer::NoSpace(need)),
        Err(FileError::Failed) => Err(Failed),
    }
}
