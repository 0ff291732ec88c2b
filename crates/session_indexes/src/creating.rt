//! CREATE INDEX.

#![tactic(auto)]

ghost use Rattle.std.specs.Prelude.{◌≡◌, IfOk, IsTrue, OnOk, length};
ghost use Rattle.afl_base.specs.Keeping.{Changes};
ghost use Rattle.afl_base.specs.Causes.{HasCause};
ghost use Rattle.db_model.specs.declared.commands.Command.TheVariants as command;
ghost use Rattle.session_model.specs.Aheads.{aheads_of};
ghost use Rattle.session_model.specs.Answers.{OnNoSpace};
ghost use Rattle.session_model.specs.Carried.{Carries, Runs};
ghost use Rattle.session_model.specs.Running.{IsRunning};
ghost use Rattle.session_model.specs.Steps.{Answers};
ghost use Rattle.session_model.specs.View.{view};
ghost use Rattle.session_model.specs.Wanted.{WantsFew};

use crate::making::{NewIndex, make_index};
use crate::relations::relation_named;
use crate::sites::site_for;
use crate::slots::hold;
use afl_base::{Failed, FileError, Files};
use db_model::{Ident, IndexKind, Refusal};
use index_set::HashTables;
use session_model::{Answer, Base, Held, Indexed, Open};

/// Makes an index over all slots of a relation: a hash table is filled, a hash tree is built in a
/// draft.
// Not inlined, so that what builds a tree, 10 KB, is on the stack of no other command.
#[inline(never)]
pub fn create_index<V: Files>(
    base: &mut Base<V>,
    relation: &Ident,
    attribute: &Ident,
    kind: IndexKind,
) -> Result<Answer, Failed>
    requires running { Runs V.Files base.old }
    ensures carried { Carries V.Files (command.CreateIndex relation.now attribute.now kind)
        base.old base.new result }
{
    let cat = base.held.cat;
    let Some(found) = relation_named(&base.held, relation) else {
        return Ok(Answer::Refused(Refusal::NoRelation));
    };
    let site = match site_for(&base.held, found.0, found.1, attribute, kind) {
        Ok(site) => site,
        Err(refusal) => return Ok(Answer::Refused(refusal)),
    };
    // A relation without a catalog can be only where files do not tell their bytes.
    let Some(cat) = cat else {
        return Ok(Answer::Refused(Refusal::NoRelation));
    };
    let index = NewIndex { site: &site, kind };
    match make_index(
        &mut base.files,
        &mut base.tables,
        &base.held,
        cat,
        found.1,
        &index,
    ) {
        Ok(Ok(access)) => {
            let indexed = Indexed {
                relation: site.relation,
                attribute: site.attribute,
                access,
            };
            hold(&mut base.held, site.slot, Some(indexed));
            Ok(Answer::Fine)
        }
        Ok(Err(refusal)) => Ok(Answer::Refused(refusal)),
        Err(FileError::Space { need }) => Ok(Answer::NoSpace(need)),
        Err(FileError::Failed) => Err(Failed),
    }
}
