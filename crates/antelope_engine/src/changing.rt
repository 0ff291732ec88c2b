//! The commands that change relations, rows or indexes.

#![tactic(auto)]

ghost use Rattle.db_model.specs.Step.{Reads};
ghost use Rattle.session_model.specs.Carried.{Carries, Runs};
ghost use Rattle.session_model.specs.Queries.{IsWellFormed};

use afl_base::{Failed, Files};
use db_model::Command;
use session_indexes::{create_index, remove_index};
use session_model::{Answer, Base};
use session_relations::{create_attribute, create_relation, remove_relation};
use session_rows::{insert, pack, remove_from};

/// Carries out a command that changes more than a cursor.
pub fn change<V: Files>(base: &mut Base<V>, command: &Command) -> Result<Answer, Failed>
    requires running { Runs V.Files base.old }
    requires changes { Reads command.now → ⊥ }
    requires command { IsWellFormed command.now }
    ensures carried { Carries V.Files command.now base.old base.new result }
{
    match command {
        Command::CreateRelation { name } => create_relation(base, name),
        Command::CreateAttribute {
            name,
            domain,
            relation,
        } => create_attribute(base, name, domain, relation),
        Command::CreateIndex {
            relation,
            attribute,
            kind,
        } => create_index(base, relation, attribute, *kind),
        Command::Insert { values, relation } => insert(base, values, relation),
        Command::RemoveFrom {
            relation,
            condition,
        } => remove_from(base, relation, condition),
        Command::RemoveRelation { relation } => remove_relation(base, relation),
        Command::RemoveIndex {
            relation,
            attribute,
        } => remove_index(base, relation, attribute),
        Command::Pack { relation } => pack(base, relation),
        // No other command comes here.
        _ => unreachable!(),
    }
}
