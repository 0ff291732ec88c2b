//! A list of names and a condition over one relation.

#![tactic(auto)]

ghost use Rattle.std.specs.Prelude.{◌≡◌, Ok, Err, IfErr, IfOk, OnOk, [], map};
ghost use Rattle.db_model.specs.Answers.{selected};
ghost use Rattle.db_model.specs.Cond.{IsCondition, condition_of};
ghost use Rattle.db_model.specs.Database.{Relation};
ghost use Rattle.db_model.specs.Step.{select_from};
ghost use Rattle.lvm.specs.Code.{IsCodeOf};
ghost use Rattle.session_model.specs.View.{project};

use crate::naming::places_of;
use db_model::{Condition, Few, Idents, Refusal, Schema};
use lvm::Code;

/// The places of a list's attributes, and the code of the condition.
#[derive(Drop)]
pub struct SelectPlan {
    pub places: Few<u8, 8>,
    pub code: Code,
}

/// The places of a list's attributes in a relation of this schema, and in the place of the code of no
/// condition that of the condition; or how the SELECT is refused.
pub fn plan_select(
    list: &Idents,
    condition: &Condition,
    schema: &Schema,
    code: &mut Code,
) -> Result<Few<u8, 8>, Refusal>
    requires condition { IsCondition condition.now }
    requires empty { code.old ≡ [] }
    ensures rows { let tree = condition_of condition.now in IfOk result (λ places. (r : Relation)
        → r.schema ≡ schema.now → select_from list.now tree r
        ≡ Ok (map (project places) (selected schema.now.attributes tree r.rows))) }
    ensures code { OnOk result
        (IsCodeOf schema.now.attributes (condition_of condition.now) code.new) }
    ensures refused { IfErr result (λ refusal. (r : Relation)
        → r.schema ≡ schema.now → select_from list.now (condition_of condition.now) r ≡ Err refusal) }
{
    let places = match places_of(list.as_slice(), schema.attributes.as_slice()) {
        Ok(places) => places,
        Err(nth) => return Err(Refusal::NoAttribute { nth }),
    };
    if let Err(refusal) = code.compile(condition, schema, list.len() as u8) {
        return Err(refusal);
    }
    Ok(places)
}
