//! A list of aggregates and a condition over one relation.

#![tactic(auto)]

ghost use Rattle.std.specs.Prelude.{◌≡◌, ◌≤◌, Ok, Err, None, Some, IfErr, IfOk, OnOk, length, map};
ghost use Rattle.db_model.specs.Answers.{selected};
ghost use Rattle.db_model.specs.Cond.{IsCondition, condition_of};
ghost use Rattle.db_model.specs.Database.{Relation};
ghost use Rattle.db_model.specs.Step.{Numbers, aggregate_of};
ghost use Rattle.db_model.specs.Typing as typing;
ghost use Rattle.db_model.specs.Typing.{first_false};
ghost use Rattle.lvm.specs.Code.{IsCodeOf};
ghost use Rattle.session_plans.specs.Aggregates.{AllSuitFolds, answers, medians, suits_fold};
ghost use Rattle.session_plans.specs.Places as all;
ghost use Rattle.session_plans.specs.Places.{is_named};
ghost use Rattle.db_model.specs.Cost.{is_median};
ghost use Rattle.std.specs.List.{list_any};

use crate::naming::place_of;
use db_model::{Agg, AggList, Attribute, Condition, Domain, Few, Ident, Refusal, Schema};
use lvm::Code;

/// The aggregates of a list, each with the place of its attribute, and the code of the condition.
#[derive(Drop)]
pub struct AggregatePlan {
    pub items: Few<(Agg, u8), 8>,
    pub code: Code,
}

/// What a SELECT of aggregates asks of a relation of this schema, or how it is refused.
pub fn plan_aggregates(
    list: &AggList,
    condition: &Condition,
    schema: &Schema,
) -> Result<AggregatePlan, Refusal>
    requires condition { IsCondition condition.now }
    ensures numbers { let tree = condition_of condition.now in IfOk result (λ plan. (r : Relation)
        → r.schema ≡ schema.now → aggregate_of list.now tree r
        ≡ Ok (Numbers (answers plan.items (selected schema.now.attributes tree r.rows)))) }
    ensures code { IfOk result (λ plan.
        IsCodeOf schema.now.attributes (condition_of condition.now) plan.code) }
    ensures suit { IfOk result (λ plan. AllSuitFolds schema.now.attributes plan.items) }
    ensures medians { IfOk result (λ plan. medians plan.items ≡ list_any is_median list.now) }
    ensures refused { IfErr result (λ refusal. (r : Relation) → r.schema ≡ schema.now
        → aggregate_of list.now (condition_of condition.now) r ≡ Err refusal) }
{
    let attributes = schema.attributes.as_slice();
    let items = match items_of(list.as_slice(), attributes) {
        Ok(items) => items,
        Err(nth) => return Err(Refusal::NoAttribute { nth }),
    };
    let unsuited = first_unsuited(items.as_slice(), attributes);
    let mut code = Code::none();
    if let Err(refusal) = code.compile(condition, schema, list.len() as u8) {
        return Err(first_of(unsuited, refusal));
    }
    match unsuited {
        None => Ok(AggregatePlan { items, code }),
        Some(nth) => Err(Refusal::IllTyped { nth }),
    }
}

// The aggregates with the places of their attributes, or the number of the first name that is none.
fn items_of(list: &[(Agg, Ident)], attributes: &[Attribute]) -> Result<Few<(Agg, u8), 8>, u8>
    requires few { length list.now ≤ 8 }
    requires attributes { length attributes.now ≤ 8 }
    ensures items { IfOk result (λ items. all.aggregates_at attributes.now list.now ≡ Some items) }
    ensures known { let are = map (is_named attributes.now) list.now in
        OnOk result (first_false 0 are ≡ None) }
    ensures missing { let are = map (is_named attributes.now) list.now in
        IfErr result (λ nth. first_false 0 are ≡ Some nth) }
{
    let mut items = Few::new();
    for (at, item) in list.iter().enumerate() {
        let Some(place) = place_of(&item.1, attributes) else {
            return Err(at as u8 + 1);
        };
        items.push((item.0, place));
    }
    Ok(items)
}

// The number of the first aggregate that may not be taken of its attribute.
fn first_unsuited(items: &[(Agg, u8)], attributes: &[Attribute]) -> Option<u8>
    requires few { length items.now ≤ 8 }
    ensures { result ≡ first_false 0 (map (suits_fold attributes.now) items.now) }
{
    for (at, item) in items.iter().enumerate() {
        if !is_suited(item.0, item.1, attributes) {
            return Some(at as u8 + 1);
        }
    }
    None
}

// Whether an aggregate may be taken of the attribute at a place.
fn is_suited(agg: Agg, place: u8, attributes: &[Attribute]) -> bool
    ensures { result ≡ suits_fold attributes.now (agg, place) }
{
    match attributes.get(place as usize) {
        None => false,
        Some(attribute) => aggregates(agg, &attribute.domain),
    }
}

// Whether an aggregate may be taken of the values of a domain.
fn aggregates(agg: Agg, domain: &Domain) -> bool
    ensures { result ≡ typing.aggregates agg domain.now }
{
    match (agg, domain) {
        (Agg::Count, _) => true,
        (_, Domain::Str(_)) => false,
        (Agg::Median, Domain::Time) => false,
        _ => true,
    }
}

// The aggregates of the list come before the comparisons of the condition, and after all names.
fn first_of(unsuited: Option<u8>, refusal: Refusal) -> Refusal
    ensures { result ≡ all.first_of unsuited refusal }
{
    match (unsuited, refusal) {
        (Some(nth), Refusal::IllTyped { .. }) => Refusal::IllTyped { nth },
        (_, refusal) => refusal,
    }
}
