//! A JOIN of two relations.

#![tactic(auto)]

ghost use Rattle.std.specs.Prelude.{◌≡◌, ◌≤◌, Ok, Err, None, Some, IfErr, IfOk, OnOk, length, map};
ghost use Rattle.cursor.specs.Pairs.{matching};
ghost use Rattle.db_model.specs.Database.{Relation};
ghost use Rattle.db_model.specs.Item.{place_of};
ghost use Rattle.db_model.specs.Step.{join_of, joins};
ghost use Rattle.db_model.specs.Typing.{first_false};
ghost use Rattle.session_model.specs.View.{project_pair};
ghost use Rattle.session_plans.specs.Places as all;
ghost use Rattle.session_plans.specs.Places.{AreWhole, is_on_either};

use crate::naming::place_of;
use db_model::{Attribute, Domain, Few, Ident, Idents, Refusal, Schema};
use session_model::Side;

/// The places of a list's attributes on either side, and those of the ON attribute.
#[derive(Drop)]
pub struct JoinPlan {
    pub places: Few<Side, 8>,
    pub left_on: u8,
    pub right_on: u8,
}

/// What a JOIN asks of two relations of these schemas, or how it is refused.
pub fn plan_join(
    on: &Ident,
    list: &Idents,
    left: &Schema,
    right: &Schema,
) -> Result<JoinPlan, Refusal>
    ensures rows { IfOk result (λ plan. (l r : Relation) → l.schema ≡ left.now → r.schema ≡ right.now
        → AreWhole left.now.attributes l.rows → join_of on.now list.now l r
        ≡ Ok (map (project_pair plan.places) (matching plan.left_on plan.right_on l.rows r.rows))) }
    ensures left_on { IfOk result (λ plan. place_of on.now left.now.attributes ≡ Some plan.left_on) }
    ensures right_on { IfOk result (λ plan. place_of on.now right.now.attributes ≡ Some plan.right_on) }
    ensures refused { IfErr result (λ refusal. (l r : Relation) → l.schema ≡ left.now
        → r.schema ≡ right.now → join_of on.now list.now l r ≡ Err refusal) }
{
    let lefts = left.attributes.as_slice();
    let rights = right.attributes.as_slice();
    let left_on = match place_of(on, lefts) {
        Some(place) => place,
        None => return Err(Refusal::NoAttribute { nth: 1 }),
    };
    let right_on = match place_of(on, rights) {
        Some(place) => place,
        None => return Err(Refusal::NoAttribute { nth: 1 }),
    };
    let places = match sides_of(list.as_slice(), lefts, rights) {
        Ok(places) => places,
        Err(nth) => return Err(Refusal::NoAttribute { nth }),
    };
    if !are_joined(
        &lefts[left_on as usize].domain,
        &rights[right_on as usize].domain,
    ) {
        return Err(Refusal::IllTyped { nth: 1 });
    }
    Ok(JoinPlan {
        places,
        left_on,
        right_on,
    })
}

// Both are texts, or both are numbers.
fn are_joined(a: &Domain, b: &Domain) -> bool
    ensures { result ≡ joins (Some a.now) (Some b.now) }
{
    matches!(a, Domain::Str(_)) == matches!(b, Domain::Str(_))
}

// Where the attribute of this name is: on the left, else on the right.
fn side_of(name: &Ident, left: &[Attribute], right: &[Attribute]) -> Option<Side>
    requires left { length left.now ≤ 8 }
    requires right { length right.now ≤ 8 }
    ensures { result ≡ all.side_of left.now right.now name.now }
{
    match place_of(name, left) {
        Some(place) => Some(Side::Left(place)),
        None => match place_of(name, right) {
            Some(place) => Some(Side::Right(place)),
            None => None,
        },
    }
}

// Where the attributes of these names are, or the number of the first that is none. The ON name is
// the first, and these come after it.
fn sides_of(names: &[Ident], left: &[Attribute], right: &[Attribute]) -> Result<Few<Side, 8>, u8>
    requires few { length names.now ≤ 8 }
    requires left { length left.now ≤ 8 }
    requires right { length right.now ≤ 8 }
    ensures sides { IfOk result (λ sides. all.sides_of left.now right.now names.now ≡ Some sides) }
    ensures known { OnOk result (first_false 1 (map (is_on_either left.now right.now) names.now) ≡ None) }
    ensures missing { IfErr result (λ nth.
        first_false 1 (map (is_on_either left.now right.now) names.now) ≡ Some nth) }
{
    let mut sides = Few::new();
    for (at, name) in names.iter().enumerate() {
        let Some(side) = side_of(name, left, right) else {
            return Err(at as u8 + 2);
        };
        sides.push(side);
    }
    Ok(sides)
}
