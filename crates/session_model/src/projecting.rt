//! The values of a query's list.

#![tactic(auto)]

ghost use Rattle.std.specs.Prelude.{◌≡◌, pos, get_or};
ghost use Rattle.db_model.specs.declared.values.Value.TheVariants.{Number};
ghost use Rattle.session_model.specs.View.{project, project_pair, value_of_side};

use crate::held::Side;
use db_model::{Few, Tuple, Value};

/// Puts the values at these places of a tuple into `into`.
pub fn project(places: &Few<u8, 8>, tuple: &Tuple, into: &mut Tuple)
    ensures { into.new ≡ project places.now tuple.now }
{
    into.clear();
    for place in places.as_slice() {
        into.push(value_at(tuple, *place));
    }
}

/// Puts the values at these places of a pair of tuples into `into`.
pub fn project_pair(places: &Few<Side, 8>, left: &Tuple, right: &Tuple, into: &mut Tuple)
    ensures { into.new ≡ project_pair places.now (left.now, right.now) }
{
    into.clear();
    for side in places.as_slice() {
        into.push(value_in(left, right, side));
    }
}

fn value_in(left: &Tuple, right: &Tuple, side: &Side) -> Value
    ensures { result ≡ value_of_side (left.now, right.now) side.now }
{
    match side {
        Side::Left(place) => value_at(left, *place),
        Side::Right(place) => value_at(right, *place),
    }
}

fn value_at(tuple: &Tuple, place: u8) -> Value
    ensures { result ≡ get_or tuple.now place (Number (pos 0)) }
{
    match tuple.as_slice().get(place as usize) {
        Some(value) => *value,
        None => Value::Number(0),
    }
}
