//! The results of steps.

#![tactic(auto)]

ghost use Rattle.std.specs.Prelude.{◌≡◌, Some, slice_get};
ghost use Rattle.std.specs.Ordering.{int_cmp};
ghost use Rattle.db_model.specs.Item as item;
ghost use Rattle.lvm.specs.Evaluate as spec;
ghost use Rattle.lvm.specs.Lent.{item_of};

use crate::arithmetic::calculated;
use crate::instruction::Arithmetic;
use db_model::{Compare, Tuple, Value};
use std::cmp::Ordering;

/// A result: a number, which may be undefined, a text, which is lent, or a truth value.
#[derive(Clone, Copy, Default)]
pub enum Item<'a> {
    #[default]
    Undefined,
    Number(i64),
    Text(&'a [u8]),
    Truth(bool),
}

/// The value of the attribute at a place, undefined where there is none.
pub fn item_at<'a>(tuple: &'a Tuple, at: u8) -> Item<'a>
    ensures { item_of result ≡ spec.item_of_value (slice_get tuple.now at) }
{
    match tuple.as_slice().get(usize::from(at)) {
        Some(Value::Number(number)) => Item::Number(*number),
        Some(Value::Text(text)) => Item::Text(text.bytes()),
        None => Item::Undefined,
    }
}

/// Two items under a sign.
pub fn calculation<'a>(sign: Arithmetic, a: Item<'a>, b: Item<'a>) -> Item<'a>
    ensures { item_of result ≡ spec.calculation sign (item_of a.entry) (item_of b.entry) }
{
    match (a, b) {
        (Item::Number(x), Item::Number(y)) => number_or_undefined(calculated(sign, x, y)),
        _ => Item::Undefined,
    }
}

fn number_or_undefined<'a>(number: Option<i64>) -> Item<'a>
    ensures { item_of result ≡ spec.Number number }
{
    match number {
        Some(number) => Item::Number(number),
        None => Item::Undefined,
    }
}

/// Whether two items compare so. With an undefined one none does.
pub fn comparison(how: Compare, a: Item<'_>, b: Item<'_>) -> bool
    ensures { result ≡ spec.item_comparison how (item_of a.entry) (item_of b.entry) }
{
    match (a, b) {
        (Item::Number(x), Item::Number(y)) => numbers_compare(how, x, y),
        (Item::Text(x), Item::Text(y)) => satisfies(how, x.cmp(y)),
        _ => false,
    }
}

/// Whether an item compares so with a number: none does that is no number.
pub fn compares_with(how: Compare, item: Item<'_>, number: i64) -> bool
    ensures { result ≡ spec.item_comparison how (item_of item.entry) (spec.Number (Some number)) }
{
    match item {
        Item::Number(x) => numbers_compare(how, x, number),
        _ => false,
    }
}

/// Whether two numbers compare so.
pub fn numbers_compare(how: Compare, x: i64, y: i64) -> bool
    ensures { result ≡ item.satisfies how (int_cmp x y) }
{
    match how {
        Compare::Eq => x.cmp(&y).is_eq(),
        Compare::Ne => x.cmp(&y).is_ne(),
        Compare::Lt => x.cmp(&y).is_lt(),
        Compare::Le => x.cmp(&y).is_le(),
        Compare::Gt => x.cmp(&y).is_gt(),
        Compare::Ge => x.cmp(&y).is_ge(),
    }
}

fn satisfies(how: Compare, order: Ordering) -> bool
    ensures { result ≡ item.satisfies how order }
{
    match how {
        Compare::Eq => order.is_eq(),
        Compare::Ne => order.is_ne(),
        Compare::Lt => order.is_lt(),
        Compare::Le => order.is_le(),
        Compare::Gt => order.is_gt(),
        Compare::Ge => order.is_ge(),
    }
}

/// Whether it is true.
pub fn is_true(item: Item<'_>) -> bool
    ensures { result ≡ spec.is_true (item_of item.entry) }
{
    matches!(item, Item::Truth(true))
}
