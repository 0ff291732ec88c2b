//! Values against attributes, and against the values of the last row.

#![tactic(auto)]

ghost use Rattle.std.specs.Prelude.{◌≡◌, ◌≤◌, ◌<◌, length};
ghost use Rattle.std.specs.List.{list_any};
ghost use Rattle.db_model.specs.Row.{suits};
ghost use Rattle.db_model.specs.Step.{fallen_from, unsuited, unsuited_from};
ghost use Rattle.session_rows.specs.Refused.{falls_at, falls_to, is_order, is_order_index, is_order_on, is_ordered_by, is_table_index};

use db_model::{Attribute, Domain, Tuple, Value};
use index_set::{Access, IndexInfo, Indexes};

/// The number of the first place at which values and attributes disagree.
pub(crate) fn unsuited(attributes: &[Attribute], values: &[Value]) -> Option<u8>
    requires few { length attributes.now ≤ 8 }
    requires short { length values.now ≤ 8 }
    ensures { result ≡ unsuited attributes.now values.now }
{
    if attributes.is_empty() {
        return Some(1);
    }
    unsuited_place(attributes, values)
}

fn unsuited_place(attributes: &[Attribute], values: &[Value]) -> Option<u8>
    requires few { length attributes.now ≤ 8 }
    requires short { length values.now ≤ 8 }
    ensures { result ≡ unsuited_from 0 attributes.now values.now }
{
    for at in 0..attributes.len() {
        if at == values.len() {
            return Some(at as u8 + 1);
        }
        if !suits(attributes[at].domain, &values[at]) {
            return Some(at as u8 + 1);
        }
    }
    if attributes.len() < values.len() {
        return Some(attributes.len() as u8 + 1);
    }
    None
}

fn suits(domain: Domain, value: &Value) -> bool
    ensures { result ≡ suits domain value.now }
{
    match (domain, value) {
        (Domain::Int, Value::Number(number)) => -32_768 <= *number && *number <= 32_767,
        (Domain::Long, Value::Number(number)) => {
            -2_147_483_648 <= *number && *number <= 2_147_483_647
        }
        (Domain::Time, Value::Number(number)) => 0 <= *number && *number <= 140_737_488_355_327,
        (Domain::Str(length), Value::Text(text)) => text.bytes().len() <= length as usize,
        (Domain::Int, Value::Text(_)) => false,
        (Domain::Long, Value::Text(_)) => false,
        (Domain::Time, Value::Text(_)) => false,
        (Domain::Str(_), Value::Number(_)) => false,
    }
}

/// Whether one of the indexes keeps its attribute in order.
pub(crate) fn has_order(indexes: &Indexes) -> bool
    ensures { result ≡ list_any is_order_index indexes.now }
{
    indexes.as_slice().iter().any(|info| is_order(info))
}

fn is_order(info: &IndexInfo) -> bool
    ensures { result ≡ is_order_index info.now }
{
    matches!(info.access, Access::Order)
}

/// Whether one of the indexes is a hash table.
pub(crate) fn has_table(indexes: &Indexes) -> bool
    ensures { result ≡ list_any is_table_index indexes.now }
{
    indexes.as_slice().iter().any(|info| is_table(info))
}

fn is_table(info: &IndexInfo) -> bool
    ensures { result ≡ is_table_index info.now }
{
    matches!(info.access, Access::Table(_))
}

/// The number of the last row at the first place that is kept in order and at which the new one is
/// less.
pub(crate) fn fallen(indexes: &Indexes, last: &[Value], values: &[Value]) -> Option<i64>
    requires few { length last.now ≤ 8 }
    requires short { length values.now ≤ 8 }
    ensures { result ≡ fallen_from (is_ordered_by indexes.now) 0 last.now values.now }
{
    for at in 0..last.len() {
        if at == values.len() {
            return None;
        }
        if let Some(number) = falls_at(indexes, at as u8, &last[at], &values[at]) {
            return Some(number);
        }
    }
    None
}

// The number at a place that is kept in order, where the one after it is less.
fn falls_at(indexes: &Indexes, place: u8, before: &Value, behind: &Value) -> Option<i64>
    ensures { result ≡ falls_at (is_ordered_by indexes.now) place before.now behind.now }
{
    if is_ordered(indexes, place) {
        falls_to(before, behind)
    } else {
        None
    }
}

fn is_ordered(indexes: &Indexes, place: u8) -> bool
    ensures { result ≡ is_ordered_by indexes.now place }
{
    indexes
        .as_slice()
        .iter()
        .any(|info| is_order_on(place, info))
}

fn is_order_on(place: u8, info: &IndexInfo) -> bool
    ensures { result ≡ is_order_on place info.now }
{
    is_order(info) && info.attribute == place
}

// The number, where the one after it is less.
fn falls_to(before: &Value, behind: &Value) -> Option<i64>
    ensures { result ≡ falls_to before.now behind.now }
{
    match (before, behind) {
        (Value::Number(a), Value::Number(b)) => { if *b < *a { Some(*a) } else { None } }
        (Value::Number(_), Value::Text(_)) => None,
        (Value::Text(_), Value::Number(_)) => None,
        (Value::Text(_), Value::Text(_)) => None,
    }
}
