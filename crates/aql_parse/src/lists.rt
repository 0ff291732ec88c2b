//! The lists in the head of a command, and the relation after them.

#![tactic(auto)]

ghost use Rattle.std.specs.Prelude.{◌≡◌, false};
ghost use Rattle.aql_parse.specs.Built.{aggregates_in, at_most_8, made, name_tokens, relation_in, values_in};

use crate::parts::{introduces, is_from, is_minus, name_at, token_agg, token_name, token_value};
use db_model::{AggList, Ident, Idents, Token, Tuple};

/// The names up to FROM, or to the end; None where there are more than 8.
pub fn names_in(tokens: &[Token]) -> Option<Idents>
    ensures { result ≡ at_most_8 (name_tokens tokens.now) }
{
    let mut list = Idents::new();
    for token in tokens {
        if is_from(token) {
            return Some(list);
        }
        if let Some(name) = token_name(token) {
            if list.len() == 8 {
                return None;
            }
            list.push(name);
        }
    }
    Some(list)
}

/// Puts the values to the end in place of those that were there; false where there are more than 8.
pub fn values_in(tokens: &[Token], list: &mut Tuple) -> bool
    ensures { made result list.new ≡ at_most_8 (values_in false tokens.now) }
{
    list.clear();
    let mut negative = false;
    for token in tokens {
        if let Some(value) = token_value(negative, token) {
            if list.len() == 8 {
                return false;
            }
            list.push(value);
        }
        negative = is_minus(token);
    }
    true
}

/// The aggregates up to FROM, each with its name; None where there are more than 8.
pub fn aggregates_in(tokens: &[Token]) -> Option<AggList>
    ensures { result ≡ at_most_8 (aggregates_in tokens.now) }
{
    let mut list = AggList::new();
    for (i, token) in tokens.iter().enumerate() {
        if is_from(token) {
            return Some(list);
        }
        if let Some(agg) = token_agg(token) {
            if let Some(name) = name_at(&tokens[i + 1..], 1) {
                if list.len() == 8 {
                    return None;
                }
                list.push((agg, name));
            }
        }
    }
    Some(list)
}

/// The name after the first FROM, INTO or IN.
pub fn relation_in(tokens: &[Token]) -> Option<Ident>
    ensures { result ≡ relation_in tokens.now }
{
    for (i, token) in tokens.iter().enumerate() {
        if introduces(token) {
            return name_at(&tokens[i + 1..], 0);
        }
    }
    None
}
