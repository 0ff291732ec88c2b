//! The command of tokens of which it is known that they spell one: each place tells its part.
//!
//! A command is put where an earlier one was; false comes only where the tokens spell none, and
//! then nothing is said of what stands there. Each kind is made in a function of its own, which is not
//! inlined, so that no other fills a place on the stack for it.

#![tactic(auto)]

ghost use Rattle.std.specs.Prelude.{◌≡◌, Some};
ghost use Rattle.aql_parse.specs.Built.{aggregate_read, attribute_read, close_of, command_of, create_of, domain_read, fetch_of, index_of, built_insert, insert_of, join_read, joined_of, made, open_of, pack_of, projected_tokens, query_of, relation_in, remove_of, select_of, selection_of, unindex_of};

use crate::lists::{aggregates_in, names_in, relation_in, values_in};
use crate::parts::{kind_at, name_at, number_at, token_name};
use db_model::{Command, Condition, DomainAsked, Ident, Idents, Keyword, Query, Token, Tuple};
use std::mem;

/// Puts the command of its tokens and the nodes of its condition, which are taken.
pub fn command_of(tokens: &[Token], nodes: &mut Condition, command: &mut Command) -> bool
    ensures { made result command.new ≡ command_of tokens.now nodes.old }
{
    match tokens {
        [Token::Word(Keyword::KCREATE), rest @ ..] => create_of(rest, command),
        [Token::Word(Keyword::KINSERT), rest @ ..] => insert_of(rest, command),
        [Token::Word(Keyword::KSELECT), rest @ ..] => selection_of(rest, nodes, command),
        [Token::Word(Keyword::KJOIN), rest @ ..] => joined_of(rest, command),
        [Token::Word(Keyword::KREMOVE), rest @ ..] => remove_of(rest, nodes, command),
        [Token::Word(Keyword::KPACK), rest @ ..] => pack_of(rest, command),
        [Token::Word(Keyword::KOPEN), rest @ ..] => open_of(rest, nodes, command),
        [Token::Word(Keyword::KFETCH), rest @ ..] => fetch_of(rest, command),
        [Token::Word(Keyword::KCLOSE), rest @ ..] => close_of(rest, command),
        _ => false,
    }
}

#[inline(never)]
fn joined_of(tokens: &[Token], command: &mut Command) -> bool
    ensures { made result command.new ≡ joined_of tokens.now }
{
    let Some(query) = join_of(tokens) else {
        return false;
    };
    *command = Command::Ask(query);
    true
}

#[inline(never)]
fn pack_of(tokens: &[Token], command: &mut Command) -> bool
    ensures { made result command.new ≡ pack_of tokens.now }
{
    let Some(relation) = name_at(tokens, 0) else {
        return false;
    };
    *command = Command::Pack { relation };
    true
}

#[inline(never)]
fn fetch_of(tokens: &[Token], command: &mut Command) -> bool
    ensures { made result command.new ≡ fetch_of tokens.now }
{
    let Some(number) = number_at(tokens, 0) else {
        return false;
    };
    *command = Command::FetchCursor { number };
    true
}

#[inline(never)]
fn close_of(tokens: &[Token], command: &mut Command) -> bool
    ensures { made result command.new ≡ close_of tokens.now }
{
    let Some(number) = number_at(tokens, 0) else {
        return false;
    };
    *command = Command::CloseCursor { number };
    true
}

#[inline(never)]
fn create_of(tokens: &[Token], command: &mut Command) -> bool
    ensures { made result command.new ≡ create_of tokens.now }
{
    match tokens {
        [Token::Word(Keyword::KRELATION), rest @ ..] => match name_at(rest, 0) {
            Some(name) => {
                *command = Command::CreateRelation { name };
                true
            }
            None => false,
        },
        [Token::Word(Keyword::KATTRIBUTE), rest @ ..] => attribute_of(rest, command),
        [Token::Word(Keyword::KINDEX), rest @ ..] => index_of(rest, command),
        _ => false,
    }
}

// NAME DOMAIN domain IN NAME.
fn attribute_of(tokens: &[Token], command: &mut Command) -> bool
    ensures { made result command.new ≡ attribute_read tokens.now }
{
    let [name, _, rest @ ..] = tokens else {
        return false;
    };
    let Some(name) = token_name(name) else {
        return false;
    };
    let Some(domain) = domain_of(rest) else {
        return false;
    };
    let Some(relation) = relation_in(rest) else {
        return false;
    };
    *command = Command::CreateAttribute {
        name,
        domain,
        relation,
    };
    true
}

fn domain_of(tokens: &[Token]) -> Option<DomainAsked>
    ensures { result ≡ domain_read tokens.now }
{
    match tokens {
        [Token::Word(Keyword::KINT), ..] => Some(DomainAsked::Int),
        [Token::Word(Keyword::KLONG), ..] => Some(DomainAsked::Long),
        [Token::Name(_), ..] => Some(DomainAsked::Time),
        [Token::Word(Keyword::KSTRING), rest @ ..] => {
            let length = number_at(rest, 1)?;
            Some(DomainAsked::Str(length))
        }
        _ => None,
    }
}

// NAME . NAME TYPE kind.
fn index_of(tokens: &[Token], command: &mut Command) -> bool
    ensures { made result command.new ≡ index_of tokens.now }
{
    let Some(relation) = name_at(tokens, 0) else {
        return false;
    };
    let Some(attribute) = name_at(tokens, 2) else {
        return false;
    };
    let Some(kind) = kind_at(tokens, 4) else {
        return false;
    };
    *command = Command::CreateIndex {
        relation,
        attribute,
        kind,
    };
    true
}

#[inline(never)]
fn remove_of(tokens: &[Token], nodes: &mut Condition, command: &mut Command) -> bool
    ensures { made result command.new ≡ remove_of tokens.now nodes.old }
{
    match tokens {
        [Token::Word(Keyword::KFROM), rest @ ..] => match name_at(rest, 0) {
            Some(relation) => {
                *command = Command::RemoveFrom {
                    relation,
                    condition: mem::take(nodes),
                };
                true
            }
            None => false,
        },
        [Token::Word(Keyword::KRELATION), rest @ ..] => match name_at(rest, 0) {
            Some(relation) => {
                *command = Command::RemoveRelation { relation };
                true
            }
            None => false,
        },
        [Token::Word(Keyword::KINDEX), rest @ ..] => unindex_of(rest, command),
        _ => false,
    }
}

// NAME . NAME.
fn unindex_of(tokens: &[Token], command: &mut Command) -> bool
    ensures { made result command.new ≡ unindex_of tokens.now }
{
    let Some(relation) = name_at(tokens, 0) else {
        return false;
    };
    let Some(attribute) = name_at(tokens, 2) else {
        return false;
    };
    *command = Command::RemoveIndex {
        relation,
        attribute,
    };
    true
}

#[inline(never)]
fn insert_of(tokens: &[Token], command: &mut Command) -> bool
    ensures { made result command.new ≡ insert_of tokens.now }
{
    let Some(relation) = relation_in(tokens) else {
        return false;
    };
    insert_into(tokens, relation, command)
}

/// Puts the INSERT of the values among the tokens. They go where those of an earlier INSERT were.
pub fn insert_into(tokens: &[Token], relation: Ident, command: &mut Command) -> bool
    ensures { made result command.new ≡ built_insert tokens.now relation }
{
    match command {
        Command::Insert {
            values,
            relation: into,
        } => {
            *into = relation;
            values_in(tokens, values)
        }
        _ => first_insert_into(tokens, relation, command),
    }
}

// After a command of another kind.
fn first_insert_into(tokens: &[Token], relation: Ident, command: &mut Command) -> bool
    ensures { made result command.new ≡ built_insert tokens.now relation }
{
    let mut values = Tuple::new();
    let fits = values_in(tokens, &mut values);
    *command = Command::Insert { values, relation };
    fits
}

// Names or aggregates, after SELECT.
#[inline(never)]
fn selection_of(tokens: &[Token], nodes: &mut Condition, command: &mut Command) -> bool
    ensures { made result command.new ≡ selection_of tokens.now nodes.old }
{
    match tokens {
        [Token::Name(_), ..] => match select_of(tokens, nodes) {
            Some(query) => {
                *command = Command::Ask(query);
                true
            }
            None => false,
        },
        _ => aggregate_of(tokens, nodes, command),
    }
}

fn select_of(tokens: &[Token], nodes: &mut Condition) -> Option<Query>
    ensures { result ≡ select_of tokens.now nodes.old }
{
    let relation = relation_in(tokens)?;
    let list = names_in(tokens)?;
    Some(Query::Select {
        list,
        relation,
        condition: mem::take(nodes),
    })
}

fn aggregate_of(tokens: &[Token], nodes: &mut Condition, command: &mut Command) -> bool
    ensures { made result command.new ≡ aggregate_read tokens.now nodes.old }
{
    let Some(relation) = relation_in(tokens) else {
        return false;
    };
    let Some(list) = aggregates_in(tokens) else {
        return false;
    };
    *command = Command::Aggregate {
        list,
        relation,
        condition: mem::take(nodes),
    };
    true
}

// NAME , NAME ON NAME PROJECT NAME {, NAME}.
fn join_of(tokens: &[Token]) -> Option<Query>
    ensures { result ≡ join_read tokens.now }
{
    let left = name_at(tokens, 0)?;
    let right = name_at(tokens, 2)?;
    let on = name_at(tokens, 4)?;
    let list = projected(tokens)?;
    Some(Query::Join {
        left,
        right,
        on,
        list,
    })
}

fn projected(tokens: &[Token]) -> Option<Idents>
    ensures { result ≡ projected_tokens tokens.now }
{
    if tokens.len() < 6 {
        return None;
    }
    names_in(&tokens[6..])
}

fn query_of(tokens: &[Token], nodes: &mut Condition) -> Option<Query>
    ensures { result ≡ query_of tokens.now nodes.old }
{
    match tokens {
        [Token::Word(Keyword::KSELECT), rest @ ..] => select_of(rest, nodes),
        [Token::Word(Keyword::KJOIN), rest @ ..] => join_of(rest),
        _ => None,
    }
}

// NUMBER query.
#[inline(never)]
fn open_of(tokens: &[Token], nodes: &mut Condition, command: &mut Command) -> bool
    ensures { made result command.new ≡ open_of tokens.now nodes.old }
{
    match tokens {
        [Token::Number(number), rest @ ..] => match query_of(rest, nodes) {
            Some(query) => {
                *command = Command::OpenCursor {
                    number: *number,
                    query,
                };
                true
            }
            None => false,
        },
        _ => false,
    }
}
