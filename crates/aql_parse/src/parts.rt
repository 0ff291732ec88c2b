//! What single tokens are in the head of a command.

#![tactic(auto)]

ghost use Rattle.std.specs.Prelude.{◌≡◌};
ghost use Rattle.aql_parse.specs.Built.{introduces, is_from, is_minus, kind_at, name_token_at, number_token_at, token_agg, token_kind, token_name, token_number, token_value};

use crate::conditions::minus;
use db_model::{Agg, Ident, IndexKind, Keyword, Sign, Token, Value};

pub fn token_name(token: &Token) -> Option<Ident>
    ensures { result ≡ token_name token.now }
{
    match token {
        Token::Name(name) => Some(*name),
        _ => None,
    }
}

pub fn token_agg(token: &Token) -> Option<Agg>
    ensures { result ≡ token_agg token.now }
{
    match token {
        Token::Word(Keyword::KCOUNT) => Some(Agg::Count),
        Token::Word(Keyword::KSUM) => Some(Agg::Sum),
        Token::Word(Keyword::KMIN) => Some(Agg::Min),
        Token::Word(Keyword::KMAX) => Some(Agg::Max),
        Token::Word(Keyword::KMEAN) => Some(Agg::Mean),
        Token::Word(Keyword::KMEDIAN) => Some(Agg::Median),
        _ => None,
    }
}

fn token_kind(token: &Token) -> Option<IndexKind>
    ensures { result ≡ token_kind token.now }
{
    match token {
        Token::Word(Keyword::KINLINE) => Some(IndexKind::Inline),
        Token::Word(Keyword::KMAXHEAP) => Some(IndexKind::MaxHeap),
        Token::Word(Keyword::KMEMHASH) => Some(IndexKind::MemHash),
        _ => None,
    }
}

/// A value, after a minus or not.
pub fn token_value(negative: bool, token: &Token) -> Option<Value>
    ensures { result ≡ token_value negative token.now }
{
    match token {
        Token::Number(number) => Some(Value::Number(if negative {
            minus(*number)
        } else {
            *number
        })),
        Token::Quoted(text) => Some(Value::Text(*text)),
        _ => None,
    }
}

pub fn is_minus(token: &Token) -> bool
    ensures { result ≡ is_minus token.now }
{
    matches!(token, Token::Sign(Sign::Minus))
}

pub fn is_from(token: &Token) -> bool
    ensures { result ≡ is_from token.now }
{
    matches!(token, Token::Word(Keyword::KFROM))
}

/// The words that a relation's name follows, after lists and domains.
pub fn introduces(token: &Token) -> bool
    ensures { result ≡ introduces token.now }
{
    matches!(
        token,
        Token::Word(Keyword::KFROM | Keyword::KINTO | Keyword::KIN)
    )
}

fn token_number(token: &Token) -> Option<i64>
    ensures { result ≡ token_number token.now }
{
    match token {
        Token::Number(number) => Some(*number),
        _ => None,
    }
}

pub fn name_at(tokens: &[Token], at: usize) -> Option<Ident>
    ensures { result ≡ name_token_at tokens.now at }
{
    match tokens.get(at) {
        Some(token) => token_name(token),
        None => None,
    }
}

pub fn number_at(tokens: &[Token], at: usize) -> Option<i64>
    ensures { result ≡ number_token_at tokens.now at }
{
    match tokens.get(at) {
        Some(token) => token_number(token),
        None => None,
    }
}

pub fn kind_at(tokens: &[Token], at: usize) -> Option<IndexKind>
    ensures { result ≡ kind_at tokens.now at }
{
    match tokens.get(at) {
        Some(token) => token_kind(token),
        None => None,
    }
}
