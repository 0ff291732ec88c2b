//! Names, values, the words and signs that must come, and the commas of lists.

#![tactic(auto)]

ghost use Rattle.std.specs.Prelude.{◌≡◌, ◌≤◌, List, length};
ghost use Rattle.aql_parse.specs.Machine.{item_move};
ghost use Rattle.aql_parse.specs.Moves.{Moved};
ghost use Rattle.aql_parse.specs.declared.symbols.Symbol.{Symbol as SymbolType};
ghost use Rattle.db_model.specs.Grammar.{is_time};

use crate::stack::Stack;
use crate::symbols::Symbol;
use db_model::{Ident, Keyword, Sign, Token};

pub fn item_moves(symbol: Symbol, token: &Token, stack: &mut Stack) -> bool
    requires { length stack.old ≤ 2056 }
    ensures { Moved (item_move symbol token.now) stack.old stack.new result }
{
    match symbol {
        Symbol::Name => matches!(token, Token::Name(_)),
        Symbol::Number => matches!(token, Token::Number(_)),
        Symbol::Value => value_moves(token, stack),
        Symbol::Aggregate => aggregate_moves(token, stack),
        Symbol::MoreNames(n) => more_names(n, token, stack),
        Symbol::MoreValues(n) => more_values(n, token, stack),
        Symbol::MoreAggregates(n) => more_aggregates(n, token, stack),
        Symbol::Domain => domain_moves(token, stack),
        Symbol::Kind => is_kind(token),
        Symbol::WordDomain => matches!(token, Token::Word(Keyword::KDOMAIN)),
        Symbol::WordIn => matches!(token, Token::Word(Keyword::KIN)),
        Symbol::WordType => matches!(token, Token::Word(Keyword::KTYPE)),
        Symbol::WordInto => matches!(token, Token::Word(Keyword::KINTO)),
        Symbol::WordFrom => matches!(token, Token::Word(Keyword::KFROM)),
        Symbol::WordOn => matches!(token, Token::Word(Keyword::KON)),
        Symbol::WordProject => matches!(token, Token::Word(Keyword::KPROJECT)),
        Symbol::Opening => matches!(token, Token::Sign(Sign::LeftBracket)),
        Symbol::Closing => matches!(token, Token::Sign(Sign::RightBracket)),
        Symbol::Comma => matches!(token, Token::Sign(Sign::Comma)),
        Symbol::Dot => matches!(token, Token::Sign(Sign::Dot)),
        Symbol::Where => where_moves(token, stack),
        _ => false,
    }
}

fn value_moves(token: &Token, stack: &mut Stack) -> bool
    requires { length stack.old ≤ 2056 }
    ensures { Moved (item_move Symbol.Value token.now) stack.old stack.new result }
{
    match token {
        Token::Number(_) => {}
        Token::Quoted(_) => {}
        Token::Sign(Sign::Minus) => stack.put(&[Symbol::Number]),
        _ => return false,
    }
    true
}

fn aggregate_moves(token: &Token, stack: &mut Stack) -> bool
    requires { length stack.old ≤ 2056 }
    ensures { Moved (item_move Symbol.Aggregate token.now) stack.old stack.new result }
{
    match token {
        Token::Word(
            Keyword::KCOUNT
            | Keyword::KSUM
            | Keyword::KMIN
            | Keyword::KMAX
            | Keyword::KMEAN
            | Keyword::KMEDIAN,
        ) => stack.put(&[Symbol::Opening, Symbol::Name, Symbol::Closing]),
        _ => return false,
    }
    true
}

fn more_names(n: u8, token: &Token, stack: &mut Stack) -> bool
    requires { length stack.old ≤ 2056 }
    ensures { Moved (item_move (Symbol.MoreNames n) token.now) stack.old stack.new result }
{
    match token {
        Token::Sign(Sign::Comma) if n > 0 => {
            stack.put(&[Symbol::Name, Symbol::MoreNames(n - 1)]);
            true
        }
        _ => false,
    }
}

fn more_values(n: u8, token: &Token, stack: &mut Stack) -> bool
    requires { length stack.old ≤ 2056 }
    ensures { Moved (item_move (Symbol.MoreValues n) token.now) stack.old stack.new result }
{
    match token {
        Token::Sign(Sign::Comma) if n > 0 => {
            stack.put(&[Symbol::Value, Symbol::MoreValues(n - 1)]);
            true
        }
        _ => false,
    }
}

fn more_aggregates(n: u8, token: &Token, stack: &mut Stack) -> bool
    requires { length stack.old ≤ 2056 }
    ensures { Moved (item_move (Symbol.MoreAggregates n) token.now) stack.old stack.new result }
{
    match token {
        Token::Sign(Sign::Comma) if n > 0 => {
            stack.put(&[Symbol::Aggregate, Symbol::MoreAggregates(n - 1)]);
            true
        }
        _ => false,
    }
}

fn domain_moves(token: &Token, stack: &mut Stack) -> bool
    requires { length stack.old ≤ 2056 }
    ensures { Moved (item_move Symbol.Domain token.now) stack.old stack.new result }
{
    match token {
        Token::Word(Keyword::KINT) => true,
        Token::Word(Keyword::KLONG) => true,
        Token::Word(Keyword::KSTRING) => {
            stack.put(&[Symbol::Opening, Symbol::Number, Symbol::Closing]);
            true
        }
        Token::Name(name) => is_time(name),
        _ => false,
    }
}

/// Whether a name is TIME, in any letter case.
pub fn is_time(name: &Ident) -> bool
    ensures { result ≡ is_time name.now }
{
    name.bytes().eq_ignore_ascii_case(b"TIME")
}

fn is_kind(token: &Token) -> bool
    ensures { (stack : List SymbolType) → Moved (item_move Symbol.Kind token.now) stack stack result }
{
    matches!(
        token,
        Token::Word(Keyword::KINLINE | Keyword::KMAXHEAP | Keyword::KMEMHASH)
    )
}

fn where_moves(token: &Token, stack: &mut Stack) -> bool
    requires { length stack.old ≤ 2056 }
    ensures { Moved (item_move Symbol.Where token.now) stack.old stack.new result }
{
    match token {
        Token::Word(Keyword::KWHERE) => stack.put(&[Symbol::Inside(0), Symbol::Ands, Symbol::Ors]),
        _ => return false,
    }
    true
}
