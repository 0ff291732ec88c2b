//! The words that begin a command and its parts.

#![tactic(auto)]

ghost use Rattle.std.specs.Prelude.{◌≡◌, ◌++◌, ◌≤◌, length};
ghost use Rattle.aql_parse.specs.Machine.{aggregate_symbols, head_move, inserted, joined_query};
ghost use Rattle.aql_parse.specs.Moves.{Moved};

use crate::stack::Stack;
use crate::symbols::Symbol;
use db_model::{Keyword, Token};

/// The words that begin a command and its parts.
pub fn head_moves(symbol: Symbol, token: &Token, stack: &mut Stack) -> bool
    requires { length stack.old ≤ 2056 }
    ensures { Moved (head_move symbol token.now) stack.old stack.new result }
{
    match symbol {
        Symbol::Command => command_moves(token, stack),
        Symbol::Create => create_moves(token, stack),
        Symbol::Remove => remove_moves(token, stack),
        Symbol::Query => query_moves(token, stack),
        Symbol::Selection => selection_moves(token, stack),
        _ => false,
    }
}

fn command_moves(token: &Token, stack: &mut Stack) -> bool
    requires { length stack.old ≤ 2056 }
    ensures { Moved (head_move Symbol.Command token.now) stack.old stack.new result }
{
    match token {
        Token::Word(Keyword::KCREATE) => stack.put(&[Symbol::Create]),
        Token::Word(Keyword::KINSERT) => put_insert(stack),
        Token::Word(Keyword::KSELECT) => stack.put(&[Symbol::Selection]),
        Token::Word(Keyword::KJOIN) => put_join(stack),
        Token::Word(Keyword::KREMOVE) => stack.put(&[Symbol::Remove]),
        Token::Word(Keyword::KPACK) => stack.put(&[Symbol::Name]),
        Token::Word(Keyword::KOPEN) => stack.put(&[Symbol::Number, Symbol::Query]),
        Token::Word(Keyword::KFETCH) => stack.put(&[Symbol::Number]),
        Token::Word(Keyword::KCLOSE) => stack.put(&[Symbol::Number]),
        _ => return false,
    }
    true
}

fn put_insert(stack: &mut Stack)
    requires { length stack.old ≤ 2056 }
    ensures { stack.new ≡ inserted ++ stack.old }
{
    stack.put(&[
        Symbol::Opening,
        Symbol::Value,
        Symbol::MoreValues(7),
        Symbol::Closing,
        Symbol::WordInto,
        Symbol::Name,
    ]);
}

fn put_join(stack: &mut Stack)
    requires { length stack.old ≤ 2056 }
    ensures { stack.new ≡ joined_query ++ stack.old }
{
    stack.put(&[
        Symbol::Name,
        Symbol::Comma,
        Symbol::Name,
        Symbol::WordOn,
        Symbol::Name,
        Symbol::WordProject,
        Symbol::Name,
        Symbol::MoreNames(7),
    ]);
}

fn create_moves(token: &Token, stack: &mut Stack) -> bool
    requires { length stack.old ≤ 2056 }
    ensures { Moved (head_move Symbol.Create token.now) stack.old stack.new result }
{
    match token {
        Token::Word(Keyword::KRELATION) => stack.put(&[Symbol::Name]),
        Token::Word(Keyword::KATTRIBUTE) => stack.put(&[
            Symbol::Name,
            Symbol::WordDomain,
            Symbol::Domain,
            Symbol::WordIn,
            Symbol::Name,
        ]),
        Token::Word(Keyword::KINDEX) => stack.put(&[
            Symbol::Name,
            Symbol::Dot,
            Symbol::Name,
            Symbol::WordType,
            Symbol::Kind,
        ]),
        _ => return false,
    }
    true
}

fn remove_moves(token: &Token, stack: &mut Stack) -> bool
    requires { length stack.old ≤ 2056 }
    ensures { Moved (head_move Symbol.Remove token.now) stack.old stack.new result }
{
    match token {
        Token::Word(Keyword::KFROM) => stack.put(&[Symbol::Name, Symbol::Where]),
        Token::Word(Keyword::KRELATION) => stack.put(&[Symbol::Name]),
        Token::Word(Keyword::KINDEX) => stack.put(&[Symbol::Name, Symbol::Dot, Symbol::Name]),
        _ => return false,
    }
    true
}

fn query_moves(token: &Token, stack: &mut Stack) -> bool
    requires { length stack.old ≤ 2056 }
    ensures { Moved (head_move Symbol.Query token.now) stack.old stack.new result }
{
    match token {
        Token::Word(Keyword::KSELECT) => stack.put(&[
            Symbol::Name,
            Symbol::MoreNames(7),
            Symbol::WordFrom,
            Symbol::Name,
            Symbol::Where,
        ]),
        Token::Word(Keyword::KJOIN) => put_join(stack),
        _ => return false,
    }
    true
}

fn selection_moves(token: &Token, stack: &mut Stack) -> bool
    requires { length stack.old ≤ 2056 }
    ensures { Moved (head_move Symbol.Selection token.now) stack.old stack.new result }
{
    match token {
        Token::Name(_) => stack.put(&[
            Symbol::MoreNames(7),
            Symbol::WordFrom,
            Symbol::Name,
            Symbol::Where,
        ]),
        Token::Word(
            Keyword::KCOUNT
            | Keyword::KSUM
            | Keyword::KMIN
            | Keyword::KMAX
            | Keyword::KMEAN
            | Keyword::KMEDIAN,
        ) => put_aggregates(stack),
        _ => return false,
    }
    true
}

fn put_aggregates(stack: &mut Stack)
    requires { length stack.old ≤ 2056 }
    ensures { stack.new ≡ aggregate_symbols ++ stack.old }
{
    stack.put(&[
        Symbol::Opening,
        Symbol::Name,
        Symbol::Closing,
        Symbol::MoreAggregates(7),
        Symbol::WordFrom,
        Symbol::Name,
        Symbol::Where,
    ]);
}
