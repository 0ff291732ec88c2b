//! Conditions: what they are made of, and the nodes that this brings.

#![tactic(auto)]

ghost use Rattle.std.specs.Prelude.{◌≡◌, ◌++◌, ◌≤◌, List, length, true};
ghost use Rattle.aql_parse.specs.Machine.{comparison_move, condition_move, operand};
ghost use Rattle.aql_parse.specs.Moves.{IsKeptByMove, Moved, bulk};
ghost use Rattle.aql_parse.specs.declared.symbols.Symbol.{Symbol as SymbolType};
ghost use Rattle.db_model.specs.Grammar.{minus};

use crate::nodes::Nodes;
use crate::stack::Stack;
use crate::symbols::{Joint, Symbol};
use db_model::{Compare, Keyword, Node, Sign, Token};

pub fn condition_moves(symbol: Symbol, token: &Token, stack: &mut Stack, nodes: &mut Nodes) -> bool
    requires room { length stack.old ≤ 2056 }
    requires brackets { bulk symbol ≤ 2060 }
    ensures stack { Moved (condition_move symbol token.now) stack.old stack.new result }
    ensures nodes { IsKeptByMove (condition_move symbol token.now) nodes.old nodes.new }
{
    match symbol {
        Symbol::Inside(n) => inside_moves(n, token, stack, nodes),
        Symbol::Behind(n) => behind_moves(n, token, stack),
        Symbol::Around(n) => around_moves(n, token, stack),
        Symbol::Factor => factor_moves(token, stack, nodes),
        Symbol::Negative => negative_moves(token, nodes),
        Symbol::Ands => ands_moves(token, stack),
        Symbol::Ors => ors_moves(token, stack),
        Symbol::Products => products_moves(token, stack),
        Symbol::Sums => sums_moves(token, stack),
        _ => false,
    }
}

// A condition without AND and OR inside n brackets that may be an expression's.
fn inside_moves(n: u16, token: &Token, stack: &mut Stack, nodes: &mut Nodes) -> bool
    requires room { length stack.old ≤ 2056 }
    requires brackets { n ≤ 514 }
    ensures stack { Moved (condition_move (Symbol.Inside n) token.now) stack.old stack.new result }
    ensures nodes { IsKeptByMove (condition_move (Symbol.Inside n) token.now) nodes.old nodes.new }
{
    match token {
        Token::Sign(Sign::LeftBracket) => stack.put(&[Symbol::Inside(n + 1)]),
        Token::Word(Keyword::KNOT) => stack.put(&[
            Symbol::Inside(0),
            Symbol::Join(Joint::Not),
            Symbol::Around(n),
        ]),
        Token::Sign(Sign::Minus) => stack.put(&[
            Symbol::Negative,
            Symbol::Products,
            Symbol::Sums,
            Symbol::Behind(n),
        ]),
        Token::Number(z) => {
            nodes.put(Node::Number(*z));
            put_operand(n, stack)
        }
        Token::Quoted(text) => {
            nodes.put(Node::Text(*text));
            put_operand(n, stack)
        }
        Token::Name(name) => {
            nodes.put(Node::Attribute(*name));
            put_operand(n, stack)
        }
        _ => return false,
    }
    true
}

// What follows an operand inside n brackets.
fn put_operand(n: u16, stack: &mut Stack)
    requires room { length stack.old ≤ 2056 }
    requires brackets { n ≤ 514 }
    ensures { stack.new ≡ operand n ++ stack.old }
{
    stack.put(&[Symbol::Products, Symbol::Sums, Symbol::Behind(n)]);
}

// What makes a condition of an expression inside n brackets.
fn behind_moves(n: u16, token: &Token, stack: &mut Stack) -> bool
    requires room { length stack.old ≤ 2056 }
    requires brackets { n ≤ 514 }
    ensures { Moved (condition_move (Symbol.Behind n) token.now) stack.old stack.new result }
{
    match token {
        Token::Sign(Sign::RightBracket) if n > 0 => put_operand(n - 1, stack),
        Token::Sign(Sign::Equal) => put_comparison(Compare::Eq, n, stack),
        Token::Sign(Sign::Unequal) => put_comparison(Compare::Ne, n, stack),
        Token::Sign(Sign::Less) => put_comparison(Compare::Lt, n, stack),
        Token::Sign(Sign::LessEqual) => put_comparison(Compare::Le, n, stack),
        Token::Sign(Sign::Greater) => put_comparison(Compare::Gt, n, stack),
        Token::Sign(Sign::GreaterEqual) => put_comparison(Compare::Ge, n, stack),
        _ => return false,
    }
    true
}

fn put_comparison(how: Compare, n: u16, stack: &mut Stack)
    requires room { length stack.old ≤ 2056 }
    requires brackets { n ≤ 514 }
    ensures { Moved (comparison_move n how) stack.old stack.new true }
{
    stack.put(&[
        Symbol::Factor,
        Symbol::Products,
        Symbol::Sums,
        Symbol::Join(Joint::Compare(how)),
        Symbol::Around(n),
    ]);
}

// What may follow inside n brackets of conditions.
fn around_moves(n: u16, token: &Token, stack: &mut Stack) -> bool
    requires room { length stack.old ≤ 2056 }
    requires brackets { n ≤ 514 }
    ensures { Moved (condition_move (Symbol.Around n) token.now) stack.old stack.new result }
{
    match token {
        Token::Word(Keyword::KAND) if n > 0 => stack.put(&[
            Symbol::Inside(0),
            Symbol::Join(Joint::And),
            Symbol::Around(n),
        ]),
        Token::Word(Keyword::KOR) if n > 0 => stack.put(&[
            Symbol::Inside(0),
            Symbol::Ands,
            Symbol::Join(Joint::Or),
            Symbol::Ors,
            Symbol::Closing,
            Symbol::Around(n - 1),
        ]),
        Token::Sign(Sign::RightBracket) if n > 0 => stack.put(&[Symbol::Around(n - 1)]),
        _ => return false,
    }
    true
}

fn factor_moves(token: &Token, stack: &mut Stack, nodes: &mut Nodes) -> bool
    requires { length stack.old ≤ 2056 }
    ensures stack { Moved (condition_move Symbol.Factor token.now) stack.old stack.new result }
    ensures nodes { IsKeptByMove (condition_move Symbol.Factor token.now) nodes.old nodes.new }
{
    match token {
        Token::Number(z) => nodes.put(Node::Number(*z)),
        Token::Quoted(text) => nodes.put(Node::Text(*text)),
        Token::Name(name) => nodes.put(Node::Attribute(*name)),
        Token::Sign(Sign::Minus) => stack.put(&[Symbol::Negative]),
        Token::Sign(Sign::LeftBracket) => stack.put(&[
            Symbol::Factor,
            Symbol::Products,
            Symbol::Sums,
            Symbol::Closing,
        ]),
        _ => return false,
    }
    true
}

// The number after a minus.
fn negative_moves(token: &Token, nodes: &mut Nodes) -> bool
    ensures stack { (stack : List SymbolType)
        → Moved (condition_move Symbol.Negative token.now) stack stack result }
    ensures nodes { IsKeptByMove (condition_move Symbol.Negative token.now) nodes.old nodes.new }
{
    match token {
        Token::Number(z) => nodes.put(Node::Number(minus(*z))),
        _ => return false,
    }
    true
}

/// Minus a NUMBER, which has no sign of its own.
pub fn minus(number: i64) -> i64
    ensures { result ≡ minus number }
{
    if number > 0 { -number } else { number }
}

fn ands_moves(token: &Token, stack: &mut Stack) -> bool
    requires { length stack.old ≤ 2056 }
    ensures { Moved (condition_move Symbol.Ands token.now) stack.old stack.new result }
{
    match token {
        Token::Word(Keyword::KAND) => stack.put(&[
            Symbol::Inside(0),
            Symbol::Join(Joint::And),
            Symbol::Ands,
        ]),
        _ => return false,
    }
    true
}

fn ors_moves(token: &Token, stack: &mut Stack) -> bool
    requires { length stack.old ≤ 2056 }
    ensures { Moved (condition_move Symbol.Ors token.now) stack.old stack.new result }
{
    match token {
        Token::Word(Keyword::KOR) => stack.put(&[
            Symbol::Inside(0),
            Symbol::Ands,
            Symbol::Join(Joint::Or),
            Symbol::Ors,
        ]),
        _ => return false,
    }
    true
}

fn products_moves(token: &Token, stack: &mut Stack) -> bool
    requires { length stack.old ≤ 2056 }
    ensures { Moved (condition_move Symbol.Products token.now) stack.old stack.new result }
{
    let joint = match token {
        Token::Sign(Sign::Star) => Joint::Mul,
        Token::Sign(Sign::Slash) => Joint::Div,
        _ => return false,
    };
    stack.put(&[Symbol::Factor, Symbol::Join(joint), Symbol::Products]);
    true
}

fn sums_moves(token: &Token, stack: &mut Stack) -> bool
    requires { length stack.old ≤ 2056 }
    ensures { Moved (condition_move Symbol.Sums token.now) stack.old stack.new result }
{
    let joint = match token {
        Token::Sign(Sign::Plus) => Joint::Add,
        Token::Sign(Sign::Minus) => Joint::Sub,
        _ => return false,
    };
    stack.put(&[
        Symbol::Factor,
        Symbol::Products,
        Symbol::Join(joint),
        Symbol::Sums,
    ]);
    true
}
