//! Symbols in two bytes: so the stack keeps them.

#![tactic(auto)]

ghost use Rattle.std.specs.Prelude.{◌≡◌};
ghost use Rattle.aql_parse.specs.Codes.{FitsSymbol, joiner, symbol_by, symbol_of};

use crate::symbols::{Joint, Symbol};
use db_model::Compare;

/// The code of a symbol: its number times 64, and its kind.
#[inline(always)]
pub fn code_of(symbol: Symbol) -> u16
    requires { FitsSymbol symbol }
    ensures { symbol_of result ≡ symbol }
{
    match symbol {
        Symbol::Command => 0,
        Symbol::Create => 1,
        Symbol::Remove => 2,
        Symbol::Query => 3,
        Symbol::Selection => 4,
        Symbol::Name => 5,
        Symbol::Number => 6,
        Symbol::Value => 7,
        Symbol::Aggregate => 8,
        Symbol::Domain => 9,
        Symbol::Kind => 10,
        Symbol::WordDomain => 11,
        Symbol::WordIn => 12,
        Symbol::WordType => 13,
        Symbol::WordInto => 14,
        Symbol::WordFrom => 15,
        Symbol::WordOn => 16,
        Symbol::WordProject => 17,
        Symbol::Opening => 18,
        Symbol::Closing => 19,
        Symbol::Comma => 20,
        Symbol::Dot => 21,
        Symbol::Where => 22,
        Symbol::Ands => 23,
        Symbol::Ors => 24,
        Symbol::Factor => 25,
        Symbol::Negative => 26,
        Symbol::Products => 27,
        Symbol::Sums => 28,
        Symbol::MoreNames(n) => 64 * u16::from(n) + 29,
        Symbol::MoreValues(n) => 64 * u16::from(n) + 30,
        Symbol::MoreAggregates(n) => 64 * u16::from(n) + 31,
        Symbol::Inside(n) => 64 * n + 32,
        Symbol::Behind(n) => 64 * n + 33,
        Symbol::Around(n) => 64 * n + 34,
        Symbol::Join(joint) => join_code(joint),
    }
}

#[inline(always)]
fn join_code(joint: Joint) -> u16
    ensures { symbol_of result ≡ Symbol.Join joint }
{
    match joint {
        Joint::Add => 35,
        Joint::Sub => 36,
        Joint::Mul => 37,
        Joint::Div => 38,
        Joint::Compare(Compare::Eq) => 39,
        Joint::Compare(Compare::Ne) => 40,
        Joint::Compare(Compare::Lt) => 41,
        Joint::Compare(Compare::Le) => 42,
        Joint::Compare(Compare::Gt) => 43,
        Joint::Compare(Compare::Ge) => 44,
        Joint::And => 45,
        Joint::Or => 46,
        Joint::Not => 47,
    }
}

/// The symbol of a code.
#[inline(always)]
pub fn symbol_of(code: u16) -> Symbol
    ensures { result ≡ symbol_of code }
{
    symbol_by(code % 64, code / 64)
}

#[inline(always)]
fn symbol_by(kind: u16, n: u16) -> Symbol
    ensures { result ≡ symbol_by kind n }
{
    match kind {
        0 => Symbol::Command,
        1 => Symbol::Create,
        2 => Symbol::Remove,
        3 => Symbol::Query,
        4 => Symbol::Selection,
        5 => Symbol::Name,
        6 => Symbol::Number,
        7 => Symbol::Value,
        8 => Symbol::Aggregate,
        9 => Symbol::Domain,
        10 => Symbol::Kind,
        11 => Symbol::WordDomain,
        12 => Symbol::WordIn,
        13 => Symbol::WordType,
        14 => Symbol::WordInto,
        15 => Symbol::WordFrom,
        16 => Symbol::WordOn,
        17 => Symbol::WordProject,
        18 => Symbol::Opening,
        19 => Symbol::Closing,
        20 => Symbol::Comma,
        21 => Symbol::Dot,
        22 => Symbol::Where,
        23 => Symbol::Ands,
        24 => Symbol::Ors,
        25 => Symbol::Factor,
        26 => Symbol::Negative,
        27 => Symbol::Products,
        28 => Symbol::Sums,
        29 => Symbol::MoreNames((n % 256) as u8),
        30 => Symbol::MoreValues((n % 256) as u8),
        31 => Symbol::MoreAggregates((n % 256) as u8),
        32 => Symbol::Inside(n),
        33 => Symbol::Behind(n),
        34 => Symbol::Around(n),
        _ => join_of(kind),
    }
}

#[inline(always)]
fn join_of(kind: u16) -> Symbol
    ensures { result ≡ joiner kind }
{
    match kind {
        35 => Symbol::Join(Joint::Add),
        36 => Symbol::Join(Joint::Sub),
        37 => Symbol::Join(Joint::Mul),
        38 => Symbol::Join(Joint::Div),
        39 => Symbol::Join(Joint::Compare(Compare::Eq)),
        40 => Symbol::Join(Joint::Compare(Compare::Ne)),
        41 => Symbol::Join(Joint::Compare(Compare::Lt)),
        42 => Symbol::Join(Joint::Compare(Compare::Le)),
        43 => Symbol::Join(Joint::Compare(Compare::Gt)),
        44 => Symbol::Join(Joint::Compare(Compare::Ge)),
        45 => Symbol::Join(Joint::And),
        46 => Symbol::Join(Joint::Or),
        _ => Symbol::Join(Joint::Not),
    }
}
