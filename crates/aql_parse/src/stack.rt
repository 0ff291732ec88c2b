//! The stack of what is still to come.

#![tactic(auto)]

ghost use Rattle.std.specs.Prelude.{◌≡◌, ◌+◌, ◌<◌, ◌≤◌, [], ◌∷◌, ◌++◌, length, MatchOption};
ghost use Rattle.aql_parse.specs.Codes.{AllFit, FitsSymbol};

use crate::codes::{code_of, symbol_of};
use crate::symbols::Symbol;
use arrayvec::ArrayVec;
use std::marker::Model;

/// A stack of at most 2,064 symbols, each by its code. Contracts see it as a list, the next symbol
/// first.
#[derive(Drop)]
pub struct Stack {
    codes: ArrayVec<u16, 2064>,
}

impl Model for Stack {
    ghost use Rattle.std.specs.Prelude.{◌≤◌, List, length, map, reverse};
    ghost use Rattle.aql_parse.specs.Codes.{symbol_of};
    ghost use Rattle.aql_parse.specs.declared.symbols.Symbol.{Symbol};

    ghost Value = { List Symbol };

    ghost view = { λ s. map symbol_of (reverse s.codes.items) };

    ghost invariant = { λ s. length s.codes.items ≤ 2064 };
}

impl Stack {
    pub fn new() -> Stack
        ensures { result ≡ [] }
    {
        Stack {
            codes: ArrayVec::new(),
        }
    }

    /// Takes all symbols off.
    pub fn clear(&mut self)
        ensures { self.new ≡ [] }
    {
        self.codes.clear();
    }

    /// Puts a symbol on top.
    pub fn push(&mut self, symbol: Symbol)
        requires room { length self.old < 2064 }
        requires fits { FitsSymbol symbol }
        ensures { self.new ≡ symbol ∷ self.old }
    {
        self.codes.push(code_of(symbol));
    }

    /// Takes the symbol on top; None where there is none.
    // Inlined, as what it calls is, so that a symbol is told from its code and used in one step.
    #[inline(always)]
    pub fn pop(&mut self) -> Option<Symbol>
        ensures none { MatchOption result (self.old ≡ []) (λ symbol. self.old ≡ symbol ∷ self.new) }
        ensures empty { MatchOption result (self.new ≡ []) (λ _. Unit {0}) }
    {
        match self.codes.pop() {
            Some(code) => Some(symbol_of(code)),
            None => None,
        }
    }

    /// Puts symbols on top, so that the first of them comes next.
    pub fn put(&mut self, symbols: &[Symbol])
        requires room { length symbols.now + length self.old ≤ 2064 }
        requires fit { AllFit symbols.now }
        ensures { self.new ≡ symbols.now ++ self.old }
    {
        let mut left = symbols.len();
        while left > 0 {
            left -= 1;
            self.push(symbols[left]);
        }
    }
}
