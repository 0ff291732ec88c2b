//! A stack of a fixed capacity.

#![tactic(auto)]

ghost use Rattle.std.specs.Prelude.{◌≡◌, ◌<◌, ◌≤◌, [], ◌∷◌, length};
ghost use Rattle.lvm.specs.Stack.{rest, top_or};

use std::marker::Model;

/// A stack of at most `N` items, which are put in place. Contracts see it as a list, the top first.
#[derive(Drop)]
pub struct Stack<T, const N: usize> {
    items: [T; N],
    len: usize,
}

impl<T, const N: usize> Model for Stack<T, N> {
    ghost use Rattle.std.specs.Prelude.{◌≡◌, ◌≤◌, List, length, reverse, take};
    ghost use Rattle.std.specs.Coded.{coded_list};

    ghost Value = { List T };

    ghost coded = { coded_list T.code };

    ghost view = { λ s. reverse (take s.len s.items) };

    ghost invariant = { λ s. (s.len ≤ N) × (length s.items ≡ N) };
}

impl<T: Default + Copy, const N: usize> Stack<T, N> {
    /// The empty stack.
    pub fn new() -> Self
        ensures { result ≡ [] }
    {
        Stack {
            items: [T::default(); N],
            len: 0,
        }
    }
}

impl<T: Default + Copy, const N: usize> Stack<T, N> {
    /// Puts an item on the top.
    pub fn push(&mut self, item: T)
        requires { length self.old < N }
        ensures { self.new ≡ item ∷ self.old }
    {
        self.items[self.len] = item;
        self.len += 1;
    }

    /// Takes the item from the top, `other` where there is none.
    pub fn pop_or(&mut self, other: T) -> T
        ensures top { result ≡ top_or other self.old }
        ensures rest { self.new ≡ rest self.old }
        ensures fewer { length self.new ≤ length self.old }
    {
        if self.len == 0 {
            return other;
        }
        self.len -= 1;
        self.items[self.len]
    }

    /// Takes the two items from the top, the lower one first, and `other` for each that lacks.
    pub fn pop_two_or(&mut self, other: T) -> (T, T)
        ensures lower { result.0 ≡ top_or other (rest self.old) }
        ensures top { result.1 ≡ top_or other self.old }
        ensures rest { self.new ≡ rest (rest self.old) }
        ensures fewer { length self.new ≤ length self.old }
    {
        let top = self.pop_or(other);
        let lower = self.pop_or(other);
        (lower, top)
    }
}
