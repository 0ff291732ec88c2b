//! Lists of a fixed capacity.

#![tactic(auto)]

ghost use Rattle.std.specs.Prelude.{◌≡◌, ◌<◌, ◌≤◌, ◌==◌, List, [], ◌∷◌, ◌++◌, length, slice_index_or};

use arrayvec::ArrayVec;
use std::marker::Model;

/// A list of at most `N` items, which takes no memory but its own. Contracts see it as a list.
#[derive(Drop)]
pub struct Few<T, const N: usize> {
    items: ArrayVec<T, N>,
}

impl<T, const N: usize> Model for Few<T, N> {
    ghost use Rattle.std.specs.Prelude.{◌≤◌, List, length};
    ghost use Rattle.std.specs.Coded.{coded_list};

    ghost Value = { List T };

    ghost coded = { coded_list T.code };

    ghost view = { λ s. s.items.items };

    ghost invariant = { λ s. length s.items.items ≤ N };
}

impl<T: Default, const N: usize> Few<T, N> {
    /// The empty list.
    pub fn new() -> Self
        ensures { result ≡ [] }
    {
        Few {
            items: ArrayVec::new(),
        }
    }
}

impl<T, const N: usize> Few<T, N> {
    /// How many items the list has, at most `N`.
    pub fn len(&self) -> usize
        ensures value { result ≡ length self.now }
        ensures few { result ≤ N }
    {
        self.items.len()
    }

    /// Whether the list has no item.
    pub fn is_empty(&self) -> bool
        ensures { result ≡ (length self.now == 0) }
    {
        self.items.is_empty()
    }

    /// The items in order, at most `N`.
    pub fn as_slice(&self) -> &[T]
        ensures items { result.now ≡ self.now }
        ensures few { length result.now ≤ N }
    {
        self.items.as_slice()
    }

    /// The item at the place `at`, counted from 0.
    pub fn get(&self, at: usize) -> &T
        requires { at < length self.now }
        ensures { result.now ≡ slice_index_or self.now at result.now }
    {
        &self.items.as_slice()[at]
    }
}

impl<T: Default + Drop, const N: usize> Few<T, N> {
    /// Puts `item` after the last.
    pub fn push(&mut self, item: T)
        requires { length self.old < N }
        ensures { self.new ≡ self.old ++ item ∷ [] }
    {
        self.items.push(item);
    }

    /// Empties the list.
    pub fn clear(&mut self)
        ensures { self.new ≡ [] }
    {
        self.items.clear();
    }
}

impl<T: Default, const N: usize> Default for Few<T, N> {
    ghost is_default = { λ list. list ≡ [] };

    fn default() -> Self {
        Few::new()
    }
}
